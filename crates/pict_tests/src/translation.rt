// Program texts and their core processes, written out.

use crate::blocks::parts;
use pict_core::{Core, CorePat, CoreVal};
use pict_derive::{DeriveError, derive};
use pict_lex::lex;
use pict_parse::parse;
use pict_scope::resolve;
use pict_syntax::{Name, Names, Prim};
use std::alloc::{AllocError, Global};

// ---- core processes as text: `vN` is the variable of level N, `^p` a new channel around p, `x` a variable of a pattern

fn write_primitive(p: Prim, out: &mut Vec<u8>) -> Result<(), AllocError> {
    let name = match p {
        Prim::Print => b"print".as_slice(),
        Prim::Printi => b"printi".as_slice(),
        Prim::Pr => b"pr".as_slice(),
        Prim::Add => b"+".as_slice(),
        Prim::Subtract => b"-".as_slice(),
        Prim::Equal => b"==".as_slice(),
        _ => b"other".as_slice(),
    };
    out.extend_from_slice(name)
}

/// Writes a number below 100.
fn write_number(n: u64, out: &mut Vec<u8>) -> Result<(), AllocError> {
    if n >= 10 {
        out.push(b'0' + (n / 10 % 10) as u8)?;
    }
    out.push(b'0' + (n % 10) as u8)?;
    Ok(())
}

#[cycle(write_value)]
fn write_value(v: &CoreVal, names: &Names, out: &mut Vec<u8>) -> Result<(), AllocError> {
    match v {
        CoreVal::Var(level) => {
            out.push(b'v')?;
            write_number(*level as u64, out)
        }
        CoreVal::Int(n) => write_number(n.unsigned_abs(), out),
        CoreVal::Text(bytes) => {
            out.push(b'"')?;
            out.extend_from_slice(bytes.slice())?;
            out.push(b'"')?;
            Ok(())
        }
        CoreVal::Bool(true) => out.extend_from_slice(b"true"),
        CoreVal::Prim(p) => write_primitive(*p, out),
        CoreVal::Fields {
            positional,
            labelled,
        } => {
            out.push(b'[')?;
            write_values(positional, names, out)?;
            write_fields(labelled, names, out)?;
            out.push(b']')?;
            Ok(())
        }
        _ => out.extend_from_slice(b"other"),
    }
}

#[cycle(write_value)]
fn write_values(vs: &[CoreVal], names: &Names, out: &mut Vec<u8>) -> Result<(), AllocError> {
    for v in vs {
        write_value(v, names, out)?;
        out.push(b' ')?;
    }
    Ok(())
}

#[cycle(write_value)]
fn write_fields(
    fields: &[(Name, CoreVal)],
    names: &Names,
    out: &mut Vec<u8>,
) -> Result<(), AllocError> {
    for field in fields {
        out.extend_from_slice(names.text(field.0))?;
        out.push(b'=')?;
        write_value(&field.1, names, out)?;
        out.push(b' ')?;
    }
    Ok(())
}

#[cycle(write_pattern)]
fn write_pattern(p: &CorePat, names: &Names, out: &mut Vec<u8>) -> Result<(), AllocError> {
    match p {
        CorePat::Bind => {
            out.push(b'x')?;
            Ok(())
        }
        CorePat::Any => {
            out.push(b'_')?;
            Ok(())
        }
        CorePat::Fields {
            positional,
            labelled,
        } => {
            out.push(b'[')?;
            write_patterns(positional, names, out)?;
            write_pattern_fields(labelled, names, out)?;
            out.push(b']')?;
            Ok(())
        }
    }
}

#[cycle(write_pattern)]
fn write_patterns(ps: &[CorePat], names: &Names, out: &mut Vec<u8>) -> Result<(), AllocError> {
    for p in ps {
        write_pattern(p, names, out)?;
        out.push(b' ')?;
    }
    Ok(())
}

#[cycle(write_pattern)]
fn write_pattern_fields(
    fields: &[(Name, CorePat)],
    names: &Names,
    out: &mut Vec<u8>,
) -> Result<(), AllocError> {
    for field in fields {
        out.extend_from_slice(names.text(field.0))?;
        out.push(b'=')?;
        write_pattern(&field.1, names, out)?;
        out.push(b' ')?;
    }
    Ok(())
}

fn write_core(core: &Core, names: &Names, out: &mut Vec<u8>) -> Result<(), AllocError> {
    match core {
        Core::Zero => {
            out.push(b'0')?;
            Ok(())
        }
        Core::Par(left, right) => {
            out.push(b'(')?;
            write_core(left.core(), names, out)?;
            out.push(b'|')?;
            write_core(right.core(), names, out)?;
            out.push(b')')?;
            Ok(())
        }
        Core::New(body) => {
            out.push(b'^')?;
            write_core(body.core(), names, out)
        }
        Core::Out {
            chan,
            message,
            at: _,
        } => {
            write_value(chan, names, out)?;
            out.push(b'!')?;
            write_value(message, names, out)
        }
        Core::In {
            chan,
            replicated,
            pattern,
            body,
        } => {
            write_value(chan, names, out)?;
            out.push(b'?')?;
            if *replicated {
                out.push(b'*')?;
            }
            write_pattern(pattern, names, out)?;
            out.push(b'.')?;
            write_core(body.core(), names, out)
        }
        Core::If { test, yes, no } => {
            out.extend_from_slice(b"if ")?;
            write_value(test, names, out)?;
            out.push(b' ')?;
            write_core(yes.core(), names, out)?;
            out.push(b' ')?;
            write_core(no.core(), names, out)
        }
    }
}

/// The core process of a text, and the names of the text; nothing where it is refused before.
pub fn derived(alloc: Global, names: &mut Names, text: &[u8]) -> Option<Result<Core, DeriveError>> {
    if text.len() > 1_048_576 {
        return None;
    }
    let mut fresh = Names::new(alloc);
    match lex(alloc, &mut fresh, text, 1) {
        Err(_) => None,
        Ok(tokens) => match parse(alloc, &tokens, text.len() as u32) {
            Err(_) => None,
            Ok(program) => match resolve(alloc, &fresh, program) {
                Err(_) => None,
                Ok(scoped) => {
                    let core = derive(alloc, &fresh, &scoped);
                    *names = fresh;
                    Some(core)
                }
            },
        },
    }
}

/// The core process of a text as text; nothing where the text is refused.
fn written(alloc: Global, text: &[u8]) -> Result<Option<Vec<u8>>, AllocError> {
    let mut names = Names::new(alloc);
    match derived(alloc, &mut names, text) {
        Some(Ok(core)) => {
            let mut out = Vec::new(alloc);
            write_core(&core, &names, &mut out)?;
            Ok(Some(out))
        }
        _ => Ok(None),
    }
}

/// Texts, and their core processes.
const PROCESSES: &str = r#"
text:
0

-- an outer name hides a primitive
text: new print:^Int run print!1
^(v0!1|0)

-- arguments from left to right; each nested application answers on a channel of its own
text: run printi!(+ (+ 1 2) (+ 3 4))
(^(v0?*x.printi!v1|^(v1?*x.^(v3?*x.+![v2 v4 v0 ]|+![3 4 v3 ])|+![1 2 v1 ]))|0)

text: run printi!(- > 10 3 2)
(^(v0?*x.printi!v1|^(v1?*x.-![10 v2 v0 ]|-![3 2 v1 ]))|0)

text: run printi!(- < 10 3 2)
(^(v0?*x.printi!v1|^(v1?*x.-![v2 2 v0 ]|-![10 3 v1 ]))|0)

-- effects in the order in which they are written
text: def f (s:String):Int = ((pr s); 1) run printi!(+ (f "a") (f "b"))
^(v0?*[x x ].^(v3?*[].v2!1|pr![v1 v3 ])|(^(v1?*x.printi!v2|^(v2?*x.^(v4?*x.+![v3 v5 v1 ]|v0!["b" v4 ])|v0!["a" v2 ]))|0))

-- labels in the order of their bytes, in values and in patterns
text: val [b=y a=z] = [b=2 a=1] run printi!z
^(v0?*[a=x b=x ].(printi!v1|0)|v0![a=1 b=2 ])

text: val [x b=y a=z] = [3 b=2 a=1] run printi!y
^(v0?*[x a=x b=x ].(printi!v3|0)|v0![3 a=1 b=2 ])

-- a function answers on the channel after its positional fields
text: def f (x:Int):Int = (+ x 1) run printi!(f 2)
^(v0?*[x x ].+![v1 1 v2 ]|(^(v1?*x.printi!v2|v0![2 v1 ])|0))

text: val f = \(x:Int) = (+ x 1) run printi!(f 2)
^(v0?*x.(^(v2?*x.printi!v3|v1![2 v2 ])|0)|^(v1?*[x x ].+![v2 1 v3 ]|v0!v1))

-- folds leave nothing
text: type S = (rec X = ^X) new c:^S run c!(rec c) run c?(rec d) = print!"ok"
^(v0!v0|(v0?x.print!"ok"|0))

text: def a x:Int = b!x and b y:Int = a!y
^^(v0?*x.v1!v2|(v1?*x.v0!v2|0))

text: (pr "a"); run print!"b"
^(v0?*[].(print!"b"|0)|pr!["a" v0 ])

text: run if true then printi!1 else ()
(if true printi!1 0|0)"#;

/// Whether a text has this core process.
fn has_process(alloc: Global, text: &[u8], wanted: &[u8]) -> Result<bool, AllocError> {
    match written(alloc, text)? {
        Some(core) => Ok(core.as_slice() == wanted),
        None => Ok(false),
    }
}

/// The first block of the table whose text has another core process.
fn wrong_block(alloc: Global) -> Result<Option<&'static str>, AllocError> {
    for block in PROCESSES.split("\n\n") {
        let (_, text, wanted) = parts(block, "text:");
        if !has_process(alloc, text.as_bytes(), wanted.as_bytes())? {
            return Ok(Some(block));
        }
    }
    Ok(None)
}

// ---- the counter server, with the prelude before it

pub const PRELUDE: &[u8] = b"type (List X) = (rec L = /[/[] /[X L]])
type (Ref X) = [get=/[/X] set=/[X /[]]]
type Lock = [acquire=/[/[]] release=/[/[]]]
def nil (#X):(List X) = (rec \\[n _] = n![])
def cons (#X x:X l:(List X)):(List X) = (rec \\[_ c] = c![x l])
def foldl [#X #A f:/[A X /A] a:A l:(List X) r:/A] = (
  val (rec u) = l
  u![\\[] = r!a \\[x t] = foldl![f (f a x) t r]])
def ref (#X init:X):(Ref X) = (
  new c:^X
  run c!init
  def get [r:/X] = c?v = (c!v | r!v)
  def set [v:X r:/[]] = c?_ = (c!v | r![])
  [get=get set=set])
def lock ():Lock = (
  new c:^[]
  run c![]
  def acquire [r:/[]] = c?[] = r![]
  def release [r:/[]] = (c![] | r![])
  [acquire=acquire release=release])
";

pub const COUNTER: &[u8] = b"val [get=get set=set] = (ref 0)
val [acquire=acquire release=release] = (lock)
val clients = (cons 1 (cons 2 (cons 3 (nil))))
new done:^[]
def client (n:Int):[] = (
  (acquire);
  val v = (get)
  (set (+ v n));
  (release);
  [])
def start (u:[] n:Int):[] = (run ((client n); done![]) [])
(foldl start [] clients);
run done?[] = done?[] = done?[] = ((pr \"total \"); printi!(get))
";

/// Its core process, a line for each declaration, then what sends the values of the three `val`s, innermost first.
const COUNTER_CORE: [&[u8]; 15] = [
    // nil, cons, foldl
    b"^(v0?*[x ].^(v2?*[x _ ].v3![]|v1!v2)|",
    b"^(v1?*[x x x ].^(v5?*[_ x ].v6![v2 v3 ]|v4!v5)|",
    b"^(v2?*[x x x x ].^(v7?*x.^(v9?*x.v8!v10|^(v10?*x.^(v12?*x.v9![v11 v13 ]|^(v13?*[x x ].^(v16?*x.v2!v17|",
    b"^(v17?*x.v16![v3 v18 v15 v6 ]|v3![v4 v14 v17 ]))|v12!v13))|^(v11?*[].v6!v4|v10!v11)))|v7!v5)|",
    // ref, lock
    b"^(v3?*[x x ].^(v6!v4|^(v7?*[x ].v6?x.(v6!v9|v8!v9)|^(v8?*[x x ].v6?_.(v6!v9|v10![])|v5![get=v7 set=v8 ])))|",
    b"^(v4?*[x ].^(v6![]|^(v7?*[x ].v6?[].v8![]|^(v8?*[x ].(v6![]|v9![])|v5![acquire=v7 release=v8 ])))|",
    // the three `val`s, done
    b"^(v5?*[get=x set=x ].^(v8?*[acquire=x release=x ].^(v11?*x.^",
    // client, start
    b"^(v14?*[x x ].^(v17?*[].^(v18?*x.^(v20?*[].^(v21?*[].v16![]|v10![v21 ])|",
    b"^(v21?*x.v7![v22 v20 ]|+![v19 v15 v21 ]))|v6![v18 ])|v9![v17 ])|",
    b"^(v15?*[x x x ].(^(v19?*[].v13![]|v14![v17 v19 ])|v18![])|",
    // the fold, the last process
    b"^(v16?*[].(v13?[].v13?[].v13?[].^(v17?*[].^(v18?*x.printi!v19|v6![v18 ])|pr![\"total \" v17 ])|0)|",
    b"v2![v15 [] v12 v16 ])))|",
    // clients, the lock, the counter
    b"^(v12?*x.v1![1 v13 v11 ]|^(v13?*x.v1![2 v14 v12 ]|^(v14?*x.v1![3 v15 v13 ]|v0![v14 ]))))|",
    b"v4![v8 ])|",
    b"v3![0 v5 ]))))))",
];

/// These texts, one after the other.
pub fn joined(alloc: Global, texts: &[&[u8]]) -> Result<Vec<u8>, AllocError> {
    let mut whole = Vec::new(alloc);
    for text in texts {
        whole.extend_from_slice(text)?;
    }
    Ok(whole)
}

/// The counter server.
fn is_server_translated(alloc: Global) -> Result<bool, AllocError> {
    let text = joined(alloc, &[PRELUDE, COUNTER])?;
    let wanted = joined(alloc, &COUNTER_CORE)?;
    has_process(alloc, &text, &wanted)
}

#[test]
fn texts_have_these_processes(rt: HostRuntime) -> Result<(), AllocError> {
    if let Some(block) = wrong_block(rt.alloc())? {
        panic!(rt; "{block}");
    }
    assert!(rt; is_server_translated(rt.alloc())?);
    Ok(())
}

// ---- the places of outputs

/// Writes the place of each output, in the order in which they stand in the process.
fn write_places(core: &Core, out: &mut Vec<u8>) -> Result<(), AllocError> {
    match core {
        Core::Zero => Ok(()),
        Core::Par(left, right) => {
            write_places(left.core(), out)?;
            write_places(right.core(), out)
        }
        Core::New(body) => write_places(body.core(), out),
        Core::Out { at, .. } => {
            write_number(at.start as u64, out)?;
            out.push(b'-')?;
            write_number(at.end as u64, out)?;
            out.push(b' ')?;
            Ok(())
        }
        Core::In { body, .. } => write_places(body.core(), out),
        Core::If { yes, no, .. } => {
            write_places(yes.core(), out)?;
            write_places(no.core(), out)
        }
    }
}

/// The places of the outputs of a text; nothing where the text is refused.
fn places(alloc: Global, text: &str) -> Result<Option<Vec<u8>>, AllocError> {
    let mut names = Names::new(alloc);
    match derived(alloc, &mut names, text.as_bytes()) {
        Some(Ok(core)) => {
            let mut out = Vec::new(alloc);
            write_places(&core, &mut out)?;
            Ok(Some(out))
        }
        _ => Ok(None),
    }
}

/// The places of the outputs of texts.
const PLACES: &str = r#"
-- a send has its own place, an application its own
4-24 11-24 14-21 | run printi!(+ (+ 1 2) 3)
-- each application of a nested one has the place of the whole
4-23 11-23 11-23 | run printi!(- > 10 3 2)
4-23 11-23 11-23 | run printi!(- < 10 3 2)
-- a value that is sent as it stands has its place, an abstraction its own from the backslash on
8-13 | val x = [1 2]
17-25 8-25 | val f = \x:Int = printi!x
-- a fold of a simple value has the fold's place, any other fold that of what is in it
40-47 19-26 | new c:^Top val x = (rec c) val y = (rec (+ 1 2))
"#;

/// Whether the outputs of a text have these places.
fn has_places(alloc: Global, text: &str, wanted: &str) -> Result<bool, AllocError> {
    match places(alloc, text)? {
        Some(found) => Ok(found.as_slice() == wanted.as_bytes()),
        None => Ok(false),
    }
}

/// The first row of the table whose outputs have other places.
fn wrong_row(alloc: Global) -> Result<Option<&'static str>, AllocError> {
    for row in PLACES.lines() {
        if !row.is_empty() && !row.starts_with("--") {
            let (wanted, text) = row.split_once("| ").unwrap_or((row, ""));
            if !has_places(alloc, text, wanted)? {
                return Ok(Some(row));
            }
        }
    }
    Ok(None)
}

#[test]
fn outputs_have_these_places(rt: HostRuntime) -> Result<(), AllocError> {
    if let Some(row) = wrong_row(rt.alloc())? {
        panic!(rt; "{row}");
    }
    Ok(())
}

// ---- the greatest depth

/// `count` times `true;`, which nests the rest three deeper each time.
fn awaits(alloc: Global, count: usize) -> Result<Vec<u8>, AllocError> {
    let mut text = Vec::new(alloc);
    for _ in 0..count {
        text.extend_from_slice(b"true;")?;
    }
    Ok(text)
}

/// How deep the core process is of so many, where it is too deep; nothing where it is built, or the text is refused before.
fn too_deep(alloc: Global, count: usize) -> Result<Option<u64>, AllocError> {
    let mut names = Names::new(alloc);
    match derived(alloc, &mut names, &awaits(alloc, count)?) {
        Some(Err(DeriveError::TooDeep(depth))) => Ok(Some(depth)),
        _ => Ok(None),
    }
}

/// Whether the core process of so many is built.
fn is_built(alloc: Global, count: usize) -> Result<bool, AllocError> {
    let mut names = Names::new(alloc);
    Ok(matches!(
        derived(alloc, &mut names, &awaits(alloc, count)?),
        Some(Ok(_))
    ))
}

#[test]
fn the_greatest_depth_is_built(rt: HostRuntime) -> Result<(), AllocError> {
    assert!(rt; is_built(rt.alloc(), 1666)?);
    assert!(rt; too_deep(rt.alloc(), 1667)? == Some(5002));
    Ok(())
}
