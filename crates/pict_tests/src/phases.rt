// Files with and without a prelude and imports, as tables: which phase answers, and where.
use pict_core::depth;
use pict_front::{Front, FrontError, front};
use pict_outside::{Entry, MemoryShelf};
use pict_syntax::{Name, Sources, TEXT_LIMIT};
use std::alloc::{AllocError, Global};

/// A text under a name.
fn entry_of(alloc: Global, name: &[u8], text: &[u8]) -> Result<Entry, AllocError> {
    let name = name.to_vec(alloc)?;
    let text = text.to_vec(alloc)?;
    Ok(Entry { name, text })
}

/// A shelf with the texts `F` and `L`.
fn shelf_of(alloc: Global, file: &[u8], import: &[u8]) -> Result<MemoryShelf, AllocError> {
    let mut entries = Vec::new(alloc);
    entries.push(entry_of(alloc, b"F", file)?)?;
    entries.push(entry_of(alloc, b"L", import)?)?;
    Ok(MemoryShelf::new(entries, Vec::new(alloc)))
}

/// The text of a block that has this name.
fn text_of<'a>(block: &'a str, name: &str) -> Option<&'a [u8]> {
    for line in block.lines() {
        if let Some(text) = line.strip_prefix(name) {
            return Some(text.as_bytes());
        }
    }
    None
}

/// What comes of the texts of a block: the depth of the core process; or the code of the refusal, the number of the text, 0 that
/// of the prelude, and the place: the first byte and the one after the last.
fn answer(alloc: Global, block: &str) -> Result<String, AllocError> {
    let prelude = text_of(block, "prelude: ");
    if let Some(prelude) = prelude {
        if prelude.len() as u64 > TEXT_LIMIT {
            return Err(AllocError);
        }
    }
    let file = text_of(block, "F: ").unwrap_or(b"");
    let import = text_of(block, "L: ").unwrap_or(b"");
    let mut shelf = shelf_of(alloc, file, import)?;
    let mut sources = Sources::new(alloc);
    match front(alloc, prelude, "F", &mut shelf, &mut sources) {
        Ok(front) => format!(in alloc; "depth {}", depth(&front.core)),
        Err(FrontError::Named(code, span)) => {
            format!(in alloc; "{code:?} {} {}..{}", span.text, span.start, span.end)
        }
        Err(_) => format!(in alloc; "no answer"),
    }
}

/// Whether the last line of a block says what comes of its texts.
fn is_right(alloc: Global, block: &str) -> Result<bool, AllocError> {
    let wanted = block.lines().last().unwrap_or("");
    Ok(answer(alloc, block)?.as_str() == wanted)
}

/// Files alone, with a prelude before them, and with an imported text.
const TEXTS: &str = r#"
F: run print!"a"
depth 2

prelude: new c:^Int def put (n:Int):[] = (run c!n [])
depth 6

F: new c:^Int run c!"x"
Y4 1 17..20

prelude: new c:^Int def put (n:Int):[] = (run c!n [])
F: run (put "x")!1
Y4 1 9..12

-- the prelude is read first, tokens and then grammar; then the file
prelude: run print!
F: @
P1 0 10..10

prelude: run (
F: run
P1 0 5..5

prelude: run ()
F: run
P1 1 3..3

-- what the text binds isn't bound in the prelude
prelude: run x!1
F: new x:^Int
S1 0 4..5

-- no rule of types is looked at before the scopes of both
prelude: run print!1
F: run y!1
S1 1 4..5

prelude: run print!1
F: run printi!"a"
Y4 0 10..11

-- what an imported text binds is bound behind it, and what the file binds isn't bound in it; its refusals stand in it; and each
-- phase looks at all texts before the next
F: import "L" run c!1
L: new c:^Int
depth 3

F: import "L" new x:^Int
L: run x!1
S1 2 4..5

F: import "L" run c!"x"
L: new c:^Int
Y4 1 17..20

F: import "L" run y!1
L: run print!1
S1 1 15..16

F: import "L" run print!1
L: run printi!"a"
Y4 2 11..14

F: import "L" run print!1
L: @
L1 2 0..1

F: import "M" run y!1
I1 1 7..10
"#;

/// The first block of whose texts something else comes.
fn wrong_block(alloc: Global) -> Result<Option<&'static str>, AllocError> {
    for block in TEXTS.split("\n\n") {
        if !is_right(alloc, block)? {
            return Ok(Some(block));
        }
    }
    Ok(None)
}

#[test]
fn texts(rt: HostRuntime) -> Result<(), AllocError> {
    if let Some(block) = wrong_block(rt.alloc())? {
        panic!(rt; "{block}");
    }
    Ok(())
}

/// Whether the first three names are these.
fn has_names(read: &Front, first: &[u8], second: &[u8], third: &[u8]) -> bool {
    read.names.text(Name(0)) == first
        && read.names.text(Name(1)) == second
        && read.names.text(Name(2)) == third
}

/// Names are numbered in the order in which the texts are begun, those of the prelude first.
fn are_names_in_order(alloc: Global) -> Result<bool, AllocError> {
    let prelude = b"new p:^Int";
    let mut shelf = shelf_of(alloc, b"import \"L\" new a:^Int", b"new b:^Int")?;
    let mut sources = Sources::new(alloc);
    if prelude.len() > TEXT_LIMIT as usize {
        return Ok(false);
    }
    match front(alloc, Some(prelude), "F", &mut shelf, &mut sources) {
        Ok(read) => Ok(has_names(&read, b"p", b"a", b"b")),
        Err(_) => Ok(false),
    }
}

#[test]
fn names_in_order(rt: HostRuntime) -> Result<(), AllocError> {
    assert!(rt; are_names_in_order(rt.alloc())?);
    Ok(())
}
