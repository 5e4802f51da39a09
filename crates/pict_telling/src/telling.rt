// What is told of a file.

ghost use Rattle.std.specs.Prelude.{◌≡◌, ◌≤◌, [], Err, IfErr, IfOk, IfSome, length};
ghost use Rattle.pict_syntax.specs.declared.limits.TheConstants.{TEXT_LIMIT};
ghost use Rattle.pict_core.specs.Plain.{plain_core};
ghost use Rattle.pict_core.specs.Closed.{IsClosed};
ghost use Rattle.pict_view.specs.Right.{RunsRight};
ghost use Rattle.pict_outside.specs.Counts.{Rose};
ghost use Rattle.pict_front.specs.Answers.{RefusalStandsIn, MissedInFront, fronted, gives_front};
ghost use Rattle.pict_front.specs.Front.{IsFront};
ghost use Rattle.pict_gather.specs.Entry.{lent};
ghost use Rattle.pict_report.specs.Reports.{AreShort};
ghost use Rattle.pict_telling.specs.Behind.{prelude_for};

use pict_check::{TypeError, check_in};
use pict_front::{Front, FrontError, front};
use pict_gather::gather;
use pict_hints::explanation;
use pict_infer::Env;
use pict_misfit::put_types;
use pict_outside::{Entry, MemoryShelf, Shelf};
use pict_report::prelude;
use pict_scope::resolve;
use pict_syntax::{Code, Dec, Names, Program, Sources, Span, TEXT_LIMIT};
use std::alloc::{AllocError, Global};

/// A shelf with copies of the texts that were read, each under its name.
pub fn shelf_of(alloc: Global, sources: &Sources) -> Result<MemoryShelf, AllocError> {
    let mut entries = Vec::new(alloc);
    for source in sources.list.iter().skip(1) {
        let name = Vec::from_slice(alloc, source.name.slice())?;
        let text = Vec::from_slice(alloc, source.text.slice())?;
        entries.push(Entry { name, text })?;
    }
    Ok(MemoryShelf::new(entries, Vec::new(alloc)))
}

/// The prelude, unless a text stands without it.
pub fn prelude_unless(bare: bool) -> Option<&'static [u8]>
    ensures is { lent result ≡ prelude_for bare }
    ensures short { IfSome result (λ bytes. length bytes.now ≤ TEXT_LIMIT) }
{
    if bare { None } else { Some(prelude()) }
}

/// What the phases say of a file, behind the prelude unless it is `bare`. `sources` gains the texts that were read. `Missing`, and
/// `I1` of an import, come only where the shelf's count of misses rose, `Failed` only where its count of faults rose.
pub fn phases<S: Shelf>(
    alloc: Global,
    bare: bool,
    file: &str,
    shelf: &mut S,
    sources: &mut Sources,
) -> Result<Front, FrontError>
    requires empty { sources.old.list.items ≡ [] }
    ensures answer { IfSome (fronted result sources.new) (IsFront (gives_front result (S.held shelf.old)) (prelude_for bare) file.now) }
    ensures placed { IfErr result (RefusalStandsIn sources.new.list.items) }
    ensures missed { result ≡ Err FrontError.Missing → Rose (S.misses shelf.old) (S.misses shelf.new) }
    ensures failed { result ≡ Err FrontError.Failed → Rose (S.faults shelf.old) (S.faults shelf.new) }
    ensures absent { IfErr result (MissedInFront (S.misses shelf.old) (S.misses shelf.new)) }
    ensures short { IfOk result (λ front. AreShort sources.new.list.items) }
    ensures closed { IfOk result (λ front. IsClosed (plain_core front.core)) }
    ensures right { IfOk result (λ front. RunsRight (plain_core front.core) 10000) }
{
    front(alloc, prelude_unless(bare), file, shelf, sources)
}

/// What is told of types where the typing rules refuse these declarations.
fn types_in(alloc: Global, names: Names, decs: Vec<Dec>) -> Result<Vec<u8>, AllocError> {
    let mut out = Vec::new(alloc);
    let imports = Vec::new(alloc);
    if let Ok(scoped) = resolve(alloc, &names, Program { imports, decs }) {
        let mut env = Env::new(alloc, &names);
        if let Err(TypeError::Named(_, _, told)) = check_in(alloc, &mut env, &names, &scoped) {
            put_types(alloc, &mut out, &names, env, &told)?;
        }
    }
    Ok(out)
}

/// What is told of types where the typing rules refuse a file, behind the prelude unless it is `bare`; nothing where something else
/// refuses it. The only error is want of memory.
fn types<S: Shelf>(
    alloc: Global,
    bare: bool,
    file: &str,
    shelf: &mut S,
) -> Result<Vec<u8>, AllocError> {
    let mut sources = Sources::new(alloc);
    match gather(alloc, prelude_unless(bare), file, shelf, &mut sources) {
        Ok(gathering) => types_in(alloc, gathering.names, gathering.decs),
        Err(_) => Ok(Vec::new(alloc)),
    }
}

/// What is told, below its report, of a refusal with this code at this place in one of these texts, and of its types. The only error
/// is want of memory.
fn told(
    alloc: Global,
    sources: &Sources,
    code: Code,
    place: Span,
    bare: bool,
    types: &[u8],
) -> Result<Vec<u8>, AllocError> {
    let Some(source) = sources.list.get(place.text as usize) else {
        return Ok(Vec::new(alloc));
    };
    let text = source.text.slice();
    if text.len() as u64 > TEXT_LIMIT {
        return Ok(Vec::new(alloc));
    }
    explanation(alloc, code, place, text, bare, types)
}

/// What is told, below its report, of the refusal of a file with this code at this place in one of these texts, those that were read;
/// nothing where they are too long. The only error is want of memory.
pub fn told_of_refusal(
    alloc: Global,
    bare: bool,
    file: &str,
    sources: &Sources,
    code: Code,
    place: Span,
) -> Result<Vec<u8>, AllocError> {
    if code == Code::B1 {
        return Ok(Vec::new(alloc));
    }
    let mut shelf = shelf_of(alloc, sources)?;
    let types = types(alloc, bare, file, &mut shelf)?;
    told(alloc, sources, code, place, bare, &types)
}
