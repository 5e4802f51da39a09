// Visits of texts: a text is read, its imports are followed, and its declarations come behind those before.

ghost use Rattle.std.specs.Prelude.{◌≡◌, ◌≤◌, ◌<◌, ◌+◌, ◌++◌, ◌∷◌, [], true, Ok, IfOk, IfErr, IfSome, Err, length};
ghost use Rattle.pict_outside.specs.Counts.{Rose};
ghost use Rattle.pict_syntax.specs.declared.limits.TheConstants.{TEXT_LIMIT};
ghost use Rattle.pict_gather.specs.Found.{IsFault, IsFound, IsNotAbsent, MissedFor, comes_of};
ghost use Rattle.pict_gather.specs.Gathered as gathered;
ghost use Rattle.pict_gather.specs.Gathered.{Along, Leads, Visits, with_source};
ghost use Rattle.pict_gather.specs.Kept.{HasBegun, IsKept, IsUnread, gathered_in, gives_for, said};

use crate::error::{ReadError, VisitError, of_read_error};
use crate::gathering::Gathering;
use crate::name::{is_among, is_import_name, is_name_of};
use crate::reading::read;
use pict_outside::{Fetched, Shelf, ShelfError};
use pict_syntax::{Bytes, Code, Import, Program, SOURCE_LIMIT, Source, Sources, Span};
use std::alloc::{AllocError, Global};

/// The number of the next text.
fn next_number(sources: &Sources) -> u32
    requires few { length sources.now.list.items ≤ 65 }
    ensures { result ≡ length sources.now.list.items }
{
    sources.list.len() as u32
}

/// Reads a text, and adds it to the texts.
fn begin(
    alloc: Global,
    sources: &mut Sources,
    gathering: &mut Gathering,
    name: &Bytes,
    text: Vec<u8>,
) -> Result<Program, ReadError>
    requires kept { IsKept sources.old gathering.old }
    requires few { length sources.old.list.items ≤ 64 }
    requires fits { length text.items ≤ gathering.old.left }
    ensures begun { IfOk result (λ program. HasBegun sources.old gathering.old name.now text.items program sources.new gathering.new) }
    ensures unread { IfErr result (IsUnread sources.old gathering.old name.now text.items sources.new) }
{
    let number = next_number(sources);
    let name = name.copy(alloc)?;
    gathering.left -= text.len() as u64;
    let said = read(alloc, &mut gathering.names, &text, number);
    let text = Bytes::from_vec(text);
    sources.list.push(Source { name, text })?;
    said
}

/// The visit of a text is over: its declarations come behind those before.
fn end(
    alloc: Global,
    gathering: &mut Gathering,
    name: &Bytes,
    program: Program,
) -> Result<(), AllocError>
    ensures ended { IfOk result (λ _. gathering.new.ended.items ≡ gathering.old.ended.items ++ name.now ∷ []) }
    ensures decs { IfOk result (λ _. gathering.new.decs.items ≡ gathering.old.decs.items ++ program.decs.items) }
    ensures names { gathering.new.names ≡ gathering.old.names }
    ensures left { gathering.new.left ≡ gathering.old.left }
{
    let mut decs = program.decs;
    gathering.ended.push(name.copy(alloc)?)?;
    gathering.decs.append(&mut decs)?;
    Ok(())
}

/// Visits a text under its name. Its imports are followed in their order, each before the next; then its declarations come
/// behind those before. So visits nest at most 64 deep.
///
/// The answer is that of the visit, over what the shelf holds, where it tells that. An error is `Failed` only where the
/// count of faults rose, and names a text that is absent only where the count of misses rose.
#[cycle(visits)]
pub(crate) fn visit<S: Shelf>(
    alloc: Global,
    shelf: &mut S,
    sources: &mut Sources,
    gathering: &mut Gathering,
    name: &Bytes,
    text: Vec<u8>,
) -> Result<(), VisitError>
    requires kept { IsKept sources.old gathering.old }
    requires few { length sources.old.list.items ≤ 64 }
    requires fits { length text.items ≤ gathering.old.left }
    ensures answer { IfSome (said result sources.new gathering.new)
        (Visits (gives_for result (S.held shelf.old)) (gathered_in sources.old gathering.old) name.now text.items) }
    ensures kept { IfOk result (λ _. IsKept sources.new gathering.new) }
    ensures grown { IfOk result (λ _. length sources.old.list.items ≤ length sources.new.list.items) }
    ensures failed { result ≡ Err VisitError.Failed → Rose (S.faults shelf.old) (S.faults shelf.new) }
    ensures absent { IfErr result (MissedFor (S.misses shelf.old) (S.misses shelf.new)) }
    ensures held { S.held shelf.new ≡ S.held shelf.old }
    ensures counts { (S.faults shelf.old ≤ S.faults shelf.new) × (S.misses shelf.old ≤ S.misses shelf.new) }
{
    let program = match begin(alloc, sources, gathering, name, text) {
        Ok(program) => program,
        Err(error) => return Err(of_read_error(error)),
    };
    match follow(alloc, shelf, sources, gathering, &program.imports) {
        Ok(()) => match end(alloc, gathering, name, program) {
            Ok(()) => Ok(()),
            Err(AllocError) => Err(VisitError::Memory),
        },
        Err(error) => Err(error),
    }
}

/// Follows imports, one after the other.
#[cycle(visits)]
fn follow<S: Shelf>(
    alloc: Global,
    shelf: &mut S,
    sources: &mut Sources,
    gathering: &mut Gathering,
    imports: &[Import],
) -> Result<(), VisitError>
    requires kept { IsKept sources.old gathering.old }
    ensures answer { IfSome (said result sources.new gathering.new)
        (Along (gives_for result (S.held shelf.old)) (gathered_in sources.old gathering.old) imports.now) }
    ensures kept { IfOk result (λ _. IsKept sources.new gathering.new) }
    ensures grown { IfOk result (λ _. length sources.old.list.items ≤ length sources.new.list.items) }
    ensures failed { result ≡ Err VisitError.Failed → Rose (S.faults shelf.old) (S.faults shelf.new) }
    ensures absent { IfErr result (MissedFor (S.misses shelf.old) (S.misses shelf.new)) }
    ensures held { S.held shelf.new ≡ S.held shelf.old }
    ensures counts { (S.faults shelf.old ≤ S.faults shelf.new) × (S.misses shelf.old ≤ S.misses shelf.new) }
{
    for import in imports {
        match lead(alloc, shelf, sources, gathering, import) {
            Ok(()) => (),
            Err(error) => return Err(error),
        }
    }
    Ok(())
}

/// Follows one import.
#[cycle(visits)]
fn lead<S: Shelf>(
    alloc: Global,
    shelf: &mut S,
    sources: &mut Sources,
    gathering: &mut Gathering,
    import: &Import,
) -> Result<(), VisitError>
    requires kept { IsKept sources.old gathering.old }
    ensures answer { IfSome (said result sources.new gathering.new)
        (Leads (gives_for result (S.held shelf.old)) (gathered_in sources.old gathering.old) import.now) }
    ensures kept { IfOk result (λ _. IsKept sources.new gathering.new) }
    ensures grown { IfOk result (λ _. length sources.old.list.items ≤ length sources.new.list.items) }
    ensures failed { result ≡ Err VisitError.Failed → Rose (S.faults shelf.old) (S.faults shelf.new) }
    ensures absent { IfErr result (MissedFor (S.misses shelf.old) (S.misses shelf.new)) }
    ensures held { S.held shelf.new ≡ S.held shelf.old }
    ensures counts { (S.faults shelf.old ≤ S.faults shelf.new) × (S.misses shelf.old ≤ S.misses shelf.new) }
{
    match settle(sources, gathering, import) {
        Settled::Refused(code) => return Err(VisitError::Named(code, import.span)),
        Settled::Over => return Ok(()),
        Settled::Open => (),
    }
    let found = match fetch(alloc, shelf, sources, &import.name, gathering.left) {
        Ok(found) => found,
        Err(error) => return Err(error),
    };
    match found {
        Found::Text(text) => visit(alloc, shelf, sources, gathering, &import.name, text),
        Found::Missing => Err(VisitError::Named(Code::I1, import.span)),
        Found::TooLong(place) => Err(VisitError::Named(Code::B1, place)),
    }
}

/// What an import comes to without its text.
#[derive(Clone, Copy)]
enum Settled {
    /// It is refused.
    Refused(Code),
    /// Its text was visited to its end.
    Over,
    /// Its text is to be visited.
    Open,
}

/// What an import comes to without its text.
fn settle(sources: &Sources, gathering: &Gathering, import: &Import) -> Settled
    requires some { 1 ≤ length sources.now.list.items }
    ensures code { IsNotAbsent result }
    ensures comes { comes_of (gathered_in sources.now gathering.now) import.now.span result
        ≡ gathered.settled (gathered_in sources.now gathering.now) import.now }
{
    let name = import.name.slice();
    if !is_import_name(name) {
        return Settled::Refused(Code::I4);
    }
    if is_among(name, &gathering.ended) {
        return Settled::Over;
    }
    let visited = &sources.list[1..];
    if is_name_of(name, visited) {
        return Settled::Refused(Code::I2);
    }
    if SOURCE_LIMIT as usize <= visited.len() {
        return Settled::Refused(Code::I3);
    }
    Settled::Open
}

/// What a shelf has under a name.
enum Found {
    /// A text.
    Text(Vec<u8>),
    /// None.
    Missing,
    /// A text with more bytes than are left; the place of its first byte.
    TooLong(Span),
}

/// Asks a shelf for a text of up to so many bytes. Where it is too long, or the shelf fails, an empty text is added under its
/// name.
fn fetch<S: Shelf>(
    alloc: Global,
    shelf: &mut S,
    sources: &mut Sources,
    name: &Bytes,
    left: u64,
) -> Result<Found, VisitError>
    requires name { gathered.is_import_name name.now ≡ true }
    requires few { length sources.old.list.items ≤ 64 }
    requires left { left ≤ TEXT_LIMIT }
    ensures found { IfOk result (IsFound (S.held shelf.old) name.now left sources.old.list.items sources.new.list.items) }
    ensures fault { IfErr result (IsFault name.now sources.old.list.items sources.new.list.items) }
    ensures failed { result ≡ Err VisitError.Failed → Rose (S.faults shelf.old) (S.faults shelf.new) }
    ensures missed { result ≡ Ok Found.Missing → Rose (S.misses shelf.old) (S.misses shelf.new) }
    ensures held { S.held shelf.new ≡ S.held shelf.old }
    ensures counts { (S.faults shelf.old ≤ S.faults shelf.new) × (S.misses shelf.old ≤ S.misses shelf.new) }
{
    let number = next_number(sources);
    let Ok(text) = str::from_utf8(name.slice()) else {
        unreachable!();
    };
    match shelf.fetch(alloc, text, left) {
        Ok(Fetched::Text(text)) => Ok(Found::Text(text)),
        Ok(Fetched::Missing) => Ok(Found::Missing),
        Ok(Fetched::TooLong(_)) => {
            add_empty(alloc, sources, name)?;
            Ok(Found::TooLong(Span {
                text: number,
                start: 0,
                end: 0,
            }))
        }
        Err(ShelfError::Failed) => {
            add_empty(alloc, sources, name)?;
            Err(VisitError::Failed)
        }
        Err(ShelfError::Memory) => Err(VisitError::Memory),
    }
}

/// Adds an empty text under a name.
pub(crate) fn add_empty(
    alloc: Global,
    sources: &mut Sources,
    name: &Bytes,
) -> Result<(), AllocError>
    ensures { IfOk result (λ _. sources.new.list.items ≡ with_source sources.old.list.items name.now []) }
{
    let name = name.copy(alloc)?;
    let text = Bytes::from_vec(Vec::new(alloc));
    sources.list.push(Source { name, text })?;
    Ok(())
}
