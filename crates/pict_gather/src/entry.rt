// From the name of a file to all that it reaches.

ghost use Rattle.std.specs.Prelude.{◌≡◌, ◌≤◌, [], Ok, Err, IfOk, IfErr, IfSome, length, codes, unwrap_or};
ghost use Rattle.pict_syntax.specs.declared.limits.TheConstants.{TEXT_LIMIT};
ghost use Rattle.pict_outside.specs.Counts.{Rose};
ghost use Rattle.pict_gather.specs.Entry.{IsAsked, IsOpened, IsUnasked, IsUnopened, MissedInFile, gives_entry, lent, reached};
ghost use Rattle.pict_gather.specs.Reached.{Reaches, first_source};

use crate::error::{GatherError, ReadError, of_prelude_error, of_visit_error};
use crate::gathering::Gathering;
use crate::reading::read;
use crate::visits::{add_empty, visit};
use pict_outside::{Fetched, Shelf, ShelfError};
use pict_syntax::{Bytes, Code, Source, Sources, Span, TEXT_LIMIT};
use std::alloc::{AllocError, Global};

/// The number of the prelude, in places.
const PRELUDE: u32 = 0;

/// The first byte of the file.
const FIRST_PLACE: Span = Span {
    text: 1,
    start: 0,
    end: 0,
};

/// What the shelf has under the name of a file.
#[derive(Drop)]
enum Asked {
    /// A text.
    Text(Vec<u8>),
    /// A text that is too long.
    TooLong,
}

/// Gathers a file with the texts that it reaches by its imports, behind a prelude where there is one: the declarations of all,
/// in their order, and the names of their tokens. `sources` gains the texts: the prelude, or an empty text, under the name
/// `prelude` and the number 0, the file under the number 1, and the others in the order in which their visits begin.
///
/// The file is fetched first; then the prelude is read, whose imports are passed over; then the file is visited. To visit a
/// text is to read it, to follow its imports in their order, each before the next, and then to add its declarations. A text is
/// visited once, where the first of its imports stands that comes to it, and what is fetched is fetched once.
///
/// A text is refused at its first byte with `B1` where it and the texts visited before have more than 1,048,576 bytes together;
/// then with the code of its tokens or its grammar. An import is refused at its string: with `I4` where its name is empty,
/// begins with `-` or has a byte outside 0x20 to 0x7E; with `I2` where the text of this name is being visited; with `I3` where
/// it would be the 65th; with `I1` where the shelf has no text under its name, only where the count of misses rose. `Missing`
/// says that the shelf doesn't have the file, only where the count of misses rose. `Failed` says that the shelf failed, only
/// where the count of faults rose. The other error is want of memory.
///
/// After a refusal `sources` has the texts that were read so far. After `B1` and after `Failed` the last of them has the name
/// that was asked for, and is empty. Visits nest at most 64 deep. It takes time in proportion to the bytes of the texts and to
/// the number of imports.
pub fn gather<S: Shelf>(
    alloc: Global,
    prelude: Option<&[u8]>,
    file: &str,
    shelf: &mut S,
    sources: &mut Sources,
) -> Result<Gathering, GatherError>
    requires empty { sources.old.list.items ≡ [] }
    requires short { IfSome prelude (λ bytes. length bytes.now ≤ TEXT_LIMIT) }

    // The answer is what the file comes to, over what the shelf holds, where it tells that.
    ensures answer { IfSome (reached result sources.new) (Reaches (gives_entry result (S.held shelf.old)) (lent prelude.entry) file.now) }

    // The causes of the answers that the shelf gives.
    ensures missed { result ≡ Err GatherError.Missing → Rose (S.misses shelf.old) (S.misses shelf.new) }
    ensures failed { result ≡ Err GatherError.Failed → Rose (S.faults shelf.old) (S.faults shelf.new) }
    ensures absent { IfErr result (MissedInFile (S.misses shelf.old) (S.misses shelf.new)) }

    ensures held { S.held shelf.new ≡ S.held shelf.old }
    ensures counts { (S.faults shelf.old ≤ S.faults shelf.new) × (S.misses shelf.old ≤ S.misses shelf.new) }
{
    let name = Bytes::copy_of(alloc, file.as_bytes())?;
    add_prelude(alloc, prelude, sources)?;
    let asked = match ask(alloc, file, &name, shelf, sources) {
        Ok(asked) => asked,
        Err(error) => return Err(error),
    };
    let mut gathering = match open(alloc, prelude) {
        Ok(gathering) => gathering,
        Err(error) => return Err(of_prelude_error(error)),
    };
    match asked {
        Asked::TooLong => {
            add_empty(alloc, sources, &name)?;
            Err(GatherError::Named(Code::B1, FIRST_PLACE))
        }
        Asked::Text(text) => match visit(alloc, shelf, sources, &mut gathering, &name, text) {
            Ok(()) => Ok(gathering),
            Err(error) => Err(of_visit_error(error)),
        },
    }
}

/// Adds the prelude, or an empty text where there is none, as the first text.
fn add_prelude(
    alloc: Global,
    prelude: Option<&[u8]>,
    sources: &mut Sources,
) -> Result<(), AllocError>
    requires empty { sources.old.list.items ≡ [] }
    ensures { IfOk result (λ _. sources.new.list.items ≡ first_source (unwrap_or (lent prelude.entry) [])) }
{
    let name = prelude_name(alloc)?;
    match prelude {
        None => add_empty(alloc, sources, &name),
        Some(text) => {
            let text = Bytes::copy_of(alloc, text)?;
            sources.list.push(Source { name, text })?;
            Ok(())
        }
    }
}

/// The name of the prelude in reports.
fn prelude_name(alloc: Global) -> Result<Bytes, AllocError>
    ensures { IfOk result (λ name. name ≡ codes "prelude") }
{
    Bytes::copy_of(alloc, b"prelude")
}

/// Asks the shelf for a file. Where the shelf fails, an empty text is added under the file's name.
fn ask<S: Shelf>(
    alloc: Global,
    file: &str,
    name: &Bytes,
    shelf: &mut S,
    sources: &mut Sources,
) -> Result<Asked, GatherError>
    ensures asked { IfOk result (λ asked. (sources.new.list.items ≡ sources.old.list.items) × IsAsked (S.held shelf.old) file.now asked) }
    ensures unasked { IfErr result (IsUnasked (S.held shelf.old) file.now name.now sources.old.list.items sources.new.list.items) }
    ensures missed { result ≡ Err GatherError.Missing → Rose (S.misses shelf.old) (S.misses shelf.new) }
    ensures failed { result ≡ Err GatherError.Failed → Rose (S.faults shelf.old) (S.faults shelf.new) }
    ensures held { S.held shelf.new ≡ S.held shelf.old }
    ensures counts { (S.faults shelf.old ≤ S.faults shelf.new) × (S.misses shelf.old ≤ S.misses shelf.new) }
{
    match shelf.fetch(alloc, file, TEXT_LIMIT) {
        Ok(Fetched::Text(text)) => Ok(Asked::Text(text)),
        Ok(Fetched::TooLong(_)) => Ok(Asked::TooLong),
        Ok(Fetched::Missing) => Err(GatherError::Missing),
        Err(ShelfError::Failed) => {
            add_empty(alloc, sources, name)?;
            Err(GatherError::Failed)
        }
        Err(ShelfError::Memory) => Err(GatherError::Memory),
    }
}

/// Reads the prelude, where there is one. Nothing is visited yet.
fn open(alloc: Global, prelude: Option<&[u8]>) -> Result<Gathering, ReadError>
    requires short { IfSome prelude (λ bytes. length bytes.now ≤ TEXT_LIMIT) }
    ensures opened { IfOk result (IsOpened (lent prelude.entry)) }
    ensures unopened { IfErr result (IsUnopened (lent prelude.entry)) }
{
    let mut gathering = Gathering::new(alloc);
    match prelude {
        None => Ok(gathering),
        Some(text) => match read(alloc, &mut gathering.names, text, PRELUDE) {
            Ok(program) => {
                gathering.decs = program.decs;
                Ok(gathering)
            }
            Err(error) => Err(error),
        },
    }
}
