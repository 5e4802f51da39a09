// Why a file is refused, or who waits in vain at the end of its run.

ghost use Rattle.std.specs.Prelude.{◌≡◌, ◌≤◌, IfOk, length};
ghost use Rattle.pict_outside.specs.Entries.{pairs_of};
ghost use Rattle.pict_outside.specs.Texts.{texts_of as held_texts};
ghost use Rattle.pict_web.specs.Asked.{texts_cut};
ghost use Rattle.pict_web.specs.Reasoned.{IsAbout, IsReasoned};

use crate::handing::{hand_over, status_of};
use crate::held::Bundle;
use crate::{Cut, Lengths, entries_of};
use pict_front::{FrontError, front};
use pict_outside::Entry;
use pict_syntax::Sources;
use pict_telling::{prelude_unless, told_at_end, told_of_refusal};
use pict_top::Status;
use std::alloc::{AllocError, Global};

/// Reasons, with the status of their file.
#[derive(Drop)]
struct Reasons {
    status: Status,
    text: Vec<u8>,
}

/// Writes what is told of the text `main.pi` to the beginning of `out`, or as much of it as fits: where it is refused, what is told
/// below the report, and the answer is 1; where it is accepted, who waits in vain at the end of its run, in which the oldest ready
/// process acts first, or nothing where nobody does, and the answer is 0. It is 1 also where the text isn't there, and 7 for want
/// of memory. `texts` and `cuts` are those of `pict_web_call`. Nothing is reported.
#[unsafe(no_mangle)]
pub extern "C" fn pict_web_reasons(
    alloc: Global,
    bare: bool,
    texts: &[u8],
    cuts: &[Cut],
    out: &mut [u8],
    lengths: &mut Lengths,
) -> u8
    ensures out_length { length out.new ≡ length out.old }
    ensures printed_fits { lengths.new.printed ≤ length out.new }
    ensures reported { lengths.new.reported ≡ 0 }
    ensures reasoned { IsReasoned bare (held_texts (texts_cut cuts.now texts.now)) result }
{
    match reasons_in(alloc, bare, texts, cuts) {
        Ok(reasons) => {
            let _copied = hand_over(&reasons.text, out, lengths);
            reasons.status.number()
        }
        Err(AllocError) => {
            *lengths = Lengths {
                printed: 0,
                reported: 0,
            };
            Status::Memory.number()
        }
    }
}

/// The reasons of a text.
fn reasons_in(alloc: Global, bare: bool, texts: &[u8], cuts: &[Cut]) -> Result<Reasons, AllocError>
    ensures { IfOk result (λ reasons. IsAbout bare (held_texts (texts_cut cuts.now texts.now)) reasons.status) }
{
    let entries = entries_of(alloc, texts, cuts)?;
    reasons_of(alloc, bare, entries)
}

/// The same over a shelf of these texts.
fn reasons_of(alloc: Global, bare: bool, entries: Vec<Entry>) -> Result<Reasons, AllocError>
    ensures { IfOk result (λ reasons. IsAbout bare (held_texts (pairs_of entries.items)) reasons.status) }
{
    let mut shelf = Bundle::new(alloc, entries);
    let mut sources = Sources::new(alloc);
    let prelude = prelude_unless(bare);
    match front(alloc, prelude, "main.pi", &mut shelf, &mut sources) {
        Ok(front) => {
            let text = told_at_end(alloc, bare, "main.pi", &sources, front)?;
            Ok(Reasons {
                status: Status::Done,
                text,
            })
        }
        Err(error) => Ok(Reasons {
            status: status_of(&error),
            text: of_refusal(alloc, bare, &sources, &error)?,
        }),
    }
}

/// What is told of a file that isn't accepted.
fn of_refusal(
    alloc: Global,
    bare: bool,
    sources: &Sources,
    error: &FrontError,
) -> Result<Vec<u8>, AllocError> {
    match error {
        FrontError::Named(code, place) => {
            told_of_refusal(alloc, bare, "main.pi", sources, *code, *place)
        }
        FrontError::Missing => Ok(Vec::new(alloc)),
        FrontError::Failed => Ok(Vec::new(alloc)),
        FrontError::Memory => Ok(Vec::new(alloc)),
    }
}
