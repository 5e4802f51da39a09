// The first steps of a run, told as lines.

ghost use Rattle.std.specs.Prelude.{◌≡◌, ◌≤◌, IfOk, length};
ghost use Rattle.pict_core.specs.Plain.{plain_core};
ghost use Rattle.pict_core.specs.Closed.{IsClosed};
ghost use Rattle.pict_view.specs.Right.{RunsRight};
ghost use Rattle.pict_outside.specs.Entries.{pairs_of};
ghost use Rattle.pict_outside.specs.Texts.{texts_of as held_texts};
ghost use Rattle.pict_report.specs.Reports.{AreShort};
ghost use Rattle.pict_front.specs.Answers.{plain_front};
ghost use Rattle.pict_web.specs.Asked.{texts_cut};
ghost use Rattle.pict_web.specs.Told.{Answers, SaysOf, IsTold};
ghost use Rattle.pict_web.specs.Stepped.{StepsOf, steps_of as lines_are};

use crate::handing::{hand_over, status_of};
use crate::held::Bundle;
use crate::{Cut, Lengths, entries_of};
use pict_front::{Front, front};
use pict_outside::Entry;
use pict_stepper::{follow, lines};
use pict_syntax::Sources;
use pict_telling::prelude_unless;
use pict_top::Status;
use std::alloc::{AllocError, Global};

/// How many steps are told.
const MOST: usize = 1000;

/// Writes the lines that tell the first 1,000 steps of the run of the text `main.pi` to the beginning of `out`, and answers 0; or 1
/// where it is refused or isn't there, 6 where the lines are longer than `out`, which has a beginning of them, and 7 for want of
/// memory. `texts` and `cuts` are those of `pict_web_call`. Nothing is reported.
#[unsafe(no_mangle)]
pub extern "C" fn pict_web_steps(
    alloc: Global,
    bare: bool,
    texts: &[u8],
    cuts: &[Cut],
    out: &mut [u8],
    lengths: &mut Lengths,
) -> u8
    ensures out_length { length out.new ≡ length out.old }
    ensures printed_fits { lengths.new.printed ≤ length out.new }
    ensures reported { lengths.new.reported ≡ 0 }
    ensures stepped { IsTold lines_are bare (held_texts (texts_cut cuts.now texts.now)) result out.new lengths.new.printed }
{
    match told(alloc, bare, texts, cuts) {
        Ok(lines) => hand_over(&lines, out, lengths).number(),
        Err(status) => {
            *lengths = Lengths {
                printed: 0,
                reported: 0,
            };
            status.number()
        }
    }
}

/// The lines of the steps of a text, or the status without any.
fn told(alloc: Global, bare: bool, texts: &[u8], cuts: &[Cut]) -> Result<Vec<u8>, Status>
    ensures { SaysOf lines_are bare (held_texts (texts_cut cuts.now texts.now)) result }
{
    match entries_of(alloc, texts, cuts) {
        Ok(entries) => told_of(alloc, bare, entries),
        Err(AllocError) => Err(Status::Memory),
    }
}

/// The same over a shelf of these texts.
fn told_of(alloc: Global, bare: bool, entries: Vec<Entry>) -> Result<Vec<u8>, Status>
    ensures { SaysOf lines_are bare (held_texts (pairs_of entries.items)) result }
{
    let mut shelf = Bundle::new(alloc, entries);
    let mut sources = Sources::new(alloc);
    let prelude = prelude_unless(bare);
    match front(alloc, prelude, "main.pi", &mut shelf, &mut sources) {
        Err(error) => Err(status_of(&error)),
        Ok(front) => steps_of(alloc, &sources, front),
    }
}

/// The lines of the steps of an accepted text, or the status of want of memory.
fn steps_of(alloc: Global, sources: &Sources, front: Front) -> Result<Vec<u8>, Status>
    requires short { AreShort sources.now.list.items }
    requires closed { IsClosed (plain_core front.core) }
    requires right { RunsRight (plain_core front.core) 1000 }
    ensures { Answers lines_are (record { sources = sources.now.list.items; front = plain_front front }) result }
{
    match lines_of(alloc, sources, front) {
        Ok(lines) => Ok(lines),
        Err(AllocError) => Err(Status::Memory),
    }
}

/// The lines of the steps of an accepted text.
fn lines_of(alloc: Global, sources: &Sources, front: Front) -> Result<Vec<u8>, AllocError>
    requires short { AreShort sources.now.list.items }
    requires closed { IsClosed (plain_core front.core) }
    requires right { RunsRight (plain_core front.core) 1000 }
    ensures { IfOk result (λ lines. StepsOf front.names sources.now.list.items (plain_core front.core) lines.items) }
{
    let run = follow(alloc, front.core, MOST)?;
    lines(alloc, &front.names, sources, &run)
}
