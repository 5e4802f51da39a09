// Outputs and inputs that wait at a channel.
ghost use Rattle.std.specs.Prelude.{◌≡◌, ◌≤◌, ◌+◌, ℕ, Bool, length, map};
ghost use Rattle.pict_core.specs.Step.{Quiet};
ghost use Rattle.pict_core.specs.Term.{Process};
ghost use Rattle.pict_code.specs.Instruction.{CodePat};
ghost use Rattle.pict_code.specs.Plain.{plain_node};
ghost use Rattle.pict_desk.specs.Kept.{FitsKept};
ghost use Rattle.pict_heap.specs.Packed.{packed};
ghost use Rattle.pict_heap.specs.declared.word.Word.TheVariants.{Chan};
ghost use Rattle.pict_region.specs.RegionState.{spare, KeepsBlocks};
ghost use Rattle.pict_queue.specs.QueuesState.{IsQueue, CostsAtMost};
ghost use Rattle.pict_turns.specs.Acting.{HasActing, IsDone};
ghost use Rattle.pict_desk.specs.Code.{core_in, IsCode};
ghost use Rattle.pict_turns.specs.Views.{acting_words};
ghost use Rattle.pict_meetings.specs.Waiting.{NoInputWaits, NoOutputWaits};
ghost use Rattle.pict_meetings.specs.Partners.{Sends, SendsKept, Receives};

use crate::channels::wait_behind;
use pict_blocks::kept_block;
use pict_code::Node;
use pict_desk::Kept;
use pict_heap::{Word, pack};
use pict_syntax::Span;
use pict_turns::{Store, Turn, set_down};

/// Who has the turn becomes the last that waits at the channel: an output of kept values where no input waits there, or an input
/// where no output does. Takes no memory.
#[inline(always)]
pub(crate) fn park(store: &mut Store, code: &[Node], channel: u32)
    requires code { IsCode (map plain_node code.now) }
    requires acting { HasActing (core_in code.now) store.old }
    requires queue { IsQueue store.old.queues (channel + 1) }
    ensures output { SendsKept (core_in code.now) store.old channel → NoInputWaits store.old.queues channel
        → IsDone (core_in code.now) store.old store.new Quiet }
    ensures input { (replicated : Bool) (pattern : CodePat) (part : ℕ) → Receives (core_in code.now) store.old channel replicated pattern part
        → NoOutputWaits store.old.queues channel → IsDone (core_in code.now) store.old store.new Quiet }
    ensures turn { store.new.turn ≡ Turn.Nobody }
    ensures desk { store.new.desk ≡ store.old.desk }
    ensures blocks { KeepsBlocks store.old.queues.region store.new.queues.region }
    ensures cost { CostsAtMost (length (acting_words (core_in code.now) store.old) + 3) store.old.queues store.new.queues }
{
    let block = set_down(store, code);
    wait_behind(&mut store.queues, block, channel);
}

// The output on a channel of these two words, at a place in the text.
#[inline(always)]
fn kept_output(channel: u32, message: (u64, u64), text: u32, start: u32, end: u32) -> Kept
    ensures to { packed (Chan channel) ≡ result.to }
    ensures message { result.message ≡ message }
    ensures at { result.at ≡ record { text = text; start = start; end = end } }
    ensures fits { FitsKept result }
{
    Kept {
        to: pack(Word::Chan(channel)),
        message,
        at: Span { text, start, end },
    }
}

/// The output on the channel of what these two words stand for, which has the turn, ends, and a new block of an output of kept
/// values becomes the last that waits there. No input waits there. Takes no memory.
#[inline(always)]
pub(crate) fn park_output(store: &mut Store, channel: u32, message: (u64, u64), at: Span)
    requires queue { IsQueue store.old.queues (channel + 1) }
    requires spare { 1 ≤ spare store.old.queues.region 9 }
    ensures done { (core : Process) → Sends core store.old channel message at → NoInputWaits store.old.queues channel
        → IsDone core store.old store.new Quiet }
    ensures turn { store.new.turn ≡ Turn.Nobody }
    ensures desk { store.new.desk ≡ store.old.desk }
    ensures blocks { KeepsBlocks store.old.queues.region store.new.queues.region }
    ensures cost { CostsAtMost 10 store.old.queues store.new.queues }
{
    store.turn.set(Turn::Nobody);
    let kept = kept_output(channel, message, at.text, at.start, at.end);
    let waiting = kept_block(&mut store.queues, kept);
    wait_behind(&mut store.queues, waiting, channel);
}
