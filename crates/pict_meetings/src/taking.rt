// What waits first at a channel is taken, or read.
ghost use Rattle.std.specs.Prelude.{◌≡◌, ◌<◌, ◌≤◌, ◌+◌, ◌++◌, ◌∷◌, [], ℕ, List, length, map, drop, if◌then◌else◌};
ghost use Rattle.pict_code.specs.Plain.{plain_node};
ghost use Rattle.pict_region.specs.RegionState.{spare, KeepsBlocks};
ghost use Rattle.pict_queue.specs.QueuesState.{IsQueue, CostsAtMost};
ghost use Rattle.pict_queue.specs.Contents.{contents, first_words, KeepsOtherContents, KeepsHeld, HoldsNoMore};
ghost use Rattle.pict_blocks.specs.Keeping.{kept_words};
ghost use Rattle.pict_desk.specs.declared.kept.Kept.{Kept as AnyKept};
ghost use Rattle.pict_view.specs.Moved.{if_replicated};
ghost use Rattle.pict_turns.specs.Acting.{IsStore};
ghost use Rattle.pict_desk.specs.Code.{core_in, IsCode, HasFrame};
ghost use Rattle.pict_blocks.specs.Parts.{block_width};
ghost use Rattle.pict_meetings.specs.Room.{as_wide};
ghost use Rattle.pict_meetings.specs.Serving.{ReadsInput};
ghost use Rattle.pict_meetings.specs.Waiting.{waits_first};

use crate::channels::queue_of;
use crate::waiting::Waiting;
use pict_code::Node;
use pict_queue::Queues;
use pict_turns::{Store, read_first};

// The words of the oldest message at a channel, which is taken. Its block is given back.
#[inline(always)]
pub(crate) fn take_message(queues: &mut Queues, channel: u32) -> (u64, u64)
    requires queue { IsQueue queues.old (channel + 1) }
    requires kept { (k : AnyKept) × (rest : List (List ℕ)) × (contents queues.old (channel + 1) ≡ kept_words k ∷ rest) }
    ensures taken { (k : AnyKept) (rest : List (List ℕ)) → contents queues.old (channel + 1) ≡ kept_words k ∷ rest
        → (result ≡ k.message) × (contents queues.new (channel + 1) ≡ rest) }
    ensures others { KeepsOtherContents queues.old queues.new (channel + 1) }
    ensures kept { KeepsHeld queues.old queues.new }
    ensures no_more { HoldsNoMore queues.old queues.new }
    ensures blocks { KeepsBlocks queues.old.region queues.new.region }
    ensures spare { (width : ℕ) → spare queues.old.region width ≤ spare queues.new.region width }
    ensures queues { length queues.new.queues ≡ length queues.old.queues }
    ensures spare_queues { queues.new.spare_queues ≡ queues.old.spare_queues }
    ensures cost { CostsAtMost 5 queues.old queues.new }
{
    match queues.pop_front(queue_of(channel)) {
        Some(block) => {
            let tag = queues.get(&block, 4);
            let payload = queues.get(&block, 5);
            queues.give(block);
            (tag, payload)
        }
        None => unreachable!(),
    }
}

// The levels of the frame of the oldest input that waits at a channel, of the node with this number, get the values that its
// block holds, which stays where it is.
#[inline(always)]
pub(crate) fn read_waiting(store: &mut Store, code: &[Node], channel: u32, number: usize)
    requires code { IsCode (map plain_node code.now) }
    requires store { IsStore (core_in code.now) store.old }
    requires queue { IsQueue store.old.queues (channel + 1) }
    requires first { waits_first store.old.queues channel ≡ Waiting.Input number }
    ensures reads { ReadsInput (core_in code.now) store.old store.new channel number }
    ensures cost { (frame : List ℕ) → HasFrame (map plain_node code.now) number frame
        → CostsAtMost (block_width frame) store.old.queues store.new.queues }
{
    read_first(store, code, queue_of(channel), number);
}

// The first block at a channel goes behind the others that wait there.
#[inline(never)]
fn go_behind(queues: &mut Queues, channel: u32)
    requires queue { IsQueue queues.old (channel + 1) }
    requires some { 0 < length (first_words queues.old (channel + 1)) }
    ensures waiting { contents queues.new (channel + 1)
        ≡ drop 1 (contents queues.old (channel + 1)) ++ first_words queues.old (channel + 1) ∷ [] }
    ensures others { KeepsOtherContents queues.old queues.new (channel + 1) }
    ensures no_more { HoldsNoMore queues.old queues.new }
    ensures blocks { KeepsBlocks queues.old.region queues.new.region }
    ensures spare { (width : ℕ) → spare queues.new.region width ≡ spare queues.old.region width }
    ensures queues { length queues.new.queues ≡ length queues.old.queues }
    ensures spare_queues { queues.new.spare_queues ≡ queues.old.spare_queues }
    ensures cost { CostsAtMost 4 queues.old queues.new }
{
    let queue = queue_of(channel);
    queues.move_front(queue, queue);
}

// The first block at a channel, of an input, goes behind the others that wait there where the input is replicated, and ends where
// it isn't.
#[inline(always)]
pub(crate) fn settle(queues: &mut Queues, channel: u32, replicated: bool)
    requires queue { IsQueue queues.old (channel + 1) }
    requires some { 0 < length (first_words queues.old (channel + 1)) }
    ensures waiting { contents queues.new (channel + 1)
        ≡ drop 1 (contents queues.old (channel + 1)) ++ if_replicated replicated (first_words queues.old (channel + 1)) }
    ensures others { KeepsOtherContents queues.old queues.new (channel + 1) }
    ensures no_more { HoldsNoMore queues.old queues.new }
    ensures blocks { KeepsBlocks queues.old.region queues.new.region }
    ensures spare { (width : ℕ) → spare queues.new.region width
        ≡ spare queues.old.region width + (if replicated then 0 else as_wide width (first_words queues.old (channel + 1) ∷ [])) }
    ensures queues { length queues.new.queues ≡ length queues.old.queues }
    ensures spare_queues { queues.new.spare_queues ≡ queues.old.spare_queues }
    ensures cost { CostsAtMost 4 queues.old queues.new }
{
    let queue = queue_of(channel);
    if replicated {
        if queues.length(queue) > 1 {
            go_behind(queues, channel);
        }
    } else {
        match queues.pop_front(queue) {
            Some(block) => {
                queues.give(block);
            }
            None => unreachable!(),
        }
    }
}
