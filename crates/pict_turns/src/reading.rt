// The frame of a node, read out of the first block of a queue.
ghost use Rattle.std.specs.Prelude.{◌≡◌, ◌<◌, ◌≤◌, ◌-◌, ◌∷◌, ℕ, List, suc, All, length, map, slice_index};
ghost use Rattle.pict_code.specs.Levels.{Rises};
ghost use Rattle.pict_code.specs.Plain.{plain_node};
ghost use Rattle.pict_queue.specs.QueuesState.{IsQueue, CostsAtMost};
ghost use Rattle.pict_queue.specs.Contents.{first_words};
ghost use Rattle.pict_blocks.specs.Writing.{OnlyWorks};
ghost use Rattle.pict_desk.specs.Pairs.{ArePairs};
ghost use Rattle.pict_turns.specs.Acting.{IsStore};
ghost use Rattle.pict_desk.specs.Code.{core_in, IsCode, HasFrame};
ghost use Rattle.pict_blocks.specs.Holding.{HoldWords, HoldRecord};
ghost use Rattle.pict_blocks.specs.Parts.{block_width};
ghost use Rattle.pict_turns.specs.Reading.{HasRead, HasReadNode};
ghost use Rattle.pict_turns.specs.Views.{IsNode};

use crate::store::Store;
use pict_code::Node;
use pict_desk::read_record;
use pict_queue::{QueueId, Queues};
use pict_syntax::NARROW_LIMIT;

/// The frame of the node with this number.
#[inline(always)]
pub fn frame_at(code: &[Node], number: usize) -> &[u32]
    requires { number < length code.now }
    ensures { HasFrame (map plain_node code.now) number result.now }
{
    &code[number].frame
}

// A frame whose values stand in the block itself.
#[inline(always)]
fn read_first_narrow(store: &mut Store, queue: QueueId, frame: &[u32])
    requires narrow { length frame.now ≤ NARROW_LIMIT }
    requires queue { IsQueue store.old.queues queue.0 }
    requires inside { All (λ level. level < length store.old.desk.values.items) frame.now }
    requires rising { Rises 0 frame.now }
    requires pairs { ArePairs store.old.desk.heap store.old.desk.values.items }
    requires holds { (number : ℕ) × (held : List ℕ) × (first_words store.old.queues queue.0 ≡ suc number ∷ held)
        × HoldWords store.old.desk.heap (length frame.now) held }
    ensures read { HasRead store.old store.new (first_words store.old.queues queue.0) frame.now }
    ensures cost { CostsAtMost (block_width frame.now) store.old.queues store.new.queues }
{
    store
        .queues
        .scatter_first(queue, 2, frame, &mut store.desk.values);
}

// Word `i` of the first block of a queue, from 1 on.
#[inline(always)]
fn first_word(queues: &mut Queues, queue: QueueId, i: u32) -> u64
    requires queue { IsQueue queues.old queue.0 }
    requires behind_link { 1 ≤ i }
    requires inside { i ≤ length (first_words queues.old queue.0) }
    ensures word { result ≡ slice_index (first_words queues.old queue.0) (i - 1) }
    ensures rest { OnlyWorks queues.old queues.new }
    ensures cost { CostsAtMost 2 queues.old queues.new }
{
    match queues.peek(queue, i) {
        Some(word) => word,
        None => unreachable!(),
    }
}

// A frame whose values stand in a record.
#[cold]
fn read_first_wide(store: &mut Store, queue: QueueId, frame: &[u32])
    requires wide { NARROW_LIMIT < length frame.now }
    requires queue { IsQueue store.old.queues queue.0 }
    requires inside { All (λ level. level < length store.old.desk.values.items) frame.now }
    requires rising { Rises 0 frame.now }
    requires pairs { ArePairs store.old.desk.heap store.old.desk.values.items }
    requires holds { (number : ℕ) × (held : List ℕ) × (first_words store.old.queues queue.0 ≡ suc number ∷ held)
        × HoldRecord store.old.desk.heap (length frame.now) held }
    ensures read { HasRead store.old store.new (first_words store.old.queues queue.0) frame.now }
    ensures cost { CostsAtMost 4 store.old.queues store.new.queues }
{
    let tag = first_word(&mut store.queues, queue, 2);
    let payload = first_word(&mut store.queues, queue, 3);
    read_record(
        &store.desk.heap,
        (tag, payload),
        frame,
        &mut store.desk.values,
    );
}

/// Reads the values of a node's frame out of the first block of a queue, each to the place of its level. Nothing else changes but
/// work. Takes no memory, and time in the levels of the frame.
#[inline(always)]
pub fn read_first(store: &mut Store, code: &[Node], queue: QueueId, number: usize)
    requires code { IsCode (map plain_node code.now) }
    requires store { IsStore (core_in code.now) store.old }
    requires queue { IsQueue store.old.queues queue.0 }
    requires is { (n : IsNode (core_in code.now) store.old.desk.heap (first_words store.old.queues queue.0)) × (n.number ≡ number) }
    ensures read { HasReadNode (core_in code.now) store.old store.new number (first_words store.old.queues queue.0) }
    ensures cost { (frame : List ℕ) → HasFrame (map plain_node code.now) number frame → CostsAtMost (block_width frame) store.old.queues store.new.queues }
{
    let frame = frame_at(code, number);
    if frame.len() <= NARROW_LIMIT as usize {
        read_first_narrow(store, queue, frame);
    } else {
        read_first_wide(store, queue, frame);
    }
}
