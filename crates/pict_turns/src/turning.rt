// The turn is taken and set down.
ghost use Rattle.std.specs.Prelude.{◌≡◌, ◌≢◌, ◌<◌, ◌+◌, ℕ, List, [], length, map, slice_index};
ghost use Rattle.pict_core.specs.Term.{Process};
ghost use Rattle.pict_code.specs.Plain.{plain_node};
ghost use Rattle.pict_blocks.specs.Writing.{IsMade};
ghost use Rattle.pict_region.specs.RegionState.{words_of, KeepsBlocks};
ghost use Rattle.pict_queue.specs.QueuesState.{IsHeld, CostsAtMost};
ghost use Rattle.pict_queue.specs.Contents.{held_words, contents, KeepsOtherContents, HoldsNoMore};
ghost use Rattle.pict_turns.specs.Acting.{IsStore, HasActing};
ghost use Rattle.pict_desk.specs.Code.{core_in, IsCode, HasFrame};
ghost use Rattle.pict_desk.specs.Pairs.{ArePairs};
ghost use Rattle.pict_turns.specs.Turns.{ReadsTurn, FreesTurn, TakesTurn, TakesOneBlock, turn_cost};
ghost use Rattle.pict_turns.specs.Views.{IsNode, IsKept, IsBlock, acting_words, ready_words};

use crate::reading::frame_at;
use crate::store::Store;
use crate::turn::Turn;
use pict_blocks::{block_of, kept_block, read_kept, read_narrow, read_wide};
use pict_code::Node;
use pict_queue::QueueId;
use pict_region::Block;
use pict_syntax::NARROW_LIMIT;

/// The first of queue 0, where nobody has the turn, has it now, and its block is free. Takes no memory, and time in the levels of
/// its frame.
#[inline(always)]
pub fn take_turn(store: &mut Store, code: &[Node])
    requires code { IsCode (map plain_node code.now) }
    requires store { IsStore (core_in code.now) store.old }
    requires nobody { store.old.turn ≡ Turn.Nobody }
    requires some { contents store.old.queues 0 ≢ [] }
    ensures acting { HasActing (core_in code.now) store.new }
    ensures takes { TakesTurn (core_in code.now) store.old store.new }
    ensures cost { CostsAtMost (turn_cost (core_in code.now) store.new) store.old.queues store.new.queues }
{
    match store.queues.pop_front_word(QueueId(0)) {
        Some((block, word)) => read_turn(store, code, block, word),
        None => unreachable!(),
    }
}

// The process of a held block of an output has the turn.
#[inline(never)]
fn read_output(store: &mut Store, block: &Block)
    requires held { IsHeld store.old.queues block.now }
    requires kept { IsKept store.old.desk.heap (held_words store.old.queues.region block.now) }
    requires pairs { ArePairs store.old.desk.heap store.old.desk.values.items }
    ensures read { (core : Process) → ReadsTurn core store.old store.new (held_words store.old.queues.region block.now) }
    ensures cost { CostsAtMost 7 store.old.queues store.new.queues }
{
    store
        .turn
        .set(Turn::Output(read_kept(&mut store.queues, block)));
}

// The process of a node's held block, whose frame is of more than `NARROW_LIMIT` levels, has the turn. The levels get its
// values.
#[cold]
#[inline(never)]
fn read_wide_node(store: &mut Store, code: &[Node], block: &Block, number: usize)
    requires code { IsCode (map plain_node code.now) }
    requires store { IsStore (core_in code.now) store.old }
    requires held { IsHeld store.old.queues block.now }
    requires is { (n : IsNode (core_in code.now) store.old.desk.heap (held_words store.old.queues.region block.now)) × (n.number ≡ number) }
    requires wide { (frame : List ℕ) → HasFrame (map plain_node code.now) number frame → NARROW_LIMIT < length frame }
    ensures read { ReadsTurn (core_in code.now) store.old store.new (held_words store.old.queues.region block.now) }
    ensures cost { CostsAtMost 2 store.old.queues store.new.queues }
{
    let pair = read_wide(
        &mut store.queues,
        &mut store.desk,
        block,
        frame_at(code, number),
    );
    store.turn.set(Turn::Wide(number, pair));
}

// The process of a node's held block has the turn, and the block is free. The levels of its frame get its values.
#[inline(always)]
fn read_node(store: &mut Store, code: &[Node], block: Block, number: usize)
    requires code { IsCode (map plain_node code.now) }
    requires store { IsStore (core_in code.now) store.old }
    requires held { IsHeld store.old.queues block }
    requires is { (n : IsNode (core_in code.now) store.old.desk.heap (held_words store.old.queues.region block)) × (n.number ≡ number) }
    ensures frees { FreesTurn (core_in code.now) store.old store.new block }
    ensures cost { CostsAtMost (length (held_words store.old.queues.region block) + 1) store.old.queues store.new.queues }
{
    let frame = frame_at(code, number);
    if frame.len() <= NARROW_LIMIT as usize {
        read_narrow(&mut store.queues, &mut store.desk, block, frame);
        store.turn.set(Turn::Node(number));
    } else {
        read_wide_node(store, code, &block, number);
        store.queues.give(block);
    }
}

// The process of this held block, whose word 1 is this one, has the turn, and the block is free. The levels of a node's frame get
// its values.
#[inline(always)]
fn read_turn(store: &mut Store, code: &[Node], block: Block, first: u64)
    requires code { IsCode (map plain_node code.now) }
    requires store { IsStore (core_in code.now) store.old }
    requires held { IsHeld store.old.queues block }
    requires is { IsBlock (core_in code.now) store.old.desk.heap (held_words store.old.queues.region block) }
    requires first { first ≡ slice_index (words_of store.old.queues.region block) 1 }
    ensures frees { FreesTurn (core_in code.now) store.old store.new block }
    ensures cost { CostsAtMost (length (held_words store.old.queues.region block) + 2) store.old.queues store.new.queues }
{
    if first == 0 {
        read_output(store, &block);
        store.queues.give(block);
    } else {
        read_node(store, code, block, first as usize - 1);
    }
}

// The same as `set_down` where an output or a node of more than `NARROW_LIMIT` levels has the turn.
#[inline(never)]
fn set_down_other(store: &mut Store, code: &[Node]) -> Block
    requires code { IsCode (map plain_node code.now) }
    requires acting { HasActing (core_in code.now) store.old }
    requires other { (number : ℕ) → store.old.turn ≢ Turn.Node number }
    ensures made { IsMade store.old.queues store.new.queues result (acting_words (core_in code.now) store.old)
        (length (acting_words (core_in code.now) store.old) + 1) }
    ensures rest { store.new ≡ record store.old { queues = store.new.queues; turn = Turn.Nobody } }
    ensures cost { CostsAtMost (length (acting_words (core_in code.now) store.old) + 1) store.old.queues store.new.queues }
{
    let turn = store.turn.get();
    store.turn.set(Turn::Nobody);
    match turn {
        Turn::Wide(number, pair) => block_of(&mut store.queues, number, &[0], &[pair]),
        Turn::Output(kept) => kept_block(&mut store.queues, kept),
        _ => unreachable!(),
    }
}

/// A new block of who has the turn, which the caller then holds. Nobody has the turn then. Takes no memory, and time in the
/// levels of the frame.
#[inline(always)]
pub fn set_down(store: &mut Store, code: &[Node]) -> Block
    requires code { IsCode (map plain_node code.now) }
    requires acting { HasActing (core_in code.now) store.old }
    ensures made { IsMade store.old.queues store.new.queues result (acting_words (core_in code.now) store.old)
        (length (acting_words (core_in code.now) store.old) + 1) }
    ensures rest { store.new ≡ record store.old { queues = store.new.queues; turn = Turn.Nobody } }
    ensures cost { CostsAtMost (length (acting_words (core_in code.now) store.old) + 1) store.old.queues store.new.queues }
{
    match store.turn.get() {
        Turn::Node(number) => {
            store.turn.set(Turn::Nobody);
            let frame = frame_at(code, number);
            block_of(&mut store.queues, number, frame, &store.desk.values)
        }
        _ => set_down_other(store, code),
    }
}

/// Who has the turn is the first of queue 0, as a block, and nobody has the turn then. Takes no memory, and time in the levels of
/// the frame.
pub fn return_turn(store: &mut Store, code: &[Node])
    requires code { IsCode (map plain_node code.now) }
    requires store { IsStore (core_in code.now) store.old }
    ensures store { IsStore (core_in code.now) store.new }
    ensures ready { contents store.new.queues 0 ≡ ready_words (core_in code.now) store.old }
    ensures others { KeepsOtherContents store.old.queues store.new.queues 0 }
    ensures rest { store.new ≡ record store.old { queues = store.new.queues; turn = Turn.Nobody } }
    ensures queues { length store.new.queues.queues ≡ length store.old.queues.queues }
    ensures no_more { HoldsNoMore store.old.queues store.new.queues }
    ensures blocks { KeepsBlocks store.old.queues.region store.new.queues.region }
    ensures takes { TakesOneBlock store.old.queues store.new.queues (length (acting_words (core_in code.now) store.old) + 1) }
    ensures cost { CostsAtMost (turn_cost (core_in code.now) store.old) store.old.queues store.new.queues }
{
    match store.turn.get() {
        Turn::Nobody => {}
        _ => {
            let block = set_down(store, code);
            store.queues.push_front(QueueId(0), block);
        }
    }
}
