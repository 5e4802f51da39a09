// The parts of a node: one has the turn, others stand in blocks.
ghost use Rattle.std.specs.Prelude.{◌≡◌, ◌<◌, ◌≤◌, ◌+◌, ℕ, List, All, IfSome, length, map};
ghost use Rattle.pict_syntax.specs.declared.limits.TheConstants.{NARROW_LIMIT};
ghost use Rattle.pict_core.specs.Term.{Process};
ghost use Rattle.pict_code.specs.Nodes.{nodes_of};
ghost use Rattle.pict_code.specs.Plain.{plain_node};
ghost use Rattle.pict_queue.specs.QueuesState.{IsQueue, CostsAtMost};
ghost use Rattle.pict_region.specs.RegionState.{spare, KeepsBlocks};
ghost use Rattle.pict_queue.specs.Contents.{KeepsHeld, HoldsNoMore};
ghost use Rattle.pict_desk.specs.Pairs.{ArePairs};
ghost use Rattle.pict_blocks.specs.Parts.{block_width};
ghost use Rattle.pict_turns.specs.Parts.{CanHold, HandsOn, HasRecord, Spawns, IsLast};
ghost use Rattle.pict_turns.specs.Turns.{IsTurn};
ghost use Rattle.pict_desk.specs.Code.{core_in, HasFrame, IsCode};

use crate::reading::frame_at;
use crate::store::Store;
use crate::turn::Turn;
use pict_blocks::{block_of, make_part, spawn};
use pict_code::Node;
use pict_desk::frame_record;
use pict_queue::QueueId;
use pict_syntax::NARROW_LIMIT;

// The same as `spawn_part` of a frame that stands in the block itself.
#[inline(always)]
fn spawn_narrow(store: &mut Store, number: u32, frame: &[u32])
    requires narrow { length frame.now ≤ NARROW_LIMIT }
    requires queue { IsQueue store.old.queues 0 }
    requires can { CanHold store.old frame.now }
    requires inside { All (λ level. level < length store.old.desk.values.items) frame.now }
    requires pairs { ArePairs store.old.desk.heap store.old.desk.values.items }
    ensures spawns { Spawns store.old store.new number frame.now }
    ensures kept { KeepsHeld store.old.queues store.new.queues }
    ensures no_more { HoldsNoMore store.old.queues store.new.queues }
    ensures spare_queues { store.new.queues.spare_queues ≡ store.old.queues.spare_queues }
    ensures blocks { KeepsBlocks store.old.queues.region store.new.queues.region }
    ensures cost { CostsAtMost (block_width frame.now + 2) store.old.queues store.new.queues }
{
    spawn(
        &mut store.queues,
        QueueId(0),
        number,
        frame,
        &store.desk.values,
    );
}

// The same as `spawn_part` of any frame.
#[cold]
fn spawn_made(store: &mut Store, number: u32, frame: &[u32])
    requires queue { IsQueue store.old.queues 0 }
    requires can { CanHold store.old frame.now }
    requires inside { All (λ level. level < length store.old.desk.values.items) frame.now }
    requires pairs { ArePairs store.old.desk.heap store.old.desk.values.items }
    ensures spawns { Spawns store.old store.new number frame.now }
    ensures kept { KeepsHeld store.old.queues store.new.queues }
    ensures no_more { HoldsNoMore store.old.queues store.new.queues }
    ensures spare_queues { store.new.queues.spare_queues ≡ store.old.queues.spare_queues }
    ensures blocks { KeepsBlocks store.old.queues.region store.new.queues.region }
    ensures cost { CostsAtMost (block_width frame.now + 2) store.old.queues store.new.queues }
{
    let part = make_part(&mut store.queues, &mut store.desk, number, frame);
    store.queues.push_back(QueueId(0), part);
}

/// A new block of the node with this number becomes the last of queue 0. Takes no memory.
#[inline(always)]
pub fn spawn_part(store: &mut Store, number: u32, frame: &[u32])
    requires queue { IsQueue store.old.queues 0 }
    requires can { CanHold store.old frame.now }
    requires inside { All (λ level. level < length store.old.desk.values.items) frame.now }
    requires pairs { ArePairs store.old.desk.heap store.old.desk.values.items }
    ensures spawns { Spawns store.old store.new number frame.now }
    ensures kept { KeepsHeld store.old.queues store.new.queues }
    ensures no_more { HoldsNoMore store.old.queues store.new.queues }
    ensures spare_queues { store.new.queues.spare_queues ≡ store.old.queues.spare_queues }
    ensures blocks { KeepsBlocks store.old.queues.region store.new.queues.region }
    ensures cost { CostsAtMost (block_width frame.now + 2) store.old.queues store.new.queues }
{
    if frame.len() <= NARROW_LIMIT as usize {
        spawn_narrow(store, number, frame);
    } else {
        spawn_made(store, number, frame);
    }
}

// The node with this number, of a larger frame, has the turn.
#[cold]
fn hand_on_wide(store: &mut Store, number: u32, frame: &[u32])
    requires wide { NARROW_LIMIT < length frame.now }
    requires can { CanHold store.old frame.now }
    requires inside { All (λ level. level < length store.old.desk.values.items) frame.now }
    requires pairs { ArePairs store.old.desk.heap store.old.desk.values.items }
    ensures hands { (core : Process) → HasFrame (nodes_of core) number frame.now → HandsOn core store.old store.new number frame.now }
    ensures queues { store.new.queues ≡ store.old.queues }
{
    let pair = frame_record(
        &mut store.desk.heap,
        &mut store.desk.pending,
        frame,
        &store.desk.values,
    );
    store.turn.set(Turn::Wide(number as usize, pair));
}

// The node with this number has the turn, with the values of the levels of its frame. A free block for it is there. Takes no
// memory, and no time in the levels of a frame that stands in a block itself.
#[inline(always)]
pub(crate) fn hand_on(store: &mut Store, number: u32, frame: &[u32])
    requires can { CanHold store.old frame.now }
    requires inside { All (λ level. level < length store.old.desk.values.items) frame.now }
    requires pairs { ArePairs store.old.desk.heap store.old.desk.values.items }
    ensures hands { (core : Process) → HasFrame (nodes_of core) number frame.now → HandsOn core store.old store.new number frame.now }
    ensures queues { store.new.queues ≡ store.old.queues }
{
    if frame.len() <= NARROW_LIMIT as usize {
        store.turn.set(Turn::Node(number as usize));
    } else {
        hand_on_wide(store, number, frame);
    }
}

// The record of who has the turn as that of this frame: where the two frames are the same one, of more than `NARROW_LIMIT` levels.
// Takes no memory.
#[cold]
fn record_of(store: &Store, code: &[Node], frame: &[u32]) -> Option<(u64, u64)>
    requires code { IsCode (map plain_node code.now) }
    requires turn { IsTurn (core_in code.now) store.now.desk.heap store.now.desk.values.items store.now.turn }
    ensures { IfSome result (HasRecord store.now frame.now) }
{
    match store.turn.get() {
        Turn::Wide(number, pair) => {
            if frame_at(code, number) == frame {
                return Some(pair);
            }
            None
        }
        _ => None,
    }
}

// The same of a frame that may be smaller.
#[inline(always)]
pub(crate) fn record_at(store: &Store, code: &[Node], frame: &[u32]) -> Option<(u64, u64)>
    requires code { IsCode (map plain_node code.now) }
    requires turn { IsTurn (core_in code.now) store.now.desk.heap store.now.desk.values.items store.now.turn }
    ensures { IfSome result (HasRecord store.now frame.now) }
{
    if frame.len() <= NARROW_LIMIT as usize {
        None
    } else {
        record_of(store, code, frame)
    }
}

// The same as `hand_on_from` of a larger frame.
#[cold]
fn hand_on_wide_from(store: &mut Store, code: &[Node], number: u32, frame: &[u32])
    requires code { IsCode (map plain_node code.now) }
    requires turn { IsTurn (core_in code.now) store.old.desk.heap store.old.desk.values.items store.old.turn }
    requires wide { NARROW_LIMIT < length frame.now }
    requires can { CanHold store.old frame.now }
    requires inside { All (λ level. level < length store.old.desk.values.items) frame.now }
    requires pairs { ArePairs store.old.desk.heap store.old.desk.values.items }
    ensures hands { (core : Process) → HasFrame (nodes_of core) number frame.now → HandsOn core store.old store.new number frame.now }
    ensures queues { store.new.queues ≡ store.old.queues }
{
    match record_of(&*store, code, frame) {
        Some(pair) => store.turn.set(Turn::Wide(number as usize, pair)),
        None => hand_on_wide(store, number, frame),
    }
}

// The same as `hand_on`, by who has the turn: a record of the same frame is handed on, and not made anew.
#[inline(always)]
pub(crate) fn hand_on_from(store: &mut Store, code: &[Node], number: u32, frame: &[u32])
    requires code { IsCode (map plain_node code.now) }
    requires turn { IsTurn (core_in code.now) store.old.desk.heap store.old.desk.values.items store.old.turn }
    requires can { CanHold store.old frame.now }
    requires inside { All (λ level. level < length store.old.desk.values.items) frame.now }
    requires pairs { ArePairs store.old.desk.heap store.old.desk.values.items }
    ensures hands { (core : Process) → HasFrame (nodes_of core) number frame.now → HandsOn core store.old store.new number frame.now }
    ensures queues { store.new.queues ≡ store.old.queues }
{
    if frame.len() <= NARROW_LIMIT as usize {
        store.turn.set(Turn::Node(number as usize));
    } else {
        hand_on_wide_from(store, code, number, frame);
    }
}

// A new block of the node with this number becomes the last of queue 0, with this record for its frame. Takes no memory.
#[cold]
fn spawn_record(store: &mut Store, number: u32, pair: (u64, u64))
    requires queue { IsQueue store.old.queues 0 }
    requires block { 1 ≤ spare store.old.queues.region 4 }
    ensures spawns { (frame : List ℕ) → HasRecord store.old frame pair → Spawns store.old store.new number frame }
    ensures kept { KeepsHeld store.old.queues store.new.queues }
    ensures no_more { HoldsNoMore store.old.queues store.new.queues }
    ensures spare_queues { store.new.queues.spare_queues ≡ store.old.queues.spare_queues }
    ensures blocks { KeepsBlocks store.old.queues.region store.new.queues.region }
    ensures cost { CostsAtMost 6 store.old.queues store.new.queues }
{
    let part = block_of(&mut store.queues, number as usize, &[0], &[pair]);
    store.queues.push_back(QueueId(0), part);
}

// The same as `spawn_part`, but that the block gets this record, where one of the frame is there already.
#[inline(always)]
pub(crate) fn spawn_from(store: &mut Store, there: Option<(u64, u64)>, number: u32, frame: &[u32])
    requires there { IfSome there (HasRecord store.old frame.now) }
    requires queue { IsQueue store.old.queues 0 }
    requires can { CanHold store.old frame.now }
    requires inside { All (λ level. level < length store.old.desk.values.items) frame.now }
    requires pairs { ArePairs store.old.desk.heap store.old.desk.values.items }
    ensures spawns { Spawns store.old store.new number frame.now }
    ensures kept { KeepsHeld store.old.queues store.new.queues }
    ensures no_more { HoldsNoMore store.old.queues store.new.queues }
    ensures spare_queues { store.new.queues.spare_queues ≡ store.old.queues.spare_queues }
    ensures blocks { KeepsBlocks store.old.queues.region store.new.queues.region }
    ensures cost { CostsAtMost (block_width frame.now + 2) store.old.queues store.new.queues }
{
    match there {
        Some(pair) => spawn_record(store, number, pair),
        None => spawn_part(store, number, frame),
    }
}

/// Where nobody has the turn, the node with this number becomes the last of the ready ones: with the turn where nobody else is
/// ready, and else in a new block. Takes no memory.
#[inline(always)]
pub fn make_ready(store: &mut Store, number: u32, frame: &[u32])
    requires nobody { store.old.turn ≡ Turn.Nobody }
    requires queue { IsQueue store.old.queues 0 }
    requires can { CanHold store.old frame.now }
    requires inside { All (λ level. level < length store.old.desk.values.items) frame.now }
    requires pairs { ArePairs store.old.desk.heap store.old.desk.values.items }
    ensures last { (core : Process) → HasFrame (nodes_of core) number frame.now → IsLast core store.old store.new number frame.now }
    ensures kept { KeepsHeld store.old.queues store.new.queues }
    ensures no_more { HoldsNoMore store.old.queues store.new.queues }
    ensures spare_queues { store.new.queues.spare_queues ≡ store.old.queues.spare_queues }
    ensures blocks { KeepsBlocks store.old.queues.region store.new.queues.region }
    ensures cost { CostsAtMost (block_width frame.now + 2) store.old.queues store.new.queues }
{
    if store.queues.length(QueueId(0)) == 0 {
        hand_on(store, number, frame);
    } else {
        spawn_part(store, number, frame);
    }
}
