// Who has the turn, or a part of it, goes to other queues.
ghost use Rattle.std.specs.Prelude.{◌≡◌, ◌≤◌, ◌<◌, All, length, map, OnOk, OnErr};
ghost use Rattle.pict_code.specs.Instruction as op;
ghost use Rattle.pict_code.specs.Plain.{plain_node};
ghost use Rattle.pict_region.specs.RegionState.{spare};
ghost use Rattle.pict_queue.specs.QueuesState.{IsQueue};
ghost use Rattle.pict_desk.specs.Code.{core_in, IsCode};
ghost use Rattle.pict_desk.specs.Needs.{both_needs, HasRoomFor};
ghost use Rattle.pict_desk.specs.Pairs.{ArePairs};
ghost use Rattle.pict_desk.specs.Room.{frame_need};
ghost use Rattle.pict_blocks.specs.Parts.{block_width};
ghost use Rattle.pict_turns.specs.Acting.{HasActing, ActsBy, IsRefused};
ghost use Rattle.pict_turns.specs.Reserving.{OnlyReserves};
ghost use Rattle.pict_turns.specs.Views.{acting_words};
ghost use Rattle.pict_sites.specs.Passing.{GainsLast, HoldsTheSame, PutsParts, Splits};
ghost use Rattle.pict_sites.specs.Views.{IsSite};

use pict_blocks::{block_width, make_part};
use pict_code::Node;
use pict_desk::{both, frame_need};
use pict_meetings::acting_width;
use pict_queue::{QueueId, Queues};
use pict_turns::{Store, Turn, frame_at, reserve, set_down};
use std::alloc::AllocError;
use std::mem::swap;

/// Who has the turn becomes the last of queue 0 of these queues, and nobody has the turn then. An error, which is want of memory,
/// changes nothing but free blocks.
pub(crate) fn pass(store: &mut Store, code: &[Node], queues: &mut Queues) -> Result<(), AllocError>
    requires code { IsCode (map plain_node code.now) }
    requires acting { HasActing (core_in code.now) store.old }
    requires site { IsSite (core_in code.now) store.old.desk queues.old }
    ensures gains { OnOk result (GainsLast queues.old queues.new (acting_words (core_in code.now) store.old)) }
    ensures nobody { OnOk result (store.new ≡ record store.old { turn = Turn.Nobody }) }
    ensures refused { OnErr result (HoldsTheSame queues.old queues.new) }
    ensures same { OnErr result (store.new ≡ store.old) }
{
    let width = acting_width(code, store);
    queues.reserve(width, 1)?;
    swap(&mut store.queues, queues);
    let block = set_down(store, code);
    store.queues.push_back(QueueId(0), block);
    swap(&mut store.queues, queues);
    Ok(())
}

// Makes room for a block of the first frame in the store's queues, and for the records of both. An error, which is want of memory,
// changes nothing but room.
fn reserve_both(store: &mut Store, first: &[u32], second: &[u32]) -> Result<(), AllocError>
    ensures block { OnOk result (1 ≤ spare store.new.queues.region (block_width first.now)) }
    ensures room { OnOk result (HasRoomFor store.new.desk.heap store.new.desk.pending (both_needs (frame_need first.now) (frame_need second.now))) }
    ensures rest { OnlyReserves store.old store.new }
{
    let need = both(frame_need(first), frame_need(second))?;
    reserve(store, need, block_width(first), 1)
}

// The node with the first number becomes the first of queue 0 of the store, and the node with the second one the last of queue 0
// of these queues, each with the values of its frame. Nobody has the turn then. Takes no memory.
fn put_parts(
    store: &mut Store,
    left: u32,
    first: &[u32],
    right: u32,
    second: &[u32],
    queues: &mut Queues,
)
    requires ready { IsQueue store.old.queues 0 }
    requires there { IsQueue queues.old 0 }
    requires block { 1 ≤ spare store.old.queues.region (block_width first.now) }
    requires other { 1 ≤ spare queues.old.region (block_width second.now) }
    requires room { HasRoomFor store.old.desk.heap store.old.desk.pending (both_needs (frame_need first.now) (frame_need second.now)) }
    requires inside { All (λ level. level < length store.old.desk.values.items) first.now }
    requires within { All (λ level. level < length store.old.desk.values.items) second.now }
    requires pairs { ArePairs store.old.desk.heap store.old.desk.values.items }
    ensures { PutsParts store.old store.new queues.old queues.new left first.now right second.now }
{
    let part = make_part(&mut store.queues, &mut store.desk, left, first);
    store.queues.push_front(QueueId(0), part);
    let other = make_part(queues, &mut store.desk, right, second);
    queues.push_back(QueueId(0), other);
    store.turn.set(Turn::Nobody);
}

/// A parallel composition, which has the turn: its left part becomes the first of queue 0 of the store, its right part the last of
/// queue 0 of these queues, and nobody has the turn then. An error, which is want of memory, changes nothing but room and free
/// blocks.
pub(crate) fn split(
    store: &mut Store,
    code: &[Node],
    left: u32,
    right: u32,
    queues: &mut Queues,
) -> Result<(), AllocError>
    requires code { IsCode (map plain_node code.now) }
    requires acts { ActsBy (core_in code.now) store.old (op.Par left right) }
    requires site { IsSite (core_in code.now) store.old.desk queues.old }
    ensures splits { OnOk result (Splits (core_in code.now) store.old store.new queues.old queues.new) }
    ensures refused { OnErr result (IsRefused (core_in code.now) store.old store.new) }
    ensures same { OnErr result (HoldsTheSame queues.old queues.new) }
{
    let first = frame_at(code, left as usize);
    let second = frame_at(code, right as usize);
    reserve_both(store, first, second)?;
    queues.reserve(block_width(second), 1)?;
    put_parts(store, left, first, right, second, queues);
    Ok(())
}
