// Room for what a step is about to make.
ghost use Rattle.std.specs.Prelude.{◌≡◌, ◌≤◌, ◌<◌, ◌+◌, ◌-◌, ◌==◌, ◌∷◌, ℕ, [], length, OnOk, IsOk, if◌then◌else◌};
ghost use Rattle.pict_region.specs.RegionState.{spare, blocks, LosesNoBlock};
ghost use Rattle.pict_desk.specs.Needs.{no_need, HasRoomFor};
ghost use Rattle.pict_desk.specs.Room.{frame_need};
ghost use Rattle.pict_blocks.specs.Parts.{block_width};
ghost use Rattle.pict_turns.specs.Reserving.{CanHoldAnd, CanHoldBoth, OnlyReserves};
ghost use Rattle.pict_turns.specs.Widths.{MakesOnly};

use crate::store::Store;
use pict_blocks::{KEPT_WIDTH, block_width, narrow_width};
use pict_desk::{both, frame_need, is_nothing, reserve_room};
use pict_prim::Need;
use pict_syntax::NARROW_LIMIT;
use std::alloc::AllocError;

/// Makes room for so much in the heap and on the piles, and free blocks until there are `count` of this width, in words. Where
/// nothing else is needed and so many blocks are free, or none is asked for, it takes no memory. An error, which is want of memory, changes nothing but
/// room, of which there is then no less; a number of fields past 32 bits is want of memory.
#[inline(always)]
pub fn reserve(store: &mut Store, need: Need, width: u32, count: u64) -> Result<(), AllocError>
    requires positive { 2 ≤ width }
    requires narrow { width ≤ 65535 }
    ensures room { OnOk result (HasRoomFor store.new.desk.heap store.new.desk.pending need) }
    ensures blocks { OnOk result (count ≤ spare store.new.queues.region width) }
    ensures enough { need ≡ no_need → count ≤ spare store.old.queues.region width → IsOk result }
    ensures most { (w : ℕ) → blocks store.new.queues.region w
        ≤ blocks store.old.queues.region w + ((if w == width then count else 0) - spare store.old.queues.region w) }
    ensures least { LosesNoBlock store.old.queues.region store.new.queues.region }
    ensures rest { OnlyReserves store.old store.new }
{
    reserve_room(&mut store.desk, need)?;
    store.queues.reserve(width, count)
}

// Makes room for a block of a frame, and in the heap and on the piles for so much more. An error, which is want of memory, changes
// nothing but room.
#[inline(never)]
fn reserve_part_and(store: &mut Store, frame: &[u32], further: Need) -> Result<(), AllocError>
    ensures ok { OnOk result (CanHoldAnd store.new frame.now further) }
    ensures most { MakesOnly store.old.queues store.new.queues (block_width frame.now ∷ []) }
    ensures rest { OnlyReserves store.old store.new }
{
    let need = both(frame_need(frame), further)?;
    reserve(store, need, block_width(frame), 1)
}

/// Makes room for a block of a frame, and in the heap and on the piles for so much more. Where nothing more is needed, the
/// frame stands in a block itself and one of its width is free, it takes no memory. An error, which is want of memory, changes
/// nothing but room.
#[inline(always)]
pub fn reserve_part(store: &mut Store, frame: &[u32], further: Need) -> Result<(), AllocError>
    ensures ok { OnOk result (CanHoldAnd store.new frame.now further) }
    ensures enough { length frame.now ≤ NARROW_LIMIT → further ≡ no_need → 1 ≤ spare store.old.queues.region (block_width frame.now) → IsOk result }
    ensures most { MakesOnly store.old.queues store.new.queues (block_width frame.now ∷ []) }
    ensures rest { OnlyReserves store.old store.new }
{
    if frame.len() <= NARROW_LIMIT as usize && is_nothing(further) {
        store.queues.reserve(narrow_width(frame), 1)
    } else {
        reserve_part_and(store, frame, further)
    }
}

// Makes blocks of two widths, in words, until one of each is free, or two where the widths are equal. An error, which is want of
// memory, changes nothing but room.
#[inline(always)]
fn reserve_blocks(store: &mut Store, width: u32, other: u32) -> Result<(), AllocError>
    requires positive { 2 ≤ width }
    requires narrow { width ≤ 65535 }
    requires other_positive { 2 ≤ other }
    requires other_narrow { other ≤ 65535 }
    ensures one { OnOk result (1 ≤ spare store.new.queues.region width) }
    ensures other { OnOk result ((if other == width then 2 else 1) ≤ spare store.new.queues.region other) }
    ensures most { MakesOnly store.old.queues store.new.queues (width ∷ other ∷ []) }
    ensures rest { OnlyReserves store.old store.new }
{
    if other == width {
        store.queues.reserve(width, 2)
    } else {
        store.queues.reserve(width, 1)?;
        store.queues.reserve(other, 1)
    }
}

// Makes room for blocks of two frames, and in the heap and on the piles for records of them. An error, which is want of memory,
// changes nothing but room.
#[inline(never)]
fn reserve_wide_parts(store: &mut Store, first: &[u32], second: &[u32]) -> Result<(), AllocError>
    ensures ok { OnOk result (CanHoldBoth store.new first.now second.now) }
    ensures most { MakesOnly store.old.queues store.new.queues (block_width first.now ∷ block_width second.now ∷ []) }
    ensures rest { OnlyReserves store.old store.new }
{
    let need = both(frame_need(first), frame_need(second))?;
    reserve_room(&mut store.desk, need)?;
    reserve_blocks(store, block_width(first), block_width(second))
}

// Makes room for blocks of two frames. An error, which is want of memory, changes nothing but room.
#[inline(always)]
pub(crate) fn reserve_parts(
    store: &mut Store,
    first: &[u32],
    second: &[u32],
) -> Result<(), AllocError>
    ensures ok { OnOk result (CanHoldBoth store.new first.now second.now) }
    ensures most { MakesOnly store.old.queues store.new.queues (block_width first.now ∷ block_width second.now ∷ []) }
    ensures rest { OnlyReserves store.old store.new }
{
    if first.len() <= NARROW_LIMIT as usize && second.len() <= NARROW_LIMIT as usize {
        reserve_blocks(store, narrow_width(first), narrow_width(second))
    } else {
        reserve_wide_parts(store, first, second)
    }
}

// Makes room for a block of an output of kept values, and for so much in the heap and on the piles. An error, which is want of
// memory, changes nothing but room.
#[inline(never)]
fn reserve_kept_and(store: &mut Store, need: Need) -> Result<(), AllocError>
    ensures block { OnOk result (1 ≤ spare store.new.queues.region 9) }
    ensures room { OnOk result (HasRoomFor store.new.desk.heap store.new.desk.pending need) }
    ensures most { MakesOnly store.old.queues store.new.queues (9 ∷ []) }
    ensures rest { OnlyReserves store.old store.new }
{
    reserve(store, need, KEPT_WIDTH, 1)
}

/// Makes room for a block of an output of kept values, and for so much in the heap and on the piles. Where nothing else is needed
/// and a block is free it takes no memory. An error, which is want of memory, changes nothing but room.
#[inline(always)]
pub fn reserve_kept(store: &mut Store, need: Need) -> Result<(), AllocError>
    ensures block { OnOk result (1 ≤ spare store.new.queues.region 9) }
    ensures room { OnOk result (HasRoomFor store.new.desk.heap store.new.desk.pending need) }
    ensures enough { need ≡ no_need → 1 ≤ spare store.old.queues.region 9 → IsOk result }
    ensures most { MakesOnly store.old.queues store.new.queues (9 ∷ []) }
    ensures rest { OnlyReserves store.old store.new }
{
    if is_nothing(need) {
        store.queues.reserve(KEPT_WIDTH, 1)
    } else {
        reserve_kept_and(store, need)
    }
}
