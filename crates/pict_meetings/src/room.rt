// Room for the block of a part that a meeting spawns.
ghost use Rattle.std.specs.Prelude.{◌≡◌, ◌≤◌, ◌∷◌, [], ℕ, List, length, OnOk, IsOk, IsTrue};
ghost use Rattle.pict_region.specs.RegionState.{spare, KeepsBlocks};
ghost use Rattle.pict_desk.specs.Needs.{no_need};
ghost use Rattle.pict_blocks.specs.Parts.{block_width};
ghost use Rattle.pict_turns.specs.Reserving.{OnlyReserves};
ghost use Rattle.pict_turns.specs.Widths.{MakesOnly};
ghost use Rattle.pict_meetings.specs.Room.{as_wide, CanHoldAfterAnd, CanHoldBeside};

use pict_blocks::block_width;
use pict_desk::reserve_room;
use pict_prim::{NO_NEED, Need};
use pict_syntax::NARROW_LIMIT;
use pict_turns::{Store, reserve_part};
use std::alloc::AllocError;

/// Makes room for the block of a frame, once blocks that end are given back, and in the heap and on the piles for so much more:
/// `reuses` says whether one of those blocks is as wide. Where one is, and the frame stands in a block itself, it makes no block,
/// and where nothing more is needed either it does nothing. An error, which is want of memory, changes nothing but room.
#[inline(always)]
pub(crate) fn reserve_served(
    store: &mut Store,
    frame: &[u32],
    further: Need,
    reuses: bool,
) -> Result<(), AllocError>
    ensures ok { OnOk result ((given : List (List ℕ)) → (IsTrue reuses → 1 ≤ as_wide (block_width frame.now) given)
        → CanHoldAfterAnd store.new given frame.now further) }
    ensures plain { IsTrue reuses → length frame.now ≤ NARROW_LIMIT → further ≡ no_need → IsOk result }
    ensures same { IsTrue reuses → length frame.now ≤ NARROW_LIMIT → further ≡ no_need → store.new ≡ store.old }
    ensures enough { length frame.now ≤ NARROW_LIMIT → further ≡ no_need → 1 ≤ spare store.old.queues.region (block_width frame.now) → IsOk result }
    ensures blocks { IsTrue reuses → length frame.now ≤ NARROW_LIMIT → KeepsBlocks store.old.queues.region store.new.queues.region }
    ensures most { MakesOnly store.old.queues store.new.queues (block_width frame.now ∷ []) }
    ensures rest { OnlyReserves store.old store.new }
{
    if reuses && frame.len() <= NARROW_LIMIT as usize {
        reserve_room(&mut store.desk, further)
    } else {
        reserve_part(store, frame, further)
    }
}

/// Makes room for the block of a frame where who has the turn keeps it, whose block would have this width. An error, which is want
/// of memory, changes nothing but room.
#[inline(always)]
pub fn reserve_beside(store: &mut Store, frame: &[u32], width: u32) -> Result<(), AllocError>
    ensures ok { OnOk result (CanHoldBeside store.new width frame.now) }
    ensures most { MakesOnly store.old.queues store.new.queues (width ∷ block_width frame.now ∷ []) }
    ensures rest { OnlyReserves store.old store.new }
{
    reserve_part(store, frame, NO_NEED)?;
    if width == block_width(frame) {
        store.queues.reserve(width, 2)
    } else {
        Ok(())
    }
}
