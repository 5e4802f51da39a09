// Room for what a node is about to make.
ghost use Rattle.std.specs.Prelude.{◌≡◌, ◌↔◌, OnOk, IsOk, IsTrue};
ghost use Rattle.pict_desk.specs.Needs.{no_need, HasRoomFor};
ghost use Rattle.pict_desk.specs.Room.{frame_need, OnlyMakesRoom};

use crate::desk::Desk;
use pict_prim::Need;
use pict_syntax::NARROW_LIMIT;
use std::alloc::AllocError;

/// What a block for a frame needs of the heap.
#[inline(always)]
pub fn frame_need(frame: &[u32]) -> Need
    ensures { result ≡ frame_need frame.now }
{
    if frame.len() <= NARROW_LIMIT as usize {
        Need {
            records: 0,
            fields: 0,
            texts: 0,
            bytes: 0,
        }
    } else {
        Need {
            records: 1,
            fields: frame.len() as u64,
            texts: 0,
            bytes: 0,
        }
    }
}

/// Whether there is no need.
#[inline(always)]
pub fn is_nothing(need: Need) -> bool
    ensures { IsTrue result ↔ (need ≡ no_need) }
{
    need.records == 0 && need.fields == 0 && need.texts == 0 && need.bytes == 0
}

// Makes room for so much in the heap and on both piles. An error, which is want of memory, changes nothing but room, of which there
// is then no less; a number of fields past 32 bits is want of memory.
#[inline(never)]
fn make_room(desk: &mut Desk, need: Need) -> Result<(), AllocError>
    ensures room { OnOk result (HasRoomFor desk.new.heap desk.new.pending need) }
    ensures rest { OnlyMakesRoom desk.old desk.new }
{
    if need.fields > u64::from(u32::MAX) {
        return Err(AllocError);
    }
    desk.heap
        .reserve(need.records, need.fields, need.texts, need.bytes)?;
    desk.pending.words.reserve(need.fields as usize)?;
    desk.pending.labelled.reserve(need.fields as usize)
}

/// Makes room for so much in the heap and on both piles, and does nothing where there is no need. An error, which is want of
/// memory, changes nothing but room, of which there is then no less; a number of fields past 32 bits is want of memory.
#[inline(always)]
pub fn reserve_room(desk: &mut Desk, need: Need) -> Result<(), AllocError>
    ensures enough { need ≡ no_need → IsOk result }
    ensures same { need ≡ no_need → desk.new ≡ desk.old }
    ensures room { OnOk result (HasRoomFor desk.new.heap desk.new.pending need) }
    ensures rest { OnlyMakesRoom desk.old desk.new }
{
    if is_nothing(need) {
        Ok(())
    } else {
        make_room(desk, need)
    }
}
