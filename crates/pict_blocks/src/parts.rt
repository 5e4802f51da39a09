// The parts of a node become blocks.
ghost use Rattle.std.specs.Prelude.{◌<◌, ◌≤◌, All, length};
ghost use Rattle.pict_queue.specs.QueuesState.{CostsAtMost};
ghost use Rattle.pict_desk.specs.Pairs.{ArePairs};
ghost use Rattle.pict_blocks.specs.Parts.{block_width, HasPlaceFor, IsPart};

use crate::spawning::block_of;
use pict_desk::{Desk, frame_record};
use pict_queue::Queues;
use pict_region::Block;
use pict_syntax::NARROW_LIMIT;

// A new block of the node with this number, with the values of its frame, which stands in the block.
#[inline(always)]
fn make_narrow(queues: &mut Queues, desk: &Desk, number: u32, frame: &[u32]) -> Block
    requires narrow { length frame.now ≤ NARROW_LIMIT }
    requires can { HasPlaceFor queues.old desk.now frame.now }
    requires inside { All (λ level. level < length desk.now.values.items) frame.now }
    requires pairs { ArePairs desk.now.heap desk.now.values.items }
    ensures part { IsPart queues.old queues.new desk.now desk.now result number frame.now }
    ensures cost { CostsAtMost (block_width frame.now) queues.old queues.new }
{
    block_of(queues, number as usize, frame, &desk.values)
}

// The same of a frame that stands in a record.
#[cold]
fn make_wide(queues: &mut Queues, desk: &mut Desk, number: u32, frame: &[u32]) -> Block
    requires wide { NARROW_LIMIT < length frame.now }
    requires can { HasPlaceFor queues.old desk.old frame.now }
    requires inside { All (λ level. level < length desk.old.values.items) frame.now }
    requires pairs { ArePairs desk.old.heap desk.old.values.items }
    ensures part { IsPart queues.old queues.new desk.old desk.new result number frame.now }
    ensures cost { CostsAtMost (block_width frame.now) queues.old queues.new }
{
    let pair = frame_record(&mut desk.heap, &mut desk.pending, frame, &desk.values);
    block_of(queues, number as usize, &[0], &[pair])
}

/// A new block of the node with this number, with the values of its frame. Takes no memory.
#[inline(always)]
pub fn make_part(queues: &mut Queues, desk: &mut Desk, number: u32, frame: &[u32]) -> Block
    requires can { HasPlaceFor queues.old desk.old frame.now }
    requires inside { All (λ level. level < length desk.old.values.items) frame.now }
    requires pairs { ArePairs desk.old.heap desk.old.values.items }
    ensures part { IsPart queues.old queues.new desk.old desk.new result number frame.now }
    ensures cost { CostsAtMost (block_width frame.now) queues.old queues.new }
{
    if frame.len() <= NARROW_LIMIT as usize {
        make_narrow(queues, desk, number, frame)
    } else {
        make_wide(queues, desk, number, frame)
    }
}
