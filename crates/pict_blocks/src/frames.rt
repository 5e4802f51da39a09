// Frames in blocks.
ghost use Rattle.std.specs.Prelude.{◌≡◌, ◌<◌, ◌+◌, ◌^◌, slice_set, slice_index};
ghost use Rattle.pict_region.specs.RegionState.{words_of, width_of};
ghost use Rattle.pict_queue.specs.QueuesState.{IsHeld, CostsAtMost};
ghost use Rattle.pict_blocks.specs.Writing.{OnlyWrites, OnlyWorks};

use pict_queue::Queues;
use pict_region::Block;

// Writes a value into a held block, at this word and the next.
#[inline(always)]
pub(crate) fn write_pair(queues: &mut Queues, block: &Block, place: u32, pair: (u64, u64))
    requires held { IsHeld queues.old block.now }
    requires inside { place + 1 < width_of queues.old.region block.now }
    requires small { place + 1 < 2 ^ 32 }
    ensures writes { OnlyWrites queues.old queues.new block.now
        (slice_set (slice_set (words_of queues.old.region block.now) place pair.0) (place + 1) pair.1) }
    ensures cost { CostsAtMost 2 queues.old queues.new }
{
    queues.set_pair(block, place, pair);
}

// The value of a held block at this word and the next.
#[inline(always)]
pub(crate) fn read_pair(queues: &mut Queues, block: &Block, place: u32) -> (u64, u64)
    requires held { IsHeld queues.old block.now }
    requires inside { place + 1 < width_of queues.old.region block.now }
    requires small { place + 1 < 2 ^ 32 }
    ensures tag { result.0 ≡ slice_index (words_of queues.old.region block.now) place }
    ensures payload { result.1 ≡ slice_index (words_of queues.old.region block.now) (place + 1) }
    ensures rest { OnlyWorks queues.old queues.new }
    ensures cost { CostsAtMost 2 queues.old queues.new }
{
    queues.get_pair(block, place)
}
