// The queues of channels.
ghost use Rattle.std.specs.Prelude.{◌≡◌, ◌+◌, ◌++◌, ◌∷◌, [], length};
ghost use Rattle.pict_region.specs.RegionState.{KeepsBlocks};
ghost use Rattle.pict_queue.specs.QueuesState.{IsQueue, IsHeld, CostsAtMost};
ghost use Rattle.pict_queue.specs.Contents.{held_words, contents, KeepsOtherContents, KeepsOtherHeld, Releases};

use pict_queue::{QueueId, Queues};
use pict_region::Block;

// The queue of what waits at a channel: queue 0 is of the ready processes.
#[inline(always)]
pub(crate) fn queue_of(channel: u32) -> QueueId
    ensures { result.0 ≡ channel + 1 }
{
    QueueId(u64::from(channel) + 1)
}

// The held block becomes the last that waits at the channel.
#[inline(always)]
pub(crate) fn wait_behind(queues: &mut Queues, block: Block, channel: u32)
    requires queue { IsQueue queues.old (channel + 1) }
    requires held { IsHeld queues.old block }
    ensures waiting { contents queues.new (channel + 1) ≡ contents queues.old (channel + 1) ++ held_words queues.old.region block ∷ [] }
    ensures others { KeepsOtherContents queues.old queues.new (channel + 1) }
    ensures kept { KeepsOtherHeld queues.old queues.new block }
    ensures gone { Releases queues.old queues.new block }
    ensures blocks { KeepsBlocks queues.old.region queues.new.region }
    ensures free { queues.new.region.free ≡ queues.old.region.free }
    ensures queues { length queues.new.queues ≡ length queues.old.queues }
    ensures spare_queues { queues.new.spare_queues ≡ queues.old.spare_queues }
    ensures cost { CostsAtMost 2 queues.old queues.new }
{
    queues.push_back(queue_of(channel), block);
}
