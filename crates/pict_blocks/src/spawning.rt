// A node of the code, with values for its frame, becomes a block.
ghost use Rattle.std.specs.Prelude.{◌≡◌, ◌<◌, ◌≤◌, ◌+◌, ◌*◌, ◌^◌, ◌++◌, ◌∷◌, [], All, length};
ghost use Rattle.pict_syntax.specs.declared.limits.TheConstants.{NARROW_LIMIT};
ghost use Rattle.pict_region.specs.RegionState.{spare, KeepsBlocks, KeepsOtherWidths};
ghost use Rattle.pict_queue.specs.QueuesState.{IsQueue, CostsAtMost};
ghost use Rattle.pict_queue.specs.Contents.{contents, KeepsOtherContents, KeepsHeld, HoldsNoMore};
ghost use Rattle.pict_blocks.specs.Framed.{node_words};
ghost use Rattle.pict_blocks.specs.Writing.{IsMade};

use pict_queue::{QueueId, Queues};
use pict_region::Block;

/// A new block of the node with this number, with these values for its frame. Takes no memory.
#[inline(always)]
pub fn block_of(queues: &mut Queues, number: usize, frame: &[u32], values: &[(u64, u64)]) -> Block
    requires small { number + 1 < 2 ^ 64 }
    requires narrow { length frame.now ≤ NARROW_LIMIT }
    requires spare { 1 ≤ spare queues.old.region (2 + 2 * length frame.now) }
    requires known { All (λ level. level < length values.now) frame.now }
    ensures made { IsMade queues.old queues.new result (node_words values.now number frame.now) (2 + 2 * length frame.now) }
    ensures cost { CostsAtMost (2 * length frame.now + 2) queues.old queues.new }
{
    let width = 2 + 2 * frame.len() as u32;
    queues.take_gathered(width, number as u64 + 1, frame, values)
}

/// A new block of the node with this number, with these values for its frame, becomes the last of a queue. Takes no
/// memory.
#[inline(always)]
pub fn spawn(queues: &mut Queues, queue: QueueId, number: u32, frame: &[u32], values: &[(u64, u64)])
    requires queue { IsQueue queues.old queue.0 }
    requires narrow { length frame.now ≤ NARROW_LIMIT }
    requires spare { 1 ≤ spare queues.old.region (2 + 2 * length frame.now) }
    requires known { All (λ level. level < length values.now) frame.now }
    ensures pushed { contents queues.new queue.0 ≡ contents queues.old queue.0 ++ node_words values.now number frame.now ∷ [] }
    ensures other_contents { KeepsOtherContents queues.old queues.new queue.0 }
    ensures queues { length queues.new.queues ≡ length queues.old.queues }
    ensures spare_queues { queues.new.spare_queues ≡ queues.old.spare_queues }
    ensures kept { KeepsHeld queues.old queues.new }
    ensures no_more { HoldsNoMore queues.old queues.new }
    ensures blocks { KeepsBlocks queues.old.region queues.new.region }
    ensures spare { spare queues.new.region (2 + 2 * length frame.now) + 1 ≡ spare queues.old.region (2 + 2 * length frame.now) }
    ensures widths { KeepsOtherWidths queues.old.region queues.new.region (2 + 2 * length frame.now) }
    ensures cost { CostsAtMost (2 * length frame.now + 4) queues.old queues.new }
{
    let width = 2 + 2 * frame.len() as u32;
    queues.push_gathered(queue, width, number as u64 + 1, frame, values);
}
