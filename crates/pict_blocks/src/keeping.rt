// Outputs of kept values as blocks.
ghost use Rattle.std.specs.Prelude.{◌≡◌, ◌≤◌};
ghost use Rattle.pict_region.specs.RegionState.{spare, width_of};
ghost use Rattle.pict_queue.specs.QueuesState.{IsHeld, CostsAtMost};
ghost use Rattle.pict_queue.specs.Contents.{held_words};
ghost use Rattle.pict_blocks.specs.Keeping.{kept_words};
ghost use Rattle.pict_desk.specs.Kept.{FitsKept};
ghost use Rattle.pict_blocks.specs.Writing.{IsMade, OnlyWorks};
ghost use Rattle.pict_desk.specs.declared.kept.Kept.{Kept as AnyKept};

use crate::frames::{read_pair, write_pair};
use pict_desk::Kept;
use pict_queue::Queues;
use pict_region::Block;
use pict_syntax::Span;

/// A new block of an output of kept values. Takes no memory.
#[inline(always)]
pub fn kept_block(queues: &mut Queues, kept: Kept) -> Block
    requires spare { 1 ≤ spare queues.old.region 9 }
    ensures made { IsMade queues.old queues.new result (kept_words kept) 9 }
    ensures cost { CostsAtMost 8 queues.old queues.new }
{
    let block = queues.take(9);
    write_pair(queues, &block, 2, kept.to);
    write_pair(queues, &block, 4, kept.message);
    write_pair(
        queues,
        &block,
        6,
        (u64::from(kept.at.text), u64::from(kept.at.start)),
    );
    queues.set(&block, 8, u64::from(kept.at.end));
    block
}

/// The output of kept values that a held block is. Takes no memory.
#[inline(always)]
pub fn read_kept(queues: &mut Queues, block: &Block) -> Kept
    requires held { IsHeld queues.old block.now }
    requires wide { width_of queues.old.region block.now ≡ 9 }
    requires kept { (k : AnyKept) × FitsKept k × (held_words queues.old.region block.now ≡ kept_words k) }
    ensures kept { (k : AnyKept) → FitsKept k → held_words queues.old.region block.now ≡ kept_words k → result ≡ k }
    ensures rest { OnlyWorks queues.old queues.new }
    ensures cost { CostsAtMost 7 queues.old queues.new }
{
    let to = read_pair(queues, block, 2);
    let message = read_pair(queues, block, 4);
    let (text, start) = read_pair(queues, block, 6);
    let end = queues.get(block, 8);
    Kept {
        to,
        message,
        at: Span {
            text: text as u32,
            start: start as u32,
            end: end as u32,
        },
    }
}
