// The frame of a node is read out of its block, and the block freed.
ghost use Rattle.std.specs.Prelude.{◌≡◌, ◌<◌, ◌≤◌, ◌∷◌, ℕ, suc, List, All, length, slice_index};
ghost use Rattle.pict_syntax.specs.declared.limits.TheConstants.{NARROW_LIMIT};
ghost use Rattle.pict_code.specs.Levels.{Rises};
ghost use Rattle.pict_region.specs.RegionState.{words_of};
ghost use Rattle.pict_queue.specs.QueuesState.{IsHeld, CostsAtMost};
ghost use Rattle.pict_queue.specs.Contents.{held_words};
ghost use Rattle.pict_desk.specs.Pairs.{ArePairs};
ghost use Rattle.pict_blocks.specs.Holding.{HoldWords, HoldRecord};
ghost use Rattle.pict_blocks.specs.Parts.{block_width, HasReadFrame};
ghost use Rattle.pict_blocks.specs.Writing.{IsFreed, OnlyWorks};

use pict_desk::{Desk, read_record};
use pict_queue::Queues;
use pict_region::Block;

/// Reads the values of a frame, which stand in a held block itself, each to the place of its level, and frees the block. Takes no
/// memory.
#[inline(always)]
pub fn read_narrow(queues: &mut Queues, desk: &mut Desk, block: Block, frame: &[u32])
    requires narrow { length frame.now ≤ NARROW_LIMIT }
    requires held { IsHeld queues.old block }
    requires inside { All (λ level. level < length desk.old.values.items) frame.now }
    requires rising { Rises 0 frame.now }
    requires pairs { ArePairs desk.old.heap desk.old.values.items }
    requires holds { (number : ℕ) × (held : List ℕ) × (held_words queues.old.region block ≡ suc number ∷ held)
        × HoldWords desk.old.heap (length frame.now) held }
    ensures read { HasReadFrame desk.old desk.new (held_words queues.old.region block) frame.now }
    ensures freed { IsFreed queues.old queues.new block }
    ensures cost { CostsAtMost (block_width frame.now) queues.old queues.new }
{
    queues.scatter_and_give(block, 2, frame, &mut desk.values);
}

/// Reads the values of a frame, which stand in a record, of which the result is the two words. The block stays held.
#[cold]
pub fn read_wide(queues: &mut Queues, desk: &mut Desk, block: &Block, frame: &[u32]) -> (u64, u64)
    requires wide { NARROW_LIMIT < length frame.now }
    requires held { IsHeld queues.old block.now }
    requires inside { All (λ level. level < length desk.old.values.items) frame.now }
    requires rising { Rises 0 frame.now }
    requires pairs { ArePairs desk.old.heap desk.old.values.items }
    requires holds { (number : ℕ) × (held : List ℕ) × (held_words queues.old.region block.now ≡ suc number ∷ held)
        × HoldRecord desk.old.heap (length frame.now) held }
    ensures read { HasReadFrame desk.old desk.new (held_words queues.old.region block.now) frame.now }
    ensures first { result.0 ≡ slice_index (words_of queues.old.region block.now) 2 }
    ensures second { result.1 ≡ slice_index (words_of queues.old.region block.now) 3 }
    ensures rest { OnlyWorks queues.old queues.new }
    ensures cost { CostsAtMost 2 queues.old queues.new }
{
    let pair = queues.get_pair(block, 2);
    read_record(&desk.heap, pair, frame, &mut desk.values);
    pair
}
