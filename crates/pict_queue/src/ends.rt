// The ends of queues, and their lengths.
ghost use Rattle.std.specs.Prelude.{◌≡◌, ◌≤◌, ◌<◌, ◌+◌, ◌-◌, ◌*◌, ◌^◌, ◌++◌, ◌∷◌, [], ℕ, All, None, length, slice_set, OnOk, IsOk, IfSome, unwrap_or, slice_index, if◌then◌else◌, is_ok, vec_len};
ghost use Rattle.std.specs.Vec.{vec_capacity};
ghost use Rattle.pict_region.specs.RegionState.{IsLive, words_of, width_of, spare, KeepsBlocks, KeepsOtherWidths, raised_by, GainsLinked};
ghost use Rattle.pict_region.specs.Values.{gathered};
ghost use Rattle.std.specs.FinMap.{get};
ghost use Rattle.pict_queue.specs.Ends.{queue_in, ends_of};

use pict_region::{Block, Region};
use std::alloc::{AllocError, Global};

/// One queue: the numbers of its first and its last block, which mean nothing while it is empty, and its length.
#[derive(Clone, Copy)]
pub(crate) struct Queue {
    pub(crate) first: u32,
    pub(crate) last: u32,
    pub(crate) length: u32,
}

/// The ends and the length of each queue, by its number. The ends of a queue are told together with a token of one of them, or where
/// it is empty of the block that becomes both, and no other way: so whoever looks at them raises the work of the region, which rises by
/// one for a token until it is the greatest number.
#[derive(Drop)]
pub(crate) struct Ends {
    queues: Vec<Queue>,
}

impl Ends {
    /// Those of no queue. Takes no memory.
    pub(crate) fn new(alloc: Global) -> Ends
        ensures items { result.queues.items ≡ [] }
        ensures len { vec_len result.queues ≡ 0 }
    {
        Ends {
            queues: Vec::new(alloc),
        }
    }

    /// How many queues there are.
    #[inline(always)]
    pub(crate) fn count(&self) -> u64
        ensures { result ≡ length self.now.queues.items }
    {
        self.queues.len() as u64
    }

    /// The number of blocks in a queue.
    #[inline(always)]
    pub(crate) fn length(&self, number: u64) -> u32
        requires { number < length self.now.queues.items }
        ensures { result ≡ (queue_in self.now.queues.items number).length }
    {
        self.queues[number as usize].length
    }

    /// A queue, and a token of its first block, which is live.
    #[inline(always)]
    pub(crate) fn first(&self, region: &mut Region, number: u64) -> (Queue, Block)
        requires queue { number < length self.now.queues.items }
        requires live { IsLive region.old (queue_in self.now.queues.items number).first }
        ensures queue { result.0 ≡ queue_in self.now.queues.items number }
        ensures token { result.1 ≡ (queue_in self.now.queues.items number).first }
        ensures rest { region.new ≡ record region.old { work = region.new.work } }
        ensures least { region.old.work ≤ region.new.work }
        ensures most { region.new.work ≤ region.old.work + 1 }
    {
        let queue = self.queues[number as usize];
        let token = region.block(queue.first as u64);
        (queue, token)
    }

    /// A queue, a token of its first block, which is live, and words 0 and 1 of that block.
    #[inline(always)]
    pub(crate) fn open_first(
        &self,
        region: &mut Region,
        number: u64,
    ) -> (Queue, (Block, (u64, u64)))
        requires queue { number < length self.now.queues.items }
        requires live { IsLive region.old (queue_in self.now.queues.items number).first }
        requires wide { 1 < width_of region.old (queue_in self.now.queues.items number).first }
        ensures queue { result.0 ≡ queue_in self.now.queues.items number }
        ensures token { result.1.0 ≡ (queue_in self.now.queues.items number).first }
        ensures link { result.1.1.0 ≡ slice_index (words_of region.old (queue_in self.now.queues.items number).first) 0 }
        ensures word { result.1.1.1 ≡ slice_index (words_of region.old (queue_in self.now.queues.items number).first) 1 }
        ensures rest { region.new ≡ record region.old { work = region.new.work } }
        ensures least { region.old.work ≤ region.new.work }
        ensures most { region.new.work ≤ region.old.work + 3 }
    {
        let queue = self.queues[number as usize];
        (queue, region.open(queue.first as u64))
    }

    /// A block as `take_gathered` makes it, whose number is the link of the last block of a queue, which is live, or its own
    /// where the queue is empty; and before it the queue, or where it is empty one whose ends are this block.
    #[inline(always)]
    pub(crate) fn gather_last(
        &self,
        region: &mut Region,
        number: u64,
        width: u32,
        word: u64,
        indices: &[u32],
        values: &[(u64, u64)],
    ) -> (Queue, Block)
        requires queue { number < length self.now.queues.items }
        requires live { 0 < (queue_in self.now.queues.items number).length → IsLive region.old (queue_in self.now.queues.items number).last }
        requires linked { 0 < (queue_in self.now.queues.items number).length → 1 ≤ width_of region.old (queue_in self.now.queues.items number).last }
        requires spare { 1 ≤ spare region.old width }
        requires wide { width ≡ 2 + 2 * length indices.now }
        requires known { All (λ index. index < length values.now) indices.now }
        ensures queue { result.0 ≡ ends_of (queue_in self.now.queues.items number) result.1 }
        ensures fresh { get region.old.live result.1 ≡ None }
        ensures small { result.1 < 2 ^ 32 - 1 }
        ensures live { GainsLinked region.old region.new result.1 result.0.last (word ∷ gathered values.now indices.now) }
        ensures spare { spare region.new width + 1 ≡ spare region.old width }
        ensures others { KeepsOtherWidths region.old region.new width }
        ensures blocks { KeepsBlocks region.old region.new }
        ensures work { region.new.work ≡ raised_by (4 + 2 * length indices.now) region.old.work }
    {
        let queue = self.queues[number as usize];
        let last = last_in(queue);
        let block = region.take_gathered_behind(last, width, word, indices, values);
        (ends_with(queue, block.name() as u32), block)
    }

    /// A queue, or where it is empty one whose ends are this block, and a token of its last block, which is live.
    #[inline(always)]
    pub(crate) fn last_or(&self, region: &mut Region, number: u64, block: u64) -> (Queue, Block)
        requires queue { number < length self.now.queues.items }
        requires small { block < 2 ^ 32 }
        requires live { IsLive region.old (ends_of (queue_in self.now.queues.items number) block).last }
        ensures queue { result.0 ≡ ends_of (queue_in self.now.queues.items number) block }
        ensures token { result.1 ≡ (ends_of (queue_in self.now.queues.items number) block).last }
        ensures rest { region.new ≡ record region.old { work = region.new.work } }
        ensures least { region.old.work ≤ region.new.work }
        ensures most { region.new.work ≤ region.old.work + 1 }
    {
        let queue = self.queues[number as usize];
        let ends = ends_with(queue, block as u32);
        let token = region.block(ends.last as u64);
        (ends, token)
    }

    /// A queue has these ends and this length now.
    #[inline(always)]
    pub(crate) fn put(&mut self, number: u64, queue: Queue)
        requires { number < length self.old.queues.items }
        ensures items { self.new.queues.items ≡ slice_set self.old.queues.items number queue }
        ensures len { vec_len self.new.queues ≡ vec_len self.old.queues }
        ensures capacity { vec_capacity self.new.queues ≡ vec_capacity self.old.queues }
    {
        self.queues[number as usize] = queue;
    }

    /// An empty queue more. An error, which is want of memory, changes nothing.
    pub(crate) fn push(&mut self) -> Result<(), AllocError>
        ensures items { self.new.queues.items
            ≡ (if is_ok result then self.old.queues.items ++ record { first = 0; last = 0; length = 0 } ∷ [] else self.old.queues.items) }
        ensures len { vec_len self.new.queues ≡ (if is_ok result then vec_len self.old.queues + 1 else vec_len self.old.queues) }
        ensures capacity { vec_capacity self.old.queues ≤ vec_capacity self.new.queues }
        ensures succeeds { vec_len self.old.queues < vec_capacity self.old.queues → IsOk result }
    {
        self.queues.push(Queue {
            first: 0,
            last: 0,
            length: 0,
        })?;
        Ok(())
    }

    /// Makes room for so many queues more. An error, which is want of memory, changes nothing.
    pub(crate) fn reserve(&mut self, n: u64) -> Result<(), AllocError>
        ensures items { self.new.queues.items ≡ self.old.queues.items }
        ensures len { vec_len self.new.queues ≡ vec_len self.old.queues }
        ensures ok { OnOk result (vec_len self.new.queues + n ≤ vec_capacity self.new.queues) }
        ensures capacity { vec_capacity self.old.queues ≤ vec_capacity self.new.queues }
    {
        self.queues.reserve(n as usize)
    }
}

// The number of the last block of a queue that isn't empty.
#[inline(always)]
fn last_in(queue: Queue) -> Option<u64>
    ensures last { IfSome result (λ last. last ≡ queue.last) }
    ensures some { IfSome result (λ _. 0 < queue.length) }
    ensures ends { (block : ℕ) → unwrap_or result block ≡ (ends_of queue block).last }
{
    if queue.length == 0 {
        None
    } else {
        Some(queue.last as u64)
    }
}

// The queue, or where it is empty, one whose ends are this block.
#[inline(always)]
fn ends_with(queue: Queue, block: u32) -> Queue
    ensures { result ≡ ends_of queue block }
{
    if queue.length == 0 {
        Queue {
            first: block,
            last: block,
            length: 0,
        }
    } else {
        queue
    }
}
