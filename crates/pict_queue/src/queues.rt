// The queues: a region, and the ends and the length of each queue.
ghost use Rattle.std.specs.Prelude.{◌≡◌, ◌≢◌, ◌+◌, ◌-◌, ◌<◌, ◌≤◌, ◌↔◌, ◌^◌, ◌++◌, ◌∷◌, ◌==◌, ◌*◌, if◌then◌else◌, ℕ, [], length, max, All, eqb, false, take, drop, replicate, None, IsOk, IsNone, IfSome, IfOk, OnOk, OnErr, slice_index, slice_set, slice_get, IsTrue, MatchOption};
ghost use Rattle.std.specs.Option.{option_map, option_to_list};
ghost use Rattle.std.specs.FinMap.{get, insert, remove, empty};
ghost use Rattle.std.specs.List.{list_any};
ghost use Rattle.pict_region.specs.RegionState.{IsLive, words_of, width_of, spare, blocks, KeepsBlocks, LosesNoBlock, KeepsOtherWidths, raised, raised_by, GainsWords};
ghost use Rattle.pict_region.specs.Values.{gathered, pair_at, AreRising};
ghost use Rattle.pict_queue.specs.Contents.{held_words, contents, first_words, moved_contents, KeepsAllContents, KeepsOtherContents, KeepsHeld, KeepsOtherHeld, HoldsNoMore, HoldsOneMore, Releases};
ghost use Rattle.pict_queue.specs.QueuesState.{IsQueue, IsHeld, HasEachBlockOnce, queue_blocks, no_queue, moved_list, KeepsOtherQueues, KeepsQueues, KeepsRest, CostsAtMost};

use crate::ends::{Ends, Queue};
use pict_region::{Block, Region};
use std::alloc::{AllocError, Global};
use std::marker::Model;

/// The number of a queue, from 0.
#[derive(Clone, Copy)]
pub struct QueueId(pub u64);

/// Queues of blocks. Word 0 of each block is its link, so a caller's words begin at 1. Contracts see the region and, for
/// each queue, its first block and its length, and read the list of a queue by the links: its blocks, and their contents,
/// the words behind the links. A block is in exactly one queue, or held by the caller, or free.
#[derive(Drop)]
pub struct Queues {
    region: Region,
    ends: Ends,
    spare: u64,
}

impl Model for Queues {
    ghost use Rattle.pict_queue.specs.QueuesState.{QueuesState, queues_code};

    ghost Value = { QueuesState };

    ghost coded = { queues_code };

    ghost use Rattle.pict_queue.specs.Threads.{queues_state, AreQueuesSound};

    ghost view = { queues_state };

    ghost invariant = { AreQueuesSound };
}

impl Queues {
    /// No queue, over a region with no block. Takes no memory.
    pub fn new(alloc: Global) -> Queues
        ensures live { result.region.live ≡ empty }
        ensures free { result.region.free ≡ [] }
        ensures work { result.region.work ≡ 0 }
        ensures queues { result.queues ≡ [] }
        ensures spare_queues { result.spare_queues ≡ 0 }
    {
        Queues {
            region: Region::new(alloc),
            ends: Ends::new(alloc),
            spare: 0,
        }
    }

    /// A new empty queue, with the next number. It takes no memory where there is a spare queue. An error, which is want
    /// of memory, changes nothing.
    pub fn add_queue(&mut self) -> Result<QueueId, AllocError>
        ensures room { 1 ≤ self.old.spare_queues → IsOk result }
        ensures number { IfOk result (λ q. q.0 ≡ length self.old.queues) }
        ensures queues { OnOk result (self.new.queues ≡ self.old.queues ++ no_queue ∷ []) }
        ensures lists { KeepsQueues self.old self.new }
        ensures contents { KeepsAllContents self.old self.new }
        ensures kept { KeepsHeld self.old self.new }
        ensures no_more { HoldsNoMore self.old self.new }
        ensures spare_queues { OnOk result (self.new.spare_queues ≡ self.old.spare_queues - 1) }
        ensures region { self.new.region ≡ self.old.region }
        ensures err { OnErr result (self.new ≡ self.old) }
    {
        let number = self.ends.count();
        self.ends.push()?;
        self.spare = self.spare.saturating_sub(1);
        Ok(QueueId(number))
    }

    /// Makes room for queues until there are `n` spare ones. An error, which is want of memory, changes nothing.
    pub fn reserve_queues(&mut self, n: u64) -> Result<(), AllocError>
        ensures ok { OnOk result (self.new.spare_queues ≡ max n self.old.spare_queues) }
        ensures rest { OnOk result (self.new ≡ record self.old { spare_queues = self.new.spare_queues }) }
        ensures contents { KeepsAllContents self.old self.new }
        ensures kept { KeepsHeld self.old self.new }
        ensures no_more { HoldsNoMore self.old self.new }
        ensures err { OnErr result (self.new ≡ self.old) }
    {
        if self.spare < n {
            self.ends.reserve(n)?;
            self.spare = n;
        }
        Ok(())
    }

    /// The number of blocks in a queue. Takes no memory.
    #[inline(always)]
    pub fn length(&self, q: QueueId) -> u64
        requires { IsQueue self.now q.0 }
        ensures value { result ≡ length (queue_blocks self.now q.0) }
        ensures once { HasEachBlockOnce self.now }
    {
        self.ends.length(q.0) as u64
    }

    /// A held block becomes the last of a queue. Takes no memory.
    #[inline(always)]
    pub fn push_back(&mut self, q: QueueId, b: Block)
        requires queue { IsQueue self.old q.0 }
        requires held { IsHeld self.old b }
        ensures list { queue_blocks self.new q.0 ≡ queue_blocks self.old q.0 ++ b ∷ [] }
        ensures others { KeepsOtherQueues self.old self.new q.0 }
        ensures pushed { contents self.new q.0 ≡ contents self.old q.0 ++ held_words self.old.region b ∷ [] }
        ensures other_contents { KeepsOtherContents self.old self.new q.0 }
        ensures kept { KeepsOtherHeld self.old self.new b }
        ensures gone { Releases self.old self.new b }
        ensures blocks { KeepsBlocks self.old.region self.new.region }
        ensures rest { KeepsRest self.old self.new }
        ensures once { HasEachBlockOnce self.new }
        ensures cost { CostsAtMost 2 self.old self.new }
    {
        let number = b.number();
        let (ends, last) = self.ends.last_or(&mut self.region, q.0, number);
        set_link(&mut self.region, last, number);
        let queue = Queue {
            first: ends.first,
            last: number as u32,
            length: ends.length + 1,
        };
        self.ends.put(q.0, queue);
    }

    /// A new block of this width becomes the last of a queue: its word 1 is this one, and from word 2 on stand the values at these
    /// indices, two words each. Takes no memory.
    #[inline(always)]
    pub fn push_gathered(
        &mut self,
        q: QueueId,
        width: u32,
        word: u64,
        indices: &[u32],
        values: &[(u64, u64)],
    )
        requires queue { IsQueue self.old q.0 }
        requires wide { width ≡ 2 + 2 * length indices.now }
        requires spare { 1 ≤ spare self.old.region width }
        requires known { All (λ index. index < length values.now) indices.now }
        ensures pushed { contents self.new q.0 ≡ contents self.old q.0 ++ (word ∷ gathered values.now indices.now) ∷ [] }
        ensures other_contents { KeepsOtherContents self.old self.new q.0 }
        ensures lists { KeepsOtherQueues self.old self.new q.0 }
        ensures kept { KeepsHeld self.old self.new }
        ensures no_more { HoldsNoMore self.old self.new }
        ensures spare { spare self.new.region width + 1 ≡ spare self.old.region width }
        ensures others { KeepsOtherWidths self.old.region self.new.region width }
        ensures blocks { KeepsBlocks self.old.region self.new.region }
        ensures queues { length self.new.queues ≡ length self.old.queues }
        ensures spare_queues { self.new.spare_queues ≡ self.old.spare_queues }
        ensures once { HasEachBlockOnce self.new }
        ensures cost { CostsAtMost (2 * length indices.now + 4) self.old self.new }
    {
        let (ends, block) = self
            .ends
            .gather_last(&mut self.region, q.0, width, word, indices, values);
        let number = block.number() as u32;
        let first = ends.first;
        let queue = Queue {
            first,
            last: number,
            length: ends.length + 1,
        };
        self.ends.put(q.0, queue);
    }

    /// A held block becomes the first of a queue. Takes no memory.
    #[inline(always)]
    pub fn push_front(&mut self, q: QueueId, b: Block)
        requires queue { IsQueue self.old q.0 }
        requires held { IsHeld self.old b }
        ensures list { queue_blocks self.new q.0 ≡ b ∷ queue_blocks self.old q.0 }
        ensures others { KeepsOtherQueues self.old self.new q.0 }
        ensures pushed { contents self.new q.0 ≡ held_words self.old.region b ∷ contents self.old q.0 }
        ensures other_contents { KeepsOtherContents self.old self.new q.0 }
        ensures kept { KeepsOtherHeld self.old self.new b }
        ensures gone { Releases self.old self.new b }
        ensures blocks { KeepsBlocks self.old.region self.new.region }
        ensures rest { KeepsRest self.old self.new }
        ensures once { HasEachBlockOnce self.new }
        ensures cost { CostsAtMost 2 self.old self.new }
    {
        let number = b.name();
        let (ends, last) = self.ends.last_or(&mut self.region, q.0, number);
        let _last = last.number();
        set_link(&mut self.region, b, ends.first as u64);
        let queue = Queue {
            first: number as u32,
            last: ends.last,
            length: ends.length + 1,
        };
        self.ends.put(q.0, queue);
    }

    /// The first block of a queue, which the caller then holds, or None exactly where the queue is empty. Takes no memory.
    #[inline(always)]
    pub fn pop_front(&mut self, q: QueueId) -> Option<Block>
        requires { IsQueue self.old q.0 }
        ensures none { IsNone result ↔ (queue_blocks self.old q.0 ≡ []) }
        ensures list { queue_blocks self.old q.0 ≡ option_to_list result ++ queue_blocks self.new q.0 }
        ensures held { IfSome result (IsHeld self.new) }
        ensures live { self.new.region.live ≡ self.old.region.live }
        ensures others { KeepsOtherQueues self.old self.new q.0 }
        ensures popped { contents self.old q.0 ≡ option_to_list (option_map (held_words self.new.region) result) ++ contents self.new q.0 }
        ensures other_contents { KeepsOtherContents self.old self.new q.0 }
        ensures kept { KeepsHeld self.old self.new }
        ensures more { MatchOption result (HoldsNoMore self.old self.new) (HoldsOneMore self.old self.new) }
        ensures blocks { KeepsBlocks self.old.region self.new.region }
        ensures rest { KeepsRest self.old self.new }
        ensures once { HasEachBlockOnce self.new }
        ensures cost { CostsAtMost 2 self.old self.new }
    {
        if self.ends.length(q.0) == 0 {
            None
        } else {
            Some(self.pop(q))
        }
    }

    /// The first block of a queue, which the caller then holds, and its word 1, or None exactly where the queue is empty. Takes no
    /// memory.
    #[inline(always)]
    pub fn pop_front_word(&mut self, q: QueueId) -> Option<(Block, u64)>
        requires { IsQueue self.old q.0 }
        ensures none { IsNone result ↔ (queue_blocks self.old q.0 ≡ []) }
        ensures list { IfSome result (λ p. queue_blocks self.old q.0 ≡ p.0 ∷ queue_blocks self.new q.0) }
        ensures word { IfSome result (λ p. p.1 ≡ slice_index (words_of self.new.region p.0) 1) }
        ensures held { IfSome result (λ p. IsHeld self.new p.0) }
        ensures live { self.new.region.live ≡ self.old.region.live }
        ensures others { KeepsOtherQueues self.old self.new q.0 }
        ensures popped { IfSome result (λ p. contents self.old q.0 ≡ held_words self.new.region p.0 ∷ contents self.new q.0) }
        ensures other_contents { KeepsOtherContents self.old self.new q.0 }
        ensures kept { KeepsHeld self.old self.new }
        ensures more { IfSome result (λ p. HoldsOneMore self.old self.new p.0) }
        ensures blocks { KeepsBlocks self.old.region self.new.region }
        ensures rest { KeepsRest self.old self.new }
        ensures once { HasEachBlockOnce self.new }
        ensures cost { CostsAtMost 3 self.old self.new }
    {
        if self.ends.length(q.0) == 0 {
            None
        } else {
            Some(self.pop_word(q))
        }
    }

    /// The first block of `from` becomes the last of `to`; where these are one queue, it goes to the back. Takes no
    /// memory, and does no work where these are one queue, of one block.
    #[inline(always)]
    pub fn move_front(&mut self, from: QueueId, to: QueueId)
        requires from { IsQueue self.old from.0 }
        requires to { IsQueue self.old to.0 }
        requires some { 0 < length (queue_blocks self.old from.0) }
        ensures lists { (queue : ℕ) → queue_blocks self.new queue ≡ moved_list self.old from.0 to.0 queue }
        ensures moved { (queue : ℕ) → contents self.new queue ≡ moved_contents self.old from.0 to.0 queue }
        ensures kept { KeepsHeld self.old self.new }
        ensures no_more { HoldsNoMore self.old self.new }
        ensures blocks { KeepsBlocks self.old.region self.new.region }
        ensures rest { KeepsRest self.old self.new }
        ensures once { HasEachBlockOnce self.new }
        ensures cost { CostsAtMost 4 self.old self.new }
    {
        if self.is_one_block(from, to) {
            return;
        }
        let block = self.pop(from);
        self.push_back(to, block);
    }

    /// Word `i` of the first block of a queue, or None exactly where the queue is empty. Changes no word and no queue, and
    /// takes no memory.
    #[inline(always)]
    pub fn peek(&mut self, q: QueueId, i: u32) -> Option<u64>
        requires queue { IsQueue self.old q.0 }
        requires behind_link { 0 < length (queue_blocks self.old q.0) → 1 ≤ i }
        requires inside { 0 < length (queue_blocks self.old q.0) → i < width_of self.old.region (slice_index (queue_blocks self.old q.0) 0) }
        ensures word { result ≡ option_map (λ b. slice_index (words_of self.old.region b) i) (slice_get (queue_blocks self.old q.0) 0) }
        ensures rest { self.new ≡ record self.old { region = record self.old.region { work = self.new.region.work } } }
        ensures contents { KeepsAllContents self.old self.new }
        ensures kept { KeepsHeld self.old self.new }
        ensures no_more { HoldsNoMore self.old self.new }
        ensures cost { CostsAtMost 2 self.old self.new }
    {
        if self.ends.length(q.0) == 0 {
            return None;
        }
        let (_, block) = self.ends.first(&mut self.region, q.0);
        Some(word(&mut self.region, block, i))
    }

    /// Reads values out of the first block of a queue that isn't empty, two words each from word `first` on, which is at least
    /// 1, and puts them at these indices. Changes no word and no queue, and takes no memory.
    #[inline(always)]
    pub fn scatter_first(
        &mut self,
        q: QueueId,
        first: u32,
        indices: &[u32],
        values: &mut [(u64, u64)],
    )
        requires queue { IsQueue self.old q.0 }
        requires some { 0 < length (queue_blocks self.old q.0) }
        requires behind_link { 1 ≤ first }
        requires inside { first + 2 * length indices.now ≤ length (first_words self.old q.0) + 1 }
        requires known { All (λ index. index < length values.old) indices.now }
        requires rising { AreRising 0 indices.now }
        ensures words { gathered values.new indices.now ≡ take (2 * length indices.now) (drop (first - 1) (first_words self.old q.0)) }
        ensures others { (index : ℕ) → list_any (eqb index) indices.now ≡ false → pair_at values.new index ≡ pair_at values.old index }
        ensures len { length values.new ≡ length values.old }
        ensures rest { self.new ≡ record self.old { region = record self.old.region { work = self.new.region.work } } }
        ensures contents { KeepsAllContents self.old self.new }
        ensures kept { KeepsHeld self.old self.new }
        ensures no_more { HoldsNoMore self.old self.new }
        ensures cost { CostsAtMost (2 * length indices.now + 1) self.old self.new }
    {
        let (_, block) = self.ends.first(&mut self.region, q.0);
        read_words(&mut self.region, block, first, indices, values);
    }

    /// Makes free blocks until there are `n` of this width, in words, with the link. What is past `WORD_LIMIT` words is want
    /// of memory. Where memory is wanting, some of these blocks may have been made. Where enough are there, as where none are asked
    /// for, it takes no memory. No block is lost.
    #[inline(always)]
    pub fn reserve(&mut self, width: u32, n: u64) -> Result<(), AllocError>
        requires positive { 2 ≤ width }
        requires narrow { width ≤ 65535 }
        ensures room { n ≤ spare self.old.region width → IsOk result }
        ensures ok { OnOk result (spare self.new.region width ≡ max n (spare self.old.region width)) }
        ensures err { OnErr result (spare self.old.region width ≤ spare self.new.region width) }
        ensures most { spare self.new.region width ≤ max n (spare self.old.region width) }
        ensures others { KeepsOtherWidths self.old.region self.new.region width }
        ensures live { self.new.region.live ≡ self.old.region.live }
        ensures work { self.new.region.work ≡ self.old.region.work }
        ensures queues { self.new ≡ record self.old { region = self.new.region } }
        ensures contents { KeepsAllContents self.old self.new }
        ensures kept { KeepsHeld self.old self.new }
        ensures no_more { HoldsNoMore self.old self.new }
        ensures blocks { (w : ℕ) → blocks self.new.region w
            ≤ blocks self.old.region w + ((if w == width then n else 0) - spare self.old.region w) }
        ensures least { LosesNoBlock self.old.region self.new.region }
    {
        self.region.reserve(width, n)
    }

    /// A block of this width, whose words are 0, and which the caller holds. Takes no memory.
    #[inline(always)]
    pub fn take(&mut self, width: u32) -> Block
        requires wide { 2 ≤ width }
        requires spare { 1 ≤ spare self.old.region width }
        ensures fresh { get self.old.region.live result ≡ None }
        ensures live { self.new.region.live ≡ insert self.old.region.live result (replicate width 0) }
        ensures spare { spare self.new.region width + 1 ≡ spare self.old.region width }
        ensures others { KeepsOtherWidths self.old.region self.new.region width }
        ensures work { self.new.region.work ≡ raised self.old.region.work }
        ensures rest { self.new ≡ record self.old { region = self.new.region } }
        ensures lists { KeepsQueues self.old self.new }
        ensures held { IsHeld self.new result }
        ensures apart { (other : ℕ) → IsHeld self.old other → other ≢ result }
        ensures contents { KeepsAllContents self.old self.new }
        ensures kept { KeepsHeld self.old self.new }
        ensures more { HoldsOneMore self.old self.new result }
        ensures blocks { KeepsBlocks self.old.region self.new.region }
    {
        self.region.take(width)
    }

    /// A block of this width, which the caller holds: its word 1 is this one, and from word 2 on stand the values at these
    /// indices, two words each. Takes no memory.
    #[inline(always)]
    pub fn take_gathered(
        &mut self,
        width: u32,
        word: u64,
        indices: &[u32],
        values: &[(u64, u64)],
    ) -> Block
        requires wide { width ≡ 2 + 2 * length indices.now }
        requires spare { 1 ≤ spare self.old.region width }
        requires known { All (λ index. index < length values.now) indices.now }
        ensures fresh { get self.old.region.live result ≡ None }
        ensures live { GainsWords self.old.region self.new.region result (word ∷ gathered values.now indices.now) }
        ensures words { held_words self.new.region result ≡ word ∷ gathered values.now indices.now }
        ensures spare { spare self.new.region width + 1 ≡ spare self.old.region width }
        ensures others { KeepsOtherWidths self.old.region self.new.region width }
        ensures blocks { KeepsBlocks self.old.region self.new.region }
        ensures work { self.new.region.work ≡ raised_by (2 + 2 * length indices.now) self.old.region.work }
        ensures rest { self.new ≡ record self.old { region = self.new.region } }
        ensures lists { KeepsQueues self.old self.new }
        ensures held { IsHeld self.new result }
        ensures more { HoldsOneMore self.old self.new result }
        ensures apart { (other : ℕ) → IsHeld self.old other → other ≢ result }
        ensures contents { KeepsAllContents self.old self.new }
        ensures kept { KeepsHeld self.old self.new }
    {
        self.region.take_gathered(width, word, indices, values)
    }

    /// Frees a held block, and spends its token. Takes no memory.
    #[inline(always)]
    pub fn give(&mut self, b: Block)
        requires { IsHeld self.old b }
        ensures live { self.new.region.live ≡ remove self.old.region.live b }
        ensures spare { spare self.new.region (width_of self.old.region b) ≡ spare self.old.region (width_of self.old.region b) + 1 }
        ensures others { KeepsOtherWidths self.old.region self.new.region (width_of self.old.region b) }
        ensures work { self.new.region.work ≡ raised self.old.region.work }
        ensures rest { self.new ≡ record self.old { region = self.new.region } }
        ensures lists { KeepsQueues self.old self.new }
        ensures contents { KeepsAllContents self.old self.new }
        ensures kept { KeepsOtherHeld self.old self.new b }
        ensures gone { Releases self.old self.new b }
        ensures blocks { KeepsBlocks self.old.region self.new.region }
        ensures once { HasEachBlockOnce self.new }
    {
        self.region.give(b);
    }

    /// Word `i` of a held block, from 0. Takes no memory.
    #[inline(always)]
    pub fn get(&mut self, b: &Block, i: u32) -> u64
        requires held { IsHeld self.old b.now }
        requires inside { i < width_of self.old.region b.now }
        ensures word { result ≡ slice_index (words_of self.old.region b.now) i }
        ensures rest { self.new ≡ record self.old { region = record self.old.region { work = raised self.old.region.work } } }
        ensures contents { KeepsAllContents self.old self.new }
        ensures kept { KeepsHeld self.old self.new }
        ensures no_more { HoldsNoMore self.old self.new }
    {
        self.region.get(b, i)
    }

    /// Puts a word at index `i` of a held block, from 0. Takes no memory.
    #[inline(always)]
    pub fn set(&mut self, b: &Block, i: u32, word: u64)
        requires held { IsHeld self.old b.now }
        requires inside { i < width_of self.old.region b.now }
        ensures live { self.new.region.live ≡ insert self.old.region.live b.now (slice_set (words_of self.old.region b.now) i word) }
        ensures free { self.new.region.free ≡ self.old.region.free }
        ensures work { self.new.region.work ≡ raised self.old.region.work }
        ensures rest { self.new ≡ record self.old { region = self.new.region } }
        ensures lists { KeepsQueues self.old self.new }
        ensures held { IsHeld self.new b.now }
        ensures contents { KeepsAllContents self.old self.new }
        ensures kept { KeepsOtherHeld self.old self.new b.now }
        ensures no_more { HoldsNoMore self.old self.new }
        ensures blocks { KeepsBlocks self.old.region self.new.region }
    {
        self.region.set(b, i, word);
    }

    /// Words `i` and `i + 1` of a held block, from 0. Takes no memory.
    #[inline(always)]
    pub fn get_pair(&mut self, b: &Block, i: u32) -> (u64, u64)
        requires held { IsHeld self.old b.now }
        requires inside { i + 1 < width_of self.old.region b.now }
        ensures first { result.0 ≡ slice_index (words_of self.old.region b.now) i }
        ensures second { result.1 ≡ slice_index (words_of self.old.region b.now) (i + 1) }
        ensures rest { self.new ≡ record self.old { region = record self.old.region { work = raised (raised self.old.region.work) } } }
        ensures contents { KeepsAllContents self.old self.new }
        ensures kept { KeepsHeld self.old self.new }
        ensures no_more { HoldsNoMore self.old self.new }
    {
        self.region.get_pair(b, i)
    }

    /// Puts two words at indices `i` and `i + 1` of a held block, from 0. Takes no memory.
    #[inline(always)]
    pub fn set_pair(&mut self, b: &Block, i: u32, pair: (u64, u64))
        requires held { IsHeld self.old b.now }
        requires inside { i + 1 < width_of self.old.region b.now }
        ensures live { self.new.region.live
            ≡ insert self.old.region.live b.now (slice_set (slice_set (words_of self.old.region b.now) i pair.0) (i + 1) pair.1) }
        ensures free { self.new.region.free ≡ self.old.region.free }
        ensures blocks { KeepsBlocks self.old.region self.new.region }
        ensures work { self.new.region.work ≡ raised (raised self.old.region.work) }
        ensures rest { self.new ≡ record self.old { region = self.new.region } }
        ensures lists { KeepsQueues self.old self.new }
        ensures held { IsHeld self.new b.now }
        ensures contents { KeepsAllContents self.old self.new }
        ensures kept { KeepsOtherHeld self.old self.new b.now }
        ensures no_more { HoldsNoMore self.old self.new }
    {
        self.region.set_pair(b, i, pair);
    }

    /// Reads values out of a held block, two words each from word `first` on, and puts them at these indices. Takes no memory.
    #[inline(always)]
    pub fn scatter(&mut self, b: &Block, first: u32, indices: &[u32], values: &mut [(u64, u64)])
        requires held { IsHeld self.old b.now }
        requires inside { first + 2 * length indices.now ≤ width_of self.old.region b.now }
        requires known { All (λ index. index < length values.old) indices.now }
        requires rising { AreRising 0 indices.now }
        ensures words { gathered values.new indices.now ≡ take (2 * length indices.now) (drop first (words_of self.old.region b.now)) }
        ensures others { (index : ℕ) → list_any (eqb index) indices.now ≡ false → pair_at values.new index ≡ pair_at values.old index }
        ensures len { length values.new ≡ length values.old }
        ensures rest { self.new ≡ record self.old {
          region = record self.old.region {
            work = raised_by (2 * length indices.now) self.old.region.work;
          };
        } }
        ensures contents { KeepsAllContents self.old self.new }
        ensures kept { KeepsHeld self.old self.new }
        ensures no_more { HoldsNoMore self.old self.new }
    {
        self.region.scatter(b, first, indices, values);
    }

    /// Reads values out of a held block as `scatter` does, frees the block as `give` does, and spends its token. Takes no memory.
    #[inline(always)]
    pub fn scatter_and_give(
        &mut self,
        b: Block,
        first: u32,
        indices: &[u32],
        values: &mut [(u64, u64)],
    )
        requires held { IsHeld self.old b }
        requires inside { first + 2 * length indices.now ≤ width_of self.old.region b }
        requires known { All (λ index. index < length values.old) indices.now }
        requires rising { AreRising 0 indices.now }
        ensures words { gathered values.new indices.now ≡ take (2 * length indices.now) (drop first (words_of self.old.region b)) }
        ensures others { (index : ℕ) → list_any (eqb index) indices.now ≡ false → pair_at values.new index ≡ pair_at values.old index }
        ensures len { length values.new ≡ length values.old }
        ensures live { self.new.region.live ≡ remove self.old.region.live b }
        ensures spare { spare self.new.region (width_of self.old.region b) ≡ spare self.old.region (width_of self.old.region b) + 1 }
        ensures widths { KeepsOtherWidths self.old.region self.new.region (width_of self.old.region b) }
        ensures work { self.new.region.work ≡ raised_by (2 * length indices.now + 1) self.old.region.work }
        ensures rest { self.new ≡ record self.old { region = self.new.region } }
        ensures lists { KeepsQueues self.old self.new }
        ensures contents { KeepsAllContents self.old self.new }
        ensures kept { KeepsOtherHeld self.old self.new b }
        ensures gone { Releases self.old self.new b }
        ensures blocks { KeepsBlocks self.old.region self.new.region }
        ensures once { HasEachBlockOnce self.new }
    {
        self.region.scatter_and_give(b, first, indices, values);
    }

    /// The work of the region.
    #[inline(always)]
    pub fn work(&self) -> u64
        ensures { result ≡ self.now.region.work }
    {
        self.region.work()
    }

    // Whether these are one queue, of one block.
    #[inline(always)]
    fn is_one_block(&self, from: QueueId, to: QueueId) -> bool
        requires { IsQueue self.now from.0 }
        ensures one { IsTrue result → (from.0 ≡ to.0) × (length (queue_blocks self.now from.0) ≡ 1) }
        ensures once { HasEachBlockOnce self.now }
    {
        self.length(from) == 1 && from.0 == to.0
    }

    // The first block of a queue that isn't empty.
    #[inline(always)]
    fn pop(&mut self, q: QueueId) -> Block
        requires queue { IsQueue self.old q.0 }
        requires some { 0 < length (queue_blocks self.old q.0) }
        ensures list { queue_blocks self.old q.0 ≡ result ∷ queue_blocks self.new q.0 }
        ensures held { IsHeld self.new result }
        ensures live { self.new.region.live ≡ self.old.region.live }
        ensures others { KeepsOtherQueues self.old self.new q.0 }
        ensures popped { contents self.old q.0 ≡ held_words self.new.region result ∷ contents self.new q.0 }
        ensures other_contents { KeepsOtherContents self.old self.new q.0 }
        ensures kept { KeepsHeld self.old self.new }
        ensures more { HoldsOneMore self.old self.new result }
        ensures blocks { KeepsBlocks self.old.region self.new.region }
        ensures rest { KeepsRest self.old self.new }
        ensures once { HasEachBlockOnce self.new }
        ensures cost { CostsAtMost 2 self.old self.new }
    {
        let (queue, block) = self.ends.first(&mut self.region, q.0);
        let next = number_in(self.region.get(&block, 0));
        let rest = Queue {
            first: next,
            last: queue.last,
            length: queue.length - 1,
        };
        self.ends.put(q.0, rest);
        block
    }

    // The first block of a queue that isn't empty, and its word 1.
    #[inline(always)]
    fn pop_word(&mut self, q: QueueId) -> (Block, u64)
        requires queue { IsQueue self.old q.0 }
        requires some { 0 < length (queue_blocks self.old q.0) }
        ensures list { queue_blocks self.old q.0 ≡ result.0 ∷ queue_blocks self.new q.0 }
        ensures word { result.1 ≡ slice_index (words_of self.new.region result.0) 1 }
        ensures held { IsHeld self.new result.0 }
        ensures live { self.new.region.live ≡ self.old.region.live }
        ensures others { KeepsOtherQueues self.old self.new q.0 }
        ensures popped { contents self.old q.0 ≡ held_words self.new.region result.0 ∷ contents self.new q.0 }
        ensures other_contents { KeepsOtherContents self.old self.new q.0 }
        ensures kept { KeepsHeld self.old self.new }
        ensures more { HoldsOneMore self.old self.new result.0 }
        ensures blocks { KeepsBlocks self.old.region self.new.region }
        ensures rest { KeepsRest self.old self.new }
        ensures once { HasEachBlockOnce self.new }
        ensures cost { CostsAtMost 3 self.old self.new }
    {
        let (queue, (block, pair)) = self.ends.open_first(&mut self.region, q.0);
        let rest = Queue {
            first: number_in(pair.0),
            last: queue.last,
            length: queue.length - 1,
        };
        self.ends.put(q.0, rest);
        (block, pair.1)
    }
}

// The number of a block in a link. That of the last block of a queue is any word, and no number is in it.
#[inline(always)]
fn number_in(link: u64) -> u32
    ensures { link < 2 ^ 32 → result ≡ link }
{
    (link % 4_294_967_296) as u32
}

// Makes `next` the link of a live block, whose token is spent.
#[inline(always)]
fn set_link(region: &mut Region, block: Block, next: u64)
    requires live { IsLive region.old block }
    requires wide { 1 ≤ width_of region.old block }
    ensures live { region.new.live ≡ insert region.old.live block (slice_set (words_of region.old block) 0 next) }
    ensures free { region.new.free ≡ region.old.free }
    ensures blocks { KeepsBlocks region.old region.new }
    ensures least { region.old.work ≤ region.new.work }
    ensures most { region.new.work ≤ region.old.work + 1 }
{
    region.set(&block, 0, next);
    let _number = block.number();
}

// A word of a live block, whose token is spent.
#[inline(always)]
fn word(region: &mut Region, block: Block, i: u32) -> u64
    requires live { IsLive region.old block }
    requires inside { i < width_of region.old block }
    ensures value { result ≡ slice_index (words_of region.old block) i }
    ensures rest { region.new ≡ record region.old { work = region.new.work } }
    ensures least { region.old.work ≤ region.new.work }
    ensures most { region.new.work ≤ region.old.work + 1 }
{
    let word = region.get(&block, i);
    let _number = block.number();
    word
}

// Reads values out of a live block, whose token is spent, two words each from this word on, and puts them at these indices.
#[inline(always)]
fn read_words(
    region: &mut Region,
    block: Block,
    first: u32,
    indices: &[u32],
    values: &mut [(u64, u64)],
)
    requires live { IsLive region.old block }
    requires inside { first + 2 * length indices.now ≤ width_of region.old block }
    requires known { All (λ index. index < length values.old) indices.now }
    requires rising { AreRising 0 indices.now }
    ensures words { gathered values.new indices.now ≡ take (2 * length indices.now) (drop first (words_of region.old block)) }
    ensures others { (index : ℕ) → list_any (eqb index) indices.now ≡ false → pair_at values.new index ≡ pair_at values.old index }
    ensures len { length values.new ≡ length values.old }
    ensures rest { region.new ≡ record region.old { work = region.new.work } }
    ensures least { region.old.work ≤ region.new.work }
    ensures most { region.new.work ≤ region.old.work + 2 * length indices.now }
{
    region.scatter(&block, first, indices, values);
    let _number = block.number();
}
