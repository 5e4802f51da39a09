// The region: its store of words, its lists of free blocks, and its work.
ghost use Rattle.std.specs.Prelude.{◌≡◌, ◌+◌, ◌-◌, ◌^◌, ◌<◌, ◌≤◌, ◌==◌, ◌*◌, if◌then◌else◌, ℕ, [], length, max, min, None, All, eqb, false, OnOk, OnErr, IsOk, IfSome, unwrap_or, slice_index, slice_set, replicate, take, drop, ◌++◌, ◌∷◌, vec_len};
ghost use Rattle.std.specs.FinMap.{get, insert, remove, empty};
ghost use Rattle.std.specs.List.{list_any};
ghost use Rattle.pict_region.specs.RegionState.{IsLive, words_of, width_of, spare, blocks, KeepsBlocks, LosesNoBlock, KeepsOtherWidths, raised, raised_by, GainsWords, GainsLinked};
ghost use Rattle.pict_region.specs.Layout.{list_at};
ghost use Rattle.pict_region.specs.Values.{gathered, pair_at, AreRising, overlaid};

use crate::block::Block;
use pict_syntax::WORD_LIMIT;
use std::alloc::{AllocError, Global};
use std::marker::Model;

// By how many words a store becomes longer at a time: as many as it has, and no fewer and no more than these.
const LEAST_PIECE: usize = 1024;

const MOST_PIECE: usize = 65_536;

/// The free blocks of one width, threaded through their first words.
#[derive(Clone, Copy)]
struct FreeList {
    first: u64,
    count: u64,
}

/// Blocks of 64-bit words, in one growing store. Contracts see the words of each live block by the block's number, the
/// number of free blocks of each width, and the work.
#[derive(Drop)]
pub struct Region {
    // The words of the blocks, and behind them words for further ones.
    words: Vec<u64>,
    // How many of the words belong to blocks.
    made: usize,
    free: Vec<FreeList>,
    work: u64,
}

impl Model for Region {
    ghost use Rattle.pict_region.specs.RegionState.{RegionState, region_code};

    ghost Value = { RegionState };

    ghost coded = { region_code };

    ghost use Rattle.pict_region.specs.Layout.{region_state, IsLaidOut};

    ghost view = { region_state };

    ghost invariant = { λ r. IsLaidOut r.words.items r.made r.free.items };
}

impl Region {
    /// A region with no block and no work. Takes no memory.
    pub fn new(alloc: Global) -> Region
        ensures live { result.live ≡ empty }
        ensures free { result.free ≡ [] }
        ensures work { result.work ≡ 0 }
    {
        Region {
            words: Vec::new(alloc),
            made: 0,
            free: Vec::new(alloc),
            work: 0,
        }
    }

    /// Makes free blocks until there are `n` of this width, in words. The store grows by as many words as it has, at least 1,024
    /// and at most 65,536, or by what a block needs, if that is more, and what is past `WORD_LIMIT` words is want of memory. Where
    /// memory is wanting, some of these blocks may have been made, and never more than were wanting. Where enough are there, as
    /// where none are asked for, it takes no memory. No block is lost, and the work stays.
    #[inline(always)]
    pub fn reserve(&mut self, width: u32, n: u64) -> Result<(), AllocError>
        requires positive { 1 ≤ width }
        requires narrow { width ≤ 65535 }
        ensures room { n ≤ spare self.old width → IsOk result }
        ensures ok { OnOk result (spare self.new width ≡ max n (spare self.old width)) }
        ensures err { OnErr result (spare self.old width ≤ spare self.new width) }
        ensures most { spare self.new width ≤ max n (spare self.old width) }
        ensures others { KeepsOtherWidths self.old self.new width }
        ensures blocks { (w : ℕ) → blocks self.new w ≤ blocks self.old w + ((if w == width then n else 0) - spare self.old w) }
        ensures least { LosesNoBlock self.old self.new }
        ensures live { self.new.live ≡ self.old.live }
        ensures work { self.new.work ≡ self.old.work }
    {
        if (width as usize) < self.free.len() && n <= self.spare(width) {
            return Ok(());
        }
        self.make_spare(width, n)
    }

    /// A block of this width, whose words are 0. Numbers of blocks are below 2^32 - 1. Takes no memory.
    #[inline(always)]
    pub fn take(&mut self, width: u32) -> Block
        requires { 1 ≤ spare self.old width }
        ensures fresh { get self.old.live result ≡ None }
        ensures small { result < 2 ^ 32 - 1 }
        ensures live { self.new.live ≡ insert self.old.live result (replicate width 0) }
        ensures spare { spare self.new width + 1 ≡ spare self.old width }
        ensures others { KeepsOtherWidths self.old self.new width }
        ensures blocks { KeepsBlocks self.old self.new }
        ensures work { self.new.work ≡ raised self.old.work }
    {
        self.work = one_more(self.work);
        let list = self.free[width as usize];
        let number = list.first;
        let start = number as usize + 1;
        self.free[width as usize] = FreeList {
            first: self.words[start],
            count: list.count - 1,
        };
        clear(&mut self.words, start, width as usize);
        Block { number }
    }

    /// A block of this width: its word 1 is this one, and from word 2 on stand the values at these indices, two words each.
    /// Its word 0 is any. Numbers of blocks are below 2^32 - 1. Takes no memory.
    #[inline(always)]
    pub fn take_gathered(
        &mut self,
        width: u32,
        word: u64,
        indices: &[u32],
        values: &[(u64, u64)],
    ) -> Block
        requires spare { 1 ≤ spare self.old width }
        requires wide { width ≡ 2 + 2 * length indices.now }
        requires known { All (λ index. index < length values.now) indices.now }
        ensures fresh { get self.old.live result ≡ None }
        ensures small { result < 2 ^ 32 - 1 }
        ensures live { GainsWords self.old self.new result (word ∷ gathered values.now indices.now) }
        ensures spare { spare self.new width + 1 ≡ spare self.old width }
        ensures others { KeepsOtherWidths self.old self.new width }
        ensures blocks { KeepsBlocks self.old self.new }
        ensures work { self.new.work ≡ raised_by (2 + 2 * length indices.now) self.old.work }
    {
        self.work = more(self.work, 2 + 2 * indices.len() as u64);
        self.cut_gathered(width, word, indices, values)
    }

    /// A block as `take_gathered` makes it, whose number is put at word 0 of this live block, or of itself. Takes no memory.
    #[inline(always)]
    pub fn take_gathered_behind(
        &mut self,
        before: Option<u64>,
        width: u32,
        word: u64,
        indices: &[u32],
        values: &[(u64, u64)],
    ) -> Block
        requires spare { 1 ≤ spare self.old width }
        requires wide { width ≡ 2 + 2 * length indices.now }
        requires known { All (λ index. index < length values.now) indices.now }
        requires before { IfSome before (λ last. IsLive self.old last) }
        requires linked { IfSome before (λ last. 1 ≤ width_of self.old last) }
        ensures fresh { get self.old.live result ≡ None }
        ensures small { result < 2 ^ 32 - 1 }
        ensures live { GainsLinked self.old self.new result (unwrap_or before result) (word ∷ gathered values.now indices.now) }
        ensures spare { spare self.new width + 1 ≡ spare self.old width }
        ensures others { KeepsOtherWidths self.old self.new width }
        ensures blocks { KeepsBlocks self.old self.new }
        ensures work { self.new.work ≡ raised_by (4 + 2 * length indices.now) self.old.work }
    {
        self.work = more(self.work, 4 + 2 * indices.len() as u64);
        let block = self.cut_gathered(width, word, indices, values);
        let number = block.name();
        let last = before.unwrap_or(number);
        self.put_word(last, 0, number);
        block
    }

    /// Frees a live block, and spends its token. Takes no memory.
    #[inline(always)]
    pub fn give(&mut self, b: Block)
        requires { IsLive self.old b }
        ensures live { self.new.live ≡ remove self.old.live b }
        ensures spare { spare self.new (width_of self.old b) ≡ spare self.old (width_of self.old b) + 1 }
        ensures others { KeepsOtherWidths self.old self.new (width_of self.old b) }
        ensures blocks { KeepsBlocks self.old self.new }
        ensures work { self.new.work ≡ raised self.old.work }
    {
        self.work = one_more(self.work);
        self.free_block(b);
    }

    /// Reads values out of a live block as `scatter` does, frees the block as `give` does, and spends its token. Takes no memory.
    #[inline(always)]
    pub fn scatter_and_give(
        &mut self,
        b: Block,
        first: u32,
        indices: &[u32],
        values: &mut [(u64, u64)],
    )
        requires live { IsLive self.old b }
        requires inside { first + 2 * length indices.now ≤ width_of self.old b }
        requires known { All (λ index. index < length values.old) indices.now }
        requires rising { AreRising 0 indices.now }
        ensures words { gathered values.new indices.now ≡ take (2 * length indices.now) (drop first (words_of self.old b)) }
        ensures others { (index : ℕ) → list_any (eqb index) indices.now ≡ false → pair_at values.new index ≡ pair_at values.old index }
        ensures len { length values.new ≡ length values.old }
        ensures live { self.new.live ≡ remove self.old.live b }
        ensures spare { spare self.new (width_of self.old b) ≡ spare self.old (width_of self.old b) + 1 }
        ensures widths { KeepsOtherWidths self.old self.new (width_of self.old b) }
        ensures blocks { KeepsBlocks self.old self.new }
        ensures work { self.new.work ≡ raised_by (2 * length indices.now + 1) self.old.work }
    {
        self.work = more(self.work, 2 * indices.len() as u64 + 1);
        self.read_values(&b, first, indices, values);
        self.free_block(b);
    }

    /// Word `i` of a live block, from 0. Takes no memory.
    #[inline(always)]
    pub fn get(&mut self, b: &Block, i: u32) -> u64
        requires live { IsLive self.old b.now }
        requires inside { i < width_of self.old b.now }
        ensures word { result ≡ slice_index (words_of self.old b.now) i }
        ensures rest { self.new ≡ record self.old { work = raised self.old.work } }
    {
        self.work = one_more(self.work);
        let place = b.number as usize + 1 + i as usize;
        self.words[place]
    }

    /// Puts a word at index `i` of a live block, from 0. Takes no memory.
    #[inline(always)]
    pub fn set(&mut self, b: &Block, i: u32, word: u64)
        requires live { IsLive self.old b.now }
        requires inside { i < width_of self.old b.now }
        ensures live { self.new.live ≡ insert self.old.live b.now (slice_set (words_of self.old b.now) i word) }
        ensures free { self.new.free ≡ self.old.free }
        ensures blocks { KeepsBlocks self.old self.new }
        ensures work { self.new.work ≡ raised self.old.work }
    {
        self.work = one_more(self.work);
        self.put_word(b.number, i, word);
    }

    /// Words `i` and `i + 1` of a live block, from 0. Takes no memory.
    #[inline(always)]
    pub fn get_pair(&mut self, b: &Block, i: u32) -> (u64, u64)
        requires live { IsLive self.old b.now }
        requires inside { i + 1 < width_of self.old b.now }
        ensures first { result.0 ≡ slice_index (words_of self.old b.now) i }
        ensures second { result.1 ≡ slice_index (words_of self.old b.now) (i + 1) }
        ensures rest { self.new ≡ record self.old { work = raised (raised self.old.work) } }
    {
        self.work = one_more(one_more(self.work));
        let start = b.number as usize + 1 + i as usize;
        (self.words[start], self.words[start + 1])
    }

    /// Puts two words at indices `i` and `i + 1` of a live block, from 0. Takes no memory.
    #[inline(always)]
    pub fn set_pair(&mut self, b: &Block, i: u32, pair: (u64, u64))
        requires live { IsLive self.old b.now }
        requires inside { i + 1 < width_of self.old b.now }
        ensures live { self.new.live ≡ insert self.old.live b.now (slice_set (slice_set (words_of self.old b.now) i pair.0) (i + 1) pair.1) }
        ensures free { self.new.free ≡ self.old.free }
        ensures blocks { KeepsBlocks self.old self.new }
        ensures work { self.new.work ≡ raised (raised self.old.work) }
    {
        self.work = one_more(one_more(self.work));
        let start = b.number as usize + 1 + i as usize;
        put_pair(self.words.as_mut_slice(), start, pair);
    }

    /// Reads values out of a live block, two words each from word `first` on, and puts them at these indices. Takes no memory.
    #[inline(always)]
    pub fn scatter(&mut self, b: &Block, first: u32, indices: &[u32], values: &mut [(u64, u64)])
        requires live { IsLive self.old b.now }
        requires inside { first + 2 * length indices.now ≤ width_of self.old b.now }
        requires known { All (λ index. index < length values.old) indices.now }
        requires rising { AreRising 0 indices.now }
        ensures words { gathered values.new indices.now ≡ take (2 * length indices.now) (drop first (words_of self.old b.now)) }
        ensures others { (index : ℕ) → list_any (eqb index) indices.now ≡ false → pair_at values.new index ≡ pair_at values.old index }
        ensures len { length values.new ≡ length values.old }
        ensures rest { self.new ≡ record self.old { work = raised_by (2 * length indices.now) self.old.work } }
    {
        self.work = more(self.work, 2 * indices.len() as u64);
        self.read_values(b, first, indices, values);
    }

    /// A token of the live block with this number. Takes no memory.
    #[inline(always)]
    pub fn block(&mut self, number: u64) -> Block
        requires { IsLive self.old number }
        ensures token { result ≡ number }
        ensures rest { self.new ≡ record self.old { work = raised self.old.work } }
    {
        self.work = one_more(self.work);
        Block { number }
    }

    /// A token of the live block with this number, and its words 0 and 1. Takes no memory.
    #[inline(always)]
    pub fn open(&mut self, number: u64) -> (Block, (u64, u64))
        requires live { IsLive self.old number }
        requires wide { 1 < width_of self.old number }
        ensures token { result.0 ≡ number }
        ensures first { result.1.0 ≡ slice_index (words_of self.old number) 0 }
        ensures second { result.1.1 ≡ slice_index (words_of self.old number) 1 }
        ensures rest { self.new ≡ record self.old { work = raised_by 3 self.old.work } }
    {
        self.work = more(self.work, 3);
        let start = number as usize + 1;
        let pair = (self.words[start], self.words[start + 1]);
        (Block { number }, pair)
    }

    /// The region's work: how often a block was taken, given or reached by its number, or a word of one read or written, or the
    /// greatest `u64`. The words that `take` clears aren't counted.
    #[inline(always)]
    pub fn work(&self) -> u64
        ensures { result ≡ self.now.work }
    {
        self.work
    }

    // A block of this width, with these words, as `take_gathered` makes it.
    #[inline(always)]
    fn cut_gathered(
        &mut self,
        width: u32,
        word: u64,
        indices: &[u32],
        values: &[(u64, u64)],
    ) -> Block
        requires spare { 1 ≤ spare self.old width }
        requires wide { width ≡ 2 + 2 * length indices.now }
        requires known { All (λ index. index < length values.now) indices.now }
        ensures fresh { get self.old.live result ≡ None }
        ensures small { result < 2 ^ 32 - 1 }
        ensures live { GainsWords self.old self.new result (word ∷ gathered values.now indices.now) }
        ensures spare { spare self.new width + 1 ≡ spare self.old width }
        ensures others { KeepsOtherWidths self.old self.new width }
        ensures blocks { KeepsBlocks self.old self.new }
        ensures work { self.new.work ≡ self.old.work }
    {
        let list = self.free[width as usize];
        let number = list.first;
        let start = number as usize + 1;
        let first = self.words[start];
        let count = list.count - 1;
        self.free[width as usize] = FreeList { first, count };
        put_gathered(self.words.as_mut_slice(), start + 1, word, indices, values);
        Block { number }
    }

    // Puts a word at index `i` of the live block with this number.
    #[inline(always)]
    fn put_word(&mut self, number: u64, i: u32, word: u64)
        requires live { IsLive self.old number }
        requires inside { i < width_of self.old number }
        ensures live { self.new.live ≡ insert self.old.live number (slice_set (words_of self.old number) i word) }
        ensures free { self.new.free ≡ self.old.free }
        ensures blocks { KeepsBlocks self.old self.new }
        ensures work { self.new.work ≡ self.old.work }
    {
        self.words[number as usize + 1 + i as usize] = word;
    }

    // Reads values out of a live block, two words each from word `first` on, and puts them at these indices.
    #[inline(always)]
    fn read_values(&self, b: &Block, first: u32, indices: &[u32], values: &mut [(u64, u64)])
        requires live { IsLive self.now b.now }
        requires inside { first + 2 * length indices.now ≤ width_of self.now b.now }
        requires known { All (λ index. index < length values.old) indices.now }
        requires rising { AreRising 0 indices.now }
        ensures words { gathered values.new indices.now ≡ take (2 * length indices.now) (drop first (words_of self.now b.now)) }
        ensures others { (index : ℕ) → list_any (eqb index) indices.now ≡ false → pair_at values.new index ≡ pair_at values.old index }
        ensures len { length values.new ≡ length values.old }
    {
        let words = self.words.as_slice();
        let start = b.number as usize + 1 + first as usize;
        read_pairs(words, start, indices, values);
    }

    // Frees a live block, and spends its token.
    #[inline(always)]
    fn free_block(&mut self, b: Block)
        requires { IsLive self.old b }
        ensures live { self.new.live ≡ remove self.old.live b }
        ensures spare { spare self.new (width_of self.old b) ≡ spare self.old (width_of self.old b) + 1 }
        ensures others { KeepsOtherWidths self.old self.new (width_of self.old b) }
        ensures blocks { KeepsBlocks self.old self.new }
        ensures work { self.new.work ≡ self.old.work }
    {
        let Block { number } = b;
        let index = number as usize;
        let width = self.words[index] as usize;
        let list = self.free[width];
        self.words[index + 1] = list.first;
        self.free[width] = FreeList {
            first: number,
            count: list.count + 1,
        };
    }

    // The number of free blocks of a width that has a list.
    #[inline(always)]
    fn spare(&self, width: u32) -> u64
        requires { width < length self.now.free }
        ensures { result ≡ spare self.now width }
    {
        self.free[width as usize].count
    }

    // Makes free blocks until there are `n` of this width. One is made with no call, where the store is long enough. Takes no memory
    // where none are asked for.
    #[inline(never)]
    fn make_spare(&mut self, width: u32, n: u64) -> Result<(), AllocError>
        requires positive { 1 ≤ width }
        requires wanting { width < length self.old.free → spare self.old width < n }
        ensures none { n ≡ 0 → IsOk result }
        ensures ok { OnOk result (spare self.new width ≡ max n (spare self.old width)) }
        ensures err { OnErr result (spare self.old width ≤ spare self.new width) }
        ensures more { spare self.old width ≤ spare self.new width }
        ensures most { spare self.new width ≤ max n (spare self.old width) }
        ensures others { KeepsOtherWidths self.old self.new width }
        ensures live { self.new.live ≡ self.old.live }
        ensures work { self.new.work ≡ self.old.work }
    {
        if n == 0 {
            return Ok(());
        }
        if self.free.len() > width as usize && self.add_block(width) && n <= self.spare(width) {
            return Ok(());
        }
        self.make_longer(width, n)
    }

    // Makes free blocks until there are `n` of this width, and the lists and the store longer for them.
    #[inline(never)]
    fn make_longer(&mut self, width: u32, n: u64) -> Result<(), AllocError>
        requires positive { 1 ≤ width }
        ensures ok { OnOk result (spare self.new width ≡ max n (spare self.old width)) }
        ensures err { OnErr result (spare self.old width ≤ spare self.new width) }
        ensures more { spare self.old width ≤ spare self.new width }
        ensures most { spare self.new width ≤ max n (spare self.old width) }
        ensures others { KeepsOtherWidths self.old self.new width }
        ensures live { self.new.live ≡ self.old.live }
        ensures work { self.new.work ≡ self.old.work }
    {
        if self.free.len() <= width as usize {
            self.add_list(width)?;
        }
        for _ in self.spare(width)..n {
            self.lengthen_by_block(width)?;
        }
        Ok(())
    }

    // Makes a list of free blocks for each width up to this one.
    fn add_list(&mut self, width: u32) -> Result<(), AllocError>
        requires { length self.old.free ≤ width }
        ensures ok { OnOk result (width < length self.new.free) }
        ensures spare { (other : ℕ) → spare self.new other ≡ spare self.old other }
        ensures live { self.new.live ≡ self.old.live }
        ensures work { self.new.work ≡ self.old.work }
    {
        self.free
            .resize(width as usize + 1, FreeList { first: 0, count: 0 })?;
        Ok(())
    }

    // Makes one free block behind the others, where the store is long enough, and answers whether it is.
    #[inline(always)]
    fn add_block(&mut self, width: u32) -> bool
        requires positive { 1 ≤ width }
        requires listed { width < length self.old.free }
        requires countable { spare self.old width + 1 < 2 ^ 64 }
        ensures spare { spare self.new width ≡ spare self.old width + (if result then 1 else 0) }
        ensures others { KeepsOtherWidths self.old self.new width }
        ensures lists { length self.new.free ≡ length self.old.free }
        ensures live { self.new.live ≡ self.old.live }
        ensures work { self.new.work ≡ self.old.work }
    {
        let made = self.made;
        let end = made + 1 + width as usize;
        if end > self.words.len() {
            return false;
        }
        put_block(&mut self.words, &mut self.free, made, width);
        self.made = end;
        true
    }

    // Makes one free block behind the others, and the store longer for it, where it doesn't become too long.
    fn lengthen_by_block(&mut self, width: u32) -> Result<(), AllocError>
        requires positive { 1 ≤ width }
        requires listed { width < length self.old.free }
        requires countable { spare self.old width + 1 < 2 ^ 64 }
        ensures ok { OnOk result (spare self.new width ≡ spare self.old width + 1) }
        ensures err { OnErr result (spare self.new width ≡ spare self.old width) }
        ensures others { KeepsOtherWidths self.old self.new width }
        ensures lists { length self.new.free ≡ length self.old.free }
        ensures live { self.new.live ≡ self.old.live }
        ensures work { self.new.work ≡ self.old.work }
    {
        let made = self.made;
        let end = made + 1 + width as usize;
        if end > self.words.len() {
            lengthen(&mut self.words, end)?;
        }
        put_block(&mut self.words, &mut self.free, made, width);
        self.made = end;
        Ok(())
    }
}

// Puts a free block of this width behind the words that are made, and first into its list.
#[inline(always)]
fn put_block(words: &mut Vec<u64>, lists: &mut Vec<FreeList>, made: usize, width: u32)
    requires inside { made + 1 < vec_len words.old }
    requires listed { width < vec_len lists.old }
    requires countable { (list_at lists.old.items width).count + 1 < 2 ^ 64 }
    ensures words { words.new.items ≡ slice_set (slice_set words.old.items made width) (made + 1) (list_at lists.old.items width).first }
    ensures lists { lists.new.items ≡ slice_set lists.old.items width (record { first = made; count = (list_at lists.old.items width).count + 1 }) }
{
    let list = &mut lists[width as usize];
    let first = list.first;
    list.first = made as u64;
    list.count += 1;
    words[made] = u64::from(width);
    words[made + 1] = first;
}

// Makes the store longer by a piece, to `end` words at least, where it doesn't become too long.
#[cold]
#[inline(never)]
fn lengthen(words: &mut Vec<u64>, end: usize) -> Result<(), AllocError>
    requires { vec_len words.old ≤ WORD_LIMIT }
    ensures ok { OnOk result (end ≤ vec_len words.new) }
    ensures small { vec_len words.new ≤ WORD_LIMIT }
    ensures grown { vec_len words.new ≤ max end (vec_len words.old + min (max (vec_len words.old) LEAST_PIECE) MOST_PIECE) }
    ensures kept { take (vec_len words.old) words.new.items ≡ words.old.items }
{
    let most = WORD_LIMIT as usize;
    if end > most {
        return Err(AllocError);
    }
    let len = words.len();
    let piece = len.max(LEAST_PIECE).min(MOST_PIECE);
    words.resize((len + piece).min(most).max(end), 0)?;
    Ok(())
}

// The work after one call more.
#[inline(always)]
fn one_more(work: u64) -> u64
    ensures { result ≡ raised work }
{
    if work < u64::MAX { work + 1 } else { work }
}

// The work after `count` words more.
#[inline(always)]
fn more(work: u64, count: u64) -> u64
    ensures { result ≡ raised_by count work }
{
    work.saturating_add(count)
}

// Reads values out of the store, two words each from `start` on, and puts them at these indices.
#[inline(always)]
fn read_pairs(words: &[u64], start: usize, indices: &[u32], values: &mut [(u64, u64)])
    requires inside { start + 2 * length indices.now ≤ length words.now }
    requires known { All (λ index. index < length values.old) indices.now }
    requires rising { AreRising 0 indices.now }
    ensures words { gathered values.new indices.now ≡ take (2 * length indices.now) (drop start words.now) }
    ensures others { (index : ℕ) → list_any (eqb index) indices.now ≡ false → pair_at values.new index ≡ pair_at values.old index }
    ensures len { length values.new ≡ length values.old }
{
    let mut place = start;
    for index in indices {
        values[*index as usize] = (words[place], words[place + 1]);
        place += 2;
    }
}

// Writes the values at these indices into the store, two words each from `start` on.
#[inline(always)]
fn write_pairs(words: &mut [u64], start: usize, indices: &[u32], values: &[(u64, u64)])
    requires inside { start + 2 * length indices.now ≤ length words.old }
    requires known { All (λ index. index < length values.now) indices.now }
    ensures words { words.new ≡ overlaid start (gathered values.now indices.now) words.old }
    ensures len { length words.new ≡ length words.old }
{
    let mut place = start;
    for index in indices {
        put_pair(words, place, values[*index as usize]);
        place += 2;
    }
}

// Puts a word into the store at `start`, and behind it the values at these indices, two words each.
#[inline(always)]
fn put_gathered(words: &mut [u64], start: usize, word: u64, indices: &[u32], values: &[(u64, u64)])
    requires inside { start + 1 + 2 * length indices.now ≤ length words.old }
    requires known { All (λ index. index < length values.now) indices.now }
    ensures words { words.new ≡ overlaid start (word ∷ gathered values.now indices.now) words.old }
    ensures len { length words.new ≡ length words.old }
{
    words[start] = word;
    write_pairs(words, start + 1, indices, values);
}

// Puts two words into the store, at this index and the next.
#[inline(always)]
fn put_pair(words: &mut [u64], start: usize, pair: (u64, u64))
    requires { start + 1 < length words.old }
    ensures words { words.new ≡ slice_set (slice_set words.old start pair.0) (start + 1) pair.1 }
    ensures len { length words.new ≡ length words.old }
{
    words[start] = pair.0;
    words[start + 1] = pair.1;
}

// Puts 0 into `count` words of the store, from `start` on.
#[inline(always)]
fn clear(words: &mut Vec<u64>, start: usize, count: usize)
    requires { start + count ≤ vec_len words.old }
    ensures items { words.new.items ≡ take start words.old.items ++ (replicate count 0 ++ drop (start + count) words.old.items) }
    ensures len { vec_len words.new ≡ vec_len words.old }
{
    words[start..start + count].fill(0);
}
