// A complete binary tree of counts: which leaf the i-th falls to, and one more or less at a leaf.
ghost use Rattle.std.specs.Prelude.{◌≡◌, ◌≤◌, ◌<◌, ◌+◌, ◌-◌, ◌^◌, [], ◌++◌, length, take, drop, replicate, slice_index_or, slice_set, OnOk, OnErr};
ghost use Rattle.pict_ranked.specs.Tree.{IsWidth, total};

use std::alloc::{AllocError, Global};
use std::marker::Model;

/// Counts at the leaves of a complete binary tree, whose other nodes have the sums. Contracts see the list of the leaves.
#[derive(Drop)]
pub(crate) struct Counts {
    width: usize,
    nodes: Vec<u32>,
}

impl Model for Counts {
    ghost use Rattle.std.specs.Prelude.{ℕ, List, drop};
    ghost use Rattle.pict_ranked.specs.Tree.{IsTree};

    ghost Value = { List ℕ };

    ghost view = { λ c. drop c.width c.nodes.items };

    ghost invariant = { λ c. IsTree c.width c.nodes.items };
}

impl Counts {
    /// No leaves. Takes no memory.
    pub(crate) fn new(alloc: Global) -> Counts
        ensures { result ≡ [] }
    {
        Counts {
            width: 0,
            nodes: Vec::new(alloc),
        }
    }

    /// How many leaves there are.
    pub(crate) fn width(&self) -> usize
        ensures width { result ≡ length self.now }
        ensures bound { result < 2 ^ 32 }
    {
        self.width
    }

    /// What all leaves count.
    pub(crate) fn total(&self) -> usize
        ensures { result ≡ total self.now }
    {
        if self.width == 0 {
            0
        } else {
            self.nodes[1] as usize
        }
    }

    /// The leaf to which the `i`-th falls, from 0, where each leaf has as many places as it counts.
    pub(crate) fn find(&self, i: usize) -> usize
        requires { i < total self.now }
        ensures within { result < length self.now }
        ensures before { total (take result self.now) ≤ i }
        ensures here { i < total (take result self.now) + slice_index_or self.now result 0 }
    {
        let mut left = i;
        let mut k = 1;
        while k < self.width {
            let count = self.nodes[2 * k] as usize;
            if left < count {
                k = 2 * k;
            } else {
                left -= count;
                k = 2 * k + 1;
            }
        }
        k - self.width
    }

    /// One more at a leaf.
    pub(crate) fn add(&mut self, leaf: usize)
        requires within { leaf < length self.old }
        requires fits { total self.old < length self.old }
        ensures { self.new ≡ slice_set self.old leaf (slice_index_or self.old leaf 0 + 1) }
    {
        let mut k = self.width + leaf;
        self.nodes[k] += 1;
        k /= 2;
        while k > 0 {
            self.nodes[k] += 1;
            k /= 2;
        }
    }

    /// One less at a leaf.
    pub(crate) fn subtract(&mut self, leaf: usize)
        requires within { leaf < length self.old }
        requires some { 1 ≤ slice_index_or self.old leaf 0 }
        ensures { self.new ≡ slice_set self.old leaf (slice_index_or self.old leaf 0 - 1) }
    {
        let mut k = self.width + leaf;
        self.nodes[k] -= 1;
        k /= 2;
        while k > 0 {
            self.nodes[k] -= 1;
            k /= 2;
        }
    }

    /// Counts 1 at each of the first `n` leaves, and 0 at the others.
    pub(crate) fn fill(&mut self, n: usize)
        requires { n ≤ length self.old }
        ensures { self.new ≡ replicate n 1 ++ replicate (length self.old - n) 0 }
    {
        self.clear();
        for leaf in 0..n {
            self.add(leaf);
        }
    }

    /// Counts 0 at each leaf.
    fn clear(&mut self)
        ensures { self.new ≡ replicate (length self.old) 0 }
    {
        self.nodes.fill(0);
    }

    /// So many leaves from now on, which count nothing. The only error is want of memory, and it changes nothing.
    pub(crate) fn widen(&mut self, width: usize) -> Result<(), AllocError>
        requires width { IsWidth width }
        requires more { length self.old ≤ width }
        ensures ok { OnOk result (self.new ≡ replicate width 0) }
        ensures err { OnErr result (self.new ≡ self.old) }
    {
        self.nodes.resize(2 * width, 0)?;
        self.nodes.fill(0);
        self.width = width;
        Ok(())
    }
}
