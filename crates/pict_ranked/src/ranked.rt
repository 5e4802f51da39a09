// A list of which each item is reached by its place.
ghost use Rattle.std.specs.Prelude.{◌≡◌, ◌≤◌, ◌<◌, ◌+◌, ◌*◌, ◌^◌, [], ◌∷◌, ◌++◌, length, take, drop, slice_get, Some, IfOk, OnOk, OnErr, vec_capacity};
ghost use Rattle.pict_ranked.specs.Ranking.{standing, IsRanked};
ghost use Rattle.pict_ranked.specs.Tree.{IsWidth};

use crate::counts::Counts;
use std::alloc::{AllocError, Global};
use std::marker::Model;

/// A list. An item at any place is found, replaced or taken out in a time that goes with the logarithm of its length; an item
/// is pushed at its end likewise. Contracts see its `items` and its `room`: how many may be pushed before room has to be
/// made.
///
/// The items stand in slots in order, with empty ones between them, below a tree that counts them. When room is made the items
/// close up.
#[derive(Drop)]
pub struct Ranked<T> {
    slots: Vec<Option<T>>,
    counts: Counts,
}

impl<T> Model for Ranked<T> {
    ghost use Rattle.std.specs.Prelude.{◌-◌, length, vec_capacity};
    ghost use Rattle.pict_ranked.specs.Ranking.{Ranking, ranking_code, standing, IsRanked};

    ghost Value = { Ranking T };

    ghost coded = { ranking_code T.code };

    ghost view = { λ r. record { items = standing r.slots.items; room = length r.counts - length r.slots.items } };

    ghost invariant = { λ r. IsRanked r.slots.items (vec_capacity r.slots) r.counts };
}

impl<T: Drop> Ranked<T> {
    /// A list without items and without room. Takes no memory.
    pub fn new(alloc: Global) -> Ranked<T>
        ensures items { result.items ≡ [] }
        ensures room { result.room ≡ 0 }
    {
        Ranked {
            slots: Vec::new(alloc),
            counts: Counts::new(alloc),
        }
    }

    /// How many items there are. Takes no memory.
    pub fn len(&self) -> usize
        ensures { result ≡ length self.now.items }
    {
        self.counts.total()
    }

    /// The `i`-th item, from 0. Takes no memory.
    pub fn get(&self, i: usize) -> &T
        requires { i < length self.now.items }
        ensures { slice_get self.now.items i ≡ Some result.now }
    {
        let slot = self.counts.find(i);
        self.slots[slot].as_ref().unwrap()
    }

    /// Puts `x` in the `i`-th item's place, and answers that item. Takes no memory.
    pub fn replace(&mut self, i: usize, x: T) -> T
        requires { i < length self.old.items }
        ensures old { slice_get self.old.items i ≡ Some result }
        ensures items { self.new.items ≡ take i self.old.items ++ x ∷ drop (i + 1) self.old.items }
        ensures room { self.new.room ≡ self.old.room }
    {
        let slot = self.counts.find(i);
        self.slots[slot].replace(x).unwrap()
    }

    /// Takes the `i`-th item out; the others keep their order. Takes no memory.
    pub fn remove(&mut self, i: usize) -> T
        requires { i < length self.old.items }
        ensures old { slice_get self.old.items i ≡ Some result }
        ensures items { self.new.items ≡ take i self.old.items ++ drop (i + 1) self.old.items }
        ensures room { self.new.room ≡ self.old.room }
    {
        let slot = self.counts.find(i);
        self.counts.subtract(slot);
        self.slots[slot].take().unwrap()
    }

    /// Adds `x` at the end, where there is room. Takes no memory.
    pub fn push(&mut self, x: T)
        requires { 1 ≤ self.old.room }
        ensures items { self.new.items ≡ self.old.items ++ x ∷ [] }
        ensures room { self.new.room + 1 ≡ self.old.room }
    {
        self.counts.add(self.slots.len());
        self.slots.push_reserved(Some(x));
    }

    /// Makes room for `n` more. The only error is want of memory, also where there would be more than 2 to the power 31
    /// slots, and it leaves the list as it was.
    pub fn reserve(&mut self, n: usize) -> Result<(), AllocError>
        ensures items { self.new.items ≡ self.old.items }
        ensures room { OnOk result (n ≤ self.new.room) }
        ensures more { self.old.room ≤ self.new.room }
        ensures err { OnErr result (self.new ≡ self.old) }
    {
        let width = self.counts.width();
        if n <= width - self.slots.len() {
            return Ok(());
        }
        let wanted = match self.len().checked_add(n) {
            None => return Err(AllocError),
            Some(wanted) => wanted,
        };
        widen(&mut self.slots, &mut self.counts, wanted)?;
        close_up(&mut self.slots, &mut self.counts);
        Ok(())
    }
}

/// Where more than half of the slots are wanted there are twice as many from now on, or as many as are wanted; they count
/// nothing yet. The only error is want of memory, and then the counts are as they were.
fn widen<T: Drop>(
    slots: &mut Vec<Option<T>>,
    counts: &mut Counts,
    wanted: usize,
) -> Result<(), AllocError>
    requires used { length slots.old.items ≤ length counts.old }
    requires capacity { length counts.old ≤ vec_capacity slots.old }
    ensures slots { slots.new.items ≡ slots.old.items }
    ensures capacity { length counts.new ≤ vec_capacity slots.new }
    ensures wider { length counts.old ≤ length counts.new }
    ensures enough { OnOk result (wanted ≤ length counts.new) }
    ensures err { OnErr result (counts.new ≡ counts.old) }
{
    let width = counts.width();
    if wanted <= width / 2 {
        return Ok(());
    }
    let more = next_width(width, wanted)?;
    slots.reserve_exact(more - slots.len())?;
    counts.widen(more)
}

/// The items move to the first slots, and are counted there.
fn close_up<T: Drop>(slots: &mut Vec<Option<T>>, counts: &mut Counts)
    requires used { length slots.old.items ≤ length counts.old }
    requires capacity { length counts.old ≤ vec_capacity slots.old }
    ensures ranked { IsRanked slots.new.items (vec_capacity slots.new) counts.new }
    ensures items { standing slots.new.items ≡ standing slots.old.items }
    ensures used { length slots.new.items ≡ length (standing slots.old.items) }
    ensures width { length counts.new ≡ length counts.old }
{
    slots.retain(|slot| slot.is_some());
    counts.fill(slots.len());
}

/// The width of a tree that has twice as many leaves as one of this width, and as many as are wanted.
fn next_width(width: usize, wanted: usize) -> Result<usize, AllocError>
    requires { width < 2 ^ 32 }
    ensures width { IfOk result IsWidth }
    ensures twice { IfOk result (λ more. 2 * width ≤ more) }
    ensures enough { IfOk result (λ more. wanted ≤ more) }
{
    let least = (2 * width).max(wanted);
    if least > 1 << 31 {
        return Err(AllocError);
    }
    Ok(least.next_power_of_two())
}
