// The type variables and definitions in scope.

ghost use Rattle.std.specs.Prelude.{◌≡◌, ◌<◌, ◌^◌, length, map, reverse, IfOk};
ghost use Rattle.pict_types.specs.Counting.{variables_around};
ghost use Rattle.pict_types.specs.Entries.{EntriesAreWellFormed, closed_entries, entry_heights, entry_weights, held_heights, held_weights, height_of_what, is_closed, places, variables, weight_of_what};
ghost use Rattle.pict_types.specs.Around.{IsLinked, around_heights, around_weights};
ghost use Rattle.pict_types.specs.Measures.{held};
ghost use Rattle.pict_types.specs.PlainEntries.{plain_entries, plain_what};
ghost use Rattle.pict_types.specs.Places.{entry_names};
ghost use Rattle.pict_types.specs.Props.{entries_prop};

use crate::measure::{Around, Known, Measures, inside, measure, measure_bound};
use crate::mentioning::{Variables, mentions};
use crate::types::{Arg, Bound, Ty};
use pict_binders::Nearest;
use pict_syntax::{Name, Names};
use std::alloc::{AllocError, Global};

/// What a name of a type means.
#[derive(Drop)]
pub enum What {
    /// A type variable with what is known of it.
    Variable(Bound),
    /// A definition, which stands for its body.
    Definition(Arg),
}

/// A name with its meaning. Its bound or its definition is written in the variables of the entries around it.
#[derive(Drop)]
pub struct Entry {
    pub name: Name,
    pub what: What,
}

/// The type variables and definitions in scope, and the names by whose bytes labels are ordered.
///
/// Contracts see it as the list of its entries, the innermost first.
#[derive(Drop)]
pub struct Context<'a> {
    names: &'a Names,
    entries: Vec<Entry>,
    known: Vec<Known>,
    nearest: Nearest,
    /// For each entry the number of type variables around it.
    around: Vec<usize>,
    /// For each entry what it measures.
    sizes: Vec<Measures>,
    /// For each entry whether it is a definition of a type that mentions no variable.
    closed: Vec<bool>,
    ghost formed: { EntriesAreWellFormed names.now (plain_entries entries.items) } by { entries_prop names.now (plain_entries entries.items) },
    ghost placed: { reverse (map (λ k. k.place) known.items) ≡ places (plain_entries entries.items) },
    ghost weighed: { reverse (map (λ k. k.measures.weight) known.items) ≡ held_weights (plain_entries entries.items) },
    ghost measured: { reverse (map (λ k. k.measures.height) known.items) ≡ held_heights (plain_entries entries.items) },
    ghost named: { nearest ≡ entry_names (plain_entries entries.items) },
    ghost entries_weighed: { reverse (map (λ m. m.weight) sizes.items) ≡ entry_weights (plain_entries entries.items) },
    ghost entries_measured: { reverse (map (λ m. m.height) sizes.items) ≡ entry_heights (plain_entries entries.items) },
    ghost entries_closed: { reverse closed.items ≡ closed_entries (plain_entries entries.items) },
    ghost counted: { reverse around.items ≡ variables_around (plain_entries entries.items) },
    ghost few: { length (variables (plain_entries entries.items)) < 2 ^ 32 },
}

/// What an entry measures: a variable, or the type that a definition stands for. Takes no memory.
fn measure_what(what: &What, around: &Around) -> Measures
    requires linked { IsLinked around.now }
    ensures weight { result.weight ≡ held (weight_of_what (around_weights around.now) (plain_what what.now)) }
    ensures height { result.height ≡ held (height_of_what (around_heights around.now) (plain_what what.now)) }
{
    match what {
        What::Variable(bound) => measure_bound(bound, around),
        What::Definition(Arg::Plain(t)) => measure(t, around),
        What::Definition(Arg::Op { .. }) => Measures::LEAF,
    }
}

/// Whether an entry is a definition of a type that mentions no variable. Takes no memory; the only error is that of a type under
/// more binders than a `usize` can count.
#[tactic(auto, using(crate::proofs::EntryMeasures::outer_all))]
fn is_closed(what: &What) -> Result<bool, AllocError>
    ensures { IfOk result (λ b. b ≡ is_closed (plain_what what.now)) }
{
    match what {
        What::Variable(_) => Ok(false),
        What::Definition(Arg::Plain(t)) => Ok(!mentions(t, &Variables::Outer(0))?),
        What::Definition(Arg::Op { .. }) => Ok(true),
    }
}

impl<'a> Context<'a> {
    ghost use Rattle.std.specs.Prelude.{◌≡◌, ◌≤◌, ◌<◌, ◌^◌, [], ◌∷◌, not, true, length, drop, slice_get, Some, IfNone, IfSome, OnOk, OnErr};
    ghost use Rattle.pict_types.specs.Counting.{variables_inside};
    ghost use Rattle.pict_types.specs.Entries.{Definition, EntryIsWellFormed, variables};
    ghost use Rattle.pict_types.specs.Mentions.{mentions};
    ghost use Rattle.pict_types.specs.Replacing.{type_in};
    ghost use Rattle.pict_types.specs.Types.{PlainArg};
    ghost use Rattle.pict_types.specs.Measures.{held, height_of, heights, rise, weigh, weight_of, weights};
    ghost use Rattle.pict_types.specs.Plain.{plain, plain_bound};
    ghost use Rattle.pict_binders.specs.Names.{place_of};
    ghost use Rattle.pict_types.specs.Places.{IsWhatAt, arity_at, entry_names};
    ghost use Rattle.pict_types.specs.PlainEntries.{plain_entry, plain_what};
    ghost use Rattle.pict_types.specs.PlainContext.{names_of, plain_context, type_context};
    ghost use Rattle.pict_types.specs.Around.{heights_inside, weights_inside};

    /// A context without entries. Takes no memory.
    pub fn new(alloc: Global, names: &'a Names) -> Context<'a>
        ensures empty { plain_context result ≡ [] }
        ensures names { names_of result ≡ names.now }
    {
        Context {
            names,
            entries: Vec::new(alloc),
            known: Vec::new(alloc),
            nearest: Nearest::new(alloc),
            around: Vec::new(alloc),
            sizes: Vec::new(alloc),
            closed: Vec::new(alloc),
        }
    }

    /// Adds the entry as the innermost. The only error is want of memory, also where a `u32` couldn't
    /// number the entries, and it leaves the context as it was.
    pub fn push(&mut self, entry: Entry) -> Result<(), AllocError>
        requires formed { EntryIsWellFormed (names_of self.old) (type_context self.old) (plain_what entry.what) }
        ensures pushed { OnOk result (plain_context self.new ≡ plain_entry entry ∷ plain_context self.old) }
        ensures err { OnErr result (plain_context self.new ≡ plain_context self.old) }
        ensures names { names_of self.new ≡ names_of self.old }
    {
        if self.known.as_slice().len() >= u32::MAX as usize {
            return Err(AllocError);
        }
        self.entries.reserve(1)?;
        self.known.reserve(1)?;
        self.around.reserve(1)?;
        self.sizes.reserve(1)?;
        self.closed.reserve(1)?;
        let closed = is_closed(&entry.what)?;
        self.nearest.bind(entry.name)?;
        let count = self.known.as_slice().len();
        self.around.push_reserved(count);
        let measures = measure_what(&entry.what, &Around::Outer(&self.known));
        self.sizes.push_reserved(measures);
        self.closed.push_reserved(closed);
        match &entry.what {
            What::Variable(_) => {
                let place = self.entries.as_slice().len();
                self.known.push_reserved(Known { place, measures });
                self.entries.push_reserved(entry);
                Ok(())
            }
            What::Definition(_) => {
                self.entries.push_reserved(entry);
                Ok(())
            }
        }
    }

    /// Takes the innermost entry out; nothing where there is none. Takes no memory.
    pub fn take(&mut self) -> Option<Entry>
        ensures none { IfNone result (plain_context self.old ≡ []) }
        ensures some { IfSome result (λ e. plain_context self.old ≡ plain_entry e ∷ plain_context self.new) }
        ensures left { plain_context self.new ≡ drop 1 (plain_context self.old) }
        ensures names { names_of self.new ≡ names_of self.old }
    {
        let _ = self.nearest.unbind();
        let _ = self.around.pop();
        let _ = self.sizes.pop();
        let _ = self.closed.pop();
        let entry = self.entries.pop()?;
        if let What::Variable(_) = entry.what {
            let _ = self.known.pop();
        }
        Some(entry)
    }

    /// Drops the innermost entry. Takes no memory.
    pub fn pop(&mut self)
        requires some { 0 < length (plain_context self.old) }
        ensures popped { plain_context self.new ≡ drop 1 (plain_context self.old) }
        ensures names { names_of self.new ≡ names_of self.old }
    {
        let _ = self.take();
    }

    /// The number of type variables. Takes no memory.
    pub fn variables(&self) -> u32
        ensures count { result ≡ length (type_context self.now) }
    {
        self.known.as_slice().len() as u32
    }

    /// What is known of type variable `i`, written in the context as it was when the variable was pushed; nothing
    /// where there is no such variable. Takes no memory.
    pub fn bound(&self, i: u32) -> Option<&Bound>
        ensures none { IfNone result (length (type_context self.now) ≤ i) }
        ensures some { IfSome result (λ b. slice_get (type_context self.now) i ≡ Some (plain_bound b.now)) }
    {
        let known = self.known.as_slice();
        let entries = self.entries.as_slice();
        if (i as usize) >= known.len() {
            return None;
        }
        let place = known[known.len() - 1 - i as usize].place;
        match &entries[place].what {
            What::Variable(bound) => Some(bound),
            What::Definition(_) => unreachable!(),
        }
    }

    /// The names by whose bytes labels are ordered. Takes no memory.
    pub fn names(&self) -> &Names
        ensures same { result.now ≡ names_of self.now }
    {
        self.names
    }

    /// The place of the innermost entry of a name, counted from the innermost; nothing where it has none. Takes no
    /// memory.
    pub fn place(&self, name: Name) -> Option<usize>
        ensures { result ≡ place_of (entry_names (plain_context self.now)) name.0 }
    {
        self.nearest.place(name)
    }

    /// What the name of entry `i` means, counted from the innermost; nothing where there is no such entry. Takes no memory.
    pub fn what(&self, i: usize) -> Option<&What>
        ensures none { IfNone result (length (plain_context self.now) ≤ i) }
        ensures some { IfSome result (λ w. IsWhatAt (plain_context self.now) i (plain_what w.now)) }
    {
        let entries = self.entries.as_slice();
        if i >= entries.len() {
            return None;
        }
        Some(&entries[entries.len() - 1 - i].what)
    }

    /// The number of entries. Takes no memory.
    pub fn len(&self) -> usize
        ensures { result ≡ length (plain_context self.now) }
    {
        self.entries.as_slice().len()
    }

    /// How many type variables stand among the innermost `i` entries. Takes no memory.
    pub fn variables_inside(&self, i: usize) -> u32
        requires entries { i ≤ length (plain_context self.now) }
        ensures { result ≡ variables_inside i (plain_context self.now) }
    {
        if i == 0 {
            return 0;
        }
        let around = self.around.as_slice();
        let outer = around[around.len() - i];
        (self.known.as_slice().len() - outer) as u32
    }

    /// What the type that definition `i` stands for measures where it was written, each held at the greatest `u64`; entries
    /// are counted from the innermost. Takes no memory.
    pub fn definition_measures(&self, i: usize) -> Measures
        requires entry { i < length (plain_context self.now) }
        ensures weight { (a : PlainArg) → IsWhatAt (plain_context self.now) i (Definition a)
            → result.weight ≡ held (weigh (drop (variables_inside i (plain_context self.now)) (weights (type_context self.now))) (type_in a)) }
        ensures height { (a : PlainArg) → IsWhatAt (plain_context self.now) i (Definition a)
            → result.height ≡ held (rise (drop (variables_inside i (plain_context self.now)) (heights (type_context self.now))) (type_in a)) }
    {
        let sizes = self.sizes.as_slice();
        sizes[sizes.len() - 1 - i]
    }

    /// Whether the type that definition `i` stands for mentions no variable; entries are counted from the innermost. Takes no
    /// memory.
    pub fn definition_is_closed(&self, i: usize) -> bool
        requires entry { i < length (plain_context self.now) }
        ensures { (a : PlainArg) → IsWhatAt (plain_context self.now) i (Definition a) → result ≡ not (mentions (λ j. true) (type_in a)) }
    {
        let closed = self.closed.as_slice();
        closed[closed.len() - 1 - i]
    }

    /// Of how many arguments entry `i` is an operator; nothing where it is a type, or isn't there. Takes no memory.
    pub fn arity(&self, i: usize) -> Option<usize>
        ensures { result ≡ arity_at (plain_context self.now) i }
    {
        match self.what(i) {
            None => None,
            Some(What::Variable(bound)) => bound.arity(),
            Some(What::Definition(arg)) => arg.arity(),
        }
    }

    /// The weight and the height of a type, each held at the greatest `u64`. Takes no memory.
    pub fn measures(&self, t: &Ty) -> Measures
        ensures weight { result.weight ≡ held (weight_of (type_context self.now) (plain t.now)) }
        ensures height { result.height ≡ held (height_of (type_context self.now) (plain t.now)) }
    {
        measure(t, &Around::Outer(&self.known))
    }

    /// The weight and the height of a type that is written under binders with these measures, the innermost last, in
    /// the context without its `by` innermost variables, each held at the greatest `u64`. Takes no memory.
    pub fn measures_inside(&self, inner: &[Measures], by: u32, t: &Ty) -> Measures
        requires by { by ≤ length (type_context self.now) }
        ensures weight { result.weight ≡ held (weigh (weights_inside inner.now (drop by (weights (type_context self.now)))) (plain t.now)) }
        ensures height { result.height ≡ held (rise (heights_inside inner.now (drop by (heights (type_context self.now)))) (plain t.now)) }
    {
        let known = self.known.as_slice();
        let outer = &known[..known.len() - by as usize];
        measure(t, &inside(inner, &Around::Outer(outer)))
    }

    /// The weight and the height of a type that is written under one more variable with these measures, each held at
    /// the greatest `u64`. Takes no memory.
    pub fn measures_with(&self, variable: Measures, t: &Ty) -> Measures
        ensures weight { result.weight ≡ held (weigh (variable.weight ∷ weights (type_context self.now)) (plain t.now)) }
        ensures height { result.height ≡ held (rise (variable.height ∷ heights (type_context self.now)) (plain t.now)) }
    {
        let known = [variable];
        measure(t, &inside(&known, &Around::Outer(&self.known)))
    }
}
