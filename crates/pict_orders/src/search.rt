// The search for all that a process can do, in any order of steps.

ghost use Rattle.std.specs.Prelude.{◌≡◌, ◌++◌, ◌<◌, ◌≤◌, [], ◌∷◌, IsTrue, IfOk, OnOk, map, length};
ghost use Rattle.pict_core.specs.Plain.{plain_core};
ghost use Rattle.pict_core.specs.Term.{Process};
ghost use Rattle.pict_core.specs.Closed.{IsClosed};
ghost use Rattle.pict_core.specs.Run.{printed_by};
ghost use Rattle.pict_core.specs.Configuration.{IsConfiguration, opening};
ghost use Rattle.pict_reduction.specs.Congruence.{Congruent};
ghost use Rattle.pict_reduction.specs.Reading.{reading};
ghost use Rattle.pict_reference.specs.Plain.{plain_label};
ghost use Rattle.pict_exploration.specs.Explored.{IsReachedByChoices, IsFoundAs, IsFoundSettled, Explores};
ghost use Rattle.pict_orders.specs.Plain.{configuration_of, place_of};
ghost use Rattle.pict_orders.specs.Room.{ComesToFull};
ghost use Rattle.pict_orders.specs.Settling.{vertex};
ghost use Rattle.pict_orders.specs.Found.{vertices, IsSearch, BeginsAt, ListsTraps};
ghost use Rattle.pict_orders.specs.declared.search.Extent.TheVariants.{All, Limit, NoRoom};
ghost use Rattle.pict_orders.specs.Going.{Goes, IsAdded, IsFoundBy, IsStepFrom, IsTried, AreTried, IsExpanded, AreExpanded, IsThere, IsReadyAt, IsOpened, IsWhole};

use crate::alike::are_alike;
use crate::choice::Choice;
use crate::state::State;
use pict_core::Core;
use pict_reference::{Label, StepOutcome};
use pict_shared::{Guess, guess_names, mix, names_between};
use pict_syntax::Span;
use std::alloc::{AllocError, Global};
use std::collections::HashMap;

/// A vertex that is found: choices that lead there from the opening configuration, the bytes that their steps print, and the
/// configuration.
#[derive(Drop)]
pub struct Found {
    /// The choices, in order.
    pub choices: Vec<Choice>,
    /// The bytes.
    pub bytes: Vec<u8>,
    /// The configuration, in which no silent step is left, and no step of one process by itself that prints nothing.
    pub state: State,
    // A guess at names of its channels.
    guess: Guess,
    // The number of the vertex that was found before it with the same key.
    before: Option<usize>,
}

/// A choice that divides by zero.
#[derive(Clone, Copy, Debug)]
pub struct Trap {
    /// The number of the vertex.
    pub vertex: usize,
    /// The choice.
    pub choice: Choice,
    /// The place of the output to the primitive.
    pub at: Span,
}

/// What is found of all that a process can do.
#[derive(Drop)]
pub struct Exploration {
    /// The vertices, in the order in which they were found.
    pub found: Vec<Found>,
    /// The choices that divide by zero.
    pub traps: Vec<Trap>,
    /// How far the search came.
    pub extent: Extent,
}

// What is found so far.
#[derive(Drop)]
struct Search {
    found: Vec<Found>,
    traps: Vec<Trap>,
    // How many vertices may be found.
    limit: usize,
    // The number of the last vertex that was found with a key.
    latest: HashMap<u64, usize>,
    alloc: Global,
}

/// How far the search came.
#[derive(Clone, Copy, PartialEq, Eq, Debug)]
pub enum Extent {
    /// All orders.
    All,
    /// As many vertices as were asked for; what was come to next isn't taken for one of them.
    Limit,
    /// Up to a configuration whose count of channels wouldn't fit 32 bits with one more, or its next stamp 64 bits with two more.
    NoRoom,
}

fn same_bytes(one: &[u8], other: &[u8]) -> bool
    ensures { IsTrue result → one.now ≡ other.now }
{
    one == other
}

// The bytes with those that the label prints behind them.
fn write_printed(out: &mut Vec<u8>, label: &Label) -> Result<(), AllocError>
    ensures { OnOk result (out.new.items ≡ out.old.items ++ printed_by (plain_label label.now)) }
{
    match label {
        Label::Quiet => Ok(()),
        Label::Comm(_, _) => Ok(()),
        Label::Print(bytes) => out.extend_from_slice(bytes.slice()),
    }
}

fn key_with(guess: &Guess, bytes: &[u8]) -> u64 {
    let mut key = mix(guess.key, bytes.len() as u64);
    for byte in bytes {
        key = mix(key, u64::from(*byte));
    }
    key
}

impl Found {
    // Whether the vertex has these bytes, and a configuration that is the same up to congruence.
    fn is_like(
        &self,
        alloc: Global,
        bytes: &[u8],
        state: &State,
        guess: &Guess,
    ) -> Result<bool, AllocError>
        ensures { IfOk result (λ yes. IsTrue yes → (self.now.bytes.items ≡ bytes.now)
            × Congruent 0 (reading (configuration_of self.now.state)) (reading (configuration_of state.now))) }
    {
        if !same_bytes(&self.bytes, bytes) {
            return Ok(false);
        }
        let names = names_between(alloc, &self.guess, guess)?;
        let back = names_between(alloc, guess, &self.guess)?;
        are_alike(alloc, &self.state, state, &names, &back)
    }
}

// The choices with one more.
fn choices_with(
    alloc: Global,
    choices: &[Choice],
    choice: Choice,
) -> Result<Vec<Choice>, AllocError>
    ensures { IfOk result (λ v. v.items ≡ choices.now ++ choice ∷ []) }
{
    let mut made = Vec::from_slice(alloc, choices)?;
    made.push(choice)?;
    Ok(made)
}

// The bytes with those that the label prints behind them.
fn bytes_with(alloc: Global, bytes: &[u8], label: &Label) -> Result<Vec<u8>, AllocError>
    ensures { IfOk result (λ v. v.items ≡ bytes.now ++ printed_by (plain_label label.now)) }
{
    let mut made = Vec::from_slice(alloc, bytes)?;
    write_printed(&mut made, label)?;
    Ok(made)
}

impl Search {
    // Whether a vertex with these bytes is found whose configuration is the same up to congruence.
    fn has(&self, key: u64, bytes: &[u8], state: &State, guess: &Guess) -> Result<bool, AllocError>
        ensures { IfOk result (λ yes. IsTrue yes → IsFoundAs (vertices self.now.found.items) bytes.now (reading (configuration_of state.now))) }
    {
        let mut next = match self.latest.get(&key) {
            None => None,
            Some(number) => Some(*number),
        };
        for _ in 0..self.found.len() {
            match next {
                None => return Ok(false),
                Some(number) => {
                    if number >= self.found.len() {
                        return Ok(false);
                    }
                    if self.found[number].is_like(self.alloc, bytes, state, guess)? {
                        return Ok(true);
                    }
                    next = self.found[number].before;
                }
            }
        }
        Ok(false)
    }

    // Adds a vertex.
    fn add(
        &mut self,
        key: u64,
        choices: Vec<Choice>,
        bytes: Vec<u8>,
        state: State,
        guess: Guess,
    ) -> Result<(), AllocError>
        ensures { OnOk result (IsAdded self.old self.new (vertex (map place_of choices.items) bytes.items (configuration_of state))) }
    {
        let number = self.found.len();
        let before = self.latest.insert(key, number)?;
        self.found.push(Found {
            choices,
            bytes,
            state,
            guess,
            before,
        })?;
        Ok(())
    }

    // The configuration is reached by these choices, which print these bytes: the vertex to which its silent steps, and those of
    // one process by itself, lead is found, from now on at the latest.
    fn reach(
        &mut self,
        choices: Vec<Choice>,
        bytes: Vec<u8>,
        state: State,
    ) -> Result<Extent, AllocError>
        ensures grows { OnOk result (length self.old.found.items ≤ length self.new.found.items) }
        ensures limit { OnOk result (self.new.limit ≡ self.old.limit) }
        ensures few { OnOk result (length self.old.found.items ≤ self.old.limit → length self.new.found.items ≤ self.old.limit) }
        ensures limited { IfOk result (λ extent. extent ≡ Limit → self.old.limit ≤ length self.new.found.items) }
        ensures goes { IfOk result (λ extent. (p : Process) → IsSearch p (vertices self.old.found.items) self.old.traps.items
            → IsConfiguration (configuration_of state)
            → IsReachedByChoices p (vertex (map place_of choices.items) bytes.items (configuration_of state))
            → Goes p self.old self.new extent (IsFoundSettled (vertices self.new.found.items) bytes.items (reading (configuration_of state)))) }
        ensures first { OnOk result (self.old.found.items ≡ [] → IsConfiguration (configuration_of state)
            → BeginsAt (vertices self.new.found.items) bytes.items (configuration_of state)) }
    {
        let mut choices = choices;
        let mut state = state;
        if !state.settle(&mut choices)? {
            return Ok(Extent::NoRoom);
        }
        let names = guess_names(self.alloc, &state.entries, state.channels)?;
        let key = key_with(&names, &bytes);
        if self.has(key, &bytes, &state, &names)? {
            return Ok(Extent::All);
        }
        if self.found.len() >= self.limit {
            return Ok(Extent::Limit);
        }
        self.add(key, choices, bytes, state, names)?;
        Ok(Extent::All)
    }

    // The step of a choice led from a vertex to this configuration, and showed this label.
    fn go_on(
        &mut self,
        number: usize,
        choice: Choice,
        label: &Label,
        state: State,
    ) -> Result<Extent, AllocError>
        requires { number < length self.old.found.items }
        ensures grows { OnOk result (length self.old.found.items ≤ length self.new.found.items) }
        ensures limit { OnOk result (self.new.limit ≡ self.old.limit) }
        ensures few { OnOk result (length self.old.found.items ≤ self.old.limit → length self.new.found.items ≤ self.old.limit) }
        ensures limited { IfOk result (λ extent. extent ≡ Limit → self.old.limit ≤ length self.new.found.items) }
        ensures goes { IfOk result (λ extent. (p : Process) → IsClosed p → IsSearch p (vertices self.old.found.items) self.old.traps.items
            → IsStepFrom (vertices self.old.found.items) number (place_of choice) (configuration_of state) (plain_label label.now)
            → Goes p self.old self.new extent (IsFoundBy self.old self.new number (plain_label label.now) (configuration_of state))) }
    {
        let from = &self.found[number];
        let choices = choices_with(self.alloc, &from.choices, choice)?;
        let bytes = bytes_with(self.alloc, &from.bytes, label)?;
        self.reach(choices, bytes, state)
    }

    // Takes the step of a vertex at a place, where it has this place.
    fn try_at(&mut self, number: usize, choice: Choice) -> Result<Extent, AllocError>
        requires { number < length self.old.found.items }
        ensures grows { OnOk result (length self.old.found.items ≤ length self.new.found.items) }
        ensures limit { OnOk result (self.new.limit ≡ self.old.limit) }
        ensures few { OnOk result (length self.old.found.items ≤ self.old.limit → length self.new.found.items ≤ self.old.limit) }
        ensures limited { IfOk result (λ extent. extent ≡ Limit → self.old.limit ≤ length self.new.found.items) }
        ensures goes { IfOk result (λ extent. (p : Process) → IsClosed p → IsSearch p (vertices self.old.found.items) self.old.traps.items
            → IsThere (vertices self.old.found.items) number (place_of choice)
            → Goes p self.old self.new extent (IsTried self.new number (place_of choice))) }
    {
        let mut state = self.found[number].state.copy()?;
        if !state.has_room() {
            return Ok(Extent::NoRoom);
        }
        let outcome = state.step_at(choice)?;
        match outcome {
            StepOutcome::Steps(label) => self.go_on(number, choice, &label, state),
            StepOutcome::Traps(at) => {
                self.traps.push(Trap {
                    vertex: number,
                    choice,
                    at,
                })?;
                Ok(Extent::All)
            }
            StepOutcome::Wrong => Ok(Extent::All),
            StepOutcome::Finished => Ok(Extent::All),
        }
    }

    // Takes the steps of a vertex with one ready process, with each of its partners.
    fn expand_at(&mut self, number: usize, ready: usize) -> Result<Extent, AllocError>
        requires { number < length self.old.found.items }
        ensures grows { OnOk result (length self.old.found.items ≤ length self.new.found.items) }
        ensures limit { OnOk result (self.new.limit ≡ self.old.limit) }
        ensures few { OnOk result (length self.old.found.items ≤ self.old.limit → length self.new.found.items ≤ self.old.limit) }
        ensures limited { IfOk result (λ extent. extent ≡ Limit → self.old.limit ≤ length self.new.found.items) }
        ensures goes { IfOk result (λ extent. (p : Process) → IsClosed p → IsSearch p (vertices self.old.found.items) self.old.traps.items
            → IsReadyAt (vertices self.old.found.items) number ready
            → Goes p self.old self.new extent (AreTried self.new number ready)) }
    {
        let partners = self.found[number].state.partner_count(ready);
        for partner in 0..partners.max(1) {
            match self.try_at(number, Choice { ready, partner })? {
                Extent::All => {}
                extent => return Ok(extent),
            }
        }
        Ok(Extent::All)
    }

    // Takes all steps of a vertex.
    fn expand(&mut self, number: usize) -> Result<Extent, AllocError>
        requires { number < length self.old.found.items }
        ensures grows { OnOk result (length self.old.found.items ≤ length self.new.found.items) }
        ensures limit { OnOk result (self.new.limit ≡ self.old.limit) }
        ensures few { OnOk result (length self.old.found.items ≤ self.old.limit → length self.new.found.items ≤ self.old.limit) }
        ensures limited { IfOk result (λ extent. extent ≡ Limit → self.old.limit ≤ length self.new.found.items) }
        ensures goes { IfOk result (λ extent. (p : Process) → IsClosed p → IsSearch p (vertices self.old.found.items) self.old.traps.items
            → Goes p self.old self.new extent (IsExpanded self.new number)) }
    {
        let count = self.found[number].state.ready_count();
        for ready in 0..count {
            match self.expand_at(number, ready)? {
                Extent::All => {}
                extent => return Ok(extent),
            }
        }
        Ok(Extent::All)
    }

    // Takes all steps of each vertex, until no more are found.
    fn run(&mut self) -> Result<Extent, AllocError>
        ensures limit { OnOk result (self.new.limit ≡ self.old.limit) }
        ensures few { OnOk result (length self.old.found.items ≤ self.old.limit → length self.new.found.items ≤ self.old.limit) }
        ensures limited { IfOk result (λ extent. extent ≡ Limit → self.old.limit ≤ length self.new.found.items) }
        ensures goes { IfOk result (λ extent. (p : Process) → IsClosed p → IsSearch p (vertices self.old.found.items) self.old.traps.items
            → Goes p self.old self.new extent (AreExpanded self.new)) }
    {
        for number in 0..usize::MAX {
            if number >= self.found.len() {
                return Ok(Extent::All);
            }
            match self.expand(number)? {
                Extent::All => {}
                extent => return Ok(extent),
            }
        }
        Ok(Extent::Limit)
    }

    // From the opening configuration.
    fn begin(&mut self, process: Core) -> Result<Extent, AllocError>
        ensures limit { OnOk result (self.new.limit ≡ self.old.limit) }
        ensures few { OnOk result (length self.old.found.items ≤ self.old.limit → length self.new.found.items ≤ self.old.limit) }
        ensures limited { IfOk result (λ extent. extent ≡ Limit → self.old.limit ≤ length self.new.found.items) }
        ensures goes { IfOk result (λ extent. IsClosed (plain_core process)
            → IsSearch (plain_core process) (vertices self.old.found.items) self.old.traps.items
            → Goes (plain_core process) self.old self.new extent (IsOpened (plain_core process) self.new)) }
        ensures first { OnOk result (IsClosed (plain_core process) → self.old.found.items ≡ []
            → BeginsAt (vertices self.new.found.items) [] (opening (plain_core process))) }
    {
        let state = State::open(self.alloc, process)?;
        self.reach(Vec::new(self.alloc), Vec::new(self.alloc), state)
    }

    fn explore(&mut self, process: Core) -> Result<Extent, AllocError>
        ensures limit { OnOk result (self.new.limit ≡ self.old.limit) }
        ensures few { OnOk result (length self.old.found.items ≤ self.old.limit → length self.new.found.items ≤ self.old.limit) }
        ensures limited { IfOk result (λ extent. extent ≡ Limit → self.old.limit ≤ length self.new.found.items) }
        ensures goes { IfOk result (λ extent. IsClosed (plain_core process)
            → IsSearch (plain_core process) (vertices self.old.found.items) self.old.traps.items
            → Goes (plain_core process) self.old self.new extent (IsWhole (plain_core process) self.new)) }
        ensures first { OnOk result (IsClosed (plain_core process)
            → IsSearch (plain_core process) (vertices self.old.found.items) self.old.traps.items → self.old.found.items ≡ []
            → BeginsAt (vertices self.new.found.items) [] (opening (plain_core process))) }
    {
        match self.begin(process)? {
            Extent::All => self.run(),
            extent => Ok(extent),
        }
    }
}

/// Searches for all that a closed process can do, in any order of steps. From each vertex that is found the steps of all ready
/// processes, with each of their partners, are taken, and after each of them all silent steps, and all conditionals and outputs
/// to primitives that answer and print nothing: these commute with all other steps. What they lead to is a vertex, unless one
/// with the same bytes is found that is seen to be congruent; the first one is what the opening configuration settles to. The
/// search ends early where more vertices than `limit` would be found, and then it has found as many; or where some choices lead to a
/// configuration whose count of channels wouldn't fit 32 bits with one more, or its next stamp 64 bits with two more. The only error is
/// want of memory.
pub fn explore(alloc: Global, process: Core, limit: usize) -> Result<Exploration, AllocError>
    requires closed { IsClosed (plain_core process) }
    ensures found { IfOk result (λ e. IsSearch (plain_core process) (vertices e.found.items) e.traps.items) }
    ensures first { IfOk result (λ e. BeginsAt (vertices e.found.items) [] (opening (plain_core process))) }
    ensures all { IfOk result (λ e. e.extent ≡ All → Explores (plain_core process) (vertices e.found.items)) }
    ensures few { IfOk result (λ e. length e.found.items ≤ limit) }
    ensures limited { IfOk result (λ e. e.extent ≡ Limit → limit ≤ length e.found.items) }
    ensures full { IfOk result (λ e. e.extent ≡ NoRoom → ComesToFull (plain_core process)) }
    ensures traps { IfOk result (λ e. e.extent ≡ All → ListsTraps (vertices e.found.items) e.traps.items) }
{
    let mut search = Search {
        found: Vec::new(alloc),
        traps: Vec::new(alloc),
        limit,
        latest: HashMap::new(alloc),
        alloc,
    };
    let extent = search.explore(process)?;
    let Search {
        found,
        traps,
        limit: _limit,
        latest: _latest,
        alloc: _alloc,
    } = search;
    Ok(Exploration {
        found,
        traps,
        extent,
    })
}
