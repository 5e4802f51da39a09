// The graph of what is found: the reductions between vertices.

use pict_orders::{Choice, Exploration, Found, State};
use pict_reference::{Label, StepOutcome};
use pict_shared::{Guess, are_inverse, are_rearranged, guess_names, mix, names_between};
use std::alloc::{AllocError, Global};
use std::collections::HashMap;

/// A reduction: the numbers of the vertices between which it leads, and what it shows.
#[derive(Drop)]
pub struct Edge {
    /// Where it begins.
    pub from: usize,
    /// Where it leads.
    pub to: usize,
    /// The choice that it makes.
    pub choice: Choice,
    /// What it shows.
    pub label: Label,
}

/// What is found, and the reductions between the vertices.
#[derive(Clone, Copy)]
pub struct Graph<'a> {
    /// What is found.
    pub exploration: &'a Exploration,
    /// The reductions, by the numbers of the vertices from which they lead.
    pub edges: &'a [Edge],
}

// The vertices by numbers that are the same for vertices alike.
#[derive(Drop)]
struct Index {
    guesses: Vec<Guess>,
    // The vertex before each with the same number.
    before: Vec<Option<usize>>,
    latest: HashMap<u64, usize>,
}

fn key_with(guess: &Guess, bytes: &[u8]) -> u64 {
    let mut key = guess.key;
    for byte in bytes {
        key = mix(key, u64::from(*byte));
    }
    key
}

fn index_of(alloc: Global, all: &[Found]) -> Result<Index, AllocError> {
    let mut index = Index {
        guesses: Vec::new(alloc),
        before: Vec::new(alloc),
        latest: HashMap::new(alloc),
    };
    for (number, found) in all.iter().enumerate() {
        let guess = guess_names(alloc, found.state.entries(), found.state.channels())?;
        let before = index.latest.insert(key_with(&guess, &found.bytes), number)?;
        index.guesses.push(guess)?;
        index.before.push(before)?;
    }
    Ok(index)
}

// Whether a vertex has these bytes and this configuration, up to the names of channels and order.
fn is_like(
    alloc: Global,
    found: &Found,
    own: &Guess,
    bytes: &[u8],
    state: &State,
    guess: &Guess,
) -> Result<bool, AllocError> {
    if found.bytes.as_slice() != bytes || found.state.channels() != state.channels() {
        return Ok(false);
    }
    let names = names_between(alloc, own, guess)?;
    let back = names_between(alloc, guess, own)?;
    if !are_inverse(&names, &back) {
        return Ok(false);
    }
    are_rearranged(alloc, &names, found.state.entries(), state.entries())
}

// The number of the vertex with these bytes and this configuration.
fn number_of(
    alloc: Global,
    all: &[Found],
    index: &Index,
    bytes: &[u8],
    state: &State,
) -> Result<Option<usize>, AllocError> {
    let guess = guess_names(alloc, state.entries(), state.channels())?;
    let mut next = match index.latest.get(&key_with(&guess, bytes)) {
        None => None,
        Some(number) => Some(*number),
    };
    for _ in 0..all.len() {
        let number = match next {
            None => return Ok(None),
            Some(number) => number,
        };
        if let (Some(found), Some(own)) = (all.get(number), index.guesses.get(number)) {
            if is_like(alloc, found, own, bytes, state, &guess)? {
                return Ok(Some(number));
            }
        }
        next = match index.before.get(number) {
            None => None,
            Some(before) => *before,
        };
    }
    Ok(None)
}

// The bytes with those that the label prints behind them.
fn bytes_with(alloc: Global, bytes: &[u8], label: &Label) -> Result<Vec<u8>, AllocError> {
    let mut made = Vec::from_slice(alloc, bytes)?;
    if let Label::Print(more) = label {
        made.extend_from_slice(more.slice())?;
    }
    Ok(made)
}

// Adds the reduction of a vertex at a place, if there is one and its end is found.
fn add_edge(
    alloc: Global,
    edges: &mut Vec<Edge>,
    all: &[Found],
    index: &Index,
    from: usize,
    choice: Choice,
) -> Result<(), AllocError> {
    let Some(found) = all.get(from) else {
        return Ok(());
    };
    let mut state = found.state.copy()?;
    if !state.has_room() {
        return Ok(());
    }
    if let StepOutcome::Steps(label) = state.step_at(choice)? {
        let mut silent = Vec::new(alloc);
        if state.settle(&mut silent)? {
            let bytes = bytes_with(alloc, &found.bytes, &label)?;
            if let Some(to) = number_of(alloc, all, index, &bytes, &state)? {
                edges.push(Edge {
                    from,
                    to,
                    choice,
                    label,
                })?;
            }
        }
    }
    Ok(())
}

/// The reductions between the vertices that are found. The only error is want of memory.
pub fn edges(alloc: Global, exploration: &Exploration) -> Result<Vec<Edge>, AllocError> {
    let index = index_of(alloc, &exploration.found)?;
    let mut edges = Vec::new(alloc);
    for (from, found) in exploration.found.iter().enumerate() {
        for ready in 0..found.state.ready_count() {
            for partner in 0..found.state.partner_count(ready).max(1) {
                let choice = Choice { ready, partner };
                add_edge(alloc, &mut edges, &exploration.found, &index, from, choice)?;
            }
        }
    }
    Ok(edges)
}
