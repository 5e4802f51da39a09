// The outcomes of a program: what it has printed, and who waits where nothing is ready, or where it divides by zero.

use crate::waiting::is_server;
use indexmap::IndexSet;
use pict_orders::{Exploration, Found};
use pict_shared::{Held, Shaped};
use pict_show::{write_decimal, write_quoted};
use pict_syntax::Span;
use std::alloc::{AllocError, Global};

/// An outcome: the number of a vertex, and where it divides by zero; else nothing is ready there.
#[derive(Clone, Copy, Debug)]
pub struct Outcome {
    /// The number of the vertex.
    pub vertex: usize,
    /// The place of the division.
    pub trap: Option<Span>,
}

// A process that waits: a number for its form, whatever its channels are, and its place.
#[derive(Clone, Copy, PartialEq, Eq, PartialOrd, Ord, Debug)]
struct Form {
    shape: u64,
    index: usize,
}

// Numbers for channels, in the order in which they are asked for; 0 stands for none yet.
#[derive(Drop)]
struct Numbers {
    of: Vec<u64>,
    last: u64,
}

impl Numbers {
    fn new(alloc: Global, channels: u32) -> Result<Numbers, AllocError> {
        let mut of = Vec::new(alloc);
        for _ in 0..channels {
            of.push(0)?;
        }
        Ok(Numbers { of, last: 0 })
    }

    fn number(&mut self, channel: u32) -> u64 {
        let index = channel as usize;
        if index >= self.of.len() {
            return 0;
        }
        if self.of[index] == 0 {
            self.last = self.last.saturating_add(1);
            self.of[index] = self.last;
        }
        self.of[index]
    }
}

// Those who wait, but for servers, by their forms.
fn forms(alloc: Global, entries: &[Held]) -> Result<Vec<Form>, AllocError> {
    let mut made = Vec::new(alloc);
    for (index, entry) in entries.iter().enumerate() {
        if !is_server(&entry.process.core) {
            made.push(Form {
                shape: entry.process.shape,
                index,
            })?;
        }
    }
    made.sort()?;
    Ok(made)
}

// Writes the form of a process, and its channels by these numbers.
fn write_form(
    key: &mut Vec<u8>,
    numbers: &mut Numbers,
    process: &Shaped,
) -> Result<(), AllocError> {
    write_decimal(key, process.shape)?;
    for channel in &process.channels {
        key.push(b'.')?;
        write_decimal(key, numbers.number(*channel))?;
    }
    key.push(b' ')?;
    Ok(())
}

// The same bytes for vertices of one outcome: what is printed, and who waits, up to the names of channels.
fn end_key(alloc: Global, found: &Found) -> Result<Vec<u8>, AllocError> {
    let mut key = Vec::new(alloc);
    write_quoted(&mut key, b'"', &found.bytes)?;
    let entries = found.state.entries();
    let mut numbers = Numbers::new(alloc, found.state.channels())?;
    for form in &forms(alloc, entries)? {
        if let Some(entry) = entries.get(form.index) {
            write_form(&mut key, &mut numbers, &entry.process)?;
        }
    }
    Ok(key)
}

// The same of vertices that divide by zero: what is printed, and where that is.
fn trap_key(alloc: Global, found: &Found, at: Span) -> Result<Vec<u8>, AllocError> {
    let mut key = Vec::new(alloc);
    write_quoted(&mut key, b'"', &found.bytes)?;
    key.extend_from_slice(b"/")?;
    write_decimal(&mut key, u64::from(at.text))?;
    key.push(b':')?;
    write_decimal(&mut key, u64::from(at.start))?;
    Ok(key)
}

/// The outcomes that are found, each by the first vertex that has it: first those that end, then those that divide by zero. The
/// only error is want of memory.
pub fn outcomes(alloc: Global, exploration: &Exploration) -> Result<Vec<Outcome>, AllocError> {
    let mut all = Vec::new(alloc);
    let mut keys: IndexSet<Vec<u8>> = IndexSet::new(alloc);
    for (vertex, found) in exploration.found.iter().enumerate() {
        if found.state.ready_count() == 0 {
            let (_, is_new) = keys.insert_full(end_key(alloc, found)?)?;
            if is_new {
                all.push(Outcome { vertex, trap: None })?;
            }
        }
    }
    for trap in &exploration.traps {
        if let Some(found) = exploration.found.get(trap.vertex) {
            let (_, is_new) = keys.insert_full(trap_key(alloc, found, trap.at)?)?;
            if is_new {
                all.push(Outcome {
                    vertex: trap.vertex,
                    trap: Some(trap.at),
                })?;
            }
        }
    }
    Ok(all)
}

/// The vertex of the outcome of this number, from 1 on, of these outcomes of an exploration; none where there is no such outcome.
pub fn vertex_of<'a>(
    exploration: &'a Exploration,
    all: &[Outcome],
    number: usize,
) -> Option<&'a Found> {
    if number == 0 {
        return None;
    }
    match all.get(number - 1) {
        None => None,
        Some(outcome) => exploration.found.get(outcome.vertex),
    }
}
