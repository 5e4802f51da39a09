// Who waits for whom, where nothing can act.

use pict_core::{Core, CoreVal};
use pict_shared::{Held, Shaped};
use pict_syntax::Name;
use std::alloc::{AllocError, Global};

/// One who waits: its place among the processes of the configuration, and the places of those for whom it waits.
#[derive(Drop)]
pub struct Waiter {
    /// Its place.
    pub index: usize,
    /// Those for whom it waits: other readers that may send on its channel once they have received.
    pub others: Vec<usize>,
    /// Whether it is one of a deadlock: readers each of which waits for another one of them, and another one for it.
    pub is_stuck: bool,
}

/// Whether it is a replicated input: it waits for whoever comes, and nobody misses it.
pub fn is_server(process: &Core) -> bool {
    match process {
        Core::In { replicated, .. } => *replicated,
        _ => false,
    }
}

// Whether it is an input that waits for one message.
fn is_reader(process: &Core) -> bool {
    match process {
        Core::In { replicated, .. } => !*replicated,
        _ => false,
    }
}

fn unmarked(alloc: Global, count: usize) -> Result<Vec<bool>, AllocError> {
    let mut marks = Vec::new(alloc);
    for _ in 0..count {
        marks.push(false)?;
    }
    Ok(marks)
}

fn is_marked(marks: &[bool], index: usize) -> bool {
    match marks.get(index) {
        None => false,
        Some(mark) => *mark,
    }
}

// Marks it; whether it was unmarked.
fn mark(marks: &mut Vec<bool>, index: usize) -> bool {
    if index >= marks.len() || marks[index] {
        return false;
    }
    marks[index] = true;
    true
}

// Whether the channel is marked at which the process waits, the first one that it names.
fn waits_at_marked(marks: &[bool], process: &Shaped) -> bool {
    match process.channels.first() {
        None => false,
        Some(channel) => is_marked(marks, *channel as usize),
    }
}

// Marks the channels in a value; whether one of them was unmarked.
#[cycle(mark_value)]
fn mark_value(marks: &mut Vec<bool>, value: &CoreVal) -> bool {
    match value {
        CoreVal::Chan(number) => mark(marks, *number as usize),
        CoreVal::Fields {
            positional,
            labelled,
        } => {
            let first = mark_values(marks, positional);
            let second = mark_fields(marks, labelled);
            first || second
        }
        _ => false,
    }
}

#[cycle(mark_value)]
fn mark_values(marks: &mut Vec<bool>, values: &[CoreVal]) -> bool {
    let mut is_new = false;
    for value in values {
        if mark_value(marks, value) {
            is_new = true;
        }
    }
    is_new
}

#[cycle(mark_value)]
fn mark_fields(marks: &mut Vec<bool>, fields: &[(Name, CoreVal)]) -> bool {
    let mut is_new = false;
    for field in fields {
        if mark_value(marks, &field.1) {
            is_new = true;
        }
    }
    is_new
}

// Marks the channels that outputs of a process name, as that at which they send or within what they send; whether one of them was
// unmarked.
fn mark_sent(marks: &mut Vec<bool>, process: &Core) -> bool {
    match process {
        Core::Zero => false,
        Core::Par(left, right) => {
            let first = mark_sent(marks, left.core());
            let second = mark_sent(marks, right.core());
            first || second
        }
        Core::New(body) => mark_sent(marks, body.core()),
        Core::Out { chan, message, .. } => {
            let first = mark_value(marks, chan);
            let second = mark_value(marks, message);
            first || second
        }
        Core::In { body, .. } => mark_sent(marks, body.core()),
        Core::If { yes, no, .. } => {
            let first = mark_sent(marks, yes.core());
            let second = mark_sent(marks, no.core());
            first || second
        }
    }
}

// Marks the channels that outputs of servers name at marked ones; whether one of them was unmarked.
fn mark_by_servers(marks: &mut Vec<bool>, entries: &[Held]) -> bool {
    let mut is_new = false;
    for entry in entries {
        if is_server(&entry.process.core) && waits_at_marked(marks, &entry.process) {
            if mark_sent(marks, &entry.process.core) {
                is_new = true;
            }
        }
    }
    is_new
}

// Marks the channels, of so many, on which a reader may send once it has received, or may make others send: those that its outputs
// name, those that outputs of servers name at these, and so on.
fn known(
    alloc: Global,
    entries: &[Held],
    reader: &Shaped,
    count: u32,
) -> Result<Vec<bool>, AllocError> {
    let mut marks = unmarked(alloc, count as usize)?;
    mark_sent(&mut marks, &reader.core);
    for _ in 0..entries.len() {
        if !mark_by_servers(&mut marks, entries) {
            return Ok(marks);
        }
    }
    Ok(marks)
}

// Those who wait, but for servers, each without those for whom it waits.
fn those_who_wait(alloc: Global, entries: &[Held]) -> Result<Vec<Waiter>, AllocError> {
    let mut waiters = Vec::new(alloc);
    for (index, entry) in entries.iter().enumerate() {
        if !is_server(&entry.process.core) {
            waiters.push(Waiter {
                index,
                others: Vec::new(alloc),
                is_stuck: is_reader(&entry.process.core),
            })?;
        }
    }
    Ok(waiters)
}

// Notes that those wait for the process of this place whose channel is marked.
fn note(
    waiters: &mut Vec<Waiter>,
    entries: &[Held],
    marks: &[bool],
    other: usize,
) -> Result<(), AllocError> {
    for waiter in waiters.iter_mut() {
        if waiter.index != other {
            if let Some(entry) = entries.get(waiter.index) {
                if waits_at_marked(marks, &entry.process) {
                    waiter.others.push(other)?;
                }
            }
        }
    }
    Ok(())
}

// Marks the places, of so many, of those that are stuck.
fn stuck_places(alloc: Global, waiters: &[Waiter], count: usize) -> Result<Vec<bool>, AllocError> {
    let mut marks = unmarked(alloc, count)?;
    for waiter in waiters {
        if waiter.is_stuck {
            mark(&mut marks, waiter.index);
        }
    }
    Ok(marks)
}

// Marks the places, of so many, of those for whom one that is stuck waits.
fn wanted_places(alloc: Global, waiters: &[Waiter], count: usize) -> Result<Vec<bool>, AllocError> {
    let mut marks = unmarked(alloc, count)?;
    for waiter in waiters {
        if waiter.is_stuck {
            for other in &waiter.others {
                mark(&mut marks, *other);
            }
        }
    }
    Ok(marks)
}

// Whether one of these is marked.
fn has_marked(marks: &[bool], places: &[usize]) -> bool {
    for place in places {
        if is_marked(marks, *place) {
            return true;
        }
    }
    false
}

// Leaves out those that wait for none that is stuck, or for whom none of these waits; whether there was one.
fn free_some(alloc: Global, waiters: &mut Vec<Waiter>, count: usize) -> Result<bool, AllocError> {
    let stuck = stuck_places(alloc, waiters, count)?;
    let wanted = wanted_places(alloc, waiters, count)?;
    let mut is_new = false;
    for waiter in waiters.iter_mut() {
        let stays = has_marked(&stuck, &waiter.others) && is_marked(&wanted, waiter.index);
        if waiter.is_stuck && !stays {
            waiter.is_stuck = false;
            is_new = true;
        }
    }
    Ok(is_new)
}

/// Those who wait where nothing can act, in a configuration with so many channels, by rising stamps; servers are left out. One
/// waits for a reader that may send on its channel: once that has received, one of its outputs names the channel, or names that of
/// a server of which this holds. The only error is want of memory.
pub fn waiters(alloc: Global, entries: &[Held], count: u32) -> Result<Vec<Waiter>, AllocError> {
    let mut waiters = those_who_wait(alloc, entries)?;
    for (index, entry) in entries.iter().enumerate() {
        if is_reader(&entry.process.core) {
            let marks = known(alloc, entries, &entry.process, count)?;
            note(&mut waiters, entries, &marks, index)?;
        }
    }
    for _ in 0..waiters.len() {
        if !free_some(alloc, &mut waiters, entries.len())? {
            return Ok(waiters);
        }
    }
    Ok(waiters)
}
