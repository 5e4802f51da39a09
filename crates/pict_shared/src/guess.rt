// A guess at names of channels that configurations alike agree on, and a number to look configurations up by.
//
// Nothing is promised of it: what is merged is decided by the comparison alone, and a poor guess gives more vertices.

use crate::held::Held;
use crate::shaped::{Shaped, mix};
use std::alloc::{AllocError, Global};

/// Names for the channels of a configuration: each channel's number among them, the channel of each number, and a number to
/// look the configuration up by.
#[derive(Drop)]
pub struct Guess {
    /// The number of each channel.
    pub numbers: Vec<u32>,
    /// The channel of each number.
    pub channels: Vec<u32>,
    /// The same for configurations whose guesses agree.
    pub key: u64,
}

/// How often colours are spread over the processes before ties are broken.
const ROUNDS: u32 = 3;

/// How many ties are broken at most.
const TIES: u32 = 24;

#[derive(Clone, Copy, PartialEq, Eq, PartialOrd, Ord, Debug)]
struct Coloured {
    colour: u64,
    channel: u32,
}

fn colour_of(colours: &[u64], channel: u32) -> u64 {
    match colours.get(channel as usize) {
        None => 0,
        Some(colour) => *colour,
    }
}

// A number for a process whose channels have these colours.
fn process_colour(process: &Shaped, colours: &[u64]) -> u64 {
    let mut mixed = process.shape;
    for channel in &process.channels {
        mixed = mix(mixed, colour_of(colours, *channel));
    }
    mixed
}

fn add_at(colours: &mut Vec<u64>, channel: u32, more: u64) {
    let index = channel as usize;
    if index < colours.len() {
        colours[index] = colours[index].wrapping_add(more);
    }
}

// Adds what the process says of each of its channels.
fn spread(process: &Shaped, colours: &[u64], next: &mut Vec<u64>) {
    let own = process_colour(process, colours);
    for i in 0..process.channels.len() {
        add_at(next, process.channels[i], mix(own, i as u64));
    }
}

// The colours after one round: each channel's own, with what all processes say of it.
fn refined(alloc: Global, entries: &[Held], colours: &[u64]) -> Result<Vec<u64>, AllocError> {
    let mut next = Vec::new(alloc);
    for colour in colours {
        next.push(mix(*colour, 1))?;
    }
    for entry in entries {
        spread(&entry.process, colours, &mut next);
    }
    Ok(next)
}

fn refined_often(
    alloc: Global,
    entries: &[Held],
    colours: Vec<u64>,
    rounds: u32,
) -> Result<Vec<u64>, AllocError> {
    let mut next = colours;
    for _ in 0..rounds {
        next = refined(alloc, entries, &next)?;
    }
    Ok(next)
}

// The channels by rising colours.
fn in_order(alloc: Global, colours: &[u64], count: u32) -> Result<Vec<Coloured>, AllocError> {
    let mut order = Vec::new(alloc);
    for channel in 0..count {
        order.push(Coloured {
            colour: colour_of(colours, channel),
            channel,
        })?;
    }
    order.sort()?;
    Ok(order)
}

// The first channel that has another one's colour and is named.
fn tied(order: &[Coloured], unnamed: u64) -> Option<u32> {
    for i in 1..order.len() {
        if order[i].colour == order[i - 1].colour && order[i].colour != unnamed {
            return Some(order[i - 1].channel);
        }
    }
    None
}

// Colours as distinct as they get.
fn split(
    alloc: Global,
    entries: &[Held],
    colours: Vec<u64>,
    count: u32,
) -> Result<Vec<Coloured>, AllocError> {
    let mut now = colours;
    let mut order = in_order(alloc, &now, count)?;
    for number in 0..TIES {
        match tied(&order, unnamed_after(number)) {
            None => return Ok(order),
            Some(channel) => {
                add_at(&mut now, channel, 0x5DEE_CE66);
                now = refined_often(alloc, entries, now, 2)?;
                order = in_order(alloc, &now, count)?;
            }
        }
    }
    Ok(order)
}

// The colour of a channel that no process names, after so many ties are broken.
fn unnamed_after(number: u32) -> u64 {
    let mut colour = 0;
    for _ in 0..ROUNDS {
        colour = mix(colour, 1);
    }
    for _ in 0..number {
        colour = mix(mix(colour, 1), 1);
    }
    colour
}

fn zeros(alloc: Global, count: u32) -> Result<Vec<u64>, AllocError> {
    let mut made = Vec::new(alloc);
    for _ in 0..count {
        made.push(0)?;
    }
    Ok(made)
}

// The number of each channel, where they stand in this order.
fn numbers_of(alloc: Global, order: &[Coloured], count: u32) -> Result<Vec<u32>, AllocError> {
    let mut numbers = Vec::new(alloc);
    for _ in 0..count {
        numbers.push(0)?;
    }
    for number in 0..count {
        if let Some(coloured) = order.get(number as usize) {
            let index = coloured.channel as usize;
            if index < numbers.len() {
                numbers[index] = number;
            }
        }
    }
    Ok(numbers)
}

fn channels_of(alloc: Global, order: &[Coloured]) -> Result<Vec<u32>, AllocError> {
    let mut channels = Vec::new(alloc);
    for coloured in order {
        channels.push(coloured.channel)?;
    }
    Ok(channels)
}

// A number for the processes, with these numbers for their channels, in any order.
fn key_of(alloc: Global, entries: &[Held], numbers: &[u32]) -> Result<u64, AllocError> {
    let mut colours = Vec::new(alloc);
    for number in numbers {
        colours.push(u64::from(*number))?;
    }
    let mut key = numbers.len() as u64;
    for entry in entries {
        key = key.wrapping_add(mix(process_colour(&entry.process, &colours), 2));
    }
    Ok(key)
}

/// A guess at the names of a configuration's channels, of which there are so many. The only error is want of memory.
pub fn guess_names(alloc: Global, entries: &[Held], count: u32) -> Result<Guess, AllocError> {
    let colours = refined_often(alloc, entries, zeros(alloc, count)?, ROUNDS)?;
    let order = split(alloc, entries, colours, count)?;
    let numbers = numbers_of(alloc, &order, count)?;
    let key = key_of(alloc, entries, &numbers)?;
    Ok(Guess {
        channels: channels_of(alloc, &order)?,
        numbers,
        key,
    })
}

/// The new names of channels that lead from one guess to another: a channel becomes the one of its number there.
/// The only error is want of memory.
pub fn names_between(alloc: Global, one: &Guess, other: &Guess) -> Result<Vec<u32>, AllocError> {
    let mut names = Vec::new(alloc);
    for number in &one.numbers {
        match other.channels.get(*number as usize) {
            None => names.push(0)?,
            Some(channel) => names.push(*channel)?,
        }
    }
    Ok(names)
}
