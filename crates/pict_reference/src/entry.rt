// Processes at their stamps.

ghost use Rattle.std.specs.Prelude.{◌≡◌, map, option_map, IfOk};
ghost use Rattle.pict_core.specs.Plain.{plain_core, plain_val};
ghost use Rattle.pict_core.specs.Step.{is_channel as is_plain_channel, reads as reads_plain, sends as sends_plain, is_ready, is_parked_reader, is_parked_message, least, with_process as with_plain_process};
ghost use Rattle.pict_reference.specs.Plain.{plain_entry};

use pict_core::{Core, CoreVal};
use std::alloc::{AllocError, Global};

/// A process at its stamp, ready or parked.
#[derive(Drop)]
pub struct Entry {
    /// The stamp. No other entry of the configuration has it.
    pub stamp: u64,
    /// Whether the process may act; else it waits at a channel for a partner.
    pub ready: bool,
    /// The process.
    pub process: Core,
}

impl Entry {
    /// The same entry once more. The only error is want of memory.
    pub fn copy(&self, alloc: Global) -> Result<Entry, AllocError>
        ensures { IfOk result (λ e. plain_entry e ≡ plain_entry self.now) }
    {
        Ok(Entry {
            stamp: self.stamp,
            ready: self.ready,
            process: self.process.copy(alloc)?,
        })
    }
}

fn is_channel(c: u32, value: &CoreVal) -> bool
    ensures { result ≡ is_plain_channel c (plain_val value.now) }
{
    match value {
        CoreVal::Chan(number) => c == *number,
        _ => false,
    }
}

fn reads(c: u32, process: &Core) -> bool
    ensures { result ≡ reads_plain c (plain_core process.now) }
{
    match process {
        Core::In { chan, .. } => is_channel(c, chan),
        _ => false,
    }
}

fn sends(c: u32, process: &Core) -> bool
    ensures { result ≡ sends_plain c (plain_core process.now) }
{
    match process {
        Core::Out { chan, .. } => is_channel(c, chan),
        _ => false,
    }
}

// The entry, with the process if it has the stamp.
fn changed(alloc: Global, s: u64, process: &Core, entry: &Entry) -> Result<Entry, AllocError>
    ensures { IfOk result (λ e. plain_entry e ≡ with_plain_process s (plain_core process.now) (plain_entry entry.now)) }
{
    if s == entry.stamp {
        Ok(Entry {
            stamp: entry.stamp,
            ready: entry.ready,
            process: process.copy(alloc)?,
        })
    } else {
        Ok(Entry {
            stamp: entry.stamp,
            ready: entry.ready,
            process: entry.process.copy(alloc)?,
        })
    }
}

// The entries, with the process at the stamp.
pub fn with_process(
    alloc: Global,
    s: u64,
    process: &Core,
    entries: &[Entry],
) -> Result<Vec<Entry>, AllocError>
    ensures { IfOk result (λ v. map plain_entry v.items ≡ map (with_plain_process s (plain_core process.now)) (map plain_entry entries.now)) }
{
    let mut made = Vec::new(alloc);
    for entry in entries {
        made.push(changed(alloc, s, process, entry)?)?;
    }
    Ok(made)
}

/// The ready entry of the least stamp, of entries by rising stamps.
pub fn oldest_ready(entries: &[Entry]) -> Option<&Entry>
    ensures { option_map (λ e. plain_entry e.now) result ≡ least is_ready (map plain_entry entries.now) }
{
    for entry in entries {
        if entry.ready {
            return Some(entry);
        }
    }
    None
}

/// The reader that has been parked longest at the channel, of entries by rising stamps.
pub fn oldest_reader(c: u32, entries: &[Entry]) -> Option<&Entry>
    ensures { option_map (λ e. plain_entry e.now) result ≡ least (is_parked_reader c) (map plain_entry entries.now) }
{
    for entry in entries {
        if !entry.ready && reads(c, &entry.process) {
            return Some(entry);
        }
    }
    None
}

/// The message that has been parked longest at the channel, of entries by rising stamps.
pub fn oldest_message(c: u32, entries: &[Entry]) -> Option<&Entry>
    ensures { option_map (λ e. plain_entry e.now) result ≡ least (is_parked_message c) (map plain_entry entries.now) }
{
    for entry in entries {
        if !entry.ready && sends(c, &entry.process) {
            return Some(entry);
        }
    }
    None
}
