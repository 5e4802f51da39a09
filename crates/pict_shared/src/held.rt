// Processes at their stamps.

ghost use Rattle.std.specs.Prelude.{◌≡◌, map, IfOk};
ghost use Rattle.pict_core.specs.Plain.{plain_core, plain_val};
ghost use Rattle.pict_core.specs.Step.{is_channel, reads as reads_plain, sends as sends_plain, at_channel, is_partner as is_plain_partner, is_parked_reader, is_parked_message, with_process as with_plain_process};
ghost use Rattle.pict_shared.specs.Plain.{plain_held};

use crate::shaped::Shaped;
use pict_core::{Core, CoreVal};
use std::alloc::{AllocError, Global};
use std::rc::Rc;

/// A process at its stamp, ready or parked. Configurations share the processes that are the same in them.
#[derive(Drop)]
pub struct Held {
    /// The stamp. No other process of the configuration has it.
    pub stamp: u64,
    /// Whether the process may act; else it waits at a channel for a partner.
    pub ready: bool,
    /// The process.
    pub process: Rc<Shaped>,
}

impl Held {
    /// The same once more. The only error is want of memory.
    pub fn copy(&self) -> Result<Held, AllocError>
        ensures { IfOk result (λ h. plain_held h ≡ plain_held self.now) }
    {
        Ok(Held {
            stamp: self.stamp,
            ready: self.ready,
            process: self.process.clone()?,
        })
    }
}

fn is_at(c: u32, value: &CoreVal) -> bool
    ensures { result ≡ is_channel c (plain_val value.now) }
{
    match value {
        CoreVal::Chan(number) => c == *number,
        _ => false,
    }
}

fn reads(c: u32, process: &Core) -> bool
    ensures { result ≡ reads_plain c (plain_core process.now) }
{
    match process {
        Core::In { chan, .. } => is_at(c, chan),
        _ => false,
    }
}

fn sends(c: u32, process: &Core) -> bool
    ensures { result ≡ sends_plain c (plain_core process.now) }
{
    match process {
        Core::Out { chan, .. } => is_at(c, chan),
        _ => false,
    }
}

fn reads_there(chan: &CoreVal, other: &Held) -> bool
    ensures { result ≡ at_channel is_parked_reader (plain_val chan.now) (plain_held other.now) }
{
    match chan {
        CoreVal::Chan(c) => !other.ready && reads(*c, &other.process.core),
        _ => false,
    }
}

fn sends_there(chan: &CoreVal, other: &Held) -> bool
    ensures { result ≡ at_channel is_parked_message (plain_val chan.now) (plain_held other.now) }
{
    match chan {
        CoreVal::Chan(c) => !other.ready && sends(*c, &other.process.core),
        _ => false,
    }
}

/// Whether the other is parked and a partner of the process.
pub fn is_partner(process: &Core, other: &Held) -> bool
    ensures { result ≡ is_plain_partner (plain_core process.now) (plain_held other.now) }
{
    match process {
        Core::Out { chan, .. } => reads_there(chan, other),
        Core::In { chan, .. } => sends_there(chan, other),
        Core::Zero => false,
        Core::Par(_, _) => false,
        Core::New(_) => false,
        Core::If { .. } => false,
    }
}

/// The same once more, all of them. The only error is want of memory.
pub fn copy_all(alloc: Global, entries: &[Held]) -> Result<Vec<Held>, AllocError>
    ensures { IfOk result (λ v. map plain_held v.items ≡ map plain_held entries.now) }
{
    let mut made = Vec::new(alloc);
    for entry in entries {
        made.push(entry.copy()?)?;
    }
    Ok(made)
}

// The entry, with the process if it has the stamp.
fn changed(s: u64, process: &Rc<Shaped>, entry: &Held) -> Result<Held, AllocError>
    ensures { IfOk result (λ e. plain_held e ≡ with_plain_process s (plain_core process.now.value.core) (plain_held entry.now)) }
{
    if s == entry.stamp {
        Ok(Held {
            stamp: entry.stamp,
            ready: entry.ready,
            process: process.clone()?,
        })
    } else {
        Ok(Held {
            stamp: entry.stamp,
            ready: entry.ready,
            process: entry.process.clone()?,
        })
    }
}

/// The entries, with the process at the stamp. The only error is want of memory.
pub fn with_process(
    alloc: Global,
    s: u64,
    process: &Rc<Shaped>,
    entries: &[Held],
) -> Result<Vec<Held>, AllocError>
    ensures { IfOk result (λ v. map plain_held v.items
        ≡ map (with_plain_process s (plain_core process.now.value.core)) (map plain_held entries.now)) }
{
    let mut made = Vec::new(alloc);
    for entry in entries {
        made.push(changed(s, process, entry)?)?;
    }
    Ok(made)
}
