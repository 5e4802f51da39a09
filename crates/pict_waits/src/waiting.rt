// The parked processes of a configuration.

ghost use Rattle.std.specs.Prelude.{◌≡◌, ◌++◌, map, OnOk, IfOk};
ghost use Rattle.std.specs.List.{list_any};
ghost use Rattle.pict_core.specs.Plain.{plain_core, plain_val};
ghost use Rattle.pict_reference.specs.Plain.{plain_entry};
ghost use Rattle.pict_waits.specs.Waiting.{at_channel, input_kind, place_of, waiting_by, waits_of, is_message, is_reader, all_wait};

use pict_core::{Core, CoreVal};
use pict_reference::Entry;
use std::alloc::{AllocError, Global};

/// What a process is that waits at a channel.
#[derive(Clone, Copy, PartialEq, Eq, Debug)]
pub enum Kind {
    /// It receives one message.
    Reader,
    /// It receives one message after the other.
    Server,
    /// It is a message.
    Message,
}

/// A process that waits at a channel.
#[derive(Clone, Copy, PartialEq, Eq, Debug)]
pub struct Waiting {
    /// Its stamp.
    pub stamp: u64,
    /// What it is.
    pub kind: Kind,
    /// The number of the channel.
    pub channel: u32,
}

// Who is this at a channel, if it is one.
fn at_channel(chan: &CoreVal, kind: Kind) -> Option<(u32, Kind)>
    ensures { result ≡ at_channel (plain_val chan.now) kind }
{
    match chan {
        CoreVal::Chan(number) => Some((*number, kind)),
        _ => None,
    }
}

fn input_kind(replicated: bool) -> Kind
    ensures { result ≡ input_kind replicated }
{
    if replicated {
        Kind::Server
    } else {
        Kind::Reader
    }
}

// The channel at which a process waits, and what it is there.
fn place_of(process: &Core) -> Option<(u32, Kind)>
    ensures { result ≡ place_of (plain_core process.now) }
{
    match process {
        Core::Out { chan, .. } => at_channel(chan, Kind::Message),
        Core::In {
            chan,
            replicated,
            ..
        } => at_channel(chan, input_kind(*replicated)),
        Core::Zero => None,
        Core::Par(_, _) => None,
        Core::New(_) => None,
        Core::If { .. } => None,
    }
}

// Adds a process, if it is parked.
fn add(waits: &mut Vec<Waiting>, entry: &Entry) -> Result<(), AllocError>
    ensures { OnOk result (waits.new.items ≡ waits.old.items ++ waiting_by (plain_entry entry.now)) }
{
    if entry.ready {
        return Ok(());
    }
    match place_of(&entry.process) {
        None => Ok(()),
        Some((channel, kind)) => {
            waits.push(Waiting {
                stamp: entry.stamp,
                kind,
                channel,
            })?;
            Ok(())
        }
    }
}

/// Those who are parked at a channel, in the order of their stamps, where the entries stand by rising stamps. The only error is want
/// of memory.
pub fn waits_among(alloc: Global, entries: &[Entry]) -> Result<Vec<Waiting>, AllocError>
    ensures { IfOk result (λ waits. waits.items ≡ waits_of (map plain_entry entries.now)) }
{
    let mut waits = Vec::new(alloc);
    for entry in entries {
        add(&mut waits, entry)?;
    }
    Ok(waits)
}

fn is_message(kind: Kind) -> bool
    ensures { result ≡ is_message kind }
{
    match kind {
        Kind::Message => true,
        Kind::Reader | Kind::Server => false,
    }
}

fn is_reader(kind: Kind) -> bool
    ensures { result ≡ is_reader kind }
{
    match kind {
        Kind::Reader => true,
        Kind::Server | Kind::Message => false,
    }
}

fn has_message(waits: &[Waiting]) -> bool
    ensures { result ≡ list_any (λ w. is_message w.kind) waits.now }
{
    for waiting in waits {
        if is_message(waiting.kind) {
            return true;
        }
    }
    false
}

fn has_reader(waits: &[Waiting]) -> bool
    ensures { result ≡ list_any (λ w. is_reader w.kind) waits.now }
{
    for waiting in waits {
        if is_reader(waiting.kind) {
            return true;
        }
    }
    false
}

/// Whether none of those who wait is a message, and one of them receives one message. Where nothing is ready that one waits for
/// ever, and no message is left for anybody.
pub fn all_wait(waits: &[Waiting]) -> bool
    ensures { result ≡ all_wait waits.now }
{
    !has_message(waits) && has_reader(waits)
}
