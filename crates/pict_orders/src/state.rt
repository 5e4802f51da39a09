// A configuration, which shares its processes with others.

ghost use Rattle.std.specs.Prelude.{◌≡◌, ◌+◌, ◌<◌, ◌^◌, false, IsTrue, IfOk, OnOk, map, if◌then◌else◌};
ghost use Rattle.pict_core.specs.Plain.{plain_core};
ghost use Rattle.pict_core.specs.Configuration.{opening, Ready, Parked};
ghost use Rattle.pict_core.specs.Step.{gone as gone_plain, kept as kept_plain, added as added_plain};
ghost use Rattle.pict_orders.specs.Plain.{configuration_of};
ghost use Rattle.pict_orders.specs.Room.{IsFull};
ghost use Rattle.pict_shared.specs.Plain.{plain_held};

use pict_core::Core;
use pict_shared::{Held, Shaped, copy_all, with_process};
use std::alloc::{AllocError, Global};
use std::rc::Rc;

/// A configuration: a number of channels, a next stamp, and processes by rising stamps. After want of memory it is to be
/// dropped.
#[derive(Drop)]
pub struct State {
    pub(crate) channels: u32,
    pub(crate) next_stamp: u64,
    pub(crate) entries: Vec<Held>,
    pub(crate) alloc: Global,
}

impl State {
    /// The opening configuration of the process. The only error is want of memory.
    pub fn open(alloc: Global, process: Core) -> Result<State, AllocError>
        ensures { IfOk result (λ s. configuration_of s ≡ opening (plain_core process)) }
    {
        let mut entries = Vec::new(alloc);
        let process = Rc::new(alloc, Shaped::of(alloc, process)?)?;
        entries.push(Held {
            stamp: 0,
            ready: true,
            process,
        })?;
        Ok(State {
            channels: 0,
            next_stamp: 1,
            entries,
            alloc,
        })
    }

    /// The same configuration once more. The only error is want of memory.
    pub fn copy(&self) -> Result<State, AllocError>
        ensures { IfOk result (λ s. configuration_of s ≡ configuration_of self.now) }
    {
        Ok(State {
            channels: self.channels,
            next_stamp: self.next_stamp,
            entries: copy_all(self.alloc, &self.entries)?,
            alloc: self.alloc,
        })
    }

    /// How many channels are made.
    pub fn channels(&self) -> u32
        ensures { result ≡ (configuration_of self.now).channels }
    {
        self.channels
    }

    /// The processes, by rising stamps.
    pub fn entries(&self) -> &[Held]
        ensures { map plain_held result.now ≡ (configuration_of self.now).entries }
    {
        &self.entries
    }

    /// Whether there are numbers left for one more channel and two more stamps.
    pub fn has_room(&self) -> bool
        ensures channels { IsTrue result → (configuration_of self.now).channels + 1 < 2 ^ 32 }
        ensures stamps { IsTrue result → (configuration_of self.now).next_stamp + 2 < 2 ^ 64 }
        ensures full { result ≡ false → IsFull (configuration_of self.now) }
    {
        self.channels < u32::MAX && self.next_stamp < u64::MAX - 1
    }

    // The process at the stamp ends.
    pub(crate) fn gone(&mut self, s: u64)
        ensures { configuration_of self.new ≡ gone_plain s (configuration_of self.old) }
    {
        self.entries.retain(|e| s != e.stamp);
    }

    // The process keeps the turn of the stamp.
    pub(crate) fn kept(&mut self, s: u64, process: Core) -> Result<(), AllocError>
        ensures { OnOk result (configuration_of self.new ≡ kept_plain s (plain_core process) (configuration_of self.old)) }
    {
        let process = Rc::new(self.alloc, Shaped::of(self.alloc, process)?)?;
        self.entries = with_process(self.alloc, s, &process, &self.entries)?;
        Ok(())
    }

    // The process gets the next stamp.
    pub(crate) fn added(&mut self, ready: bool, process: Rc<Shaped>) -> Result<(), AllocError>
        requires { self.old.next_stamp + 1 < 2 ^ 64 }
        ensures { OnOk result (configuration_of self.new
            ≡ added_plain (if ready then Ready else Parked) (plain_core process.value.core) (configuration_of self.old)) }
    {
        self.entries.push(Held {
            stamp: self.next_stamp,
            ready,
            process,
        })?;
        self.next_stamp += 1;
        Ok(())
    }

    // The same of a process that is new.
    pub(crate) fn added_new(&mut self, process: Core) -> Result<(), AllocError>
        requires { self.old.next_stamp + 1 < 2 ^ 64 }
        ensures { OnOk result (configuration_of self.new ≡ added_plain (Ready) (plain_core process) (configuration_of self.old)) }
    {
        let process = Rc::new(self.alloc, Shaped::of(self.alloc, process)?)?;
        self.added(true, process)
    }
}
