// A process is run, and each step is looked at before it is made.
ghost use Rattle.std.specs.Prelude.{◌≡◌, ◌≤◌, ◌<◌, ◌+◌, ◌^◌, ◌↔◌, ℕ, List, IfOk, OnOk, OnErr, Err};
ghost use Rattle.pict_outside.specs.Counts.{Rose};
ghost use Rattle.pict_core.specs.Closed.{IsClosed};
ghost use Rattle.pict_core.specs.Configuration.{Configuration, IsConfiguration, opening};
ghost use Rattle.pict_core.specs.Plain.{plain_core};
ghost use Rattle.pict_core.specs.Step.{Label};
ghost use Rattle.pict_view.specs.View.{StandsFor};
ghost use Rattle.pict_view.specs.Watching.{Saw, SawOrTore, Ran, BrokeOff};
ghost use Rattle.pict_machine.specs.Machine.{IsMachine, view_of, channels_of};
ghost use Rattle.pict_machine.specs.declared.event.RunError.TheVariants as RunError;
ghost use Rattle.pict_exec.specs.Ends.{end_of, Executed, Anywhere};
ghost use Rattle.pict_exec.specs.Room.{bound_around};

use crate::room::{FRAME_LIMIT, check_frames};
use pict_core::Core;
use pict_lower::lower;
use pict_machine::{Machine, RunError, Watcher, show};
use pict_syntax::{FUEL_LIMIT, Span};
use std::alloc::{AllocError, Global};

/// How a guarded run ends.
#[derive(Clone, Copy, PartialEq, Eq, Debug)]
pub enum ExecEnd {
    /// Nothing is ready.
    Done,
    /// As many steps as the fuel allows are done, and something is ready still.
    FuelSpent,
    /// A step divides by zero, for the output at this place.
    Trap(Span),
    /// A step is wrong, and isn't made: it sends to or receives from what is no channel, tests what is no Bool, gives a primitive
    /// what it doesn't take, or meets a value that doesn't fit a pattern.
    Misshapen,
}

/// Up to `fuel` steps of a closed process, each the oldest-first step, until nothing is ready, a step traps or a step is wrong. After
/// each step that shows something the watcher sees its event, with step numbers from 1.
///
/// The answer is the end of the process' run with this fuel: `Misshapen` exactly where a step within the fuel is wrong. The watcher's
/// view is as if it had seen exactly the labels of the steps before, in order. `Sink` and `Memory` break the run off: the view is
/// then as if the watcher had seen the labels of some steps of the run, or is one that `torn` allows for the last of them. `Sink` comes
/// only where the watcher's count of faults rose.
///
/// A process around whose parts more variables are bound than `FRAME_LIMIT`, those around each part counted, finds no memory, and is
/// refused before any is asked for.
pub fn execute<W: Watcher>(
    alloc: Global,
    core: &Core,
    fuel: u64,
    watcher: &mut W,
) -> Result<ExecEnd, RunError>
    requires closed { IsClosed (plain_core core.now) }
    requires fuel { fuel ≤ FUEL_LIMIT }
    ensures end { IfOk result (λ end. Executed (plain_core core.now) fuel (end_of end)
        (Saw (W.next watcher.old) (W.view watcher.old) (W.view watcher.new))) }
    ensures room { OnOk result (bound_around 0 (plain_core core.now) ≤ FRAME_LIMIT) }
    ensures broken { OnErr result (BrokeOff (opening (plain_core core.now)) fuel Anywhere
        (SawOrTore (W.next watcher.old) (W.torn watcher.old) (W.view watcher.old) (W.view watcher.new))) }
    ensures sink { result ≡ Err RunError.Sink → Rose (W.faults watcher.old) (W.faults watcher.new) }
    ensures faults_stay { W.faults watcher.old ≤ W.faults watcher.new }
    ensures next_stays { (v : List ℕ) (n : ℕ) (l : Label) → W.next watcher.new v n l ≡ W.next watcher.old v n l }
    ensures torn_stays { (v : List ℕ) (n : ℕ) (l : Label) (after : List ℕ) → W.torn watcher.new v n l after ↔ W.torn watcher.old v n l after }
    ensures same { W.same watcher.old watcher.new }
{
    let mut machine = load(alloc, core)?;
    go(&mut machine, fuel, watcher)
}

// The machine of a closed process whose frames have room.
fn load(alloc: Global, core: &Core) -> Result<Machine, AllocError>
    requires closed { IsClosed (plain_core core.now) }
    ensures room { OnOk result (bound_around 0 (plain_core core.now) ≤ FRAME_LIMIT) }
    ensures kept { IfOk result (λ m. IsMachine m) }
    ensures stands { IfOk result (λ m. StandsFor (view_of m) (opening (plain_core core.now))) }
    ensures is { IfOk result (λ m. IsConfiguration (opening (plain_core core.now))) }
    ensures channels { IfOk result (λ m. channels_of m ≡ 0) }
{
    check_frames(core)?;
    let code = lower(alloc, core)?;
    Machine::load(alloc, code)
}

// The same run, of what the machine stands for.
fn go<W: Watcher>(machine: &mut Machine, fuel: u64, watcher: &mut W) -> Result<ExecEnd, RunError>
    requires kept { IsMachine machine.old }
    requires few { channels_of machine.old + fuel < 2 ^ 32 }
    requires stands { (C : Configuration) × IsConfiguration C × StandsFor (view_of machine.old) C }
    ensures end { IfOk result (λ end. (C : Configuration) → IsConfiguration C → StandsFor (view_of machine.old) C
        → Ran C fuel (end_of end) (view_of machine.new) (Saw (W.next watcher.old) (W.view watcher.old) (W.view watcher.new))) }
    ensures broken { OnErr result ((C : Configuration) → IsConfiguration C → StandsFor (view_of machine.old) C
        → BrokeOff C fuel (StandsFor (view_of machine.new))
        (SawOrTore (W.next watcher.old) (W.torn watcher.old) (W.view watcher.old) (W.view watcher.new))) }
    ensures sink { result ≡ Err RunError.Sink → Rose (W.faults watcher.old) (W.faults watcher.new) }
    ensures faults_stay { W.faults watcher.old ≤ W.faults watcher.new }
    ensures next_stays { (v : List ℕ) (n : ℕ) (l : Label) → W.next watcher.new v n l ≡ W.next watcher.old v n l }
    ensures torn_stays { (v : List ℕ) (n : ℕ) (l : Label) (after : List ℕ) → W.torn watcher.new v n l after ↔ W.torn watcher.old v n l after }
    ensures same { W.same watcher.old watcher.new }
{
    let mut done = 0;
    while done < fuel {
        if !machine.ready() {
            return Ok(ExecEnd::Done);
        }
        if machine.next_is_wrong() {
            return Ok(ExecEnd::Misshapen);
        }
        let event = match machine.step() {
            Ok(event) => event,
            Err(error) => return Err(RunError::from(error)),
        };
        done += 1;
        match event.trap() {
            Some(at) => return Ok(ExecEnd::Trap(at)),
            None => {}
        }
        match show(watcher, machine.heap(), done, &event) {
            Ok(()) => {}
            Err(error) => return Err(error),
        }
    }
    if machine.ready() {
        Ok(ExecEnd::FuelSpent)
    } else {
        Ok(ExecEnd::Done)
    }
}
