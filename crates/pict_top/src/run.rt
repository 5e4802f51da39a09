// The run of a core process of which what its steps show is written on a sink.
ghost use Rattle.std.specs.Prelude.{◌≡◌, ◌≤◌, ◌<◌, ◌+◌, ◌^◌, IfOk, OnErr, Err};
ghost use Rattle.pict_outside.specs.Counts.{Rose};
ghost use Rattle.pict_core.specs.Configuration.{Configuration, IsConfiguration};
ghost use Rattle.pict_core.specs.Plain.{plain_core};
ghost use Rattle.pict_core.specs.Closed.{IsClosed};
ghost use Rattle.pict_view.specs.View.{StandsFor};
ghost use Rattle.pict_machine.specs.Machine.{IsMachine, view_of, channels_of};
ghost use Rattle.pict_machine.specs.Events.{end_of};
ghost use Rattle.pict_view.specs.Right.{IsRightFor, RunsRight};
ghost use Rattle.pict_view.specs.Watching.{Ran, BrokeOff, Saw, SawOrTore};
ghost use Rattle.pict_top.specs.Changes.{change_of, GainedFront, FailedWithin};
ghost use Rattle.pict_top.specs.Answer.{Shows};
ghost use Rattle.pict_top.specs.Printed.{form_of, shown_in, written_after, WrittenInPart, Finished, Somehow};

use crate::form::Form;
use crate::printer::Printer;
use pict_core::Core;
use pict_machine::{End, Machine, RunError};
use pict_outside::Sink;
use pict_syntax::{FUEL_LIMIT, Names};
use std::alloc::{AllocError, Global};

/// Runs a process for up to `fuel` steps, none of which may be wrong, and writes what they show, in this form, by these names.
/// On an error a beginning of what the run shows was written; `Sink` comes only where the sink's count of faults rose.
pub fn run_core<O: Sink>(
    alloc: Global,
    form: Form,
    names: &Names,
    core: Core,
    fuel: u64,
    out: &mut O,
) -> Result<End, RunError>
    requires closed { IsClosed (plain_core core) }
    requires fuel { fuel ≤ FUEL_LIMIT }
    requires right { RunsRight (plain_core core) fuel }
    ensures ran { IfOk result (λ end.
        Finished (Shows (plain_core core) fuel (shown_in form names.now)) end (change_of O.taken O.faults out.old out.new)) }
    ensures sink { result ≡ Err RunError.Sink → Somehow (Shows (plain_core core) fuel (shown_in form names.now))
        (FailedWithin (change_of O.taken O.faults out.old out.new)) }
    ensures memory { result ≡ Err RunError.Memory → Somehow (Shows (plain_core core) fuel (shown_in form names.now))
        (GainedFront (change_of O.taken O.faults out.old out.new)) }
    ensures faults_stay { O.faults out.old ≤ O.faults out.new }
{
    let mut machine = match Machine::load_core(alloc, core) {
        Ok(machine) => machine,
        Err(AllocError) => return Err(RunError::Memory),
    };
    watch(alloc, form, names, &mut machine, fuel, out)
}

/// Runs a machine, and writes what its steps show.
fn watch<O: Sink>(
    alloc: Global,
    form: Form,
    names: &Names,
    machine: &mut Machine,
    fuel: u64,
    out: &mut O,
) -> Result<End, RunError>
    requires kept { IsMachine machine.old }
    requires fuel { fuel ≤ FUEL_LIMIT }
    requires few { channels_of machine.old + fuel < 2 ^ 32 }
    requires right { IsRightFor (view_of machine.old) fuel }
    ensures end { IfOk result (λ end. (C : Configuration) → IsConfiguration C → StandsFor (view_of machine.old) C
        → Ran C fuel (end_of end) (view_of machine.new)
        (Saw (written_after (form_of form names.now)) (O.taken out.old) (O.taken out.new))) }
    ensures broken { OnErr result ((C : Configuration) → IsConfiguration C → StandsFor (view_of machine.old) C
        → BrokeOff C fuel (StandsFor (view_of machine.new))
        (SawOrTore (written_after (form_of form names.now)) (WrittenInPart (form_of form names.now)) (O.taken out.old) (O.taken out.new))) }
    ensures sink { result ≡ Err RunError.Sink → Rose (O.faults out.old) (O.faults out.new) }
    ensures faults_stay { O.faults out.old ≤ O.faults out.new }
{
    let mut printer = Printer {
        alloc,
        form,
        names,
        out,
    };
    machine.run(fuel, &mut printer)
}
