// Objects: those of accepted programs are written, and those of files are run.
ghost use Rattle.std.specs.Prelude.{◌≡◌, ◌≤◌, ◌⊎◌, Option, IfOk, OnErr, Err, length};
ghost use Rattle.pict_syntax.specs.declared.limits.TheConstants.{OBJECT_LIMIT};
ghost use Rattle.pict_core.specs.Closed.{IsClosed};
ghost use Rattle.pict_core.specs.Configuration.{opening};
ghost use Rattle.pict_core.specs.Plain.{plain_core};
ghost use Rattle.pict_outside.specs.Counts.{Rose};
ghost use Rattle.pict_outside.specs.Texts.{Texts};
ghost use Rattle.pict_front.specs.Answers.{plain_front};
ghost use Rattle.pict_gather.specs.Fetching.{text, MayGive};
ghost use Rattle.pict_object.specs.Cores.{IsObjectCore};
ghost use Rattle.pict_view.specs.Watching.{BrokeOff, Saw, SawOrTore};
ghost use Rattle.pict_exec.specs.Ends.{Anywhere, Executed, end_of};
ghost use Rattle.pict_report.specs.Reports.{AreShort};
ghost use Rattle.pict_top.specs.Changes.{change_of, FailedWithin, GainedFront};
ghost use Rattle.pict_top.specs.Guarded.{RanTo, RanSomehow};
ghost use Rattle.pict_top.specs.Meets.{Meets, RunReports};
ghost use Rattle.pict_top.specs.Origins.{MayGiveText};
ghost use Rattle.pict_top.specs.Printed.{form_of, written_after, WrittenInPart};
ghost use Rattle.pict_top.specs.declared.form.Form.TheVariants as form;
ghost use Rattle.pict_top.specs.Owed.{IsObjectFault, OwesObject, OwesRun};

use crate::form::Form;
use crate::printer::Printer;
use crate::replaying::refuse_alone;
use crate::status::Status;
use crate::top::{refuse, report_line, tell};
use pict_core::Core;
use pict_exec::{ExecEnd, execute};
use pict_front::Front;
use pict_machine::RunError;
use pict_object::{DecodeError, EncodeError, decode, encode};
use pict_outside::{Fetched, Shelf, ShelfError, Sink};
use pict_report as report;
use pict_syntax::{Code, FUEL_LIMIT, Names, OBJECT_LIMIT, Sources, Span};
use std::alloc::Global;

/// Writes the object of an accepted program, or reports that it is too big.
pub fn build_object<O: Sink, E: Sink>(
    alloc: Global,
    sources: &Sources,
    front: Front,
    out: &mut O,
    err: &mut E,
) -> Status
    requires short { AreShort sources.now.list.items }
    requires object { IsObjectCore front.names (plain_core front.core) }
    ensures meets { Meets (OwesObject sources.now.list.items (plain_front front)) (λ o. ⊥) ⊥
        (change_of O.taken O.faults out.old out.new) (change_of E.taken E.faults err.old err.new) result }
    ensures faults_stay { O.faults out.old ≤ O.faults out.new }
    ensures err_faults_stay { E.faults err.old ≤ E.faults err.new }
{
    let first_place = Span {
        text: 1,
        start: 0,
        end: 0,
    };
    match encode(alloc, &front.names, &front.core, OBJECT_LIMIT) {
        Err(EncodeError::Memory) => Status::Memory,
        Err(EncodeError::TooBig(_)) => refuse(alloc, sources, first_place, Code::O2, err),
        Ok(object) => tell(&object, Status::Done, out),
    }
}

/// Fetches the object of this name, and runs it for up to so many steps.
pub fn execute_object<S: Shelf, O: Sink, E: Sink>(
    alloc: Global,
    object: &str,
    fuel: u64,
    shelf: &mut S,
    out: &mut O,
    err: &mut E,
) -> Status
    requires fuel { fuel ≤ FUEL_LIMIT }
    ensures meets { Meets (OwesRun (MayGive (S.held shelf.old)) object.now fuel) (IsObjectFault object.now)
        (Rose (S.faults shelf.old) (S.faults shelf.new)) (change_of O.taken O.faults out.old out.new) (change_of E.taken E.faults err.old err.new) result }
    ensures each { Meets (OwesRun (MayGiveText (S.held shelf.old)) object.now fuel) (IsObjectFault object.now)
        (Rose (S.faults shelf.old) (S.faults shelf.new)) (change_of O.taken O.faults out.old out.new) (change_of E.taken E.faults err.old err.new) result
        ⊎ Rose (S.misses shelf.old) (S.misses shelf.new) }
    ensures held { S.held shelf.new ≡ S.held shelf.old }
    ensures counts { (S.faults shelf.old ≤ S.faults shelf.new) × (S.misses shelf.old ≤ S.misses shelf.new)
        × (O.faults out.old ≤ O.faults out.new) × (E.faults err.old ≤ E.faults err.new) }
{
    let name = object.as_bytes();
    match shelf.fetch(alloc, object, OBJECT_LIMIT) {
        Err(ShelfError::Memory) => Status::Memory,
        Err(ShelfError::Failed) => {
            report_line(alloc, name, ": cannot be read", Status::ReadFault, err)
        }
        Ok(Fetched::Missing) => report_line(alloc, name, ": no such file", Status::Missing, err),
        Ok(Fetched::TooLong(_)) => refuse_alone(alloc, name, Vec::new(alloc), 0, Code::O2, err),
        Ok(Fetched::Text(found)) => run_found(alloc, name, &found, fuel, out, err),
    }
}

/// Runs bytes that were found under this name, where they are an object.
fn run_found<O: Sink, E: Sink>(
    alloc: Global,
    name: &[u8],
    found: &[u8],
    fuel: u64,
    out: &mut O,
    err: &mut E,
) -> Status
    requires short { length found.now ≤ OBJECT_LIMIT }
    requires fuel { fuel ≤ FUEL_LIMIT }
    ensures meets { (held : Option Texts) → MayGive held name.now (text found.now) → Meets (OwesRun (MayGive held) name.now fuel) (λ o. ⊥) ⊥
        (change_of O.taken O.faults out.old out.new) (change_of E.taken E.faults err.old err.new) result }
    ensures each { (held : Option Texts) → MayGive held name.now (text found.now) → Meets (OwesRun (MayGiveText held) name.now fuel) (λ o. ⊥) ⊥
        (change_of O.taken O.faults out.old out.new) (change_of E.taken E.faults err.old err.new) result }
    ensures faults_stay { O.faults out.old ≤ O.faults out.new }
    ensures err_faults_stay { E.faults err.old ≤ E.faults err.new }
{
    let mut names = Names::new(alloc);
    let core = match decode(alloc, &mut names, found) {
        Ok(core) => core,
        Err(DecodeError::Memory) => return Status::Memory,
        Err(DecodeError::NotObject) => {
            return refuse_alone(alloc, name, Vec::new(alloc), 0, Code::O1, err);
        }
    };
    match run_guarded(alloc, &names, &core, fuel, out) {
        Err(RunError::Memory) => Status::Memory,
        Err(RunError::Sink) => Status::WriteFault,
        Ok(end) => report_run(alloc, name, end, err),
    }
}

/// Runs a process for up to `fuel` steps, up to one that is wrong, and writes what they print.
fn run_guarded<O: Sink>(
    alloc: Global,
    names: &Names,
    core: &Core,
    fuel: u64,
    out: &mut O,
) -> Result<ExecEnd, RunError>
    requires closed { IsClosed (plain_core core.now) }
    requires fuel { fuel ≤ FUEL_LIMIT }
    ensures ran { IfOk result (λ end. RanTo (plain_core core.now) fuel end (change_of O.taken O.faults out.old out.new)) }
    ensures sink { result ≡ Err RunError.Sink → RanSomehow (plain_core core.now) fuel (FailedWithin (change_of O.taken O.faults out.old out.new)) }
    ensures memory { result ≡ Err RunError.Memory → RanSomehow (plain_core core.now) fuel (GainedFront (change_of O.taken O.faults out.old out.new)) }
    ensures faults_stay { O.faults out.old ≤ O.faults out.new }
{
    print_run(alloc, names, core, fuel, out)
}

/// The same, by what a watcher sees who writes what is printed.
fn print_run<O: Sink>(
    alloc: Global,
    names: &Names,
    core: &Core,
    fuel: u64,
    out: &mut O,
) -> Result<ExecEnd, RunError>
    requires closed { IsClosed (plain_core core.now) }
    requires fuel { fuel ≤ FUEL_LIMIT }
    ensures end { IfOk result (λ end. Executed (plain_core core.now) fuel (end_of end)
        (Saw (written_after (form_of form.Printed names.now)) (O.taken out.old) (O.taken out.new))) }
    ensures broken { OnErr result (BrokeOff (opening (plain_core core.now)) fuel Anywhere
        (SawOrTore (written_after (form_of form.Printed names.now)) (WrittenInPart (form_of form.Printed names.now)) (O.taken out.old) (O.taken out.new))) }
    ensures sink { result ≡ Err RunError.Sink → Rose (O.faults out.old) (O.faults out.new) }
    ensures faults_stay { O.faults out.old ≤ O.faults out.new }
{
    let mut printer = Printer {
        alloc,
        form: Form::Printed,
        names,
        out,
    };
    execute(alloc, core, fuel, &mut printer)
}

/// Reports how the run of an object ended.
fn report_run<E: Sink>(alloc: Global, name: &[u8], end: ExecEnd, err: &mut E) -> Status
    ensures text { RunReports name.now end (change_of E.taken E.faults err.old err.new) result }
    ensures faults_stay { E.faults err.old ≤ E.faults err.new }
{
    match end {
        ExecEnd::Done => Status::Done,
        ExecEnd::FuelSpent => tell(report::SPENT, Status::FuelSpent, err),
        ExecEnd::Trap(_) => report_line(alloc, name, ": division by zero", Status::Trap, err),
        ExecEnd::Misshapen => {
            let said = ": message of a wrong shape";
            report_line(alloc, name, said, Status::Misshapen, err)
        }
    }
}
