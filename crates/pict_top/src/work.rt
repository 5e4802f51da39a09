// What each command does with an accepted program.
ghost use Rattle.std.specs.Prelude.{◌≡◌, ◌≤◌, IfOk, Err, length};
ghost use Rattle.pict_core.specs.Closed.{IsClosed};
ghost use Rattle.pict_core.specs.Plain.{plain_core};
ghost use Rattle.pict_reduction.specs.Reached.{NoFreeRunIsWrong};
ghost use Rattle.pict_view.specs.Right.{RunsRight};
ghost use Rattle.pict_load.specs.Text.{load_text};
ghost use Rattle.pict_words.specs.Plain.{plain_command};
ghost use Rattle.pict_words.specs.Words.{IsSiteCount, fuel_of, sites_of};
ghost use Rattle.pict_top.specs.Answer.{Does, Lists, Shows, summed_up};
ghost use Rattle.pict_top.specs.Changes.{change_of, GainedFront, FailedWithin};
ghost use Rattle.pict_top.specs.Origins.{Works, origin_of, own_length};
ghost use Rattle.pict_top.specs.Printed.{Finished, Somehow};

use crate::form::Form;
use crate::notes::Note;
use crate::picking::{record_picks, run_picked};
use crate::run::run_core;
use crate::siting::run_sites;
use pict_code::{ListError, listing};
use pict_core::Core;
use pict_front::Front;
use pict_load::{count_run, write_summary};
use pict_lower::lower;
use pict_machine::{End, RunError};
use pict_outside::Sink;
use pict_syntax::{FUEL_LIMIT, Names};
use pict_words::{Command, DEFAULT_FUEL};
use std::alloc::{AllocError, Global};

/// Does a command's work with a program's names and core process, of which no free run may be wrong. It has such work: it neither
/// writes an object nor takes one. `own` is how many bytes the
/// command's own text has. On an error a beginning of what the work writes was written; `Sink` comes only where the sink's count
/// of faults rose.
pub fn perform<O: Sink>(
    alloc: Global,
    command: Command<'_>,
    own: u64,
    front: Front,
    out: &mut O,
) -> Result<End, RunError>
    requires works { Works (plain_command command) }
    requires own { own ≡ own_length (origin_of (plain_command command)) }
    requires closed { IsClosed (plain_core front.core) }
    requires fuel { fuel_of (plain_command command) ≤ FUEL_LIMIT }
    requires sites { IsSiteCount (sites_of (plain_command command)) }
    requires right { NoFreeRunIsWrong (plain_core front.core) }
    ensures done { IfOk result (λ end. Finished (Does (plain_command command.entry) front.names (plain_core front.core)) end
        (change_of O.taken O.faults out.old out.new)) }
    ensures sink { result ≡ Err RunError.Sink → Somehow (Does (plain_command command.entry) front.names (plain_core front.core))
        (FailedWithin (change_of O.taken O.faults out.old out.new)) }
    ensures memory { result ≡ Err RunError.Memory → Somehow (Does (plain_command command.entry) front.names (plain_core front.core))
        (GainedFront (change_of O.taken O.faults out.old out.new)) }
    ensures faults_stay { O.faults out.old ≤ O.faults out.new }
{
    let Front { core, names } = front;
    match command {
        Command::Run(options) => run_core(alloc, Form::Printed, &names, core, options.fuel, out),
        Command::Trace(options) => run_core(alloc, Form::Line, &names, core, options.fuel, out),
        Command::Check(_) => Ok(End::Done),
        Command::Code(_) => list_core(alloc, &names, &core, out),
        Command::Load(n) => sum_up(alloc, n, own, core, out),
        Command::Pick(seed, options) => {
            let note = Note::Shown(Form::Printed);
            run_picked(alloc, note, &names, &core, seed, options.fuel, out)
        }
        Command::Picked(seed, options) => {
            record_picks(alloc, &names, &core, seed, options.fuel, out)
        }
        Command::Replay(_, _) => Ok(End::Done),
        Command::Build(_) => unreachable!(),
        Command::Exec(_, _) => unreachable!(),
        Command::Sites(sites, seed, options) => {
            run_sites(alloc, &names, &core, sites, seed, options.fuel, out)
        }
    }
}

/// Writes the listing of a process' instructions.
fn list_core<O: Sink>(
    alloc: Global,
    names: &Names,
    core: &Core,
    out: &mut O,
) -> Result<End, RunError>
    ensures done { IfOk result (λ end. Finished (Lists names.now (plain_core core.now)) end (change_of O.taken O.faults out.old out.new)) }
    ensures sink { result ≡ Err RunError.Sink → Somehow (Lists names.now (plain_core core.now)) (FailedWithin (change_of O.taken O.faults out.old out.new)) }
    ensures memory { result ≡ Err RunError.Memory → Somehow (Lists names.now (plain_core core.now)) (GainedFront (change_of O.taken O.faults out.old out.new)) }
    ensures faults_stay { O.faults out.old ≤ O.faults out.new }
{
    let code = match lower(alloc, core) {
        Ok(code) => code,
        Err(AllocError) => return Err(RunError::Memory),
    };
    match listing(alloc, names, &code, out) {
        Ok(()) => Ok(End::Done),
        Err(ListError::Sink) => Err(RunError::Sink),
        Err(ListError::Memory) => Err(RunError::Memory),
    }
}

/// Runs the program that is made from `n`, whose text has this many bytes, and writes the summary of its run.
fn sum_up<O: Sink>(
    alloc: Global,
    n: u64,
    text: u64,
    core: Core,
    out: &mut O,
) -> Result<End, RunError>
    requires text { text ≡ length (load_text n) }
    requires closed { IsClosed (plain_core core) }
    requires right { RunsRight (plain_core core) DEFAULT_FUEL }
    ensures done { IfOk result (λ end. Finished (Shows (plain_core core) DEFAULT_FUEL (summed_up n)) end (change_of O.taken O.faults out.old out.new)) }
    ensures sink { result ≡ Err RunError.Sink → Somehow (Shows (plain_core core) DEFAULT_FUEL (summed_up n))
        (FailedWithin (change_of O.taken O.faults out.old out.new)) }
    ensures memory { result ≡ Err RunError.Memory → Somehow (Shows (plain_core core) DEFAULT_FUEL (summed_up n))
        (GainedFront (change_of O.taken O.faults out.old out.new)) }
    ensures faults_stay { O.faults out.old ≤ O.faults out.new }
{
    let tally = match count_run(alloc, core, DEFAULT_FUEL) {
        Ok(tally) => tally,
        Err(AllocError) => return Err(RunError::Memory),
    };
    match write_summary(alloc, n, text, tally, out) {
        Ok(()) => Ok(tally.end),
        Err(error) => Err(error),
    }
}
