// Runs with choices from a seed, and what is written of them.
ghost use Rattle.std.specs.Prelude.{◌≡◌, ◌≢◌, ◌≤◌, [], IfOk, IfSome, None, Err};
ghost use Rattle.pict_core.specs.Closed.{IsClosed};
ghost use Rattle.pict_core.specs.Configuration.{Configuration, IsConfiguration, opening};
ghost use Rattle.pict_core.specs.Plain.{plain_core};
ghost use Rattle.pict_pick.specs.Picked.{picked};
ghost use Rattle.pict_picker.specs.Picker.{IsPicker, view_of, channels_of};
ghost use Rattle.pict_reduction.specs.Reached.{NoFreeRunIsWrong};
ghost use Rattle.pict_seed.specs.Stream.{chosen};
ghost use Rattle.pict_top.specs.Changes.{change_of, GainedFront, FailedWithin};
ghost use Rattle.pict_top.specs.Picking.{PicksAndShows, recorded};
ghost use Rattle.pict_top.specs.Notes.{place_of, notes_in, EndsWithoutFuel};
ghost use Rattle.pict_top.specs.Printed.{Finished, Somehow};
ghost use Rattle.pict_view.specs.View.{StandsFor};

use crate::form::Form;
use crate::notes::{Note, Place, write_note};
use crate::print::write_some;
use pict_core::Core;
use pict_lower::lower;
use pict_machine::{End, RunError};
use pict_outside::Sink;
use pict_pick::Chooser;
use pict_picker::Picker;
use pict_syntax::{FUEL_LIMIT, Names};
use std::alloc::{AllocError, Global};

/// Runs a process twice with choices from a seed, for up to `fuel` steps: writes the choices, the line `trace`, and then the
/// trace by these names. No free run of the process may be wrong. On an error a beginning of that was written; `Sink` comes
/// only where the sink's count of faults rose.
pub fn record_picks<O: Sink>(
    alloc: Global,
    names: &Names,
    core: &Core,
    seed: u64,
    fuel: u64,
    out: &mut O,
) -> Result<End, RunError>
    requires closed { IsClosed (plain_core core.now) }
    requires fuel { fuel ≤ FUEL_LIMIT }
    requires right { NoFreeRunIsWrong (plain_core core.now) }
    ensures ran { IfOk result (λ end. Finished (PicksAndShows (plain_core core.now) seed fuel (recorded names.now)) end
        (change_of O.taken O.faults out.old out.new)) }
    ensures sink { result ≡ Err RunError.Sink → Somehow (PicksAndShows (plain_core core.now) seed fuel (recorded names.now))
        (FailedWithin (change_of O.taken O.faults out.old out.new)) }
    ensures memory { result ≡ Err RunError.Memory → Somehow (PicksAndShows (plain_core core.now) seed fuel (recorded names.now))
        (GainedFront (change_of O.taken O.faults out.old out.new)) }
    ensures faults_stay { O.faults out.old ≤ O.faults out.new }
{
    match run_picked(alloc, Note::Choice, names, core, seed, fuel, out) {
        Ok(_) => {}
        Err(error) => return Err(error),
    }
    match write_some(out, b"trace\n") {
        Ok(()) => {}
        Err(error) => return Err(error),
    }
    run_picked(alloc, Note::Shown(Form::Line), names, core, seed, fuel, out)
}

/// Runs a process with choices from a seed, for up to `fuel` steps, and writes `note` of each step right after it. No free run of
/// the process may be wrong. On an error a beginning of what is written of the run was written; `Sink` comes only where the
/// sink's count of faults rose.
pub fn run_picked<O: Sink>(
    alloc: Global,
    note: Note,
    names: &Names,
    core: &Core,
    seed: u64,
    fuel: u64,
    out: &mut O,
) -> Result<End, RunError>
    requires closed { IsClosed (plain_core core.now) }
    requires fuel { fuel ≤ FUEL_LIMIT }
    requires right { NoFreeRunIsWrong (plain_core core.now) }
    ensures ran { IfOk result (λ end. Finished (PicksAndShows (plain_core core.now) seed fuel (notes_in note names.now)) end
        (change_of O.taken O.faults out.old out.new)) }
    ensures sink { result ≡ Err RunError.Sink → Somehow (PicksAndShows (plain_core core.now) seed fuel (notes_in note names.now))
        (FailedWithin (change_of O.taken O.faults out.old out.new)) }
    ensures memory { result ≡ Err RunError.Memory → Somehow (PicksAndShows (plain_core core.now) seed fuel (notes_in note names.now))
        (GainedFront (change_of O.taken O.faults out.old out.new)) }
    ensures faults_stay { O.faults out.old ≤ O.faults out.new }
{
    let mut picker = match load_core(alloc, core) {
        Ok(picker) => picker,
        Err(AllocError) => return Err(RunError::Memory),
    };
    let mut chooser = Chooser::new(seed);
    let mut done = 0;
    while done < fuel {
        let place = match pick_place(&picker, &mut chooser) {
            Some(place) => place,
            None => return Ok(End::Done),
        };
        let did = match picker.step_choice(place.ready, place.partner) {
            Ok(did) => did,
            Err(AllocError) => return Err(RunError::Memory),
        };
        match did.trap() {
            Some(at) => return Ok(End::Trap(at)),
            None => {}
        }
        done += 1;
        match write_note(alloc, note, names, picker.heap(), place, done, &did, out) {
            Ok(()) => {}
            Err(error) => return Err(error),
        }
    }
    Ok(end_without_fuel(&picker))
}

/// The picker that is to run a closed process. The only error is want of memory.
fn load_core(alloc: Global, core: &Core) -> Result<Picker, AllocError>
    requires closed { IsClosed (plain_core core.now) }
    ensures kept { IfOk result (λ picker. IsPicker picker) }
    ensures stands { IfOk result (λ picker. StandsFor (view_of picker) (opening (plain_core core.now))) }
    ensures is { IfOk result (λ picker. IsConfiguration (opening (plain_core core.now))) }
    ensures channels { IfOk result (λ picker. channels_of picker ≡ 0) }
{
    let code = lower(alloc, core)?;
    Picker::load(alloc, code)
}

/// The place that the chooser picks: a ready process, and then one of its partners; nothing where none is ready.
fn pick_place(picker: &Picker, chooser: &mut Chooser) -> Option<Place>
    requires kept { IsPicker picker.now }
    ensures none { result ≡ None → (view_of picker.now).ready ≡ [] }
    ensures some { IfSome result (λ place. (view_of picker.now).ready ≢ []) }
    ensures picked { IfSome result (λ place. (C : Configuration) → StandsFor (view_of picker.now) C
        → picked C chooser.old ≡ (place_of place, chooser.new)) }
{
    let count = picker.ready_count();
    if count == 0 {
        return None;
    }
    let ready = chooser.choose(count);
    let partner = pick_partner(picker.partners(ready), chooser);
    Some(Place { ready, partner })
}

/// One of so many partners; 0 where there is none.
fn pick_partner(count: u64, chooser: &mut Chooser) -> u64
    ensures { (result, chooser.new) ≡ chosen count chooser.old }
{
    if count == 0 {
        return 0;
    }
    chooser.choose(count)
}

/// How a run ends that has no fuel left.
fn end_without_fuel(picker: &Picker) -> End
    ensures { EndsWithoutFuel (view_of picker.now).ready result }
{
    if picker.ready_count() == 0 {
        End::Done
    } else {
        End::FuelSpent
    }
}
