// The replay file of choices.

ghost use Rattle.std.specs.Prelude.{◌≡◌, ◌++◌, ◌⊎◌, false, None, IsTrue, IfOk, IfSome, OnOk, map};
ghost use Rattle.pict_core.specs.Closed.{IsClosed};
ghost use Rattle.pict_core.specs.Configuration.{IsConfiguration};
ghost use Rattle.pict_core.specs.Places.{IsPlace};
ghost use Rattle.pict_core.specs.Plain.{plain_core};
ghost use Rattle.pict_core.specs.Run.{shown};
ghost use Rattle.pict_orders.specs.Plain.{configuration_of, place_of};
ghost use Rattle.pict_orders.specs.Room.{IsFull};
ghost use Rattle.pict_reference.specs.Plain.{plain_label};
ghost use Rattle.pict_replay.specs.Files.{choice_text, choices_text};
ghost use Rattle.pict_trace.specs.Lines.{lines_text, shown_text};
ghost use Rattle.pict_way.specs.Way.{IsStuck, IsWay, LeadsNowhere};
ghost use Rattle.pict_way.specs.Tracing.{IsTraced, IsTracedStep};

use pict_core::Core;
use pict_orders::{Choice, State};
use pict_reference::{Label, StepOutcome};
use pict_show::{write_decimal, write_numbered, write_quoted, write_value};
use pict_syntax::Names;
use std::alloc::{AllocError, Global};

// Writes the line of a choice.
fn write_choice(out: &mut Vec<u8>, choice: &Choice) -> Result<(), AllocError>
    ensures { OnOk result (out.new.items ≡ out.old.items ++ choice_text (place_of choice.now)) }
{
    write_decimal(out, choice.ready as u64)?;
    out.push(b' ')?;
    write_decimal(out, choice.partner as u64)?;
    out.push(b'\n')?;
    Ok(())
}

// Writes the lines of choices.
fn write_choices(out: &mut Vec<u8>, choices: &[Choice]) -> Result<(), AllocError>
    ensures { OnOk result (out.new.items ≡ out.old.items ++ choices_text (map place_of choices.now)) }
{
    for choice in choices {
        write_choice(out, choice)?;
    }
    Ok(())
}

// Writes what a step shows.
fn write_shown(
    alloc: Global,
    out: &mut Vec<u8>,
    names: &Names,
    label: &Label,
) -> Result<(), AllocError>
    ensures { OnOk result (out.new.items ≡ out.old.items ++ shown_text names.now (plain_label label.now)) }
{
    match label {
        Label::Quiet => Ok(()),
        Label::Comm(channel, value) => {
            write_numbered(out, b'c', *channel)?;
            out.push(b' ')?;
            write_value(alloc, out, names, value)
        }
        Label::Print(bytes) => {
            out.extend_from_slice(b"print ")?;
            write_quoted(out, b'"', bytes.slice())
        }
    }
}

// Writes the line of the step of this number, if it shows anything.
fn write_line(
    alloc: Global,
    out: &mut Vec<u8>,
    names: &Names,
    number: u64,
    label: &Label,
) -> Result<(), AllocError>
    ensures { OnOk result (out.new.items ≡ out.old.items ++ lines_text names.now (shown number (plain_label label.now))) }
{
    match label {
        Label::Quiet => return Ok(()),
        Label::Comm(_, _) => {}
        Label::Print(_) => {}
    }
    write_decimal(out, number)?;
    out.push(b' ')?;
    write_shown(alloc, out, names, label)?;
    out.push(b'\n')?;
    Ok(())
}

// Whether the configuration has this place.
fn has_place(state: &State, choice: Choice) -> bool
    ensures there { IsTrue result → IsPlace (configuration_of state.now) (place_of choice) }
    ensures none { result ≡ false → ¬ IsPlace (configuration_of state.now) (place_of choice) }
{
    if choice.ready >= state.ready_count() {
        return false;
    }
    let partners = state.partner_count(choice.ready);
    if choice.partner < partners {
        return true;
    }
    partners == 0 && choice.partner == 0
}

// Takes the step of a choice, and writes its line. The answer is false where there is no such step, or where there may be no numbers for it.
fn write_step(
    alloc: Global,
    out: &mut Vec<u8>,
    names: &Names,
    number: u64,
    state: &mut State,
    choice: &Choice,
) -> Result<bool, AllocError>
    ensures traced { IfOk result (λ done. IsTrue done → IsConfiguration (configuration_of state.old)
        → IsTracedStep names.now number (configuration_of state.old) (place_of choice.now) (configuration_of state.new) out.old.items out.new.items) }
    ensures stuck { IfOk result (λ done. done ≡ false → IsConfiguration (configuration_of state.old)
        → LeadsNowhere (configuration_of state.old) (place_of choice.now) ⊎ IsFull (configuration_of state.old)) }
{
    if !state.has_room() {
        return Ok(false);
    }
    if !has_place(state, *choice) {
        return Ok(false);
    }
    match state.step_at(*choice)? {
        StepOutcome::Steps(label) => {
            write_line(alloc, out, names, number, &label)?;
            Ok(true)
        }
        StepOutcome::Traps(_) => Ok(false),
        StepOutcome::Wrong => Ok(false),
        StepOutcome::Finished => Ok(false),
    }
}

// Takes the steps of choices from the opening configuration on, and writes their lines. The answer is false where one of them isn't there, or
// there may be no numbers for it.
fn write_trace(
    alloc: Global,
    out: &mut Vec<u8>,
    names: &Names,
    process: Core,
    choices: &[Choice],
) -> Result<bool, AllocError>
    requires closed { IsClosed (plain_core process) }
    ensures traced { IfOk result (λ done. IsTrue done
        → IsTraced names.now (plain_core process) (map place_of choices.now) out.old.items out.new.items) }
    ensures stuck { IfOk result (λ done. done ≡ false → IsStuck (plain_core process) (map place_of choices.now)) }
{
    let mut state = State::open(alloc, process)?;
    for (index, choice) in choices.iter().enumerate() {
        if !write_step(alloc, out, names, index as u64 + 1, &mut state, choice)? {
            return Ok(false);
        }
    }
    Ok(true)
}

/// The replay file of choices that a closed process makes one after the other, from its beginning: a line for each of them, the
/// line `trace`, and by these names a line for each step that shows something, with the number of the step. There is none where a
/// choice can't be made: its ready process or its partner isn't there, or its step traps or is wrong; or where there is no number of one
/// more channel, or none of two more stamps. The only error is want of memory.
pub fn way(
    alloc: Global,
    names: &Names,
    process: Core,
    choices: &[Choice],
) -> Result<Option<Vec<u8>>, AllocError>
    requires closed { IsClosed (plain_core process) }
    ensures file { IfOk result (λ found. IfSome found (λ text. IsWay names.now (plain_core process) (map place_of choices.now) text.items)) }
    ensures none { IfOk result (λ found. found ≡ None → IsStuck (plain_core process) (map place_of choices.now)) }
{
    let mut out = Vec::new(alloc);
    write_choices(&mut out, choices)?;
    out.extend_from_slice(b"trace\n")?;
    if write_trace(alloc, &mut out, names, process, choices)? {
        Ok(Some(out))
    } else {
        Ok(None)
    }
}
