// Silent steps, and steps of one process by itself that print nothing, as long as there are any.

ghost use Rattle.std.specs.Prelude.{◌≡◌, ◌+◌, false, IsTrue, not, map, IfOk, IfSome, option_map, vec_len};
ghost use Rattle.pict_core.specs.Plain.{plain_core, plain_val};
ghost use Rattle.pict_prim.specs.ValueDone.{effect_value_done, PrintsText};
ghost use Rattle.pict_core.specs.Configuration.{IsConfiguration};
ghost use Rattle.pict_core.specs.Step.{is_partner as is_plain_partner, least};
ghost use Rattle.pict_reduction.specs.Silent.{is_silent as is_plain_silent, is_chan, has_none, parks as parks_plain};
ghost use Rattle.pict_orders.specs.Plain.{configuration_of, place_of};
ghost use Rattle.pict_shared.specs.Plain.{plain_held};
ghost use Rattle.pict_orders.specs.Settling.{FirstReady, FirstQuiet, is_truth_value as is_plain_truth_value, is_quiet_effect, is_answered as is_plain_answered, goes_alone as goes_plain_alone, SettlesOnce, Settles, SettlesToFull};

use crate::choice::Choice;
use crate::state::State;
use pict_core::{Core, CoreVal};
use pict_prim::{ValueDone, attempt_on_value};
use pict_shared::{Held, is_partner};
use std::alloc::{AllocError, Global};

fn has_partner(process: &Core, entries: &[Held]) -> bool
    ensures { not result ≡ has_none (least (is_plain_partner (plain_core process.now)) (map plain_held entries.now)) }
{
    for entry in entries {
        if is_partner(process, entry) {
            return true;
        }
    }
    false
}

fn is_channel(value: &CoreVal) -> bool
    ensures { result ≡ is_chan (plain_val value.now) }
{
    matches!(value, CoreVal::Chan(_))
}

// Whether an output or input with this subject parks.
fn parks(entries: &[Held], chan: &CoreVal, process: &Core) -> bool
    ensures { result ≡ parks_plain (map plain_held entries.now) (plain_val chan.now) (plain_core process.now) }
{
    is_channel(chan) && !has_partner(process, entries)
}

// Whether the process acts silently among these.
fn is_silent(entries: &[Held], process: &Core) -> bool
    ensures { result ≡ is_plain_silent (map plain_held entries.now) (plain_core process.now) }
{
    match process {
        Core::Zero => true,
        Core::Par(_, _) => true,
        Core::New(_) => true,
        Core::Out { chan, .. } => parks(entries, chan, process),
        Core::In { chan, .. } => parks(entries, chan, process),
        Core::If { .. } => false,
    }
}

// The number, among the ready ones, of the first that acts silently.
fn first_silent(entries: &[Held]) -> Option<usize>
    ensures { FirstReady (is_plain_silent (map plain_held entries.now)) (map plain_held entries.now) result }
{
    let mut count = 0;
    for entry in entries {
        if entry.ready {
            if is_silent(entries, &entry.process.core) {
                return Some(count);
            }
            count += 1;
        }
    }
    None
}

// Whether an answer is left, and nothing printed.
fn is_answer(done: &Option<ValueDone>) -> bool
    requires { IfSome done.now PrintsText }
    ensures { result ≡ is_quiet_effect (option_map effect_value_done done.now) }
{
    matches!(done, Some(ValueDone::Answer(_, _)))
}

// Whether an output with this subject is one to a primitive that answers and prints nothing.
fn is_answered(alloc: Global, chan: &CoreVal, message: &CoreVal) -> Result<bool, AllocError>
    ensures { IfOk result (λ b. b ≡ is_plain_answered (plain_val chan.now) (plain_val message.now)) }
{
    match chan {
        CoreVal::Prim(primitive) => {
            let done = attempt_on_value(alloc, *primitive, message)?;
            Ok(is_answer(&done))
        }
        _ => Ok(false),
    }
}

fn is_truth_value(value: &CoreVal) -> bool
    ensures { result ≡ is_plain_truth_value (plain_val value.now) }
{
    matches!(value, CoreVal::Bool(_))
}

// Whether the process reduces by itself and prints nothing.
fn goes_alone(alloc: Global, process: &Core) -> Result<bool, AllocError>
    ensures { IfOk result (λ b. b ≡ goes_plain_alone (plain_core process.now)) }
{
    match process {
        Core::If { test, .. } => Ok(is_truth_value(test)),
        Core::Out { chan, message, .. } => is_answered(alloc, chan, message),
        _ => Ok(false),
    }
}

// The number, among the ready ones, of the first that reduces by itself and prints nothing.
fn first_alone(alloc: Global, entries: &[Held]) -> Result<Option<usize>, AllocError>
    ensures { IfOk result (λ first. FirstReady goes_plain_alone (map plain_held entries.now) first) }
{
    let mut count = 0;
    for entry in entries {
        if entry.ready {
            if goes_alone(alloc, &entry.process.core)? {
                return Ok(Some(count));
            }
            count += 1;
        }
    }
    Ok(None)
}

// The number, among the ready ones, of the first that acts silently, or else of the first that reduces by itself.
fn first_quiet(alloc: Global, entries: &[Held]) -> Result<Option<usize>, AllocError>
    ensures { IfOk result (λ first. FirstQuiet (map plain_held entries.now) first) }
{
    match first_silent(entries) {
        Some(ready) => Ok(Some(ready)),
        None => first_alone(alloc, entries),
    }
}

impl State {
    // One silent step, or one of a process by itself, if there is any: whether there was one. Its choice is written behind the
    // others.
    fn settle_once(&mut self, choices: &mut Vec<Choice>) -> Result<Once, AllocError>
        ensures grows { IfOk result (λ once. once ≡ Once.Stepped → vec_len choices.new ≡ vec_len choices.old + 1) }
        ensures settles { IfOk result (λ once. IsConfiguration (configuration_of self.old) → SettlesOnce once
            (map place_of choices.old.items) (configuration_of self.old) (map place_of choices.new.items) (configuration_of self.new)) }
    {
        match first_quiet(self.alloc, &self.entries)? {
            None => Ok(Once::Still),
            Some(ready) => {
                if !self.has_room() {
                    return Ok(Once::NoRoom);
                }
                let choice = Choice { ready, partner: 0 };
                self.step_at(choice)?;
                choices.push(choice)?;
                Ok(Once::Stepped)
            }
        }
    }

    /// All silent steps, and all steps of one process by itself that print nothing, one after the other, until none is left:
    /// their choices are written behind the others. The answer is false where there may be no numbers of channels or stamps for one
    /// more of them. The only error is want of memory.
    pub fn settle(&mut self, choices: &mut Vec<Choice>) -> Result<bool, AllocError>
        ensures settled { IfOk result (λ done. IsConfiguration (configuration_of self.old) → IsTrue done → Settles
            (map place_of choices.old.items) (configuration_of self.old) (map place_of choices.new.items) (configuration_of self.new)) }
        ensures full { IfOk result (λ done. IsConfiguration (configuration_of self.old) → done ≡ false → SettlesToFull
            (map place_of choices.old.items) (configuration_of self.old) (map place_of choices.new.items) (configuration_of self.new)) }
    {
        for round in 0..u64::MAX {
            match self.settle_once(choices)? {
                Once::Still => return Ok(true),
                Once::NoRoom => return Ok(false),
                Once::Stepped => {}
            }
        }
        unreachable!()
    }
}

// What became of such a step.
#[derive(Clone, Copy)]
enum Once {
    Still,
    NoRoom,
    Stepped,
}
