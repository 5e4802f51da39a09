// Steps by place.

ghost use Rattle.std.specs.Prelude.{◌≡◌, ◌+◌, ◌<◌, ◌^◌, length, filter, slice_get, map, option_map, IfOk};
ghost use Rattle.pict_core.specs.Plain.{plain_core};
ghost use Rattle.pict_core.specs.Configuration.{IsConfiguration};
ghost use Rattle.pict_core.specs.Step.{is_ready, is_partner as is_plain_partner};
ghost use Rattle.pict_core.specs.Places.{ready_entries, partners_at, outcome_at};
ghost use Rattle.pict_reference.specs.Plain.{IsOutcome};
ghost use Rattle.pict_orders.specs.Plain.{configuration_of, place_of};
ghost use Rattle.pict_shared.specs.Plain.{plain_held};

use crate::choice::Choice;
use crate::state::State;
use pict_core::Core;
use pict_reference::StepOutcome;
use pict_shared::{Held, is_partner};
use std::alloc::AllocError;

// The i-th that is ready.
pub(crate) fn ready_among(entries: &[Held], i: usize) -> Option<&Held>
    ensures { option_map (λ h. plain_held h.now) result ≡ slice_get (filter is_ready (map plain_held entries.now)) i }
{
    let mut left = i;
    for entry in entries {
        if entry.ready {
            if left == 0 {
                return Some(entry);
            }
            left -= 1;
        }
    }
    None
}

// The j-th that is a partner of the process.
fn partner_among<'a>(process: &Core, entries: &'a [Held], j: usize) -> Option<&'a Held>
    ensures { option_map (λ h. plain_held h.now) result
        ≡ slice_get (filter (is_plain_partner (plain_core process.now)) (map plain_held entries.now)) j }
{
    let mut left = j;
    for entry in entries {
        if is_partner(process, entry) {
            if left == 0 {
                return Some(entry);
            }
            left -= 1;
        }
    }
    None
}

// How many are ready.
fn count_ready(entries: &[Held]) -> usize
    ensures { result ≡ length (filter is_ready (map plain_held entries.now)) }
{
    let mut count = 0;
    for entry in entries {
        if entry.ready {
            count += 1;
        }
    }
    count
}

// How many are partners of the process.
fn count_partners(process: &Core, entries: &[Held]) -> usize
    ensures { result ≡ length (filter (is_plain_partner (plain_core process.now)) (map plain_held entries.now)) }
{
    let mut count = 0;
    for entry in entries {
        if is_partner(process, entry) {
            count += 1;
        }
    }
    count
}

fn copy_of(entry: Option<&Held>) -> Result<Option<Held>, AllocError>
    ensures { IfOk result (λ copy. option_map plain_held copy ≡ option_map (λ h. plain_held h.now) entry.entry) }
{
    match entry {
        None => Ok(None),
        Some(entry) => Ok(Some(entry.copy()?)),
    }
}

impl State {
    /// How many processes are ready.
    pub fn ready_count(&self) -> usize
        ensures { result ≡ length (ready_entries (configuration_of self.now)) }
    {
        count_ready(&self.entries)
    }

    /// How many parked partners the i-th ready process has; 0 where there is no such process.
    pub fn partner_count(&self, i: usize) -> usize
        ensures { result ≡ length (partners_at (configuration_of self.now) i) }
    {
        match ready_among(&self.entries, i) {
            None => 0,
            Some(actor) => count_partners(&actor.process.core, &self.entries),
        }
    }

    fn actor_at(&self, i: usize) -> Result<Option<Held>, AllocError>
        ensures { IfOk result (λ h. option_map plain_held h ≡ slice_get (ready_entries (configuration_of self.now)) i) }
    {
        copy_of(ready_among(&self.entries, i))
    }

    fn partner_at(&self, process: &Core, j: usize) -> Result<Option<Held>, AllocError>
        ensures { IfOk result (λ h. option_map plain_held h
            ≡ slice_get (filter (is_plain_partner (plain_core process.now)) (configuration_of self.now).entries) j) }
    {
        copy_of(partner_among(process, &self.entries, j))
    }

    /// The step at a place. Where it traps or is wrong, or no such process is ready, the configuration stays as it is; a process that
    /// has no such partner takes the step that it takes where it has none. The only error is want of memory.
    pub fn step_at(&mut self, choice: Choice) -> Result<StepOutcome, AllocError>
        requires channels { (configuration_of self.old).channels + 1 < 2 ^ 32 }
        requires stamps { (configuration_of self.old).next_stamp + 2 < 2 ^ 64 }
        ensures { IfOk result (λ made. IsConfiguration (configuration_of self.old)
            → IsOutcome made (outcome_at (configuration_of self.old) (place_of choice)) (configuration_of self.old) (configuration_of self.new)) }
    {
        match self.actor_at(choice.ready)? {
            None => Ok(StepOutcome::Finished),
            Some(actor) => {
                let partner = self.partner_at(&actor.process.core, choice.partner)?;
                self.act(actor.stamp, &actor.process, &partner)
            }
        }
    }
}
