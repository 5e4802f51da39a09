// Whether two configurations differ in the names of channels and in the order of their processes alone.

ghost use Rattle.std.specs.Prelude.{IsTrue, IfOk};
ghost use Rattle.pict_reduction.specs.Congruence.{Congruent};
ghost use Rattle.pict_reduction.specs.Reading.{reading};
ghost use Rattle.pict_orders.specs.Plain.{configuration_of};

use crate::state::State;
use pict_shared::{are_inverse, are_rearranged};
use std::alloc::{AllocError, Global};

/// Whether the configurations are the same once the channels of the first are renamed by a list of their new names, which the
/// second list takes back: then their readings are congruent. The only error is want of memory.
pub fn are_alike(
    alloc: Global,
    one: &State,
    other: &State,
    names: &[u32],
    back: &[u32],
) -> Result<bool, AllocError>
    ensures { IfOk result (λ yes. IsTrue yes → Congruent 0 (reading (configuration_of one.now)) (reading (configuration_of other.now))) }
{
    if one.channels != other.channels {
        return Ok(false);
    }
    if names.len() != one.channels as usize {
        return Ok(false);
    }
    if !are_inverse(names, back) {
        return Ok(false);
    }
    are_rearranged(alloc, names, &one.entries, &other.entries)
}
