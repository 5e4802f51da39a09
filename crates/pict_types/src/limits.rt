// The limits of types.

ghost use Rattle.std.specs.Prelude.{◌≡◌, ◌≤◌, ◌<◌, Some, IfNone};
ghost use Rattle.pict_syntax.specs.declared.limits.TheConstants.{HEIGHT_LIMIT, WEIGHT_LIMIT};

use crate::measure::Measures;
use pict_syntax::{HEIGHT_LIMIT, WEIGHT_LIMIT};
use std::alloc::AllocError;
use thiserror::Error;

/// What is measured of a type.
#[derive(Clone, Copy, PartialEq, Eq, Debug)]
pub enum Measure {
    Weight,
    Height,
}

/// Why no type is formed of others.
#[derive(Debug, Drop, Error)]
pub enum SizeError {
    /// The result weighs more than `WEIGHT_LIMIT`, or doesn't and is higher than `HEIGHT_LIMIT`.
    #[error("the type is too big")]
    TooBig(Measure),
    /// Want of memory.
    #[error("want of memory")]
    Memory,
}

impl From<AllocError> for SizeError {
    ghost use Rattle.std.specs.Prelude.{◌≡◌};
    ghost use Rattle.pict_types.specs.declared.limits.SizeError.TheVariants.{Memory};

    ghost from_gives = { λ _ error. error ≡ Memory };

    fn from(_error: AllocError) -> SizeError {
        SizeError::Memory
    }
}

/// The measure that passes its limit, the weight before the height.
pub fn too_big(measures: Measures) -> Option<Measure>
    ensures none { IfNone result ((measures.weight ≤ WEIGHT_LIMIT) × (measures.height ≤ HEIGHT_LIMIT)) }
    ensures weight { result ≡ Some Measure.Weight → WEIGHT_LIMIT < measures.weight }
    ensures height { result ≡ Some Measure.Height → (measures.weight ≤ WEIGHT_LIMIT) × (HEIGHT_LIMIT < measures.height) }
{
    if measures.weight > WEIGHT_LIMIT {
        Some(Measure::Weight)
    } else if measures.height > HEIGHT_LIMIT {
        Some(Measure::Height)
    } else {
        None
    }
}
