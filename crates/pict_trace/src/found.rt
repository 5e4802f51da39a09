// What reading at the front of a text gives.

use pict_core::CoreVal;
use std::alloc::{AllocError, AllocFailed};

// Why no value is read.
#[derive(Debug, Drop)]
pub(crate) enum ReadError {
    // None is written as it is to be.
    Bad,
    // Memory ran out.
    Memory,
}

impl From<AllocError> for ReadError {
    ghost use Rattle.std.specs.Prelude.{◌≡◌};
    ghost use Rattle.pict_trace.specs.declared.found.ReadError.TheVariants.{Memory};

    ghost from_gives = { λ _ e. e ≡ Memory };

    fn from(_: AllocError) -> ReadError {
        ReadError::Memory
    }
}

impl<T: Drop> From<AllocFailed<T>> for ReadError {
    ghost use Rattle.std.specs.Prelude.{◌≡◌};
    ghost use Rattle.pict_trace.specs.declared.found.ReadError.TheVariants.{Memory};

    ghost from_gives = { λ _ e. e ≡ Memory };

    fn from(_: AllocFailed<T>) -> ReadError {
        ReadError::Memory
    }
}

// A value, and the text behind it.
#[derive(Drop)]
pub(crate) struct Found<'a> {
    pub(crate) value: CoreVal,
    pub(crate) rest: &'a [u8],
}
