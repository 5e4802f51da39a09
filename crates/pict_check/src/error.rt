// Why a program isn't typed.

ghost use Rattle.std.specs.Prelude.{◌≡◌};
ghost use Rattle.pict_check.specs.Refused.{of_infer_error};

use pict_infer::{InferError, Told};
use pict_syntax::{Code, Span};
use std::alloc::{AllocError, AllocFailed};
use thiserror::Error;

/// Why the typing rules refuse a program.
#[derive(Debug, Drop, Error)]
pub enum TypeError {
    /// The first line of the rules that is false, by its code and at its place: K1 to K5 and Y1 to Y16; with what is told of it.
    #[error("{0:?} at {1:?}")]
    Named(Code, Span, Told),
    /// Want of memory.
    #[error("want of memory")]
    Memory,
}

impl From<AllocError> for TypeError {
    ghost use Rattle.std.specs.Prelude.{◌≡◌};
    ghost use Rattle.pict_check.specs.declared.error.TypeError.TheVariants.{Memory};

    ghost from_gives = { λ _ error. error ≡ Memory };

    fn from(_error: AllocError) -> TypeError {
        TypeError::Memory
    }
}

impl<T: Drop> From<AllocFailed<T>> for TypeError {
    ghost use Rattle.std.specs.Prelude.{◌≡◌};
    ghost use Rattle.pict_check.specs.declared.error.TypeError.TheVariants.{Memory};

    ghost from_gives = { λ _ error. error ≡ Memory };

    fn from(_failed: AllocFailed<T>) -> TypeError {
        TypeError::Memory
    }
}

/// The refusal of a part as that of the program.
pub fn refusal(e: InferError) -> TypeError
    ensures { result ≡ of_infer_error e }
{
    match e {
        InferError::Named(code, span, told) => TypeError::Named(code, span, told),
        InferError::Memory => TypeError::Memory,
    }
}
