// Why a phrase is refused.

ghost use Rattle.std.specs.Prelude.{◌≡◌};
ghost use Rattle.pict_infer.specs.Answering.{of_kind_error, of_size_error};

use pict_normal::KindError;
use pict_syntax::{Code, Span};
use pict_types::{SizeError, Ty};
use std::alloc::{AllocError, AllocFailed};
use std::fmt;
use thiserror::Error;

/// What is told beside a refusal, for those who explain it. No rule speaks of it.
#[derive(Drop)]
pub enum Told {
    /// Nothing.
    Nothing,
    /// The type that stands there and the one that is wanted, which it isn't below.
    Types(Ty, Ty),
}

impl fmt::Debug for Told {
    fn fmt<W: fmt::Write>(&self, f: &mut fmt::Formatter<W>) -> fmt::Result {
        f.write_str("Told")
    }
}

/// Why the typing rules refuse a phrase.
#[derive(Debug, Drop, Error)]
pub enum InferError {
    /// The first line of the rules that is false, by its code and at its place: K1 to K5 and Y1 to Y16; with what is told of it.
    #[error("{0:?} at {1:?}")]
    Named(Code, Span, Told),
    /// Want of memory.
    #[error("want of memory")]
    Memory,
}

impl From<AllocError> for InferError {
    ghost use Rattle.std.specs.Prelude.{◌≡◌};
    ghost use Rattle.pict_infer.specs.declared.error.InferError.TheVariants.{Memory};

    ghost from_gives = { λ _ error. error ≡ Memory };

    fn from(_error: AllocError) -> InferError {
        InferError::Memory
    }
}

impl<T: Drop> From<AllocFailed<T>> for InferError {
    ghost use Rattle.std.specs.Prelude.{◌≡◌};
    ghost use Rattle.pict_infer.specs.declared.error.InferError.TheVariants.{Memory};

    ghost from_gives = { λ _ error. error ≡ Memory };

    fn from(_failed: AllocFailed<T>) -> InferError {
        InferError::Memory
    }
}

/// The refusal of a written type as that of a pattern.
pub fn refusal(e: KindError) -> InferError
    ensures { result ≡ of_kind_error e }
{
    match e {
        KindError::Named(code, span) => InferError::Named(code, span, Told::Nothing),
        KindError::Memory => InferError::Memory,
    }
}

/// The refusal of a type that a rule forms, at this place.
pub fn size_refusal(e: SizeError, span: Span) -> InferError
    ensures { result ≡ of_size_error span e }
{
    match e {
        SizeError::TooBig(_) => InferError::Named(Code::K4, span, Told::Nothing),
        SizeError::Memory => InferError::Memory,
    }
}
