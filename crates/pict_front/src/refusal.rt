// Why a file has no core process.

ghost use Rattle.std.specs.Prelude.{◌≡◌};
ghost use Rattle.pict_front.specs.Answers.{of_derive_error, of_gather_error, of_refusal, of_scope_error, of_type_error};

use pict_check::TypeError;
use pict_derive::DeriveError;
use pict_gather::GatherError;
use pict_scope::ScopeError;
use pict_syntax::{Code, Span};
use std::alloc::{AllocError, AllocFailed};
use thiserror::Error;

/// The first byte of the file.
const FIRST_PLACE: Span = Span {
    text: 1,
    start: 0,
    end: 0,
};

/// Why a file has no core process.
#[derive(Clone, Copy, PartialEq, Eq, Debug, Error)]
pub enum Refusal {
    /// The text, or the prelude before it, is refused at this place: by the rule or the limit with this code.
    #[error("{0:?} at {1:?}")]
    Named(Code, Span),
    /// Want of memory.
    #[error("want of memory")]
    Memory,
}

impl From<AllocError> for Refusal {
    ghost use Rattle.std.specs.Prelude.{◌≡◌};
    ghost use Rattle.pict_front.specs.declared.refusal.Refusal.TheVariants.{Memory};

    ghost from_gives = { λ _ error. error ≡ Memory };

    fn from(_error: AllocError) -> Refusal {
        Refusal::Memory
    }
}

impl<T: Drop> From<AllocFailed<T>> for Refusal {
    ghost use Rattle.std.specs.Prelude.{◌≡◌};
    ghost use Rattle.pict_front.specs.declared.refusal.Refusal.TheVariants.{Memory};

    ghost from_gives = { λ _ error. error ≡ Memory };

    fn from(_failed: AllocFailed<T>) -> Refusal {
        Refusal::Memory
    }
}

/// Why a file has no core process.
#[derive(Clone, Copy, PartialEq, Eq, Debug, Error)]
pub enum FrontError {
    /// The prelude, the file or a text that it reaches is refused at this place: by the rule or the limit with this code.
    #[error("{0:?} at {1:?}")]
    Named(Code, Span),
    /// There is no such file.
    #[error("no such file")]
    Missing,
    /// The shelf failed, which was asked for the last of the texts.
    #[error("the shelf failed")]
    Failed,
    /// Want of memory.
    #[error("want of memory")]
    Memory,
}

/// The refusal of the scopes.
pub(crate) fn of_scope_error(error: ScopeError) -> Refusal
    ensures { result ≡ of_scope_error error }
{
    match error {
        ScopeError::Named(code, span) => Refusal::Named(code, span),
        ScopeError::Memory => Refusal::Memory,
    }
}

/// The refusal of the types.
pub(crate) fn of_type_error(error: TypeError) -> Refusal
    ensures { result ≡ of_type_error error }
{
    match error {
        TypeError::Named(code, span, _) => Refusal::Named(code, span),
        TypeError::Memory => Refusal::Memory,
    }
}

/// The refusal of the translation.
pub(crate) fn of_derive_error(error: DeriveError) -> Refusal
    ensures { result ≡ of_derive_error error }
{
    match error {
        DeriveError::TooDeep(_) => Refusal::Named(Code::C1, FIRST_PLACE),
        DeriveError::Memory => Refusal::Memory,
    }
}

/// The phases behind the grammar refuse.
pub(crate) fn of_refusal(refusal: Refusal) -> FrontError
    ensures { result ≡ of_refusal refusal }
{
    match refusal {
        Refusal::Named(code, span) => FrontError::Named(code, span),
        Refusal::Memory => FrontError::Memory,
    }
}

/// The texts are not gathered.
pub(crate) fn of_gather_error(error: GatherError) -> FrontError
    ensures { result ≡ of_gather_error error }
{
    match error {
        GatherError::Named(code, span) => FrontError::Named(code, span),
        GatherError::Missing => FrontError::Missing,
        GatherError::Failed => FrontError::Failed,
        GatherError::Memory => FrontError::Memory,
    }
}
