// Why a program has no scopes.

use pict_syntax::{Code, Span};
use std::alloc::{AllocError, AllocFailed};
use thiserror::Error;

/// Why a program is refused.
#[derive(Debug, Drop, Error)]
pub enum ScopeError {
    /// The first place in reading order where a rule of scopes fails: a value without binder (S1), a type without binder
    /// (S2), a name that is bound a second time (S3), a label that stands a second time (S4).
    #[error("{0:?} at {1:?}")]
    Named(Code, Span),
    /// Want of memory.
    #[error("want of memory")]
    Memory,
}

impl From<AllocError> for ScopeError {
    ghost use Rattle.std.specs.Prelude.{◌≡◌};
    ghost use Rattle.pict_scope.specs.declared.error.ScopeError.TheVariants.{Memory};

    ghost from_gives = { λ _ error. error ≡ Memory };

    fn from(_error: AllocError) -> ScopeError {
        ScopeError::Memory
    }
}

impl<T: Drop> From<AllocFailed<T>> for ScopeError {
    ghost use Rattle.std.specs.Prelude.{◌≡◌};
    ghost use Rattle.pict_scope.specs.declared.error.ScopeError.TheVariants.{Memory};

    ghost from_gives = { λ _ error. error ≡ Memory };

    fn from(_failed: AllocFailed<T>) -> ScopeError {
        ScopeError::Memory
    }
}
