// Why a text has no tokens.

use pict_syntax::{Code, Span};
use std::alloc::{AllocError, AllocFailed};
use thiserror::Error;

/// Why a text is not read to its end.
#[derive(Debug, Drop, Error)]
pub enum LexError {
    /// The text is refused, with a code from `L1` to `L5`, at this place.
    #[error("refused with {0:?} at byte {start}", start = .1.start)]
    Named(Code, Span),
    /// Memory ran out.
    #[error("out of memory")]
    Memory,
}

impl From<AllocError> for LexError {
    ghost use Rattle.std.specs.Prelude.{◌≡◌};
    ghost use Rattle.pict_lex.specs.declared.error.LexError.TheVariants.{Memory};

    ghost from_gives = { λ _ error. error ≡ Memory };

    fn from(_error: AllocError) -> LexError {
        LexError::Memory
    }
}

impl<T: Drop> From<AllocFailed<T>> for LexError {
    ghost use Rattle.std.specs.Prelude.{◌≡◌};
    ghost use Rattle.pict_lex.specs.declared.error.LexError.TheVariants.{Memory};

    ghost from_gives = { λ _ error. error ≡ Memory };

    fn from(_failed: AllocFailed<T>) -> LexError {
        LexError::Memory
    }
}
