// Why a text is not read, why a visit ends early, and why a file is not gathered.

ghost use Rattle.std.specs.Prelude.{◌≡◌};
ghost use Rattle.pict_gather.specs.Answers.{of_lex_error, of_parse_error, of_read_error, of_visit_error};

use pict_lex::LexError;
use pict_parse::ParseError;
use pict_syntax::{Code, Span};
use std::alloc::{AllocError, AllocFailed};
use thiserror::Error;

/// Why a text has no program.
#[derive(Clone, Copy, PartialEq, Eq, Debug, Error)]
pub(crate) enum ReadError {
    /// The text is refused at this place, by the rules of tokens or of the grammar.
    #[error("{0:?} at {1:?}")]
    Named(Code, Span),
    /// Want of memory.
    #[error("want of memory")]
    Memory,
}

impl From<AllocError> for ReadError {
    ghost use Rattle.std.specs.Prelude.{◌≡◌};
    ghost use Rattle.pict_gather.specs.declared.error.ReadError.TheVariants.{Memory};

    ghost from_gives = { λ _ error. error ≡ Memory };

    fn from(_error: AllocError) -> ReadError {
        ReadError::Memory
    }
}

impl<T: Drop> From<AllocFailed<T>> for ReadError {
    ghost use Rattle.std.specs.Prelude.{◌≡◌};
    ghost use Rattle.pict_gather.specs.declared.error.ReadError.TheVariants.{Memory};

    ghost from_gives = { λ _ error. error ≡ Memory };

    fn from(_failed: AllocFailed<T>) -> ReadError {
        ReadError::Memory
    }
}

/// Why a visit ends early.
#[derive(Clone, Copy, PartialEq, Eq, Debug, Error)]
pub(crate) enum VisitError {
    /// A text is refused at this place.
    #[error("{0:?} at {1:?}")]
    Named(Code, Span),
    /// The shelf failed, which was asked for the last of the texts.
    #[error("the shelf failed")]
    Failed,
    /// Want of memory.
    #[error("want of memory")]
    Memory,
}

impl From<AllocError> for VisitError {
    ghost use Rattle.std.specs.Prelude.{◌≡◌};
    ghost use Rattle.pict_gather.specs.declared.error.VisitError.TheVariants.{Memory};

    ghost from_gives = { λ _ error. error ≡ Memory };

    fn from(_error: AllocError) -> VisitError {
        VisitError::Memory
    }
}

impl<T: Drop> From<AllocFailed<T>> for VisitError {
    ghost use Rattle.std.specs.Prelude.{◌≡◌};
    ghost use Rattle.pict_gather.specs.declared.error.VisitError.TheVariants.{Memory};

    ghost from_gives = { λ _ error. error ≡ Memory };

    fn from(_failed: AllocFailed<T>) -> VisitError {
        VisitError::Memory
    }
}

/// Why the texts of a file are not gathered.
#[derive(Clone, Copy, PartialEq, Eq, Debug, Error)]
pub enum GatherError {
    /// The prelude, the file or a text that it reaches is refused at this place: by the rule or the limit with this code.
    #[error("{0:?} at {1:?}")]
    Named(Code, Span),
    /// There is no such file.
    #[error("no such file")]
    Missing,
    /// The shelf failed, which was asked for the last of the texts.
    #[error("the shelf failed")]
    Failed,
    /// Want of memory.
    #[error("want of memory")]
    Memory,
}

impl From<AllocError> for GatherError {
    ghost use Rattle.std.specs.Prelude.{◌≡◌};
    ghost use Rattle.pict_gather.specs.declared.error.GatherError.TheVariants.{Memory};

    ghost from_gives = { λ _ error. error ≡ Memory };

    fn from(_error: AllocError) -> GatherError {
        GatherError::Memory
    }
}

impl<T: Drop> From<AllocFailed<T>> for GatherError {
    ghost use Rattle.std.specs.Prelude.{◌≡◌};
    ghost use Rattle.pict_gather.specs.declared.error.GatherError.TheVariants.{Memory};

    ghost from_gives = { λ _ error. error ≡ Memory };

    fn from(_failed: AllocFailed<T>) -> GatherError {
        GatherError::Memory
    }
}

/// The refusal of the tokens.
pub(crate) fn of_lex_error(error: LexError) -> ReadError
    ensures { result ≡ of_lex_error error }
{
    match error {
        LexError::Named(code, span) => ReadError::Named(code, span),
        LexError::Memory => ReadError::Memory,
    }
}

/// The refusal of the grammar.
pub(crate) fn of_parse_error(error: ParseError) -> ReadError
    ensures { result ≡ of_parse_error error }
{
    match error {
        ParseError::Unexpected(span) => ReadError::Named(Code::P1, span),
        ParseError::TooNested(span) => ReadError::Named(Code::P2, span),
        ParseError::Memory => ReadError::Memory,
    }
}

/// A visit ends early, since its text is not read.
pub(crate) fn of_read_error(error: ReadError) -> VisitError
    ensures { result ≡ of_read_error error }
{
    match error {
        ReadError::Named(code, span) => VisitError::Named(code, span),
        ReadError::Memory => VisitError::Memory,
    }
}

/// A file is not gathered, since a visit ends early.
pub(crate) fn of_visit_error(error: VisitError) -> GatherError
    ensures { result ≡ of_visit_error error }
{
    match error {
        VisitError::Named(code, span) => GatherError::Named(code, span),
        VisitError::Failed => GatherError::Failed,
        VisitError::Memory => GatherError::Memory,
    }
}

/// A file is not gathered, since the prelude is not read.
pub(crate) fn of_prelude_error(error: ReadError) -> GatherError
    ensures { result ≡ of_visit_error (of_read_error error) }
{
    of_visit_error(of_read_error(error))
}
