// Why a process is not written, and why none is read.

use std::alloc::{AllocError, AllocFailed};
use thiserror::Error;

/// Why a process is not written as an object.
#[derive(Debug, Drop, Error)]
pub enum EncodeError {
    /// The object has this many bytes, more than the limit. Held at the greatest `u64`.
    #[error("the object has {0} bytes")]
    TooBig(u64),
    /// Memory ran out.
    #[error("out of memory")]
    Memory,
}

impl From<AllocError> for EncodeError {
    ghost use Rattle.std.specs.Prelude.{◌≡◌};
    ghost use Rattle.pict_object.specs.declared.error.EncodeError.TheVariants.{Memory};

    ghost from_gives = { λ _ e. e ≡ Memory };

    fn from(_: AllocError) -> EncodeError {
        EncodeError::Memory
    }
}

/// Why no process is read from bytes.
#[derive(Debug, Drop, Error)]
pub enum DecodeError {
    /// The bytes are no object.
    #[error("not an object")]
    NotObject,
    /// Memory ran out.
    #[error("out of memory")]
    Memory,
}

impl From<AllocError> for DecodeError {
    ghost use Rattle.std.specs.Prelude.{◌≡◌};
    ghost use Rattle.pict_object.specs.declared.error.DecodeError.TheVariants.{Memory};

    ghost from_gives = { λ _ e. e ≡ Memory };

    fn from(_: AllocError) -> DecodeError {
        DecodeError::Memory
    }
}

impl<T: Drop> From<AllocFailed<T>> for DecodeError {
    ghost use Rattle.std.specs.Prelude.{◌≡◌};
    ghost use Rattle.pict_object.specs.declared.error.DecodeError.TheVariants.{Memory};

    ghost from_gives = { λ _ e. e ≡ Memory };

    fn from(_: AllocFailed<T>) -> DecodeError {
        DecodeError::Memory
    }
}
