// The listing.
ghost use Rattle.std.specs.Prelude.{◌≡◌, ◌≤◌, OnOk, OnErr, Err};
ghost use Rattle.std.specs.Io.KnownBytes.{Appends};
ghost use Rattle.pict_outside.specs.Counts.{Rose};
ghost use Rattle.pict_outside.specs.Bytes.{AppendsFront};
ghost use Rattle.pict_code.specs.Plain.{plain_code};
ghost use Rattle.pict_code.specs.Listing.{listing_text};

use crate::Code;
use crate::line::line_of;
use pict_outside::{Sink, SinkFailed};
use pict_syntax::Names;
use std::alloc::{AllocError, Global};
use thiserror::Error;

/// Why a listing wasn't written to its end.
#[derive(Clone, Copy, Debug, PartialEq, Eq, Error)]
pub enum ListError {
    /// The sink failed.
    #[error("the sink failed")]
    Sink,
    /// Want of memory.
    #[error("want of memory")]
    Memory,
}

impl From<AllocError> for ListError {
    ghost use Rattle.std.specs.Prelude.{◌≡◌};
    ghost use Rattle.pict_code.specs.declared.writing.ListError.TheVariants.{Memory};

    ghost from_gives = { λ _ error. error ≡ Memory };

    fn from(_error: AllocError) -> ListError {
        ListError::Memory
    }
}

impl From<SinkFailed> for ListError {
    ghost use Rattle.std.specs.Prelude.{◌≡◌};
    ghost use Rattle.pict_code.specs.declared.writing.ListError.TheVariants as error;

    ghost from_gives = { λ _ e. e ≡ error.Sink };

    fn from(_error: SinkFailed) -> ListError {
        ListError::Sink
    }
}

/// Writes the listing of a code: a line for each node, in order, each line with one write.
///
/// After an error the sink has taken a beginning of the listing. `Sink` comes only where the sink's count of faults rose.
pub fn listing<O: Sink>(
    alloc: Global,
    names: &Names,
    code: &Code,
    out: &mut O,
) -> Result<(), ListError>
    ensures all { OnOk result (Appends (O.taken out.old) (O.taken out.new) (listing_text names.now (plain_code code.now))) }
    ensures part { OnErr result (AppendsFront (O.taken out.old) (O.taken out.new) (listing_text names.now (plain_code code.now))) }
    ensures sink { result ≡ Err ListError.Sink → Rose (O.faults out.old) (O.faults out.new) }
    ensures faults_stay { O.faults out.old ≤ O.faults out.new }
{
    for (number, node) in code.nodes.iter().enumerate() {
        let line = line_of(alloc, names, number as u64, node)?;
        out.write(&line)?;
    }
    Ok(())
}
