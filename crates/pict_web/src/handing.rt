// How what is told is handed over.

ghost use Rattle.std.specs.Prelude.{◌≡◌, ◌≤◌, length, take};
ghost use Rattle.pict_web.specs.Told.{status_for, IsCopied};

use crate::{Lengths, put};
use pict_front::FrontError;
use pict_top::Status;

/// Copies bytes to the beginning of `out`, all of them or as many as fit.
#[tactic(auto, using(crate::proofs::Telling::front_cut))]
pub(crate) fn hand_over(told: &[u8], out: &mut [u8], lengths: &mut Lengths) -> Status
    ensures out_length { length out.new ≡ length out.old }
    ensures printed_fits { lengths.new.printed ≤ length out.new }
    ensures reported { lengths.new.reported ≡ 0 }
    ensures copied { IsCopied told.now (length out.new) result (take lengths.new.printed out.new) }
{
    if out.len() < told.len() {
        let (first, _) = told.split_at(out.len());
        put(first, out);
        *lengths = Lengths {
            printed: first.len() as u64,
            reported: 0,
        };
        return Status::WriteFault;
    }
    put(told, out);
    *lengths = Lengths {
        printed: told.len() as u64,
        reported: 0,
    };
    Status::Done
}

/// The status of a file that isn't accepted.
pub(crate) fn status_of(error: &FrontError) -> Status
    ensures { result ≡ status_for error.now }
{
    match error {
        FrontError::Named(_, _) => Status::Refused,
        FrontError::Missing => Status::Refused,
        FrontError::Failed => Status::ReadFault,
        FrontError::Memory => Status::Memory,
    }
}
