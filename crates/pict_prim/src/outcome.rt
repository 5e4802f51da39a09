// What a primitive did to a core value.

ghost use Rattle.std.specs.Prelude.{◌≡◌, IfOk, IsSome, Some, List, ℕ};
ghost use Rattle.pict_core.specs.Plain.{plain_val};
ghost use Rattle.pict_core.specs.Primitives.{answers};
ghost use Rattle.pict_prim.specs.Printed.{printed_of};
ghost use Rattle.pict_prim.specs.ValueDone.{Attempts};

use crate::texts::decimal;
use pict_core::CoreVal;
use pict_syntax::Bytes;
use std::alloc::{AllocError, Global};

/// What a primitive did to a core value.
#[derive(Drop)]
pub enum ValueDone {
    /// It printed this text or number, and its output ends.
    Printed(CoreVal),
    /// It leaves an output: where to send, and what.
    Answer(CoreVal, CoreVal),
    /// It printed the first, a text or number, and leaves an output: where to send, and what.
    PrintedAnswer(CoreVal, CoreVal, CoreVal),
    /// It divided by zero.
    ZeroDivisor,
}

/// The primitive answers this value at `k`. The only error is want of memory.
pub fn answer(alloc: Global, k: &CoreVal, value: CoreVal) -> Result<Option<ValueDone>, AllocError>
    ensures { Attempts result (answers (plain_val k.now) (plain_val value)) }
{
    Ok(Some(ValueDone::Answer(k.copy(alloc)?, value)))
}

/// The bytes that a printed value stands for: a text's own, or a number's decimal text. The only error is want of
/// memory.
pub fn printed_bytes(alloc: Global, printed: CoreVal) -> Result<Bytes, AllocError>
    requires { IsSome (printed_of (plain_val printed)) }
    ensures { IfOk result (λ bytes. printed_of (plain_val printed) ≡ Some bytes) }
{
    match printed {
        CoreVal::Text(bytes) => Ok(bytes),
        CoreVal::Int(n) => decimal(alloc, n),
        _ => unreachable!(),
    }
}
