// Types moved under more binders, and out of binders that they don't mention.

ghost use Rattle.std.specs.Prelude.{◌≡◌, IfOk};
ghost use Rattle.pict_types.specs.Mentions.{lowered};
ghost use Rattle.pict_types.specs.Plain.{plain};
ghost use Rattle.pict_types.specs.Renaming.{moved, rename};

use crate::renumber::{Renumbering, renumber_type};
use crate::types::Ty;
use std::alloc::{AllocError, Global};

/// The type with `by` more variables between it and its context; the `from` innermost variables stay. It is shared where
/// there are no more.
///
/// The only error is want of memory, and a variable past the greatest `u32` is one.
pub fn shift_type(alloc: Global, t: &Ty, by: u32, from: usize) -> Result<Ty, AllocError>
    ensures { IfOk result (λ u. plain u ≡ rename (moved by from) (plain t.now)) }
{
    if by == 0 {
        return t.copy(alloc);
    }
    renumber_type(alloc, t, Renumbering::Up(by), from)
}

/// The type without the `by` innermost variables of its context. One that mentions none of them means the same there.
///
/// The only error is want of memory.
pub fn lower_type(alloc: Global, t: &Ty, by: u32) -> Result<Ty, AllocError>
    ensures { IfOk result (λ u. plain u ≡ lowered by (plain t.now)) }
{
    if by == 0 {
        return t.copy(alloc);
    }
    renumber_type(alloc, t, Renumbering::Down(by), 0)
}
