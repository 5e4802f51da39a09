// The translation of whole programs.
ghost use Rattle.std.specs.Prelude.{◌≡◌, ◌≤◌, ◌↔◌, ℕ, Err, IfOk};
ghost use Rattle.pict_syntax.specs.PlainTrees.{declarations_of};
ghost use Rattle.pict_scope.specs.DistinctLabels.{DecsHaveDistinctLabels};
ghost use Rattle.pict_core.specs.Closed.{IsClosed};
ghost use Rattle.pict_core.specs.Plain.{plain_core};
ghost use Rattle.pict_core.specs.Term.{depth_of};
ghost use Rattle.pict_translation.specs.Translation.{program_core};
ghost use Rattle.pict_derive.specs.Built.{IsTooDeep};

use crate::build::decs;
use crate::depths::program_depth;
use crate::outside::Outside;
use pict_binders::Binders;
use pict_core::Core;
use pict_scope::Scoped;
use pict_syntax::{DEPTH_LIMIT, Names, Program};
use std::alloc::{AllocError, Global};
use thiserror::Error;

/// Why a program has no core process.
#[derive(Debug, Drop, Error)]
pub enum DeriveError {
    /// The core process would have this depth, which is above `DEPTH_LIMIT`. It is held at the greatest `u64`.
    #[error("the process is too deep: {0}")]
    TooDeep(u64),
    /// Want of memory.
    #[error("want of memory")]
    Memory,
}

impl From<AllocError> for DeriveError {
    ghost use Rattle.std.specs.Prelude.{◌≡◌};
    ghost use Rattle.pict_derive.specs.declared.whole.DeriveError.TheVariants.{Memory};

    ghost from_gives = { λ _ error. error ≡ Memory };

    fn from(_error: AllocError) -> DeriveError {
        DeriveError::Memory
    }
}

/// The core process of a program: its declarations around the inert process. The program is taken with the names that
/// its numbers stand for; a use means its nearest binder by name, so the lists of targets aren't looked at. Its depth is
/// told before anything is built.
pub fn derive(alloc: Global, names: &Names, scoped: &Scoped) -> Result<Core, DeriveError>
    ensures core { IfOk result (λ core. plain_core core ≡ program_core names.now (declarations_of scoped.now.program)) }
    ensures closed { DecsHaveDistinctLabels (declarations_of scoped.now.program) → IfOk result (λ core. IsClosed (plain_core core)) }
    ensures shallow { IfOk result (λ core. depth_of (plain_core core) ≤ DEPTH_LIMIT) }
    ensures too_deep { (depth : ℕ) → (result ≡ Err (DeriveError.TooDeep depth))
        ↔ IsTooDeep (program_core names.now (declarations_of scoped.now.program)) depth }
{
    let depth = program_depth(&scoped.program);
    if depth > DEPTH_LIMIT {
        return Err(DeriveError::TooDeep(depth));
    }
    let core = whole(alloc, names, &scoped.program)?;
    Ok(core)
}

/// The declarations around the inert process.
fn whole(alloc: Global, names: &Names, program: &Program) -> Result<Core, AllocError>
    ensures { IfOk result (λ core. plain_core core ≡ program_core names.now (declarations_of program.now)) }
{
    let mut scope = Binders::new(alloc);
    let mut outer = Outside::new(alloc, 0);
    decs(alloc, names, &mut scope, &program.decs, &mut outer)?;
    Ok(outer.around(alloc, Core::Zero)?)
}
