// Core patterns.

ghost use Rattle.std.specs.Prelude.{◌≡◌, map, IfOk};
ghost use Rattle.pict_core.specs.Plain.{plain_pat, plain_pat_field};

use pict_syntax::Name;
use std::alloc::{AllocError, Global};

/// A pattern of a core input.
///
/// It binds its variables in order, positional fields first. Fields with labels stand in the order of the labels' bytes.
pub enum CorePat {
    /// Binds the value.
    Bind,
    /// Fits any value and binds nothing.
    Any,
    /// Fits a record with as many positional fields and at least these labels.
    Fields {
        positional: Vec<CorePat>,
        labelled: Vec<(Name, CorePat)>,
    },
}

// Written out: what is derived is proved anew in each crate that drops such a pattern.
impl Drop for CorePat {
    #[cycle(drop_pattern)]
    fn drop(self) {
        match self {
            CorePat::Bind => {}
            CorePat::Any => {}
            CorePat::Fields {
                positional: _,
                labelled: _,
            } => {}
        }
    }
}

impl CorePat {
    /// The same pattern once more. The only error is want of memory.
    #[cycle(copy_pattern)]
    pub fn copy(&self, alloc: Global) -> Result<CorePat, AllocError>
        ensures { IfOk result (λ p. plain_pat p ≡ plain_pat self.now) }
    {
        match self {
            CorePat::Bind => Ok(CorePat::Bind),
            CorePat::Any => Ok(CorePat::Any),
            CorePat::Fields {
                positional,
                labelled,
            } => Ok(CorePat::Fields {
                positional: copy_patterns(positional, alloc)?,
                labelled: copy_pattern_fields(labelled, alloc)?,
            }),
        }
    }
}

#[cycle(copy_pattern)]
fn copy_patterns(patterns: &[CorePat], alloc: Global) -> Result<Vec<CorePat>, AllocError>
    ensures { IfOk result (λ v. map plain_pat v.items ≡ map plain_pat patterns.now) }
{
    let mut made = Vec::new(alloc);
    for pattern in patterns {
        made.push(pattern.copy(alloc)?)?;
    }
    Ok(made)
}

#[cycle(copy_pattern)]
fn copy_pattern_fields(
    fields: &[(Name, CorePat)],
    alloc: Global,
) -> Result<Vec<(Name, CorePat)>, AllocError>
    ensures { IfOk result (λ v. map plain_pat_field v.items ≡ map plain_pat_field fields.now) }
{
    let mut made = Vec::new(alloc);
    for field in fields {
        made.push((field.0, field.1.copy(alloc)?))?;
    }
    Ok(made)
}
