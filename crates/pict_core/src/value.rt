// Core values.

ghost use Rattle.std.specs.Prelude.{◌≡◌, map, IfOk};
ghost use Rattle.pict_core.specs.Plain.{plain_val, plain_field};

use pict_syntax::{Bytes, Name, Prim};
use std::alloc::{AllocError, Global};

/// A value of a core term.
///
/// A variable is its level: the number of variables that are bound around its binder. Fields with labels stand in the
/// order of the labels' bytes, and no label stands twice.
#[derive(Drop)]
pub enum CoreVal {
    /// The variable of this level.
    Var(u32),
    /// The channel of this number.
    Chan(u32),
    /// A number.
    Int(i64),
    /// A character: one byte.
    Char(u8),
    /// A truth value.
    Bool(bool),
    /// A string of bytes.
    Text(Bytes),
    /// A primitive.
    Prim(Prim),
    /// A record.
    Fields {
        positional: Vec<CoreVal>,
        labelled: Vec<(Name, CoreVal)>,
    },
}

impl CoreVal {
    /// The same value once more. The only error is want of memory.
    #[cycle(copy_value)]
    pub fn copy(&self, alloc: Global) -> Result<CoreVal, AllocError>
        ensures { IfOk result (λ v. plain_val v ≡ plain_val self.now) }
    {
        match self {
            CoreVal::Var(level) => Ok(CoreVal::Var(*level)),
            CoreVal::Chan(number) => Ok(CoreVal::Chan(*number)),
            CoreVal::Int(n) => Ok(CoreVal::Int(*n)),
            CoreVal::Char(byte) => Ok(CoreVal::Char(*byte)),
            CoreVal::Bool(b) => Ok(CoreVal::Bool(*b)),
            CoreVal::Text(bytes) => Ok(CoreVal::Text(bytes.copy(alloc)?)),
            CoreVal::Prim(p) => Ok(CoreVal::Prim(*p)),
            CoreVal::Fields {
                positional,
                labelled,
            } => Ok(CoreVal::Fields {
                positional: copy_values(positional, alloc)?,
                labelled: copy_fields(labelled, alloc)?,
            }),
        }
    }
}

#[cycle(copy_value)]
fn copy_values(values: &[CoreVal], alloc: Global) -> Result<Vec<CoreVal>, AllocError>
    ensures { IfOk result (λ v. map plain_val v.items ≡ map plain_val values.now) }
{
    let mut made = Vec::new(alloc);
    for value in values {
        made.push(value.copy(alloc)?)?;
    }
    Ok(made)
}

#[cycle(copy_value)]
fn copy_fields(
    fields: &[(Name, CoreVal)],
    alloc: Global,
) -> Result<Vec<(Name, CoreVal)>, AllocError>
    ensures { IfOk result (λ v. map plain_field v.items ≡ map plain_field fields.now) }
{
    let mut made = Vec::new(alloc);
    for field in fields {
        made.push((field.0, field.1.copy(alloc)?))?;
    }
    Ok(made)
}
