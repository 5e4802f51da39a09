// Lists of levels.
ghost use Rattle.std.specs.Prelude.{◌≡◌, ℕ, ◌||◌, ◌&&◌, nat_lt, map, IfOk, OnOk};
ghost use Rattle.pict_core.specs.Plain.{plain_val, plain_field, vals_of, labelled_of};
ghost use Rattle.pict_code.specs.Frames.{in_value, in_values, in_labelled};
ghost use Rattle.pict_code.specs.Levels.{has, Rises};

use pict_core::CoreVal;
use pict_syntax::Name;
use std::alloc::{AllocError, Global};

/// Puts the levels of the variables in a value behind what is there, each as often as it occurs.
#[cycle(variables)]
pub fn variables(levels: &mut Vec<u32>, value: &CoreVal) -> Result<(), AllocError>
    ensures { OnOk result ((level : ℕ) → has level levels.new.items ≡ has level levels.old.items || in_value level (plain_val value.now)) }
{
    match value {
        CoreVal::Var(level) => {
            levels.push(*level)?;
            Ok(())
        }
        CoreVal::Fields {
            positional,
            labelled,
        } => {
            field_variables(levels, positional)?;
            labelled_variables(levels, labelled)
        }
        _ => Ok(()),
    }
}

#[cycle(variables)]
fn field_variables(levels: &mut Vec<u32>, fields: &[CoreVal]) -> Result<(), AllocError>
    ensures { OnOk result ((level : ℕ) → has level levels.new.items ≡ has level levels.old.items || in_values level (vals_of (map plain_val fields.now))) }
{
    for field in fields {
        variables(levels, field)?;
    }
    Ok(())
}

#[cycle(variables)]
fn labelled_variables(levels: &mut Vec<u32>, fields: &[(Name, CoreVal)]) -> Result<(), AllocError>
    ensures { OnOk result ((level : ℕ)
        → has level levels.new.items ≡ has level levels.old.items || in_labelled level (labelled_of (map plain_field fields.now))) }
{
    for field in fields {
        variables(levels, &field.1)?;
    }
    Ok(())
}

/// The levels in order, each once.
pub fn in_order(levels: Vec<u32>) -> Vec<u32>
    ensures rises { Rises 0 result.items }
    ensures same { (level : ℕ) → has level result.items ≡ has level levels.items }
{
    let mut levels = levels;
    levels.sort_unstable();
    levels.dedup();
    levels
}

/// The levels below this one. Takes no memory.
pub fn below(levels: &[u32], limit: u32) -> &[u32]
    requires { Rises 0 levels.now }
    ensures rises { Rises 0 result.now }
    ensures below { (level : ℕ) → has level result.now ≡ nat_lt level limit && has level levels.now }
{
    let mut count = levels.len();
    while count > 0 && levels[count - 1] >= limit {
        count -= 1;
    }
    &levels[..count]
}

/// The levels of both lists in order, each once. The time is that of their lengths.
pub fn united(alloc: Global, left: &[u32], right: &[u32]) -> Result<Vec<u32>, AllocError>
    requires left { Rises 0 left.now }
    requires right { Rises 0 right.now }
    ensures rises { IfOk result (λ u. Rises 0 u.items) }
    ensures both { IfOk result (λ u. (level : ℕ) → has level u.items ≡ has level left.now || has level right.now) }
{
    let mut made = Vec::new(alloc);
    let mut i = 0;
    let mut j = 0;
    while i < left.len() && j < right.len() {
        let (l, r) = (left[i], right[j]);
        made.push(l.min(r))?;
        i += usize::from(l <= r);
        j += usize::from(r <= l);
    }
    made.extend_from_slice(&left[i..])?;
    made.extend_from_slice(&right[j..])?;
    Ok(made)
}
