// What patterns add to what is known.

ghost use Rattle.std.specs.Prelude.{◌≡◌, ◌+◌, ◌≤◌, ◌++◌, ℕ, length, IfOk};
ghost use Rattle.pict_types.specs.Plain.{plain_bound};
ghost use Rattle.pict_types.specs.Renaming.{moved, rename_bound};
ghost use Rattle.pict_rules.specs.Environments.{moved_binders};
ghost use Rattle.pict_infer.specs.Knowing.{deepest, known_types};
ghost use Rattle.pict_infer.specs.Beside.{AreJoined, IsMovedPast};

use crate::known::{Binder, Known};
use pict_syntax::Id;
use pict_types::{Bound, Ty, shift_type};
use std::alloc::{AllocError, Global};

/// What a pattern adds, where `base` type variables are known: type variables, the outermost first, and values, the
/// nearest last. The depth of a value counts the known type variables too.
#[derive(Drop)]
pub struct Added {
    pub base: u32,
    pub binders: Vec<Binder>,
    pub values: Vec<Known>,
    ghost placed: { deepest values.items ≤ base + length binders.items },
}

impl Added {
    ghost use Rattle.std.specs.Prelude.{◌≡◌, ◌+◌, ◌≤◌, length, IfOk};
    ghost use Rattle.pict_types.specs.Plain.{plain};
    ghost use Rattle.pict_rules.specs.Environments.{joined_extensions, no_extension, one_value, within};
    ghost use Rattle.pict_infer.specs.Knowing.{known_types};
    ghost use Rattle.pict_infer.specs.Adding.{extension_of};

    /// Nothing. Takes no memory.
    pub fn nothing(alloc: Global, base: u32) -> Added
        ensures base { result.base ≡ base }
        ensures nothing { extension_of result ≡ no_extension }
    {
        Added {
            base,
            binders: Vec::new(alloc),
            values: Vec::new(alloc),
        }
    }

    /// One value, whose type is written in the type variables that are known. The only error is want of memory.
    pub fn value(alloc: Global, base: u32, id: Id, has: Ty) -> Result<Added, AllocError>
        ensures base { IfOk result (λ x. x.base ≡ base) }
        ensures value { IfOk result (λ x. extension_of x ≡ one_value id (plain has)) }
    {
        let mut values = Vec::new(alloc);
        values.push(Known {
            name: id.name,
            depth: base,
            has,
        })?;
        Ok(Added {
            base,
            binders: Vec::new(alloc),
            values,
        })
    }

    /// What two patterns side by side add: the second is put inside the first. The only error is want of memory, also
    /// where a `u32` can't number the variables.
    pub fn join(self, alloc: Global, inner: Added) -> Result<Added, AllocError>
        requires base { inner.base ≡ self.base }
        ensures base { IfOk result (λ x. x.base ≡ self.base) }
        ensures joined { IfOk result (λ x. extension_of x ≡ joined_extensions (extension_of self) (extension_of inner)) }
    {
        let base = self.base;
        let by = match u32::try_from(self.binders.len()) {
            Ok(by) => by,
            Err(_) => return Err(AllocError),
        };
        let values = join_values(alloc, self.values, inner.values, base, by)?;
        let binders = join_binders(alloc, self.binders, inner.binders, by)?;
        Ok(Added {
            base,
            binders,
            values,
        })
    }

    /// What is added within these type variables, the outermost first, and these. The only error is want of memory.
    pub fn under(self, own: Vec<Binder>) -> Result<Added, AllocError>
        requires base { length own.items ≤ self.base }
        ensures base { IfOk result (λ x. x.base + length own.items ≡ self.base) }
        ensures under { IfOk result (λ x. extension_of x ≡ within (known_types own.items) (extension_of self)) }
    {
        let base = self.base - own.len() as u32;
        let mut binders = own;
        let mut inner = self.binders;
        binders.append(&mut inner)?;
        Ok(Added {
            base,
            binders,
            values: self.values,
        })
    }
}

/// The bound with `by` more variables between it and its context, where the `from` innermost ones stay.
fn moved_bound(alloc: Global, b: Bound, by: u32, from: usize) -> Result<Bound, AllocError>
    ensures { IfOk result (λ d. plain_bound d ≡ rename_bound (moved by from) (plain_bound b)) }
{
    if by == 0 {
        return Ok(b);
    }
    if let Bound::Below(t) = &b {
        return Ok(Bound::Below(shift_type(alloc, t, by, from)?));
    }
    Ok(b)
}

/// So many type variables and some more. An error where a `u32` can't hold the number.
fn deeper(depth: u32, by: u32) -> Result<u32, AllocError>
    ensures { IfOk result (λ n. n ≡ depth + by) }
{
    depth.checked_add(by).ok_or(AllocError)
}

/// The value past `by` more variables, which come after the `base` outermost ones. A type that is written in those alone
/// stays as it is.
fn moved_value(alloc: Global, v: Known, base: u32, by: u32) -> Result<Known, AllocError>
    ensures { IfOk result (λ w. (more : ℕ) → v.depth ≤ base + more → IsMovedPast base by more v w) }
{
    if by == 0 {
        return Ok(v);
    }
    if v.depth <= base {
        return Ok(v);
    }
    let depth = deeper(v.depth, by)?;
    let has = shift_type(alloc, &v.has, by, (v.depth - base) as usize)?;
    Ok(Known {
        name: v.name,
        depth,
        has,
    })
}

/// The type variables of two patterns side by side, of which the first has `by`.
fn join_binders(
    alloc: Global,
    outer: Vec<Binder>,
    inner: Vec<Binder>,
    by: u32,
) -> Result<Vec<Binder>, AllocError>
    requires by { by ≡ length outer.items }
    ensures count { IfOk result (λ all. length all.items ≡ by + length inner.items) }
    ensures joined { IfOk result (λ all. known_types all.items ≡ moved_binders by (known_types inner.items) ++ known_types outer.items) }
{
    let mut all = outer;
    for b in inner {
        let from = all.len() - by as usize;
        let bound = moved_bound(alloc, b.bound, by, from)?;
        all.push(Binder {
            name: b.name,
            bound,
        })?;
    }
    Ok(all)
}

/// The values of two patterns side by side, of which the first has `by` type variables.
fn join_values(
    alloc: Global,
    outer: Vec<Known>,
    inner: Vec<Known>,
    base: u32,
    by: u32,
) -> Result<Vec<Known>, AllocError>
    requires outer { deepest outer.items ≤ base + by }
    ensures { IfOk result (λ all. AreJoined base by outer.items inner.items all.items) }
{
    let mut all = outer;
    for v in inner {
        all.push(moved_value(alloc, v, base, by)?)?;
    }
    Ok(all)
}
