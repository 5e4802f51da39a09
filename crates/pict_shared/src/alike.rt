// Whether two lists of processes differ in the names of channels and in their order alone.

ghost use Rattle.std.specs.Prelude.{◌≡◌, ℕ, List, IsTrue, IfOk, map};
ghost use Rattle.pict_core.specs.Plain.{plain_core};
ghost use Rattle.pict_core.specs.Substitution.{replace};
ghost use Rattle.pict_shared.specs.Alike.{renaming_by, renamed_processes, processes, NamesBack, AreInverse, Rearranges};
ghost use Rattle.pict_shared.specs.Plain.{plain_held};
ghost use Rattle.pict_shared.specs.Taking.{renamed_core, Takes};

use crate::held::Held;
use crate::same::same_core;
use crate::shaped::Shaped;
use std::alloc::{AllocError, Global};
use std::rc::Rc;

// Whether each channel that the first list names is named back by the second.
fn names_back(names: &[u32], back: &[u32]) -> bool
    ensures { IsTrue result → NamesBack names.now back.now }
{
    for c in 0..names.len() {
        let name = names[c] as usize;
        if name >= back.len() {
            return false;
        }
        if back[name] as usize != c {
            return false;
        }
    }
    true
}

/// Whether the lists are bijections of the channels below their length, each the inverse of the other.
pub fn are_inverse(names: &[u32], back: &[u32]) -> bool
    ensures { IsTrue result → AreInverse names.now back.now }
{
    if names.len() != back.len() {
        return false;
    }
    if !names_back(names, back) {
        return false;
    }
    names_back(back, names)
}

// Whether the first becomes the second once its channels are renamed.
fn becomes(names: &[u32], one: &Shaped, other: &Shaped) -> bool
    ensures { IsTrue result → replace (renaming_by names.now) (plain_core one.now.core) ≡ plain_core other.now.core }
{
    if one.shape != other.shape {
        return false;
    }
    same_core(names, &one.core, &other.core)
}

// Takes the first that becomes the process once its channels are renamed: whether there is one.
fn take_same(names: &[u32], left: &mut Vec<Rc<Shaped>>, process: &Shaped) -> bool
    ensures { IsTrue result → Takes names.now left.old.items left.new.items (plain_core process.now.core) }
{
    for i in 0..left.len() {
        if becomes(names, &left[i], process) {
            left.remove(i);
            return true;
        }
    }
    false
}

fn shared(alloc: Global, entries: &[Held]) -> Result<Vec<Rc<Shaped>>, AllocError>
    ensures { IfOk result (λ v. (names : List ℕ) → map (renamed_core names) v.items ≡ renamed_processes names (map plain_held entries.now)) }
{
    let mut made = Vec::new(alloc);
    for entry in entries {
        made.push(entry.process.clone()?)?;
    }
    Ok(made)
}

/// Whether the processes of the first, with their channels renamed, are those of the second in another order. The only error
/// is want of memory.
pub fn are_rearranged(
    alloc: Global,
    names: &[u32],
    ones: &[Held],
    others: &[Held],
) -> Result<bool, AllocError>
    ensures { IfOk result (λ yes. IsTrue yes
        → Rearranges (renamed_processes names.now (map plain_held ones.now)) (processes (map plain_held others.now))) }
{
    let mut left = shared(alloc, ones)?;
    for other in others {
        if !take_same(names, &mut left, &other.process) {
            return Ok(false);
        }
    }
    Ok(left.is_empty())
}
