// Processes read from objects.

ghost use Rattle.std.specs.Prelude.{◌≡◌, ◌<◌, ◌+◌, ◌^◌, ◌↔◌, ◌∷◌, ◌||◌, ℕ, List, nat_eq, false, length, get_or, take, Err, IfOk, OnOk, IsTrue};
ghost use Rattle.std.specs.List.{list_any};
ghost use Rattle.pict_syntax.specs.Names.{with_names};
ghost use Rattle.pict_core.specs.Plain.{plain_core};
ghost use Rattle.pict_object.specs.declared.error.DecodeError.TheVariants.{NotObject};
ghost use Rattle.pict_object.specs.Decoded.{IsNoObject, IsDecoded, GainsLabels};
ghost use Rattle.pict_object.specs.Collected.{numbers};
ghost use Rattle.pict_object.specs.Heads.{lent, own_labels, UsesAll, UsesLabels, AreMarks, AreNumbered};

use crate::error::DecodeError;
use crate::labels::collect;
use crate::process::read_whole;
use crate::table::read_table;
use pict_core::Core;
use pict_syntax::{Name, Names};
use std::alloc::{AllocError, Global};

/// The process whose object these bytes are, without places. Its labels are numbered by the names, which gain those that they
/// lacked.
///
/// The bytes are no object exactly where that is the answer, and then the names stay as they were. Otherwise the only error is
/// want of memory; then the names may have gained some of the object's labels. A process of at most the limits' depth and
/// nesting is read in time and memory in proportion to its bytes.
pub fn decode(alloc: Global, names: &mut Names, bytes: &[u8]) -> Result<Core, DecodeError>
    requires room { length names.old + length bytes.now < 2 ^ 32 }
    ensures object { IfOk result (λ core. IsDecoded names.old names.new bytes.now (plain_core core)) }
    ensures refused { result ≡ Err NotObject → IsNoObject bytes.now }
    ensures unchanged { result ≡ Err NotObject → names.new ≡ names.old }
    ensures gained { GainsLabels bytes.now names.old names.new }
{
    let (table, process) = read_table(alloc, bytes)?;
    check(alloc, process, table.len())?;
    let labels = number(alloc, names, &table)?;
    read_whole(alloc, process, &labels)
}

// Reads a process with so many labels, all of which it is to use, and lets it go.
fn check(alloc: Global, bytes: &[u8], many: usize) -> Result<(), DecodeError>
    requires few { many < 2 ^ 32 }
    ensures ok { OnOk result (UsesLabels many bytes.now) }
    ensures refused { result ≡ Err NotObject → ¬ UsesLabels many bytes.now }
{
    let labels = own(alloc, many)?;
    let core = read_whole(alloc, bytes, &labels)?;
    let mut used = Vec::new(alloc);
    collect(&mut used, &core)?;
    if uses_all(alloc, &used, many)? {
        Ok(())
    } else {
        Err(DecodeError::NotObject)
    }
}

// So many labels, each with its place as its number.
fn own(alloc: Global, many: usize) -> Result<Vec<Name>, AllocError>
    requires few { many < 2 ^ 32 }
    ensures { IfOk result (λ labels. labels.items ≡ own_labels many) }
{
    let mut labels = Vec::new(alloc);
    for k in 0..many {
        labels.push(Name(k as u32))?;
    }
    Ok(labels)
}

// Whether each number below this one stands among these.
fn uses_all(alloc: Global, labels: &[(Name, ())], many: usize) -> Result<bool, AllocError>
    ensures yes { IfOk result (λ all. IsTrue all → UsesAll many (numbers labels.now)) }
    ensures no { IfOk result (λ all. all ≡ false → ¬ UsesAll many (numbers labels.now)) }
{
    let used = marks(alloc, labels, many)?;
    Ok(all_marked(&used))
}

// For each number below this one, whether it stands among these.
fn marks(alloc: Global, labels: &[(Name, ())], many: usize) -> Result<Vec<bool>, AllocError>
    ensures { IfOk result (λ used. AreMarks used.items many (numbers labels.now)) }
{
    let mut used = vec![in alloc; false; many]?;
    for label in labels {
        mark(&mut used, label.0.0 as usize);
    }
    Ok(used)
}

// Marks a number, where it is below how many there are.
fn mark(used: &mut [bool], place: usize)
    ensures len { length used.new ≡ length used.old }
    ensures marks { (rest : List ℕ) (k : ℕ) → k < length used.old
        → (get_or used.new k false || list_any (nat_eq k) rest) ≡ (get_or used.old k false || list_any (nat_eq k) (place ∷ rest)) }
{
    if place < used.len() {
        used[place] = true;
    }
}

fn all_marked(used: &[bool]) -> bool
    ensures { IsTrue result ↔ ((k : ℕ) → k < length used.now → IsTrue (get_or used.now k false)) }
{
    for mark in used {
        if !*mark {
            return false;
        }
    }
    true
}

// Interns labels in turn, and answers their numbers.
fn number(alloc: Global, names: &mut Names, table: &[&[u8]]) -> Result<Vec<Name>, AllocError>
    requires room { length names.old + length table.now < 2 ^ 32 }
    ensures gained { (count : ℕ) × (names.new ≡ with_names names.old (take count (lent table.now))) }
    ensures numbered { IfOk result (λ labels. AreNumbered names.old names.new (lent table.now) labels.items) }
{
    let mut labels = Vec::with_capacity(alloc, table.len())?;
    for text in table {
        let label = names.intern(*text)?;
        labels.push(label)?;
    }
    Ok(labels)
}
