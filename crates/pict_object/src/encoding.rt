// Processes written as objects.

ghost use Rattle.std.specs.Prelude.{◌≡◌, ◌<◌, ◌≤◌, ◌-◌, ◌^◌, ◌++◌, ℕ, min, length, Err, IfOk, OnOk};
ghost use Rattle.std.specs.List.{AllByRecursion, flat_map};
ghost use Rattle.pict_syntax.specs.Names.{text_of, HasNoRepeats};
ghost use Rattle.pict_core.specs.Plain.{plain_core};
ghost use Rattle.pict_object.specs.declared.error.EncodeError.TheVariants.{TooBig};
ghost use Rattle.pict_object.specs.Objects.{labels_of, AreLabels, count_bytes, text_bytes, object_bytes};
ghost use Rattle.pict_object.specs.Cores.{IsLabelText, IsObjectCore, IsObject};
ghost use Rattle.pict_object.specs.Sizes.{ProcessFits};
ghost use Rattle.pict_object.specs.Collected.{texts_of};
ghost use Rattle.pict_object.specs.Small.{IsSmall, IsTooBig};

use crate::error::EncodeError;
use crate::labels::{collect, distinct, places};
use crate::size::process_size;
use crate::write::{write_count, write_process};
use pict_core::Core;
use pict_syntax::{Name, Names, sort_labels};
use std::alloc::{AllocError, Global};

/// The object of a process, whose labels are numbered by these names.
///
/// An object of more bytes than the limit is not made: the answer is then how many it would have. Otherwise the only error is
/// want of memory. The time is that of reading the process and of sorting its labels.
pub fn encode(alloc: Global, names: &Names, core: &Core, limit: u64) -> Result<Vec<u8>, EncodeError>
    requires core { IsObjectCore names.now (plain_core core.now) }
    requires limit { limit < 2 ^ 32 }
    ensures object { IfOk result (λ object. IsObject names.now object.items (plain_core core.now)) }
    ensures within { IfOk result (λ object. length object.items ≤ limit) }
    ensures too_big { (n : ℕ) → result ≡ Err (TooBig n) → IsTooBig names.now (plain_core core.now) limit n }
{
    let table = labels_in(alloc, names, core)?;
    let size = object_size(names, &table, core);
    if size > limit {
        return Err(EncodeError::TooBig(size));
    }
    Ok(write_object(alloc, names, &table, core)?)
}

// The labels of a process, each once, in the order of their bytes.
fn labels_in(alloc: Global, names: &Names, core: &Core) -> Result<Vec<Name>, AllocError>
    requires { AllByRecursion (λ label. IsLabelText (text_of names.now label)) (labels_of (plain_core core.now)) }
    ensures { IfOk result (λ table. AreLabels names.now (plain_core core.now) (texts_of names.now table.items)) }
{
    let mut labels = Vec::new(alloc);
    collect(&mut labels, core)?;
    sort_labels(names, &mut labels)?;
    distinct(alloc, names, &labels)
}

// How many bytes the object with these labels has. Held at the greatest `u64`.
fn object_size(names: &Names, table: &[Name], core: &Core) -> u64
    ensures size { result ≡ min (length (object_bytes names.now (texts_of names.now table.now) (plain_core core.now))) (2 ^ 64 - 1) }
    ensures fits { ProcessFits (plain_core core.now) }
{
    let mut size = process_size(core).saturating_add(9);
    for label in table {
        let text = names.text(*label);
        size = size.saturating_add(text.len() as u64).saturating_add(4);
    }
    size
}

// The object with these labels.
fn write_object(
    alloc: Global,
    names: &Names,
    table: &[Name],
    core: &Core,
) -> Result<Vec<u8>, AllocError>
    requires small { IsSmall names.now table.now (plain_core core.now) }
    requires labels { AreLabels names.now (plain_core core.now) (texts_of names.now table.now) }
    ensures { IfOk result (λ object. object.items ≡ object_bytes names.now (texts_of names.now table.now) (plain_core core.now)) }
{
    let _distinct = names.text(Name(0));
    let places = places(alloc, table)?;
    let mut object = Vec::from_slice(alloc, b"PICT\x01")?;
    write_table(&mut object, names, table)?;
    write_process(&mut object, &places, core)?;
    Ok(object)
}

// How many labels, and each behind its length.
fn write_table(out: &mut Vec<u8>, names: &Names, table: &[Name]) -> Result<(), AllocError>
    requires few { length table.now < 2 ^ 32 }
    requires short { AllByRecursion (λ text. length text < 2 ^ 32) (texts_of names.now table.now) }
    ensures { OnOk result (out.new.items ≡ out.old.items ++ (count_bytes (length table.now) ++ flat_map text_bytes (texts_of names.now table.now))) }
{
    write_count(out, table.len())?;
    for label in table {
        let text = names.text(*label);
        write_count(out, text.len())?;
        out.extend_from_slice(text)?;
    }
    Ok(())
}
