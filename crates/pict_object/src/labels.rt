// The labels of a process: those that occur, each once, in the order of their bytes, and the place of each.

ghost use Rattle.std.specs.Prelude.{◌≡◌, ◌<◌, ◌≤◌, ◌^◌, ◌++◌, ℕ, [], map, length, IfOk, OnOk};
ghost use Rattle.pict_syntax.specs.Names.{text_of};
ghost use Rattle.pict_syntax.specs.declared.name.Name.{Name};
ghost use Rattle.pict_core.specs.Plain.{plain_core, plain_pat, plain_val, plain_field, plain_pat_field, vals_of, labelled_of, pats_of, labelled_pats_of};
ghost use Rattle.pict_object.specs.Objects.{labels_of, labels_of_value, labels_of_values, labels_of_labelled, labels_of_pattern, labels_of_patterns, labels_of_labelled_patterns};
ghost use Rattle.pict_object.specs.Sizes.{place_at};
ghost use Rattle.pict_object.specs.Collected.{numbers, texts_of, distinct_after, number_at, AreApart};

use pict_core::{Core, CorePat, CoreVal};
use pict_syntax::{Name, Names};
use std::alloc::{AllocError, Global};

/// Adds the labels of a process, as often as they stand.
pub(crate) fn collect(labels: &mut Vec<(Name, ())>, core: &Core) -> Result<(), AllocError>
    ensures { OnOk result (numbers labels.new.items ≡ numbers labels.old.items ++ labels_of (plain_core core.now)) }
{
    match core {
        Core::Zero => Ok(()),
        Core::Par(left, right) => {
            collect(labels, left.core())?;
            collect(labels, right.core())
        }
        Core::New(body) => collect(labels, body.core()),
        Core::Out { chan, message, .. } => {
            collect_value(labels, chan)?;
            collect_value(labels, message)
        }
        Core::In {
            chan,
            pattern,
            body,
            ..
        } => {
            collect_value(labels, chan)?;
            collect_pattern(labels, pattern)?;
            collect(labels, body.core())
        }
        Core::If { test, yes, no } => {
            collect_value(labels, test)?;
            collect(labels, yes.core())?;
            collect(labels, no.core())
        }
    }
}

#[cycle(collect_value)]
fn collect_value(labels: &mut Vec<(Name, ())>, value: &CoreVal) -> Result<(), AllocError>
    ensures { OnOk result (numbers labels.new.items ≡ numbers labels.old.items ++ labels_of_value (plain_val value.now)) }
{
    match value {
        CoreVal::Fields {
            positional,
            labelled,
        } => {
            collect_values(labels, positional)?;
            collect_fields(labels, labelled)
        }
        _ => Ok(()),
    }
}

#[cycle(collect_value)]
fn collect_values(labels: &mut Vec<(Name, ())>, values: &[CoreVal]) -> Result<(), AllocError>
    ensures { OnOk result (numbers labels.new.items ≡ numbers labels.old.items ++ labels_of_values (vals_of (map plain_val values.now))) }
{
    for value in values {
        collect_value(labels, value)?;
    }
    Ok(())
}

#[cycle(collect_value)]
fn collect_fields(
    labels: &mut Vec<(Name, ())>,
    fields: &[(Name, CoreVal)],
) -> Result<(), AllocError>
    ensures { OnOk result (numbers labels.new.items ≡ numbers labels.old.items ++ labels_of_labelled (labelled_of (map plain_field fields.now))) }
{
    for field in fields {
        labels.push((field.0, ()))?;
        collect_value(labels, &field.1)?;
    }
    Ok(())
}

#[cycle(collect_pattern)]
fn collect_pattern(labels: &mut Vec<(Name, ())>, pattern: &CorePat) -> Result<(), AllocError>
    ensures { OnOk result (numbers labels.new.items ≡ numbers labels.old.items ++ labels_of_pattern (plain_pat pattern.now)) }
{
    match pattern {
        CorePat::Bind => Ok(()),
        CorePat::Any => Ok(()),
        CorePat::Fields {
            positional,
            labelled,
        } => {
            collect_patterns(labels, positional)?;
            collect_pattern_fields(labels, labelled)
        }
    }
}

#[cycle(collect_pattern)]
fn collect_patterns(labels: &mut Vec<(Name, ())>, patterns: &[CorePat]) -> Result<(), AllocError>
    ensures { OnOk result (numbers labels.new.items ≡ numbers labels.old.items ++ labels_of_patterns (pats_of (map plain_pat patterns.now))) }
{
    for pattern in patterns {
        collect_pattern(labels, pattern)?;
    }
    Ok(())
}

#[cycle(collect_pattern)]
fn collect_pattern_fields(
    labels: &mut Vec<(Name, ())>,
    fields: &[(Name, CorePat)],
) -> Result<(), AllocError>
    ensures { OnOk result (numbers labels.new.items ≡ numbers labels.old.items
        ++ labels_of_labelled_patterns (labelled_pats_of (map plain_pat_field fields.now))) }
{
    for field in fields {
        labels.push((field.0, ()))?;
        collect_pattern(labels, &field.1)?;
    }
    Ok(())
}

/// Of labels in order, one of those with the same text each. The only error is want of memory.
pub(crate) fn distinct(
    alloc: Global,
    names: &Names,
    labels: &[(Name, ())],
) -> Result<Vec<Name>, AllocError>
    ensures { IfOk result (λ table. texts_of names.now table.items ≡ distinct_after [] (map (text_of names.now) (numbers labels.now))) }
{
    let mut table = Vec::new(alloc);
    let mut last: &[u8] = &[];
    for label in labels {
        let text = names.text(label.0);
        if text != last {
            table.push(label.0)?;
            last = text;
        }
    }
    Ok(table)
}

/// The place of each label of a table, at its number. The only error is want of memory.
pub(crate) fn places(alloc: Global, table: &[Name]) -> Result<Vec<u32>, AllocError>
    requires few { length table.now < 2 ^ 32 }
    requires apart { AreApart table.now }
    ensures { IfOk result (λ places. (k : ℕ) → k < length table.now → place_at places.items (number_at table.now k) ≡ k) }
{
    let mut places = Vec::new(alloc);
    for k in 0..table.len() {
        let label = table[k].0 as usize;
        cover(&mut places, label + 1)?;
        places[label] = k as u32;
    }
    Ok(places)
}

// Makes room for so many places.
fn cover(places: &mut Vec<u32>, len: usize) -> Result<(), AllocError>
    ensures same { OnOk result ((label : ℕ) → place_at places.new.items label ≡ place_at places.old.items label) }
    ensures room { OnOk result (len ≤ length places.new.items) }
{
    while places.len() < len {
        places.push(0)?;
    }
    Ok(())
}
