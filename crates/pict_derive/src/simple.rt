// Simple values: those that are core values as they stand.
ghost use Rattle.std.specs.Prelude.{◌≡◌, [], map, IfOk};
ghost use Rattle.std.specs.Option.{option_map};
ghost use Rattle.pict_core.specs.Plain.{plain_val};
ghost use Rattle.pict_syntax.specs.PlainTrees.{chan_of, val_of, field_vals_of, vals_on, labelled_vals_on};
ghost use Rattle.pict_syntax.specs.Trees.{no_vals, no_labelled_vals};
ghost use Rattle.pict_translation.specs.Simple.{record_of_fields, simple, simple_chan, simple_fields, simple_vals, simple_labelled, use_of};
ghost use Rattle.pict_derive.specs.Built.{field_of, fields_found, place, values_found};

use pict_binders::Binders;
use pict_core::CoreVal;
use pict_scope::primitive_named;
use pict_syntax::{Chan, FieldVals, LabelledVal, Name, Names, Val, sort_labels};
use std::alloc::{AllocError, Global};

/// A use of a name: the variable of its nearest binder, or else the primitive, or else `true`, which no program without
/// scope stop has there. Takes no memory.
pub fn use_core(names: &Names, scope: &Binders, name: Name) -> CoreVal
    ensures { plain_val result ≡ use_of (place names.now scope.now) name.0 }
{
    match scope.nearest(name) {
        Some(level) => CoreVal::Var(level),
        None => match primitive_named(names.text(name)) {
            Some(primitive) => CoreVal::Prim(primitive),
            None => CoreVal::Bool(true),
        },
    }
}

/// A record of these fields, its labels put in the order of their bytes. The only error is want of memory.
pub fn record(
    names: &Names,
    positional: Vec<CoreVal>,
    labelled: Vec<(Name, CoreVal)>,
) -> Result<CoreVal, AllocError>
    ensures { IfOk result (λ v. plain_val v ≡ record_of_fields (place names.now []) (map plain_val positional.items) (map field_of labelled.items)) }
{
    let mut labelled = labelled;
    sort_labels(names, &mut labelled)?;
    Ok(CoreVal::Fields {
        positional,
        labelled,
    })
}

/// The core value of a value, where it is simple. The only error is want of memory.
#[cycle(simple)]
pub fn simple(
    alloc: Global,
    names: &Names,
    scope: &Binders,
    tree: &Val,
) -> Result<Option<CoreVal>, AllocError>
    ensures { IfOk result (λ found. option_map plain_val found ≡ simple (place names.now scope.now) (val_of tree.now)) }
{
    match tree {
        Val::OfChan(chan) => Ok(simple_channel(alloc, names, scope, chan)?),
        Val::Number(_, number) => Ok(Some(CoreVal::Int(*number))),
        Val::Character(_, byte) => Ok(Some(CoreVal::Char(*byte))),
        Val::String(_, bytes) => Ok(Some(CoreVal::Text(bytes.copy(alloc)?))),
        Val::True(_) => Ok(Some(CoreVal::Bool(true))),
        Val::False(_) => Ok(Some(CoreVal::Bool(false))),
        Val::Fields(_, parts) => Ok(simple_fields(alloc, names, scope, parts)?),
        Val::If(_, _, _, _) => Ok(None),
        Val::Lambda(_, _) => Ok(None),
    }
}

/// The same for a value that stands as a channel.
#[cycle(simple)]
pub fn simple_channel(
    alloc: Global,
    names: &Names,
    scope: &Binders,
    tree: &Chan,
) -> Result<Option<CoreVal>, AllocError>
    ensures { IfOk result (λ found. option_map plain_val found ≡ simple_chan (place names.now scope.now) (chan_of tree.now)) }
{
    match tree {
        Chan::Use(_, name) => Ok(Some(use_core(names, scope, *name))),
        Chan::Fold(_, _, inner) => Ok(simple(alloc, names, scope, inner)?),
        Chan::Block(_, _, _) => Ok(None),
        Chan::Apply(_, _, _) => Ok(None),
        Chan::Right(_, _, _) => Ok(None),
        Chan::Left(_, _, _) => Ok(None),
    }
}

#[cycle(simple)]
fn simple_fields(
    alloc: Global,
    names: &Names,
    scope: &Binders,
    parts: &FieldVals,
) -> Result<Option<CoreVal>, AllocError>
    ensures { IfOk result (λ found. option_map plain_val found ≡ simple_fields (place names.now scope.now) (field_vals_of parts.now)) }
{
    let Some(positional) = simple_values(alloc, names, scope, &parts.positional)? else {
        return Ok(None);
    };
    let Some(labelled) = simple_labelled(alloc, names, scope, &parts.labelled)? else {
        return Ok(None);
    };
    Ok(Some(record(names, positional, labelled)?))
}

#[cycle(simple)]
fn simple_values(
    alloc: Global,
    names: &Names,
    scope: &Binders,
    trees: &[Val],
) -> Result<Option<Vec<CoreVal>>, AllocError>
    ensures { IfOk result (λ found. values_found found ≡ simple_vals (place names.now scope.now) (vals_on no_vals trees.now)) }
{
    let mut values = Vec::new(alloc);
    for tree in trees {
        match simple(alloc, names, scope, tree)? {
            None => return Ok(None),
            Some(value) => values.push(value)?,
        }
    }
    Ok(Some(values))
}

#[cycle(simple)]
fn simple_labelled(
    alloc: Global,
    names: &Names,
    scope: &Binders,
    trees: &[LabelledVal],
) -> Result<Option<Vec<(Name, CoreVal)>>, AllocError>
    ensures { IfOk result (λ found. fields_found found ≡ simple_labelled (place names.now scope.now) (labelled_vals_on no_labelled_vals trees.now)) }
{
    let mut fields = Vec::new(alloc);
    for tree in trees {
        match simple(alloc, names, scope, &tree.value)? {
            None => return Ok(None),
            Some(value) => fields.push((tree.label.name, value))?,
        }
    }
    Ok(Some(fields))
}
