// Whether the fields of a record or an application are as many as those of a record type, and have its labels.

ghost use Rattle.std.specs.Prelude.{◌≡◌, IfOk, OnOk};
ghost use Rattle.pict_syntax.specs.PlainTrees.{field_vals_of, labelled_vals_on, types_on, vals_on};
ghost use Rattle.pict_syntax.specs.Trees.{no_labelled_vals, no_types, no_vals};
ghost use Rattle.pict_types.specs.Plain.{plain_bounds, plain_labels, plain_types};
ghost use Rattle.pict_rules.specs.Shapes.{all_written};
ghost use Rattle.pict_infer.specs.Answering.{IsAnswer, nothing};
ghost use Rattle.pict_lines.specs.Counts.{as_many, counted, none_or_as_many, AddsLabel, HasLabels};

use pict_infer::{InferError, Told};
use pict_syntax::{Code, FieldVals, LabelledVal, Name, Span, TypeTree, Val};
use pict_types::{Bound, Record, Ty};
use std::alloc::{AllocError, Global};
use std::collections::BTreeSet;

/// A label more among those that are written.
fn add_label(written: &mut BTreeSet<u32>, label: u32) -> Result<(), AllocError>
    ensures { OnOk result (AddsLabel written.old written.new label) }
{
    let _ = written.insert(label)?;
    Ok(())
}

/// The labels of labelled values.
fn labels_of(alloc: Global, ls: &[LabelledVal]) -> Result<BTreeSet<u32>, AllocError>
    ensures { IfOk result (λ t. HasLabels t (labelled_vals_on no_labelled_vals ls.now)) }
{
    let mut written = BTreeSet::new(alloc);
    for l in ls {
        add_label(&mut written, l.label.name.0)?;
    }
    Ok(written)
}

/// Whether each label of the fields of a record type is written. Time for n of them among m: n log m comparisons.
fn all_written(alloc: Global, ls: &[LabelledVal], fields: &[(Name, Ty)]) -> Result<bool, AllocError>
    ensures { IfOk result (λ all. all ≡ all_written (plain_labels fields.now) (labelled_vals_on no_labelled_vals ls.now)) }
{
    let written = labels_of(alloc, ls)?;
    for (label, _) in fields {
        if !written.contains(&label.0) {
            return Ok(false);
        }
    }
    Ok(true)
}

/// Whether no type argument is written, or as many as there are type fields. Takes no memory.
fn none_or_as_many(ts: &[TypeTree], bs: &[Bound]) -> bool
    ensures { result ≡ none_or_as_many (types_on no_types ts.now) (plain_bounds bs.now) }
{
    if ts.is_empty() {
        return true;
    }
    ts.len() == bs.len()
}

/// Whether there are as many values as positional fields. Takes no memory.
fn as_many(vs: &[Val], ps: &[Ty]) -> bool
    ensures { result ≡ as_many (vals_on no_vals vs.now) (plain_types ps.now) }
{
    vs.len() == ps.len()
}

/// Y5 at the place where the written type arguments are not none and not as many as type fields, or the positional values
/// not as many as positional fields; and Y6 where a label of the type isn't written.
pub fn counted(alloc: Global, fields: &FieldVals, r: &Record, span: Span) -> Result<(), InferError>
    ensures { IsAnswer (counted span (field_vals_of fields.now) (plain_bounds r.now.binders.items) (plain_types r.now.positional.items)
        (plain_labels r.now.labelled.items)) nothing result }
{
    if !none_or_as_many(&fields.type_arguments, &r.binders) {
        return Err(InferError::Named(Code::Y5, span, Told::Nothing));
    }
    if !as_many(&fields.positional, &r.positional) {
        return Err(InferError::Named(Code::Y5, span, Told::Nothing));
    }
    if !all_written(alloc, &fields.labelled, &r.labelled)? {
        return Err(InferError::Named(Code::Y6, span, Told::Nothing));
    }
    Ok(())
}
