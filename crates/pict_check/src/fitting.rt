// Fields that fit a record type, and the values of fields.

ghost use Rattle.std.specs.Prelude.{◌≡◌, length, OnOk};
ghost use Rattle.pict_syntax.specs.declared.tree.Abs.TheViews.{out-FieldVals};
ghost use Rattle.pict_syntax.specs.PlainTrees.{field_vals_of, labelled_vals_on, val_of, vals_on};
ghost use Rattle.pict_syntax.specs.Trees.{no_labelled_vals, no_vals};
ghost use Rattle.pict_types.specs.Kinds.{LabelsAreWellFormed};
ghost use Rattle.pict_types.specs.Plain.{plain, plain_args, plain_labels, plain_types};
ghost use Rattle.pict_scope.specs.DistinctLabels.{LabelledValsAreDistinct, ValHasDistinctLabels};
ghost use Rattle.pict_rules.specs.Regular.{FoundFits, IsRegular, kinds_in, kinds_within};
ghost use Rattle.pict_rules.specs.Rules.{arguments_, found_, labelled_values_fit, value_fits, values_fit};
ghost use Rattle.pict_rules.specs.Typing.{rule};
ghost use Rattle.pict_infer.specs.Answering.{IsAnswer};
ghost use Rattle.pict_infer.specs.Asking.{IsWellAsked};
ghost use Rattle.pict_infer.specs.Environments.{environment_of, IsAsBefore};
ghost use Rattle.pict_check.specs.Records.{labelled_of, labelled_value_fits, positional_of, fits_record, values_in_order};
ghost use Rattle.pict_lines.specs.Reading.{found_for};

use crate::values::{gives, has};
use pict_infer::{Env, InferError, changed_or_same, labelled_type};
use pict_lines::counts::counted;
use pict_lines::fields::{fields_end, given_fits, mentions_missing, wanted};
use pict_lines::records::{record_instance, written_arguments};
use pict_match::{Found, match_type};
use pict_syntax::{FieldVals, LabelledVal, Name, Span, Val, val_span};
use pict_types::{Arg, Bound, Record, Ty};
use std::alloc::Global;

/// Fields fit a record type, of whose type fields some may be found before: the arguments for all of them.
#[cycle(values)]
pub fn fields_fit(
    alloc: Global,
    env: &mut Env,
    fields: &FieldVals,
    r: &Record,
    found: Found,
    span: Span,
) -> Result<Vec<Arg>, InferError>
    requires right { IsWellAsked arguments_ (environment_of env.old) (fits_record span (field_vals_of fields.now) r.now (found_for r.now.binders.items found)) }
    requires count { length found.list.items ≡ length r.now.binders.items }
    ensures answer { IsAnswer (rule (environment_of env.old) (fits_record span (field_vals_of fields.now) r.now (found_for r.now.binders.items found)))
        (λ args. plain_args args.items) result }
    ensures same { OnOk result (IsAsBefore env.old env.new) }
{
    counted(alloc, fields, r, span)?;
    if fields.type_arguments.is_empty() {
        let mut found = found;
        in_order(alloc, env, fields, r, &mut found, span)?;
        return fields_end(alloc, env, &r.binders, &found, span);
    }
    let args = written_arguments(alloc, env, &fields.type_arguments, &r.binders, span)?;
    let put = record_instance(alloc, env, r, &args, span)?;
    let mut none = Found {
        list: Vec::new(alloc),
    };
    in_order(alloc, env, fields, &put, &mut none, span)?;
    Ok(args)
}

/// The values of the fields of a record fit its field types, in written order.
#[cycle(values)]
fn in_order(
    alloc: Global,
    env: &mut Env,
    fields: &FieldVals,
    r: &Record,
    found: &mut Found,
    span: Span,
) -> Result<(), InferError>
    requires positional { IsWellAsked found_ (environment_of env.old)
        (values_fit span (positional_of (field_vals_of fields.now)) (plain_types r.now.positional.items) (found_for r.now.binders.items found.old)) }
    requires labels { LabelledValsAreDistinct (labelled_of (field_vals_of fields.now)) }
    requires labelled { LabelsAreWellFormed (environment_of env.old).names
        (kinds_within (kinds_in (environment_of env.old)) (found_for r.now.binders.items found.old)) (plain_labels r.now.labelled.items) }
    requires few { length (out-FieldVals fields.now).positional.items ≡ length r.now.positional.items }
    requires count { length found.old.list.items ≡ length r.now.binders.items }
    ensures answer { IsAnswer (values_in_order (environment_of env.old) span (field_vals_of fields.now) r.now (found_for r.now.binders.items found.old))
        (λ _. found_for r.now.binders.items found.new) result }
    ensures count { OnOk result (length found.new.list.items ≡ length r.now.binders.items) }
    ensures same { OnOk result (IsAsBefore env.old env.new) }
{
    values_fit(
        alloc,
        env,
        &fields.positional,
        &r.positional,
        &r.binders,
        found,
        span,
    )?;
    labelled_values_fit(
        alloc,
        env,
        &fields.labelled,
        &r.labelled,
        &r.binders,
        found,
        span,
    )
}

/// Values fit as many field types, in order.
#[cycle(values)]
fn values_fit(
    alloc: Global,
    env: &mut Env,
    vs: &[Val],
    ts: &[Ty],
    bs: &[Bound],
    found: &mut Found,
    span: Span,
) -> Result<(), InferError>
    requires right { IsWellAsked found_ (environment_of env.old) (values_fit span (vals_on no_vals vs.now) (plain_types ts.now) (found_for bs.now found.old)) }
    requires few { length vs.now ≡ length ts.now }
    requires count { length found.old.list.items ≡ length bs.now }
    ensures answer { IsAnswer (rule (environment_of env.old) (values_fit span (vals_on no_vals vs.now) (plain_types ts.now) (found_for bs.now found.old)))
        (λ _. found_for bs.now found.new) result }
    ensures count { OnOk result (length found.new.list.items ≡ length bs.now) }
    ensures same { OnOk result (IsAsBefore env.old env.new) }
{
    for (i, v) in vs.iter().enumerate() {
        value_fits(alloc, env, v, &ts[i], bs, found, span)?;
    }
    Ok(())
}

/// Labelled values fit the field types at their labels. One whose label there is none for gives any type.
#[cycle(values)]
fn labelled_values_fit(
    alloc: Global,
    env: &mut Env,
    ls: &[LabelledVal],
    ts: &[(Name, Ty)],
    bs: &[Bound],
    found: &mut Found,
    span: Span,
) -> Result<(), InferError>
    requires right { IsWellAsked found_ (environment_of env.old)
        (labelled_values_fit span (labelled_vals_on no_labelled_vals ls.now) (plain_labels ts.now) (found_for bs.now found.old)) }
    requires count { length found.old.list.items ≡ length bs.now }
    ensures answer { IsAnswer (rule (environment_of env.old)
        (labelled_values_fit span (labelled_vals_on no_labelled_vals ls.now) (plain_labels ts.now) (found_for bs.now found.old)))
        (λ _. found_for bs.now found.new) result }
    ensures count { OnOk result (length found.new.list.items ≡ length bs.now) }
    ensures same { OnOk result (IsAsBefore env.old env.new) }
{
    for l in ls {
        labelled_value_fits(alloc, env, l, ts, bs, found, span)?;
    }
    Ok(())
}

/// A labelled value fits the field type at its label; where there is none, it gives any type.
#[cycle(values)]
fn labelled_value_fits(
    alloc: Global,
    env: &mut Env,
    l: &LabelledVal,
    ts: &[(Name, Ty)],
    bs: &[Bound],
    found: &mut Found,
    span: Span,
) -> Result<(), InferError>
    requires labels { ValHasDistinctLabels (val_of l.now.value) }
    requires regular { IsRegular (environment_of env.old) }
    requires labelled { LabelsAreWellFormed (environment_of env.old).names (kinds_within (kinds_in (environment_of env.old)) (found_for bs.now found.old))
        (plain_labels ts.now) }
    requires fits { FoundFits (environment_of env.old) (found_for bs.now found.old) }
    requires count { length found.old.list.items ≡ length bs.now }
    ensures answer { IsAnswer (labelled_value_fits (environment_of env.old) span l.now.label (val_of l.now.value) (plain_labels ts.now)
        (found_for bs.now found.old)) (λ _. found_for bs.now found.new) result }
    ensures count { OnOk result (length found.new.list.items ≡ length bs.now) }
    ensures same { OnOk result (IsAsBefore env.old env.new) }
{
    match labelled_type(env.context().names(), ts, l.label.name) {
        Some(t) => value_fits(alloc, env, &l.value, t, bs, found, span),
        None => {
            let _ = gives(alloc, env, &l.value)?;
            Ok(())
        }
    }
}

/// A value fits the type of its field, and finds type fields that it mentions.
#[cycle(values)]
pub fn value_fits(
    alloc: Global,
    env: &mut Env,
    v: &Val,
    t: &Ty,
    bs: &[Bound],
    found: &mut Found,
    span: Span,
) -> Result<(), InferError>
    requires right { IsWellAsked found_ (environment_of env.old) (value_fits span (val_of v.now) (plain t.now) (found_for bs.now found.old)) }
    requires count { length found.old.list.items ≡ length bs.now }
    ensures answer { IsAnswer (rule (environment_of env.old) (value_fits span (val_of v.now) (plain t.now) (found_for bs.now found.old)))
        (λ _. found_for bs.now found.new) result }
    ensures count { OnOk result (length found.new.list.items ≡ length bs.now) }
    ensures same { OnOk result (IsAsBefore env.old env.new) }
{
    if mentions_missing(alloc, t, found)? {
        let given = gives(alloc, env, v)?;
        match_type(alloc, env.context(), t, &given, found)?;
        return given_fits(alloc, env, t, &given, bs, found, val_span(v), span);
    }
    let put = wanted(alloc, env, t, bs, found, span)?;
    has(alloc, env, v, changed_or_same(&put, t))
}
