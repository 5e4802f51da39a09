// Values that give a type, and values that have one.

ghost use Rattle.std.specs.Prelude.{OnOk};
ghost use Rattle.pict_syntax.specs.PlainTrees.{field_vals_of, labelled_vals_on, val_of, vals_on};
ghost use Rattle.pict_syntax.specs.Trees.{fields_val, no_labelled_vals, no_vals};
ghost use Rattle.pict_types.specs.Plain.{plain, plain_labels, plain_record, plain_types};
ghost use Rattle.pict_rules.specs.Clauses.{gives_below};
ghost use Rattle.pict_rules.specs.Regular.{IsTypeIn};
ghost use Rattle.pict_rules.specs.Rules.{labels_, nothing_, type_, types_, gives, has, labelled_values_give, values_give};
ghost use Rattle.pict_rules.specs.Typing.{rule};
ghost use Rattle.pict_infer.specs.Answering.{IsAnswer, nothing};
ghost use Rattle.pict_infer.specs.Asking.{IsWellAsked};
ghost use Rattle.pict_infer.specs.Environments.{environment_of, IsAsBefore};

use crate::abstractions::{abstraction_against, abstraction_gives};
use crate::channels::{channel_gives, channel_has};
use crate::fitting::fields_fit;
use pict_infer::{Env, InferError, Told, as_record};
use pict_lines::fields::none_found;
use pict_lines::parts::{as_sent, either, responder};
use pict_lines::records::record_type;
use pict_lines::steps::below;
use pict_syntax::{Code, FieldVals, LabelledVal, Name, Span, Val, sort_labels, val_span};
use pict_types::{Record, Ty};
use std::alloc::Global;

/// The type that a value gives.
#[cycle(values)]
pub fn gives(alloc: Global, env: &mut Env, v: &Val) -> Result<Ty, InferError>
    requires right { IsWellAsked type_ (environment_of env.old) (gives (val_of v.now)) }
    ensures answer { IsAnswer (rule (environment_of env.old) (gives (val_of v.now))) plain result }
    ensures same { OnOk result (IsAsBefore env.old env.new) }
{
    match v {
        Val::OfChan(c) => channel_gives(alloc, env, c),
        Val::Number(..) => Ok(Ty::Int),
        Val::Character(..) => Ok(Ty::Char),
        Val::String(..) => Ok(Ty::Str),
        Val::True(_) => Ok(Ty::Bool),
        Val::False(_) => Ok(Ty::Bool),
        Val::Fields(span, fields) => record_gives(alloc, env, fields, *span),
        Val::If(span, test, yes, no) => {
            gives_below(alloc, env, test, &Ty::Bool, Code::Y12)?;
            let s = gives(alloc, env, yes)?;
            let t = gives(alloc, env, no)?;
            either(alloc, env, s, t, *span)
        }
        Val::Lambda(span, abs) => {
            let r = abstraction_gives(alloc, env, abs)?;
            responder(alloc, env, r, *span)
        }
    }
}

/// A value gives a subtype of a type, or is refused by this code at it.
#[cycle(values)]
pub fn gives_below(
    alloc: Global,
    env: &mut Env,
    v: &Val,
    t: &Ty,
    code: Code,
) -> Result<(), InferError>
    requires right { IsWellAsked type_ (environment_of env.old) (gives (val_of v.now)) }
    requires t { IsTypeIn (environment_of env.old) (plain t.now) }
    ensures answer { IsAnswer (gives_below (environment_of env.old) (val_of v.now) (plain t.now) code) nothing result }
    ensures same { OnOk result (IsAsBefore env.old env.new) }
{
    let s = gives(alloc, env, v)?;
    below(alloc, env, &s, t, code, val_span(v))
}

/// A value has a type.
#[cycle(values)]
pub fn has(alloc: Global, env: &mut Env, v: &Val, t: &Ty) -> Result<(), InferError>
    requires right { IsWellAsked nothing_ (environment_of env.old) (has (val_of v.now) (plain t.now)) }
    ensures answer { IsAnswer (rule (environment_of env.old) (has (val_of v.now) (plain t.now))) nothing result }
    ensures same { OnOk result (IsAsBefore env.old env.new) }
{
    match v {
        Val::OfChan(c) => channel_has(alloc, env, c, t),
        Val::Fields(span, fields) => match as_record(t) {
            Some(r) => record_has(alloc, env, fields, r, *span),
            None => gives_below(alloc, env, v, t, Code::Y4),
        },
        Val::If(_, test, yes, no) => {
            gives_below(alloc, env, test, &Ty::Bool, Code::Y12)?;
            has(alloc, env, yes, t)?;
            has(alloc, env, no, t)
        }
        Val::Lambda(_, abs) => match as_sent(t) {
            Some(r) => abstraction_against(alloc, env, abs, r),
            None => gives_below(alloc, env, v, t, Code::Y4),
        },
        Val::Number(..) => gives_below(alloc, env, v, t, Code::Y4),
        Val::Character(..) => gives_below(alloc, env, v, t, Code::Y4),
        Val::String(..) => gives_below(alloc, env, v, t, Code::Y4),
        Val::True(_) => gives_below(alloc, env, v, t, Code::Y4),
        Val::False(_) => gives_below(alloc, env, v, t, Code::Y4),
    }
}

/// The type of a record without a type to go by.
#[cycle(values)]
fn record_gives(
    alloc: Global,
    env: &mut Env,
    fields: &FieldVals,
    span: Span,
) -> Result<Ty, InferError>
    requires right { IsWellAsked type_ (environment_of env.old) (gives (fields_val span (field_vals_of fields.now))) }
    ensures answer { IsAnswer (rule (environment_of env.old) (gives (fields_val span (field_vals_of fields.now)))) plain result }
    ensures same { OnOk result (IsAsBefore env.old env.new) }
{
    if !fields.type_arguments.is_empty() {
        return Err(InferError::Named(Code::Y7, span, Told::Nothing));
    }
    let positional = values_give(alloc, env, &fields.positional)?;
    let labelled = labelled_values_give(alloc, env, &fields.labelled)?;
    record_type(alloc, env, positional, labelled, span)
}

/// A record has a record type.
#[cycle(values)]
fn record_has(
    alloc: Global,
    env: &mut Env,
    fields: &FieldVals,
    r: &Record,
    span: Span,
) -> Result<(), InferError>
    requires right { IsWellAsked nothing_ (environment_of env.old) (has (fields_val span (field_vals_of fields.now)) (plain_record r.now)) }
    ensures answer { IsAnswer (rule (environment_of env.old) (has (fields_val span (field_vals_of fields.now)) (plain_record r.now))) nothing result }
    ensures same { OnOk result (IsAsBefore env.old env.new) }
{
    let found = none_found(alloc, &r.binders)?;
    let _ = fields_fit(alloc, env, fields, r, found, span)?;
    Ok(())
}

/// The types that values give, in order.
#[cycle(values)]
fn values_give(alloc: Global, env: &mut Env, vs: &[Val]) -> Result<Vec<Ty>, InferError>
    requires right { IsWellAsked types_ (environment_of env.old) (values_give (vals_on no_vals vs.now)) }
    ensures answer { IsAnswer (rule (environment_of env.old) (values_give (vals_on no_vals vs.now))) (λ ts. plain_types ts.items) result }
    ensures same { OnOk result (IsAsBefore env.old env.new) }
{
    let mut types = Vec::new(alloc);
    for v in vs {
        types.push(gives(alloc, env, v)?)?;
    }
    Ok(types)
}

/// The types that labelled values give, in the order of the labels.
#[cycle(values)]
fn labelled_values_give(
    alloc: Global,
    env: &mut Env,
    ls: &[LabelledVal],
) -> Result<Vec<(Name, Ty)>, InferError>
    requires right { IsWellAsked labels_ (environment_of env.old) (labelled_values_give (labelled_vals_on no_labelled_vals ls.now)) }
    ensures answer { IsAnswer (rule (environment_of env.old) (labelled_values_give (labelled_vals_on no_labelled_vals ls.now)))
        (λ ts. plain_labels ts.items) result }
    ensures same { OnOk result (IsAsBefore env.old env.new) }
{
    let mut types = Vec::new(alloc);
    for l in ls {
        types.push((l.label.name, gives(alloc, env, &l.value)?))?;
    }
    sort_labels(env.context().names(), &mut types)?;
    Ok(types)
}
