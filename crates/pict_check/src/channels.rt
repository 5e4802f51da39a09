// Values that stand as channels: what they give and have, and applications.

ghost use Rattle.std.specs.Prelude.{option_map, OnOk};
ghost use Rattle.pict_syntax.specs.declared.code.Code.TheVariants.{Y4};
ghost use Rattle.pict_syntax.specs.PlainTrees.{chan_of, field_vals_of, val_of};
ghost use Rattle.pict_syntax.specs.Trees.{of_chan};
ghost use Rattle.pict_types.specs.Plain.{plain};
ghost use Rattle.pict_rules.specs.Clauses.{gives_below};
ghost use Rattle.pict_rules.specs.Derivations.{Runs};
ghost use Rattle.pict_rules.specs.Regular.{IsTypeIn};
ghost use Rattle.pict_rules.specs.Rules.{nothing_, type_, application, gives, has, ok};
ghost use Rattle.pict_rules.specs.Typing.{rule};
ghost use Rattle.pict_infer.specs.Answering.{IsAnswer, nothing};
ghost use Rattle.pict_infer.specs.Asking.{IsWellAsked};
ghost use Rattle.pict_infer.specs.Environments.{environment_of, IsAsBefore};

use crate::chains::{left_gives, left_has, right_gives, right_has};
use crate::declarations::declarations;
use crate::fitting::fields_fit;
use crate::values::{gives, has};
use pict_infer::{Env, InferError};
use pict_lines::fields::{application_end, found_first};
use pict_lines::folds::{annotated_fold, fold_unfolding, variables};
use pict_lines::functions::head;
use pict_lines::steps::{below, outside};
use pict_syntax::{Chan, Code, FieldVals, Span, Val, chan_span, val_span};
use pict_types::{Ty, shift_type};
use std::alloc::Global;

/// The type that a value which stands as a channel gives.
#[cycle(values)]
pub fn channel_gives(alloc: Global, env: &mut Env, c: &Chan) -> Result<Ty, InferError>
    requires right { IsWellAsked type_ (environment_of env.old) (gives (of_chan (chan_of c.now))) }
    ensures answer { IsAnswer (rule (environment_of env.old) (gives (of_chan (chan_of c.now)))) plain result }
    ensures same { OnOk result (IsAsBefore env.old env.new) }
{
    match c {
        Chan::Use(_, name) => Ok(env.type_of_use(alloc, *name)?),
        Chan::Fold(span, annotation, v) => {
            let fold = annotated_fold(alloc, env, annotation, *span)?;
            has(alloc, env, v, &fold.unfolding)?;
            Ok(fold.folded)
        }
        Chan::Block(span, ds, v) => {
            let outer = env.place();
            let around = variables(env);
            declarations(alloc, env, ds)?;
            let opened = variables(env) - around;
            let given = gives(alloc, env, v)?;
            let t = outside(alloc, given, opened, *span)?;
            env.cut(outer);
            Ok(t)
        }
        Chan::Apply(span, f, fields) => {
            let t = gives(alloc, env, f)?;
            application(alloc, env, fields, f, t, None, *span)
        }
        Chan::Right(span, name, vs) => right_gives(alloc, env, vs, *name, *span),
        Chan::Left(span, name, vs) => left_gives(alloc, env, vs, *name, *span),
    }
}

/// A value that stands as a channel has a type.
#[cycle(values)]
pub fn channel_has(alloc: Global, env: &mut Env, c: &Chan, t: &Ty) -> Result<(), InferError>
    requires right { IsWellAsked nothing_ (environment_of env.old) (has (of_chan (chan_of c.now)) (plain t.now)) }
    ensures answer { IsAnswer (rule (environment_of env.old) (has (of_chan (chan_of c.now)) (plain t.now))) nothing result }
    ensures same { OnOk result (IsAsBefore env.old env.new) }
{
    match c {
        Chan::Use(..) => channel_below(alloc, env, c, t),
        Chan::Fold(span, annotation, v) => match &annotation.of {
            Some(_) => channel_below(alloc, env, c, t),
            None => {
                let unfolding = fold_unfolding(alloc, env, t, *span)?;
                has(alloc, env, v, &unfolding)
            }
        },
        Chan::Block(_, ds, v) => {
            let outer = env.place();
            let around = variables(env);
            declarations(alloc, env, ds)?;
            let opened = variables(env) - around;
            let inside = shift_type(alloc, t, opened, 0)?;
            has(alloc, env, v, &inside)?;
            env.cut(outer);
            Ok(())
        }
        Chan::Apply(span, f, fields) => {
            let head = gives(alloc, env, f)?;
            let _ = application(alloc, env, fields, f, head, Some(t), *span)?;
            Ok(())
        }
        Chan::Right(span, name, vs) => right_has(alloc, env, vs, *name, *span, t),
        Chan::Left(span, name, vs) => left_has(alloc, env, vs, *name, *span, t),
    }
}

/// A value that stands as a channel gives a subtype of a type. Y4 at it where it doesn't.
#[cycle(values)]
fn channel_below(alloc: Global, env: &mut Env, c: &Chan, t: &Ty) -> Result<(), InferError>
    requires right { IsWellAsked type_ (environment_of env.old) (gives (of_chan (chan_of c.now))) }
    requires t { IsTypeIn (environment_of env.old) (plain t.now) }
    ensures answer { IsAnswer (gives_below (environment_of env.old) (of_chan (chan_of c.now)) (plain t.now) Y4) nothing result }
    ensures same { OnOk result (IsAsBefore env.old env.new) }
{
    let s = channel_gives(alloc, env, c)?;
    below(alloc, env, &s, t, Code::Y4, chan_span(c))
}

/// An application whose head gave a type.
#[cycle(values)]
fn application(
    alloc: Global,
    env: &mut Env,
    fields: &FieldVals,
    f: &Val,
    t: Ty,
    expected: Option<&Ty>,
    span: Span,
) -> Result<Ty, InferError>
    requires right { IsWellAsked type_ (environment_of env.old)
        (application span (val_of f.now) (field_vals_of fields.now) (option_map (λ u. plain u.now) expected)) }
    requires head { Runs (rule (environment_of env.old) (gives (val_of f.now))) (ok (plain t)) }
    ensures answer { IsAnswer (rule (environment_of env.old)
        (application span (val_of f.now) (field_vals_of fields.now) (option_map (λ u. plain u.now) expected.entry))) plain result }
    ensures same { OnOk result (IsAsBefore env.old env.new) }
{
    let function = head(alloc, env, t, val_span(f))?;
    let found = found_first(
        alloc,
        env,
        &function,
        fields.type_arguments.is_empty(),
        expected,
    )?;
    let args = fields_fit(alloc, env, fields, &function.fields, found, span)?;
    application_end(alloc, env, &function.answer, &args, expected, span)
}
