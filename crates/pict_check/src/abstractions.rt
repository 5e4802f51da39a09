// Abstractions that give the type of their argument, and abstractions against it.

ghost use Rattle.std.specs.Prelude.{None, OnOk, Some};
ghost use Rattle.pict_syntax.specs.PlainTrees.{abs_of, annotation_of, type_of};
ghost use Rattle.pict_types.specs.Plain.{plain, plain_record};
ghost use Rattle.pict_rules.specs.Rules.{nothing_, type_, abstraction_against, abstraction_gives};
ghost use Rattle.pict_rules.specs.Typing.{rule};
ghost use Rattle.pict_infer.specs.Answering.{IsAnswer, nothing};
ghost use Rattle.pict_infer.specs.Asking.{IsWellAsked};
ghost use Rattle.pict_infer.specs.Environments.{environment_of, IsAsBefore};
ghost use Rattle.pict_lines.specs.Definitions.{function_tree};

use crate::processes::process;
use crate::values::{gives, has};
use pict_infer::{
    Env, InferError, Told, as_record, changed_or_same, followed, open_fields, open_fields_against,
    pattern_against, pattern_gives,
};
use pict_lines::answers::{answer_in, argument, body_type, opened, past_added};
use pict_lines::steps::{expanded, outside};
use pict_syntax::{Abs, Code, FieldPats, RType, Span, TypeTree, Val, val_span};
use pict_types::{Record, Ty};
use std::alloc::Global;

/// The type of the argument of an abstraction.
#[cycle(values)]
pub fn abstraction_gives(alloc: Global, env: &mut Env, abs: &Abs) -> Result<Ty, InferError>
    requires right { IsWellAsked type_ (environment_of env.old) (abstraction_gives (abs_of abs.now)) }
    ensures answer { IsAnswer (rule (environment_of env.old) (abstraction_gives (abs_of abs.now))) plain result }
    ensures same { OnOk result (IsAsBefore env.old env.new) }
{
    match abs {
        Abs::Process(_, p, q) => {
            let outer = env.place();
            let given = pattern_gives(alloc, env, p)?;
            process(alloc, env, q)?;
            env.cut(outer);
            Ok(given)
        }
        Abs::Function(span, fields, annotation, v) => match &annotation.of {
            None => untyped_gives(alloc, env, v, fields, *span),
            Some(a) => typed_gives(alloc, env, v, fields, a, *span),
        },
    }
}

/// The type of the argument of a function whose answer has the type that its body gives.
#[cycle(values)]
fn untyped_gives(
    alloc: Global,
    env: &mut Env,
    v: &Val,
    fields: &FieldPats,
    span: Span,
) -> Result<Ty, InferError>
    requires right { IsWellAsked type_ (environment_of env.old) (abstraction_gives (function_tree span fields.now None v.now)) }
    ensures answer { IsAnswer (rule (environment_of env.old) (abstraction_gives (function_tree span fields.now None v.now))) plain result }
    ensures same { OnOk result (IsAsBefore env.old env.new) }
{
    let outer = env.place();
    let own = open_fields(alloc, env, fields)?;
    let inner = opened(&own.adds)?;
    env.add(own.adds)?;
    let given = gives(alloc, env, v)?;
    let answer = outside(alloc, given, inner, val_span(v))?;
    env.cut(outer);
    argument(alloc, env, own.has, answer, span)
}

/// The type of the argument of a function whose answer has the type that is written.
#[cycle(values)]
fn typed_gives(
    alloc: Global,
    env: &mut Env,
    v: &Val,
    fields: &FieldPats,
    a: &TypeTree,
    span: Span,
) -> Result<Ty, InferError>
    requires right { IsWellAsked type_ (environment_of env.old) (abstraction_gives (function_tree span fields.now (Some (type_of a.now)) v.now)) }
    ensures answer { IsAnswer (rule (environment_of env.old) (abstraction_gives (function_tree span fields.now (Some (type_of a.now)) v.now))) plain result }
    ensures same { OnOk result (IsAsBefore env.old env.new) }
{
    let outer = env.place();
    let own = open_fields(alloc, env, fields)?;
    let answer = expanded(alloc, env, a)?;
    let wanted = past_added(alloc, &own.adds, &answer)?;
    env.add(own.adds)?;
    has(alloc, env, v, changed_or_same(&wanted, &answer))?;
    env.cut(outer);
    argument(alloc, env, own.has, answer, span)
}

/// An abstraction against the type of its argument.
#[cycle(values)]
pub fn abstraction_against(
    alloc: Global,
    env: &mut Env,
    abs: &Abs,
    t: &Ty,
) -> Result<(), InferError>
    requires right { IsWellAsked nothing_ (environment_of env.old) (abstraction_against (abs_of abs.now) (plain t.now)) }
    ensures answer { IsAnswer (rule (environment_of env.old) (abstraction_against (abs_of abs.now) (plain t.now))) nothing result }
    ensures same { OnOk result (IsAsBefore env.old env.new) }
{
    match abs {
        Abs::Process(_, p, q) => {
            let outer = env.place();
            pattern_against(alloc, env, p, t)?;
            process(alloc, env, q)?;
            env.cut(outer);
            Ok(())
        }
        Abs::Function(span, fields, annotation, v) => {
            let followed = followed(alloc, env.context(), t)?;
            match as_record(changed_or_same(&followed, t)) {
                None => Err(InferError::Named(Code::Y8, *span, Told::Nothing)),
                Some(r) => function_against(alloc, env, v, fields, annotation, r, *span),
            }
        }
    }
}

/// A function against the record of its argument.
#[cycle(values)]
fn function_against(
    alloc: Global,
    env: &mut Env,
    v: &Val,
    fields: &FieldPats,
    annotation: &RType,
    r: &Record,
    span: Span,
) -> Result<(), InferError>
    requires right { IsWellAsked nothing_ (environment_of env.old)
        (abstraction_against (function_tree span fields.now (annotation_of annotation.now) v.now) (plain_record r.now)) }
    ensures answer { IsAnswer (rule (environment_of env.old)
        (abstraction_against (function_tree span fields.now (annotation_of annotation.now) v.now) (plain_record r.now))) nothing result }
    ensures same { OnOk result (IsAsBefore env.old env.new) }
{
    let answer = answer_in(alloc, env, r, span)?;
    let outer = env.place();
    let count = r.positional.len() - 1;
    let taken = &r.positional[..count];
    let adds = open_fields_against(alloc, env, fields, &r.binders, taken, &r.labelled, span)?;
    let wanted = body_type(alloc, env, annotation, answer)?;
    let inside = past_added(alloc, &adds, &wanted)?;
    env.add(adds)?;
    has(alloc, env, v, changed_or_same(&inside, &wanted))?;
    env.cut(outer);
    Ok(())
}
