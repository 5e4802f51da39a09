// The signatures of a `def`: the types of its names, and what is known inside its bodies.

ghost use Rattle.std.specs.Prelude.{◌≡◌, OnOk};
ghost use Rattle.pict_syntax.specs.PlainTrees.{abs_of, annotation_of, definitions_on, field_pats_of, pat_of};
ghost use Rattle.pict_syntax.specs.Trees.{Proc, Val, function_abs, no_definitions, process_abs};
ghost use Rattle.pict_syntax.specs.declared.id.Id.{Id};
ghost use Rattle.pict_scope.specs.DistinctLabels.{AnnotationHasDistinctLabels};
ghost use Rattle.pict_rules.specs.Rules.{fields_, fields_give, pattern_, pattern_gives, signature, signature_, signatures, signatures_};
ghost use Rattle.pict_infer.specs.Asking.{IsWellAsked};
ghost use Rattle.pict_infer.specs.Environments.{environment_of, IsAsBefore};
ghost use Rattle.pict_lines.specs.Definitions.{SignAll, Signs};

use crate::answers::{argument, opened};
use crate::parts::responder;
use pict_infer::{Added, Env, InferError, annotated, close_fields, open_fields, typed_pattern};
use pict_syntax::{Abs, Definition, FieldPats, Pat, RType, Span};
use pict_types::{Ty, shift_type};
use std::alloc::Global;

/// What is known inside the body of a definition besides, and the type that the body has where it is a value.
#[derive(Drop)]
pub struct Inside {
    pub adds: Added,
    pub answer: Option<Ty>,
}

/// The type of a name of a `def`, and its body as it is judged later.
#[derive(Drop)]
pub struct Signature {
    pub has: Ty,
    pub inside: Inside,
}

/// The signature of a process abstraction, which stands at `span`.
fn process_signature(
    alloc: Global,
    env: &mut Env,
    p: &Pat,
    span: Span,
) -> Result<Signature, InferError>
    requires right { IsWellAsked pattern_ (environment_of env.old) (pattern_gives (pat_of p.now)) }
    ensures answer { (x : Id) (q : Proc) → Signs (environment_of env.old) x (process_abs span (pat_of p.now) q) result }
    ensures same { OnOk result (IsAsBefore env.old env.new) }
{
    let typed = typed_pattern(alloc, env, p)?;
    let has = responder(alloc, env, typed.has, span)?;
    Ok(Signature {
        has,
        inside: Inside {
            adds: typed.adds,
            answer: None,
        },
    })
}

/// The signature of a function abstraction, which stands at `span`. Y7 there where no result type is written.
fn function_signature(
    alloc: Global,
    env: &mut Env,
    fields: &FieldPats,
    annotation: &RType,
    span: Span,
) -> Result<Signature, InferError>
    requires right { IsWellAsked fields_ (environment_of env.old) (fields_give (field_pats_of fields.now)) }
    requires labels { AnnotationHasDistinctLabels (annotation_of annotation.now) }
    ensures answer { (x : Id) (v : Val) →
        Signs (environment_of env.old) x (function_abs span (field_pats_of fields.now) (annotation_of annotation.now) v) result }
    ensures same { OnOk result (IsAsBefore env.old env.new) }
{
    let outer = env.place();
    let own = open_fields(alloc, env, fields)?;
    let answer = annotated(alloc, env.context(), annotation, span)?;
    let body = shift_type(alloc, &answer, opened(&own.adds)?, 0)?;
    let adds = close_fields(alloc, env, outer, own.adds)?;
    let taken = argument(alloc, env, own.has, answer, span)?;
    let has = responder(alloc, env, taken, span)?;
    Ok(Signature {
        has,
        inside: Inside {
            adds,
            answer: Some(body),
        },
    })
}

/// The signature of a definition. The refusals are those of its pattern or of its fields and result type, Y7 and K4.
fn signature_for(alloc: Global, env: &mut Env, d: &Definition) -> Result<Signature, InferError>
    requires right { IsWellAsked signature_ (environment_of env.old) (signature d.now.id (abs_of d.now.abs)) }
    ensures answer { Signs (environment_of env.old) d.now.id (abs_of d.now.abs) result }
    ensures same { OnOk result (IsAsBefore env.old env.new) }
{
    match &d.abs {
        Abs::Process(span, p, _) => process_signature(alloc, env, p, *span),
        Abs::Function(span, fields, annotation, _) => function_signature(
            alloc, env, fields, annotation, *span,
        ),
    }
}

/// Makes the names of a `def` known, and gives what is known inside its bodies. Patterns use no value, so that it is all
/// one whether the names before are known already.
pub fn signed(alloc: Global, env: &mut Env, ds: &[Definition]) -> Result<Vec<Inside>, InferError>
    requires right { IsWellAsked signatures_ (environment_of env.old) (signatures (definitions_on no_definitions ds.now)) }
    ensures { SignAll env.old env.new ds.now result }
{
    let mut insides = Vec::new(alloc);
    for d in ds {
        let s = signature_for(alloc, env, d)?;
        env.push_value(d.id, s.has)?;
        insides.push(s.inside)?;
    }
    Ok(insides)
}
