// Folds: the recursive type of an annotation, or the one to go by, and its unfolding; and how many variables are known.

ghost use Rattle.std.specs.Prelude.{◌≡◌, IfOk};
ghost use Rattle.pict_syntax.specs.PlainTrees.{annotation_of, type_of};
ghost use Rattle.pict_types.specs.Plain.{plain};
ghost use Rattle.pict_scope.specs.DistinctLabels.{AnnotationHasDistinctLabels, HasDistinctLabels};
ghost use Rattle.pict_rules.specs.Regular.{IsTypeIn};
ghost use Rattle.pict_infer.specs.Answering.{IsAnswer};
ghost use Rattle.pict_infer.specs.Environments.{environment_of};
ghost use Rattle.pict_lines.specs.Folds.{annotated_types};
ghost use Rattle.pict_lines.specs.Lines.{fold_annotated, fold_from, fold_of, fold_written, variables};

use crate::steps::{expanded, unfolded};
use pict_infer::{Env, InferError, Told, recursive};
use pict_syntax::{Code, RType, Span, TypeTree, type_span};
use pict_types::Ty;
use std::alloc::Global;

/// A recursive type and its unfolding.
#[derive(Drop)]
pub struct Fold {
    pub folded: Ty,
    pub unfolding: Ty,
}

/// The unfolding of a type, which is at one place, for the fold at the other. Y13 at the type, K4 at the fold.
fn unfolding_from(alloc: Global, env: &Env, t: &Ty, at: Span, span: Span) -> Result<Ty, InferError>
    requires t { IsTypeIn (environment_of env.now) (plain t.now) }
    ensures answer { IsAnswer (fold_from (environment_of env.now) (plain t.now) at span) plain result }
    ensures formed { IfOk result (λ u. IsTypeIn (environment_of env.now) (plain u)) }
{
    recursive(t, at)?;
    unfolded(alloc, env, t, span)
}

/// A written recursive type and its unfolding. Y13 at the type, K4 at the fold.
fn written_fold(alloc: Global, env: &Env, t: &TypeTree, span: Span) -> Result<Fold, InferError>
    requires labels { HasDistinctLabels (type_of t.now) }
    ensures answer { IsAnswer (fold_written (environment_of env.now) (type_of t.now) span) annotated_types result }
    ensures formed { IfOk result (λ f. IsTypeIn (environment_of env.now) (plain f.unfolding)) }
{
    let folded = expanded(alloc, env, t)?;
    match unfolding_from(alloc, env, &folded, type_span(t), span) {
        Ok(unfolding) => Ok(Fold { folded, unfolding }),
        Err(e) => Err(e),
    }
}

/// The annotation of a fold and its unfolding. Y7 and K4 at the fold, Y13 at the annotation's type.
pub fn annotated_fold(
    alloc: Global,
    env: &Env,
    annotation: &RType,
    span: Span,
) -> Result<Fold, InferError>
    requires labels { AnnotationHasDistinctLabels (annotation_of annotation.now) }
    ensures answer { IsAnswer (fold_annotated (environment_of env.now) (annotation_of annotation.now) span) annotated_types result }
    ensures formed { IfOk result (λ f. IsTypeIn (environment_of env.now) (plain f.unfolding)) }
{
    match &annotation.of {
        None => Err(InferError::Named(Code::Y7, span, Told::Nothing)),
        Some(t) => written_fold(alloc, env, t, span),
    }
}

/// The unfolding of a type to go by. Y13 and K4 at the fold.
pub fn fold_unfolding(alloc: Global, env: &Env, t: &Ty, span: Span) -> Result<Ty, InferError>
    requires t { IsTypeIn (environment_of env.now) (plain t.now) }
    ensures answer { IsAnswer (fold_of (environment_of env.now) (plain t.now) span) plain result }
    ensures formed { IfOk result (λ u. IsTypeIn (environment_of env.now) (plain u)) }
{
    unfolding_from(alloc, env, t, span, span)
}

/// How many type variables are known. Takes no memory.
pub fn variables(env: &Env) -> u32
    ensures { result ≡ variables (environment_of env.now) }
{
    env.context().variables()
}
