// Patterns and the fields of functions, with what they add made known.

ghost use Rattle.pict_syntax.specs.PlainTrees.{field_pats_of, pat_of};
ghost use Rattle.pict_types.specs.Plain.{plain};
ghost use Rattle.pict_rules.specs.Rules.{extension_, opened_, pattern_against};
ghost use Rattle.pict_infer.specs.Asking.{IsWellAsked};
ghost use Rattle.pict_infer.specs.Environments.{environment_of};
ghost use Rattle.pict_infer.specs.Opening.{against_fields};
ghost use Rattle.pict_infer.specs.Patterns.{FieldsOpenAgainst, GoesAgainst};

use crate::added::Added;
use crate::against::{against, open_parts_against};
use crate::env::Env;
use crate::error::InferError;
use pict_syntax::{FieldPats, Name, Pat, Span};
use pict_types::{Bound, Ty};
use std::alloc::Global;

/// Makes known what a pattern adds against a type, which is written in the type variables that are known. The refusals
/// are Y4 to Y6, Y13, Y16 and K1 to K4. After an error `env` is to be dropped.
pub fn pattern_against(alloc: Global, env: &mut Env, p: &Pat, t: &Ty) -> Result<(), InferError>
    requires right { IsWellAsked extension_ (environment_of env.old) (pattern_against (pat_of p.now) (plain t.now)) }
    ensures answer { GoesAgainst env.old env.new (pattern_against (pat_of p.now) (plain t.now)) result }
{
    let added = against(alloc, &mut env.context, p, t)?;
    Ok(env.add(added)?)
}

/// Makes known the own type variables of fields that go against those of a record, and no more: what their parts add
/// within them is given. The function stands at `span`. Refusals and errors are those of `pattern_against`.
pub fn open_fields_against(
    alloc: Global,
    env: &mut Env,
    fields: &FieldPats,
    binders: &[Bound],
    positional: &[Ty],
    labelled: &[(Name, Ty)],
    span: Span,
) -> Result<Added, InferError>
    requires right { IsWellAsked opened_ (environment_of env.old) (against_fields span (field_pats_of fields.now) binders.now positional.now labelled.now) }
    ensures answer { FieldsOpenAgainst env.old env.new (against_fields span (field_pats_of fields.now) binders.now positional.now labelled.now) result }
{
    open_parts_against(
        alloc,
        &mut env.context,
        fields,
        binders,
        positional,
        labelled,
        span,
    )
}
