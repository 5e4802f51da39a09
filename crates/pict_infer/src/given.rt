// Patterns and the fields of functions that give their type, from what is known.

ghost use Rattle.std.specs.Prelude.{List, IfOk};
ghost use Rattle.pict_syntax.specs.PlainTrees.{field_pats_of, pat_of};
ghost use Rattle.pict_rules.specs.Environments.{KnownType};
ghost use Rattle.pict_rules.specs.Rules.{fields_, fields_give, pattern_, pattern_gives};
ghost use Rattle.pict_infer.specs.declared.env.Env.{Env};
ghost use Rattle.pict_infer.specs.Asking.{IsWellAsked};
ghost use Rattle.pict_infer.specs.Environments.{environment_of, IsPlaceOf, MayBeAdded};
ghost use Rattle.pict_infer.specs.Given.{FieldsOpen, GivesKnown, GivesType, HasOpenedOwn, IsClosed, IsUnderOwn};

use crate::added::Added;
use crate::binders::taken;
use crate::env::{Env, Place};
use crate::error::InferError;
use crate::giving::{Typed, TypedFields, give, open_parts};
use pict_syntax::{FieldPats, Pat};
use pict_types::Ty;
use std::alloc::{AllocError, Global};

/// The type of a pattern, and what it adds, which doesn't become known. The refusals are Y4 to Y7, Y13, Y16 and K1 to K4.
/// After an error `env` is to be dropped.
pub fn typed_pattern(alloc: Global, env: &mut Env, p: &Pat) -> Result<Typed, InferError>
    requires right { IsWellAsked pattern_ (environment_of env.old) (pattern_gives (pat_of p.now)) }
    ensures answer { GivesType env.old env.new (pat_of p.now) result }
{
    give(alloc, &mut env.context, p)
}

/// The type of a pattern, written in the type variables that were known, and what it adds becomes known. Refusals and
/// errors are those of `typed_pattern`.
pub fn pattern_gives(alloc: Global, env: &mut Env, p: &Pat) -> Result<Ty, InferError>
    requires right { IsWellAsked pattern_ (environment_of env.old) (pattern_gives (pat_of p.now)) }
    ensures answer { GivesKnown env.old env.new (pat_of p.now) result }
{
    let typed = typed_pattern(alloc, env, p)?;
    env.add(typed.adds)?;
    Ok(typed.has)
}

/// The record type of fields, and what their parts add within their own type variables. These become known, and no more.
/// Refusals and errors are those of `typed_pattern`.
pub fn open_fields(
    alloc: Global,
    env: &mut Env,
    fields: &FieldPats,
) -> Result<TypedFields, InferError>
    requires right { IsWellAsked fields_ (environment_of env.old) (fields_give (field_pats_of fields.now)) }
    ensures answer { FieldsOpen env.old env.new (field_pats_of fields.now) result }
{
    open_parts(alloc, &mut env.context, fields)
}

/// Forgets the type variables of fields that have become known since a place, and puts them around what the parts of the
/// fields add. The only error is want of memory.
pub fn close_fields(
    alloc: Global,
    env: &mut Env,
    to: Place,
    adds: Added,
) -> Result<Added, AllocError>
    requires opened { HasOpenedOwn to env.old }
    requires may { MayBeAdded env.old adds }
    ensures { IfOk result (λ x. (before : Env) (own : List KnownType) → IsPlaceOf to before → IsUnderOwn before env.old own
        → IsClosed before env.new own adds x) }
{
    let own = taken(alloc, &mut env.context, to.entries)?;
    adds.under(own)
}
