// What is applied: the fields that it takes, and the type of its answer.

ghost use Rattle.std.specs.Prelude.{◌≡◌, None, Some, IfNone, IfOk, IfSome, IfErr};
ghost use Rattle.pict_types.specs.Plain.{plain};
ghost use Rattle.pict_rules.specs.Environments.{context_of};
ghost use Rattle.pict_rules.specs.Shapes.{applicable, function_by, respond_or_write};
ghost use Rattle.pict_sub.specs.Exposing.{exposure};
ghost use Rattle.pict_infer.specs.Environments.{environment_of};
ghost use Rattle.pict_lines.specs.Functions.{function_of, IsNoFunction, function_in};

use crate::steps::exposed;
use pict_infer::{Env, InferError, Told};
use pict_syntax::{Code, Span};
use pict_types::{Cap, Record, Ty};
use std::alloc::{AllocError, Global};

/// What a function takes but for the channel of its answer, and the type of its answer, both under its type fields.
#[derive(Drop)]
pub struct Function {
    pub fields: Record,
    pub answer: Ty,
}

/// The messages of `/U` or `!U`; nothing where the type is none of these. Takes no memory.
fn messages(t: &Ty) -> Option<&Ty>
    ensures none { IfNone result (respond_or_write (plain t.now) ≡ None) }
    ensures some { IfSome result (λ u. respond_or_write (plain t.now) ≡ Some (plain u.now)) }
{
    match t {
        Ty::Chan(Cap::Respond | Cap::Write, u) => Some(u),
        _ => None,
    }
}

/// The function that takes these fields; nothing where the last positional one is no channel for its answer. The only
/// error is want of memory.
fn function_in(alloc: Global, r: Record) -> Result<Option<Function>, AllocError>
    ensures none { IfOk result (λ o. IfNone o (function_in r ≡ None)) }
    ensures some { IfOk result (λ o. IfSome o (λ f. function_in r ≡ Some (function_of f))) }
{
    let mut fields = r;
    let Some(last) = fields.positional.pop() else {
        return Ok(None);
    };
    match messages(&last) {
        None => Ok(None),
        Some(u) => {
            let answer = u.copy(alloc)?;
            Ok(Some(Function { fields, answer }))
        }
    }
}

/// The function that takes the fields of a record type; nothing where the type is none, or its last positional field is
/// no channel for the answer. The only error is want of memory.
fn function_by(alloc: Global, r: &Ty) -> Result<Option<Function>, AllocError>
    ensures none { IfOk result (λ o. IfNone o (function_by (λ bs. respond_or_write) (plain r.now) ≡ None)) }
    ensures some { IfOk result (λ o. IfSome o (λ f. function_by (λ bs. respond_or_write) (plain r.now) ≡ Some (function_of f))) }
{
    match r {
        Ty::Fields(r) => function_in(alloc, r.copy(alloc)?),
        _ => Ok(None),
    }
}

/// A type that may be applied: `^R`, `!R` or `/R`, where R is a record whose last positional field is `/U` or `!U`.
/// The only error is want of memory.
fn applicable(alloc: Global, t: &Ty) -> Result<Option<Function>, AllocError>
    ensures none { IfOk result (λ o. IfNone o (applicable (plain t.now) ≡ None)) }
    ensures some { IfOk result (λ o. IfSome o (λ f. applicable (plain t.now) ≡ Some (function_of f))) }
{
    match t {
        Ty::Chan(Cap::Both, r) => function_by(alloc, r),
        Ty::Chan(Cap::Write, r) => function_by(alloc, r),
        Ty::Chan(Cap::Respond, r) => function_by(alloc, r),
        _ => Ok(None),
    }
}

/// What the head of an application, which gave this type, may be applied to. Y8 at the head where it may not be applied.
pub fn head(alloc: Global, env: &Env, t: Ty, at: Span) -> Result<Function, InferError>
    ensures ok { IfOk result (λ f. applicable (exposure (context_of (environment_of env.now)) (plain t)) ≡ Some (function_of f)) }
    ensures refused { IfErr result (λ y. IsNoFunction (applicable (exposure (context_of (environment_of env.now)) (plain t))) at y) }
{
    let exposed = exposed(alloc, env, t)?;
    let found = applicable(alloc, &exposed)?;
    match found {
        Some(f) => Ok(f),
        None => Err(InferError::Named(Code::Y8, at, Told::Nothing)),
    }
}
