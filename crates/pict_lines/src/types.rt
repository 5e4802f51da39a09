// Declarations that need no value, of channels and types; and the type of what is awaited.

ghost use Rattle.std.specs.Prelude.{◌≡◌, ◌+◌, length, IfOk, OnOk};
ghost use Rattle.pict_syntax.specs.PlainTrees.{type_of};
ghost use Rattle.pict_syntax.specs.Trees.{alias_dec, new_dec};
ghost use Rattle.pict_types.specs.Plain.{plain};
ghost use Rattle.pict_rules.specs.Clauses.{empty_record, with_parameters_in};
ghost use Rattle.pict_rules.specs.Rules.{declaration, environment_};
ghost use Rattle.pict_rules.specs.Typing.{rule};
ghost use Rattle.pict_scope.specs.DistinctLabels.{HasDistinctLabels};
ghost use Rattle.pict_infer.specs.Answering.{IsAnswer};
ghost use Rattle.pict_infer.specs.Asking.{IsWellAsked};
ghost use Rattle.pict_infer.specs.Environments.{environment_of, known_entries, known_names, GrewFrom};
ghost use Rattle.pict_lines.specs.Declaring.{channel_type, is_both, new_operator};

use crate::folds::variables;
use crate::records::fields_type;
use crate::steps::expanded;
use pict_infer::{Env, InferError, Told};
use pict_syntax::{Code, Id, TypeTree, type_span};
use pict_types::{Arg, Bound, Cap, Ty};
use std::alloc::{AllocError, Global};

/// The type of the record without fields. The only error is want of memory.
pub fn empty_record(alloc: Global) -> Result<Ty, AllocError>
    ensures { IfOk result (λ t. plain t ≡ empty_record) }
{
    fields_type(alloc, Vec::new(alloc), Vec::new(alloc))
}

/// Whether it is `^S`. Takes no memory.
fn is_both(t: &Ty) -> bool
    ensures { result ≡ is_both (plain t.now) }
{
    match t {
        Ty::Chan(Cap::Both, _) => true,
        Ty::Chan(Cap::Read | Cap::Write | Cap::Respond, _) => false,
        Ty::Top
        | Ty::Int
        | Ty::Char
        | Ty::Str
        | Ty::Bool
        | Ty::Var(_)
        | Ty::Apply(..)
        | Ty::Fields(_)
        | Ty::Rec(_) => false,
    }
}

/// The type of a new channel. Y15 at it where it isn't `^S`, and K1 to K4.
fn channel_type(alloc: Global, env: &Env, t: &TypeTree) -> Result<Ty, InferError>
    requires labels { HasDistinctLabels (type_of t.now) }
    ensures { IsAnswer (channel_type (environment_of env.now) (type_of t.now)) plain result }
{
    match expanded(alloc, env, t) {
        Ok(u) => {
            if is_both(&u) {
                return Ok(u);
            }
            Err(InferError::Named(Code::Y15, type_span(t), Told::Nothing))
        }
        Err(e) => Err(e),
    }
}

/// `new x:T` makes a channel known. Y15 at the type, and K1 to K4.
pub fn new_channel(alloc: Global, env: &mut Env, id: Id, t: &TypeTree) -> Result<(), InferError>
    requires right { IsWellAsked environment_ (environment_of env.old) (declaration (new_dec id.span id (type_of t.now))) }
    ensures answer { IsAnswer (rule (environment_of env.old) (declaration (new_dec id.span id (type_of t.now)))) (λ _. environment_of env.new) result }
    ensures grew { OnOk result (GrewFrom env.old env.new) }
{
    let has = channel_type(alloc, env, t)?;
    Ok(env.push_value(id, has)?)
}

/// `type X = T` makes a type known. The refusals are K1 to K4.
pub fn alias(alloc: Global, env: &mut Env, id: Id, t: &TypeTree) -> Result<(), InferError>
    requires right { IsWellAsked environment_ (environment_of env.old) (declaration (alias_dec id.span id (type_of t.now))) }
    ensures answer { IsAnswer (rule (environment_of env.old) (declaration (alias_dec id.span id (type_of t.now)))) (λ _. environment_of env.new) result }
    ensures grew { OnOk result (GrewFrom env.old env.new) }
{
    let body = expanded(alloc, env, t)?;
    Ok(env.define(id, Arg::Plain(body))?)
}

/// Opens the parameters of an operator. The only error is want of memory.
fn open_parameters(env: &mut Env, params: &[Id]) -> Result<(), AllocError>
    ensures names { OnOk result (known_names env.new ≡ known_names env.old) }
    ensures entries { OnOk result (known_entries env.new ≡ (with_parameters_in (environment_of env.old) params.now).context) }
    ensures grew { OnOk result (GrewFrom env.old env.new) }
{
    for x in params {
        env.push_type(x.name, Bound::Free)?;
    }
    Ok(())
}

/// `type (X Y ..) = T` makes an operator known. The refusals are K1 to K4.
pub fn operator(
    alloc: Global,
    env: &mut Env,
    id: Id,
    params: &[Id],
    t: &TypeTree,
) -> Result<(), InferError>
    requires right { IsWellAsked environment_ (environment_of env.old) (declaration (new_operator id params.now (type_of t.now))) }
    ensures answer { IsAnswer (rule (environment_of env.old) (declaration (new_operator id params.now (type_of t.now)))) (λ _. environment_of env.new) result }
    ensures grew { OnOk result (GrewFrom env.old env.new) }
{
    let outer = env.place();
    let around = variables(env);
    open_parameters(env, params)?;
    let count = variables(env) - around;
    let body = expanded(alloc, env, t)?;
    env.cut(outer);
    Ok(env.define(
        id,
        Arg::Op {
            params: count,
            body,
        },
    )?)
}
