// Declarations, each in what those before it leave.

ghost use Rattle.std.specs.Prelude.{◌≡◌, true, false, OnOk};
ghost use Rattle.pict_syntax.specs.PlainTrees.{dec_of, decs_on, pat_of, val_of};
ghost use Rattle.pict_syntax.specs.Trees.{no_decs};
ghost use Rattle.pict_rules.specs.Complete.{is_complete};
ghost use Rattle.pict_rules.specs.Rules.{declaration, declarations, environment_};
ghost use Rattle.pict_rules.specs.Typing.{rule};
ghost use Rattle.pict_infer.specs.Answering.{IsAnswer};
ghost use Rattle.pict_infer.specs.Asking.{IsWellAsked};
ghost use Rattle.pict_infer.specs.Environments.{environment_of, known_entries, known_names, GrewFrom};
ghost use Rattle.pict_lines.specs.Declaring.{valued};

use crate::definitions::definitions;
use crate::processes::process;
use crate::values::{gives, has};
use pict_infer::{Env, InferError, pattern_against, typed_pattern};
use pict_lines::complete::is_complete;
use pict_lines::types::{alias, empty_record, new_channel, operator};
use pict_syntax::{Dec, Pat, Val};
use std::alloc::Global;

/// Declarations, in order. What they declare becomes known. After an error `env` is to be dropped.
#[cycle(values)]
pub fn declarations(alloc: Global, env: &mut Env, ds: &[Dec]) -> Result<(), InferError>
    requires right { IsWellAsked environment_ (environment_of env.old) (declarations (decs_on no_decs ds.now)) }
    ensures answer { IsAnswer (rule (environment_of env.old) (declarations (decs_on no_decs ds.now))) (λ _. environment_of env.new) result }
    ensures grew { OnOk result (GrewFrom env.old env.new) }
{
    for d in ds {
        declaration(alloc, env, d)?;
    }
    Ok(())
}

/// One declaration.
#[cycle(values)]
fn declaration(alloc: Global, env: &mut Env, d: &Dec) -> Result<(), InferError>
    requires right { IsWellAsked environment_ (environment_of env.old) (declaration (dec_of d.now)) }
    ensures answer { IsAnswer (rule (environment_of env.old) (declaration (dec_of d.now))) (λ _. environment_of env.new) result }
    ensures grew { OnOk result (GrewFrom env.old env.new) }
{
    match d {
        Dec::New(_, id, t) => new_channel(alloc, env, *id, t),
        Dec::Run(_, p) => process(alloc, env, p),
        Dec::Let(_, p, v) => {
            let complete = is_complete(alloc, env, p)?;
            if complete {
                return value_of_pattern(alloc, env, v, p);
            }
            value_against_pattern(alloc, env, v, p)
        }
        Dec::Def(_, ds) => definitions(alloc, env, ds),
        Dec::Alias(_, id, t) => alias(alloc, env, *id, t),
        Dec::Operator(_, id, params, t) => operator(alloc, env, *id, params, t),
        Dec::Await(_, v) => {
            let empty = empty_record(alloc)?;
            has(alloc, env, v, &empty)
        }
    }
}

/// A value that has the type of its complete pattern. What the pattern adds becomes known.
#[cycle(values)]
fn value_of_pattern(alloc: Global, env: &mut Env, v: &Val, p: &Pat) -> Result<(), InferError>
    requires right { IsWellAsked environment_ (environment_of env.old) (declaration (valued (pat_of p.now) (val_of v.now))) }
    requires complete { is_complete (known_names env.old) (known_entries env.old) (pat_of p.now) ≡ true }
    ensures answer { IsAnswer (rule (environment_of env.old) (declaration (valued (pat_of p.now) (val_of v.now)))) (λ _. environment_of env.new) result }
    ensures grew { OnOk result (GrewFrom env.old env.new) }
{
    let typed = typed_pattern(alloc, env, p)?;
    match has(alloc, env, v, &typed.has) {
        Ok(()) => Ok(env.add(typed.adds)?),
        Err(e) => Err(e),
    }
}

/// A value whose type its pattern goes against. What the pattern adds becomes known.
#[cycle(values)]
fn value_against_pattern(alloc: Global, env: &mut Env, v: &Val, p: &Pat) -> Result<(), InferError>
    requires right { IsWellAsked environment_ (environment_of env.old) (declaration (valued (pat_of p.now) (val_of v.now))) }
    requires incomplete { is_complete (known_names env.old) (known_entries env.old) (pat_of p.now) ≡ false }
    ensures answer { IsAnswer (rule (environment_of env.old) (declaration (valued (pat_of p.now) (val_of v.now)))) (λ _. environment_of env.new) result }
    ensures grew { OnOk result (GrewFrom env.old env.new) }
{
    let t = gives(alloc, env, v)?;
    pattern_against(alloc, env, p, &t)
}
