// The definitions of a `def`: the types of all names, and then all bodies, where the names are known.

ghost use Rattle.std.specs.Prelude.{List, OnOk};
ghost use Rattle.pict_syntax.specs.PlainTrees.{abs_of, definitions_on};
ghost use Rattle.pict_syntax.specs.Trees.{no_definitions};
ghost use Rattle.pict_rules.specs.Environments.{extended};
ghost use Rattle.pict_rules.specs.Rules.{bodies, body, declaration, environment_, Body, Signature};
ghost use Rattle.pict_rules.specs.Typing.{rule};
ghost use Rattle.pict_infer.specs.Answering.{IsAnswer, nothing};
ghost use Rattle.pict_infer.specs.Asking.{IsWellAsked};
ghost use Rattle.pict_infer.specs.Environments.{environment_of, GrewFrom, IsAsBefore};
ghost use Rattle.pict_lines.specs.Definitions.{AreAskedInside, AreInside, IsAskedInside, IsAskedOfBody, IsBody, IsInside};
ghost use Rattle.pict_lines.specs.Declaring.{defined};
ghost use Rattle.pict_lines.specs.Lines.{variables};
ghost use Rattle.pict_lines.specs.Operators.{type_if};

use crate::processes::process;
use crate::values::has;
use pict_infer::{Env, InferError};
use pict_lines::signatures::{Inside, signed};
use pict_syntax::{Abs, Definition};
use pict_types::Ty;
use std::alloc::Global;

/// The definitions of a `def`, whose names become known.
#[cycle(values)]
pub fn definitions(alloc: Global, env: &mut Env, ds: &[Definition]) -> Result<(), InferError>
    requires right { IsWellAsked environment_ (environment_of env.old) (declaration (defined (definitions_on no_definitions ds.now))) }
    ensures answer { IsAnswer (rule (environment_of env.old) (declaration (defined (definitions_on no_definitions ds.now))))
        (λ _. environment_of env.new) result }
    ensures grew { OnOk result (GrewFrom env.old env.new) }
{
    let insides = signed(alloc, env, ds)?;
    bodies(alloc, env, ds, insides)
}

/// The bodies of definitions whose names are known, in order.
#[cycle(values)]
fn bodies(
    alloc: Global,
    env: &mut Env,
    ds: &[Definition],
    insides: Vec<Inside>,
) -> Result<(), InferError>
    requires right { AreAskedInside (environment_of env.old) ds.now insides.items }
    ensures answer { (ss : List Signature) → AreInside (variables (environment_of env.old)) ds.now insides.items ss
        → IsAnswer (rule (environment_of env.old) (bodies ss)) nothing result }
    ensures same { OnOk result (IsAsBefore env.old env.new) }
{
    let mut rest = insides;
    rest.reverse();
    for d in ds {
        let Some(inside) = rest.pop() else {
            unreachable!();
        };
        body(alloc, env, &d.abs, inside)?;
    }
    Ok(())
}

/// The body of an abstraction, with what is known inside it.
#[cycle(values)]
fn body(alloc: Global, env: &mut Env, abs: &Abs, inside: Inside) -> Result<(), InferError>
    requires right { IsAskedInside (environment_of env.old) (abs_of abs.now) inside }
    ensures answer { (s : Signature) → IsInside (variables (environment_of env.old)) (abs_of abs.now) inside s
        → IsAnswer (rule (extended (environment_of env.old) s.adds) (body s.body)) nothing result }
    ensures same { OnOk result (IsAsBefore env.old env.new) }
{
    let outer = env.place();
    env.add(inside.adds)?;
    judged_body(alloc, env, abs, &inside.answer)?;
    env.cut(outer);
    Ok(())
}

/// The body of an abstraction, where what is known inside it is known.
#[cycle(values)]
fn judged_body(
    alloc: Global,
    env: &mut Env,
    abs: &Abs,
    answer: &Option<Ty>,
) -> Result<(), InferError>
    requires right { IsAskedOfBody (environment_of env.old) (abs_of abs.now) (type_if answer.now) }
    ensures answer { (b : Body) → IsBody (abs_of abs.now) (type_if answer.now) b → IsAnswer (rule (environment_of env.old) (body b)) nothing result }
    ensures same { OnOk result (IsAsBefore env.old env.new) }
{
    match abs {
        Abs::Process(_, _, q) => process(alloc, env, q),
        Abs::Function(_, _, _, v) => match answer {
            Some(t) => has(alloc, env, v, t),
            None => unreachable!(),
        },
    }
}
