// The parts of core processes that the translation puts together, and the names that it binds.
ghost use Rattle.std.specs.Prelude.{◌≡◌, ◌+◌, length, ℕ, List, IfOk, OnOk};
ghost use Rattle.pict_core.specs.Plain.{plain_core, plain_pat, plain_val};
ghost use Rattle.pict_core.specs.Term.{Val, Var, Out};
ghost use Rattle.pict_syntax.specs.PlainTrees.{definitions_on};
ghost use Rattle.pict_syntax.specs.Trees.{no_definitions};
ghost use Rattle.pict_translation.specs.Arguments.{no_argument};
ghost use Rattle.pict_translation.specs.Placed.{Placed, new_channels, variables};
ghost use Rattle.pict_translation.specs.Translation.{definition_names, unit_pat};
ghost use Rattle.pict_derive.specs.Built.{OpensChannels, numbers_of, surround, three, with_levels};

use crate::outside::{Outside, level_after};
use crate::terms::core_output;
use pict_binders::{Binder, Binders};
use pict_core::{Core, CorePat, CoreVal};
use pict_syntax::{Definition, Name, Span};
use std::alloc::{AllocError, Global};

/// `f![x y k]`
pub fn applied(
    alloc: Global,
    f: CoreVal,
    x: CoreVal,
    y: CoreVal,
    k: u32,
    at: Span,
) -> Result<Core, AllocError>
    ensures { IfOk result (λ core. plain_core core ≡ Out (plain_val f) (three (plain_val x) (plain_val y) (Var k)) at) }
{
    let mut positional = Vec::new(alloc);
    positional.push(x)?;
    positional.push(y)?;
    positional.push(CoreVal::Var(k))?;
    Ok(core_output(
        f,
        CoreVal::Fields {
            positional,
            labelled: Vec::new(alloc),
        },
        at,
    ))
}

/// What the nested application of no argument sends on a channel. The grammar has none.
pub fn nothing_sent(k: u32) -> Core
    ensures { (n : ℕ) → plain_core result ≡ no_argument.sent (Var k) n }
{
    core_output(
        CoreVal::Var(k),
        CoreVal::Bool(true),
        Span {
            text: 0,
            start: 0,
            end: 0,
        },
    )
}

/// The pattern of the record without fields. Takes no memory.
pub fn unit_pattern(alloc: Global) -> CorePat
    ensures { plain_pat result ≡ unit_pat }
{
    CorePat::Fields {
        positional: Vec::new(alloc),
        labelled: Vec::new(alloc),
    }
}

/// Binds names, one after the other, to the levels from this one on: the level after them.
pub fn bind_all(scope: &mut Binders, names: &[Name], first: u32) -> Result<u32, AllocError>
    ensures level { IfOk result (λ n. n ≡ first + length (numbers_of names.now)) }
    ensures scope { OnOk result (scope.new ≡ with_levels (numbers_of names.now) first scope.old) }
{
    let mut level = first;
    for name in names {
        scope.bind(Binder {
            name: name.0,
            number: level,
        })?;
        level = level_after(level)?;
    }
    Ok(level)
}

/// A new channel around the rest for each name of a `def`, which is bound to it.
pub fn channels(
    scope: &mut Binders,
    parts: &[Definition],
    outer: &mut Outside,
) -> Result<(), AllocError>
    ensures core { OnOk result (OpensChannels outer.old outer.new (length parts.now)) }
    ensures scope { OnOk result (scope.new ≡ with_levels (definition_names (definitions_on no_definitions parts.now)) outer.old.depth scope.old) }
{
    for part in parts {
        let number = outer.new_channel()?;
        scope.bind(Binder {
            name: part.id.name.0,
            number,
        })?;
    }
    Ok(())
}
