// The variables of patterns, and their levels.
ghost use Rattle.std.specs.Prelude.{◌≡◌, ◌+◌, map, IfOk, OnOk};
ghost use Rattle.pict_core.specs.Closed.{binds};
ghost use Rattle.pict_core.specs.Plain.{plain_pat, plain_pat_field};
ghost use Rattle.pict_code.specs.Nodes.{leveled};
ghost use Rattle.pict_code.specs.Plain as code;
ghost use Rattle.pict_lower.specs.Fields.{binds_each, binds_each_labelled, leveled_each, leveled_each_labelled};

use crate::sums::sum;
use pict_code::CodePat;
use pict_core::CorePat;
use pict_syntax::Name;
use std::alloc::{AllocError, Global};

/// The level behind the variables of a pattern whose first variable would have this level.
#[cycle(level_after)]
pub fn level_after(level: u32, pattern: &CorePat) -> Result<u32, AllocError>
    ensures { IfOk result (λ l. l ≡ level + binds (plain_pat pattern.now)) }
{
    match pattern {
        CorePat::Bind => sum(level, 1),
        CorePat::Any => Ok(level),
        CorePat::Fields {
            positional,
            labelled,
        } => level_after_labelled(level_after_fields(level, positional)?, labelled),
    }
}

#[cycle(level_after)]
fn level_after_fields(level: u32, fields: &[CorePat]) -> Result<u32, AllocError>
    ensures { IfOk result (λ l. l ≡ level + binds_each (map plain_pat fields.now)) }
{
    let mut next = level;
    for field in fields {
        next = level_after(next, field)?;
    }
    Ok(next)
}

#[cycle(level_after)]
fn level_after_labelled(level: u32, fields: &[(Name, CorePat)]) -> Result<u32, AllocError>
    ensures { IfOk result (λ l. l ≡ level + binds_each_labelled (map plain_pat_field fields.now)) }
{
    let mut next = level;
    for field in fields {
        next = level_after(next, &field.1)?;
    }
    Ok(next)
}

/// The pattern with the levels of its variables, the first of which has this level; it becomes the level behind them.
#[cycle(leveled)]
pub fn leveled(alloc: Global, level: &mut u32, pattern: &CorePat) -> Result<CodePat, AllocError>
    ensures pattern { IfOk result (λ p. code.plain_pat p ≡ leveled level.old (plain_pat pattern.now)) }
    ensures level { OnOk result (level.new ≡ level.old + binds (plain_pat pattern.now)) }
{
    match pattern {
        CorePat::Bind => {
            let own = *level;
            *level = sum(own, 1)?;
            Ok(CodePat::Bind(own))
        }
        CorePat::Any => Ok(CodePat::Any),
        CorePat::Fields {
            positional,
            labelled,
        } => Ok(CodePat::Fields {
            positional: leveled_fields(alloc, level, positional)?,
            labelled: leveled_labelled(alloc, level, labelled)?,
        }),
    }
}

#[cycle(leveled)]
fn leveled_fields(
    alloc: Global,
    level: &mut u32,
    fields: &[CorePat],
) -> Result<Vec<CodePat>, AllocError>
    ensures fields { IfOk result (λ v. map code.plain_pat v.items ≡ leveled_each level.old (map plain_pat fields.now)) }
    ensures level { OnOk result (level.new ≡ level.old + binds_each (map plain_pat fields.now)) }
{
    let mut made = Vec::new(alloc);
    for field in fields {
        made.push(leveled(alloc, level, field)?)?;
    }
    Ok(made)
}

#[cycle(leveled)]
fn leveled_labelled(
    alloc: Global,
    level: &mut u32,
    fields: &[(Name, CorePat)],
) -> Result<Vec<(Name, CodePat)>, AllocError>
    ensures fields { IfOk result (λ v. map code.plain_pat_field v.items ≡ leveled_each_labelled level.old (map plain_pat_field fields.now)) }
    ensures level { OnOk result (level.new ≡ level.old + binds_each_labelled (map plain_pat_field fields.now)) }
{
    let mut made = Vec::new(alloc);
    for field in fields {
        made.push((field.0, leveled(alloc, level, &field.1)?))?;
    }
    Ok(made)
}
