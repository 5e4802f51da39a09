// Matching: the values that a pattern binds.

ghost use Rattle.std.specs.Prelude.{◌≡◌, map, option_map, IfOk};
ghost use Rattle.pict_core.specs.Plain.{plain_val, plain_pat, plain_field, plain_pat_field, pats_of, vals_of, labelled_of, labelled_pats_of};
ghost use Rattle.pict_core.specs.Matching.{match_value, match_values, match_labelled as match_fields, field_at};
ghost use Rattle.pict_core.specs.Found.{Extends};

use crate::{CorePat, CoreVal};
use pict_syntax::Name;
use std::alloc::{AllocError, Global};

/// The values that the pattern binds where it is matched with this one, in the pattern's order: positional fields first,
/// then its labels.
/// `None` where the pattern doesn't fit. The only error is want of memory.
pub fn match_value(
    alloc: Global,
    pattern: &CorePat,
    value: &CoreVal,
) -> Result<Option<Vec<CoreVal>>, AllocError>
    ensures { IfOk result (λ found. option_map (λ v. map plain_val v.items) found ≡ match_value (plain_pat pattern.now) (plain_val value.now)) }
{
    let mut bound = Vec::new(alloc);
    if match_into(pattern, value, &mut bound, alloc)? {
        Ok(Some(bound))
    } else {
        Ok(None)
    }
}

// Adds what is bound, or answers that the pattern doesn't fit.
#[cycle(match_value)]
fn match_into(
    pattern: &CorePat,
    value: &CoreVal,
    bound: &mut Vec<CoreVal>,
    alloc: Global,
) -> Result<bool, AllocError>
    ensures { IfOk result (λ fits. Extends fits (match_value (plain_pat pattern.now) (plain_val value.now))
        (map plain_val bound.old.items) (map plain_val bound.new.items)) }
{
    match pattern {
        CorePat::Bind => {
            bound.push(value.copy(alloc)?)?;
            Ok(true)
        }
        CorePat::Any => Ok(true),
        CorePat::Fields {
            positional,
            labelled,
        } => match value {
            CoreVal::Fields {
                positional: values,
                labelled: fields,
            } => {
                if match_positional(positional, values, bound, alloc)? {
                    Ok(match_labelled(labelled, fields, bound, alloc)?)
                } else {
                    Ok(false)
                }
            }
            _ => Ok(false),
        },
    }
}

#[cycle(match_value)]
fn match_positional(
    patterns: &[CorePat],
    values: &[CoreVal],
    bound: &mut Vec<CoreVal>,
    alloc: Global,
) -> Result<bool, AllocError>
    ensures { IfOk result (λ fits. Extends fits (match_values (pats_of (map plain_pat patterns.now)) (vals_of (map plain_val values.now)))
        (map plain_val bound.old.items) (map plain_val bound.new.items)) }
{
    if patterns.len() != values.len() {
        return Ok(false);
    }
    for i in 0..patterns.len() {
        if !match_into(&patterns[i], &values[i], bound, alloc)? {
            return Ok(false);
        }
    }
    Ok(true)
}

#[cycle(match_value)]
fn match_labelled(
    patterns: &[(Name, CorePat)],
    fields: &[(Name, CoreVal)],
    bound: &mut Vec<CoreVal>,
    alloc: Global,
) -> Result<bool, AllocError>
    ensures { IfOk result (λ fits. Extends fits (match_fields (labelled_pats_of (map plain_pat_field patterns.now)) (labelled_of (map plain_field fields.now)))
        (map plain_val bound.old.items) (map plain_val bound.new.items)) }
{
    for field in patterns {
        match value_at(fields, field.0) {
            None => return Ok(false),
            Some(value) => {
                if !match_into(&field.1, value, bound, alloc)? {
                    return Ok(false);
                }
            }
        }
    }
    Ok(true)
}

// The first value with the label.
fn value_at(fields: &[(Name, CoreVal)], label: Name) -> Option<&CoreVal>
    ensures { option_map (λ v. plain_val v.now) result ≡ field_at label.0 (labelled_of (map plain_field fields.now)) }
{
    for field in fields {
        if field.0.0 == label.0 {
            return Some(&field.1);
        }
    }
    None
}
