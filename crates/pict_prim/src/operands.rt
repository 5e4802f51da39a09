// The operands of a primitive, as its argument holds them.

ghost use Rattle.std.specs.Prelude.{◌≡◌, map, Option, option_and_then};
ghost use Rattle.pict_core.specs.Term.{Val, Labelled, Record};
ghost use Rattle.pict_core.specs.Plain.{plain_val, vals_of};
ghost use Rattle.pict_core.specs.Primitives.{Effect, at_two, at_three};

use pict_core::CoreVal;

/// The positional fields of a record with two of them; nothing of any other value. Labels count nothing.
pub fn two_fields(argument: &CoreVal) -> Option<(&CoreVal, &CoreVal)>
    ensures { (f : Val → Val → Option Effect) → at_two (plain_val argument.now) f
        ≡ option_and_then (λ x. f (plain_val x.0.now) (plain_val x.1.now)) result }
{
    match argument {
        CoreVal::Fields { positional, .. } => first_two(positional),
        _ => None,
    }
}

fn first_two(fields: &[CoreVal]) -> Option<(&CoreVal, &CoreVal)>
    ensures { (ls : Labelled) (f : Val → Val → Option Effect) → at_two (Record (vals_of (map plain_val fields.now)) ls) f
        ≡ option_and_then (λ x. f (plain_val x.0.now) (plain_val x.1.now)) result }
{
    if fields.len() == 2 {
        Some((&fields[0], &fields[1]))
    } else {
        None
    }
}

/// The positional fields of a record with three of them; nothing of any other value. Labels count nothing.
pub fn three_fields(argument: &CoreVal) -> Option<(&CoreVal, &CoreVal, &CoreVal)>
    ensures { (f : Val → Val → Val → Option Effect) → at_three (plain_val argument.now) f
        ≡ option_and_then (λ x. f (plain_val x.0.now) (plain_val x.1.now) (plain_val x.2.now)) result }
{
    match argument {
        CoreVal::Fields { positional, .. } => first_three(positional),
        _ => None,
    }
}

fn first_three(fields: &[CoreVal]) -> Option<(&CoreVal, &CoreVal, &CoreVal)>
    ensures { (ls : Labelled) (f : Val → Val → Val → Option Effect) → at_three (Record (vals_of (map plain_val fields.now)) ls) f
        ≡ option_and_then (λ x. f (plain_val x.0.now) (plain_val x.1.now) (plain_val x.2.now)) result }
{
    if fields.len() == 3 {
        Some((&fields[0], &fields[1], &fields[2]))
    } else {
        None
    }
}
