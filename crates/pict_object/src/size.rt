// How many bytes the parts of a process have in an object. Sums are held at the greatest `u64`.

ghost use Rattle.std.specs.Prelude.{◌≡◌, ◌-◌, ◌^◌, min, length, map};
ghost use Rattle.pict_core.specs.Plain.{plain_core, plain_pat, plain_val, plain_field, plain_pat_field, vals_of, labelled_of, pats_of, labelled_pats_of};
ghost use Rattle.pict_object.specs.Objects.{value_bytes, values_bytes, labelled_bytes, pattern_bytes, patterns_bytes, labelled_patterns_bytes, process_bytes};
ghost use Rattle.pict_object.specs.Sizes.{first_place, Fit, AreFit, FieldsFit, ProcessFits};

use pict_core::{Core, CorePat, CoreVal};
use pict_syntax::Name;

/// How many bytes a process has in an object.
pub(crate) fn process_size(core: &Core) -> u64
    ensures size { result ≡ min (length (process_bytes first_place (plain_core core.now))) (2 ^ 64 - 1) }
    ensures fits { ProcessFits (plain_core core.now) }
{
    match core {
        Core::Zero => 1,
        Core::Par(left, right) => process_size(left.core())
            .saturating_add(process_size(right.core()))
            .saturating_add(1),
        Core::New(body) => process_size(body.core()).saturating_add(1),
        Core::Out { chan, message, .. } => value_size(chan)
            .saturating_add(value_size(message))
            .saturating_add(1),
        Core::In {
            chan,
            pattern,
            body,
            ..
        } => value_size(chan)
            .saturating_add(pattern_size(pattern))
            .saturating_add(process_size(body.core()))
            .saturating_add(1),
        Core::If { test, yes, no } => value_size(test)
            .saturating_add(process_size(yes.core()))
            .saturating_add(process_size(no.core()))
            .saturating_add(1),
    }
}

#[cycle(value_size)]
fn value_size(value: &CoreVal) -> u64
    ensures size { result ≡ min (length (value_bytes first_place (plain_val value.now))) (2 ^ 64 - 1) }
    ensures fits { Fit (plain_val value.now) }
{
    match value {
        CoreVal::Var(level) => {
            let _level = *level;
            5
        }
        CoreVal::Chan(_) => 0,
        CoreVal::Int(n) => {
            let _number = *n;
            9
        }
        CoreVal::Char(_) => 2,
        CoreVal::Bool(_) => 1,
        CoreVal::Text(bytes) => (bytes.slice().len() as u64).saturating_add(5),
        CoreVal::Prim(_) => 2,
        CoreVal::Fields {
            positional,
            labelled,
        } => values_size(positional)
            .saturating_add(fields_size(labelled))
            .saturating_add(9),
    }
}

#[cycle(value_size)]
fn values_size(values: &[CoreVal]) -> u64
    ensures size { result ≡ min (length (values_bytes first_place (vals_of (map plain_val values.now)))) (2 ^ 64 - 1) }
    ensures fits { AreFit (vals_of (map plain_val values.now)) }
{
    let mut size: u64 = 0;
    for value in values {
        size = size.saturating_add(value_size(value));
    }
    size
}

#[cycle(value_size)]
fn fields_size(fields: &[(Name, CoreVal)]) -> u64
    ensures size { result ≡ min (length (labelled_bytes first_place (labelled_of (map plain_field fields.now)))) (2 ^ 64 - 1) }
    ensures fits { FieldsFit (labelled_of (map plain_field fields.now)) }
{
    let mut size: u64 = 0;
    for field in fields {
        size = size.saturating_add(value_size(&field.1)).saturating_add(4);
    }
    size
}

#[cycle(pattern_size)]
fn pattern_size(pattern: &CorePat) -> u64
    ensures size { result ≡ min (length (pattern_bytes first_place (plain_pat pattern.now))) (2 ^ 64 - 1) }
{
    match pattern {
        CorePat::Bind => 1,
        CorePat::Any => 1,
        CorePat::Fields {
            positional,
            labelled,
        } => patterns_size(positional)
            .saturating_add(pattern_fields_size(labelled))
            .saturating_add(9),
    }
}

#[cycle(pattern_size)]
fn patterns_size(patterns: &[CorePat]) -> u64
    ensures size { result ≡ min (length (patterns_bytes first_place (pats_of (map plain_pat patterns.now)))) (2 ^ 64 - 1) }
{
    let mut size: u64 = 0;
    for pattern in patterns {
        size = size.saturating_add(pattern_size(pattern));
    }
    size
}

#[cycle(pattern_size)]
fn pattern_fields_size(fields: &[(Name, CorePat)]) -> u64
    ensures size { result ≡ min (length (labelled_patterns_bytes first_place (labelled_pats_of (map plain_pat_field fields.now)))) (2 ^ 64 - 1) }
{
    let mut size: u64 = 0;
    for field in fields {
        size = size
            .saturating_add(pattern_size(&field.1))
            .saturating_add(4);
    }
    size
}
