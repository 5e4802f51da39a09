// Types with arguments put for their innermost variables, and records with arguments for their type fields.

ghost use Rattle.std.specs.Prelude.{◌≡◌, Err, IfErr, IfOk, None, Some};
ghost use Rattle.pict_types.specs.declared.limits.Measure.{Measure};
ghost use Rattle.pict_types.specs.Plain.{plain, plain_args, plain_bounds, plain_record};
ghost use Rattle.pict_types.specs.PlainContext.{IsWrittenIn, type_context};
ghost use Rattle.pict_normal.specs.Written.{ArgsAreWrittenIn, IsWrittenUnder, record_with, type_with};
ghost use Rattle.pict_types.specs.AsMarked.{VaryAsMarked};
ghost use Rattle.pict_types.specs.Replacing.{FitTheirFields};
ghost use Rattle.pict_types.specs.WithinLimits.{IsTooHeavy, IsTooHigh, IsWithinLimits};

use crate::made::{Made, MakeError};
use crate::puts::{Puts, Source};
use crate::replacement::{made_labels, made_type, made_types};
use pict_types::{Arg, Context, Measure, Measures, Record, SizeError, Ty, too_big};
use std::alloc::Global;

impl From<MakeError> for SizeError {
    ghost use Rattle.std.specs.Prelude.{◌≡◌};
    ghost use Rattle.pict_normal.specs.Made.{size_error};

    ghost from_gives = { λ stop error. error ≡ size_error stop };

    fn from(stop: MakeError) -> SizeError {
        match stop {
            MakeError::TooHeavy => SizeError::TooBig(Measure::Weight),
            MakeError::Memory => SizeError::Memory,
        }
    }
}

/// A type with these arguments put for its innermost variables, the last one for variable 0.
///
/// `TooBig` comes where a measure of the result passes its limit, the weight before the height. Making stops at the
/// first part that takes the weight past its limit, and an argument that is dropped isn't made.
///
/// The type is written in the context and under type fields of the arguments' kinds: a bound of a record under the
/// fields before it, and a field under all of them, once the arguments were found to be of their fields' kinds. The
/// arguments are what `expand_arg` answers, or types that stand in types which were made before. `Memory` also comes
/// where a `u32` can't number the variables and the binders around a place.
pub fn instantiate_type(alloc: Global, c: &Context, t: &Ty, args: &[Arg]) -> Result<Ty, SizeError>
    requires t { IsWrittenUnder c.now (plain_args args.now) (plain t.now) }
    requires args { ArgsAreWrittenIn c.now (plain_args args.now) }
    ensures instance { IfOk result (λ u. plain u ≡ type_with (plain_args args.now) (plain t.now)) }
    ensures formed { IfOk result (λ u. IsWrittenIn c.now (plain u)) }
    ensures within { IfOk result (λ u. IsWithinLimits (type_context c.now) (plain u)) }
    ensures too_heavy { result ≡ Err (SizeError.TooBig Measure.Weight) → IsTooHeavy (type_context c.now) (type_with (plain_args args.now) (plain t.now)) }
    ensures too_high { result ≡ Err (SizeError.TooBig Measure.Height) → IsTooHigh (type_context c.now) (type_with (plain_args args.now) (plain t.now)) }
{
    let puts = Puts {
        source: Source::Arguments(args),
        context: c,
    };
    let mut inner: Vec<Measures> = Vec::new(alloc);
    low(made_type(alloc, t, &puts, &mut inner)?)
}

/// A type that was made, where it isn't too high.
fn low(made: Made) -> Result<Ty, SizeError>
    ensures ok { IfOk result (λ u. made.ty ≡ Some u) }
    ensures err { IfErr result (λ e. (e ≡ SizeError.TooBig Measure.Height) × (made.ty ≡ None)) }
{
    match made.ty {
        Some(t) => Ok(t),
        None => Err(SizeError::TooBig(Measure::Height)),
    }
}

/// The record without type fields, with these arguments put for them.
///
/// `TooBig` comes where a measure of the result passes its limit, the weight before the height. Making stops at the
/// first part that takes the weight past its limit, and an argument that is dropped isn't made.
///
/// The record is what was made before, by `expand` or out of such types. The arguments are as for `instantiate_type`,
/// one for each type field and of its kind, and each operator varies as its field's marks say: both are looked at before.
/// `Memory` also comes where a `u32` can't number the variables and the binders around a place.
pub fn instantiate(
    alloc: Global,
    c: &Context,
    r: &Record,
    args: &[Arg],
) -> Result<Record, SizeError>
    requires r { IsWrittenIn c.now (plain_record r.now) }
    requires args { ArgsAreWrittenIn c.now (plain_args args.now) }
    requires fit { FitTheirFields (plain_args args.now) (plain_bounds r.now.binders.items) }
    requires vary { VaryAsMarked (type_context c.now) (plain_args args.now) (plain_bounds r.now.binders.items) }
    ensures instance { IfOk result (λ q. plain_record q ≡ record_with (plain_args args.now) r.now) }
    ensures formed { IfOk result (λ q. IsWrittenIn c.now (plain_record q)) }
    ensures within { IfOk result (λ q. IsWithinLimits (type_context c.now) (record_with (plain_args args.now) r.now)) }
    ensures too_heavy { result ≡ Err (SizeError.TooBig Measure.Weight) → IsTooHeavy (type_context c.now) (record_with (plain_args args.now) r.now) }
    ensures too_high { result ≡ Err (SizeError.TooBig Measure.Height) → IsTooHigh (type_context c.now) (record_with (plain_args args.now) r.now) }
{
    let puts = Puts {
        source: Source::Arguments(args),
        context: c,
    };
    let mut inner: Vec<Measures> = Vec::new(alloc);
    let positional = made_types(alloc, &r.positional, &puts, &mut inner)?;
    let labelled = made_labels(alloc, &r.labelled, &puts, &mut inner)?;
    let measures = positional.measures.beside(labelled.measures).above();
    if let Some(measure) = too_big(measures) {
        return Err(SizeError::TooBig(measure));
    }
    if let Some(positional) = positional.items
        && let Some(labelled) = labelled.items
    {
        return Ok(Record {
            binders: Vec::new(alloc),
            positional,
            labelled,
        });
    }
    unreachable!()
}
