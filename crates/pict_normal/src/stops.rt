// Where the rules of kinds fail in a written type.

ghost use Rattle.std.specs.Prelude.{◌≡◌, [], IfOk, IfErr};
ghost use Rattle.pict_syntax.specs.Trees.{use_type};
ghost use Rattle.pict_normal.specs.Normal.{apply_stops, kind_stops, meaning};
ghost use Rattle.pict_normal.specs.Around.{around};
ghost use Rattle.pict_types.specs.Plain.{plain};
ghost use Rattle.pict_types.specs.PlainContext.{names_of};
ghost use Rattle.pict_binders.specs.Names.{place_of};
ghost use Rattle.pict_types.specs.Places.{arity_at, entry_names};
ghost use Rattle.pict_normal.specs.Raw.{variable_at};
ghost use Rattle.pict_normal.specs.Refusals.{IsFirst};

use crate::binders::Binders;
use crate::numbers::number;
use pict_syntax::{Code, Name, Span};
use pict_types::{Context, Ty};
use std::alloc::{AllocError, AllocFailed};
use thiserror::Error;

/// Why a written type has no normal form.
#[derive(Debug, Drop, Error)]
pub enum KindError {
    /// A refusal at this place: K1 to K3 at the first place in reading order where a rule of kinds fails, else K4 at
    /// the whole written type where a measure of its normal form passes its limit.
    #[error("the type is refused")]
    Named(Code, Span),
    /// Want of memory.
    #[error("want of memory")]
    Memory,
}

impl From<AllocError> for KindError {
    ghost use Rattle.std.specs.Prelude.{◌≡◌};
    ghost use Rattle.pict_normal.specs.declared.stops.KindError.TheVariants.{Memory};

    ghost from_gives = { λ _ error. error ≡ Memory };

    fn from(_error: AllocError) -> KindError {
        KindError::Memory
    }
}

impl<T: Drop> From<AllocFailed<T>> for KindError {
    ghost use Rattle.std.specs.Prelude.{◌≡◌};
    ghost use Rattle.pict_normal.specs.declared.stops.KindError.TheVariants.{Memory};

    ghost from_gives = { λ _ error. error ≡ Memory };

    fn from(_failed: AllocFailed<T>) -> KindError {
        KindError::Memory
    }
}

/// The place of a name among the binders and then the entries of the context, counted from the innermost. An error
/// where a `u32` can't hold it.
fn place_of(c: &Context, inner: &Binders, name: Name) -> Result<Option<u32>, AllocError>
    ensures { IfOk result (λ i. i ≡ place_of (entry_names (around inner.now c.now)) name.0) }
{
    match inner.place(name) {
        Some(i) => Ok(Some(number(i)?)),
        None => match c.place(name) {
            Some(i) => Ok(Some(number(inner.len().saturating_add(i))?)),
            None => Ok(None),
        },
    }
}

/// Of how many arguments the name at this place is an operator; nothing where it is a type.
fn arity(c: &Context, inner: &Binders, place: usize) -> Option<usize>
    ensures { result ≡ arity_at (around inner.now c.now) place }
{
    if place < inner.len() {
        return inner.arity(place);
    }
    c.arity(place - inner.len())
}

/// The variable of a name that stands as a type. K2 where it is an operator.
pub fn raw_use(span: Span, name: Name, c: &Context, inner: &Binders) -> Result<Ty, KindError>
    ensures raw { IfOk result (λ u. plain u ≡ variable_at (place_of (entry_names (around inner.now c.now)) name.0)) }
    ensures kinds { IfOk result (λ _. kind_stops (names_of c.now) (around inner.now c.now) (use_type span name) ≡ []) }
    ensures first { IfErr result (λ e. IsFirst (kind_stops (names_of c.now) (around inner.now c.now) (use_type span name)) e) }
{
    let Some(i) = place_of(c, inner, name)? else {
        return Ok(Ty::Top);
    };
    match arity(c, inner, i as usize) {
        None => Ok(Ty::Var(i)),
        Some(_) => Err(KindError::Named(Code::K2, span)),
    }
}

/// The variable of a name that is applied to so many arguments. K1 where it is a type, or an operator of another
/// number of arguments.
pub fn raw_head(
    span: Span,
    name: Name,
    count: usize,
    c: &Context,
    inner: &Binders,
) -> Result<Option<u32>, KindError>
    ensures raw { IfOk result (λ i. i ≡ place_of (entry_names (around inner.now c.now)) name.0) }
    ensures kinds { IfOk result (λ _. apply_stops span (meaning (around inner.now c.now) name.0) count ≡ []) }
    ensures first { IfErr result (λ e. IsFirst (apply_stops span (meaning (around inner.now c.now) name.0) count) e) }
{
    let Some(i) = place_of(c, inner, name)? else {
        return Ok(None);
    };
    match arity(c, inner, i as usize) {
        None => Err(KindError::Named(Code::K1, span)),
        Some(n) => {
            if n == count {
                return Ok(Some(i));
            }
            Err(KindError::Named(Code::K1, span))
        }
    }
}
