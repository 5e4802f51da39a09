// The types of the primitives.

ghost use Rattle.std.specs.Prelude.{◌≡◌, IfOk};
ghost use Rattle.pict_types.specs.Plain.{plain, plain_types};
ghost use Rattle.pict_types.specs.Types.{Chan, Fields, Respond, no_bound, no_label};
ghost use Rattle.pict_types.specs.PrimitiveTypes.{of_kind, one_operand, takes, two_operands, type_of};

use pict_syntax::{Operands, Primitive, ValueKind};
use pict_types::{Cap, Record, Ty};
use std::alloc::{AllocError, Global};
use std::rc::Rc;

/// The type of a primitive: it may be sent what it takes, once for each answer.
pub fn type_of(alloc: Global, primitive: Primitive) -> Result<Ty, AllocError>
    ensures { IfOk result (λ t. plain t ≡ type_of primitive) }
{
    let taken = takes(alloc, primitive)?;
    respond(alloc, taken)
}

/// What a primitive takes.
fn takes(alloc: Global, primitive: Primitive) -> Result<Ty, AllocError>
    ensures { IfOk result (λ t. plain t ≡ takes primitive) }
{
    match primitive.operands() {
        Operands::Alone(s) => of_kind(alloc, s),
        Operands::One(s, r) => {
            let (s, r) = (of_kind(alloc, s)?, of_kind(alloc, r)?);
            one_operand(alloc, s, r)
        }
        Operands::Two(s, t, r) => {
            let (s, t, r) = (of_kind(alloc, s)?, of_kind(alloc, t)?, of_kind(alloc, r)?);
            two_operands(alloc, s, t, r)
        }
    }
}

/// The type of the values of a kind.
fn of_kind(alloc: Global, kind: ValueKind) -> Result<Ty, AllocError>
    ensures { IfOk result (λ t. plain t ≡ of_kind kind) }
{
    match kind {
        ValueKind::Int => Ok(Ty::Int),
        ValueKind::Char => Ok(Ty::Char),
        ValueKind::Bool => Ok(Ty::Bool),
        ValueKind::Text => Ok(Ty::Str),
        ValueKind::Empty => record_of(alloc, Vec::new(alloc)),
    }
}

/// `/R`.
fn respond(alloc: Global, r: Ty) -> Result<Ty, AllocError>
    ensures { IfOk result (λ t. plain t ≡ Chan Respond (plain r)) }
{
    Ok(Ty::Chan(Cap::Respond, Rc::new(alloc, r)?))
}

/// The record type of these positional fields.
fn record_of(alloc: Global, positional: Vec<Ty>) -> Result<Ty, AllocError>
    ensures { IfOk result (λ t. plain t ≡ Fields no_bound (plain_types positional.items) no_label) }
{
    let binders = Vec::new(alloc);
    let labelled = Vec::new(alloc);
    let r = Record {
        binders,
        positional,
        labelled,
    };
    Ok(Ty::Fields(Rc::new(alloc, r)?))
}

/// The record of one operand and the channel for the answer.
fn one_operand(alloc: Global, s: Ty, r: Ty) -> Result<Ty, AllocError>
    ensures { IfOk result (λ t. plain t ≡ one_operand (plain s) (plain r)) }
{
    let answer = respond(alloc, r)?;
    let mut positional = Vec::new(alloc);
    positional.push(s)?;
    positional.push(answer)?;
    record_of(alloc, positional)
}

/// The record of two operands and the channel for the answer.
fn two_operands(alloc: Global, s: Ty, t: Ty, r: Ty) -> Result<Ty, AllocError>
    ensures { IfOk result (λ u. plain u ≡ two_operands (plain s) (plain t) (plain r)) }
{
    let answer = respond(alloc, r)?;
    let mut positional = Vec::new(alloc);
    positional.push(s)?;
    positional.push(t)?;
    positional.push(answer)?;
    record_of(alloc, positional)
}
