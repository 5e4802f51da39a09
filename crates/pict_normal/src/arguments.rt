// Operators with their arguments.

ghost use Rattle.std.specs.Prelude.{◌≡◌, ◌+◌, ◌≤◌, ◌<◌, ◌^◌, List, ℕ, IfErr, IfOk, OnOk, [], ◌∷◌, ◌++◌, drop, length, map};
ghost use Rattle.pict_types.specs.Filling.{put_for};
ghost use Rattle.pict_normal.specs.Made.{AreArguments, IsMade, IsReason, built_as, kept_as};
ghost use Rattle.pict_types.specs.Measures.{heights, held, rise, weigh, weights};
ghost use Rattle.pict_normal.specs.Normal.{and_type};
ghost use Rattle.pict_types.specs.Plain.{plain, plain_types};
ghost use Rattle.pict_types.specs.PlainContext.{type_context};
ghost use Rattle.pict_types.specs.Around.{heights_inside, weights_inside};
ghost use Rattle.pict_types.specs.Replacing.{fill};
ghost use Rattle.pict_types.specs.Types.{PlainType, PlainTypes, Var};

use crate::made::{Made, MakeError, is_within, light};
use pict_types::{Context, Measures, Ty, fill_type};
use std::alloc::{AllocError, Global};

/// The arguments of an operator.
#[derive(Drop)]
pub struct Arguments {
    /// Their measures.
    pub measures: Vec<Measures>,
    /// `Top` where an argument is `Top`, else the parameter that it is put for.
    pub kept: Vec<Ty>,
    /// The arguments, and `Top` for those that are too high.
    pub types: Vec<Ty>,
}

impl Arguments {
    /// No argument.
    pub fn new(alloc: Global) -> Arguments
        ensures measures { result.measures.items ≡ [] }
        ensures kept { result.kept.items ≡ [] }
        ensures types { result.types.items ≡ [] }
    {
        Arguments {
            measures: Vec::new(alloc),
            kept: Vec::new(alloc),
            types: Vec::new(alloc),
        }
    }

    /// One more argument, which is put for the parameter `place`.
    pub fn push(&mut self, part: Made, place: u32) -> Result<(), AllocError>
        ensures measures { OnOk result (self.new.measures.items ≡ self.old.measures.items ++ part.measures ∷ []) }
        ensures kept { OnOk result ((ws hs : List ℕ) (t : PlainType) → IsMade ws hs part t
            → plain_types self.new.kept.items ≡ and_type (plain_types self.old.kept.items) (kept_as t place)) }
        ensures types { OnOk result ((ws hs : List ℕ) (t : PlainType) → IsMade ws hs part t
            → plain_types self.new.types.items ≡ and_type (plain_types self.old.types.items) (built_as hs t)) }
    {
        self.measures.push(part.measures)?;
        self.kept.push(kept_part(&part, place))?;
        self.types.push(built_part(part))?;
        Ok(())
    }
}

/// What stays of an argument where its measures alone are asked for.
fn kept_part(part: &Made, place: u32) -> Ty
    ensures kept { (ws hs : List ℕ) (t : PlainType) → IsMade ws hs part.now t → plain result ≡ kept_as t place }
{
    match &part.ty {
        Some(Ty::Top) => Ty::Top,
        _ => Ty::Var(place),
    }
}

/// The argument, and `Top` where it is too high.
fn built_part(part: Made) -> Ty
    ensures built { (ws hs : List ℕ) (t : PlainType) → IsMade ws hs part t → plain result ≡ built_as hs t }
{
    match part.ty {
        Some(t) => t,
        None => Ty::Top,
    }
}

/// The body of an operator with these arguments. The body is written in the context without its innermost variables:
/// `by` are the others of these, and the binders of `inner`.
///
/// It is measured with its parameters in it first, and nothing that passes a limit is built.
pub fn applied(
    alloc: Global,
    c: &Context,
    body: &Ty,
    args: &Arguments,
    by: u32,
    inner: &[Measures],
) -> Result<Made, MakeError>
    requires under { length inner.now ≤ by }
    requires by { by ≤ length (type_context c.now) + length inner.now }
    requires few { length args.now.measures.items < 2 ^ 32 }
    ensures made { IfOk result (λ m. (us : PlainTypes)
        → AreArguments (weights_inside inner.now (weights (type_context c.now))) (heights_inside inner.now (heights (type_context c.now))) args.now us
        → IsMade (weights_inside inner.now (weights (type_context c.now))) (heights_inside inner.now (heights (type_context c.now))) m
        (fill (put_for us by) (plain body.now))) }
    ensures reason { IfErr result (λ e. (us : PlainTypes)
        → AreArguments (weights_inside inner.now (weights (type_context c.now))) (heights_inside inner.now (heights (type_context c.now))) args.now us
        → IsReason (weigh (weights_inside inner.now (weights (type_context c.now))) (fill (put_for us by) (plain body.now))) e) }
{
    let count = args.measures.as_slice().len() as u32;
    let cleaned = fill_type(alloc, body, &args.kept, count, 0)?;
    let measures = light(c.measures_inside(&args.measures, by - inner.len() as u32, &cleaned))?;
    if is_within(measures) {
        return Ok(Made::new(measures, fill_type(alloc, body, &args.types, by, 0)?));
    }
    Ok(Made { measures, ty: None })
}
