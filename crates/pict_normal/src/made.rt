// Types with their measures, within the limit on weight, and left out where they are too high.

ghost use Rattle.pict_syntax.specs.declared.limits.TheConstants.{HEIGHT_LIMIT, WEIGHT_LIMIT};
ghost use Rattle.std.specs.Prelude.{◌≡◌, ◌+◌, ◌≤◌, ◌<◌, max, List, ℕ, IfErr, IfOk, IfNone, IfSome, IsTrue, IsFalse, [], ◌∷◌, ◌++◌, Some};
ghost use Rattle.pict_normal.specs.Made.{IsGrown, IsMade, IsMadeBound, IsReason, IsRow};
ghost use Rattle.pict_types.specs.Measures.{held, heights_under, rise, rise_bounds, rise_labels, rise_types, weigh, weigh_bounds, weigh_labels, weigh_types, weigh_variable, weights_under};
ghost use Rattle.pict_types.specs.Plain.{plain, plain_bounds, plain_cap, plain_labels, plain_types};
ghost use Rattle.pict_types.specs.Replacing.{bound_by};
ghost use Rattle.pict_types.specs.Types.{Apply, Chan, Fields, PlainBounds, PlainLabels, PlainType, PlainTypes, Rec};

use pict_syntax::Name;
use pict_types::{Bound, Cap, Measure, Measures, Record, Ty, too_big};
use std::alloc::{AllocError, AllocFailed, Global};
use std::rc::Rc;
use thiserror::Error;

/// Why a type isn't made.
#[derive(Debug, Drop, Error)]
pub enum MakeError {
    /// The weight of the type passes its limit.
    #[error("the type is too heavy")]
    TooHeavy,
    /// Want of memory.
    #[error("want of memory")]
    Memory,
}

impl From<AllocError> for MakeError {
    ghost use Rattle.std.specs.Prelude.{◌≡◌};
    ghost use Rattle.pict_normal.specs.declared.made.MakeError.TheVariants.{Memory};

    ghost from_gives = { λ _ error. error ≡ Memory };

    fn from(_error: AllocError) -> MakeError {
        MakeError::Memory
    }
}

impl<T: Drop> From<AllocFailed<T>> for MakeError {
    ghost use Rattle.std.specs.Prelude.{◌≡◌};
    ghost use Rattle.pict_normal.specs.declared.made.MakeError.TheVariants.{Memory};

    ghost from_gives = { λ _ error. error ≡ Memory };

    fn from(_failed: AllocFailed<T>) -> MakeError {
        MakeError::Memory
    }
}

/// The measures of a type, and the type where it isn't too high.
#[derive(Drop)]
pub struct Made {
    pub measures: Measures,
    pub ty: Option<Ty>,
}

/// The measures of a type field, and its bound where its type isn't too high.
#[derive(Drop)]
pub struct MadeBound {
    pub measures: Measures,
    pub bound: Option<Bound>,
}

/// Parts side by side: their measures together, and the parts where none is too high.
#[derive(Drop)]
pub struct Row<T> {
    pub measures: Measures,
    pub items: Option<Vec<T>>,
}

/// Whether the measures are within the limits.
pub fn is_within(measures: Measures) -> bool
    ensures yes { IsTrue result → (measures.weight ≤ WEIGHT_LIMIT) × (measures.height ≤ HEIGHT_LIMIT) }
    ensures no { IsFalse result → measures.weight ≤ WEIGHT_LIMIT → HEIGHT_LIMIT < measures.height }
{
    too_big(measures).is_none()
}

/// The measures, where the weight is within its limit.
pub fn light(measures: Measures) -> Result<Measures, MakeError>
    ensures same { IfOk result (λ m. m ≡ measures) }
    ensures light { IfOk result (λ m. m.weight ≤ WEIGHT_LIMIT) }
    ensures reason { IfErr result (λ e. IsReason measures.weight e) }
{
    match too_big(measures) {
        Some(Measure::Weight) => Err(MakeError::TooHeavy),
        Some(Measure::Height) | None => Ok(measures),
    }
}

impl Made {
    /// A type with its measures. It is dropped where it is too high.
    pub fn new(measures: Measures, ty: Ty) -> Made
        requires { measures.weight ≤ WEIGHT_LIMIT }
        ensures made { (ws hs : List ℕ) (t : PlainType) → plain ty ≡ t → measures.weight ≡ held (weigh ws t)
            → measures.height ≡ held (rise hs t) → IsMade ws hs result t }
    {
        if is_within(measures) {
            return Made {
                measures,
                ty: Some(ty),
            };
        }
        Made { measures, ty: None }
    }

    /// A type without parts.
    pub fn leaf(ty: Ty) -> Made
        ensures measures { result.measures ≡ record { weight = 1; height = 1 } }
        ensures ty { result.ty ≡ Some ty }
    {
        Made {
            measures: Measures::LEAF,
            ty: Some(ty),
        }
    }
}

impl MadeBound {
    /// A type field without a type.
    pub fn leaf(bound: Bound) -> MadeBound
        ensures measures { result.measures ≡ record { weight = 1; height = 1 } }
        ensures bound { result.bound ≡ Some bound }
    {
        MadeBound {
            measures: Measures::LEAF,
            bound: Some(bound),
        }
    }
}

impl<T: Drop> Row<T> {
    /// No part.
    pub fn new(alloc: Global) -> Row<T>
        ensures weight { result.measures.weight ≡ 0 }
        ensures height { result.measures.height ≡ 0 }
        ensures items { IfSome result.items (λ v. v.items ≡ []) }
        ensures some { IfNone result.items ⊥ }
    {
        Row {
            measures: Measures::NONE,
            items: Some(Vec::new(alloc)),
        }
    }

    /// One more part, which is none where it is too high.
    pub fn with(self, measures: Measures, part: Option<T>) -> Result<Row<T>, MakeError>
        ensures weight { IfOk result (λ r. r.measures.weight ≡ self.measures.weight + measures.weight) }
        ensures light { IfOk result (λ r. r.measures.weight ≤ WEIGHT_LIMIT) }
        ensures height { IfOk result (λ r. r.measures.height ≡ max self.measures.height measures.height) }
        ensures grown { IfOk result (λ r. IfSome r.items (λ v. IsGrown self.items part v.items)) }
        ensures missing { IfOk result (λ r. IfNone self.items (HEIGHT_LIMIT < self.measures.height) → IfNone part (HEIGHT_LIMIT < measures.height)
            → IfNone r.items (HEIGHT_LIMIT < r.measures.height)) }
        ensures reason { IfErr result (λ e. IsReason (self.measures.weight + measures.weight) e) }
    {
        let measures = light(self.measures.beside(measures))?;
        if let Some(mut items) = self.items
            && let Some(part) = part
        {
            items.push(part)?;
            return Ok(Row {
                measures,
                items: Some(items),
            });
        }
        Ok(Row {
            measures,
            items: None,
        })
    }
}

/// A type field below a type; `Top` is no bound.
pub fn bound_of(part: Made) -> Result<MadeBound, MakeError>
    ensures made { IfOk result (λ m. (ws hs : List ℕ) (t : PlainType) → IsMade ws hs part t → IsMadeBound ws hs m (bound_by t)) }
    ensures reason { IfErr result (λ e. (ws hs : List ℕ) (t : PlainType) → IsMade ws hs part t → IsReason (weigh_variable ws (bound_by t)) e) }
{
    let Made { measures, ty } = part;
    match ty {
        Some(t) => below(measures, t),
        None => Ok(MadeBound {
            measures: light(measures.above())?,
            bound: None,
        }),
    }
}

/// A type field below a type with these measures.
fn below(measures: Measures, t: Ty) -> Result<MadeBound, MakeError>
    ensures made { IfOk result (λ m. (ws hs : List ℕ) → measures.weight ≡ weigh ws (plain t)
        → measures.height ≡ held (rise hs (plain t)) → IsMadeBound ws hs m (bound_by (plain t))) }
    ensures reason { IfErr result (λ e. (ws : List ℕ) → measures.weight ≡ weigh ws (plain t) → IsReason (weigh_variable ws (bound_by (plain t))) e) }
{
    match t {
        Ty::Top { .. } => Ok(MadeBound::leaf(Bound::Free)),
        t => Ok(MadeBound {
            measures: light(measures.above())?,
            bound: Some(Bound::Below(t)),
        }),
    }
}

/// A channel type.
pub fn channel(alloc: Global, cap: Cap, part: Made) -> Result<Made, MakeError>
    ensures made { IfOk result (λ m. (ws hs : List ℕ) (t : PlainType) → IsMade ws hs part t → IsMade ws hs m (Chan (plain_cap cap) t)) }
    ensures reason { IfErr result (λ e. (ws hs : List ℕ) (t : PlainType) → IsMade ws hs part t → IsReason (weigh ws (Chan (plain_cap cap) t)) e) }
{
    let measures = light(part.measures.above())?;
    match part.ty {
        Some(u) => Ok(Made::new(measures, Ty::Chan(cap, Rc::new(alloc, u)?))),
        None => Ok(Made { measures, ty: None }),
    }
}

/// A recursive type with this body.
pub fn recursive(alloc: Global, body: Made) -> Result<Made, MakeError>
    ensures made { IfOk result (λ m. (ws hs : List ℕ) (t : PlainType) → IsMade (1 ∷ ws) (1 ∷ hs) body t → IsMade ws hs m (Rec t)) }
    ensures reason { IfErr result (λ e. (ws hs : List ℕ) (t : PlainType) → IsMade (1 ∷ ws) (1 ∷ hs) body t → IsReason (weigh ws (Rec t)) e) }
{
    let measures = light(body.measures.above())?;
    match body.ty {
        Some(u) => Ok(Made::new(measures, Ty::Rec(Rc::new(alloc, u)?))),
        None => Ok(Made { measures, ty: None }),
    }
}

/// An operator variable with these arguments.
pub fn applied_variable(alloc: Global, i: u32, args: Row<Ty>) -> Result<Made, MakeError>
    ensures made { IfOk result (λ m. (ws hs : List ℕ) (ts : PlainTypes) → IsRow plain_types args (weigh_types ws ts) 0 (rise_types hs ts) 0 ts
        → IsMade ws hs m (Apply i ts)) }
    ensures reason { IfErr result (λ e. (ws hs : List ℕ) (ts : PlainTypes) → IsRow plain_types args (weigh_types ws ts) 0 (rise_types hs ts) 0 ts
        → IsReason (weigh ws (Apply i ts)) e) }
{
    let measures = light(args.measures.above())?;
    match args.items {
        Some(us) => Ok(Made::new(measures, Ty::Apply(i, Rc::new(alloc, us)?))),
        None => Ok(Made { measures, ty: None }),
    }
}

/// A record type with these fields.
pub fn fields(
    alloc: Global,
    binders: Row<Bound>,
    positional: Row<Ty>,
    labelled: Row<(Name, Ty)>,
) -> Result<Made, MakeError>
    ensures made { IfOk result (λ m. (ws hs : List ℕ) (bs : PlainBounds) (ps : PlainTypes) (ls : PlainLabels)
        → IsRow plain_bounds binders (weigh_bounds ws bs) 0 (rise_bounds hs bs) 0 bs
        → IsRow plain_types positional (weigh_types (weights_under ws bs) ps) 0 (rise_types (heights_under hs bs) ps) 0 ps
        → IsRow plain_labels labelled (weigh_labels (weights_under ws bs) ls) 0 (rise_labels (heights_under hs bs) ls) 0 ls
        → IsMade ws hs m (Fields bs ps ls)) }
    ensures reason { IfErr result (λ e. (ws hs : List ℕ) (bs : PlainBounds) (ps : PlainTypes) (ls : PlainLabels)
        → IsRow plain_bounds binders (weigh_bounds ws bs) 0 (rise_bounds hs bs) 0 bs
        → IsRow plain_types positional (weigh_types (weights_under ws bs) ps) 0 (rise_types (heights_under hs bs) ps) 0 ps
        → IsRow plain_labels labelled (weigh_labels (weights_under ws bs) ls) 0 (rise_labels (heights_under hs bs) ls) 0 ls
        → IsReason (weigh ws (Fields bs ps ls)) e) }
{
    let together = binders
        .measures
        .beside(positional.measures)
        .beside(labelled.measures)
        .above();
    let measures = light(together)?;
    if let Some(binders) = binders.items
        && let Some(positional) = positional.items
        && let Some(labelled) = labelled.items
    {
        let r = Record {
            binders,
            positional,
            labelled,
        };
        return Ok(Made::new(measures, Ty::Fields(Rc::new(alloc, r)?)));
    }
    Ok(Made { measures, ty: None })
}
