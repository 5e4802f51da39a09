// Whether a type mentions one of some variables.

ghost use Rattle.std.specs.Prelude.{◌≡◌, IfOk};
ghost use Rattle.pict_types.specs.Among.{is_among};
ghost use Rattle.pict_types.specs.Mentions.{mentions, mentions_bound, mentions_bounds, mentions_labels, mentions_types, outside_times};
ghost use Rattle.pict_types.specs.Plain.{plain, plain_bound, plain_bounds, plain_labels, plain_record, plain_types};

use crate::renumber::deeper;
use crate::types::{Bound, Record, Ty};
use pict_syntax::Name;
use std::alloc::AllocError;

/// Some of the variables of a place.
#[derive(Clone, Copy)]
pub enum Variables<'a> {
    /// So many of the innermost.
    Innermost(u32),
    /// All but so many of the innermost.
    Outer(usize),
    /// Those with a mark; the last mark is that of variable 0.
    Marked(&'a [bool]),
}

/// Whether variable `i`, seen under so many binders of its own, is one of these.
#[tactic(auto, using(crate::proofs::Among::among_rules))]
fn is_among(i: u32, variables: &Variables, under: usize) -> bool
    ensures { result ≡ outside_times under (is_among variables.now) i }
{
    if (i as usize) < under {
        return false;
    }
    let i = i as usize - under;
    match variables {
        Variables::Innermost(n) => i < *n as usize,
        Variables::Outer(n) => *n <= i,
        Variables::Marked(marks) => i < marks.len() && marks[marks.len() - 1 - i],
    }
}

#[cycle(mentions)]
#[tactic(auto, using(crate::proofs::Rows::plain_apply, crate::proofs::Rows::plain_fields))]
fn type_mentions(t: &Ty, variables: &Variables, under: usize) -> Result<bool, AllocError>
    ensures { IfOk result (λ b. b ≡ mentions (outside_times under (is_among variables.now)) (plain t.now)) }
{
    match t {
        Ty::Top => Ok(false),
        Ty::Int => Ok(false),
        Ty::Char => Ok(false),
        Ty::Str => Ok(false),
        Ty::Bool => Ok(false),
        Ty::Var(i) => Ok(is_among(*i, variables, under)),
        Ty::Apply(i, ts) => {
            let rest = types_mention(ts, variables, under)?;
            Ok(is_among(*i, variables, under) || rest)
        }
        Ty::Chan(_, t) => type_mentions(t, variables, under),
        Ty::Fields(r) => record_mentions(r, variables, under),
        Ty::Rec(t) => type_mentions(t, variables, deeper(under, 1)?),
    }
}

#[cycle(mentions)]
#[tactic(auto, using(crate::proofs::Among::outside_is, crate::proofs::Rows::count_bounds_length, crate::proofs::Rows::count_size_bounds))]
fn record_mentions(r: &Record, variables: &Variables, under: usize) -> Result<bool, AllocError>
    ensures { IfOk result (λ b. b ≡ mentions (outside_times under (is_among variables.now)) (plain_record r.now)) }
{
    let inside = deeper(under, r.binders.as_slice().len())?;
    let bounds = bounds_mention(&r.binders, variables, under)?;
    let positional = types_mention(&r.positional, variables, inside)?;
    let labelled = labels_mention(&r.labelled, variables, inside)?;
    Ok(bounds || (positional || labelled))
}

#[cycle(mentions)]
fn bound_mentions(b: &Bound, variables: &Variables, under: usize) -> Result<bool, AllocError>
    ensures { IfOk result (λ r. r ≡ mentions_bound (outside_times under (is_among variables.now)) (plain_bound b.now)) }
{
    match b {
        Bound::Free => Ok(false),
        Bound::Below(t) => type_mentions(t, variables, under),
        Bound::Operator(_) => Ok(false),
    }
}

#[cycle(mentions)]
#[tactic(auto, using(crate::proofs::Rows::types_drop, crate::proofs::Rows::types_end, crate::proofs::Rows::size_types_item))]
fn types_mention(ts: &[Ty], variables: &Variables, under: usize) -> Result<bool, AllocError>
    ensures { IfOk result (λ b. b ≡ mentions_types (outside_times under (is_among variables.now)) (plain_types ts.now)) }
{
    for t in ts {
        if type_mentions(t, variables, under)? {
            return Ok(true);
        }
    }
    Ok(false)
}

#[cycle(mentions)]
#[tactic(auto, using(crate::proofs::Rows::labels_drop, crate::proofs::Rows::labels_end, crate::proofs::Rows::size_labels_item))]
fn labels_mention(
    ls: &[(Name, Ty)],
    variables: &Variables,
    under: usize,
) -> Result<bool, AllocError>
    ensures { IfOk result (λ b. b ≡ mentions_labels (outside_times under (is_among variables.now)) (plain_labels ls.now)) }
{
    for l in ls {
        if type_mentions(&l.1, variables, under)? {
            return Ok(true);
        }
    }
    Ok(false)
}

#[cycle(mentions)]
#[tactic(auto, using(crate::proofs::Rows::bounds_drop, crate::proofs::Rows::bounds_end, crate::proofs::Rows::size_bounds_item))]
fn bounds_mention(bs: &[Bound], variables: &Variables, under: usize) -> Result<bool, AllocError>
    ensures { IfOk result (λ b. b ≡ mentions_bounds (outside_times under (is_among variables.now)) (plain_bounds bs.now)) }
{
    for (i, b) in bs.iter().enumerate() {
        if bound_mentions(b, variables, deeper(under, i)?)? {
            return Ok(true);
        }
    }
    Ok(false)
}

/// Whether the type mentions one of these variables. Takes no memory.
///
/// The only error is that of a type under more binders than a `usize` can count.
pub fn mentions(t: &Ty, variables: &Variables) -> Result<bool, AllocError>
    ensures { IfOk result (λ b. b ≡ mentions (is_among variables.now) (plain t.now)) }
{
    type_mentions(t, variables, 0)
}
