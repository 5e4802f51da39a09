// Whether an operator varies as marks say.

ghost use Rattle.std.specs.Prelude.{◌≡◌, [], length, IfNone, IfSome, Some};
ghost use Rattle.pict_types.specs.Bodies.{argument_goes, body_context, seen, way_of};
ghost use Rattle.pict_types.specs.Entries.{Definition};
ghost use Rattle.pict_types.specs.Places.{arity};
ghost use Rattle.pict_types.specs.Types.{Chan};
ghost use Rattle.pict_types.specs.Mentions.{mentions, mentions_bound, mentions_bounds, mentions_labels, mentions_types};
ghost use Rattle.pict_types.specs.Plain.{plain, plain_arg, plain_bound, plain_bounds, plain_cap, plain_labels, plain_record, plain_types};
ghost use Rattle.pict_types.specs.PlainContext.{type_context};
ghost use Rattle.pict_types.specs.Variance.{all_go, arguments_go, body_varies, goes, goes_as, labels_go, marks_at, only, under_parameters, varies};

use crate::context::Context;
use crate::types::{Arg, Bound, Cap, Record, Ty};
use pict_syntax::{Mark, Name};

/// The variables at a place within the body of an operator.
#[derive(Clone, Copy)]
pub enum Body<'a, 'n> {
    /// So many parameters, in a context.
    Parameters(u32, &'a Context<'n>),
    /// Under the type fields of a record, or the first of them.
    Inner(&'a [Bound], &'a Body<'a, 'n>),
    /// In the body of a recursive type.
    Recursive(&'a Body<'a, 'n>),
}

/// Whether variable `i` is the parameter that is `x` in the whole body.
#[tactic(auto, using(crate::proofs::Bodies::parameter_rules))]
fn is_parameter(i: u32, x: u32, body: &Body) -> bool
    ensures { result ≡ only (seen body.now x) i }
{
    match body {
        Body::Parameters(_, _) => x == i,
        Body::Inner(bs, outer) => {
            (i as usize) >= bs.len() && is_parameter(i - bs.len() as u32, x, outer)
        }
        Body::Recursive(outer) => i != 0 && is_parameter(i - 1, x, outer),
    }
}

#[cycle(has)]
#[tactic(auto, using(crate::proofs::Rows::plain_apply, crate::proofs::Rows::plain_fields))]
fn type_has(t: &Ty, x: u32, body: &Body) -> bool
    ensures { result ≡ mentions (only (seen body.now x)) (plain t.now) }
{
    match t {
        Ty::Top => false,
        Ty::Int => false,
        Ty::Char => false,
        Ty::Str => false,
        Ty::Bool => false,
        Ty::Var(i) => is_parameter(*i, x, body),
        Ty::Apply(i, ts) => is_parameter(*i, x, body) || types_have(ts, x, body),
        Ty::Chan(_, t) => type_has(t, x, body),
        Ty::Fields(r) => record_has(r, x, body),
        Ty::Rec(t) => type_has(t, x, &Body::Recursive(&*body)),
    }
}

#[cycle(has)]
#[tactic(auto, using(crate::proofs::Bodies::only_past))]
fn record_has(r: &Record, x: u32, body: &Body) -> bool
    ensures { result ≡ mentions (only (seen body.now x)) (plain_record r.now) }
{
    let inner = Body::Inner(&r.binders, &*body);
    bounds_have(&r.binders, x, body)
        || (types_have(&r.positional, x, &inner) || labels_have(&r.labelled, x, &inner))
}

#[cycle(has)]
fn bound_has(b: &Bound, x: u32, body: &Body) -> bool
    ensures { result ≡ mentions_bound (only (seen body.now x)) (plain_bound b.now) }
{
    match b {
        Bound::Free => false,
        Bound::Below(t) => type_has(t, x, body),
        Bound::Operator(_) => false,
    }
}

#[cycle(has)]
#[tactic(auto, using(crate::proofs::Rows::types_drop, crate::proofs::Rows::types_end, crate::proofs::Rows::size_types_item))]
fn types_have(ts: &[Ty], x: u32, body: &Body) -> bool
    ensures { result ≡ mentions_types (only (seen body.now x)) (plain_types ts.now) }
{
    for t in ts {
        if type_has(t, x, body) {
            return true;
        }
    }
    false
}

#[cycle(has)]
#[tactic(auto, using(crate::proofs::Rows::labels_drop, crate::proofs::Rows::labels_end, crate::proofs::Rows::size_labels_item))]
fn labels_have(ls: &[(Name, Ty)], x: u32, body: &Body) -> bool
    ensures { result ≡ mentions_labels (only (seen body.now x)) (plain_labels ls.now) }
{
    for l in ls {
        if type_has(&l.1, x, body) {
            return true;
        }
    }
    false
}

#[cycle(has)]
#[tactic(auto, using(crate::proofs::Rows::bounds_drop, crate::proofs::Rows::bounds_end, crate::proofs::Rows::size_bounds_item))]
fn bounds_have(bs: &[Bound], x: u32, body: &Body) -> bool
    ensures { result ≡ mentions_bounds (only (seen body.now x)) (plain_bounds bs.now) }
{
    for i in 0..bs.len() {
        if bound_has(&bs[i], x, &Body::Inner(&bs[..i], &*body)) {
            return true;
        }
    }
    false
}

/// The marks of operator variable `i`; nothing where it has none.
#[tactic(auto, using(crate::proofs::Bodies::marks_rules))]
fn marks_of<'a, 'n>(i: u32, body: &Body<'a, 'n>) -> Option<&'a [Mark]>
    ensures none { IfNone result (marks_at (body_context body.now) i ≡ []) }
    ensures some { IfSome result (λ ms. marks_at (body_context body.now) i ≡ ms.now) }
{
    match body {
        Body::Parameters(n, c) => {
            if i < *n {
                return None;
            }
            match c.bound(i - *n) {
                Some(Bound::Operator(marks)) => Some(marks),
                _ => None,
            }
        }
        Body::Inner(bs, outer) => {
            if (i as usize) >= bs.len() {
                return marks_of(i - bs.len() as u32, outer);
            }
            match &bs[bs.len() - 1 - i as usize] {
                Bound::Operator(marks) => Some(marks),
                Bound::Free => None,
                Bound::Below(_) => None,
            }
        }
        Body::Recursive(outer) => {
            if i == 0 {
                return None;
            }
            marks_of(i - 1, outer)
        }
    }
}

/// Whether the type goes up, or down, with the parameter.
#[cycle(goes)]
#[tactic(auto, using(crate::proofs::Rows::plain_apply, crate::proofs::Rows::plain_fields, crate::proofs::Bodies::way_rules))]
fn type_goes(t: &Ty, up: bool, x: u32, body: &Body) -> bool
    ensures { result ≡ goes (way_of up) (body_context body.now) (seen body.now x) (plain t.now) }
{
    match t {
        Ty::Top => true,
        Ty::Int => true,
        Ty::Char => true,
        Ty::Str => true,
        Ty::Bool => true,
        Ty::Var(i) => up || !is_parameter(*i, x, body),
        Ty::Apply(i, ts) => match marks_of(*i, body) {
            None => !types_have(ts, x, body),
            Some(marks) => arguments_go(marks, ts, up, x, body),
        },
        Ty::Chan(cap, t) => message_goes(*cap, t, up, x, body),
        Ty::Fields(r) => record_goes(r, up, x, body),
        Ty::Rec(t) => !type_has(t, x, &Body::Recursive(&*body)),
    }
}

/// The same of a channel type with these messages.
#[cycle(goes)]
#[tactic(auto, using(crate::proofs::Bodies::way_rules))]
fn message_goes(cap: Cap, t: &Ty, up: bool, x: u32, body: &Body) -> bool
    ensures { result ≡ goes (way_of up) (body_context body.now) (seen body.now x) (Chan (plain_cap cap) (plain t.now)) }
{
    match cap {
        Cap::Both => !type_has(t, x, body),
        Cap::Read => type_goes(t, up, x, body),
        Cap::Write => type_goes(t, !up, x, body),
        Cap::Respond => type_goes(t, !up, x, body),
    }
}

#[cycle(goes)]
#[tactic(auto, using(crate::proofs::Bodies::only_past))]
fn record_goes(r: &Record, up: bool, x: u32, body: &Body) -> bool
    ensures { result ≡ goes (way_of up) (body_context body.now) (seen body.now x) (plain_record r.now) }
{
    let inner = Body::Inner(&r.binders, &*body);
    !bounds_have(&r.binders, x, body)
        && (all_go(&r.positional, up, x, &inner) && labels_go(&r.labelled, up, x, &inner))
}

/// Whether an argument with this mark goes so.
#[cycle(goes)]
#[tactic(auto, using(crate::proofs::Bodies::way_rules))]
fn argument_goes(mark: Mark, t: &Ty, up: bool, x: u32, body: &Body) -> bool
    ensures { result ≡ argument_goes (way_of up) (body_context body.now) (seen body.now x) mark (plain t.now) }
{
    match mark {
        Mark::Plus => type_goes(t, up, x, body),
        Mark::Minus => type_goes(t, !up, x, body),
        Mark::Plain => !type_has(t, x, body),
    }
}

#[cycle(goes)]
#[tactic(auto, using(crate::proofs::Rows::types_drop, crate::proofs::Rows::types_end, crate::proofs::Rows::size_types_item, crate::proofs::Bodies::arguments_rules))]
fn arguments_go(marks: &[Mark], ts: &[Ty], up: bool, x: u32, body: &Body) -> bool
    ensures { result ≡ arguments_go (way_of up) (body_context body.now) (seen body.now x) marks.now (plain_types ts.now) }
{
    for k in 0..ts.len() {
        if k >= marks.len() {
            return !types_have(&ts[k..], x, body);
        }
        if !argument_goes(marks[k], &ts[k], up, x, body) {
            return false;
        }
    }
    true
}

#[cycle(goes)]
#[tactic(auto, using(crate::proofs::Rows::types_drop, crate::proofs::Rows::types_end, crate::proofs::Rows::size_types_item))]
fn all_go(ts: &[Ty], up: bool, x: u32, body: &Body) -> bool
    ensures { result ≡ all_go (way_of up) (body_context body.now) (seen body.now x) (plain_types ts.now) }
{
    for t in ts {
        if !type_goes(t, up, x, body) {
            return false;
        }
    }
    true
}

#[cycle(goes)]
#[tactic(auto, using(crate::proofs::Rows::labels_drop, crate::proofs::Rows::labels_end, crate::proofs::Rows::size_labels_item))]
fn labels_go(ls: &[(Name, Ty)], up: bool, x: u32, body: &Body) -> bool
    ensures { result ≡ labels_go (way_of up) (body_context body.now) (seen body.now x) (plain_labels ls.now) }
{
    for l in ls {
        if !type_goes(&l.1, up, x, body) {
            return false;
        }
    }
    true
}

/// Whether the body goes with its parameter `x` as a mark says; without mark it may be as it is.
#[tactic(auto, using(crate::proofs::Bodies::way_rules))]
fn goes_as(mark: Mark, t: &Ty, x: u32, body: &Body) -> bool
    ensures { result ≡ goes_as mark (body_context body.now) (seen body.now x) (plain t.now) }
{
    match mark {
        Mark::Plus => type_goes(t, true, x, body),
        Mark::Minus => type_goes(t, false, x, body),
        Mark::Plain => true,
    }
}

/// Whether the body of an operator with as many parameters as marks varies as they say.
#[tactic(auto, using(crate::proofs::Bodies::body_rules))]
fn body_varies(c: &Context, params: u32, t: &Ty, marks: &[Mark]) -> bool
    requires count { params ≡ length marks.now }
    ensures { result ≡ body_varies (under_parameters params (type_context c.now)) marks.now (plain t.now) }
{
    let body = Body::Parameters(params, c);
    for k in 0..marks.len() {
        let x = (marks.len() - 1 - k) as u32;
        if !goes_as(marks[k], t, x, &body) {
            return false;
        }
    }
    true
}

/// Whether the operator varies as the marks say: its body rises with each parameter that is marked `+`, and falls with
/// each that is marked `-`. Takes no memory.
pub fn varies(c: &Context, arg: &Arg, marks: &[Mark]) -> bool
    requires count { arity (Definition (plain_arg arg.now)) ≡ Some (length marks.now) }
    ensures { result ≡ varies (type_context c.now) (plain_arg arg.now) marks.now }
{
    match arg {
        Arg::Plain(_) => false,
        Arg::Op { params, body } => body_varies(c, *params, body, marks),
    }
}
