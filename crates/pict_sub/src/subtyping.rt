// Subtyping, decided by the form of the two types.

ghost use Rattle.std.specs.Prelude.{◌≡◌, ◌≢◌, length, ◌+◌, ◌≤◌, ◌<◌, ◌↔◌, IsTrue, IfOk};
ghost use Rattle.pict_types.specs.Measures.{weight_of};
ghost use Rattle.pict_types.specs.Plain.{plain, plain_cap, plain_labels, plain_record, plain_types};
ghost use Rattle.pict_types.specs.PlainContext.{IsWrittenIn, type_context};
ghost use Rattle.pict_types.specs.Types.{Apply, Chan, Operator, Top, Var, count_types};
ghost use Rattle.pict_types.specs.Renaming.{bound_of};
ghost use Rattle.pict_sub.specs.Scopes.{AreWrittenAt, IsWrittenAt, LabelsAreWrittenAt, ScopeIsWellFormed, scope_context, weights_of, weights_of_labels, weights_of_types};
ghost use Rattle.pict_sub.specs.Subtyping.{AreByMarks, AreSubtypes, ComparesBy, CarriesDown, HasLabels, IsSubtype, CarriesUp};

use crate::equality::{equal_bounds, equal_types, same_cap};
use crate::scope::{TypeScope, bound_in, marks_in};
use crate::shape::{as_applied, as_channel, as_record, as_variable};
use pict_syntax::{Mark, Name, Steps};
use pict_types::{Cap, Context, Record, Ty, shift_type};
use std::alloc::{AllocError, Global};
use std::marker::Brand;
use std::sync::ledger::{Blank, Ledger};

/// Whether channel types with these capabilities go up with their messages.
#[tactic(auto, using(crate::proofs::Inversion::carries_up_rows))]
fn carries_up(m: Cap, n: Cap) -> bool
    ensures { IsTrue result ↔ CarriesUp (plain_cap m) (plain_cap n) }
{
    matches!((m, n), (Cap::Both | Cap::Read, Cap::Read))
}

/// Whether channel types with these capabilities go down with their messages.
#[tactic(auto, using(crate::proofs::Inversion::carries_down_rows))]
fn carries_down(m: Cap, n: Cap) -> bool
    ensures { IsTrue result ↔ CarriesDown (plain_cap m) (plain_cap n) }
{
    match (m, n) {
        (Cap::Both, Cap::Write) => true,
        (Cap::Write, Cap::Write) => true,
        (Cap::Respond, Cap::Write) => true,
        (Cap::Respond, Cap::Respond) => true,
        _ => false,
    }
}

/// Whether `s` is a subtype of `t` in the scope. The only error is want of memory.
///
/// Counts at most the weights of both: a pair of nodes compared counts one, in an equality too, and a type field is a
/// node; a label passed over counts one; a pair at which a bound is followed counts once, for the bound.
#[cycle(below)]
#[tactic(auto, using(pict_types::proofs::Sizes::weight_rules, crate::proofs::Inversion::other_rules))]
fn is_below<L: Ledger>(
    alloc: Global,
    s: &Ty,
    t: &Ty,
    scope: &TypeScope,
    steps: &mut Steps<L>,
) -> Result<bool, AllocError>
    requires context { ScopeIsWellFormed scope.now }
    requires s { IsWrittenAt scope.now (plain s.now) }
    requires t { IsWrittenAt scope.now (plain t.now) }
    ensures answer { IfOk result (λ yes. IsTrue yes ↔ IsSubtype (scope_context scope.now) (plain s.now) (plain t.now)) }
    ensures cost { steps.new ≤ steps.old + weights_of scope.now (plain s.now) (plain t.now) }
{
    if t.is_top() {
        steps.tick();
        return Ok(true);
    }
    if let Some(i) = as_variable(s) {
        return variable_is_below(alloc, i, t, scope, steps);
    }
    if let Some((m, a)) = as_channel(s) {
        return channel_is_below(alloc, m, a, t, scope, steps);
    }
    if let Some(r) = as_record(s) {
        return record_is_below(alloc, r, t, scope, steps);
    }
    if let Some((i, ss)) = as_applied(s) {
        return applied_is_below(alloc, i, ss, t, scope, steps);
    }
    Ok(equal_types(s, t, steps))
}

/// The same where `s` is variable `i`, and `t` isn't `Top`.
#[cycle(below)]
#[tactic(auto, using(pict_types::proofs::Sizes::weight_positive))]
fn variable_is_below<L: Ledger>(
    alloc: Global,
    i: u32,
    t: &Ty,
    scope: &TypeScope,
    steps: &mut Steps<L>,
) -> Result<bool, AllocError>
    requires context { ScopeIsWellFormed scope.now }
    requires i { IsWrittenAt scope.now (Var i) }
    requires t { IsWrittenAt scope.now (plain t.now) }
    requires not_top { plain t.now ≢ Top }
    ensures answer { IfOk result (λ yes. IsTrue yes ↔ IsSubtype (scope_context scope.now) (Var i) (plain t.now)) }
    ensures cost { steps.new ≤ steps.old + weights_of scope.now (Var i) (plain t.now) }
{
    if let Some(j) = as_variable(t)
        && i == j
    {
        steps.tick();
        return Ok(true);
    }
    bound_is_below(alloc, i, t, scope, steps)
}

/// The same where `t` is another type too.
#[cycle(below)]
#[tactic(auto, using(pict_types::proofs::Sizes::weight_positive, pict_types::proofs::Contexts::followed_rules, crate::proofs::Inversion::variable_rules))]
fn bound_is_below<L: Ledger>(
    alloc: Global,
    i: u32,
    t: &Ty,
    scope: &TypeScope,
    steps: &mut Steps<L>,
) -> Result<bool, AllocError>
    requires context { ScopeIsWellFormed scope.now }
    requires i { IsWrittenAt scope.now (Var i) }
    requires t { IsWrittenAt scope.now (plain t.now) }
    requires not_top { plain t.now ≢ Top }
    requires not_same { plain t.now ≢ Var i }
    ensures answer { IfOk result (λ yes. IsTrue yes ↔ IsSubtype (scope_context scope.now) (Var i) (plain t.now)) }
    ensures cost { steps.new ≤ steps.old + weights_of scope.now (Var i) (plain t.now) }
{
    steps.tick();
    match bound_in(i, scope) {
        None => Ok(false),
        Some(b) => {
            let further = i.checked_add(1).ok_or(AllocError)?;
            let b = shift_type(alloc, b, further, 0)?;
            is_below(alloc, &b, t, scope, steps)
        }
    }
}

/// The same where `s` is a channel type, and `t` isn't `Top`.
#[cycle(below)]
#[tactic(auto, using(pict_types::proofs::Sizes::weight_rules, crate::proofs::Inversion::channel_rules))]
fn channel_is_below<L: Ledger>(
    alloc: Global,
    m: Cap,
    a: &Ty,
    t: &Ty,
    scope: &TypeScope,
    steps: &mut Steps<L>,
) -> Result<bool, AllocError>
    requires context { ScopeIsWellFormed scope.now }
    requires s { IsWrittenAt scope.now (Chan (plain_cap m) (plain a.now)) }
    requires t { IsWrittenAt scope.now (plain t.now) }
    requires not_top { plain t.now ≢ Top }
    ensures answer { IfOk result (λ yes. IsTrue yes ↔ IsSubtype (scope_context scope.now) (Chan (plain_cap m) (plain a.now)) (plain t.now)) }
    ensures cost { steps.new ≤ steps.old + weights_of scope.now (Chan (plain_cap m) (plain a.now)) (plain t.now) }
{
    steps.tick();
    match as_channel(t) {
        None => Ok(false),
        Some((n, b)) => {
            if carries_up(m, n) {
                is_below(alloc, a, b, scope, steps)
            } else if carries_down(m, n) {
                is_below(alloc, b, a, scope, steps)
            } else {
                Ok(same_cap(m, n) && equal_types(a, b, steps))
            }
        }
    }
}

/// The same where `s` is a record type, and `t` isn't `Top`.
#[cycle(below)]
#[tactic(auto, using(pict_types::proofs::Sizes::weight_positive, crate::proofs::Inversion::not_record))]
fn record_is_below<L: Ledger>(
    alloc: Global,
    r: &Record,
    t: &Ty,
    scope: &TypeScope,
    steps: &mut Steps<L>,
) -> Result<bool, AllocError>
    requires context { ScopeIsWellFormed scope.now }
    requires s { IsWrittenAt scope.now (plain_record r.now) }
    requires t { IsWrittenAt scope.now (plain t.now) }
    requires not_top { plain t.now ≢ Top }
    ensures answer { IfOk result (λ yes. IsTrue yes ↔ IsSubtype (scope_context scope.now) (plain_record r.now) (plain t.now)) }
    ensures cost { steps.new ≤ steps.old + weights_of scope.now (plain_record r.now) (plain t.now) }
{
    steps.tick();
    match as_record(t) {
        None => Ok(false),
        Some(q) => fields_are_below(alloc, r, q, scope, steps),
    }
}

/// Whether the record type of `r` is a subtype of that of `q`: the same type fields, then the fields under them.
#[cycle(below)]
fn fields_are_below<L: Ledger>(
    alloc: Global,
    r: &Record,
    q: &Record,
    scope: &TypeScope,
    steps: &mut Steps<L>,
) -> Result<bool, AllocError>
    requires context { ScopeIsWellFormed scope.now }
    requires r { IsWrittenAt scope.now (plain_record r.now) }
    requires q { IsWrittenAt scope.now (plain_record q.now) }
    ensures answer { IfOk result (λ yes. IsTrue yes ↔ IsSubtype (scope_context scope.now) (plain_record r.now) (plain_record q.now)) }
    ensures cost { steps.new + 1 ≤ steps.old + weights_of scope.now (plain_record r.now) (plain_record q.now) }
{
    if !equal_bounds(&r.binders, &q.binders, steps) {
        return Ok(false);
    }
    let inner = TypeScope::Inner(&r.binders, &*scope);
    if !rows_are_below(alloc, &r.positional, &q.positional, &inner, steps)? {
        return Ok(false);
    }
    labels_are_below(alloc, &r.labelled, &q.labelled, &inner, steps)
}

/// The same where `s` is an applied operator variable, and `t` isn't `Top`.
#[cycle(below)]
#[tactic(auto, using(pict_types::proofs::Sizes::weight_positive, crate::proofs::Inversion::not_applied))]
fn applied_is_below<L: Ledger>(
    alloc: Global,
    i: u32,
    ss: &[Ty],
    t: &Ty,
    scope: &TypeScope,
    steps: &mut Steps<L>,
) -> Result<bool, AllocError>
    requires context { ScopeIsWellFormed scope.now }
    requires s { IsWrittenAt scope.now (Apply i (plain_types ss.now)) }
    requires t { IsWrittenAt scope.now (plain t.now) }
    requires not_top { plain t.now ≢ Top }
    ensures answer { IfOk result (λ yes. IsTrue yes ↔ IsSubtype (scope_context scope.now) (Apply i (plain_types ss.now)) (plain t.now)) }
    ensures cost { steps.new ≤ steps.old + weights_of scope.now (Apply i (plain_types ss.now)) (plain t.now) }
{
    steps.tick();
    match as_applied(t) {
        None => Ok(false),
        Some((j, ts)) => {
            if i != j {
                return Ok(false);
            }
            match marks_in(i, scope) {
                None => unreachable!(),
                Some(marks) => arguments_are_below(alloc, marks, ss, ts, scope, steps),
            }
        }
    }
}

/// Whether an argument compares with another as it is marked.
#[cycle(below)]
#[tactic(auto, using(pict_types::proofs::Sizes::weight_rules))]
fn argument_is_below<L: Ledger>(
    alloc: Global,
    mark: Mark,
    s: &Ty,
    t: &Ty,
    scope: &TypeScope,
    steps: &mut Steps<L>,
) -> Result<bool, AllocError>
    requires context { ScopeIsWellFormed scope.now }
    requires s { IsWrittenAt scope.now (plain s.now) }
    requires t { IsWrittenAt scope.now (plain t.now) }
    ensures answer { IfOk result (λ yes. IsTrue yes ↔ ComparesBy (scope_context scope.now) mark (plain s.now) (plain t.now)) }
    ensures cost { steps.new ≤ steps.old + weights_of scope.now (plain s.now) (plain t.now) }
{
    match mark {
        Mark::Plus => is_below(alloc, s, t, scope, steps),
        Mark::Minus => is_below(alloc, t, s, scope, steps),
        Mark::Plain => Ok(equal_types(s, t, steps)),
    }
}

/// Whether the arguments compare one by one as they are marked; there are as many as marks.
#[cycle(below)]
#[tactic(auto, using(pict_types::proofs::Items::types_read, crate::proofs::Marked::marks_rules))]
fn arguments_are_below<L: Ledger>(
    alloc: Global,
    marks: &[Mark],
    ss: &[Ty],
    ts: &[Ty],
    scope: &TypeScope,
    steps: &mut Steps<L>,
) -> Result<bool, AllocError>
    requires context { ScopeIsWellFormed scope.now }
    requires ss { AreWrittenAt scope.now (plain_types ss.now) }
    requires ts { AreWrittenAt scope.now (plain_types ts.now) }
    requires first { length ss.now ≡ length marks.now }
    requires second { length ts.now ≡ length marks.now }
    ensures answer { IfOk result (λ yes. IsTrue yes ↔ AreByMarks (scope_context scope.now) marks.now (plain_types ss.now) (plain_types ts.now)) }
    ensures cost { steps.new ≤ steps.old + weights_of_types scope.now (plain_types ss.now) (plain_types ts.now) }
{
    for i in 0..marks.len() {
        if !argument_is_below(alloc, marks[i], &ss[i], &ts[i], scope, steps)? {
            return Ok(false);
        }
    }
    Ok(true)
}

/// Whether there are as many types, each a subtype in order.
#[cycle(below)]
#[tactic(auto, using(pict_types::proofs::Items::types_read, crate::proofs::Below::rows_rules))]
fn rows_are_below<L: Ledger>(
    alloc: Global,
    ss: &[Ty],
    ts: &[Ty],
    scope: &TypeScope,
    steps: &mut Steps<L>,
) -> Result<bool, AllocError>
    requires context { ScopeIsWellFormed scope.now }
    requires ss { AreWrittenAt scope.now (plain_types ss.now) }
    requires ts { AreWrittenAt scope.now (plain_types ts.now) }
    ensures answer { IfOk result (λ yes. IsTrue yes ↔ AreSubtypes (scope_context scope.now) (plain_types ss.now) (plain_types ts.now)) }
    ensures cost { steps.new ≤ steps.old + weights_of_types scope.now (plain_types ss.now) (plain_types ts.now) }
{
    if ss.len() != ts.len() {
        return Ok(false);
    }
    for i in 0..ss.len() {
        if !is_below(alloc, &ss[i], &ts[i], scope, steps)? {
            return Ok(false);
        }
    }
    Ok(true)
}

/// Whether every label of `ms` is in `ls` with a subtype. Both are in order, so a label of `ls` that isn't the next
/// one of `ms` is passed over.
#[cycle(below)]
#[tactic(auto, using(pict_types::proofs::Items::labels_read, pict_types::proofs::Sizes::weight_positive))]
fn labels_are_below<L: Ledger>(
    alloc: Global,
    ls: &[(Name, Ty)],
    ms: &[(Name, Ty)],
    scope: &TypeScope,
    steps: &mut Steps<L>,
) -> Result<bool, AllocError>
    requires context { ScopeIsWellFormed scope.now }
    requires ls { LabelsAreWrittenAt scope.now (plain_labels ls.now) }
    requires ms { LabelsAreWrittenAt scope.now (plain_labels ms.now) }
    ensures answer { IfOk result (λ yes. IsTrue yes ↔ HasLabels (scope_context scope.now) (plain_labels ls.now) (plain_labels ms.now)) }
    ensures cost { steps.new ≤ steps.old + weights_of_labels scope.now (plain_labels ls.now) (plain_labels ms.now) }
{
    let mut j = 0;
    for l in ls {
        if j == ms.len() {
            return Ok(true);
        }
        let m = &ms[j];
        if l.0.0 != m.0.0 {
            steps.tick();
            continue;
        }
        if !is_below(alloc, &l.1, &m.1, scope, steps)? {
            return Ok(false);
        }
        j += 1;
    }
    Ok(j == ms.len())
}

/// Whether `s` is a subtype of `t`, both written in `c`. The only error is want of memory, and a variable past the
/// greatest `u32` is one.
///
/// Counts at most the weights of `s` and `t` together: a pair of nodes compared counts one, in an equality too, and a
/// type field is a node; a label passed over counts one; a pair at which a bound is followed counts once, for the bound.
pub fn subtype<L: Ledger>(
    alloc: Global,
    c: &Context,
    s: &Ty,
    t: &Ty,
    steps: &mut Steps<L>,
) -> Result<bool, AllocError>
    requires s { IsWrittenIn c.now (plain s.now) }
    requires t { IsWrittenIn c.now (plain t.now) }
    ensures answer { IfOk result (λ yes. IsTrue yes ↔ IsSubtype (type_context c.now) (plain s.now) (plain t.now)) }
    ensures cost { steps.new ≤ steps.old + (weight_of (type_context c.now) (plain s.now) + weight_of (type_context c.now) (plain t.now)) }
{
    let scope = TypeScope::Outer(c);
    is_below(alloc, s, t, &scope, steps)
}

fn subtype_from<L: Ledger>(
    alloc: Global,
    c: &Context,
    s: &Ty,
    t: &Ty,
    blank: Blank,
) -> Result<bool, AllocError>
    requires name { blank.name ≡ L.name }
    requires parts { blank.parts ≡ L.parts }
    requires some { 0 < L.parts }
    requires s { IsWrittenIn c.now (plain s.now) }
    requires t { IsWrittenIn c.now (plain t.now) }
    ensures answer { IfOk result (λ yes. IsTrue yes ↔ IsSubtype (type_context c.now) (plain s.now) (plain t.now)) }
{
    let mut steps: Steps<L> = Steps::new(blank);
    subtype(alloc, c, s, t, &mut steps)
}

/// `subtype` for callers that promise no count: it makes a fresh counter.
pub fn is_subtype(alloc: Global, c: &Context, s: &Ty, t: &Ty) -> Result<bool, AllocError>
    requires s { IsWrittenIn c.now (plain s.now) }
    requires t { IsWrittenIn c.now (plain t.now) }
    ensures answer { IfOk result (λ yes. IsTrue yes ↔ IsSubtype (type_context c.now) (plain s.now) (plain t.now)) }
{
    subtype_from::<Brand>(alloc, c, s, t, Blank::new(1))
}
