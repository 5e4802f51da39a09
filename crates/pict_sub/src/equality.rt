// Equality of types in normal form, with a count of the pairs compared.

ghost use Rattle.std.specs.Prelude.{◌≡◌, ◌+◌, ◌≤◌, ◌<◌, ◌↔◌, IsTrue};
ghost use Rattle.pict_types.specs.Measures.{size, size_bound, size_bounds, size_labels, size_types};
ghost use Rattle.pict_types.specs.Plain.{plain, plain_bound, plain_bounds, plain_cap, plain_labels, plain_record, plain_types};

use pict_syntax::{Name, Steps};
use pict_types::{Bound, Cap, Record, Ty, equal_marks};
use std::marker::Brand;
use std::sync::ledger::{Blank, Ledger};

/// Whether two capabilities are the same.
pub fn same_cap(m: Cap, n: Cap) -> bool
    ensures { IsTrue result ↔ (plain_cap m ≡ plain_cap n) }
{
    m == n
}

/// Whether the types are the same, up to bound names and the order of labels, which normal forms don't have.
///
/// Each pair of nodes compared counts one, so at most the nodes of `s` are counted; a type field is a node.
#[cycle(equal)]
#[tactic(auto, using(pict_types::proofs::Rows::plain_apply, pict_types::proofs::Rows::plain_fields))]
pub fn equal_types<L: Ledger>(s: &Ty, t: &Ty, steps: &mut Steps<L>) -> bool
    ensures answer { IsTrue result ↔ (plain s.now ≡ plain t.now) }
    ensures cost { steps.new ≤ steps.old + size (plain s.now) }
{
    steps.tick();
    match (s, t) {
        (Ty::Top, Ty::Top) => true,
        (Ty::Int, Ty::Int) => true,
        (Ty::Char, Ty::Char) => true,
        (Ty::Str, Ty::Str) => true,
        (Ty::Bool, Ty::Bool) => true,
        (Ty::Var(i), Ty::Var(j)) => i == j,
        (Ty::Apply(i, ss), Ty::Apply(j, ts)) => i == j && equal_rows(ss, ts, steps),
        (Ty::Chan(m, a), Ty::Chan(n, b)) => same_cap(*m, *n) && equal_types(a, b, steps),
        (Ty::Fields(r), Ty::Fields(q)) => equal_records(r, q, steps),
        (Ty::Rec(a), Ty::Rec(b)) => equal_types(a, b, steps),
        _ => false,
    }
}

#[cycle(equal)]
fn equal_records<L: Ledger>(r: &Record, q: &Record, steps: &mut Steps<L>) -> bool
    ensures answer { IsTrue result ↔ (plain_record r.now ≡ plain_record q.now) }
    ensures cost { steps.new + 1 ≤ steps.old + size (plain_record r.now) }
{
    equal_bounds(&r.binders, &q.binders, steps)
        && equal_rows(&r.positional, &q.positional, steps)
        && equal_labels(&r.labelled, &q.labelled, steps)
}

/// Whether two type fields are the same. The pair counts one, and so does each pair of nodes of their bounds.
#[cycle(equal)]
fn equal_bound<L: Ledger>(b: &Bound, d: &Bound, steps: &mut Steps<L>) -> bool
    ensures answer { IsTrue result ↔ (plain_bound b.now ≡ plain_bound d.now) }
    ensures cost { steps.new ≤ steps.old + size_bound (plain_bound b.now) }
{
    steps.tick();
    match (b, d) {
        (Bound::Free, Bound::Free) => true,
        (Bound::Below(s), Bound::Below(t)) => equal_types(s, t, steps),
        (Bound::Operator(m), Bound::Operator(n)) => equal_marks(m, n),
        _ => false,
    }
}

#[cycle(equal)]
#[tactic(auto, using(pict_types::proofs::Alike::types_compared))]
fn equal_rows<L: Ledger>(ss: &[Ty], ts: &[Ty], steps: &mut Steps<L>) -> bool
    ensures answer { IsTrue result ↔ (plain_types ss.now ≡ plain_types ts.now) }
    ensures cost { steps.new ≤ steps.old + size_types (plain_types ss.now) }
{
    if ss.len() != ts.len() {
        return false;
    }
    for i in 0..ss.len() {
        if !equal_types(&ss[i], &ts[i], steps) {
            return false;
        }
    }
    true
}

#[cycle(equal)]
#[tactic(auto, using(pict_types::proofs::Alike::labels_compared))]
fn equal_labels<L: Ledger>(ls: &[(Name, Ty)], ms: &[(Name, Ty)], steps: &mut Steps<L>) -> bool
    ensures answer { IsTrue result ↔ (plain_labels ls.now ≡ plain_labels ms.now) }
    ensures cost { steps.new ≤ steps.old + size_labels (plain_labels ls.now) }
{
    if ls.len() != ms.len() {
        return false;
    }
    for i in 0..ls.len() {
        let l = &ls[i];
        let m = &ms[i];
        if l.0.0 != m.0.0 || !equal_types(&l.1, &m.1, steps) {
            return false;
        }
    }
    true
}

/// Whether the type fields are the same. Counts at most the nodes of `bs`, in which each type field is one.
#[cycle(equal)]
#[tactic(auto, using(pict_types::proofs::Alike::bounds_compared))]
pub fn equal_bounds<L: Ledger>(bs: &[Bound], cs: &[Bound], steps: &mut Steps<L>) -> bool
    ensures answer { IsTrue result ↔ (plain_bounds bs.now ≡ plain_bounds cs.now) }
    ensures cost { steps.new ≤ steps.old + size_bounds (plain_bounds bs.now) }
{
    if bs.len() != cs.len() {
        return false;
    }
    for i in 0..bs.len() {
        if !equal_bound(&bs[i], &cs[i], steps) {
            return false;
        }
    }
    true
}

fn equal_from<L: Ledger>(s: &Ty, t: &Ty, blank: Blank) -> bool
    requires name { blank.name ≡ L.name }
    requires parts { blank.parts ≡ L.parts }
    requires some { 0 < L.parts }
    ensures answer { IsTrue result ↔ (plain s.now ≡ plain t.now) }
{
    let mut steps: Steps<L> = Steps::new(blank);
    equal_types(s, t, &mut steps)
}

/// Whether the types are the same. Takes no memory.
pub fn equal(s: &Ty, t: &Ty) -> bool
    ensures answer { IsTrue result ↔ (plain s.now ≡ plain t.now) }
{
    equal_from::<Brand>(s, t, Blank::new(1))
}
