// Written types as types, with the names of definitions as variables.

ghost use Rattle.std.specs.Prelude.{◌≡◌, [], ◌∷◌, IfOk, IfErr, OnOk};
ghost use Rattle.pict_syntax.specs.PlainTrees.{type_of, binder_of, types_on, binders_on, labelled_types_on};
ghost use Rattle.pict_syntax.specs.declared.span.Span.{Span};
ghost use Rattle.pict_syntax.specs.Trees.{no_binders, no_labelled_types, no_types};
ghost use Rattle.pict_normal.specs.BinderEntries.{bound_entry, entries_under};
ghost use Rattle.pict_normal.specs.Normal.{binder_stops, binders_stops, bound_stops, kind_stops, normal, labels_stops, types_stops};
ghost use Rattle.pict_normal.specs.Around.{around, operator_stops, record_tree, scope_of};
ghost use Rattle.pict_types.specs.Plain.{plain, plain_bound, plain_bounds, plain_cap, plain_labels, plain_record, plain_types};
ghost use Rattle.pict_types.specs.PlainContext.{names_of};
ghost use Rattle.pict_types.specs.Places.{entry_names};
ghost use Rattle.pict_normal.specs.Raw.{raw, raw_binder, raw_binders, raw_labels, raw_types};
ghost use Rattle.pict_normal.specs.Refusals.{IsFirst};
ghost use Rattle.pict_types.specs.Types.{Chan, Operator, Rec};

use crate::binders::{Binders, copy_kind};
use crate::stops::{KindError, raw_head, raw_use};
use crate::tops::becomes_top;
use pict_syntax::{
    Code, Id, KindTree, LabelledType, Mark, Name, TypeBinder, TypeTree, sort_labels,
};
use pict_types::{Bound, Cap, Context, Record, Ty, apply_head, bound_by};
use std::alloc::Global;
use std::rc::Rc;

/// The type of a tree, where each name is the variable of its binder in `inner` or of its entry, which come after
/// these. It is refused at the first place in reading order where a rule of kinds fails.
#[cycle(raw)]
#[tactic(auto, unfolding(pict_syntax::specs::PlainTrees::type_of), using(crate::proofs::Trees::list_forms))]
pub fn raw_type(
    alloc: Global,
    t: &TypeTree,
    c: &Context,
    inner: &mut Binders,
) -> Result<Ty, KindError>
    ensures raw { IfOk result (λ u. plain u ≡ raw (names_of c.now) (entry_names (around inner.old c.now)) (type_of t.now)) }
    ensures kinds { IfOk result (λ _. kind_stops (names_of c.now) (around inner.old c.now) (type_of t.now) ≡ []) }
    ensures first { IfErr result (λ e. IsFirst (kind_stops (names_of c.now) (around inner.old c.now) (type_of t.now)) e) }
    ensures inner { OnOk result (scope_of inner.new ≡ scope_of inner.old) }
{
    match t {
        TypeTree::Top(_) => Ok(Ty::Top),
        TypeTree::Int(_) => Ok(Ty::Int),
        TypeTree::Char(_) => Ok(Ty::Char),
        TypeTree::String(_) => Ok(Ty::Str),
        TypeTree::Bool(_) => Ok(Ty::Bool),
        TypeTree::Use(span, name) => raw_use(*span, *name, c, &*inner),
        TypeTree::Both(_, t) => raw_channel(alloc, Cap::Both, t, c, inner),
        TypeTree::Read(_, t) => raw_channel(alloc, Cap::Read, t, c, inner),
        TypeTree::Write(_, t) => raw_channel(alloc, Cap::Write, t, c, inner),
        TypeTree::Respond(_, t) => raw_channel(alloc, Cap::Respond, t, c, inner),
        TypeTree::Fields(_, bs, ts, ls) => Ok(Ty::Fields(Rc::new(
            alloc,
            raw_record(alloc, bs, ts, ls, c, inner)?,
        )?)),
        TypeTree::Apply(span, id, ts) => {
            let head = raw_head(*span, id.name, ts.as_slice().len(), c, &*inner)?;
            Ok(apply_head(alloc, head, raw_types(alloc, ts, c, inner)?)?)
        }
        TypeTree::Rec(_, id, t) => raw_recursion(alloc, id.name, t, c, inner),
    }
}

#[cycle(raw)]
fn raw_channel(
    alloc: Global,
    cap: Cap,
    t: &TypeTree,
    c: &Context,
    inner: &mut Binders,
) -> Result<Ty, KindError>
    ensures raw { IfOk result (λ u. plain u ≡ Chan (plain_cap cap) (raw (names_of c.now) (entry_names (around inner.old c.now)) (type_of t.now))) }
    ensures kinds { IfOk result (λ _. kind_stops (names_of c.now) (around inner.old c.now) (type_of t.now) ≡ []) }
    ensures first { IfErr result (λ e. IsFirst (kind_stops (names_of c.now) (around inner.old c.now) (type_of t.now)) e) }
    ensures inner { OnOk result (scope_of inner.new ≡ scope_of inner.old) }
{
    Ok(Ty::Chan(cap, Rc::new(alloc, raw_type(alloc, t, c, inner)?)?))
}

/// A recursive type with this variable and this body.
#[cycle(raw)]
fn raw_recursion(
    alloc: Global,
    name: Name,
    t: &TypeTree,
    c: &Context,
    inner: &mut Binders,
) -> Result<Ty, KindError>
    ensures raw { IfOk result (λ u. plain u ≡ Rec (raw (names_of c.now) (name.0 ∷ entry_names (around inner.old c.now)) (type_of t.now))) }
    ensures kinds { IfOk result (λ _. kind_stops (names_of c.now) (bound_entry name.0 None ∷ (around inner.old c.now)) (type_of t.now) ≡ []) }
    ensures first { IfErr result (λ e. IsFirst (kind_stops (names_of c.now) (bound_entry name.0 None ∷ (around inner.old c.now)) (type_of t.now)) e) }
    ensures inner { OnOk result (scope_of inner.new ≡ scope_of inner.old) }
{
    inner.push(name, None)?;
    let body = raw_type(alloc, t, c, inner)?;
    inner.pop();
    Ok(Ty::Rec(Rc::new(alloc, body)?))
}

#[cycle(raw)]
#[tactic(auto, using(crate::proofs::Trees::types_read))]
fn raw_types(
    alloc: Global,
    ts: &[TypeTree],
    c: &Context,
    inner: &mut Binders,
) -> Result<Vec<Ty>, KindError>
    ensures raw { IfOk result (λ us. plain_types us.items ≡ raw_types (names_of c.now) (entry_names (around inner.old c.now)) (types_on no_types ts.now)) }
    ensures kinds { IfOk result (λ _. types_stops (names_of c.now) (around inner.old c.now) (types_on no_types ts.now) ≡ []) }
    ensures first { IfErr result (λ e. IsFirst (types_stops (names_of c.now) (around inner.old c.now) (types_on no_types ts.now)) e) }
    ensures inner { OnOk result (scope_of inner.new ≡ scope_of inner.old) }
{
    let mut types = Vec::new(alloc);
    for t in ts {
        types.push(raw_type(alloc, t, c, inner)?)?;
    }
    Ok(types)
}

#[cycle(raw)]
fn raw_labels(
    alloc: Global,
    ls: &[LabelledType],
    c: &Context,
    inner: &mut Binders,
) -> Result<Vec<(Name, Ty)>, KindError>
    ensures raw { IfOk result (λ us. plain_labels us.items
        ≡ raw_labels (names_of c.now) (entry_names (around inner.old c.now)) (labelled_types_on no_labelled_types ls.now)) }
    ensures kinds { IfOk result (λ _. labels_stops (names_of c.now) (around inner.old c.now) (labelled_types_on no_labelled_types ls.now) ≡ []) }
    ensures first { IfErr result (λ e. IsFirst (labels_stops (names_of c.now) (around inner.old c.now) (labelled_types_on no_labelled_types ls.now)) e) }
    ensures inner { OnOk result (scope_of inner.new ≡ scope_of inner.old) }
{
    let mut labelled = Vec::new(alloc);
    for l in ls {
        labelled.push((l.label.name, raw_type(alloc, &l.of, c, inner)?))?;
    }
    sort_labels(c.names(), &mut labelled)?;
    Ok(labelled)
}

/// The type fields of a record, which stay as binders in `inner`.
#[cycle(raw)]
fn raw_binders(
    alloc: Global,
    bs: &[TypeBinder],
    c: &Context,
    inner: &mut Binders,
) -> Result<Vec<Bound>, KindError>
    ensures raw { IfOk result (λ ds. plain_bounds ds.items
        ≡ raw_binders (names_of c.now) (entry_names (around inner.old c.now)) (binders_on no_binders bs.now)) }
    ensures kinds { IfOk result (λ _. binders_stops (names_of c.now) (around inner.old c.now) (binders_on no_binders bs.now) ≡ []) }
    ensures first { IfErr result (λ e. IsFirst (binders_stops (names_of c.now) (around inner.old c.now) (binders_on no_binders bs.now)) e) }
    ensures inner { OnOk result (scope_of inner.new ≡ entries_under (scope_of inner.old) (binders_on no_binders bs.now)) }
{
    let mut bounds = Vec::new(alloc);
    for b in bs {
        bounds.push(raw_binder(alloc, b, c, inner)?)?;
        inner.push(b.id.name, copy_kind(alloc, &b.kind)?)?;
    }
    Ok(bounds)
}

/// What is known of a type binder: an operator has no bound, and a bound `Top` is none.
#[cycle(raw)]
fn raw_binder(
    alloc: Global,
    b: &TypeBinder,
    c: &Context,
    inner: &mut Binders,
) -> Result<Bound, KindError>
    ensures raw { IfOk result (λ d. plain_bound d ≡ raw_binder (names_of c.now) (entry_names (around inner.old c.now)) (binder_of b.now)) }
    ensures kinds { IfOk result (λ _. binder_stops (names_of c.now) (around inner.old c.now) (binder_of b.now) ≡ []) }
    ensures first { IfErr result (λ e. IsFirst (binder_stops (names_of c.now) (around inner.old c.now) (binder_of b.now)) e) }
    ensures inner { OnOk result (scope_of inner.new ≡ scope_of inner.old) }
{
    match &b.bound {
        None => match &b.kind {
            None => Ok(Bound::Free),
            Some(KindTree::Plain) => Ok(Bound::Free),
            Some(KindTree::Operator(marks)) => Ok(Bound::Operator(Vec::from_slice(alloc, marks)?)),
        },
        Some(t) => match &b.kind {
            None => Ok(bound_by(raw_type(alloc, t, c, inner)?)),
            Some(KindTree::Plain) => Ok(bound_by(raw_type(alloc, t, c, inner)?)),
            Some(KindTree::Operator(marks)) => operator_bound(alloc, marks, b.id, t, c, inner),
        },
    }
}

/// What is known of an operator with these marks and a bound, which is refused at its name unless it becomes `Top`.
#[cycle(raw)]
fn operator_bound(
    alloc: Global,
    marks: &[Mark],
    at: Id,
    t: &TypeTree,
    c: &Context,
    inner: &mut Binders,
) -> Result<Bound, KindError>
    ensures raw { IfOk result (λ d. plain_bound d ≡ Operator marks.now) }
    ensures kinds { IfOk result (λ _. operator_stops at marks.now inner.old c.now (type_of t.now) ≡ []) }
    ensures first { IfErr result (λ e. IsFirst (operator_stops at marks.now inner.old c.now (type_of t.now)) e) }
    ensures inner { OnOk result (scope_of inner.new ≡ scope_of inner.old) }
{
    match raw_type(alloc, t, c, inner) {
        Ok(t) => {
            if becomes_top(&t, c, &*inner) {
                return Ok(Bound::Operator(Vec::from_slice(alloc, marks)?));
            }
            Err(KindError::Named(Code::K3, at.span))
        }
        Err(KindError::Memory) => Err(KindError::Memory),
        Err(KindError::Named(_, _)) => Err(KindError::Named(Code::K3, at.span)),
    }
}

/// A record type, with the binders in `inner` as they were.
#[cycle(raw)]
fn raw_record(
    alloc: Global,
    bs: &[TypeBinder],
    ts: &[TypeTree],
    ls: &[LabelledType],
    c: &Context,
    inner: &mut Binders,
) -> Result<Record, KindError>
    ensures raw { (s : Span) → IfOk result (λ r. plain_record r
        ≡ raw (names_of c.now) (entry_names (around inner.old c.now)) (record_tree s bs.now ts.now ls.now)) }
    ensures kinds { (s : Span) → IfOk result (λ _. kind_stops (names_of c.now) (around inner.old c.now) (record_tree s bs.now ts.now ls.now) ≡ []) }
    ensures first { (s : Span) → IfErr result (λ e. IsFirst (kind_stops (names_of c.now) (around inner.old c.now) (record_tree s bs.now ts.now ls.now)) e) }
    ensures inner { OnOk result (scope_of inner.new ≡ scope_of inner.old) }
{
    let binders = raw_binders(alloc, bs, c, inner)?;
    let positional = raw_types(alloc, ts, c, inner)?;
    let labelled = raw_labels(alloc, ls, c, inner)?;
    inner.pop_all(bs.len());
    Ok(Record {
        binders,
        positional,
        labelled,
    })
}
