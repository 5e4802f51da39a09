// The own type variables of a record pattern or of a function.

ghost use Rattle.std.specs.Prelude.{◌≡◌, ◌≤◌, ◌++◌, ◌↔◌, IsTrue, None, Some, length, IfErr, IfOk, OnErr, OnOk};
ghost use Rattle.std.specs.Option.{option_map};
ghost use Rattle.pict_syntax.specs.PlainTrees.{binder_of, binders_on, kind_of, type_of};
ghost use Rattle.pict_syntax.specs.Trees.{no_binders, operator_kind};
ghost use Rattle.pict_types.specs.Plain.{plain, plain_bound, plain_bounds};
ghost use Rattle.pict_types.specs.PlainContext.{names_of, plain_context, type_context};
ghost use Rattle.pict_scope.specs.DistinctLabels.{BinderHasDistinctLabels, HasDistinctLabels};
ghost use Rattle.pict_normal.specs.Normal.{kind_bound};
ghost use Rattle.pict_normal.specs.Written.{normal_in};
ghost use Rattle.pict_rules.specs.Clauses.{stop_of_binder};
ghost use Rattle.pict_rules.specs.Environments.{entries_of};
ghost use Rattle.pict_rules.specs.Rules.{binders_, binders_against, binders_give};
ghost use Rattle.pict_rules.specs.Shapes.{kind_agrees, same_marks, written_bound};
ghost use Rattle.pict_rules.specs.Typing.{rule};
ghost use Rattle.pict_infer.specs.Answering.{IsAnswer, IsStopped, nothing};
ghost use Rattle.pict_infer.specs.Asking.{IsWellAsked};
ghost use Rattle.pict_infer.specs.Knowing.{known_types};
ghost use Rattle.pict_infer.specs.Opening.{Opens, SaysTheSame, binder_agrees, bound_or_free, bound_stop, expanded_bound, held_type};
ghost use Rattle.pict_infer.specs.Places.{IsUnderVariables, environment_in};

use crate::error::{InferError, Told};
use crate::formed::expanded;
use crate::known::Binder;
use pict_normal::{KindError, expand};
use pict_sub::{equal, equal_marks};
use pict_syntax::{Code, Id, KindTree, Mark, TypeBinder, TypeTree};
use pict_types::{Bound, Context, Entry, Ty, What, bound_by};
use std::alloc::{AllocError, Global};

/// The bound of an operator with these marks: K3 at its name, where the bound doesn't expand to `Top`.
fn operator_bound(
    alloc: Global,
    c: &Context,
    t: &TypeTree,
    id: Id,
    marks: &[Mark],
) -> Result<Ty, InferError>
    requires labels { HasDistinctLabels (type_of t.now) }
    ensures clear { IfOk result (λ _. bound_stop (environment_in c.now) id (Some (operator_kind marks.now)) (type_of t.now) ≡ None) }
    ensures bound { IfOk result (λ u. plain u ≡ normal_in c.now (type_of t.now)) }
    ensures refused { IfErr result (λ e. IsStopped (bound_stop (environment_in c.now) id (Some (operator_kind marks.now)) (type_of t.now)) e) }
{
    match expand(alloc, c, t) {
        Ok(u) => {
            if u.is_top() {
                return Ok(u);
            }
            Err(InferError::Named(Code::K3, id.span, Told::Nothing))
        }
        Err(KindError::Named(_, _)) => Err(InferError::Named(Code::K3, id.span, Told::Nothing)),
        Err(KindError::Memory) => Err(InferError::Memory),
    }
}

/// The bound of a type binder, expanded, where one is written. The refusals are K1 to K4.
fn written_bound(alloc: Global, c: &Context, b: &TypeBinder) -> Result<Option<Ty>, InferError>
    requires labels { BinderHasDistinctLabels (binder_of b.now) }
    ensures clear { IfOk result (λ _. stop_of_binder (environment_in c.now) (binder_of b.now) ≡ None) }
    ensures bound { IfOk result (λ o. held_type o ≡ expanded_bound (environment_in c.now) (written_bound (binder_of b.now))) }
    ensures refused { IfErr result (λ e. IsStopped (stop_of_binder (environment_in c.now) (binder_of b.now)) e) }
{
    let Some(t) = &b.bound else {
        return Ok(None);
    };
    match &b.kind {
        Some(KindTree::Operator(marks)) => Ok(Some(operator_bound(alloc, c, t, b.id, marks)?)),
        Some(KindTree::Plain) => Ok(Some(expanded(alloc, c, t)?)),
        None => Ok(Some(expanded(alloc, c, t)?)),
    }
}

/// The bound that is written, if any: `Top` is none.
fn bound_or_free(written: Option<Ty>) -> Bound
    ensures { plain_bound result ≡ bound_or_free (held_type written) }
{
    match written {
        None => Bound::Free,
        Some(t) => bound_by(t),
    }
}

/// What is known of a type binder with this kind and this bound: an operator has no bound.
fn own_bound(
    alloc: Global,
    kind: &Option<KindTree>,
    written: Option<Ty>,
) -> Result<Bound, AllocError>
    ensures { IfOk result (λ d. plain_bound d ≡ kind_bound (option_map kind_of kind.now) (bound_or_free (held_type written))) }
{
    match kind {
        Some(KindTree::Operator(marks)) => Ok(Bound::Operator(Vec::from_slice(alloc, marks)?)),
        Some(KindTree::Plain) => Ok(bound_or_free(written)),
        None => Ok(bound_or_free(written)),
    }
}

/// Whether the marks that are written are those of the field.
fn same_marks(written: &[Mark], marks: &[Mark]) -> bool
    ensures { result ≡ same_marks written.now marks.now }
{
    equal_marks(written, marks)
}

/// Whether a written kind is that of the field.
fn kind_agrees(kind: &Option<KindTree>, field: &Bound) -> bool
    ensures { result ≡ kind_agrees (option_map kind_of kind.now) (plain_bound field.now) }
{
    match kind {
        None => true,
        Some(KindTree::Plain) => match field {
            Bound::Operator(_) => false,
            Bound::Free => true,
            Bound::Below(_) => true,
        },
        Some(KindTree::Operator(written)) => match field {
            Bound::Operator(marks) => same_marks(written, marks),
            Bound::Free => false,
            Bound::Below(_) => false,
        },
    }
}

/// Whether a written bound is that of the field. One that expands to `Top` is none.
fn bound_agrees(written: &Option<Ty>, field: &Bound) -> bool
    ensures { IsTrue result ↔ SaysTheSame (held_type written.now) (plain_bound field.now) }
{
    let Some(t) = written else {
        return true;
    };
    if t.is_top() {
        return true;
    }
    match field {
        Bound::Below(u) => equal(t, u),
        Bound::Free => false,
        Bound::Operator(_) => false,
    }
}

/// A type binder against the type field of a record. The refusals are K1 to K4, and Y16 at the type binder.
fn binder_against(
    alloc: Global,
    c: &Context,
    b: &TypeBinder,
    field: &Bound,
) -> Result<(), InferError>
    requires labels { BinderHasDistinctLabels (binder_of b.now) }
    ensures { IsAnswer (binder_agrees (environment_in c.now) (binder_of b.now) (plain_bound field.now)) nothing result }
{
    let written = written_bound(alloc, c, b)?;
    if kind_agrees(&b.kind, field) && bound_agrees(&written, field) {
        return Ok(());
    }
    Err(InferError::Named(Code::Y16, b.span, Told::Nothing))
}

/// Opens type binders that say themselves what they are, and gives their bounds. The refusals are K1 to K4.
pub fn open_giving(
    alloc: Global,
    c: &mut Context,
    bs: &[TypeBinder],
) -> Result<Vec<Bound>, InferError>
    requires right { IsWellAsked binders_ (environment_in c.old) (binders_give (binders_on no_binders bs.now)) }
    ensures answer { Opens (environment_in c.old) (environment_in c.new)
        (rule (environment_in c.old) (binders_give (binders_on no_binders bs.now))) (λ bounds. plain_bounds bounds.items) result }
    ensures grows { length (type_context c.old) ≤ length (type_context c.new) }
{
    let mut bounds = Vec::new(alloc);
    for b in bs {
        let written = written_bound(alloc, &*c, b)?;
        let bound = own_bound(alloc, &b.kind, written)?;
        bounds.push(bound.copy(alloc)?)?;
        c.push(Entry {
            name: b.id.name,
            what: What::Variable(bound),
        })?;
    }
    Ok(bounds)
}

/// Opens type binders against as many type fields of a record. The refusals are K1 to K4, and Y16 at a type binder.
pub fn open_against(
    alloc: Global,
    c: &mut Context,
    bs: &[TypeBinder],
    fields: &[Bound],
) -> Result<(), InferError>
    requires count { length bs.now ≡ length fields.now }
    requires right { IsWellAsked binders_ (environment_in c.old) (binders_against (binders_on no_binders bs.now) (plain_bounds fields.now)) }
    ensures answer { Opens (environment_in c.old) (environment_in c.new)
        (rule (environment_in c.old) (binders_against (binders_on no_binders bs.now) (plain_bounds fields.now))) (λ _. plain_bounds fields.now) result }
    ensures grows { length (type_context c.old) ≤ length (type_context c.new) }
{
    for i in 0..bs.len() {
        let b = &bs[i];
        let field = &fields[i];
        binder_against(alloc, &*c, b, field)?;
        c.push(Entry {
            name: b.id.name,
            what: What::Variable(field.copy(alloc)?),
        })?;
    }
    Ok(())
}

/// Takes the type variables back that are open past the first entries, and gives them, the outermost first. The only
/// error is want of memory, and it leaves the context as it was.
pub fn taken(alloc: Global, c: &mut Context, left: usize) -> Result<Vec<Binder>, AllocError>
    requires variables { IsUnderVariables left (plain_context c.old) }
    ensures taken { IfOk result (λ own. plain_context c.old ≡ entries_of (known_types own.items) ++ plain_context c.new) }
    ensures left { OnOk result (length (plain_context c.new) ≡ left) }
    ensures err { OnErr result (plain_context c.new ≡ plain_context c.old) }
    ensures names { names_of c.new ≡ names_of c.old }
{
    let mut own = Vec::new(alloc);
    own.reserve(c.len() - left)?;
    while c.len() > left {
        let Some(entry) = c.take() else {
            unreachable!();
        };
        let name = entry.name;
        match entry.what {
            What::Variable(bound) => own.push_reserved(Binder { name, bound }),
            What::Definition(_) => unreachable!(),
        }
    }
    own.reverse();
    Ok(own)
}
