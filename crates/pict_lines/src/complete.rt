// Whether a pattern is complete, so that it gives its type by itself.

ghost use Rattle.std.specs.Prelude.{◌≡◌, ◌&&◌, IfOk, OnOk};
ghost use Rattle.std.specs.Option.{option_map};
ghost use Rattle.pict_syntax.specs.PlainTrees.{binder_of, binders_on, field_pats_of, kind_of, labelled_pats_on, pat_of, pats_on, type_of};
ghost use Rattle.pict_syntax.specs.Trees.{bound, no_binders, no_labelled_pats, no_pats};
ghost use Rattle.pict_types.specs.Plain.{plain_bound};
ghost use Rattle.pict_types.specs.Types.{Free};
ghost use Rattle.pict_normal.specs.BinderEntries.{entries_under};
ghost use Rattle.pict_normal.specs.Normal.{kind_bound};
ghost use Rattle.pict_scope.specs.DistinctLabels.{BinderHasDistinctLabels, BindersHaveDistinctLabels, FieldPatsHaveDistinctLabels, HasDistinctLabels, LabelledPatsAreDistinct, PatHasDistinctLabels, PatsHaveDistinctLabels};
ghost use Rattle.pict_rules.specs.Complete.{are_bounded, are_complete, are_fields_complete, are_labels_complete, has_kind_or_bound, is_bounded, is_complete};
ghost use Rattle.pict_infer.specs.Environments.{known_entries, known_names, GrewFrom, IsAsBefore};

use pict_infer::Env;
use pict_normal::{KindError, expand};
use pict_syntax::{FieldPats, KindTree, LabelledPat, Pat, TypeBinder, TypeTree};
use pict_types::Bound;
use std::alloc::{AllocError, Global};

/// Whether both are so. Takes no memory.
fn both(a: bool, b: bool) -> bool
    ensures { result ≡ (a && b) }
{
    a && b
}

/// Whether a bound that is written is one: `Top` is none, and one with a refusal is.
fn is_bounded(alloc: Global, env: &Env, t: &TypeTree) -> Result<bool, AllocError>
    requires labels { HasDistinctLabels (type_of t.now) }
    ensures { IfOk result (λ b. b ≡ is_bounded (known_names env.now) (known_entries env.now) (bound (type_of t.now))) }
{
    match expand(alloc, env.context(), t) {
        Ok(u) => Ok(!u.is_top()),
        Err(KindError::Named(_, _)) => Ok(true),
        Err(KindError::Memory) => Err(AllocError),
    }
}

/// Whether a type binder has a kind or a bound.
fn has_kind_or_bound(alloc: Global, env: &Env, b: &TypeBinder) -> Result<bool, AllocError>
    requires labels { BinderHasDistinctLabels (binder_of b.now) }
    ensures { IfOk result (λ x. x ≡ has_kind_or_bound (known_names env.now) (known_entries env.now) (binder_of b.now)) }
{
    if b.kind.is_some() {
        return Ok(true);
    }
    match &b.bound {
        None => Ok(false),
        Some(t) => is_bounded(alloc, env, t),
    }
}

/// What a type binder is known by, but for its bound.
fn bound_by_kind(alloc: Global, kind: &Option<KindTree>) -> Result<Bound, AllocError>
    ensures { IfOk result (λ d. plain_bound d ≡ kind_bound (option_map kind_of kind.now) Free) }
{
    match kind {
        Some(KindTree::Operator(marks)) => Ok(Bound::Operator(Vec::from_slice(alloc, marks)?)),
        Some(KindTree::Plain) => Ok(Bound::Free),
        None => Ok(Bound::Free),
    }
}

/// Opens type binders by their names and kinds alone, and tells whether each has a kind or a bound.
fn open_bounded(alloc: Global, env: &mut Env, bs: &[TypeBinder]) -> Result<bool, AllocError>
    requires labels { BindersHaveDistinctLabels (binders_on no_binders bs.now) }
    ensures bounded { IfOk result (λ b. b ≡ are_bounded (known_names env.old) (known_entries env.old) (binders_on no_binders bs.now)) }
    ensures entries { OnOk result (known_entries env.new ≡ entries_under (known_entries env.old) (binders_on no_binders bs.now)) }
    ensures grew { OnOk result (GrewFrom env.old env.new) }
{
    let mut bounded = true;
    for b in bs {
        let one = has_kind_or_bound(alloc, env, b)?;
        bounded = both(bounded, one);
        let bound = bound_by_kind(alloc, &b.kind)?;
        env.push_type(b.id.name, bound)?;
    }
    Ok(bounded)
}

/// Whether every variable, wildcard and fold in the pattern is annotated, and every type binder has a kind or a bound. A
/// bound that expands to `Top` is none. The only error is want of memory; after it `env` is to be dropped.
#[cycle(complete)]
pub fn is_complete(alloc: Global, env: &mut Env, p: &Pat) -> Result<bool, AllocError>
    requires labels { PatHasDistinctLabels (pat_of p.now) }
    ensures complete { IfOk result (λ b. b ≡ is_complete (known_names env.old) (known_entries env.old) (pat_of p.now)) }
    ensures same { OnOk result (IsAsBefore env.old env.new) }
{
    match p {
        Pat::Bind(_, _, annotation) => Ok(annotation.of.is_some()),
        Pat::Any(_, annotation) => Ok(annotation.of.is_some()),
        Pat::Fields(_, parts) => are_fields_complete(alloc, env, parts),
        Pat::Fold(_, annotation, inner) => {
            let complete = is_complete(alloc, env, inner)?;
            Ok(both(annotation.of.is_some(), complete))
        }
    }
}

/// The fields of a record pattern.
#[cycle(complete)]
fn are_fields_complete(alloc: Global, env: &mut Env, parts: &FieldPats) -> Result<bool, AllocError>
    requires labels { FieldPatsHaveDistinctLabels (field_pats_of parts.now) }
    ensures complete { IfOk result (λ b. b ≡ are_fields_complete (known_names env.old) (known_entries env.old) (field_pats_of parts.now)) }
    ensures same { OnOk result (IsAsBefore env.old env.new) }
{
    let outer = env.place();
    let bounded = open_bounded(alloc, env, &parts.binders)?;
    let positional = are_complete(alloc, env, &parts.positional)?;
    let labelled = are_labels_complete(alloc, env, &parts.labelled)?;
    env.cut(outer);
    Ok(both(bounded, both(positional, labelled)))
}

/// Patterns side by side.
#[cycle(complete)]
fn are_complete(alloc: Global, env: &mut Env, ps: &[Pat]) -> Result<bool, AllocError>
    requires labels { PatsHaveDistinctLabels (pats_on no_pats ps.now) }
    ensures complete { IfOk result (λ b. b ≡ are_complete (known_names env.old) (known_entries env.old) (pats_on no_pats ps.now)) }
    ensures same { OnOk result (IsAsBefore env.old env.new) }
{
    let mut complete = true;
    for p in ps {
        let one = is_complete(alloc, env, p)?;
        complete = both(complete, one);
    }
    Ok(complete)
}

/// Labelled patterns.
#[cycle(complete)]
fn are_labels_complete(alloc: Global, env: &mut Env, ls: &[LabelledPat]) -> Result<bool, AllocError>
    requires labels { LabelledPatsAreDistinct (labelled_pats_on no_labelled_pats ls.now) }
    ensures complete { IfOk result (λ b. b ≡ are_labels_complete (known_names env.old) (known_entries env.old) (labelled_pats_on no_labelled_pats ls.now)) }
    ensures same { OnOk result (IsAsBefore env.old env.new) }
{
    let mut complete = true;
    for l in ls {
        let one = is_complete(alloc, env, &l.pat)?;
        complete = both(complete, one);
    }
    Ok(complete)
}
