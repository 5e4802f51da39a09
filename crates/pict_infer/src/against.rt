// Patterns against a type.

ghost use Rattle.std.specs.Prelude.{◌≡◌, ◌≤◌, None, Some, length, IfOk, OnOk};
ghost use Rattle.pict_syntax.specs.PlainTrees.{annotation_of, field_pats_of, labelled_pats_on, pat_of, pats_on, type_of};
ghost use Rattle.pict_syntax.specs.Trees.{any_pat, bind_pat, fields_pat, no_labelled_pats, no_pats};
ghost use Rattle.pict_types.specs.Plain.{plain, plain_labels, plain_types};
ghost use Rattle.pict_types.specs.PlainContext.{IsWrittenIn, names_of, type_context};
ghost use Rattle.pict_scope.specs.DistinctLabels.{AnnotationHasDistinctLabels, HasDistinctLabels, PatHasDistinctLabels};
ghost use Rattle.pict_rules.specs.Rules.{extension_, labelled_patterns_against, opened_, pattern_against, patterns_against};
ghost use Rattle.pict_rules.specs.Regular.{IsRegular};
ghost use Rattle.pict_rules.specs.Typing.{rule};
ghost use Rattle.pict_types.specs.Kinds.{kinds, LabelsAreWellFormed};
ghost use Rattle.pict_infer.specs.Adding.{extension_of};
ghost use Rattle.pict_infer.specs.Against.{against_record, at_label, closed_fields};
ghost use Rattle.pict_infer.specs.Answering.{IsAnswer};
ghost use Rattle.pict_infer.specs.Asking.{IsWellAsked};
ghost use Rattle.pict_infer.specs.Opening.{OpensAgainst, against_fields};
ghost use Rattle.pict_infer.specs.Places.{environment_in};
ghost use Rattle.pict_infer.specs.Steps.{fold_unfolded};

use crate::added::Added;
use crate::binders::{open_against, taken};
use crate::error::{InferError, Told};
use crate::formed::{as_record, below, changed_or_same, expanded, followed, recursive, unfolded};
use crate::labels::labelled_type;
use pict_syntax::{Code, FieldPats, Id, LabelledPat, Name, Pat, RType, Span, TypeTree, pat_span};
use pict_types::{Bound, Context, Record, Ty};
use std::alloc::{AllocError, Global};

/// A variable with an annotation, which the type is below.
fn annotated_variable(
    alloc: Global,
    c: &Context,
    id: Id,
    annotation: &TypeTree,
    t: &Ty,
    span: Span,
) -> Result<Added, InferError>
    requires labels { HasDistinctLabels (type_of annotation.now) }
    requires t { IsWrittenIn c.now (plain t.now) }
    ensures answer { IsAnswer (rule (environment_in c.now) (pattern_against (bind_pat span id (Some (type_of annotation.now))) (plain t.now)))
        extension_of result }
    ensures base { IfOk result (λ x. x.base ≡ length (type_context c.now)) }
{
    let has = expanded(alloc, c, annotation)?;
    below(alloc, c, t, &has, Code::Y4, span)?;
    Ok(Added::value(alloc, c.variables(), id, has)?)
}

/// A variable, which has the type, or its annotation.
fn variable_against(
    alloc: Global,
    c: &Context,
    id: Id,
    annotation: &RType,
    t: &Ty,
    span: Span,
) -> Result<Added, InferError>
    requires labels { AnnotationHasDistinctLabels (annotation_of annotation.now) }
    requires t { IsWrittenIn c.now (plain t.now) }
    ensures answer { IsAnswer (rule (environment_in c.now) (pattern_against (bind_pat span id (annotation_of annotation.now)) (plain t.now)))
        extension_of result }
    ensures base { IfOk result (λ x. x.base ≡ length (type_context c.now)) }
{
    match &annotation.of {
        None => Ok(Added::value(alloc, c.variables(), id, t.copy(alloc)?)?),
        Some(a) => annotated_variable(alloc, c, id, a, t, span),
    }
}

/// A wildcard with an annotation, which the type is below.
fn annotated_any(
    alloc: Global,
    c: &Context,
    annotation: &TypeTree,
    t: &Ty,
    span: Span,
) -> Result<Added, InferError>
    requires labels { HasDistinctLabels (type_of annotation.now) }
    requires t { IsWrittenIn c.now (plain t.now) }
    ensures answer { IsAnswer (rule (environment_in c.now) (pattern_against (any_pat span (Some (type_of annotation.now))) (plain t.now))) extension_of result }
    ensures base { IfOk result (λ x. x.base ≡ length (type_context c.now)) }
{
    let has = expanded(alloc, c, annotation)?;
    below(alloc, c, t, &has, Code::Y4, span)?;
    Ok(Added::nothing(alloc, c.variables()))
}

/// A wildcard, which adds nothing.
fn any_against(
    alloc: Global,
    c: &Context,
    annotation: &RType,
    t: &Ty,
    span: Span,
) -> Result<Added, InferError>
    requires labels { AnnotationHasDistinctLabels (annotation_of annotation.now) }
    requires t { IsWrittenIn c.now (plain t.now) }
    ensures answer { IsAnswer (rule (environment_in c.now) (pattern_against (any_pat span (annotation_of annotation.now)) (plain t.now))) extension_of result }
    ensures base { IfOk result (λ x. x.base ≡ length (type_context c.now)) }
{
    match &annotation.of {
        None => Ok(Added::nothing(alloc, c.variables())),
        Some(a) => annotated_any(alloc, c, a, t, span),
    }
}

/// The unfolding of the annotation of a fold, which the type is below.
fn annotated_fold(
    alloc: Global,
    c: &Context,
    annotation: &TypeTree,
    t: &Ty,
    span: Span,
) -> Result<Ty, InferError>
    requires labels { HasDistinctLabels (type_of annotation.now) }
    requires t { IsWrittenIn c.now (plain t.now) }
    ensures answer { IsAnswer (fold_unfolded (environment_in c.now) (Some (type_of annotation.now)) (plain t.now) span) plain result }
    ensures formed { IfOk result (λ u. IsWrittenIn c.now (plain u)) }
{
    let folded = expanded(alloc, c, annotation)?;
    recursive(&folded, span)?;
    below(alloc, c, t, &folded, Code::Y4, span)?;
    unfolded(alloc, c, &folded, span)
}

/// The unfolding of the type that a type exposes to.
fn exposed_fold(alloc: Global, c: &Context, t: &Ty, span: Span) -> Result<Ty, InferError>
    requires t { IsWrittenIn c.now (plain t.now) }
    ensures answer { IsAnswer (fold_unfolded (environment_in c.now) None (plain t.now) span) plain result }
    ensures formed { IfOk result (λ u. IsWrittenIn c.now (plain u)) }
{
    let followed = followed(alloc, c, t)?;
    let folded = changed_or_same(&followed, t);
    recursive(folded, span)?;
    unfolded(alloc, c, folded, span)
}

/// What the inner pattern of a fold goes against.
fn fold_against(
    alloc: Global,
    c: &Context,
    annotation: &RType,
    t: &Ty,
    span: Span,
) -> Result<Ty, InferError>
    requires labels { AnnotationHasDistinctLabels (annotation_of annotation.now) }
    requires t { IsWrittenIn c.now (plain t.now) }
    ensures answer { IsAnswer (fold_unfolded (environment_in c.now) (annotation_of annotation.now) (plain t.now) span) plain result }
    ensures formed { IfOk result (λ u. IsWrittenIn c.now (plain u)) }
{
    match &annotation.of {
        None => exposed_fold(alloc, c, t, span),
        Some(a) => annotated_fold(alloc, c, a, t, span),
    }
}

/// What a pattern adds against a type. Where it is refused, some of the pattern's type variables may be open still.
#[cycle(against)]
pub fn against(alloc: Global, c: &mut Context, p: &Pat, t: &Ty) -> Result<Added, InferError>
    requires right { IsWellAsked extension_ (environment_in c.old) (pattern_against (pat_of p.now) (plain t.now)) }
    ensures answer { IsAnswer (rule (environment_in c.old) (pattern_against (pat_of p.now) (plain t.now))) extension_of result }
    ensures base { IfOk result (λ x. x.base ≡ length (type_context c.old)) }
    ensures same { OnOk result (environment_in c.new ≡ environment_in c.old) }
    ensures grows { length (type_context c.old) ≤ length (type_context c.new) }
{
    match p {
        Pat::Bind(span, id, annotation) => variable_against(alloc, &*c, *id, annotation, t, *span),
        Pat::Any(span, annotation) => any_against(alloc, &*c, annotation, t, *span),
        Pat::Fields(span, parts) => record_against(alloc, c, parts, t, *span),
        Pat::Fold(span, annotation, inner) => {
            let unfolding = fold_against(alloc, &*c, annotation, t, *span)?;
            against(alloc, c, inner, &unfolding)
        }
    }
}

/// A record pattern, which goes against the record that the type exposes to.
#[cycle(against)]
fn record_against(
    alloc: Global,
    c: &mut Context,
    parts: &FieldPats,
    t: &Ty,
    span: Span,
) -> Result<Added, InferError>
    requires right { IsWellAsked extension_ (environment_in c.old) (pattern_against (fields_pat span (field_pats_of parts.now)) (plain t.now)) }
    ensures answer { IsAnswer (rule (environment_in c.old) (pattern_against (fields_pat span (field_pats_of parts.now)) (plain t.now))) extension_of result }
    ensures base { IfOk result (λ x. x.base ≡ length (type_context c.old)) }
    ensures same { OnOk result (environment_in c.new ≡ environment_in c.old) }
    ensures grows { length (type_context c.old) ≤ length (type_context c.new) }
{
    let followed = followed(alloc, &*c, t)?;
    match as_record(changed_or_same(&followed, t)) {
        None => Err(InferError::Named(Code::Y5, span, Told::Nothing)),
        Some(r) => parts_against(alloc, c, parts, r, span),
    }
}

/// The fields of a record pattern against a record, with what they add within their own type variables.
#[cycle(against)]
fn parts_against(
    alloc: Global,
    c: &mut Context,
    parts: &FieldPats,
    r: &Record,
    span: Span,
) -> Result<Added, InferError>
    requires right { IsWellAsked opened_ (environment_in c.old) (against_record span (field_pats_of parts.now) r.now) }
    ensures answer { IsAnswer (closed_fields (environment_in c.old) (against_record span (field_pats_of parts.now) r.now)) extension_of result }
    ensures base { IfOk result (λ x. x.base ≡ length (type_context c.old)) }
    ensures same { OnOk result (environment_in c.new ≡ environment_in c.old) }
    ensures grows { length (type_context c.old) ≤ length (type_context c.new) }
{
    let before = c.len();
    let adds = open_parts_against(
        alloc,
        c,
        parts,
        &r.binders,
        &r.positional,
        &r.labelled,
        span,
    )?;
    let own = taken(alloc, c, before)?;
    Ok(adds.under(own)?)
}

/// The fields of a record pattern or of a function against a record. Their own type variables stay open, and what they
/// add in them is given.
#[cycle(against)]
pub fn open_parts_against(
    alloc: Global,
    c: &mut Context,
    parts: &FieldPats,
    binders: &[Bound],
    positional: &[Ty],
    labelled: &[(Name, Ty)],
    span: Span,
) -> Result<Added, InferError>
    requires right { IsWellAsked opened_ (environment_in c.old) (against_fields span (field_pats_of parts.now) binders.now positional.now labelled.now) }
    ensures answer { OpensAgainst (environment_in c.old) (environment_in c.new)
        (against_fields span (field_pats_of parts.now) binders.now positional.now labelled.now) result }
    ensures base { IfOk result (λ x. x.base ≡ length (type_context c.new)) }
    ensures grows { length (type_context c.old) ≤ length (type_context c.new) }
{
    if parts.binders.len() != binders.len() {
        return Err(InferError::Named(Code::Y5, span, Told::Nothing));
    }
    if parts.positional.len() != positional.len() {
        return Err(InferError::Named(Code::Y5, span, Told::Nothing));
    }
    open_against(alloc, c, &parts.binders, binders)?;
    let first = all_against(alloc, c, &parts.positional, positional)?;
    let second = labelled_against(alloc, c, &parts.labelled, labelled)?;
    Ok(first.join(alloc, second)?)
}

/// Patterns against as many types.
#[cycle(against)]
fn all_against(alloc: Global, c: &mut Context, ps: &[Pat], ts: &[Ty]) -> Result<Added, InferError>
    requires count { length ps.now ≡ length ts.now }
    requires right { IsWellAsked extension_ (environment_in c.old) (patterns_against (pats_on no_pats ps.now) (plain_types ts.now)) }
    ensures answer { IsAnswer (rule (environment_in c.old) (patterns_against (pats_on no_pats ps.now) (plain_types ts.now))) extension_of result }
    ensures base { IfOk result (λ x. x.base ≡ length (type_context c.old)) }
    ensures same { OnOk result (environment_in c.new ≡ environment_in c.old) }
    ensures grows { length (type_context c.old) ≤ length (type_context c.new) }
{
    let mut added = Added::nothing(alloc, c.variables());
    for i in 0..ps.len() {
        let p = &ps[i];
        let t = &ts[i];
        let one = against(alloc, c, p, t)?;
        added = added.join(alloc, one)?;
    }
    Ok(added)
}

/// A labelled pattern against the labelled fields of a record. A label that the record lacks is Y6 at the pattern.
#[cycle(against)]
fn label_against(
    alloc: Global,
    c: &mut Context,
    l: &LabelledPat,
    fields: &[(Name, Ty)],
) -> Result<Added, InferError>
    requires labels { PatHasDistinctLabels (pat_of l.now.pat) }
    requires regular { IsRegular (environment_in c.old) }
    requires formed { LabelsAreWellFormed (names_of c.old) (kinds (type_context c.old)) (plain_labels fields.now) }
    ensures answer { IsAnswer (at_label (environment_in c.old) l.now.label.name.0 (pat_of l.now.pat) (plain_labels fields.now)) extension_of result }
    ensures base { IfOk result (λ x. x.base ≡ length (type_context c.old)) }
    ensures same { OnOk result (environment_in c.new ≡ environment_in c.old) }
    ensures grows { length (type_context c.old) ≤ length (type_context c.new) }
{
    match labelled_type(c.names(), fields, l.label.name) {
        None => Err(InferError::Named(Code::Y6, pat_span(&l.pat), Told::Nothing)),
        Some(t) => against(alloc, c, &l.pat, t),
    }
}

/// Labelled patterns against the labelled fields of a record.
#[cycle(against)]
fn labelled_against(
    alloc: Global,
    c: &mut Context,
    ls: &[LabelledPat],
    fields: &[(Name, Ty)],
) -> Result<Added, InferError>
    requires right { IsWellAsked extension_ (environment_in c.old)
        (labelled_patterns_against (labelled_pats_on no_labelled_pats ls.now) (plain_labels fields.now)) }
    ensures answer { IsAnswer (rule (environment_in c.old) (labelled_patterns_against (labelled_pats_on no_labelled_pats ls.now) (plain_labels fields.now)))
        extension_of result }
    ensures base { IfOk result (λ x. x.base ≡ length (type_context c.old)) }
    ensures same { OnOk result (environment_in c.new ≡ environment_in c.old) }
    ensures grows { length (type_context c.old) ≤ length (type_context c.new) }
{
    let mut added = Added::nothing(alloc, c.variables());
    for l in ls {
        let one = label_against(alloc, c, l, fields)?;
        added = added.join(alloc, one)?;
    }
    Ok(added)
}
