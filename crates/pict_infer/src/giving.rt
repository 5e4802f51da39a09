// Patterns that give a type.

ghost use Rattle.std.specs.Prelude.{◌≡◌, ◌≤◌, length, IfOk, OnOk};
ghost use Rattle.pict_syntax.specs.PlainTrees.{annotation_of, field_pats_of, labelled_pats_on, pat_of, pats_on};
ghost use Rattle.pict_syntax.specs.Trees.{any_pat, bind_pat, fields_pat, fold_pat, no_labelled_pats, no_pats};
ghost use Rattle.pict_types.specs.PlainContext.{type_context};
ghost use Rattle.pict_rules.specs.Rules.{fields_, fields_give, labelled_patterns_, labelled_patterns_give, pattern_, pattern_gives, patterns_, patterns_give};
ghost use Rattle.pict_rules.specs.Typing.{rule};
ghost use Rattle.pict_infer.specs.Answering.{IsAnswer};
ghost use Rattle.pict_infer.specs.Asking.{IsWellAsked};
ghost use Rattle.pict_infer.specs.Places.{environment_in};
ghost use Rattle.pict_infer.specs.Giving.{OpensFields, typed_all, typed_labelled, typed_pattern};

use crate::added::Added;
use crate::against::against;
use crate::binders::{open_giving, taken};
use crate::error::InferError;
use crate::formed::{annotated, recursive, unfolded, within_limits};
use pict_syntax::{FieldPats, Id, LabelledPat, Name, Pat, RType, Span, sort_labels};
use pict_types::{Context, Record, Ty};
use std::alloc::Global;
use std::rc::Rc;

/// The type of a pattern, and what it adds.
#[derive(Drop)]
pub struct Typed {
    pub has: Ty,
    pub adds: Added,
}

/// The types of patterns side by side, and what they add.
#[derive(Drop)]
pub struct TypedAll {
    pub have: Vec<Ty>,
    pub adds: Added,
}

/// The types of labelled patterns in the order of their labels, and what they add.
#[derive(Drop)]
pub struct TypedLabelled {
    pub have: Vec<(Name, Ty)>,
    pub adds: Added,
}

/// The record type of fields, and what they add within its own type variables.
#[derive(Drop)]
pub struct TypedFields {
    pub has: Record,
    pub adds: Added,
}

/// A variable, which has its annotation.
fn variable_gives(
    alloc: Global,
    c: &Context,
    id: Id,
    annotation: &RType,
    span: Span,
) -> Result<Typed, InferError>
    requires right { IsWellAsked pattern_ (environment_in c.now) (pattern_gives (bind_pat span id (annotation_of annotation.now))) }
    ensures answer { IsAnswer (rule (environment_in c.now) (pattern_gives (bind_pat span id (annotation_of annotation.now)))) typed_pattern result }
    ensures base { IfOk result (λ x. x.adds.base ≡ length (type_context c.now)) }
{
    let has = annotated(alloc, c, annotation, span)?;
    let adds = Added::value(alloc, c.variables(), id, has.copy(alloc)?)?;
    Ok(Typed { has, adds })
}

/// A wildcard, which has its annotation and adds nothing.
fn any_gives(
    alloc: Global,
    c: &Context,
    annotation: &RType,
    span: Span,
) -> Result<Typed, InferError>
    requires right { IsWellAsked pattern_ (environment_in c.now) (pattern_gives (any_pat span (annotation_of annotation.now))) }
    ensures answer { IsAnswer (rule (environment_in c.now) (pattern_gives (any_pat span (annotation_of annotation.now)))) typed_pattern result }
    ensures base { IfOk result (λ x. x.adds.base ≡ length (type_context c.now)) }
{
    let has = annotated(alloc, c, annotation, span)?;
    Ok(Typed {
        has,
        adds: Added::nothing(alloc, c.variables()),
    })
}

/// A fold, which has its annotation, and whose inner pattern goes against the unfolding.
fn fold_gives(
    alloc: Global,
    c: &mut Context,
    annotation: &RType,
    inner: &Pat,
    span: Span,
) -> Result<Typed, InferError>
    requires right { IsWellAsked pattern_ (environment_in c.old) (pattern_gives (fold_pat span (annotation_of annotation.now) (pat_of inner.now))) }
    ensures answer { IsAnswer (rule (environment_in c.old) (pattern_gives (fold_pat span (annotation_of annotation.now) (pat_of inner.now))))
        typed_pattern result }
    ensures base { IfOk result (λ x. x.adds.base ≡ length (type_context c.old)) }
    ensures same { OnOk result (environment_in c.new ≡ environment_in c.old) }
    ensures grows { length (type_context c.old) ≤ length (type_context c.new) }
{
    let has = annotated(alloc, &*c, annotation, span)?;
    recursive(&has, span)?;
    let unfolding = unfolded(alloc, &*c, &has, span)?;
    let adds = against(alloc, c, inner, &unfolding)?;
    Ok(Typed { has, adds })
}

/// The type of a pattern, and what it adds. Where it is refused, some of its type variables may be open still.
#[cycle(giving)]
pub fn give(alloc: Global, c: &mut Context, p: &Pat) -> Result<Typed, InferError>
    requires right { IsWellAsked pattern_ (environment_in c.old) (pattern_gives (pat_of p.now)) }
    ensures answer { IsAnswer (rule (environment_in c.old) (pattern_gives (pat_of p.now))) typed_pattern result }
    ensures base { IfOk result (λ x. x.adds.base ≡ length (type_context c.old)) }
    ensures same { OnOk result (environment_in c.new ≡ environment_in c.old) }
    ensures grows { length (type_context c.old) ≤ length (type_context c.new) }
{
    match p {
        Pat::Bind(span, id, annotation) => variable_gives(alloc, &*c, *id, annotation, *span),
        Pat::Any(span, annotation) => any_gives(alloc, &*c, annotation, *span),
        Pat::Fields(span, parts) => give_record(alloc, c, parts, *span),
        Pat::Fold(span, annotation, inner) => fold_gives(alloc, c, annotation, inner, *span),
    }
}

/// A record pattern, which has the record type of its fields.
#[cycle(giving)]
fn give_record(
    alloc: Global,
    c: &mut Context,
    parts: &FieldPats,
    span: Span,
) -> Result<Typed, InferError>
    requires right { IsWellAsked pattern_ (environment_in c.old) (pattern_gives (fields_pat span (field_pats_of parts.now))) }
    ensures answer { IsAnswer (rule (environment_in c.old) (pattern_gives (fields_pat span (field_pats_of parts.now)))) typed_pattern result }
    ensures base { IfOk result (λ x. x.adds.base ≡ length (type_context c.old)) }
    ensures same { OnOk result (environment_in c.new ≡ environment_in c.old) }
    ensures grows { length (type_context c.old) ≤ length (type_context c.new) }
{
    let before = c.len();
    let fields = open_parts(alloc, c, parts)?;
    let own = taken(alloc, c, before)?;
    let has = Ty::Fields(Rc::new(alloc, fields.has)?);
    within_limits(&*c, &has, span)?;
    let adds = fields.adds.under(own)?;
    Ok(Typed { has, adds })
}

/// The fields of a record pattern or of a function. Their own type variables stay open, and what they add in them is
/// given.
#[cycle(giving)]
pub fn open_parts(
    alloc: Global,
    c: &mut Context,
    parts: &FieldPats,
) -> Result<TypedFields, InferError>
    requires right { IsWellAsked fields_ (environment_in c.old) (fields_give (field_pats_of parts.now)) }
    ensures answer { OpensFields (environment_in c.old) (environment_in c.new) (field_pats_of parts.now) result }
    ensures base { IfOk result (λ x. x.adds.base ≡ length (type_context c.new)) }
    ensures grows { length (type_context c.old) ≤ length (type_context c.new) }
{
    let binders = open_giving(alloc, c, &parts.binders)?;
    let positional = give_all(alloc, c, &parts.positional)?;
    let labelled = give_labelled(alloc, c, &parts.labelled)?;
    let adds = positional.adds.join(alloc, labelled.adds)?;
    Ok(TypedFields {
        has: Record {
            binders,
            positional: positional.have,
            labelled: labelled.have,
        },
        adds,
    })
}

/// Patterns side by side.
#[cycle(giving)]
fn give_all(alloc: Global, c: &mut Context, ps: &[Pat]) -> Result<TypedAll, InferError>
    requires right { IsWellAsked patterns_ (environment_in c.old) (patterns_give (pats_on no_pats ps.now)) }
    ensures answer { IsAnswer (rule (environment_in c.old) (patterns_give (pats_on no_pats ps.now))) typed_all result }
    ensures base { IfOk result (λ x. x.adds.base ≡ length (type_context c.old)) }
    ensures same { OnOk result (environment_in c.new ≡ environment_in c.old) }
    ensures grows { length (type_context c.old) ≤ length (type_context c.new) }
{
    let mut have = Vec::new(alloc);
    let mut adds = Added::nothing(alloc, c.variables());
    for p in ps {
        let one = give(alloc, c, p)?;
        have.push(one.has)?;
        adds = adds.join(alloc, one.adds)?;
    }
    Ok(TypedAll { have, adds })
}

/// Labelled patterns.
#[cycle(giving)]
fn give_labelled(
    alloc: Global,
    c: &mut Context,
    ls: &[LabelledPat],
) -> Result<TypedLabelled, InferError>
    requires right { IsWellAsked labelled_patterns_ (environment_in c.old) (labelled_patterns_give (labelled_pats_on no_labelled_pats ls.now)) }
    ensures answer { IsAnswer (rule (environment_in c.old) (labelled_patterns_give (labelled_pats_on no_labelled_pats ls.now))) typed_labelled result }
    ensures base { IfOk result (λ x. x.adds.base ≡ length (type_context c.old)) }
    ensures same { OnOk result (environment_in c.new ≡ environment_in c.old) }
    ensures grows { length (type_context c.old) ≤ length (type_context c.new) }
{
    let mut have = Vec::new(alloc);
    let mut adds = Added::nothing(alloc, c.variables());
    for l in ls {
        let one = give(alloc, c, &l.pat)?;
        have.push((l.label.name, one.has))?;
        adds = adds.join(alloc, one.adds)?;
    }
    sort_labels(c.names(), &mut have)?;
    Ok(TypedLabelled { have, adds })
}
