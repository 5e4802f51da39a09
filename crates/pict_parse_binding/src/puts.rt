// Whole types are put where they stand.

ghost use Rattle.std.specs.Prelude.{◌≡◌, IfOk, Some, option_map};
ghost use Rattle.pict_syntax.specs.Phrases.{join};
ghost use Rattle.pict_syntax.specs.Grammar.{type_span};
ghost use Rattle.pict_syntax.specs.Trees.{new_dec, alias_dec, operator_dec, bind_pat, any_pat, type_binder, bound};
ghost use Rattle.pict_syntax.specs.PlainTrees.{kind_of, type_of, annotation_of, pat_of, dec_of, binder_of};
ghost use Rattle.pict_automaton.specs.Places.{prefixed};
ghost use Rattle.pict_automaton.specs.Machine.{put_type};
ghost use Rattle.pict_parse_states.specs.View.{GivesState, type_place_of, prefix_of};

use crate::binders::put_binder;
use crate::patterns::put_pattern;
use pict_parse_states::{
    Fault, PatternPlace, Place, Prefix, State, TypePlace, ValuePlace, put_declaration,
};
use pict_syntax::{
    Dec, Id, KindTree, LabelledType, Pat, RType, Span, TypeBinder, TypeTree, join, type_span,
};
use std::alloc::{AllocError, Global};

// The type of a prefix and its content.
#[tactic(auto, unfolding(pict_syntax::specs::PlainTrees::type_of))]
fn prefixed(
    alloc: Global,
    prefix: Prefix,
    from: Span,
    tree: TypeTree,
) -> Result<TypeTree, AllocError>
    ensures { IfOk result (λ t. type_of t ≡ prefixed (prefix_of prefix) (join from (type_span (type_of tree))) (type_of tree)) }
{
    let span = join(from, type_span(&tree));
    let tree = Box::new(alloc, tree)?;
    match prefix {
        Prefix::Both => Ok(TypeTree::Both(span, tree)),
        Prefix::Read => Ok(TypeTree::Read(span, tree)),
        Prefix::Write => Ok(TypeTree::Write(span, tree)),
        Prefix::Respond => Ok(TypeTree::Respond(span, tree)),
    }
}

// A type as an annotation.
fn annotation(alloc: Global, tree: TypeTree) -> Result<RType, AllocError>
    ensures { IfOk result (λ r. annotation_of r ≡ Some (type_of tree)) }
{
    Ok(RType {
        of: Some(Box::new(alloc, tree)?),
    })
}

// The declaration of a channel of this type.
#[tactic(auto, unfolding(pict_syntax::specs::PlainTrees::dec_of))]
fn new_of(alloc: Global, from: Span, id: Id, tree: TypeTree) -> Result<Dec, AllocError>
    ensures { IfOk result (λ d. dec_of d ≡ new_dec (join from (type_span (type_of tree))) id (type_of tree)) }
{
    let span = join(from, type_span(&tree));
    Ok(Dec::New(span, id, Box::new(alloc, tree)?))
}

// The declaration of a name that stands for this type.
#[tactic(auto, unfolding(pict_syntax::specs::PlainTrees::dec_of))]
fn alias_of(alloc: Global, from: Span, id: Id, tree: TypeTree) -> Result<Dec, AllocError>
    ensures { IfOk result (λ d. dec_of d ≡ alias_dec (join from (type_span (type_of tree))) id (type_of tree)) }
{
    let span = join(from, type_span(&tree));
    Ok(Dec::Alias(span, id, Box::new(alloc, tree)?))
}

// The declaration of an operator that stands for this type.
#[tactic(auto, unfolding(pict_syntax::specs::PlainTrees::dec_of))]
fn operator_of(
    alloc: Global,
    from: Span,
    id: Id,
    params: Vec<Id>,
    tree: TypeTree,
) -> Result<Dec, AllocError>
    ensures { IfOk result (λ d. dec_of d ≡ operator_dec (join from (type_span (type_of tree))) id params.items (type_of tree)) }
{
    let span = join(from, type_span(&tree));
    Ok(Dec::Operator(span, id, params, Box::new(alloc, tree)?))
}

// The pattern of a name of this type.
#[tactic(auto, unfolding(pict_syntax::specs::PlainTrees::pat_of))]
fn bind_of(alloc: Global, id: Id, tree: TypeTree) -> Result<Pat, AllocError>
    ensures { IfOk result (λ q. pat_of q ≡ bind_pat (join id.span (type_span (type_of tree))) id (Some (type_of tree))) }
{
    let span = join(id.span, type_span(&tree));
    Ok(Pat::Bind(span, id, annotation(alloc, tree)?))
}

// The pattern `_` of this type.
#[tactic(auto, unfolding(pict_syntax::specs::PlainTrees::pat_of))]
fn any_of(alloc: Global, from: Span, tree: TypeTree) -> Result<Pat, AllocError>
    ensures { IfOk result (λ q. pat_of q ≡ any_pat (join from (type_span (type_of tree))) (Some (type_of tree))) }
{
    let span = join(from, type_span(&tree));
    Ok(Pat::Any(span, annotation(alloc, tree)?))
}

// The binder whose bound is this type.
fn bounded(
    alloc: Global,
    hash: Span,
    id: Id,
    kind: Option<KindTree>,
    tree: TypeTree,
) -> Result<TypeBinder, AllocError>
    ensures { IfOk result (λ b.
        binder_of b ≡ type_binder (join hash (type_span (type_of tree))) id (option_map kind_of kind) (bound (type_of tree))) }
{
    let span = join(hash, type_span(&tree));
    Ok(TypeBinder {
        span,
        id,
        kind,
        bound: Some(Box::new(alloc, tree)?),
    })
}

/// A whole type is put at its place.
#[tactic(auto, using(pict_syntax::proofs::TypeLists::type_lists))]
pub fn put_type(alloc: Global, place: Box<TypePlace>, tree: TypeTree) -> Result<State, Fault>
    ensures { GivesState result (put_type (type_of tree) (type_place_of place.value)) }
{
    match Box::into_inner(place) {
        TypePlace::New(from, id, below) => {
            put_declaration(alloc, new_of(alloc, from, id, tree)?, below)
        }
        TypePlace::Alias(from, id, below) => {
            put_declaration(alloc, alias_of(alloc, from, id, tree)?, below)
        }
        TypePlace::Operator(from, id, params, below) => {
            put_declaration(alloc, operator_of(alloc, from, id, params, tree)?, below)
        }
        TypePlace::Bind(id, below) => put_pattern(bind_of(alloc, id, tree)?, below),
        TypePlace::Any(from, below) => put_pattern(any_of(alloc, from, tree)?, below),
        TypePlace::Result(from, fields, below) => Ok(State::AbstractionResult(
            from, fields, tree, below,
        )),
        TypePlace::PatternFold(from, below) => {
            let place = PatternPlace::Fold(from, annotation(alloc, tree)?, below);
            Ok(State::NeedPattern(Box::new(alloc, place)?))
        }
        TypePlace::Fold(from, below) => {
            let place = ValuePlace::Fold(from, annotation(alloc, tree)?, below);
            Ok(State::Need(Place::Value(Box::new(alloc, place)?)))
        }
        TypePlace::Bound(hash, id, kind, below) => {
            put_binder(bounded(alloc, hash, id, kind, tree)?, below)
        }
        TypePlace::Prefix(prefix, from, below) => {
            put_type(alloc, below, prefixed(alloc, prefix, from, tree)?)
        }
        TypePlace::Field(from, binders, mut types, below) => {
            types.push(tree)?;
            Ok(State::AfterTypes(from, binders, types, below))
        }
        TypePlace::Label(from, binders, types, mut labels, label, below) => {
            labels.push(LabelledType { label, of: tree })?;
            Ok(State::AfterTypeLabels(from, binders, types, labels, below))
        }
        TypePlace::Apply(from, id, mut types, below) => {
            types.push(tree)?;
            Ok(State::OperatorArguments(from, id, types, below))
        }
        TypePlace::Rec(from, id, below) => Ok(State::RecBody(from, id, tree, below)),
        TypePlace::Argument(below, mut types) => {
            types.push(tree)?;
            Ok(State::AfterArguments(below, types))
        }
    }
}
