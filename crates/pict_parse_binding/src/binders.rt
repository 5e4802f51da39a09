// What each token leads to where a type binder or its kind is read.

ghost use Rattle.std.specs.Prelude.{◌≡◌};
ghost use Rattle.pict_syntax.specs.PlainTrees.{binder_of, kind_of};
ghost use Rattle.pict_automaton.specs.Machine.{put_binder, step_binder, step_hash, step_binder_name, step_need_kind, step_kind_arguments, step_kind_mark, step_kind_arrow, step_kind_result, step_binder_kind};
ghost use Rattle.pict_parse_states.specs.View.{GivesState, binder_place_of};

use crate::patterns::step_binders;
use crate::types::step_type_binders;
use pict_parse_states::{BinderPlace, Fault, State, TypePlace};
use pict_syntax::{
    Id, Keyword, KindTree, Mark, Sign, Span, SymbolName, TokenKind, TypeBinder, join,
};
use std::alloc::Global;

/// A whole binder is put where it stands.
#[tactic(auto, using(pict_syntax::proofs::TypeLists::type_lists))]
pub fn put_binder(binder: TypeBinder, place: Box<BinderPlace>) -> Result<State, Fault>
    ensures { GivesState result (put_binder (binder_of binder) (binder_place_of place.value)) }
{
    match Box::into_inner(place) {
        BinderPlace::Patterns(place, mut binders) => {
            binders.push(binder)?;
            Ok(State::AfterBinders(place, binders))
        }
        BinderPlace::Types(opened, mut binders, place) => {
            binders.push(binder)?;
            Ok(State::AfterTypeBinders(opened, binders, place))
        }
    }
}

// The token behind a whole binder.
#[tactic(auto, using(pict_syntax::proofs::TypeLists::type_lists))]
fn step_binder(
    alloc: Global,
    kind: &TokenKind,
    at: Span,
    binder: TypeBinder,
    place: Box<BinderPlace>,
) -> Result<State, Fault>
    ensures { GivesState result (step_binder kind.now at (binder_of binder) (binder_place_of place.value)) }
{
    match Box::into_inner(place) {
        BinderPlace::Patterns(place, mut binders) => {
            binders.push(binder)?;
            step_binders(alloc, kind, at, place, binders)
        }
        BinderPlace::Types(opened, mut binders, place) => {
            binders.push(binder)?;
            step_type_binders(alloc, kind, at, opened, binders, place)
        }
    }
}

/// The token behind the `#` of a binder: its name.
pub fn step_hash(
    kind: &TokenKind,
    at: Span,
    hash: Span,
    place: Box<BinderPlace>,
) -> Result<State, Fault>
    ensures { GivesState result (step_hash kind.now at hash (binder_place_of place.value)) }
{
    match kind {
        TokenKind::Identifier(name) => Ok(State::BinderName(
            hash,
            Id {
                name: *name,
                span: at,
            },
            place,
        )),
        _ => Err(Fault::Unexpected),
    }
}

/// The token behind the name of a binder: `:` and a kind, `<` and a bound, or what follows the binder.
pub fn step_binder_name(
    alloc: Global,
    kind: &TokenKind,
    at: Span,
    hash: Span,
    name: Id,
    place: Box<BinderPlace>,
) -> Result<State, Fault>
    ensures { GivesState result (step_binder_name kind.now at hash name (binder_place_of place.value)) }
{
    match kind {
        TokenKind::Sign(Sign::Colon) => Ok(State::NeedKind(hash, name, place)),
        TokenKind::Sign(Sign::Less) => {
            let place = TypePlace::Bound(hash, name, None, place);
            Ok(State::NeedType(Box::new(alloc, place)?))
        }
        _ => {
            let binder = TypeBinder {
                span: join(hash, name.span),
                id: name,
                kind: None,
                bound: None,
            };
            step_binder(alloc, kind, at, binder, place)
        }
    }
}

/// The token that begins the kind of a binder.
pub fn step_need_kind(
    alloc: Global,
    kind: &TokenKind,
    at: Span,
    hash: Span,
    name: Id,
    place: Box<BinderPlace>,
) -> Result<State, Fault>
    ensures { GivesState result (step_need_kind kind.now at hash name (binder_place_of place.value)) }
{
    match kind {
        TokenKind::Keyword(Keyword::TypeKind) => Ok(State::BinderKind(
            hash,
            name,
            KindTree::Plain,
            at,
            place,
        )),
        TokenKind::Sign(Sign::OpenParen) => Ok(State::KindArguments(
            hash,
            name,
            Vec::new(alloc),
            place,
        )),
        _ => Err(Fault::Unexpected),
    }
}

/// The token behind these marks of a kind: `Type` or the sign before it for a further one, or the arrow behind at least one.
pub fn step_kind_arguments(
    kind: &TokenKind,
    _at: Span,
    hash: Span,
    name: Id,
    mut marks: Vec<Mark>,
    place: Box<BinderPlace>,
) -> Result<State, Fault>
    ensures { GivesState result (step_kind_arguments kind.now _at hash name marks.items (binder_place_of place.value)) }
{
    match kind {
        TokenKind::Keyword(Keyword::TypeKind) => {
            marks.push(Mark::Plain)?;
            Ok(State::KindArguments(hash, name, marks, place))
        }
        TokenKind::Symbol(SymbolName::Plus, _) => Ok(State::KindMark(
            hash,
            name,
            marks,
            Mark::Plus,
            place,
        )),
        TokenKind::Symbol(SymbolName::Minus, _) => Ok(State::KindMark(
            hash,
            name,
            marks,
            Mark::Minus,
            place,
        )),
        TokenKind::Sign(Sign::Arrow) => {
            if marks.is_empty() {
                Err(Fault::Unexpected)
            } else {
                Ok(State::KindArrow(hash, name, marks, place))
            }
        }
        _ => Err(Fault::Unexpected),
    }
}

/// The token behind the sign `+` or `-` of a kind's argument: `Type`.
pub fn step_kind_mark(
    kind: &TokenKind,
    _at: Span,
    hash: Span,
    name: Id,
    mut marks: Vec<Mark>,
    mark: Mark,
    place: Box<BinderPlace>,
) -> Result<State, Fault>
    ensures { GivesState result (step_kind_mark kind.now _at hash name marks.items mark (binder_place_of place.value)) }
{
    match kind {
        TokenKind::Keyword(Keyword::TypeKind) => {
            marks.push(mark)?;
            Ok(State::KindArguments(hash, name, marks, place))
        }
        _ => Err(Fault::Unexpected),
    }
}

/// The token behind the arrow of a kind.
pub fn step_kind_arrow(
    kind: &TokenKind,
    _at: Span,
    hash: Span,
    name: Id,
    marks: Vec<Mark>,
    place: Box<BinderPlace>,
) -> Result<State, Fault>
    ensures { GivesState result (step_kind_arrow kind.now _at hash name marks.items (binder_place_of place.value)) }
{
    match kind {
        TokenKind::Keyword(Keyword::TypeKind) => Ok(State::KindResult(hash, name, marks, place)),
        _ => Err(Fault::Unexpected),
    }
}

/// The token behind the result of a kind.
pub fn step_kind_result(
    kind: &TokenKind,
    at: Span,
    hash: Span,
    name: Id,
    marks: Vec<Mark>,
    place: Box<BinderPlace>,
) -> Result<State, Fault>
    ensures { GivesState result (step_kind_result kind.now at hash name marks.items (binder_place_of place.value)) }
{
    match kind {
        TokenKind::Sign(Sign::CloseParen) => Ok(State::BinderKind(
            hash,
            name,
            KindTree::Operator(marks),
            at,
            place,
        )),
        _ => Err(Fault::Unexpected),
    }
}

/// The token behind the kind of a binder: `<` and a bound, or what follows the binder.
pub fn step_binder_kind(
    alloc: Global,
    kind: &TokenKind,
    at: Span,
    hash: Span,
    name: Id,
    of: KindTree,
    end: Span,
    place: Box<BinderPlace>,
) -> Result<State, Fault>
    ensures { GivesState result (step_binder_kind kind.now at hash name (kind_of of) end (binder_place_of place.value)) }
{
    match kind {
        TokenKind::Sign(Sign::Less) => {
            let place = TypePlace::Bound(hash, name, Some(of), place);
            Ok(State::NeedType(Box::new(alloc, place)?))
        }
        _ => {
            let binder = TypeBinder {
                span: join(hash, end),
                id: name,
                kind: Some(of),
                bound: None,
            };
            step_binder(alloc, kind, at, binder, place)
        }
    }
}
