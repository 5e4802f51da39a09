// What each token leads to where a value, a process or either begins.
#![tactic(auto, using(pict_syntax::proofs::ValueLists::tree_lists), unfolding(pict_syntax::specs::PlainTrees::type_of, pict_syntax::specs::PlainTrees::pat_of, pict_syntax::specs::PlainTrees::dec_of))]

ghost use Rattle.pict_syntax.specs.Trees.{no_decs};
ghost use Rattle.pict_automaton.specs.Places.{paren_declarations, waiting};
ghost use Rattle.pict_automaton.specs.Machine.{begin_first, name_value, declaration_value, keyword_value, sign_value, begin_value, begin_process, name_either, declaration_either, keyword_either, close_inert, sign_either, begin_either, step_need};
ghost use Rattle.pict_parse_states.specs.View.{wait_of, value_place_of, process_place_of, either_place_of, place_of, GivesState};

use crate::puts::{put_processes, put_unboxed, put_value};
use pict_parse_binding::begin_declaration;
use pict_parse_states::{
    AbstractionPlace, DeclarationPlace, EitherPlace, Fault, FieldsPlace, Place, ProcessPlace,
    ProcessPlaces, State, ValuePlace, ValuePlaces, Wait, of_processes, parens,
};
use pict_syntax::{Chan, Id, Keyword, Name, Proc, Sign, Span, TokenKind, Val, join};
use std::alloc::Global;

// A keyword right behind `(`.
fn begin_first(
    alloc: Global,
    word: Keyword,
    at: Span,
    from: Span,
    place: Place,
) -> Result<State, Fault>
    ensures { GivesState result (begin_first word at from (place_of place) (paren_declarations from no_decs (place_of place))) }
{
    match word {
        Keyword::Rec => Ok(State::FoldKeyword(from, place)),
        _ => begin_declaration(
            alloc,
            word,
            at,
            DeclarationPlace::Paren(from, Vec::new(alloc), place),
        ),
    }
}

// A name where the token behind a value says what the value is for.
fn name_waiting(name: Name, at: Span, wait: Wait) -> Result<State, Fault>
    ensures { GivesState result (name_value name at (waiting (wait_of wait))) }
{
    match wait {
        Wait::Paren(from, decs, below) => {
            if decs.is_empty() {
                let id = Id { name, span: at };
                Ok(State::FreshName(from, id, Place::Value(below)))
            } else {
                let wait = Wait::Paren(from, decs, below);
                Ok(State::HaveValue(Val::OfChan(Chan::Use(at, name)), wait))
            }
        }
        other => Ok(State::HaveValue(Val::OfChan(Chan::Use(at, name)), other)),
    }
}

// A name where a value begins.
fn name_value(alloc: Global, name: Name, at: Span, place: Box<ValuePlace>) -> Result<State, Fault>
    ensures { GivesState result (name_value name at (value_place_of place.value)) }
{
    match Box::into_inner(place) {
        ValuePlace::Waiting(wait) => name_waiting(name, at, wait),
        other => put_unboxed(alloc, other, Val::OfChan(Chan::Use(at, name))),
    }
}

// A word of a declaration where a value begins.
fn declaration_value(
    alloc: Global,
    word: Keyword,
    at: Span,
    place: Box<ValuePlace>,
) -> Result<State, Fault>
    ensures { GivesState result (declaration_value word at (value_place_of place.value)) }
{
    match Box::into_inner(place) {
        ValuePlace::Waiting(Wait::Top(decs)) => begin_declaration(
            alloc,
            word,
            at,
            DeclarationPlace::Top(decs),
        ),
        ValuePlace::Waiting(Wait::Paren(from, decs, below)) => {
            let place = Place::Value(below);
            if decs.is_empty() {
                begin_first(alloc, word, at, from, place)
            } else {
                begin_declaration(alloc, word, at, DeclarationPlace::Paren(from, decs, place))
            }
        }
        _ => Err(Fault::Unexpected),
    }
}

// A word where a value begins.
fn keyword_value(
    alloc: Global,
    word: Keyword,
    at: Span,
    place: Box<ValuePlace>,
) -> Result<State, Fault>
    ensures { GivesState result (keyword_value word at (value_place_of place.value)) }
{
    match word {
        Keyword::True => put_value(alloc, place, Val::True(at)),
        Keyword::False => put_value(alloc, place, Val::False(at)),
        Keyword::If => {
            let place = ValuePlace::Waiting(Wait::Test(at, Place::Value(place)));
            Ok(State::Need(Place::Value(Box::new(alloc, place)?)))
        }
        _ => declaration_value(alloc, word, at, place),
    }
}

// A sign where a value begins.
fn sign_value(alloc: Global, sign: Sign, at: Span, place: Box<ValuePlace>) -> Result<State, Fault>
    ensures { GivesState result (sign_value sign at (value_place_of place.value)) }
{
    match sign {
        Sign::OpenParen => {
            let place = parens(alloc, at, Vec::new(alloc), Place::Value(place))?;
            Ok(State::Need(place))
        }
        Sign::OpenBracket => {
            let place = FieldsPlace::Record(at, ValuePlaces::Only(place));
            Ok(State::AfterArguments(Box::new(alloc, place)?, Vec::new(alloc)))
        }
        Sign::Backslash => {
            let place = AbstractionPlace::Lambda(at, ValuePlaces::Only(place));
            Ok(State::NeedAbstraction(Box::new(alloc, place)?))
        }
        _ => Err(Fault::Unexpected),
    }
}

/// A value begins.
pub fn begin_value(
    alloc: Global,
    kind: &TokenKind,
    at: Span,
    place: Box<ValuePlace>,
) -> Result<State, Fault>
    ensures { GivesState result (begin_value kind.now at (value_place_of place.value)) }
{
    match kind {
        TokenKind::Identifier(name) => name_value(alloc, *name, at, place),
        TokenKind::Symbol(_, name) => name_value(alloc, *name, at, place),
        TokenKind::Number(number) => put_value(alloc, place, Val::Number(at, *number)),
        TokenKind::Character(byte) => put_value(alloc, place, Val::Character(at, *byte)),
        TokenKind::String(bytes) => {
            let bytes = bytes.copy(alloc)?;
            put_value(alloc, place, Val::String(at, bytes))
        }
        TokenKind::Keyword(word) => keyword_value(alloc, *word, at, place),
        TokenKind::Sign(sign) => sign_value(alloc, *sign, at, place),
    }
}

// A process begins.
fn begin_process(
    alloc: Global,
    kind: &TokenKind,
    at: Span,
    place: Box<ProcessPlace>,
) -> Result<State, Fault>
    ensures { GivesState result (begin_process kind.now at (process_place_of place.value)) }
{
    match kind {
        TokenKind::Identifier(name) => Ok(State::HaveChannel(
            Chan::Use(at, *name),
            ProcessPlaces::Only(place),
        )),
        TokenKind::Symbol(_, name) => Ok(State::HaveChannel(
            Chan::Use(at, *name),
            ProcessPlaces::Only(place),
        )),
        TokenKind::Keyword(Keyword::If) => {
            let place = ValuePlace::Waiting(Wait::Test(at, Place::Process(place)));
            Ok(State::Need(Place::Value(Box::new(alloc, place)?)))
        }
        TokenKind::Sign(Sign::OpenParen) => {
            let place = parens(alloc, at, Vec::new(alloc), Place::Process(place))?;
            Ok(State::Need(place))
        }
        _ => Err(Fault::Unexpected),
    }
}

// A name where a value or a process begins.
fn name_either(alloc: Global, name: Name, at: Span, place: Box<EitherPlace>) -> Result<State, Fault>
    ensures { GivesState result (name_either name at (either_place_of place.value)) }
{
    match Box::into_inner(place) {
        EitherPlace::Paren(from, decs, below) => {
            if decs.is_empty() {
                let id = Id { name, span: at };
                Ok(State::FreshName(from, id, of_processes(below)))
            } else {
                let place = Box::new(alloc, EitherPlace::Paren(from, decs, below))?;
                Ok(State::HaveChannel(Chan::Use(at, name), ProcessPlaces::Either(place)))
            }
        }
        other => {
            let place = Box::new(alloc, other)?;
            Ok(State::HaveChannel(Chan::Use(at, name), ProcessPlaces::Either(place)))
        }
    }
}

// A word of a declaration where a value or a process begins.
fn declaration_either(
    alloc: Global,
    word: Keyword,
    at: Span,
    place: Box<EitherPlace>,
) -> Result<State, Fault>
    ensures { GivesState result (declaration_either word at (either_place_of place.value)) }
{
    match Box::into_inner(place) {
        EitherPlace::Paren(from, decs, below) => {
            let place = of_processes(below);
            if decs.is_empty() {
                begin_first(alloc, word, at, from, place)
            } else {
                begin_declaration(alloc, word, at, DeclarationPlace::Paren(from, decs, place))
            }
        }
        _ => Err(Fault::Unexpected),
    }
}

// A word where a value or a process begins.
fn keyword_either(
    alloc: Global,
    word: Keyword,
    at: Span,
    place: Box<EitherPlace>,
) -> Result<State, Fault>
    ensures { GivesState result (keyword_either word at (either_place_of place.value)) }
{
    match word {
        Keyword::True => Ok(State::HaveEither(Val::True(at), place)),
        Keyword::False => Ok(State::HaveEither(Val::False(at), place)),
        Keyword::If => {
            let place = ValuePlace::Waiting(Wait::Test(at, Place::Either(place)));
            Ok(State::Need(Place::Value(Box::new(alloc, place)?)))
        }
        _ => declaration_either(alloc, word, at, place),
    }
}

// The `)` of `()`, the process that does nothing.
fn close_inert(alloc: Global, at: Span, place: Box<EitherPlace>) -> Result<State, Fault>
    ensures { GivesState result (close_inert at (either_place_of place.value)) }
{
    match Box::into_inner(place) {
        EitherPlace::Paren(from, decs, below) => {
            if decs.is_empty() {
                put_processes(alloc, below, Proc::Inert(join(from, at)))
            } else {
                Err(Fault::Unexpected)
            }
        }
        _ => Err(Fault::Unexpected),
    }
}

// A sign where a value or a process begins.
fn sign_either(alloc: Global, sign: Sign, at: Span, place: Box<EitherPlace>) -> Result<State, Fault>
    ensures { GivesState result (sign_either sign at (either_place_of place.value)) }
{
    match sign {
        Sign::OpenParen => {
            let place = parens(alloc, at, Vec::new(alloc), Place::Either(place))?;
            Ok(State::Need(place))
        }
        Sign::OpenBracket => {
            let place = FieldsPlace::Record(at, ValuePlaces::Either(place));
            Ok(State::AfterArguments(Box::new(alloc, place)?, Vec::new(alloc)))
        }
        Sign::Backslash => {
            let place = AbstractionPlace::Lambda(at, ValuePlaces::Either(place));
            Ok(State::NeedAbstraction(Box::new(alloc, place)?))
        }
        Sign::CloseParen => close_inert(alloc, at, place),
        _ => Err(Fault::Unexpected),
    }
}

// A value or a process begins.
fn begin_either(
    alloc: Global,
    kind: &TokenKind,
    at: Span,
    place: Box<EitherPlace>,
) -> Result<State, Fault>
    ensures { GivesState result (begin_either kind.now at (either_place_of place.value)) }
{
    match kind {
        TokenKind::Identifier(name) => name_either(alloc, *name, at, place),
        TokenKind::Symbol(_, name) => name_either(alloc, *name, at, place),
        TokenKind::Number(number) => Ok(State::HaveEither(Val::Number(at, *number), place)),
        TokenKind::Character(byte) => Ok(State::HaveEither(Val::Character(at, *byte), place)),
        TokenKind::String(bytes) => {
            let bytes = bytes.copy(alloc)?;
            Ok(State::HaveEither(Val::String(at, bytes), place))
        }
        TokenKind::Keyword(word) => keyword_either(alloc, *word, at, place),
        TokenKind::Sign(sign) => sign_either(alloc, *sign, at, place),
    }
}

/// A value, a process or a declaration begins where it is to come.
pub fn step_need(alloc: Global, kind: &TokenKind, at: Span, place: Place) -> Result<State, Fault>
    ensures { GivesState result (step_need kind.now at (place_of place)) }
{
    match place {
        Place::Value(place) => begin_value(alloc, kind, at, place),
        Place::Process(place) => begin_process(alloc, kind, at, place),
        Place::Either(place) => begin_either(alloc, kind, at, place),
    }
}
