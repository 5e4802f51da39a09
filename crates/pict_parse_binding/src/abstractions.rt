// What each token leads to where an abstraction is read.
// A token that fits nothing that is open gives `Fault::Unexpected`, want of memory `Fault::Memory`.

ghost use Rattle.std.specs.Prelude.{◌≡◌};
ghost use Rattle.pict_syntax.specs.PlainTrees.{type_of, field_pats_of};
ghost use Rattle.pict_automaton.specs.Machine.{step_need_abstraction, step_abstraction_open, step_abstraction_parameters, step_abstraction_result};
ghost use Rattle.pict_parse_states.specs.View.{GivesState, abstraction_place_of};

use crate::patterns::{begin_pattern, step_binders};
use pict_parse_states::{
    AbstractionPlace, Fault, FieldPatternsPlace, PatternPlace, Place, State, TypePlace, ValuePlace,
};
use pict_syntax::{FieldPats, Keyword, RType, Sign, Span, TokenKind, TypeTree};
use std::alloc::Global;

/// Where an abstraction is to begin: `(` opens one, any other token must begin the pattern of a process abstraction.
#[tactic(auto, using(pict_syntax::proofs::PatternLists::pattern_lists))]
pub fn step_need_abstraction(
    alloc: Global,
    kind: &TokenKind,
    at: Span,
    place: Box<AbstractionPlace>,
) -> Result<State, Fault>
    ensures { GivesState result (step_need_abstraction kind.now at (abstraction_place_of place.value)) }
{
    match kind {
        TokenKind::Sign(Sign::OpenParen) => Ok(State::AbstractionOpen(at, place)),
        _ => {
            let place = Box::new(alloc, PatternPlace::Abstraction(place))?;
            begin_pattern(alloc, kind, at, place)
        }
    }
}

/// Behind the `(` of an abstraction: `rec` begins a fold pattern, any other token is read among the parameters of a function.
#[tactic(auto, using(pict_syntax::proofs::PatternLists::pattern_lists))]
pub fn step_abstraction_open(
    alloc: Global,
    kind: &TokenKind,
    at: Span,
    opened: Span,
    place: Box<AbstractionPlace>,
) -> Result<State, Fault>
    ensures { GivesState result (step_abstraction_open kind.now at opened (abstraction_place_of place.value)) }
{
    match kind {
        TokenKind::Keyword(Keyword::Rec) => Ok(State::PatternRec(
            opened,
            Box::new(alloc, PatternPlace::Abstraction(place))?,
        )),
        _ => {
            let place = Box::new(alloc, FieldPatternsPlace::Parameters(opened, place))?;
            step_binders(alloc, kind, at, place, Vec::new(alloc))
        }
    }
}

/// Behind the parameters of a function: `:` leads to the type of its result, `=` to its value.
pub fn step_abstraction_parameters(
    alloc: Global,
    kind: &TokenKind,
    _at: Span,
    opened: Span,
    fields: FieldPats,
    place: Box<AbstractionPlace>,
) -> Result<State, Fault>
    ensures { GivesState result (step_abstraction_parameters kind.now _at opened (field_pats_of fields) (abstraction_place_of place.value)) }
{
    match kind {
        TokenKind::Sign(Sign::Colon) => Ok(State::NeedType(Box::new(
            alloc,
            TypePlace::Result(opened, fields, place),
        )?)),
        TokenKind::Sign(Sign::Equals) => {
            let place = ValuePlace::Function(opened, fields, RType { of: None }, place);
            Ok(State::Need(Place::Value(Box::new(alloc, place)?)))
        }
        _ => Err(Fault::Unexpected),
    }
}

/// Behind the type of a function's result: `=` leads to the function's value.
pub fn step_abstraction_result(
    alloc: Global,
    kind: &TokenKind,
    _at: Span,
    opened: Span,
    fields: FieldPats,
    answer: TypeTree,
    place: Box<AbstractionPlace>,
) -> Result<State, Fault>
    ensures { GivesState result (step_abstraction_result kind.now _at opened (field_pats_of fields) (type_of answer) (abstraction_place_of place.value)) }
{
    match kind {
        TokenKind::Sign(Sign::Equals) => {
            let answer = Box::new(alloc, answer)?;
            let place = ValuePlace::Function(opened, fields, RType { of: Some(answer) }, place);
            Ok(State::Need(Place::Value(Box::new(alloc, place)?)))
        }
        _ => Err(Fault::Unexpected),
    }
}
