// From tokens to declarations, in one pass over a pushdown automaton.

ghost use Rattle.std.specs.Prelude.{◌≡◌, IfOk, IfSome};
ghost use Rattle.pict_syntax.specs.Trees.{Decs};
ghost use Rattle.pict_syntax.specs.Programs.{declarations};
ghost use Rattle.pict_syntax.specs.Verdicts.{Verdict, IsVerdict};
ghost use Rattle.pict_parse.specs.Answers.{Answers, Ends, declared};
ghost use Rattle.pict_automaton.specs.Machine.{start};
ghost use Rattle.pict_automaton.specs.Places.{for_value, have_definition, need};
ghost use Rattle.pict_parse_states.specs.View.{definitions_in, declaration_place_of, place_of, parse_state, value_place_of};
ghost use Rattle.pict_syntax.specs.PlainTrees.{abs_of};

use crate::entry::ParseError;
use crate::token_step::step;
use pict_parse_states::{DeclarationPlace, Fault, Place, State, ValuePlace, Wait, is_within};
use pict_syntax::{Abs, Dec, Definition, Id, NESTING_LIMIT, Span, Token, abs_span, join};
use std::alloc::{AllocError, Global};

/// The only declarations whose trees these tokens are. `end` is the place that is told where the tokens end too early:
/// that of the end of the text. Takes time in proportion to the number of tokens.
///
/// `Unexpected` comes exactly where the tokens are those of no declarations and none before the wrong place is nested
/// more than 200 deep: with the place of the first token after which no declarations can follow, which the keyword
/// `import` always is, or, where some declarations begin with all of the tokens, with `end`. `TooNested` comes exactly
/// where a token is nested more than 200 deep before which no token is wrong, with the place of the first such token. A
/// token's nesting counts the brackets, conditionals, type prefixes and abstractions that begin at or before it and end
/// at or after it.
pub fn parse_declarations(
    alloc: Global,
    tokens: &[Token],
    end: Span,
) -> Result<Vec<Dec>, ParseError>
    ensures verdict { IfSome (declared result) (IsVerdict declarations tokens.now end) }
    ensures exact { (verdict : Verdict Decs) → IsVerdict declarations tokens.now end verdict → Answers (declared result) verdict }
{
    let mut state = start(alloc)?;
    for token in tokens {
        state = match step(alloc, token, state) {
            Ok(next) => next,
            Err(Fault::Unexpected) => return Err(ParseError::Unexpected(token.span)),
            Err(Fault::Memory) => return Err(ParseError::Memory),
        };
        if !is_within(&state, NESTING_LIMIT) {
            drop(state);
            return Err(ParseError::TooNested(token.span));
        }
    }
    match ended(state)? {
        Some(decs) => Ok(decs),
        None => Err(ParseError::Unexpected(end)),
    }
}

/// The state in which reading begins.
#[tactic(auto, using(pict_syntax::proofs::DeclarationLists::declaration_lists))]
fn start(alloc: Global) -> Result<State, AllocError>
    ensures { IfOk result (λ state. parse_state state ≡ start) }
{
    let place = ValuePlace::Waiting(Wait::Top(Vec::new(alloc)));
    Ok(State::Need(Place::Value(Box::new(alloc, place)?)))
}

/// The declarations that have been read, where a text may end.
fn ended(state: State) -> Result<Option<Vec<Dec>>, AllocError>
    ensures { IfOk result (λ decs. Ends (parse_state state) decs) }
{
    match state {
        State::Need(place) => Ok(ended_at(place)),
        State::HaveDefinition(from, definitions, id, abs, place) => {
            ended_by_def(from, definitions, id, abs, place)
        }
        other => {
            drop(other);
            Ok(None)
        }
    }
}

/// The declarations before what may come at this place.
fn ended_at(place: Place) -> Option<Vec<Dec>>
    ensures { Ends (need (place_of place)) result }
{
    match place {
        Place::Value(place) => ended_before_value(Box::into_inner(place)),
        other => {
            drop(other);
            None
        }
    }
}

/// The declarations before a value that may come.
fn ended_before_value(place: ValuePlace) -> Option<Vec<Dec>>
    ensures { Ends (need (for_value (value_place_of place))) result }
{
    match place {
        ValuePlace::Waiting(Wait::Top(decs)) => Some(decs),
        other => {
            drop(other);
            None
        }
    }
}

/// The declarations that have been read up to an abstraction of a `def`, where a text may end.
#[tactic(auto, using(pict_syntax::proofs::ValueLists::tree_lists))]
fn ended_by_def(
    from: Span,
    mut definitions: Vec<Definition>,
    id: Id,
    abs: Abs,
    place: DeclarationPlace,
) -> Result<Option<Vec<Dec>>, AllocError>
    ensures { IfOk result (λ decs. Ends (have_definition from (definitions_in definitions) id (abs_of abs) (declaration_place_of place)) decs) }
{
    match place {
        DeclarationPlace::Top(mut decs) => {
            let span = join(from, abs_span(&abs));
            definitions.push(Definition { id, abs })?;
            decs.push(Dec::Def(span, definitions))?;
            Ok(Some(decs))
        }
        DeclarationPlace::Paren(..) => Ok(None),
    }
}
