// What each token leads to where a declaration is read.

ghost use Rattle.std.specs.Prelude.{◌≡◌};
ghost use Rattle.pict_automaton.specs.Machine.{begin_declaration, step_new_keyword, step_new_name, step_definition_keyword, step_type_keyword, step_alias_name, step_operator_open, step_operator_parameters, step_operator_closed};
ghost use Rattle.pict_parse_states.specs.View.{definitions_in, GivesState, declaration_place_of};

use pict_parse_states::{
    AbstractionPlace, DeclarationPlace, Fault, PatternPlace, Place, ProcessPlace, State, TypePlace,
};
use pict_syntax::{Definition, Id, Keyword, Sign, Span, TokenKind};
use std::alloc::Global;

/// A word that begins a declaration. Here as in the other calls `Unexpected` says that the token fits nothing that is
/// open, and `Memory` is want of memory.
#[tactic(auto, using(pict_syntax::proofs::DeclarationLists::declaration_lists))]
pub fn begin_declaration(
    alloc: Global,
    word: Keyword,
    at: Span,
    place: DeclarationPlace,
) -> Result<State, Fault>
    ensures { GivesState result (begin_declaration word at (declaration_place_of place)) }
{
    match word {
        Keyword::New => Ok(State::NewKeyword(at, place)),
        Keyword::Run => {
            let place = Box::new(alloc, ProcessPlace::Run(at, place))?;
            Ok(State::Need(Place::Process(place)))
        }
        Keyword::Val => Ok(State::NeedPattern(Box::new(alloc, PatternPlace::Let(at, place))?)),
        Keyword::Def => Ok(State::DefinitionKeyword(at, Vec::new(alloc), place)),
        Keyword::TypeDefinition => Ok(State::TypeKeyword(at, place)),
        _ => Err(Fault::Unexpected),
    }
}

/// The token behind `new`: its name.
pub fn step_new_keyword(
    kind: &TokenKind,
    at: Span,
    from: Span,
    place: DeclarationPlace,
) -> Result<State, Fault>
    ensures { GivesState result (step_new_keyword kind.now at from (declaration_place_of place)) }
{
    match kind {
        TokenKind::Identifier(name) => Ok(State::NewName(
            from,
            Id {
                name: *name,
                span: at,
            },
            place,
        )),
        _ => Err(Fault::Unexpected),
    }
}

/// The token behind the name of a `new`: the colon before its type.
pub fn step_new_name(
    alloc: Global,
    kind: &TokenKind,
    _at: Span,
    from: Span,
    name: Id,
    place: DeclarationPlace,
) -> Result<State, Fault>
    ensures { GivesState result (step_new_name kind.now _at from name (declaration_place_of place)) }
{
    match kind {
        TokenKind::Sign(Sign::Colon) => Ok(State::NeedType(Box::new(
            alloc,
            TypePlace::New(from, name, place),
        )?)),
        _ => Err(Fault::Unexpected),
    }
}

/// The token behind `def` or `and`: the name that is defined.
pub fn step_definition_keyword(
    alloc: Global,
    kind: &TokenKind,
    at: Span,
    from: Span,
    definitions: Vec<Definition>,
    place: DeclarationPlace,
) -> Result<State, Fault>
    ensures { GivesState result (step_definition_keyword kind.now at from (definitions_in definitions) (declaration_place_of place)) }
{
    match kind {
        TokenKind::Identifier(name) => {
            let id = Id {
                name: *name,
                span: at,
            };
            let place = AbstractionPlace::Definition(from, definitions, id, place);
            Ok(State::NeedAbstraction(Box::new(alloc, place)?))
        }
        _ => Err(Fault::Unexpected),
    }
}

/// The token behind `type`: a name, or the bracket before an operator.
pub fn step_type_keyword(
    kind: &TokenKind,
    at: Span,
    from: Span,
    place: DeclarationPlace,
) -> Result<State, Fault>
    ensures { GivesState result (step_type_keyword kind.now at from (declaration_place_of place)) }
{
    match kind {
        TokenKind::Identifier(name) => Ok(State::AliasName(
            from,
            Id {
                name: *name,
                span: at,
            },
            place,
        )),
        TokenKind::Sign(Sign::OpenParen) => Ok(State::OperatorOpen(from, place)),
        _ => Err(Fault::Unexpected),
    }
}

/// The token behind the name of an abbreviation: the sign before its body.
pub fn step_alias_name(
    alloc: Global,
    kind: &TokenKind,
    _at: Span,
    from: Span,
    name: Id,
    place: DeclarationPlace,
) -> Result<State, Fault>
    ensures { GivesState result (step_alias_name kind.now _at from name (declaration_place_of place)) }
{
    match kind {
        TokenKind::Sign(Sign::Equals) => Ok(State::NeedType(Box::new(
            alloc,
            TypePlace::Alias(from, name, place),
        )?)),
        _ => Err(Fault::Unexpected),
    }
}

/// The token behind the bracket before an operator: its name.
pub fn step_operator_open(
    alloc: Global,
    kind: &TokenKind,
    at: Span,
    from: Span,
    place: DeclarationPlace,
) -> Result<State, Fault>
    ensures { GivesState result (step_operator_open kind.now at from (declaration_place_of place)) }
{
    match kind {
        TokenKind::Identifier(name) => Ok(State::OperatorParameters(
            from,
            Id {
                name: *name,
                span: at,
            },
            Vec::new(alloc),
            place,
        )),
        _ => Err(Fault::Unexpected),
    }
}

/// The token behind an operator or one of its parameters: a parameter, or the bracket.
pub fn step_operator_parameters(
    kind: &TokenKind,
    at: Span,
    from: Span,
    name: Id,
    params: Vec<Id>,
    place: DeclarationPlace,
) -> Result<State, Fault>
    ensures { GivesState result (step_operator_parameters kind.now at from name params.items (declaration_place_of place)) }
{
    match kind {
        TokenKind::Identifier(param) => {
            let mut params = params;
            params.push(Id {
                name: *param,
                span: at,
            })?;
            Ok(State::OperatorParameters(from, name, params, place))
        }
        TokenKind::Sign(Sign::CloseParen) => {
            if params.is_empty() {
                Err(Fault::Unexpected)
            } else {
                Ok(State::OperatorClosed(from, name, params, place))
            }
        }
        _ => Err(Fault::Unexpected),
    }
}

/// The token behind the bracket of an operator: the sign before its body.
pub fn step_operator_closed(
    alloc: Global,
    kind: &TokenKind,
    _at: Span,
    from: Span,
    name: Id,
    params: Vec<Id>,
    place: DeclarationPlace,
) -> Result<State, Fault>
    ensures { GivesState result (step_operator_closed kind.now _at from name params.items (declaration_place_of place)) }
{
    match kind {
        TokenKind::Sign(Sign::Equals) => Ok(State::NeedType(Box::new(
            alloc,
            TypePlace::Operator(from, name, params, place),
        )?)),
        _ => Err(Fault::Unexpected),
    }
}
