// What each token leads to where types are read.

ghost use Rattle.std.specs.Prelude.{◌≡◌};
ghost use Rattle.pict_syntax.specs.PlainTrees.{type_of};
ghost use Rattle.pict_automaton.specs.Machine.{begin_type_sign, begin_type, step_type_open, step_rec_keyword, step_rec_name, step_rec_body, step_operator_arguments, step_types, step_type_name, step_type_labels, step_type_label, step_type_binders};
ghost use Rattle.pict_parse_binding.specs.Tokens.{IsTypeOr};
ghost use Rattle.pict_parse_states.specs.View.{types_in, binders_in, labelled_types_in, GivesState, type_place_of};

use crate::puts::put_type;
use pict_parse_states::{BinderPlace, Fault, Prefix, State, TypePlace};
use pict_syntax::{Id, Keyword, LabelledType, Sign, Span, TokenKind, TypeBinder, TypeTree, join};
use std::alloc::Global;

// The type that a word is.
#[tactic(auto, unfolding(pict_syntax::specs::PlainTrees::type_of))]
fn word_type(word: Keyword, at: Span) -> Result<TypeTree, Fault>
    ensures { IsTypeOr word at result }
{
    match word {
        Keyword::TopType => Ok(TypeTree::Top(at)),
        Keyword::IntType => Ok(TypeTree::Int(at)),
        Keyword::CharType => Ok(TypeTree::Char(at)),
        Keyword::StringType => Ok(TypeTree::String(at)),
        Keyword::BoolType => Ok(TypeTree::Bool(at)),
        _ => Err(Fault::Unexpected),
    }
}

// A type that begins with a sign.
#[tactic(auto, using(pict_syntax::proofs::TypeLists::type_lists))]
fn begin_type_sign(
    alloc: Global,
    sign: Sign,
    at: Span,
    place: Box<TypePlace>,
) -> Result<State, Fault>
    ensures { GivesState result (begin_type_sign sign at (type_place_of place.value)) }
{
    match sign {
        Sign::Caret => Ok(State::NeedType(Box::new(
            alloc,
            TypePlace::Prefix(Prefix::Both, at, place),
        )?)),
        Sign::Question => Ok(State::NeedType(Box::new(
            alloc,
            TypePlace::Prefix(Prefix::Read, at, place),
        )?)),
        Sign::Bang => Ok(State::NeedType(Box::new(
            alloc,
            TypePlace::Prefix(Prefix::Write, at, place),
        )?)),
        Sign::Slash => Ok(State::NeedType(Box::new(
            alloc,
            TypePlace::Prefix(Prefix::Respond, at, place),
        )?)),
        Sign::OpenBracket => Ok(State::AfterTypeBinders(at, Vec::new(alloc), place)),
        Sign::OpenParen => Ok(State::TypeOpen(at, place)),
        _ => Err(Fault::Unexpected),
    }
}

/// A type begins.
#[tactic(auto, unfolding(pict_syntax::specs::PlainTrees::type_of))]
pub fn begin_type(
    alloc: Global,
    kind: &TokenKind,
    at: Span,
    place: Box<TypePlace>,
) -> Result<State, Fault>
    ensures { GivesState result (begin_type kind.now at (type_place_of place.value)) }
{
    match kind {
        TokenKind::Keyword(word) => put_type(alloc, place, word_type(*word, at)?),
        TokenKind::Sign(sign) => begin_type_sign(alloc, *sign, at, place),
        TokenKind::Identifier(name) => put_type(alloc, place, TypeTree::Use(at, *name)),
        _ => Err(Fault::Unexpected),
    }
}

/// The token behind the `(` of a type: `rec`, or the operator that is applied.
#[tactic(auto, using(pict_syntax::proofs::TypeLists::type_lists))]
pub fn step_type_open(
    alloc: Global,
    kind: &TokenKind,
    at: Span,
    from: Span,
    place: Box<TypePlace>,
) -> Result<State, Fault>
    ensures { GivesState result (step_type_open kind.now at from (type_place_of place.value)) }
{
    match kind {
        TokenKind::Keyword(Keyword::Rec) => Ok(State::RecKeyword(from, place)),
        TokenKind::Identifier(name) => {
            let id = Id {
                name: *name,
                span: at,
            };
            Ok(State::OperatorArguments(from, id, Vec::new(alloc), place))
        }
        _ => Err(Fault::Unexpected),
    }
}

/// The token behind the `rec` of a type: the name that its body may use.
pub fn step_rec_keyword(
    kind: &TokenKind,
    at: Span,
    from: Span,
    place: Box<TypePlace>,
) -> Result<State, Fault>
    ensures { GivesState result (step_rec_keyword kind.now at from (type_place_of place.value)) }
{
    match kind {
        TokenKind::Identifier(name) => Ok(State::RecName(
            from,
            Id {
                name: *name,
                span: at,
            },
            place,
        )),
        _ => Err(Fault::Unexpected),
    }
}

/// The token behind the name of a recursive type.
pub fn step_rec_name(
    alloc: Global,
    kind: &TokenKind,
    at: Span,
    from: Span,
    id: Id,
    place: Box<TypePlace>,
) -> Result<State, Fault>
    ensures { GivesState result (step_rec_name kind.now at from id (type_place_of place.value)) }
{
    match kind {
        TokenKind::Sign(Sign::Equals) => Ok(State::NeedType(Box::new(
            alloc,
            TypePlace::Rec(from, id, place),
        )?)),
        _ => Err(Fault::Unexpected),
    }
}

/// The token behind the body of a recursive type.
#[tactic(auto, unfolding(pict_syntax::specs::PlainTrees::type_of))]
pub fn step_rec_body(
    alloc: Global,
    kind: &TokenKind,
    at: Span,
    from: Span,
    id: Id,
    body: TypeTree,
    place: Box<TypePlace>,
) -> Result<State, Fault>
    ensures { GivesState result (step_rec_body kind.now at from id (type_of body) (type_place_of place.value)) }
{
    match kind {
        TokenKind::Sign(Sign::CloseParen) => {
            let body = Box::new(alloc, body)?;
            put_type(alloc, place, TypeTree::Rec(join(from, at), id, body))
        }
        _ => Err(Fault::Unexpected),
    }
}

/// The token behind the operator of an applied type, or behind one of its arguments: `)` behind at least one, or a further one.
pub fn step_operator_arguments(
    alloc: Global,
    kind: &TokenKind,
    at: Span,
    from: Span,
    id: Id,
    types: Vec<TypeTree>,
    place: Box<TypePlace>,
) -> Result<State, Fault>
    ensures { GivesState result (step_operator_arguments kind.now at from id (types_in types) (type_place_of place.value)) }
{
    match kind {
        TokenKind::Sign(Sign::CloseParen) => {
            if types.is_empty() {
                Err(Fault::Unexpected)
            } else {
                put_type(alloc, place, TypeTree::Apply(join(from, at), id, types))
            }
        }
        _ => {
            let place = Box::new(alloc, TypePlace::Apply(from, id, types, place))?;
            begin_type(alloc, kind, at, place)
        }
    }
}

/// The token behind the types of fields so far.
pub fn step_types(
    alloc: Global,
    kind: &TokenKind,
    at: Span,
    from: Span,
    binders: Vec<TypeBinder>,
    types: Vec<TypeTree>,
    place: Box<TypePlace>,
) -> Result<State, Fault>
    ensures { GivesState result (step_types kind.now at from (binders_in binders) (types_in types) (type_place_of place.value)) }
{
    match kind {
        TokenKind::Sign(Sign::CloseBracket) => {
            put_type(
                alloc,
                place,
                TypeTree::Fields(join(from, at), binders, types, Vec::new(alloc)),
            )
        }
        TokenKind::Identifier(name) => Ok(State::TypeName(
            from,
            binders,
            types,
            Id {
                name: *name,
                span: at,
            },
            place,
        )),
        _ => {
            let place = Box::new(alloc, TypePlace::Field(from, binders, types, place))?;
            begin_type(alloc, kind, at, place)
        }
    }
}

/// The token behind a name among the fields of a type: a label if `=` follows, else a type.
#[tactic(auto, using(pict_syntax::proofs::TypeLists::type_lists))]
pub fn step_type_name(
    alloc: Global,
    kind: &TokenKind,
    at: Span,
    from: Span,
    binders: Vec<TypeBinder>,
    mut types: Vec<TypeTree>,
    id: Id,
    place: Box<TypePlace>,
) -> Result<State, Fault>
    ensures { GivesState result (step_type_name kind.now at from (binders_in binders) (types_in types) id (type_place_of place.value)) }
{
    match kind {
        TokenKind::Sign(Sign::Equals) => {
            let place = TypePlace::Label(from, binders, types, Vec::new(alloc), id, place);
            Ok(State::NeedType(Box::new(alloc, place)?))
        }
        _ => {
            types.push(TypeTree::Use(id.span, id.name))?;
            step_types(alloc, kind, at, from, binders, types, place)
        }
    }
}

/// The token behind the labelled types of fields so far.
pub fn step_type_labels(
    alloc: Global,
    kind: &TokenKind,
    at: Span,
    from: Span,
    binders: Vec<TypeBinder>,
    types: Vec<TypeTree>,
    labels: Vec<LabelledType>,
    place: Box<TypePlace>,
) -> Result<State, Fault>
    ensures { GivesState result
        (step_type_labels kind.now at from (binders_in binders) (types_in types) (labelled_types_in labels) (type_place_of place.value)) }
{
    match kind {
        TokenKind::Sign(Sign::CloseBracket) => {
            put_type(
                alloc,
                place,
                TypeTree::Fields(join(from, at), binders, types, labels),
            )
        }
        TokenKind::Identifier(name) => {
            let id = Id {
                name: *name,
                span: at,
            };
            Ok(State::TypeLabel(from, binders, types, labels, id, place))
        }
        _ => Err(Fault::Unexpected),
    }
}

/// The token behind the label of a type.
pub fn step_type_label(
    alloc: Global,
    kind: &TokenKind,
    at: Span,
    from: Span,
    binders: Vec<TypeBinder>,
    types: Vec<TypeTree>,
    labels: Vec<LabelledType>,
    id: Id,
    place: Box<TypePlace>,
) -> Result<State, Fault>
    ensures { GivesState result
        (step_type_label kind.now at from (binders_in binders) (types_in types) (labelled_types_in labels) id (type_place_of place.value)) }
{
    match kind {
        TokenKind::Sign(Sign::Equals) => {
            let place = TypePlace::Label(from, binders, types, labels, id, place);
            Ok(State::NeedType(Box::new(alloc, place)?))
        }
        _ => Err(Fault::Unexpected),
    }
}

/// The token behind the type binders of fields so far.
pub fn step_type_binders(
    alloc: Global,
    kind: &TokenKind,
    at: Span,
    from: Span,
    binders: Vec<TypeBinder>,
    place: Box<TypePlace>,
) -> Result<State, Fault>
    ensures { GivesState result (step_type_binders kind.now at from (binders_in binders) (type_place_of place.value)) }
{
    match kind {
        TokenKind::Sign(Sign::Hash) => {
            let place = BinderPlace::Types(from, binders, place);
            Ok(State::BinderHash(at, Box::new(alloc, place)?))
        }
        _ => step_types(alloc, kind, at, from, binders, Vec::new(alloc), place),
    }
}
