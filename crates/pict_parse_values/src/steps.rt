// What each token leads to behind values, processes and the fields of records and applications.

ghost use Rattle.pict_syntax.specs.PlainTrees.{annotation_of, abs_of, chan_of, val_of, proc_of, field_vals_of};
ghost use Rattle.pict_automaton.specs.Machine.{step_have_definition, close_values, step_values, step_value_name, step_labels, step_value_label, step_arguments_of, step_fold_keyword, step_fold_body, close_side, step_side, close_paren, step_first, step_paren, step_top, step_test, step_then, step_wait, step_either, step_channel_value, step_channel, step_used, step_fresh_name, step_process, step_processes};
ghost use Rattle.pict_parse_states.specs.View.{types_in, decs_in, definitions_in, vals_in, labelled_vals_in, procs_in, side_of, wait_of, either_place_of, processes_place_of, values_place_of, place_of, declaration_place_of, fields_place_of, GivesState};

use crate::begins::{begin_value, step_need};
use crate::puts::{put_channel, put_processes, put_values};
use pict_parse_states::{
    AbstractionPlace, Ask, DeclarationPlace, EitherPlace, Fault, FieldsPlace, Place, ProcessPlace,
    ProcessPlaces, Side, State, TypePlace, ValuePlace, ValuePlaces, Wait, after_declaration,
    of_processes, parens, then_place,
};
use pict_syntax::{
    Abs, Chan, Dec, Definition, FieldVals, Id, Keyword, LabelledVal, Proc, RType, Sign, Span,
    TokenKind, TypeTree, Val, abs_span, join, val_span,
};
use std::alloc::Global;

/// The token behind a whole definition: `and`, or the first behind the declaration.
#[tactic(auto, using(pict_syntax::proofs::ValueLists::tree_lists))]
pub fn step_have_definition(
    alloc: Global,
    kind: &TokenKind,
    at: Span,
    from: Span,
    mut definitions: Vec<Definition>,
    id: Id,
    abs: Abs,
    place: DeclarationPlace,
) -> Result<State, Fault>
    ensures { GivesState result (step_have_definition kind.now at from (definitions_in definitions) id (abs_of abs) (declaration_place_of place)) }
{
    let end = abs_span(&abs);
    definitions.push(Definition { id, abs })?;
    match kind {
        TokenKind::Keyword(Keyword::And) => Ok(State::DefinitionKeyword(from, definitions, place)),
        _ => {
            let place = after_declaration(alloc, Dec::Def(join(from, end), definitions), place)?;
            step_need(alloc, kind, at, place)
        }
    }
}

// The fields of a record or of an application end.
#[tactic(auto, using(pict_syntax::proofs::ValueLists::tree_lists), unfolding(pict_syntax::specs::PlainTrees::dec_of))]
fn close_values(
    alloc: Global,
    sign: Sign,
    at: Span,
    place: Box<FieldsPlace>,
    fields: FieldVals,
) -> Result<State, Fault>
    ensures { GivesState result (close_values sign at (fields_place_of place.value) (field_vals_of fields)) }
{
    let fields = Box::new(alloc, fields)?;
    match (sign, Box::into_inner(place)) {
        (Sign::CloseBracket, FieldsPlace::Record(from, below)) => {
            put_values(alloc, below, Val::Fields(join(from, at), fields))
        }
        (Sign::CloseParen, FieldsPlace::Apply(from, head, below)) => {
            let head = Box::new(alloc, head)?;
            put_channel(alloc, below, Chan::Apply(join(from, at), head, fields))
        }
        _ => Err(Fault::Unexpected),
    }
}

/// The token behind the values of a record or of an application, before any label.
#[tactic(auto, using(pict_syntax::proofs::ValueLists::tree_lists))]
pub fn step_values(
    alloc: Global,
    kind: &TokenKind,
    at: Span,
    place: Box<FieldsPlace>,
    types: Vec<TypeTree>,
    vals: Vec<Val>,
) -> Result<State, Fault>
    ensures { GivesState result (step_values kind.now at (fields_place_of place.value) (types_in types) (vals_in vals)) }
{
    match kind {
        TokenKind::Sign(Sign::CloseBracket) => {
            let fields = FieldVals {
                type_arguments: types,
                positional: vals,
                labelled: Vec::new(alloc),
            };
            close_values(alloc, Sign::CloseBracket, at, place, fields)
        }
        TokenKind::Sign(Sign::CloseParen) => {
            let fields = FieldVals {
                type_arguments: types,
                positional: vals,
                labelled: Vec::new(alloc),
            };
            close_values(alloc, Sign::CloseParen, at, place, fields)
        }
        TokenKind::Identifier(name) => Ok(State::ValueName(
            place,
            types,
            vals,
            Id {
                name: *name,
                span: at,
            },
        )),
        _ => {
            let place = Box::new(alloc, ValuePlace::Field(place, types, vals))?;
            begin_value(alloc, kind, at, place)
        }
    }
}

/// The token behind a name among fields, which is a label before `=` and a value before all else.
#[tactic(auto, using(pict_syntax::proofs::ValueLists::tree_lists))]
pub fn step_value_name(
    alloc: Global,
    kind: &TokenKind,
    at: Span,
    place: Box<FieldsPlace>,
    types: Vec<TypeTree>,
    mut vals: Vec<Val>,
    id: Id,
) -> Result<State, Fault>
    ensures { GivesState result (step_value_name kind.now at (fields_place_of place.value) (types_in types) (vals_in vals) id) }
{
    match kind {
        TokenKind::Sign(Sign::Equals) => {
            let place = ValuePlace::Label(place, types, vals, Vec::new(alloc), id);
            Ok(State::Need(Place::Value(Box::new(alloc, place)?)))
        }
        _ => {
            vals.push(Val::OfChan(Chan::Use(id.span, id.name)))?;
            step_values(alloc, kind, at, place, types, vals)
        }
    }
}

/// The token behind the labelled values of a record or of an application.
#[tactic(auto, using(pict_syntax::proofs::ValueLists::tree_lists))]
pub fn step_labels(
    alloc: Global,
    kind: &TokenKind,
    at: Span,
    place: Box<FieldsPlace>,
    types: Vec<TypeTree>,
    vals: Vec<Val>,
    labels: Vec<LabelledVal>,
) -> Result<State, Fault>
    ensures { GivesState result (step_labels kind.now at (fields_place_of place.value) (types_in types) (vals_in vals) (labelled_vals_in labels)) }
{
    match kind {
        TokenKind::Sign(Sign::CloseBracket) => {
            let fields = FieldVals {
                type_arguments: types,
                positional: vals,
                labelled: labels,
            };
            close_values(alloc, Sign::CloseBracket, at, place, fields)
        }
        TokenKind::Sign(Sign::CloseParen) => {
            let fields = FieldVals {
                type_arguments: types,
                positional: vals,
                labelled: labels,
            };
            close_values(alloc, Sign::CloseParen, at, place, fields)
        }
        TokenKind::Identifier(name) => Ok(State::ValueLabel(
            place,
            types,
            vals,
            labels,
            Id {
                name: *name,
                span: at,
            },
        )),
        _ => Err(Fault::Unexpected),
    }
}

/// The token behind the label of a value, which has to be `=`.
pub fn step_value_label(
    alloc: Global,
    kind: &TokenKind,
    at: Span,
    place: Box<FieldsPlace>,
    types: Vec<TypeTree>,
    vals: Vec<Val>,
    labels: Vec<LabelledVal>,
    label: Id,
) -> Result<State, Fault>
    ensures { GivesState result (step_value_label kind.now at (fields_place_of place.value) (types_in types) (vals_in vals) (labelled_vals_in labels) label) }
{
    match kind {
        TokenKind::Sign(Sign::Equals) => {
            let place = ValuePlace::Label(place, types, vals, labels, label);
            Ok(State::Need(Place::Value(Box::new(alloc, place)?)))
        }
        _ => Err(Fault::Unexpected),
    }
}

/// The token behind the type arguments of a record or of an application, before any value.
pub fn step_arguments(
    alloc: Global,
    kind: &TokenKind,
    at: Span,
    place: Box<FieldsPlace>,
    types: Vec<TypeTree>,
) -> Result<State, Fault>
    ensures { GivesState result (step_arguments_of kind.now at (fields_place_of place.value) (types_in types)) }
{
    match kind {
        TokenKind::Sign(Sign::Hash) => Ok(State::NeedType(Box::new(
            alloc,
            TypePlace::Argument(place, types),
        )?)),
        _ => step_values(alloc, kind, at, place, types, Vec::new(alloc)),
    }
}

/// The token behind `(rec`: `:` before an annotation, or the first of the value.
pub fn step_fold_keyword(
    alloc: Global,
    kind: &TokenKind,
    at: Span,
    from: Span,
    place: Place,
) -> Result<State, Fault>
    ensures { GivesState result (step_fold_keyword kind.now at from (place_of place)) }
{
    match kind {
        TokenKind::Sign(Sign::Colon) => Ok(State::NeedType(Box::new(
            alloc,
            TypePlace::Fold(from, place),
        )?)),
        _ => {
            let place = Box::new(alloc, ValuePlace::Fold(from, RType { of: None }, place))?;
            begin_value(alloc, kind, at, place)
        }
    }
}

/// The token behind the value of a fold, which has to be `)`.
#[tactic(auto, unfolding(pict_syntax::specs::PlainTrees::dec_of))]
pub fn step_fold_body(
    alloc: Global,
    kind: &TokenKind,
    at: Span,
    from: Span,
    annotation: RType,
    val: Val,
    place: Place,
) -> Result<State, Fault>
    ensures { GivesState result (step_fold_body kind.now at from (annotation_of annotation) (val_of val) (place_of place)) }
{
    match kind {
        TokenKind::Sign(Sign::CloseParen) => {
            let val = Box::new(alloc, val)?;
            put_channel(alloc, place, Chan::Fold(join(from, at), annotation, val))
        }
        _ => Err(Fault::Unexpected),
    }
}

// The arguments of `(name > ..)` or `(name < ..)` end: there must be two.
fn close_side(
    alloc: Global,
    at: Span,
    side: Side,
    from: Span,
    id: Id,
    vals: Vec<Val>,
    place: Place,
) -> Result<State, Fault>
    ensures { GivesState result (close_side at (side_of side) from id (vals_in vals) (place_of place)) }
{
    if vals.len() < 2 {
        return Err(Fault::Unexpected);
    }
    match side {
        Side::Rightward => put_channel(alloc, place, Chan::Right(join(from, at), id, vals)),
        Side::Leftward => put_channel(alloc, place, Chan::Left(join(from, at), id, vals)),
    }
}

/// The token behind the arguments of `(name > ..)` or `(name < ..)` so far.
pub fn step_side(
    alloc: Global,
    kind: &TokenKind,
    at: Span,
    side: Side,
    from: Span,
    id: Id,
    vals: Vec<Val>,
    place: Place,
) -> Result<State, Fault>
    ensures { GivesState result (step_side kind.now at (side_of side) from id (vals_in vals) (place_of place)) }
{
    match kind {
        TokenKind::Sign(Sign::CloseParen) => close_side(alloc, at, side, from, id, vals, place),
        _ => {
            let place = Box::new(alloc, ValuePlace::Side(side, from, id, vals, place))?;
            begin_value(alloc, kind, at, place)
        }
    }
}

// The bracket closes behind a value: a block, or an application to no fields.
fn close_paren(
    alloc: Global,
    at: Span,
    val: Val,
    from: Span,
    decs: Vec<Dec>,
    place: Place,
) -> Result<State, Fault>
    ensures { GivesState result (close_paren at (val_of val) from (decs_in decs) (place_of place)) }
{
    let val = Box::new(alloc, val)?;
    if decs.is_empty() {
        let fields = FieldVals {
            type_arguments: Vec::new(alloc),
            positional: Vec::new(alloc),
            labelled: Vec::new(alloc),
        };
        let fields = Box::new(alloc, fields)?;
        put_channel(alloc, place, Chan::Apply(join(from, at), val, fields))
    } else {
        put_channel(alloc, place, Chan::Block(join(from, at), decs, val))
    }
}

// The token behind the head of an application, before which no declaration may stand.
fn step_first(
    alloc: Global,
    kind: &TokenKind,
    at: Span,
    val: Val,
    from: Span,
    decs: Vec<Dec>,
    place: Place,
) -> Result<State, Fault>
    ensures { GivesState result (step_first kind.now at (val_of val) from (decs_in decs) (place_of place)) }
{
    if decs.is_empty() {
        let place = Box::new(alloc, FieldsPlace::Apply(from, val, place))?;
        step_arguments(alloc, kind, at, place, Vec::new(alloc))
    } else {
        Err(Fault::Unexpected)
    }
}

// The token behind a value in parentheses and the declarations before it.
#[tactic(auto, using(pict_syntax::proofs::ValueLists::tree_lists), unfolding(pict_syntax::specs::PlainTrees::dec_of))]
fn step_paren(
    alloc: Global,
    kind: &TokenKind,
    at: Span,
    val: Val,
    from: Span,
    mut decs: Vec<Dec>,
    place: Place,
) -> Result<State, Fault>
    ensures { GivesState result (step_paren kind.now at (val_of val) from (decs_in decs) (place_of place)) }
{
    match kind {
        TokenKind::Sign(Sign::Semicolon) => {
            let span = join(val_span(&val), at);
            let val = Box::new(alloc, val)?;
            decs.push(Dec::Await(span, val))?;
            Ok(State::Need(parens(alloc, from, decs, place)?))
        }
        TokenKind::Sign(Sign::CloseParen) => close_paren(alloc, at, val, from, decs, place),
        _ => step_first(alloc, kind, at, val, from, decs, place),
    }
}

// The token behind a value outside all parentheses, which has to be `;`.
#[tactic(auto, using(pict_syntax::proofs::ValueLists::tree_lists), unfolding(pict_syntax::specs::PlainTrees::dec_of))]
fn step_top(
    alloc: Global,
    kind: &TokenKind,
    at: Span,
    val: Val,
    mut decs: Vec<Dec>,
) -> Result<State, Fault>
    ensures { GivesState result (step_top kind.now at (val_of val) (decs_in decs)) }
{
    match kind {
        TokenKind::Sign(Sign::Semicolon) => {
            let span = join(val_span(&val), at);
            let val = Box::new(alloc, val)?;
            decs.push(Dec::Await(span, val))?;
            let place = ValuePlace::Waiting(Wait::Top(decs));
            Ok(State::Need(Place::Value(Box::new(alloc, place)?)))
        }
        _ => Err(Fault::Unexpected),
    }
}

// The token behind the test of an `if`, which has to be `then`.
fn step_test(
    alloc: Global,
    kind: &TokenKind,
    val: Val,
    from: Span,
    place: Place,
) -> Result<State, Fault>
    ensures { GivesState result (step_test kind.now (val_of val) from (place_of place)) }
{
    match kind {
        TokenKind::Keyword(Keyword::Then) => Ok(State::Need(then_place(alloc, from, val, place)?)),
        _ => Err(Fault::Unexpected),
    }
}

// The token behind the value of a `then`, which has to be `else`.
fn step_then(
    alloc: Global,
    kind: &TokenKind,
    val: Val,
    from: Span,
    test: Val,
    place: ValuePlaces,
) -> Result<State, Fault>
    ensures { GivesState result (step_then kind.now (val_of val) from (val_of test) (values_place_of place)) }
{
    match kind {
        TokenKind::Keyword(Keyword::Else) => {
            let otherwise = ValuePlace::Else(from, test, val, place);
            Ok(State::Need(Place::Value(Box::new(alloc, otherwise)?)))
        }
        _ => Err(Fault::Unexpected),
    }
}

/// The token behind a whole value, where no process may stand.
pub fn step_wait(
    alloc: Global,
    kind: &TokenKind,
    at: Span,
    val: Val,
    wait: Wait,
) -> Result<State, Fault>
    ensures { GivesState result (step_wait kind.now at (val_of val) (wait_of wait)) }
{
    match wait {
        Wait::Top(decs) => step_top(alloc, kind, at, val, decs),
        Wait::Test(from, below) => step_test(alloc, kind, val, from, below),
        Wait::Then(from, test, below) => step_then(
            alloc,
            kind,
            val,
            from,
            test,
            ValuePlaces::Only(below),
        ),
        Wait::Paren(from, decs, below) => {
            step_paren(alloc, kind, at, val, from, decs, Place::Value(below))
        }
    }
}

/// The token behind a whole value, where a process may stand too.
pub fn step_either(
    alloc: Global,
    kind: &TokenKind,
    at: Span,
    val: Val,
    place: Box<EitherPlace>,
) -> Result<State, Fault>
    ensures { GivesState result (step_either kind.now at (val_of val) (either_place_of place.value)) }
{
    match Box::into_inner(place) {
        EitherPlace::Paren(from, decs, below) => {
            step_paren(alloc, kind, at, val, from, decs, of_processes(below))
        }
        EitherPlace::Then(from, test, below) => {
            step_then(alloc, kind, val, from, test, ValuePlaces::Either(below))
        }
    }
}

// The token behind a whole channel that is a value, where one may stand.
#[tactic(auto, unfolding(pict_syntax::specs::PlainTrees::dec_of))]
fn step_channel_value(
    alloc: Global,
    kind: &TokenKind,
    at: Span,
    chan: Chan,
    place: ProcessPlaces,
) -> Result<State, Fault>
    ensures { GivesState result (step_channel_value kind.now at (chan_of chan) (processes_place_of place)) }
{
    match place {
        ProcessPlaces::Only(_) => Err(Fault::Unexpected),
        ProcessPlaces::Either(place) => step_either(alloc, kind, at, Val::OfChan(chan), place),
    }
}

/// The token behind a whole channel where a process may stand: it sends, receives or is a value.
pub fn step_channel(
    alloc: Global,
    kind: &TokenKind,
    at: Span,
    chan: Chan,
    place: ProcessPlaces,
) -> Result<State, Fault>
    ensures { GivesState result (step_channel kind.now at (chan_of chan) (processes_place_of place)) }
{
    match kind {
        TokenKind::Sign(Sign::Bang) => {
            let place = Box::new(alloc, ValuePlace::Send(chan, place))?;
            Ok(State::Need(Place::Value(place)))
        }
        TokenKind::Sign(Sign::Question) => {
            let place = AbstractionPlace::Input(Ask::Once, chan, place);
            Ok(State::NeedAbstraction(Box::new(alloc, place)?))
        }
        TokenKind::Sign(Sign::QuestionStar) => {
            let place = AbstractionPlace::Input(Ask::Always, chan, place);
            Ok(State::NeedAbstraction(Box::new(alloc, place)?))
        }
        _ => step_channel_value(alloc, kind, at, chan, place),
    }
}

// The token behind `(name`, where the name is a value.
#[tactic(auto, using(pict_syntax::proofs::ValueLists::tree_lists), unfolding(pict_syntax::specs::PlainTrees::dec_of))]
fn step_used(
    alloc: Global,
    kind: &TokenKind,
    at: Span,
    from: Span,
    id: Id,
    place: Place,
) -> Result<State, Fault>
    ensures { GivesState result (step_used kind.now at from id (place_of place)) }
{
    let chan = Chan::Use(id.span, id.name);
    match place {
        Place::Value(place) => {
            let wait = Wait::Paren(from, Vec::new(alloc), place);
            step_wait(alloc, kind, at, Val::OfChan(chan), wait)
        }
        Place::Process(place) => {
            let place = EitherPlace::Paren(from, Vec::new(alloc), ProcessPlaces::Only(place));
            let place = Box::new(alloc, place)?;
            step_channel(alloc, kind, at, chan, ProcessPlaces::Either(place))
        }
        Place::Either(place) => {
            let place = EitherPlace::Paren(from, Vec::new(alloc), ProcessPlaces::Either(place));
            let place = Box::new(alloc, place)?;
            step_channel(alloc, kind, at, chan, ProcessPlaces::Either(place))
        }
    }
}

/// The token behind `(name`: `>` or `<` before arguments, or what makes the name a value.
#[tactic(auto, using(pict_syntax::proofs::ValueLists::tree_lists))]
pub fn step_fresh_name(
    alloc: Global,
    kind: &TokenKind,
    at: Span,
    from: Span,
    id: Id,
    place: Place,
) -> Result<State, Fault>
    ensures { GivesState result (step_fresh_name kind.now at from id (place_of place)) }
{
    match kind {
        TokenKind::Sign(Sign::Greater) => Ok(State::Arguments(
            Side::Rightward,
            from,
            id,
            Vec::new(alloc),
            place,
        )),
        TokenKind::Sign(Sign::Less) => Ok(State::Arguments(
            Side::Leftward,
            from,
            id,
            Vec::new(alloc),
            place,
        )),
        _ => step_used(alloc, kind, at, from, id, place),
    }
}

/// The token behind the process of a `then`, which has to be `else`.
pub fn step_process(
    alloc: Global,
    kind: &TokenKind,
    proc: Proc,
    from: Span,
    test: Val,
    place: ProcessPlaces,
) -> Result<State, Fault>
    ensures { GivesState result (step_process kind.now (proc_of proc) from (val_of test) (processes_place_of place)) }
{
    match kind {
        TokenKind::Keyword(Keyword::Else) => {
            let otherwise = ProcessPlace::Else(from, test, proc, place);
            Ok(State::Need(Place::Process(Box::new(alloc, otherwise)?)))
        }
        _ => Err(Fault::Unexpected),
    }
}

/// The token behind a process in parentheses: `|` before a further one, or `)`.
#[tactic(auto, using(pict_syntax::proofs::ValueLists::tree_lists))]
pub fn step_processes(
    alloc: Global,
    kind: &TokenKind,
    at: Span,
    from: Span,
    decs: Vec<Dec>,
    mut procs: Vec<Proc>,
    proc: Proc,
    place: ProcessPlaces,
) -> Result<State, Fault>
    ensures { GivesState result (step_processes kind.now at from (decs_in decs) (procs_in procs) (proc_of proc) (processes_place_of place)) }
{
    procs.push(proc)?;
    match kind {
        TokenKind::Sign(Sign::Bar) => {
            let place = Box::new(alloc, ProcessPlace::Bar(from, decs, procs, place))?;
            Ok(State::Need(Place::Process(place)))
        }
        TokenKind::Sign(Sign::CloseParen) => put_processes(
            alloc,
            place,
            Proc::Group(join(from, at), decs, procs),
        ),
        _ => Err(Fault::Unexpected),
    }
}
