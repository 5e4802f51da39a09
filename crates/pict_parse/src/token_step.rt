// One token is read.

ghost use Rattle.pict_automaton.specs.Machine.{step};
ghost use Rattle.pict_parse_states.specs.View.{GivesState, parse_state};

use pict_parse_binding::{
    begin_pattern, begin_type, step_abstraction_open, step_abstraction_parameters,
    step_abstraction_pattern, step_abstraction_result, step_alias_name, step_any, step_bind,
    step_binder_kind, step_binder_name, step_binders, step_definition_keyword, step_hash,
    step_kind_arguments, step_kind_arrow, step_kind_mark, step_kind_result, step_let_pattern,
    step_need_abstraction, step_need_kind, step_new_keyword, step_new_name,
    step_operator_arguments, step_operator_closed, step_operator_open, step_operator_parameters,
    step_pattern_folded, step_pattern_label, step_pattern_labels, step_pattern_name,
    step_pattern_open, step_pattern_rec, step_patterns, step_rec_body, step_rec_keyword,
    step_rec_name, step_type_binders, step_type_keyword, step_type_label, step_type_labels,
    step_type_name, step_type_open, step_types,
};
use pict_parse_states::{Fault, State};
use pict_parse_values::{
    step_arguments, step_channel, step_either, step_fold_body, step_fold_keyword, step_fresh_name,
    step_have_definition, step_labels, step_need, step_process, step_processes, step_side,
    step_value_label, step_value_name, step_values, step_wait,
};
use pict_syntax::Token;
use std::alloc::Global;

/// The state behind this token. `Unexpected` says that the token fits nothing that is open, and `Memory` is want of memory.
pub fn step(alloc: Global, token: &Token, state: State) -> Result<State, Fault>
    ensures { GivesState result (step token.now.kind token.now.span (parse_state state)) }
{
    let kind = &token.kind;
    let at = token.span;
    match state {
        State::Need(place) => step_need(alloc, kind, at, place),
        State::FreshName(from, id, place) => step_fresh_name(alloc, kind, at, from, id, place),
        State::Arguments(side, from, id, vals, place) => step_side(
            alloc, kind, at, side, from, id, vals, place,
        ),
        State::HaveChannel(chan, place) => step_channel(alloc, kind, at, chan, place),
        State::HaveValue(val, wait) => step_wait(alloc, kind, at, val, wait),
        State::HaveEither(val, place) => step_either(alloc, kind, at, val, place),
        State::HaveProcess(proc, from, test, place) => step_process(
            alloc, kind, proc, from, test, place,
        ),
        State::HaveProcesses(from, decs, procs, proc, place) => step_processes(
            alloc, kind, at, from, decs, procs, proc, place,
        ),
        State::NewKeyword(from, place) => step_new_keyword(kind, at, from, place),
        State::NewName(from, id, place) => step_new_name(alloc, kind, at, from, id, place),
        State::LetPattern(from, pat, place) => step_let_pattern(alloc, kind, at, from, pat, place),
        State::DefinitionKeyword(from, definitions, place) => step_definition_keyword(
            alloc,
            kind,
            at,
            from,
            definitions,
            place,
        ),
        State::HaveDefinition(from, definitions, id, abs, place) => step_have_definition(
            alloc,
            kind,
            at,
            from,
            definitions,
            id,
            abs,
            place,
        ),
        State::TypeKeyword(from, place) => step_type_keyword(kind, at, from, place),
        State::AliasName(from, id, place) => step_alias_name(alloc, kind, at, from, id, place),
        State::OperatorOpen(from, place) => step_operator_open(alloc, kind, at, from, place),
        State::OperatorParameters(from, id, params, place) => step_operator_parameters(
            kind, at, from, id, params, place,
        ),
        State::OperatorClosed(from, id, params, place) => step_operator_closed(
            alloc, kind, at, from, id, params, place,
        ),
        State::NeedAbstraction(place) => step_need_abstraction(alloc, kind, at, place),
        State::AbstractionOpen(from, place) => step_abstraction_open(alloc, kind, at, from, place),
        State::AbstractionPattern(pat, place) => step_abstraction_pattern(
            alloc, kind, at, pat, place,
        ),
        State::AbstractionParameters(from, fields, place) => step_abstraction_parameters(
            alloc, kind, at, from, fields, place,
        ),
        State::AbstractionResult(from, fields, tree, place) => step_abstraction_result(
            alloc, kind, at, from, fields, tree, place,
        ),
        State::NeedPattern(place) => begin_pattern(alloc, kind, at, place),
        State::PatternOpen(from, place) => step_pattern_open(kind, at, from, place),
        State::PatternRec(from, place) => step_pattern_rec(alloc, kind, at, from, place),
        State::PatternFolded(from, annotation, pat, place) => step_pattern_folded(
            alloc, kind, at, from, annotation, pat, place,
        ),
        State::HaveBind(id, place) => step_bind(alloc, kind, at, id, place),
        State::HaveAny(from, place) => step_any(alloc, kind, at, from, place),
        State::AfterBinders(place, binders) => step_binders(alloc, kind, at, place, binders),
        State::AfterPatterns(place, binders, pats) => step_patterns(
            alloc, kind, at, place, binders, pats,
        ),
        State::PatternName(place, binders, pats, id) => step_pattern_name(
            alloc, kind, at, place, binders, pats, id,
        ),
        State::AfterPatternLabels(place, binders, pats, labels) => step_pattern_labels(
            alloc, kind, at, place, binders, pats, labels,
        ),
        State::PatternLabel(place, binders, pats, labels, id) => step_pattern_label(
            alloc, kind, at, place, binders, pats, labels, id,
        ),
        State::BinderHash(hash, place) => step_hash(kind, at, hash, place),
        State::BinderName(hash, id, place) => step_binder_name(alloc, kind, at, hash, id, place),
        State::NeedKind(hash, id, place) => step_need_kind(alloc, kind, at, hash, id, place),
        State::KindArguments(hash, id, marks, place) => step_kind_arguments(
            kind, at, hash, id, marks, place,
        ),
        State::KindMark(hash, id, marks, mark, place) => step_kind_mark(
            kind, at, hash, id, marks, mark, place,
        ),
        State::KindArrow(hash, id, marks, place) => step_kind_arrow(
            kind, at, hash, id, marks, place,
        ),
        State::KindResult(hash, id, marks, place) => step_kind_result(
            kind, at, hash, id, marks, place,
        ),
        State::BinderKind(hash, id, written, end, place) => step_binder_kind(
            alloc, kind, at, hash, id, written, end, place,
        ),
        State::NeedType(place) => begin_type(alloc, kind, at, place),
        State::TypeOpen(from, place) => step_type_open(alloc, kind, at, from, place),
        State::RecKeyword(from, place) => step_rec_keyword(kind, at, from, place),
        State::RecName(from, id, place) => step_rec_name(alloc, kind, at, from, id, place),
        State::RecBody(from, id, body, place) => step_rec_body(
            alloc, kind, at, from, id, body, place,
        ),
        State::OperatorArguments(from, id, types, place) => step_operator_arguments(
            alloc, kind, at, from, id, types, place,
        ),
        State::AfterTypeBinders(from, binders, place) => step_type_binders(
            alloc, kind, at, from, binders, place,
        ),
        State::AfterTypes(from, binders, types, place) => step_types(
            alloc, kind, at, from, binders, types, place,
        ),
        State::TypeName(from, binders, types, id, place) => step_type_name(
            alloc, kind, at, from, binders, types, id, place,
        ),
        State::AfterTypeLabels(from, binders, types, labels, place) => {
            step_type_labels(alloc, kind, at, from, binders, types, labels, place)
        }
        State::TypeLabel(from, binders, types, labels, id, place) => {
            step_type_label(alloc, kind, at, from, binders, types, labels, id, place)
        }
        State::FoldKeyword(from, place) => step_fold_keyword(alloc, kind, at, from, place),
        State::FoldBody(from, annotation, val, place) => step_fold_body(
            alloc, kind, at, from, annotation, val, place,
        ),
        State::AfterArguments(place, types) => step_arguments(alloc, kind, at, place, types),
        State::AfterValues(place, types, vals) => step_values(alloc, kind, at, place, types, vals),
        State::ValueName(place, types, vals, id) => step_value_name(
            alloc, kind, at, place, types, vals, id,
        ),
        State::AfterLabels(place, types, vals, labels) => step_labels(
            alloc, kind, at, place, types, vals, labels,
        ),
        State::ValueLabel(place, types, vals, labels, id) => step_value_label(
            alloc, kind, at, place, types, vals, labels, id,
        ),
    }
}
