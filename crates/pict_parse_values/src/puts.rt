// Whole declarations, abstractions, processes and values are put where they stand.
#![tactic(auto, using(pict_syntax::proofs::ValueLists::tree_lists), unfolding(pict_syntax::specs::PlainTrees::type_of, pict_syntax::specs::PlainTrees::pat_of, pict_syntax::specs::PlainTrees::dec_of))]

ghost use Rattle.pict_syntax.specs.PlainTrees.{abs_of, chan_of, val_of, proc_of};
ghost use Rattle.pict_automaton.specs.Machine.{put_abstraction, put_process, put_processes, put_value, put_values, put_channel};
ghost use Rattle.pict_parse_states.specs.View.{value_place_of, process_place_of, processes_place_of, values_place_of, place_of, abstraction_place_of, GivesState};

use pict_parse_states::{
    AbstractionPlace, Ask, EitherPlace, Fault, Place, ProcessPlace, ProcessPlaces, State,
    ValuePlace, ValuePlaces, put_declaration,
};
use pict_syntax::{
    Abs, Chan, Dec, LabelledVal, Proc, Val, abs_span, chan_span, join, pat_span, proc_span,
    val_span,
};
use std::alloc::Global;

/// A whole abstraction is put at its place.
#[cycle(put)]
pub fn put_abstraction(
    alloc: Global,
    place: Box<AbstractionPlace>,
    abs: Abs,
) -> Result<State, Fault>
    ensures { GivesState result (put_abstraction (abs_of abs) (abstraction_place_of place.value)) }
{
    match Box::into_inner(place) {
        AbstractionPlace::Definition(from, definitions, id, below) => {
            Ok(State::HaveDefinition(from, definitions, id, abs, below))
        }
        AbstractionPlace::Lambda(from, below) => {
            let span = join(from, abs_span(&abs));
            let abs = Box::new(alloc, abs)?;
            put_values(alloc, below, Val::Lambda(span, abs))
        }
        AbstractionPlace::Input(ask, chan, below) => {
            let span = join(chan_span(&chan), abs_span(&abs));
            let chan = Box::new(alloc, chan)?;
            let abs = Box::new(alloc, abs)?;
            match ask {
                Ask::Once => put_processes(alloc, below, Proc::Receive(span, chan, abs)),
                Ask::Always => put_processes(alloc, below, Proc::Serve(span, chan, abs)),
            }
        }
    }
}

/// A whole process is put at its place.
#[cycle(put)]
pub fn put_process(alloc: Global, place: Box<ProcessPlace>, proc: Proc) -> Result<State, Fault>
    ensures { GivesState result (put_process (proc_of proc) (process_place_of place.value)) }
{
    match Box::into_inner(place) {
        ProcessPlace::Run(from, below) => {
            let span = join(from, proc_span(&proc));
            let proc = Box::new(alloc, proc)?;
            put_declaration(alloc, Dec::Run(span, proc), below)
        }
        ProcessPlace::Process(pat, below) => {
            let span = join(pat_span(&pat), proc_span(&proc));
            let proc = Box::new(alloc, proc)?;
            put_abstraction(alloc, below, Abs::Process(span, pat, proc))
        }
        ProcessPlace::Else(from, test, chosen, below) => {
            let span = join(from, proc_span(&proc));
            let test = Box::new(alloc, test)?;
            let chosen = Box::new(alloc, chosen)?;
            let proc = Box::new(alloc, proc)?;
            put_processes(alloc, below, Proc::If(span, test, chosen, proc))
        }
        ProcessPlace::Bar(from, decs, procs, below) => {
            Ok(State::HaveProcesses(from, decs, procs, proc, below))
        }
        ProcessPlace::Then(from, test, below) => {
            Ok(State::HaveProcess(proc, from, test, ProcessPlaces::Only(below)))
        }
    }
}

/// A whole process is put where a process may come.
#[cycle(put)]
pub fn put_processes(alloc: Global, place: ProcessPlaces, proc: Proc) -> Result<State, Fault>
    ensures { GivesState result (put_processes (proc_of proc) (processes_place_of place)) }
{
    match place {
        ProcessPlaces::Only(place) => put_process(alloc, place, proc),
        ProcessPlaces::Either(place) => match Box::into_inner(place) {
            EitherPlace::Paren(from, decs, below) => {
                Ok(State::HaveProcesses(from, decs, Vec::new(alloc), proc, below))
            }
            EitherPlace::Then(from, test, below) => {
                Ok(State::HaveProcess(proc, from, test, ProcessPlaces::Either(below)))
            }
        }
    }
}

/// A whole value, of which no more is to come, is put at its place.
#[cycle(put)]
pub fn put_value(alloc: Global, place: Box<ValuePlace>, val: Val) -> Result<State, Fault>
    ensures { GivesState result (put_value (val_of val) (value_place_of place.value)) }
{
    put_unboxed(alloc, Box::into_inner(place), val)
}

// A whole value, of which no more is to come, is put at a place that stands in no box.
#[cycle(put)]
pub(crate) fn put_unboxed(alloc: Global, place: ValuePlace, val: Val) -> Result<State, Fault>
    ensures { GivesState result (put_value (val_of val) (value_place_of place)) }
{
    match place {
        ValuePlace::Let(from, pat, below) => {
            let span = join(from, val_span(&val));
            let val = Box::new(alloc, val)?;
            put_declaration(alloc, Dec::Let(span, pat, val), below)
        }
        ValuePlace::Function(from, fields, annotation, below) => {
            let span = join(from, val_span(&val));
            let fields = Box::new(alloc, fields)?;
            let val = Box::new(alloc, val)?;
            put_abstraction(alloc, below, Abs::Function(span, fields, annotation, val))
        }
        ValuePlace::Send(chan, below) => {
            let span = join(chan_span(&chan), val_span(&val));
            let chan = Box::new(alloc, chan)?;
            let val = Box::new(alloc, val)?;
            put_processes(alloc, below, Proc::Send(span, chan, val))
        }
        ValuePlace::Side(side, from, id, mut vals, below) => {
            vals.push(val)?;
            Ok(State::Arguments(side, from, id, vals, below))
        }
        ValuePlace::Field(below, types, mut vals) => {
            vals.push(val)?;
            Ok(State::AfterValues(below, types, vals))
        }
        ValuePlace::Label(below, types, vals, mut labels, label) => {
            labels.push(LabelledVal { label, value: val })?;
            Ok(State::AfterLabels(below, types, vals, labels))
        }
        ValuePlace::Fold(from, annotation, below) => {
            Ok(State::FoldBody(from, annotation, val, below))
        }
        ValuePlace::Else(from, test, chosen, below) => {
            let span = join(from, val_span(&val));
            let test = Box::new(alloc, test)?;
            let chosen = Box::new(alloc, chosen)?;
            let val = Box::new(alloc, val)?;
            put_values(alloc, below, Val::If(span, test, chosen, val))
        }
        ValuePlace::Waiting(wait) => Ok(State::HaveValue(val, wait)),
    }
}

/// A whole value, of which no more is to come, is put where a value may come.
#[cycle(put)]
pub fn put_values(alloc: Global, place: ValuePlaces, val: Val) -> Result<State, Fault>
    ensures { GivesState result (put_values (val_of val) (values_place_of place)) }
{
    match place {
        ValuePlaces::Only(place) => put_value(alloc, place, val),
        ValuePlaces::Either(place) => Ok(State::HaveEither(val, place)),
    }
}

/// A value that may be a channel is put at its place.
pub fn put_channel(alloc: Global, place: Place, chan: Chan) -> Result<State, Fault>
    ensures { GivesState result (put_channel (chan_of chan) (place_of place)) }
{
    match place {
        Place::Value(place) => put_value(alloc, place, Val::OfChan(chan)),
        Place::Process(place) => Ok(State::HaveChannel(chan, ProcessPlaces::Only(place))),
        Place::Either(place) => Ok(State::HaveChannel(chan, ProcessPlaces::Either(place))),
    }
}
