// Whether the constructs that are open are at most so many. Each call walks down the places until it has counted more
// than the limit, so it takes time in proportion to the limit at most.

ghost use Rattle.std.specs.Prelude.{◌≡◌, nat_le};
ghost use Rattle.pict_automaton.specs.Depth.{value_depth, wait_depth, process_depth, either_depth, processes_depth, values_depth, place_depth, declaration_depth, abstraction_depth, fields_depth, pattern_depth, patterns_depth, type_depth, binder_depth, depth};
ghost use Rattle.pict_parse_states.specs.View.{value_place_of, wait_of, process_place_of, either_place_of, processes_place_of, values_place_of, place_of, declaration_place_of, abstraction_place_of, fields_place_of, pattern_place_of, patterns_place_of, type_place_of, binder_place_of, parse_state};

use crate::places::{
    AbstractionPlace, BinderPlace, DeclarationPlace, EitherPlace, FieldPatternsPlace, FieldsPlace,
    PatternPlace, Place, ProcessPlace, ProcessPlaces, TypePlace, ValuePlace, ValuePlaces, Wait,
};
use crate::states::State;

/// Whether at most `limit` constructs are open in the state.
pub fn is_within(state: &State, limit: u32) -> bool
    ensures { result ≡ nat_le (depth (parse_state state.now)) limit }
{
    match state {
        State::Need(place) => place_within(place, limit),
        State::FreshName(.., place)
        | State::Arguments(.., place)
        | State::FoldKeyword(.., place)
        | State::FoldBody(.., place) => limit > 0 && place_within(place, limit - 1),
        State::HaveChannel(.., place) => procs_within(place, limit),
        State::HaveValue(.., place) => wait_within(place, limit),
        State::HaveEither(.., place) => either_within(place, limit),
        State::HaveProcess(.., place) | State::HaveProcesses(.., place) => limit > 0
            && procs_within(place, limit - 1),
        State::NewKeyword(.., place)
        | State::NewName(.., place)
        | State::LetPattern(.., place)
        | State::DefinitionKeyword(.., place)
        | State::HaveDefinition(.., place)
        | State::TypeKeyword(.., place)
        | State::AliasName(.., place)
        | State::OperatorClosed(.., place) => dec_within(place, limit),
        State::OperatorOpen(.., place) | State::OperatorParameters(.., place) => limit > 0
            && dec_within(place, limit - 1),
        State::NeedAbstraction(place) => abs_within(place, limit),
        State::AbstractionOpen(.., place) => limit > 1 && abs_within(place, limit - 2),
        State::AbstractionPattern(.., place)
        | State::AbstractionParameters(.., place)
        | State::AbstractionResult(.., place) => limit > 0 && abs_within(place, limit - 1),
        State::NeedPattern(place) | State::HaveBind(.., place) | State::HaveAny(.., place) =>
            pat_within(place, limit),
        State::PatternOpen(.., place)
        | State::PatternRec(.., place)
        | State::PatternFolded(.., place) => limit > 0 && pat_within(place, limit - 1),
        State::AfterBinders(place, ..)
        | State::AfterPatterns(place, ..)
        | State::PatternName(place, ..)
        | State::AfterPatternLabels(place, ..)
        | State::PatternLabel(place, ..) => pats_within(place, limit),
        State::BinderHash(.., place)
        | State::BinderName(.., place)
        | State::NeedKind(.., place)
        | State::BinderKind(.., place) => binder_within(place, limit),
        State::KindArguments(.., place)
        | State::KindMark(.., place)
        | State::KindArrow(.., place)
        | State::KindResult(.., place) => limit > 0 && binder_within(place, limit - 1),
        State::NeedType(place) => type_within(place, limit),
        State::TypeOpen(.., place)
        | State::RecKeyword(.., place)
        | State::RecName(.., place)
        | State::RecBody(.., place)
        | State::OperatorArguments(.., place)
        | State::AfterTypeBinders(.., place)
        | State::AfterTypes(.., place)
        | State::TypeName(.., place)
        | State::AfterTypeLabels(.., place)
        | State::TypeLabel(.., place) => limit > 0 && type_within(place, limit - 1),
        State::AfterArguments(place, ..)
        | State::AfterValues(place, ..)
        | State::ValueName(place, ..)
        | State::AfterLabels(place, ..)
        | State::ValueLabel(place, ..) => fields_within(place, limit),
    }
}

#[cycle(vals)]
fn val_within(place: &ValuePlace, limit: u32) -> bool
    ensures { result ≡ nat_le (value_depth (value_place_of place.now)) limit }
{
    match place {
        ValuePlace::Let(.., place) => dec_within(place, limit),
        ValuePlace::Function(.., place) => limit > 0 && abs_within(place, limit - 1),
        ValuePlace::Send(.., place) => procs_within(place, limit),
        ValuePlace::Side(.., place) | ValuePlace::Fold(.., place) => limit > 0
            && place_within(place, limit - 1),
        ValuePlace::Field(place, ..) | ValuePlace::Label(place, ..) => fields_within(place, limit),
        ValuePlace::Else(.., place) => limit > 0 && vals_within(place, limit - 1),
        ValuePlace::Waiting(place) => wait_within(place, limit),
    }
}

#[cycle(vals)]
fn wait_within(place: &Wait, limit: u32) -> bool
    ensures { result ≡ nat_le (wait_depth (wait_of place.now)) limit }
{
    match place {
        Wait::Top(..) => true,
        Wait::Test(.., place) => limit > 0 && place_within(place, limit - 1),
        Wait::Then(.., place) | Wait::Paren(.., place) => limit > 0 && val_within(place, limit - 1),
    }
}

#[cycle(vals)]
fn proc_within(place: &ProcessPlace, limit: u32) -> bool
    ensures { result ≡ nat_le (process_depth (process_place_of place.now)) limit }
{
    match place {
        ProcessPlace::Run(.., place) => dec_within(place, limit),
        ProcessPlace::Process(.., place) => limit > 0 && abs_within(place, limit - 1),
        ProcessPlace::Else(.., place) | ProcessPlace::Bar(.., place) => limit > 0
            && procs_within(place, limit - 1),
        ProcessPlace::Then(.., place) => limit > 0 && proc_within(place, limit - 1),
    }
}

#[cycle(vals)]
fn either_within(place: &EitherPlace, limit: u32) -> bool
    ensures { result ≡ nat_le (either_depth (either_place_of place.now)) limit }
{
    match place {
        EitherPlace::Paren(.., place) => limit > 0 && procs_within(place, limit - 1),
        EitherPlace::Then(.., place) => limit > 0 && either_within(place, limit - 1),
    }
}

#[cycle(vals)]
fn procs_within(place: &ProcessPlaces, limit: u32) -> bool
    ensures { result ≡ nat_le (processes_depth (processes_place_of place.now)) limit }
{
    match place {
        ProcessPlaces::Only(place) => proc_within(place, limit),
        ProcessPlaces::Either(place) => either_within(place, limit),
    }
}

#[cycle(vals)]
fn vals_within(place: &ValuePlaces, limit: u32) -> bool
    ensures { result ≡ nat_le (values_depth (values_place_of place.now)) limit }
{
    match place {
        ValuePlaces::Only(place) => val_within(place, limit),
        ValuePlaces::Either(place) => either_within(place, limit),
    }
}

#[cycle(vals)]
fn place_within(place: &Place, limit: u32) -> bool
    ensures { result ≡ nat_le (place_depth (place_of place.now)) limit }
{
    match place {
        Place::Value(place) => val_within(place, limit),
        Place::Process(place) => proc_within(place, limit),
        Place::Either(place) => either_within(place, limit),
    }
}

#[cycle(vals)]
fn dec_within(place: &DeclarationPlace, limit: u32) -> bool
    ensures { result ≡ nat_le (declaration_depth (declaration_place_of place.now)) limit }
{
    match place {
        DeclarationPlace::Top(..) => true,
        DeclarationPlace::Paren(.., place) => limit > 0 && place_within(place, limit - 1),
    }
}

#[cycle(vals)]
fn abs_within(place: &AbstractionPlace, limit: u32) -> bool
    ensures { result ≡ nat_le (abstraction_depth (abstraction_place_of place.now)) limit }
{
    match place {
        AbstractionPlace::Definition(.., place) => dec_within(place, limit),
        AbstractionPlace::Lambda(.., place) => vals_within(place, limit),
        AbstractionPlace::Input(.., place) => procs_within(place, limit),
    }
}

#[cycle(vals)]
fn fields_within(place: &FieldsPlace, limit: u32) -> bool
    ensures { result ≡ nat_le (fields_depth (fields_place_of place.now)) limit }
{
    match place {
        FieldsPlace::Record(.., place) => limit > 0 && vals_within(place, limit - 1),
        FieldsPlace::Apply(.., place) => limit > 0 && place_within(place, limit - 1),
    }
}

#[cycle(pats)]
fn pat_within(place: &PatternPlace, limit: u32) -> bool
    ensures { result ≡ nat_le (pattern_depth (pattern_place_of place.now)) limit }
{
    match place {
        PatternPlace::Let(.., place) => dec_within(place, limit),
        PatternPlace::Abstraction(place) => limit > 0 && abs_within(place, limit - 1),
        PatternPlace::Fold(.., place) => limit > 0 && pat_within(place, limit - 1),
        PatternPlace::Field(place, ..) | PatternPlace::Label(place, ..) => pats_within(
            place, limit,
        ),
    }
}

#[cycle(pats)]
fn pats_within(place: &FieldPatternsPlace, limit: u32) -> bool
    ensures { result ≡ nat_le (patterns_depth (patterns_place_of place.now)) limit }
{
    match place {
        FieldPatternsPlace::Record(.., place) => limit > 0 && pat_within(place, limit - 1),
        FieldPatternsPlace::Parameters(.., place) => limit > 1 && abs_within(place, limit - 2),
    }
}

#[cycle(types)]
fn type_within(place: &TypePlace, limit: u32) -> bool
    ensures { result ≡ nat_le (type_depth (type_place_of place.now)) limit }
{
    match place {
        TypePlace::New(.., place) | TypePlace::Alias(.., place) | TypePlace::Operator(.., place) =>
            dec_within(place, limit),
        TypePlace::Bind(.., place) | TypePlace::Any(.., place) => pat_within(place, limit),
        TypePlace::Result(.., place) => limit > 0 && abs_within(place, limit - 1),
        TypePlace::PatternFold(.., place) => limit > 0 && pat_within(place, limit - 1),
        TypePlace::Fold(.., place) => limit > 0 && place_within(place, limit - 1),
        TypePlace::Bound(.., place) => binder_within(place, limit),
        TypePlace::Prefix(.., place)
        | TypePlace::Field(.., place)
        | TypePlace::Label(.., place)
        | TypePlace::Apply(.., place)
        | TypePlace::Rec(.., place) => limit > 0 && type_within(place, limit - 1),
        TypePlace::Argument(place, ..) => fields_within(place, limit),
    }
}

#[cycle(types)]
fn binder_within(place: &BinderPlace, limit: u32) -> bool
    ensures { result ≡ nat_le (binder_depth (binder_place_of place.now)) limit }
{
    match place {
        BinderPlace::Patterns(place, ..) => pats_within(place, limit),
        BinderPlace::Types(.., place) => limit > 0 && type_within(place, limit - 1),
    }
}
