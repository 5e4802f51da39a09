// The places that parentheses, `then` and declarations open.

ghost use Rattle.std.specs.Prelude.{◌≡◌};
ghost use Rattle.pict_syntax.specs.PlainTrees.{dec_of, val_of};
ghost use Rattle.pict_automaton.specs.Machine.{of_processes, of_values, parens, then_place, after_declaration, put_declaration};
ghost use Rattle.pict_parse_states.specs.View.{decs_in, GivesState, GivesPlace, place_of, processes_place_of, values_place_of, declaration_place_of};

use crate::places::{
    DeclarationPlace, EitherPlace, Place, ProcessPlace, ProcessPlaces, ValuePlace, ValuePlaces,
    Wait,
};
use crate::states::{Fault, State};
use pict_syntax::{Dec, Span, Val};
use std::alloc::Global;

/// A place where a process may come, as a place of any kind.
pub fn of_processes(place: ProcessPlaces) -> Place
    ensures { place_of result ≡ of_processes (processes_place_of place) }
{
    match place {
        ProcessPlaces::Only(place) => Place::Process(place),
        ProcessPlaces::Either(place) => Place::Either(place),
    }
}

/// A place where a value may come, as a place of any kind.
pub fn of_values(place: ValuePlaces) -> Place
    ensures { place_of result ≡ of_values (values_place_of place) }
{
    match place {
        ValuePlaces::Only(place) => Place::Value(place),
        ValuePlaces::Either(place) => Place::Either(place),
    }
}

/// The place in parentheses that stand at a place, behind declarations.
pub fn parens(alloc: Global, opened: Span, decs: Vec<Dec>, place: Place) -> Result<Place, Fault>
    ensures { GivesPlace result (parens opened (decs_in decs) (place_of place)) }
{
    match place {
        Place::Value(place) => {
            let place = ValuePlace::Waiting(Wait::Paren(opened, decs, place));
            Ok(Place::Value(Box::new(alloc, place)?))
        }
        Place::Process(place) => {
            let place = EitherPlace::Paren(opened, decs, ProcessPlaces::Only(place));
            Ok(Place::Either(Box::new(alloc, place)?))
        }
        Place::Either(place) => {
            let place = EitherPlace::Paren(opened, decs, ProcessPlaces::Either(place));
            Ok(Place::Either(Box::new(alloc, place)?))
        }
    }
}

/// The place behind `then`.
pub fn then_place(alloc: Global, from: Span, test: Val, place: Place) -> Result<Place, Fault>
    ensures { GivesPlace result (then_place from (val_of test) (place_of place)) }
{
    match place {
        Place::Value(place) => {
            let place = ValuePlace::Waiting(Wait::Then(from, test, place));
            Ok(Place::Value(Box::new(alloc, place)?))
        }
        Place::Process(place) => {
            let place = ProcessPlace::Then(from, test, place);
            Ok(Place::Process(Box::new(alloc, place)?))
        }
        Place::Either(place) => {
            let place = EitherPlace::Then(from, test, place);
            Ok(Place::Either(Box::new(alloc, place)?))
        }
    }
}

/// The place behind a declaration.
#[tactic(auto, using(pict_syntax::proofs::DeclarationLists::declaration_lists))]
pub fn after_declaration(alloc: Global, dec: Dec, place: DeclarationPlace) -> Result<Place, Fault>
    ensures { GivesPlace result (after_declaration (dec_of dec) (declaration_place_of place)) }
{
    match place {
        DeclarationPlace::Top(mut decs) => {
            decs.push(dec)?;
            let place = ValuePlace::Waiting(Wait::Top(decs));
            Ok(Place::Value(Box::new(alloc, place)?))
        }
        DeclarationPlace::Paren(opened, mut decs, place) => {
            decs.push(dec)?;
            parens(alloc, opened, decs, place)
        }
    }
}

/// A declaration is put where it stands.
pub fn put_declaration(alloc: Global, dec: Dec, place: DeclarationPlace) -> Result<State, Fault>
    ensures { GivesState result (put_declaration (dec_of dec) (declaration_place_of place)) }
{
    match after_declaration(alloc, dec, place) {
        Ok(place) => Ok(State::Need(place)),
        Err(_) => Err(Fault::Memory),
    }
}
