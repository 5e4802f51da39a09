//! The states of the parser: the constructs that are open, what is awaited, and how many constructs are open.
#![tactic(auto)]

mod opened;
mod places;
mod states;
mod within;

pub use opened::{after_declaration, of_processes, of_values, parens, put_declaration, then_place};
pub use places::{
    AbstractionPlace, Ask, BinderPlace, BinderPlaceIn, DeclarationPlace, EitherPlace,
    FieldPatternsPlace, FieldPatternsPlaceIn, FieldsPlace, PatternPlace, PatternPlaceIn, Place,
    Prefix, ProcessPlace, ProcessPlaces, Side, TypePlace, TypePlaceIn, ValuePlace, ValuePlaces,
    Wait,
};
pub use states::{Fault, State};
pub use within::is_within;
