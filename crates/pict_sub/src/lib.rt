//! Subtyping, decided exactly, and types with the bounds of variables followed.
#![tactic(auto)]

mod equality;
mod exposing;
mod laws;
mod scope;
mod shape;
mod subtyping;

pub use equality::equal;
pub use exposing::{expose, expose_in};
pub use laws::{
    law_applied_by_arguments, law_channels_by_messages, law_exposes_above, law_exposes_below,
    law_exposes_to_one, law_records_by_parts, law_recursive_only_equal, law_substitution,
    law_subtyping_is_decided, law_weakening,
};
pub use pict_types::equal_marks;
pub use scope::TypeScope;
pub use subtyping::{is_subtype, subtype};
