//! Scopes: what each use of a name means, and the first place in reading order where a rule of scopes fails.
#![tactic(auto)]

mod error;
mod laws;
mod layer;
mod patterns;
mod places;
mod primitives;
mod reader;
mod resolving;
mod steps;
mod target;
mod types;
mod values;

pub use error::ScopeError;
pub use laws::{
    law_look_up, law_no_label_twice, law_one_scope_stop, law_parts_are_scoped, law_stands_once,
    law_uses_are_bound,
};
pub use primitives::primitive_named;
pub use resolving::resolve;
pub use target::{Scoped, Target};
