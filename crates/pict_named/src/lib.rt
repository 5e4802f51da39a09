//! The target of each use is the nearest binder of its name whose scope, said by the form of the tree, holds the use.
#![tactic(auto)]

mod laws;

pub use laws::{law_type_targets_are_nearest, law_value_targets_are_nearest, law_worked_scopes};
