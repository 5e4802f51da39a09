//! What may follow the tokens of a text, asked of the parser itself.
#![tactic(auto)]

mod class;
mod follow;
mod laws;
mod verdict;

pub use class::Class;
pub use follow::could_stand;
pub use laws::law_kinds_decide;
pub use verdict::{are_whole, can_go_on};
