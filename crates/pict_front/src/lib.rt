//! The phases before a run in their order: texts are gathered, by tokens, grammar and imports; then scopes, types, translation.
//! The first refusal ends the work.
#![tactic(auto)]

mod accepted;
mod laws;
mod phases;
mod refusal;

pub use accepted::Front;
pub use laws::{
    law_accepted_has_object, law_accepted_is_ordered, law_accepted_is_read_back,
    law_accepted_is_typed, law_one_front, law_refused_is_placed,
};
pub use phases::front;
pub use refusal::FrontError;
