//! All orders of a small process: the search for all that it can do, whichever ready process acts next, up to congruence.
#![tactic(auto)]

mod acting;
mod alike;
mod choice;
mod places;
mod search;
mod settling;
mod state;

pub use choice::Choice;
pub use search::{Exploration, Extent, Found, Trap, explore};
pub use state::State;
