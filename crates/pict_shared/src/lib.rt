//! Processes that configurations share, and whether two lists of them are the same once channels are renamed, in another order.
#![tactic(auto)]

mod alike;
mod guess;
mod held;
mod same;
mod shaped;

pub use alike::{are_inverse, are_rearranged};
pub use guess::{Guess, guess_names, names_between};
pub use held::{Held, copy_all, is_partner, with_process};
pub use same::{renamed, same_core};
pub use shaped::{Shaped, mix};
