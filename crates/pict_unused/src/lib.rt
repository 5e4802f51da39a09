//! What is certain of the names of a program whose scopes are known: which is never used, on which channel nobody receives, and on
//! which nobody sends.
//!
//! Only what the text alone decides is told: `new` makes a channel that nobody knows but by its name, so one whose name stands as
//! the channel of outputs and in calls alone is never received on, in whatever order the steps are made.
#![tactic(auto)]

mod certain;
mod item;
mod items;
mod laws;
mod patterns;
mod summing;

pub use certain::{Hint, Said, hints};
pub use item::{Form, Item, Role};
pub use laws::{law_items_are_marks, law_only_certain_is_said};
