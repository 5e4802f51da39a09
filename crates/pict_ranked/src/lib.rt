//! A list from which an item at any place is taken, or replaced, in logarithmic time.
#![tactic(auto)]

mod counts;
mod ranked;

pub use ranked::Ranked;
