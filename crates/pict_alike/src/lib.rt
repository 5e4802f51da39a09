//! Types that are written with other bound names, or with their labels in another order, are equal.
#![tactic(auto)]

mod laws;

pub use laws::law_alike_is_equal;
