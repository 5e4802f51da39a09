//! Omitted type arguments: a wanted type matched against the type that is given, to find arguments for type fields.
#![tactic(auto)]

mod found;
mod matching;

pub use found::Found;
pub use matching::match_type;
