//! The words after the program's name, and what they ask for.
#![tactic(auto)]

mod replaying;
mod siting;
mod words;

pub use words::{Command, DEFAULT_FUEL, Options, SITE_LIMIT, Usage, law_one_command, words_of};
