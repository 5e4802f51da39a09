//! The commands of `pict`: what the words ask for, and the call that does it over a shelf and two sinks.
#![tactic(auto)]

mod form;
mod laws;
mod notes;
mod objects;
mod one_shelf;
mod origin;
mod picking;
mod print;
mod printer;
mod replaying;
mod run;
mod siting;
mod status;
mod top;
mod work;

pub use laws::{
    law_built_runs_as_text, law_load_needs_no_shelf, law_one_outcome, law_one_site_runs_as_text,
    law_picked_is_answered,
};
pub use one_shelf::OneShelf;
pub use pict_load::load_text;
pub use pict_report::prelude;
pub use pict_words::{Command, Options, Usage, words_of};
pub use status::Status;
pub use top::pict;
