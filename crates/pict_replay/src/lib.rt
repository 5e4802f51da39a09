//! Replays: choices and the lines of a trace, looked at again.
#![tactic(auto)]

mod choices;
mod file;
mod judging;
mod laws;
mod least;
mod same;
mod turn;

pub use choices::{Choice, ChoicesError, read_choices};
pub use file::{FileError, ReplayFile, read_file};
pub use judging::{Verdict, replay};
pub use laws::{
    law_choices_are_read_once, law_files_are_read_once, law_one_file, law_picked_agrees,
    law_picked_is_answered, law_replayed_agrees, law_some_choices, law_some_file, law_some_verdict,
    law_verdicts_are_one,
};
pub use pict_trace::{TraceLabel as Expect, TraceLine as Expected};
