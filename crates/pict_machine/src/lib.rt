//! The machine in blocks: it runs the code of closed core processes step by step, the oldest ready process first.
#![tactic(auto)]

mod event;
mod laws;
mod loading;
mod machine;
mod run;
mod stepping;
mod wrong;

pub use event::{End, Event, RunError, Stopped};
pub use laws::law_closed_processes_have_codes;
pub use machine::{Machine, opening_queues};
pub use run::{Watcher, show};
