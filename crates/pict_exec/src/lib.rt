//! Core processes of which only their form is known are run: what their frames may take is bounded before, and each step is looked at
//! before it is made.
#![tactic(auto)]

mod guarded;
mod laws;
mod room;

pub use guarded::{ExecEnd, execute};
pub use laws::law_frames_are_few;
pub use room::FRAME_LIMIT;
