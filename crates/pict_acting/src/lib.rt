//! The step of who has the turn, over the blocks of a store: which one it is, by its instruction; and steps in one go, a call of a
//! primitive, and a reader that waits at a new channel.
#![tactic(auto)]

mod acting;
mod at_once;
mod chain;
mod opening;
mod outputs;

pub use acting::{act, act_or_pass};
pub use at_once::{AtOnce, steps_at_once};
pub use chain::{Received, call_at_once};
