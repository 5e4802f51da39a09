//! Who waits at the end of a small run, in the words of its texts: at which place, for what, and on which channel; and what its
//! channels are called.
#![tactic(auto)]

mod channels;
mod nodes;
mod reasons;
mod standing;
mod telling;
mod waiting;

pub use channels::channel_names;
pub use telling::{Told, who_waits};
pub use waiting::{Kind, Waiting, all_wait, waits_among};
