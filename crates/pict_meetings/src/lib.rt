//! Outputs and inputs at a channel: they wait there, or they meet what waits, and make room before.
#![tactic(auto)]

mod binding;
mod channels;
mod meeting;
mod parking;
mod receiving;
mod room;
mod sending;
mod sent;
mod taking;
mod waiting;

pub use receiving::{acting_width, input};
pub use room::reserve_beside;
pub use sending::{send, send_kept};
pub use waiting::{Waiting, first_waiting};
