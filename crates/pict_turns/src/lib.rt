//! The store of a machine in blocks, who has the turn, and the steps of nodes that need no partner: their parts get the turn or
//! become the last of the ready ones.
#![tactic(auto)]

mod event;
mod holder;
mod nodes;
mod parts;
mod reading;
mod reserving;
mod store;
mod turn;
mod turning;

pub use event::Shown;
pub use holder::Holder;
pub use nodes::{choose, end, fork, make_channel};
pub use parts::{make_ready, spawn_part};
pub use reading::{frame_at, read_first};
pub use reserving::{reserve, reserve_kept, reserve_part};
pub use store::Store;
pub use turn::Turn;
pub use turning::{return_turn, set_down, take_turn};
