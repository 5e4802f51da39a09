//! The machine that takes choices by place: a step is that of any ready process, with any of its parked partners.
#![tactic(auto)]

mod acting;
mod calling;
mod deed;
mod did;
mod frames;
mod lists;
mod meeting;
mod nodes;
mod partners;
mod picker;
mod placing;
mod sending;
mod stepping;
mod waiting;

pub use did::Did;
pub use picker::Picker;
