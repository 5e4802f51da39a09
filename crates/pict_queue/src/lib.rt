//! Queues of blocks of one region, threaded through the first word of each block.
#![tactic(auto)]

mod ends;
mod queues;

pub use pict_region::Block;
pub use queues::{QueueId, Queues};
