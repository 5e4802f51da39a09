//! Blocks of queues as processes: a block is a node of a code with the values of its frame, two words each, or an output of kept
//! values. They are written, and read back; what they stand for, and how it steps, is in the logic alone.
#![tactic(auto)]

mod frames;
mod keeping;
mod laws;
mod parts;
mod reading;
mod spawning;
mod widths;

pub use keeping::{kept_block, read_kept};
pub use laws::{
    law_inputs_meet, law_inputs_stand, law_narrow_blocks, law_news_make_channels, law_nodes_end,
    law_outputs_meet, law_outputs_stand, law_parts_fork, law_tests_choose,
};
pub use parts::make_part;
pub use reading::{read_narrow, read_wide};
pub use spawning::{block_of, spawn};
pub use widths::{KEPT_WIDTH, block_width, narrow_width};
