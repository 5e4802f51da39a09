//! What the primitives do to core values, and to words of a heap.
#![tactic(auto)]

mod act;
mod acts;
mod applying;
mod deciding;
mod numbers;
mod operands;
mod outcome;
mod performing;
mod texts;

pub use act::{Act, Done, NO_NEED, Need};
pub use acts::attempt_on_value;
pub use applying::{apply, room};
pub use deciding::{act_on, act_on_fields, answer_of_numbers};
pub use outcome::{ValueDone, printed_bytes};
pub use performing::{perform, room_of};
