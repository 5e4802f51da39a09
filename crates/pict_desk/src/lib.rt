//! Operands and patterns of instructions, over a desk: the words of a heap and the values of levels.
#![tactic(auto)]

mod acts;
mod binding;
mod constants;
mod desk;
mod kept;
mod kinds;
mod levels;
mod needs;
mod operands;
mod pending;
mod records;
mod room;

pub use acts::{
    act_of, answer_at_hand, answer_len, decide, divides_by_zero, three_at_hand, two_at_hand,
};
pub use binding::bind;
pub use constants::{make_constants, pair_there};
pub use desk::Desk;
pub use kept::Kept;
pub use kinds::{channel_at_hand, channel_of, chosen, is_true, number_at_hand, primitive_at_hand};
pub use levels::level_count;
pub use needs::{both, need, need_of_all};
pub use operands::{is_small, pair_at_hand, pile_words, word_at, word_at_hand, word_of};
pub use pending::Pending;
pub use records::{frame_record, read_record};
pub use room::{frame_need, is_nothing, reserve_room};
