//! Laws of core typing and of typed programs over the definitions alone: free steps keep typing, and typed programs are never
//! wrong.
#![tactic(auto)]

mod source_laws;
mod typing_laws;

pub use pict_bridge::law_source_to_core;
pub use pict_reduction::{
    law_channel_order, law_done, law_parked, law_reading, law_reduction_is_reached,
};
pub use source_laws::law_never_wrong;
pub use typing_laws::{
    law_free_step_keeps, law_no_choices_go_wrong, law_not_wrong, law_typed_runs_are_right,
};
