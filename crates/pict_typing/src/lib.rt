//! Core typing: types of core values, patterns and processes, and what is kept where types and values are put in.
#![tactic(auto)]

mod laws;

pub use laws::{
    law_canonical_forms, law_effects_by_shape, law_messages_are_received, law_typed_are_closed,
    law_types_put_in, law_values_put_in,
};
