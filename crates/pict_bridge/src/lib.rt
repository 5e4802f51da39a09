//! From source to core: a typed program has a typed core process. Types with `!` for each `/`, worlds that grow, packages with all
//! their arguments at once, and what patterns open, are the parts of it.
#![tactic(auto)]

mod laws;

pub use laws::{
    law_erased_types, law_grown_values, law_packed_at_once, law_patterns_open, law_source_to_core,
};
