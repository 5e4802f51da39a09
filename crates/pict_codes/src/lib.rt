//! Which refusals come from which part of the work.
#![tactic(auto)]

mod laws;

pub use laws::{
    law_kind_codes, law_own_codes, law_pattern_codes, law_refused_by_line, law_scope_codes,
    law_type_codes, law_variance_code,
};
