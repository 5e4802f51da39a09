//! The typing rules of the language, and their laws: each program is typed, or refused at exactly one place.
#![tactic(auto)]

mod laws;

pub use laws::{
    law_one_answer, law_regularity, law_same_names, law_scoped, law_some_answer,
    law_typed_or_refused, law_typed_or_stuck, law_worked_texts,
};
