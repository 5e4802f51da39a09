//! What is known at a place of a program, and what patterns add to it.
#![tactic(auto)]

mod added;
mod against;
mod binders;
mod env;
mod error;
mod formed;
mod given;
mod giving;
mod known;
mod labels;
mod patterns;
mod primitives;

pub use added::Added;
pub use env::{Env, Place};
pub use error::{InferError, Told, refusal, size_refusal};
pub use formed::{
    annotated, as_record, below, changed_or_same, expanded, followed, recursive, unfolded,
    within_limits,
};
pub use given::{close_fields, open_fields, pattern_gives, typed_pattern};
pub use giving::{Typed, TypedFields};
pub use known::{Binder, Known};
pub use labels::labelled_type;
pub use patterns::{open_fields_against, pattern_against};
pub use primitives::type_of;
