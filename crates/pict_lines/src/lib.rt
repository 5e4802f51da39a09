//! The steps on which the typing rules end: fields and their arguments, folds, signatures, and nested applications.
#![tactic(auto)]

pub mod answers;
pub mod complete;
pub mod counts;
pub mod fields;
pub mod folds;
pub mod functions;
pub mod left;
pub mod messages;
pub mod nested;
pub mod operators;
pub mod parts;
pub mod records;
pub mod right;
pub mod signatures;
pub mod steps;
pub mod types;
