//! The translation of programs into core processes: the whole language, with the depth told before anything is built.
#![tactic(auto)]

mod build;
mod depths;
mod outside;
mod parts;
mod patterns;
mod simple;
mod terms;
mod whole;

pub use whole::{DeriveError, derive};
