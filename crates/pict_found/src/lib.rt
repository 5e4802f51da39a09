//! What is found for the type fields of an application stays.
#![tactic(auto)]

mod laws;

pub use laws::law_found_stays;
