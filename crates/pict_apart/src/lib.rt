//! Names in the translation: it means by each name the binder that the scopes tell.
#![tactic(auto)]

mod laws;

pub use laws::law_renamed_apart;
