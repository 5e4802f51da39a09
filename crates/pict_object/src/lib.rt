//! Objects: core processes as bytes.
#![tactic(auto)]

mod decoding;
mod encoding;
mod error;
mod front;
mod labels;
mod laws;
mod pattern;
mod process;
mod size;
mod table;
mod value;
mod write;

pub use decoding::decode;
pub use encoding::encode;
pub use error::{DecodeError, EncodeError};
pub use laws::{
    law_cores_have_one_object, law_labels_extend, law_objects_are_read_once,
    law_objects_have_one_core, law_runs_are_dressed, law_steps_are_dressed, law_tables_are_one,
    law_without_places,
};
