//! Objects that are read alone: which process they are of, and that it runs as the one that was written.
#![tactic(auto)]

mod laws;

pub use laws::{
    law_bytes_are_decided, law_decoded_runs_as_written, law_objects_are_decoded_once,
    law_objects_are_sized, law_written_is_read_back,
};
