//! What is told of a refusal below its report: the line with a caret, what could stand there, and what may be meant.
//!
//! The report is `pict`'s and stays as it is. What is told here is advice, with two parts that are sure: which tokens could
//! stand at a wrong one, and that a hint which asks for a token asks for one of these.
#![tactic(auto)]

mod bytes;
mod distance;
mod explaining;
mod grammar;
mod hint;
mod imports;
mod kinds;
mod line;
mod listed;
mod missing;
mod names;
mod opened;
mod operators;
mod piece;
mod processes;
mod scene;
mod types;
mod words;
mod writing;

pub use explaining::explanation;
pub use line::shown_line;
pub use writing::{part, put_number, put_place};
