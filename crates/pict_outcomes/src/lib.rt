//! What an exploration of all orders comes to: its outcomes with who waits for whom, and its graph, as texts and as a picture.
#![tactic(auto)]

mod drawing;
mod graph;
mod layout;
mod marking;
mod outcome;
mod picture;
mod telling;
mod waiting;

pub use drawing::{MOST_CONFIGURATIONS, MOST_REDUCTIONS, svg};
pub use graph::{Edge, Graph, edges};
pub use marking::{Marks, marks_of};
pub use outcome::{Outcome, outcomes, vertex_of};
pub use picture::{aut, dot, marked_dot};
pub use telling::told;
