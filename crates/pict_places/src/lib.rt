//! Where each node of a program's code comes from in its texts.
#![tactic(auto)]

mod file;
mod fitting;
mod nodes;
mod origin;
mod simple;

pub use file::places_of_file;
pub use fitting::fits;
pub use nodes::places;
pub use origin::{Form, Node, NodeKind, Origin};
