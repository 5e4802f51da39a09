//! Whether a value has the shape that a step asks for: whether a pattern fits it, whether a primitive takes it.
#![tactic(auto)]

mod fitting;
mod laws;
mod matching;
mod shape;

pub use fitting::fits;
pub use laws::law_primitives_take_shapes;
pub use matching::fits_operand;
pub use shape::{operand_is, takes, takes_operand};
