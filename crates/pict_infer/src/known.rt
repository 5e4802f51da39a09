// Values and type variables by their names.

use pict_syntax::Name;
use pict_types::{Bound, Ty};

/// A value that is known: its name, and its type, which is written in the `depth` outermost type variables.
#[derive(Drop)]
pub struct Known {
    pub name: Name,
    pub depth: u32,
    pub has: Ty,
}

/// A type variable: its name, and its bound, which is written in the type variables around it.
#[derive(Drop)]
pub struct Binder {
    pub name: Name,
    pub bound: Bound,
}
