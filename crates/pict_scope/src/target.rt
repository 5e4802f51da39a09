// What the uses of a program mean.

use pict_syntax::{Prim, Program};

/// What a use of a value means.
#[derive(Clone, Copy, PartialEq, Eq, Debug)]
pub enum Target {
    /// A primitive, which is bound outside everything.
    Prim(Prim),
    /// The binder of a value, by its place, from 0, among the program's binders of values in reading order.
    Binder(u32),
}

/// A program with the targets of its uses.
#[derive(Drop)]
pub struct Scoped {
    pub program: Program,
    /// What each use of a value means, in reading order.
    pub values: Vec<Target>,
    /// The binder of each use of a type, in reading order, by its place, from 0, among the binders of types.
    pub types: Vec<u32>,
}
