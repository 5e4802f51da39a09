// A value of the machine.
use pict_syntax::Prim;

/// A value of the machine: a simple value itself, or the number of a text or a record of a heap.
#[derive(Clone, Copy, PartialEq, Eq, Debug)]
pub enum Word {
    /// A number.
    Int(i64),
    /// A character.
    Char(u8),
    /// A truth value.
    Bool(bool),
    /// A channel, by its number.
    Chan(u32),
    /// A primitive.
    Prim(Prim),
    /// A text of the heap, by its number.
    Text(u64),
    /// A record of the heap, by its number.
    Fields(u64),
}
