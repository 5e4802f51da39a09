// What stands in a program: uses of values, and their binders.

use pict_syntax::{Id, Span};

/// As what a use of a value stands.
#[derive(Clone, Copy, PartialEq, Eq, Debug)]
pub enum Role {
    /// As the channel of an output: `c!v`.
    Sent,
    /// As the channel of an input: `c?x = P`, `c?*x = P`.
    Received,
    /// As what is called: `(c v)`, `(c > v w)`, `(c < v w)`.
    Called,
    /// As a value, which may be handed on.
    HandedOn,
}

/// What binds a value.
#[derive(Clone, Copy, PartialEq, Eq, Debug)]
pub enum Form {
    /// `new`
    New,
    /// A name of a `def`.
    Def,
    /// A name of a pattern.
    Pattern,
}

/// A use of a value at its place, or an identifier that binds one.
#[derive(Clone, Copy, PartialEq, Eq, Debug)]
pub enum Item {
    Use(Role, Span),
    Bind(Form, Id),
}
