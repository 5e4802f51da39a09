// What a node of a code comes from.

use pict_syntax::{Name, Span};

/// What a node does.
#[derive(Clone, Copy, PartialEq, Eq, Debug)]
pub enum NodeKind {
    /// Nothing.
    Zero,
    /// It is two processes side by side.
    Par,
    /// It makes a channel.
    New,
    /// It sends.
    Out,
    /// It receives once.
    In,
    /// It receives again and again.
    Serve,
    /// It chooses a branch.
    If,
}

/// The form of the text that a node comes from.
#[derive(Clone, Copy, PartialEq, Eq, Debug)]
pub enum Form {
    /// The end of the program.
    End,
    /// `new`
    New,
    /// A name of a `def`.
    Def,
    /// `run`
    Run,
    /// A value that is waited for, and its answer.
    Answer,
    /// `\ Abs`
    Lambda,
    /// A value that is handed on as it stands.
    Value,
    /// A record of which a part is waited for.
    Record,
    /// An application.
    Call,
    /// `Chan ! Val`
    Send,
    /// `Chan ? Abs`
    Receive,
    /// `Chan ?* Abs`
    Serve,
    /// `if`
    Conditional,
    /// A process of a group, beside those behind it.
    Beside,
    /// `( )`
    Inert,
}

/// A node of a code: what it does, and its place there, if it is an output.
#[derive(Clone, Copy, PartialEq, Eq, Debug)]
pub struct Node {
    /// What it does.
    pub kind: NodeKind,
    /// The place that the code has for it, if it is an output.
    pub place: Option<Span>,
}

/// What a node does, and what it comes from, at its place; with a name for channels of `new` and `def`.
#[derive(Clone, Copy)]
pub struct Origin {
    /// What the node does.
    pub kind: NodeKind,
    /// The form of the text that it comes from.
    pub form: Form,
    /// The name of the channel that it makes, if that has one.
    pub name: Option<Name>,
    /// The place of that form; of a channel's name, where it has one.
    pub span: Span,
}
