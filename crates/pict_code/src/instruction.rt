// Instructions.
use crate::CodePat;
use pict_core::CoreVal;
use pict_syntax::Span;
use std::rc::Rc;

/// An operand: a core value. A variable is its level already.
pub type Operand = CoreVal;

/// What a node does. A part is the number of its node.
#[derive(Drop)]
pub enum Op {
    /// Nothing.
    Zero,
    /// Two parts beside each other: left, right.
    Par(u32, u32),
    /// A new channel as the variable of this level, then the part.
    New(u32, u32),
    /// An output on the first operand of the second, at its place in the text.
    Out(Operand, Operand, Span),
    /// An input on the operand, then the part.
    In(Operand, CodePat, u32),
    /// An input that stays, with the part for each message.
    Serve(Operand, CodePat, u32),
    /// A conditional: its test, the part where it is true, the part where it is false.
    If(Operand, u32, u32),
}

/// One process of a code.
#[derive(Drop)]
pub struct Node {
    /// The levels of its free variables, increasing. Nodes whose frames are the same list may share it.
    pub frame: Rc<Vec<u32>>,
    /// What it does.
    pub op: Op,
}

/// The processes in preorder: a node's left part before its right part, `then` before `else`. A node's number is its index.
#[derive(Drop)]
pub struct Code {
    pub nodes: Vec<Node>,
}
