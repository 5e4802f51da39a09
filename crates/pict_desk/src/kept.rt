// Outputs of kept values.
use pict_syntax::Span;

/// An output of kept values, two words each: where to send, what, and its place in the text.
#[derive(Clone, Copy)]
pub struct Kept {
    /// Where to send.
    pub to: (u64, u64),
    /// What is sent.
    pub message: (u64, u64),
    /// The place of the output in the text.
    pub at: Span,
}
