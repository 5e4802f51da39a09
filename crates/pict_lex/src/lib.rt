//! Reads a program text as tokens.
//!
//! Blanks and comments separate tokens and are dropped; elsewhere the longest token is read. What the tokens of a text
//! are, and where reading stops, is defined in `pict_syntax`: as a cut of the whole text.
#![tactic(auto)]

mod comment;
mod error;
mod halt;
mod literal;
mod mark;
mod number;
mod quoted;
mod reading;
mod scan;
mod word;

pub use error::LexError;
pub use literal::{Due, due_at};
pub use reading::lex;
pub use word::{keyword_of, word_len};
