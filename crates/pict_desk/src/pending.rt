// Fields of records that are being made.
use pict_heap::Word;
use pict_syntax::Name;
use std::alloc::{AllocError, Global};

/// Two piles of words: those of fields of records that are not in the heap yet, without labels and with them.
#[derive(Drop)]
pub struct Pending {
    /// Fields without labels.
    pub words: Vec<Word>,
    /// Fields with labels.
    pub labelled: Vec<(Name, Word)>,
}
