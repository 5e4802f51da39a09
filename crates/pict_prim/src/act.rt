// What a primitive is about to do with words of a heap, and what it then did.
use pict_heap::Word;

/// What a primitive is about to do with words of a heap.
#[derive(Clone, Copy)]
pub enum Act {
    /// It prints this text or number, and its output ends.
    Print(Word),
    /// It answers the second at the first.
    Answer(Word, Word),
    /// It prints the first, a text or number, and answers the empty record at the second.
    PrintAnswer(Word, Word),
    /// It answers at the first the second text followed by the third.
    Join(Word, Word, Word),
    /// It answers at the word the decimal text of the number.
    Spell(Word, i64),
    /// It divides by zero.
    ZeroDivisor,
}

/// What a primitive did with words of a heap.
#[derive(Clone, Copy)]
pub enum Done {
    /// It printed this text or number, and its output ends.
    Printed(Word),
    /// It leaves an output: where to send, and what.
    Answer(Word, Word),
    /// It printed the first, a text or number, and leaves an output: where to send, and what.
    PrintedAnswer(Word, Word, Word),
    /// It divided by zero.
    ZeroDivisor,
}

/// For how many records, fields of records, texts and bytes of texts a heap needs room.
#[derive(Clone, Copy)]
pub struct Need {
    /// Records.
    pub records: u64,
    /// Fields of records.
    pub fields: u64,
    /// Texts.
    pub texts: u64,
    /// Bytes of texts.
    pub bytes: u64,
}

/// Nothing.
pub const NO_NEED: Need = Need {
    records: 0,
    fields: 0,
    texts: 0,
    bytes: 0,
};
