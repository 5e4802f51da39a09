// What a step of who has the turn shows.
use pict_heap::Word;
use pict_syntax::Span;

/// What a step of who has the turn shows, by words of the heap of its store. The two words of a value that is received aren't
/// told apart.
#[derive(Clone, Copy)]
pub enum Shown {
    /// Nothing.
    Quiet,
    /// A value is received on a channel.
    Comm {
        /// The channel's number.
        channel: u32,
        /// The two words of the value's word.
        value: (u64, u64),
    },
    /// This text or number is printed. A number is printed as its decimal text.
    Print(Word),
    /// The step divides by zero, for the output at this place. It changes nothing but room, spare blocks and work.
    Trapped(Span),
}
