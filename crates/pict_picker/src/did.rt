// What a step shows.
ghost use Rattle.std.specs.Prelude.{◌≡◌};
ghost use Rattle.pict_picker.specs.Events.{trap_of};

use pict_heap::Word;
use pict_syntax::Span;

/// What a step shows, by words of the picker's heap.
#[derive(Clone, Copy)]
pub enum Did {
    /// Nothing.
    Quiet,
    /// A value is received on a channel.
    Comm {
        /// The channel's number.
        channel: u32,
        /// The value's word.
        value: Word,
    },
    /// This text or number is printed. A number is printed as its decimal text.
    Print(Word),
    /// The step divides by zero, for the output at this place. It changes nothing but room.
    Trapped(Span),
}

impl Did {
    /// The place of a trap, if there is one. Takes no memory.
    pub fn trap(&self) -> Option<Span>
        ensures { result ≡ trap_of self.now }
    {
        match self {
            Did::Trapped(at) => Some(*at),
            _ => None,
        }
    }
}
