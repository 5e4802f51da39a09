// What a process does in a step, by words.
use crate::waiting::Waiting;
use pict_desk::Kept;
use pict_heap::Word;
use pict_syntax::Span;

/// What a process does in a step, before any list changes. A word that is with it is printed.
#[derive(Drop)]
pub(crate) enum Deed {
    /// It ends.
    Ends(Option<Word>),
    /// This one has its place.
    Keeps(Waiting, Option<Word>),
    /// The first has its place, and the second comes last among the ready ones.
    Forks(Waiting, Waiting),
    /// There is a channel more, and this one has its place.
    Opens(Waiting),
    /// It waits at this channel, as it is.
    Waits(u32),
    /// It waits at this channel, as an output of kept values.
    Parks(u32, Kept),
    /// It ends, and has sent the message at the channel to the input that is its partner. The input's body comes last among the
    /// ready ones; a replicated input goes behind all that wait.
    Serves {
        /// The channel.
        channel: u32,
        /// The two words of the message.
        message: (u64, u64),
        /// Whether the input stays.
        replicated: bool,
        /// The body.
        body: Waiting,
    },
    /// The message that is its partner, at the channel, ends. The body comes last among the ready ones; a replicated input
    /// keeps its place.
    Takes {
        /// The channel.
        channel: u32,
        /// The two words of the message.
        message: (u64, u64),
        /// Whether the input stays.
        replicated: bool,
        /// The body.
        body: Waiting,
    },
    /// It divides by zero, for the output at this place.
    Stops(Span),
}
