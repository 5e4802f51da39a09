// What steps show, and how steps and runs end.
ghost use Rattle.std.specs.Prelude.{◌≡◌};
ghost use Rattle.pict_heap.specs.HeapState.{HeapState};
ghost use Rattle.pict_machine.specs.Events.{label_of, trap_of, IsEventOf};
ghost use Rattle.pict_turns.specs.Shown.{label_shown, trap_shown, IsShownOf};

use pict_desk::word_at;
use pict_heap::Word;
use pict_outside::SinkFailed;
use pict_syntax::Span;
use pict_turns::Shown;
use std::alloc::AllocError;
use thiserror::Error;

/// What a step shows, by words of the machine's heap.
#[derive(Clone, Copy)]
pub enum Event {
    /// Nothing.
    Quiet,
    /// A value is received on a channel.
    Comm {
        /// The channel's number.
        channel: u32,
        /// The value's word.
        value: Word,
    },
    /// This text or number is printed. A number is printed as its decimal text.
    Print(Word),
    /// The step divides by zero, for the output at this place. It changes nothing but room, spare blocks and work.
    Trapped(Span),
}

/// How a run ends.
#[derive(Clone, Copy, PartialEq, Eq, Debug)]
pub enum End {
    /// Nothing is ready.
    Done,
    /// As many steps as the fuel allows are done, and something is ready still.
    FuelSpent,
    /// A step divides by zero, for the output at this place.
    Trap(Span),
}

/// How a run ends, and after how many steps.
#[derive(Clone, Copy, PartialEq, Eq, Debug)]
pub struct Stopped {
    /// How it ends.
    pub end: End,
    /// How many steps are done. A step that traps counts.
    pub steps: u64,
}

/// Why a run has no end, or what is told of it isn't written to its end.
#[derive(Clone, Copy, PartialEq, Eq, Debug, Error)]
pub enum RunError {
    /// What was to be shown could not be written: the sink failed.
    #[error("the sink failed")]
    Sink,
    /// Memory is wanting.
    #[error("out of memory")]
    Memory,
}

impl From<AllocError> for RunError {
    ghost use Rattle.pict_machine.specs.declared.event.RunError.TheVariants.{Memory};

    ghost from_gives = { λ _ e. e ≡ Memory };

    fn from(_: AllocError) -> RunError {
        RunError::Memory
    }
}

impl From<SinkFailed> for RunError {
    ghost use Rattle.pict_machine.specs.declared.event.RunError.TheVariants.{Sink};

    ghost from_gives = { λ _ e. e ≡ Sink };

    fn from(_: SinkFailed) -> RunError {
        RunError::Sink
    }
}

impl Event {
    /// The place of a trap, if the event is one. Takes no memory.
    pub fn trap(&self) -> Option<Span>
        ensures { result ≡ trap_of self.now }
    {
        match self {
            Event::Trapped(at) => Some(*at),
            _ => None,
        }
    }
}

// The event itself, with the value that is received as a word.
#[inline(always)]
pub(crate) fn unpacked(event: Shown) -> Event
    requires { (h : HeapState) × IsShownOf h event }
    ensures label { (h : HeapState) → IsShownOf h event → label_of h result ≡ label_shown h event }
    ensures event { (h : HeapState) → IsShownOf h event → IsEventOf h result }
    ensures trap { trap_of result ≡ trap_shown event }
{
    match event {
        Shown::Quiet => Event::Quiet,
        Shown::Comm { channel, value } => Event::Comm {
            channel,
            value: word_at(value),
        },
        Shown::Print(word) => Event::Print(word),
        Shown::Trapped(at) => Event::Trapped(at),
    }
}
