// What events answer.
use pict_picker::Did;

/// What happened by an event.
#[derive(Clone, Copy)]
pub enum Happened {
    /// A process moved: it became a packet to the home of its channel, or arrived as one.
    Moved,
    /// A process stepped, and this is what the step shows, by words of the network's heap.
    Stepped(Did),
}

/// Events of a run that happen in one go.
#[derive(Clone, Copy)]
pub(crate) struct Events {
    /// How many steps show nothing, one after the other.
    pub(crate) quiet: u64,
    /// The event after them, if one is possible.
    pub(crate) last: Option<Happened>,
}
