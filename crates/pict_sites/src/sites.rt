// The queues of each site, and packets between them.
use pict_queue::Queues;
use pict_turns::Store;

/// The sites of a network.
#[derive(Drop)]
pub(crate) struct Sites {
    /// The heap that all sites share. While a site acts its queues are lent to this store, and else those here mean nothing.
    pub(crate) store: Store,
    /// The queues of each site: queue 0 has the ready processes, and the queue after a channel's number what is parked at it,
    /// which is nothing but at its home.
    pub(crate) queues: Vec<Queues>,
    /// Queue 0 has the packets, the oldest first.
    pub(crate) post: Queues,
    /// The destinations of the packets, in the same order.
    pub(crate) to: Vec<u32>,
    /// The home of each channel.
    pub(crate) homes: Vec<u32>,
}
