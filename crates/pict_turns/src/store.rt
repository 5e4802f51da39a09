// What a machine keeps beside its code.
use crate::holder::Holder;
use pict_desk::Desk;
use pict_queue::Queues;

/// What a machine keeps beside its code.
#[derive(Drop)]
pub struct Store {
    /// The heap, and the values of levels while a node has the turn.
    pub desk: Desk,
    /// The ready processes in queue 0, but who has the turn, and what is parked at each channel in the queue after its number.
    pub queues: Queues,
    /// Who has the turn. Nobody has it between two calls of a machine.
    pub turn: Holder,
}
