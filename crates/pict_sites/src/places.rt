// The events that are possible, by their places.
ghost use Rattle.std.specs.Prelude.{◌≡◌, ◌≢◌, ◌<◌, ◌↔◌, [], Some, length, slice_get, IsTrue};
ghost use Rattle.pict_core.specs.Term.{Process};
ghost use Rattle.pict_queue.specs.QueuesState.{IsQueue};
ghost use Rattle.pict_queue.specs.Contents.{contents};
ghost use Rattle.pict_network.specs.Network as plain;
ghost use Rattle.pict_network.specs.Events as events;
ghost use Rattle.pict_sites.specs.Places.{event_of, IsThere};
ghost use Rattle.pict_sites.specs.Views.{StandFor, AreSites};

use crate::sites::Sites;
use pict_queue::{QueueId, Queues};

/// A possible event.
#[derive(Clone, Copy)]
pub(crate) enum Place {
    /// The act of this site.
    Act(usize),
    /// The delivery of this packet, by its place from 0, the oldest first.
    Delivery(usize),
}

/// Whether queue 0 has a block.
pub(crate) fn is_busy(queues: &Queues) -> bool
    requires { IsQueue queues.now 0 }
    ensures { IsTrue result ↔ (contents queues.now 0 ≢ []) }
{
    queues.length(QueueId(0)) > 0
}

impl Sites {
    /// How many events are possible. Takes no memory, and time in the sites.
    pub(crate) fn count(&self) -> u64
        requires { (core : Process) × AreSites core self.now }
        ensures { (core : Process) (N : plain.Network) → AreSites core self.now → StandFor core self.now N
            → result ≡ length (events.events N) }
    {
        let mut busy = 0;
        for s in 0..self.queues.len() {
            if is_busy(&self.queues[s]) {
                busy += 1;
            }
        }
        busy + self.to.len() as u64
    }

    /// The i-th of the possible events, from 0. Takes no memory, and time in the sites.
    pub(crate) fn place(&self, i: u64) -> Place
        requires sites { (core : Process) × AreSites core self.now
            × ((N : plain.Network) × StandFor core self.now N × (i < length (events.events N))) }
        ensures there { IsThere self.now result }
        ensures event { (core : Process) (N : plain.Network) → AreSites core self.now → StandFor core self.now N
            → slice_get (events.events N) i ≡ Some (event_of result) }
    {
        let mut left = i;
        for s in 0..self.queues.len() {
            if is_busy(&self.queues[s]) {
                if left == 0 {
                    return Place::Act(s);
                }
                left -= 1;
            }
        }
        Place::Delivery(left as usize)
    }
}
