// The network: a code, and the sites that run it.
ghost use Rattle.std.specs.Prelude.{◌≡◌};
ghost use Rattle.pict_sites.specs.Network.{heap_of};

use crate::sites::Sites;
use pict_code::Code;
use pict_heap::{Heap, Word};

/// A network of sites that run the code of a core process: the processes of each are ready there, and what sends or receives
/// goes to the home of its channel, as a packet.
///
/// Contracts see it by the networks of lists that it stands for: the ready processes of each site in their order, the packets by
/// age with their destinations, and of each channel its home and what is parked there, the oldest first. A network of lists has
/// stamps, this one has none.
#[derive(Drop)]
pub struct Network {
    pub(crate) code: Code,
    // One place for each node: the word of an output's message that is a text or a record without variables.
    pub(crate) constants: Vec<Option<Word>>,
    pub(crate) sites: Sites,
}

impl Network {
    /// The texts and the records that the words of steps stand for. Takes no memory.
    pub fn heap(&self) -> &Heap
        ensures { result.now ≡ heap_of self.now }
    {
        &self.sites.store.desk.heap
    }
}
