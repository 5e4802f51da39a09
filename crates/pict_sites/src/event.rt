// One event of a network.
ghost use Rattle.std.specs.Prelude.{◌≡◌, ◌≤◌, ◌<◌, ◌+◌, ◌^◌, length, IfOk, OnErr};
ghost use Rattle.pict_heap.specs.HeapState.{KeepsWords};
ghost use Rattle.pict_network.specs.Network as plain;
ghost use Rattle.pict_network.specs.Events as events;
ghost use Rattle.pict_sites.specs.Happening.{IsHappened, HasWords};
ghost use Rattle.pict_sites.specs.Network.{heap_of, channels_of, StandsForNetwork, IsNetworkStore, IsRightAt};

use crate::happened::Happened;
use crate::network::Network;
use crate::places::Place;
use std::alloc::AllocError;

impl Network {
    /// How many events are possible: an act of each site where a process is ready, and a delivery of each packet. Takes no memory,
    /// and time in the sites.
    pub fn events(&self) -> u64
        requires kept { IsNetworkStore self.now }
        ensures { (N : plain.Network) → StandsForNetwork self.now N → result ≡ length (events.events N) }
    {
        self.sites.count()
    }

    /// The i-th of the possible events, from 0: acts by the numbers of the sites, then deliveries, the oldest packet first.
    ///
    /// What the answer says happens to each network of lists that the network stands for, and it stands for the one after it. A
    /// delivery moves a process, and so does the act of one that stands at a channel of another site; all other acts step, with this
    /// label, by words of the heap. `Trapped` comes exactly where the step divides by zero. The only error is want of memory. After a
    /// trap or an error nothing has changed but room, free blocks, work, and the values of levels, which count for nothing between
    /// two calls, so another event can be tried.
    ///
    /// The channels and a new one have to be fewer than 2 to the power 32: a network begins with none, and an event makes one at most.
    /// There has to be such an event, and it may not be wrong: some network that it stands for has it, and takes it rightly. A wrong
    /// step is one that sends to or receives from what is no channel, tests what is no Bool, gives a primitive what it doesn't take,
    /// or meets a value that doesn't fit a pattern.
    ///
    /// It takes time in the sites, in the packets, and in the acting instruction with its partner's. A process that moves is copied
    /// from the queues of one site to the post, and from there to those of another.
    pub fn event(&mut self, i: u64) -> Result<Happened, AllocError>
        requires kept { IsNetworkStore self.old }
        requires few { channels_of self.old + 1 < 2 ^ 32 }
        requires right { IsRightAt self.old i }
        ensures kept { IsNetworkStore self.new }
        ensures ok { IfOk result (λ happened. (N : plain.Network) → StandsForNetwork self.old N
            → IsHappened (heap_of self.new) (StandsForNetwork self.new) N happened (events.happening_at N i)) }
        ensures words { IfOk result (HasWords (heap_of self.new)) }
        ensures refused { OnErr result ((N : plain.Network) → StandsForNetwork self.old N → StandsForNetwork self.new N) }
        ensures keeps { KeepsWords (heap_of self.old) (heap_of self.new) }
        ensures channels { channels_of self.new ≤ channels_of self.old + 1 }
    {
        match self.sites.place(i) {
            Place::Act(s) => self.sites.act_site(&self.code.nodes, &self.constants, s),
            Place::Delivery(j) => {
                self.sites.deliver(&self.code.nodes, j)?;
                Ok(Happened::Moved)
            }
        }
    }
}
