// One event after another, as a seed chooses them.
ghost use Rattle.std.specs.Prelude.{◌≢◌, ◌≤◌, ◌<◌, ◌+◌, ◌^◌, IfOk, IfSome, OnErr};
ghost use Rattle.pict_heap.specs.HeapState.{KeepsWords};
ghost use Rattle.pict_network.specs.Network as plain;
ghost use Rattle.pict_network.specs.Events as events;
ghost use Rattle.pict_network.specs.Runs.{next_happening};
ghost use Rattle.pict_sites.specs.Happening.{HasWords, IsNext};
ghost use Rattle.pict_sites.specs.Network.{heap_of, channels_of, StandsForNetwork, IsNetworkStore};

use crate::happened::Happened;
use crate::network::Network;
use pict_seed::Chooser;
use std::alloc::AllocError;

impl Network {
    /// The event that the chooser chooses: the only one without a draw, else the one at the place that the next word says; or
    /// nothing where none is possible.
    ///
    /// It is the next event of the seed's run, for each network of lists that the network stands for, as `event` says. The only
    /// error is want of memory: then a word may have been drawn, and nothing else has changed but room, free blocks, work, and the
    /// values of levels. The conditions are those of `event`. It takes time in the sites, and what the event takes.
    pub fn next_event(&mut self, chooser: &mut Chooser) -> Result<Option<Happened>, AllocError>
        requires kept { IsNetworkStore self.old }
        requires few { channels_of self.old + 1 < 2 ^ 32 }
        requires right { (N : plain.Network) × StandsForNetwork self.old N × (next_happening N chooser.old ≢ events.Misshapen) }
        ensures kept { IsNetworkStore self.new }
        ensures ok { IfOk result (λ next. (N : plain.Network) → StandsForNetwork self.old N
            → IsNext (heap_of self.new) (StandsForNetwork self.new) N chooser.old chooser.new next) }
        ensures words { IfOk result (λ next. IfSome next (HasWords (heap_of self.new))) }
        ensures refused { OnErr result ((N : plain.Network) → StandsForNetwork self.old N → StandsForNetwork self.new N) }
        ensures keeps { KeepsWords (heap_of self.old) (heap_of self.new) }
        ensures channels { channels_of self.new ≤ channels_of self.old + 1 }
    {
        let count = self.events();
        if count == 0 {
            return Ok(None);
        }
        let i = chooser.choose(count);
        let happened = self.event(i)?;
        Ok(Some(happened))
    }
}
