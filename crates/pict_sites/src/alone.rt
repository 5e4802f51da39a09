// Events of the only site, whose queues are lent from one to the next: nobody else's queues are looked at, and who keeps the turn has it
// still.
ghost use Rattle.std.specs.Prelude.{◌≡◌, ◌≢◌, ◌≤◌, ◌<◌, ◌+◌, ◌^◌, ◌↔◌, true, length, IfOk, IfSome, IsTrue, OnErr};
ghost use Rattle.rand_pcg.specs.Lcg.{Lcg};
ghost use Rattle.pict_network.specs.Network as plain;
ghost use Rattle.pict_network.specs.Events as events;
ghost use Rattle.pict_network.specs.Runs.{next_happening};
ghost use Rattle.pict_sites.specs.Alone.{IsAlone, IsRunning, StandsIn};
ghost use Rattle.pict_sites.specs.Happening.{HasWords, IsNext};
ghost use Rattle.pict_sites.specs.Network.{heap_of, channels_of, StandsForNetwork, IsNetworkStore};
ghost use Rattle.pict_sites.specs.Runs.{AreNext};

use crate::happened::{Events, Happened};
use crate::lending::{ensure_turn, has_next};
use crate::network::Network;
use pict_seed::Chooser;
use std::alloc::AllocError;

impl Network {
    /// Where there is one site alone, with something ready and no packet, its queues are lent. Whether it is so.
    pub(crate) fn begin(&mut self) -> bool
        requires kept { IsNetworkStore self.old }
        ensures kept { IsRunning result self.new }
        ensures stands { (N : plain.Network) → StandsForNetwork self.old N → StandsIn result self.new N }
        ensures channels { channels_of self.new ≡ channels_of self.old }
    {
        if !self.sites.is_alone() {
            return false;
        }
        self.sites.lend(&self.code.nodes, 0);
        true
    }

    /// Where its queues are lent the only site has them again.
    pub(crate) fn rest(&mut self, alone: bool)
        requires kept { IsRunning alone self.old }
        ensures kept { IsNetworkStore self.new }
        ensures stands { (N : plain.Network) → StandsIn alone self.old N → StandsForNetwork self.new N }
        ensures channels { channels_of self.new ≡ channels_of self.old }
    {
        if !alone {
            return;
        }
        self.sites.settle(&self.code.nodes, 0);
    }

    /// Whether no event is possible.
    pub(crate) fn is_over(&self, alone: bool) -> bool
        requires kept { IsRunning alone self.now }
        ensures { (N : plain.Network) → StandsIn alone self.now N → IsTrue result ↔ (length (events.events N) ≡ 0) }
    {
        if alone {
            return !has_next(&self.sites.store);
        }
        self.sites.count() == 0
    }

    // The event of the only site, as `next_event` says whichever is chosen, since there is no other; or nothing where nobody is ready.
    #[inline(always)]
    fn event_alone(&mut self) -> Result<Option<Happened>, AllocError>
        requires kept { IsAlone self.old }
        requires few { channels_of self.old + 1 < 2 ^ 32 }
        requires right { (N : plain.Network) × (g : Lcg) × StandsIn true self.old N × (next_happening N g ≢ events.Misshapen) }
        ensures kept { IsAlone self.new }
        ensures ok { IfOk result (λ next. (N : plain.Network) (g : Lcg) → StandsIn true self.old N
            → IsNext (heap_of self.new) (StandsIn true self.new) N g g next) }
        ensures words { IfOk result (λ next. IfSome next (HasWords (heap_of self.new))) }
        ensures refused { OnErr result ((N : plain.Network) → StandsIn true self.old N → StandsIn true self.new N) }
        ensures channels { channels_of self.new ≤ channels_of self.old + 1 }
    {
        if !has_next(&self.sites.store) {
            return Ok(None);
        }
        ensure_turn(&mut self.sites.store, &self.code.nodes);
        let happened = self.sites.act_here(&self.code.nodes, &self.constants, 0)?;
        Ok(Some(happened))
    }

    // Events of the only site, at most so many: the five of a call of a primitive whose answer is awaited, where nobody else is ready,
    // or else one; or nothing where nobody is ready.
    #[inline(always)]
    fn next_alone(&mut self, most: u64) -> Result<Events, AllocError>
        requires kept { IsAlone self.old }
        requires some { 1 ≤ most }
        requires few { channels_of self.old + 1 < 2 ^ 32 }
        requires right { (N : plain.Network) × (g : Lcg) × StandsIn true self.old N × (next_happening N g ≢ events.Misshapen) }
        ensures kept { IsAlone self.new }
        ensures ok { IfOk result (λ next. (N : plain.Network) (g : Lcg) → StandsIn true self.old N
            → AreNext (heap_of self.new) (StandsIn true self.new) N g g next) }
        ensures within { IfOk result (λ next. next.quiet + 1 ≤ most) }
        ensures words { IfOk result (λ next. IfSome next.last (HasWords (heap_of self.new))) }
        ensures refused { OnErr result ((N : plain.Network) → StandsIn true self.old N → StandsIn true self.new N) }
        ensures channels { channels_of self.new ≤ channels_of self.old + 1 }
    {
        match self.sites.call(&self.code.nodes, most)? {
            Some(did) => Ok(Events {
                quiet: 4,
                last: Some(Happened::Stepped(did)),
            }),
            None => {
                let last = self.event_alone()?;
                Ok(Events { quiet: 0, last })
            }
        }
    }

    /// Events that the chooser chooses, at most so many, in a run of the only site or of several: of several the one that `next_event`
    /// says.
    #[inline(always)]
    pub(crate) fn next_in(
        &mut self,
        alone: bool,
        chooser: &mut Chooser,
        most: u64,
    ) -> Result<Events, AllocError>
        requires kept { IsRunning alone self.old }
        requires some { 1 ≤ most }
        requires few { channels_of self.old + 1 < 2 ^ 32 }
        requires right { (N : plain.Network) × StandsIn alone self.old N × (next_happening N chooser.old ≢ events.Misshapen) }
        ensures kept { IsRunning alone self.new }
        ensures ok { IfOk result (λ next. (N : plain.Network) → StandsIn alone self.old N
            → AreNext (heap_of self.new) (StandsIn alone self.new) N chooser.old chooser.new next) }
        ensures within { IfOk result (λ next. next.quiet + 1 ≤ most) }
        ensures words { IfOk result (λ next. IfSome next.last (HasWords (heap_of self.new))) }
        ensures refused { OnErr result ((N : plain.Network) → StandsIn alone self.old N → StandsIn alone self.new N) }
        ensures channels { channels_of self.new ≤ channels_of self.old + 1 }
    {
        if alone {
            return self.next_alone(most);
        }
        let last = self.next_event(chooser)?;
        Ok(Events { quiet: 0, last })
    }
}
