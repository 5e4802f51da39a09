// Runs of a network, whose events a chooser chooses.
ghost use Rattle.std.specs.Prelude.{◌≡◌, ◌≢◌, ◌≤◌, ◌<◌, ◌+◌, ◌^◌, ◌↔◌, ◌∷◌, [], ℕ, List, IfOk, OnOk, OnErr, Err};
ghost use Rattle.pict_outside.specs.Counts.{Rose};
ghost use Rattle.pict_core.specs.Step.{Label};
ghost use Rattle.pict_core.specs.Run.{shown};
ghost use Rattle.pict_heap.specs.HeapState.{HeapState};
ghost use Rattle.pict_view.specs.Watching.{WhereTold, Saw, SawOrTore};
ghost use Rattle.pict_machine.specs.Events as machine;
ghost use Rattle.pict_picker.specs.Events.{label_of, IsDidOf};
ghost use Rattle.pict_network.specs.Network as plain;
ghost use Rattle.pict_network.specs.Events as events;
ghost use Rattle.pict_network.specs.Runs.{next_happening};
ghost use Rattle.pict_sites.specs.Alone.{IsRunning, StandsIn};
ghost use Rattle.pict_sites.specs.Network.{channels_of, StandsForNetwork, IsNetworkStore};
ghost use Rattle.pict_sites.specs.Runs.{RanOn, BrokeOffOn, IsRightFrom, AreGone, AreBrokenOff};

use crate::happened::{Events, Happened};
use crate::network::Network;
use pict_heap::Heap;
use pict_machine::{End, Event, RunError, Watcher, show};
use pict_picker::Did;
use pict_seed::Chooser;
use pict_syntax::{FUEL_LIMIT, Span};
use std::alloc::AllocError;

// What the next event came to.
#[derive(Clone, Copy)]
pub(crate) enum Gone {
    // No event is possible.
    Done,
    // A process moved.
    Moved,
    // A process stepped.
    Stepped,
    // The step divides by zero, for the output at this place.
    Trapped(Span),
}

// Events of a run, and what came of them.
#[derive(Clone, Copy)]
pub(crate) struct Went {
    // How many steps show nothing, one after the other.
    pub(crate) quiet: u64,
    // What the event after them came to.
    pub(crate) gone: Gone,
}

// What a step shows, as the event of a machine.
fn event_of(did: &Did) -> Event
    ensures label { (h : HeapState) → machine.label_of h result ≡ label_of h did.now }
    ensures event { (h : HeapState) → IsDidOf h did.now → machine.IsEventOf h result }
{
    match did {
        Did::Quiet => Event::Quiet,
        Did::Comm { channel, value } => Event::Comm {
            channel: *channel,
            value: *value,
        },
        Did::Print(word) => Event::Print(*word),
        Did::Trapped(at) => Event::Trapped(*at),
    }
}

// Shows what the step with this number shows.
fn show_did<W: Watcher>(
    watcher: &mut W,
    heap: &Heap,
    number: u64,
    did: &Did,
) -> Result<(), RunError>
    requires { IsDidOf heap.now did.now }
    ensures seen { OnOk result (Saw (W.next watcher.old) (W.view watcher.old) (W.view watcher.new)
        (shown number (label_of heap.now did.now))) }
    ensures torn { OnErr result (WhereTold (λ before after. W.torn watcher.old before number (label_of heap.now did.now) after)
        (W.view watcher.old) (W.view watcher.new)) }
    ensures one { OnErr result (shown number (label_of heap.now did.now) ≡ (number, label_of heap.now did.now) ∷ []) }
    ensures next_stays { (v : List ℕ) (n : ℕ) (l : Label) → W.next watcher.new v n l ≡ W.next watcher.old v n l }
    ensures torn_stays { (v : List ℕ) (n : ℕ) (l : Label) (after : List ℕ)
        → W.torn watcher.new v n l after ↔ W.torn watcher.old v n l after }
    ensures faults_stay { W.faults watcher.old ≤ W.faults watcher.new }
    ensures sink { result ≡ Err RunError.Sink → Rose (W.faults watcher.old) (W.faults watcher.new) }
    ensures same { W.same watcher.old watcher.new }
{
    let event = event_of(did);
    show(watcher, heap, number, &event)
}

impl Network {
    // The next events, at most so many, after so many steps, and what the last of them shows, in a run of the only site or of several.
    #[inline(always)]
    fn advance<W: Watcher>(
        &mut self,
        alone: bool,
        chooser: &mut Chooser,
        steps: u64,
        most: u64,
        watcher: &mut W,
    ) -> Result<Went, RunError>
        requires kept { IsRunning alone self.old }
        requires some { 1 ≤ most }
        requires few { channels_of self.old + 1 < 2 ^ 32 }
        requires low { steps + most ≤ FUEL_LIMIT }
        requires right { (N : plain.Network) × StandsIn alone self.old N × (next_happening N chooser.old ≢ events.Misshapen) }
        ensures kept { IsRunning alone self.new }
        ensures gone { IfOk result (λ went. (N : plain.Network) → StandsIn alone self.old N
            → AreGone (StandsIn alone self.new) N chooser.old chooser.new steps
            (Saw (W.next watcher.old) (W.view watcher.old) (W.view watcher.new)) went) }
        ensures within { IfOk result (λ went. went.quiet + 1 ≤ most) }
        ensures broken { OnErr result ((N : plain.Network) → StandsIn alone self.old N
            → AreBrokenOff (StandsIn alone self.new) N chooser.old chooser.new steps most
            (Saw (W.next watcher.old) (W.view watcher.old) (W.view watcher.new))
            (λ number label. WhereTold (λ before after. W.torn watcher.old before number label after)
            (W.view watcher.old) (W.view watcher.new))) }
        ensures sink { result ≡ Err RunError.Sink → Rose (W.faults watcher.old) (W.faults watcher.new) }
        ensures channels { channels_of self.new ≤ channels_of self.old + 1 }
        ensures next_stays { (v : List ℕ) (n : ℕ) (l : Label) → W.next watcher.new v n l ≡ W.next watcher.old v n l }
        ensures torn_stays { (v : List ℕ) (n : ℕ) (l : Label) (after : List ℕ)
            → W.torn watcher.new v n l after ↔ W.torn watcher.old v n l after }
        ensures faults_stay { W.faults watcher.old ≤ W.faults watcher.new }
        ensures same { W.same watcher.old watcher.new }
    {
        let Events { quiet, last } = match self.next_in(alone, chooser, most) {
            Ok(next) => next,
            Err(AllocError) => return Err(RunError::Memory),
        };
        let happened = match last {
            Some(happened) => happened,
            None => return Ok(Went {
                quiet,
                gone: Gone::Done,
            }),
        };
        let did = match happened {
            Happened::Moved => return Ok(Went {
                quiet,
                gone: Gone::Moved,
            }),
            Happened::Stepped(did) => did,
        };
        match did.trap() {
            Some(at) => return Ok(Went {
                quiet,
                gone: Gone::Trapped(at),
            }),
            None => {}
        }
        match show_did(watcher, self.heap(), steps + quiet + 1, &did) {
            Ok(()) => Ok(Went {
                quiet,
                gone: Gone::Stepped,
            }),
            Err(error) => Err(error),
        }
    }

    // The same as `run`, where the queues of the only site may be lent before and afterwards.
    fn watch<W: Watcher>(
        &mut self,
        alone: bool,
        chooser: &mut Chooser,
        fuel: u64,
        watcher: &mut W,
    ) -> Result<End, RunError>
        requires kept { IsRunning alone self.old }
        requires fuel { fuel ≤ FUEL_LIMIT }
        requires few { channels_of self.old + fuel < 2 ^ 32 }
        requires right { (N : plain.Network) × StandsIn alone self.old N × IsRightFrom N chooser.old }
        ensures kept { IsRunning alone self.new }
        ensures end { IfOk result (λ end. (N : plain.Network) → StandsIn alone self.old N
            → RanOn (StandsIn alone self.new) N chooser.old fuel (machine.end_of end)
            (Saw (W.next watcher.old) (W.view watcher.old) (W.view watcher.new))) }
        ensures broken { OnErr result ((N : plain.Network) → StandsIn alone self.old N
            → BrokeOffOn (StandsIn alone self.new) N chooser.old fuel
            (SawOrTore (W.next watcher.old) (W.torn watcher.old) (W.view watcher.old) (W.view watcher.new))) }
        ensures sink { result ≡ Err RunError.Sink → Rose (W.faults watcher.old) (W.faults watcher.new) }
        ensures channels { channels_of self.new ≤ channels_of self.old + fuel }
        ensures faults_stay { W.faults watcher.old ≤ W.faults watcher.new }
        ensures same { W.same watcher.old watcher.new }
    {
        let mut count = 0;
        let mut steps = 0;
        while count < fuel {
            let Went { quiet, gone } = match self.advance(
                alone,
                chooser,
                steps,
                fuel - count,
                watcher,
            ) {
                Ok(went) => went,
                Err(error) => return Err(error),
            };
            count += quiet + 1;
            steps += quiet;
            match gone {
                Gone::Done => return Ok(End::Done),
                Gone::Trapped(at) => return Ok(End::Trap(at)),
                Gone::Moved => {}
                Gone::Stepped => steps += 1,
            }
        }
        if self.is_over(alone) {
            return Ok(End::Done);
        }
        Ok(End::FuelSpent)
    }

    /// Up to `fuel` events, each the one that the chooser chooses, until none is possible or a step traps. After each step that shows
    /// something the watcher sees its event, with the numbers of steps from 1.
    ///
    /// The answer is the end of the run with this fuel that the chooser's generator chooses, from each network of lists that the
    /// network stands for, and the watcher's view is as if it had seen exactly its labels, in order. An event that traps counts.
    /// `Sink` and `Memory` break the run off: the network then stands for the one after some events of the run, and the watcher's view
    /// is as if it had seen exactly their labels, or is one that `torn` allows for the last of them. `Sink` comes only where the
    /// watcher's count of faults rose. No event of the run may be wrong.
    pub fn run<W: Watcher>(
        &mut self,
        chooser: &mut Chooser,
        fuel: u64,
        watcher: &mut W,
    ) -> Result<End, RunError>
        requires kept { IsNetworkStore self.old }
        requires fuel { fuel ≤ FUEL_LIMIT }
        requires few { channels_of self.old + fuel < 2 ^ 32 }
        requires right { (N : plain.Network) × StandsForNetwork self.old N × IsRightFrom N chooser.old }
        ensures kept { IsNetworkStore self.new }
        ensures end { IfOk result (λ end. (N : plain.Network) → StandsForNetwork self.old N
            → RanOn (StandsForNetwork self.new) N chooser.old fuel (machine.end_of end)
            (Saw (W.next watcher.old) (W.view watcher.old) (W.view watcher.new))) }
        ensures broken { OnErr result ((N : plain.Network) → StandsForNetwork self.old N
            → BrokeOffOn (StandsForNetwork self.new) N chooser.old fuel
            (SawOrTore (W.next watcher.old) (W.torn watcher.old) (W.view watcher.old) (W.view watcher.new))) }
        ensures sink { result ≡ Err RunError.Sink → Rose (W.faults watcher.old) (W.faults watcher.new) }
        ensures channels { channels_of self.new ≤ channels_of self.old + fuel }
        ensures faults_stay { W.faults watcher.old ≤ W.faults watcher.new }
        ensures same { W.same watcher.old watcher.new }
    {
        let alone = self.begin();
        let answer = self.watch(alone, chooser, fuel, watcher);
        self.rest(alone);
        answer
    }
}
