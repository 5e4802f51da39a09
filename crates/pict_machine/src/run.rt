// Runs of the machine, and who watches them.
ghost use Rattle.std.specs.Prelude.{◌≡◌, ◌≤◌, ◌<◌, ◌+◌, ◌*◌, ◌^◌, ◌↔◌, ◌∷◌, [], ℕ, List, Option, IsTrue, IfOk, OnOk, OnErr, Err};
ghost use Rattle.pict_outside.specs.Counts.{Rose};
ghost use Rattle.pict_core.specs.Configuration.{Configuration, IsConfiguration};
ghost use Rattle.pict_core.specs.Step.{Label};
ghost use Rattle.pict_core.specs.Run.{shown};
ghost use Rattle.pict_heap.specs.HeapState.{KeepsWords, LosesNoRoom};
ghost use Rattle.pict_queue.specs.QueuesState.{CostsAtMost, LosesNoQueue};
ghost use Rattle.pict_view.specs.View.{StandsFor};
ghost use Rattle.pict_view.specs.Right.{IsRightFor};
ghost use Rattle.pict_view.specs.Watching.{WhereTold, Saw, SawOrTore, Ran, RanFor, BrokeOff};
ghost use Rattle.pict_machine.specs.Events.{label_of, end_of, IsEventOf, IsShown, PassesCommunications};
ghost use Rattle.pict_acting.specs.Bounds.{MakesFew};
ghost use Rattle.pict_machine.specs.Bounds.{greatest_cost_of, SpendsAtMost};
ghost use Rattle.pict_machine.specs.Machine.{IsMachine, IsRunning, core_in, running_view, view_of, heap_of, queues_of, channels_of};
ghost use Rattle.pict_machine.specs.Going.{StopsAs};

use crate::event::{End, Event, RunError, Stopped, unpacked};
use crate::machine::Machine;
use crate::stepping::Gone;
use pict_heap::Heap;
use pict_syntax::FUEL_LIMIT;

/// One who is shown each event of a run that is a communication or a printing, as soon as its step is done; printings alone
/// where `passes` says so.
///
/// Each watcher says what its view is, a list of numbers: the bytes that it has written, say, or what it has counted.
pub trait Watcher {
    /// The view, where it is told.
    ghost view: { Self → Option (List ℕ) };

    /// The view after a label was shown with its step number.
    ghost next: { Self → List ℕ → ℕ → Label → List ℕ };

    /// The views that a refused showing may leave, from the view before it.
    ghost torn: { Self → List ℕ → ℕ → Label → List ℕ → Type 0 };

    /// How often showing failed, counted up to the greatest `u64`.
    ghost faults: { Self → ℕ };

    /// It shows through the same references as before.
    ghost same: { Self → Self → Type 0 };

    /// Shows the event of the step with this number, from 1. The event's words are those of the heap. `Sink` comes only where the
    /// count of faults rose.
    fn see(&mut self, heap: &Heap, number: u64, event: &Event) -> Result<(), RunError>
        requires shown { IsShown event.now }
        requires event { IsEventOf heap.now event.now }
        ensures seen { OnOk result (WhereTold (λ before after. after ≡ next self.old before number (label_of heap.now event.now))
            (view self.old) (view self.new)) }
        ensures torn { OnErr result (WhereTold (λ before after. torn self.old before number (label_of heap.now event.now) after)
            (view self.old) (view self.new)) }
        ensures next_stays { (v : List ℕ) (n : ℕ) (l : Label) → next self.new v n l ≡ next self.old v n l }
        ensures torn_stays { (v : List ℕ) (n : ℕ) (l : Label) (after : List ℕ) → torn self.new v n l after ↔ torn self.old v n l after }
        ensures faults_stay { faults self.old ≤ faults self.new }
        ensures sink { result ≡ Err RunError.Sink → Rose (faults self.old) (faults self.new) }
        ensures same { same self.old self.new };

    /// Whether a run may pass over communications: none changes the view, told or not, and showing one does nothing else that
    /// is wanted. A run asks once, before its first step, and where this is `true` shows printings alone. `false` may always be
    /// answered.
    fn passes(&self) -> bool
        ensures { IsTrue result → PassesCommunications (next self.now) }
    {
        false
    }

    ghost same_itself: { (w : Self) → same w w };

    ghost same_along: { (u v w : Self) → same u v → same v w → same u w };
}

/// Shows the event of the step with this number, unless it is quiet or a trap. Errors, and what the watcher is afterwards, are as
/// its `see` says.
pub fn show<W: Watcher>(
    watcher: &mut W,
    heap: &Heap,
    number: u64,
    event: &Event,
) -> Result<(), RunError>
    requires { IsEventOf heap.now event.now }
    ensures seen { OnOk result (Saw (W.next watcher.old) (W.view watcher.old) (W.view watcher.new) (shown number (label_of heap.now event.now))) }
    ensures torn { OnErr result (WhereTold (λ before after. W.torn watcher.old before number (label_of heap.now event.now) after)
        (W.view watcher.old) (W.view watcher.new)) }
    ensures one { OnErr result (shown number (label_of heap.now event.now) ≡ (number, label_of heap.now event.now) ∷ []) }
    ensures next_stays { (v : List ℕ) (n : ℕ) (l : Label) → W.next watcher.new v n l ≡ W.next watcher.old v n l }
    ensures torn_stays { (v : List ℕ) (n : ℕ) (l : Label) (after : List ℕ) → W.torn watcher.new v n l after ↔ W.torn watcher.old v n l after }
    ensures faults_stay { W.faults watcher.old ≤ W.faults watcher.new }
    ensures sink { result ≡ Err RunError.Sink → Rose (W.faults watcher.old) (W.faults watcher.new) }
    ensures same { W.same watcher.old watcher.new }
{
    match event {
        Event::Quiet => Ok(()),
        Event::Trapped(_) => Ok(()),
        _ => watcher.see(heap, number, event),
    }
}

impl Machine {
    /// Up to `fuel` steps, each the oldest-first step, until nothing is ready or a step traps. After each step that shows
    /// something the watcher sees its event, with step numbers from 1; where its `passes` is `true`, only after those that print.
    ///
    /// The answer is the end of the run with this fuel, of each configuration that the machine stands for, with the
    /// number of its steps, and the watcher's view is as if it had seen exactly its labels, in order. A step that traps counts.
    /// `Sink` and `Memory` break the run off. The machine then stands for the configuration after some steps of the run. The
    /// watcher's view is as if it had seen exactly their labels, or is one that `torn` allows for the last of them. `Sink` comes
    /// only where the watcher's count of faults rose.
    ///
    /// Whatever the answer and whatever waits, the work of the queues rises by at most `fuel + 1` times the greatest cost of a step
    /// of the code. There are at most `3 * fuel` blocks more, of all widths together, and none more of a width that no node of the
    /// code and no output of kept values has; neither a block nor a queue nor room of the heap is lost: what there is and what is spare
    /// are together no less.
    ///
    /// No step within the fuel may be wrong: so it is in the run of some configuration that the machine stands for.
    pub fn run_counted<W: Watcher>(
        &mut self,
        fuel: u64,
        watcher: &mut W,
    ) -> Result<Stopped, RunError>
        requires kept { IsMachine self.old }
        requires fuel { fuel ≤ FUEL_LIMIT }
        requires few { channels_of self.old + fuel < 2 ^ 32 }
        requires right { IsRightFor (view_of self.old) fuel }
        ensures kept { IsMachine self.new }
        ensures end { IfOk result (λ s. (C : Configuration) → IsConfiguration C → StandsFor (view_of self.old) C
            → RanFor C fuel s.steps (end_of s.end) (view_of self.new) (Saw (W.next watcher.old) (W.view watcher.old) (W.view watcher.new))) }
        ensures broken { OnErr result ((C : Configuration) → IsConfiguration C → StandsFor (view_of self.old) C
            → BrokeOff C fuel (StandsFor (view_of self.new)) (SawOrTore (W.next watcher.old) (W.torn watcher.old) (W.view watcher.old) (W.view watcher.new))) }
        ensures sink { result ≡ Err RunError.Sink → Rose (W.faults watcher.old) (W.faults watcher.new) }
        ensures work { CostsAtMost ((fuel + 1) * greatest_cost_of self.old) (queues_of self.old) (queues_of self.new) }
        ensures blocks { MakesFew (core_in self.old) fuel (queues_of self.old) (queues_of self.new) }
        ensures queues { LosesNoQueue (queues_of self.old) (queues_of self.new) }
        ensures room { LosesNoRoom (heap_of self.old).room (heap_of self.new).room }
        ensures code { core_in self.new ≡ core_in self.old }
        ensures channels { channels_of self.new ≤ channels_of self.old + fuel }
        ensures keeps { KeepsWords (heap_of self.old) (heap_of self.new) }
        ensures faults_stay { W.faults watcher.old ≤ W.faults watcher.new }
        ensures next_stays { (v : List ℕ) (n : ℕ) (l : Label) → W.next watcher.new v n l ≡ W.next watcher.old v n l }
        ensures torn_stays { (v : List ℕ) (n : ℕ) (l : Label) (after : List ℕ) → W.torn watcher.new v n l after ↔ W.torn watcher.old v n l after }
        ensures same { W.same watcher.old watcher.new }
    {
        let answer = self.watch(fuel, watcher);
        self.rest();
        answer
    }

    // The same, but that somebody may have the turn before and afterwards.
    fn watch<W: Watcher>(&mut self, fuel: u64, watcher: &mut W) -> Result<Stopped, RunError>
        requires kept { IsRunning self.old }
        requires fuel { fuel ≤ FUEL_LIMIT }
        requires few { channels_of self.old + fuel < 2 ^ 32 }
        requires right { IsRightFor (running_view self.old) fuel }
        ensures kept { IsRunning self.new }
        ensures end { IfOk result (λ s. (C : Configuration) → IsConfiguration C → StandsFor (running_view self.old) C
            → RanFor C fuel s.steps (end_of s.end) (running_view self.new) (Saw (W.next watcher.old) (W.view watcher.old) (W.view watcher.new))) }
        ensures broken { OnErr result ((C : Configuration) → IsConfiguration C → StandsFor (running_view self.old) C
            → BrokeOff C fuel (StandsFor (running_view self.new))
            (SawOrTore (W.next watcher.old) (W.torn watcher.old) (W.view watcher.old) (W.view watcher.new))) }
        ensures sink { result ≡ Err RunError.Sink → Rose (W.faults watcher.old) (W.faults watcher.new) }
        ensures spends { SpendsAtMost fuel self.old self.new }
        ensures channels { channels_of self.new ≤ channels_of self.old + fuel }
        ensures keeps { KeepsWords (heap_of self.old) (heap_of self.new) }
        ensures faults_stay { W.faults watcher.old ≤ W.faults watcher.new }
        ensures next_stays { (v : List ℕ) (n : ℕ) (l : Label) → W.next watcher.new v n l ≡ W.next watcher.old v n l }
        ensures torn_stays { (v : List ℕ) (n : ℕ) (l : Label) (after : List ℕ) → W.torn watcher.new v n l after ↔ W.torn watcher.old v n l after }
        ensures same { W.same watcher.old watcher.new }
    {
        let passes = watcher.passes();
        let mut done = 0;
        while done < fuel {
            let Gone { passed, event } = self.skip_quiet(fuel - done, passes);
            done += passed;
            let event = match event? {
                Some(packed) => unpacked(packed),
                None => return Ok(self.stopped(done)),
            };
            done += 1;
            match event.trap() {
                Some(at) => {
                    return Ok(Stopped {
                        end: End::Trap(at),
                        steps: done,
                    });
                }
                None => {}
            }
            match show(watcher, self.heap(), done, &event) {
                Ok(()) => {}
                Err(error) => return Err(error),
            }
        }
        Ok(self.stopped(done))
    }

    // How a run ends that no trap ends, after so many steps.
    fn stopped(&self, steps: u64) -> Stopped
        requires { IsRunning self.now }
        ensures end { StopsAs (running_view self.now) result.end }
        ensures steps { result.steps ≡ steps }
    {
        let end = if self.has_next() {
            End::FuelSpent
        } else {
            End::Done
        };
        Stopped { end, steps }
    }

    /// The same run, of which the answer is the end alone.
    ///
    /// Errors, and what the machine and the watcher are afterwards, are as `run_counted` says. Whatever the answer, the work of the
    /// queues rises by at most `fuel + 1` times the greatest cost of a step of the code, and there are at most `3 * fuel` blocks
    /// more, of all widths together.
    pub fn run<W: Watcher>(&mut self, fuel: u64, watcher: &mut W) -> Result<End, RunError>
        requires kept { IsMachine self.old }
        requires fuel { fuel ≤ FUEL_LIMIT }
        requires few { channels_of self.old + fuel < 2 ^ 32 }
        requires right { IsRightFor (view_of self.old) fuel }
        ensures kept { IsMachine self.new }
        ensures end { IfOk result (λ end. (C : Configuration) → IsConfiguration C → StandsFor (view_of self.old) C
            → Ran C fuel (end_of end) (view_of self.new) (Saw (W.next watcher.old) (W.view watcher.old) (W.view watcher.new))) }
        ensures broken { OnErr result ((C : Configuration) → IsConfiguration C → StandsFor (view_of self.old) C
            → BrokeOff C fuel (StandsFor (view_of self.new)) (SawOrTore (W.next watcher.old) (W.torn watcher.old) (W.view watcher.old) (W.view watcher.new))) }
        ensures sink { result ≡ Err RunError.Sink → Rose (W.faults watcher.old) (W.faults watcher.new) }
        ensures work { CostsAtMost ((fuel + 1) * greatest_cost_of self.old) (queues_of self.old) (queues_of self.new) }
        ensures blocks { MakesFew (core_in self.old) fuel (queues_of self.old) (queues_of self.new) }
        ensures queues { LosesNoQueue (queues_of self.old) (queues_of self.new) }
        ensures room { LosesNoRoom (heap_of self.old).room (heap_of self.new).room }
        ensures code { core_in self.new ≡ core_in self.old }
        ensures channels { channels_of self.new ≤ channels_of self.old + fuel }
        ensures keeps { KeepsWords (heap_of self.old) (heap_of self.new) }
        ensures faults_stay { W.faults watcher.old ≤ W.faults watcher.new }
        ensures next_stays { (v : List ℕ) (n : ℕ) (l : Label) → W.next watcher.new v n l ≡ W.next watcher.old v n l }
        ensures torn_stays { (v : List ℕ) (n : ℕ) (l : Label) (after : List ℕ) → W.torn watcher.new v n l after ↔ W.torn watcher.old v n l after }
        ensures same { W.same watcher.old watcher.new }
    {
        Ok(self.run_counted(fuel, watcher)?.end)
    }
}
