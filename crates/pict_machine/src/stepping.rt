// One step of the machine.
ghost use Rattle.std.specs.Prelude.{◌≡◌, ◌≢◌, ◌≤◌, ◌<◌, ◌+◌, ◌^◌, ◌↔◌, [], map, IsOk, IsTrue, IfOk, OnErr, Ok};
ghost use Rattle.pict_core.specs.Configuration.{Configuration, IsConfiguration};
ghost use Rattle.pict_code.specs.Plain.{plain_node};
ghost use Rattle.pict_heap.specs.HeapState.{KeepsWords};
ghost use Rattle.pict_prim.specs.Acts.{UsesNeed};
ghost use Rattle.pict_desk.specs.Needs.{no_need};
ghost use Rattle.pict_view.specs.Right.{IsRightFor};
ghost use Rattle.pict_view.specs.Stepping.{IsStepOf};
ghost use Rattle.pict_view.specs.View.{StandsFor};
ghost use Rattle.pict_region.specs.RegionState.{KeepsBlocks};
ghost use Rattle.pict_queue.specs.QueuesState.{CostsAtMost, LosesNoQueue};
ghost use Rattle.pict_turns.specs.Acting.{IsStore};
ghost use Rattle.pict_desk.specs.Code.{core_in, IsCode};
ghost use Rattle.pict_turns.specs.Views.{view_with_turn};
ghost use Rattle.pict_turns.specs.Widths.{MakesOnly};
ghost use Rattle.pict_machine.specs.Events.{label_of, trap_of, IsEventOf};
ghost use Rattle.pict_turns.specs.Shown.{label_shown, trap_shown, IsShownOf};
ghost use Rattle.pict_machine.specs.Machine.{IsMachine, IsRunning, IsUnchanged, MeetsInPlace, core_in as core_of, running_view, view_of, heap_of, queues_of, channels_of, cost_of, widths_of, heap_need_of};
ghost use Rattle.pict_machine.specs.Bounds.{greatest_cost_of, SpendsAtMost};
ghost use Rattle.pict_machine.specs.Going.{GoesOn, IsPassed, MakesSteps};
ghost use Rattle.pict_turns.specs.Stepping.{GivesTurn};

use crate::event::{Event, unpacked};
use crate::machine::Machine;
use pict_acting::{AtOnce, Received, act, act_or_pass, steps_at_once};
use pict_code::Node;
use pict_syntax::Span;
use pict_turns::{Shown, Store, Turn, return_turn, take_turn};
use std::alloc::AllocError;

/// Who asks for a step that is made alone.
pub struct Alone;

/// Who asks for a step of a run.
pub struct InRun;

// Steps of a run that are passed over, and the step after them.
pub(crate) struct Gone {
    // How many steps are passed over, one after the other.
    pub(crate) passed: u64,
    // The event of the step after them, if there is one.
    pub(crate) event: Result<Option<Shown>, AllocError>,
}

// Steps that are made in one go.
pub(crate) struct Steps {
    // How many show nothing, before the last one.
    pub(crate) quiet: u64,
    // The event of the last one.
    pub(crate) event: Shown,
}

// Somebody has the turn afterwards: who has it, or else the first of queue 0, whose block is free then. Takes no memory.
#[inline(always)]
fn ensure_turn(store: &mut Store, code: &[Node])
    requires code { IsCode (map plain_node code.now) }
    requires store { IsStore (core_in code.now) store.old }
    requires ready { (view_with_turn (core_in code.now) store.old).ready ≢ [] }
    ensures { GivesTurn (core_in code.now) store.old store.new }
{
    match store.turn.get() {
        Turn::Nobody => take_turn(store, code),
        _ => {}
    }
}

// Whether a run passes over the event: over communications only where it is told to.
#[inline(always)]
fn is_passed(event: &Shown, passes: bool) -> bool
    ensures { IsTrue result ↔ IsPassed passes event.now }
{
    match event {
        Shown::Quiet => true,
        Shown::Comm { .. } => passes,
        _ => false,
    }
}

impl Machine {
    /// One step: that of the oldest ready process, with its oldest partner.
    ///
    /// The event is the label of the oldest-first step, for each configuration that the machine stands for, by words of the
    /// heap, and the machine stands for the next configuration. `Trapped` comes exactly where the step divides by zero. The
    /// only error is want of memory. After a trap or an error nothing has changed but room, spare blocks, work, and the values
    /// of levels, which count for nothing between two calls, so the step can be tried again. There are no fewer free blocks of any
    /// width then, no fewer spare queues, and no less room in the heap.
    ///
    /// Whatever the answer, the work of the queues rises by at most 64 times the sizes of the acting instruction and of its
    /// partner's, however many processes wait. Blocks are made only where fewer are free than the step needs, and then only as
    /// many as are wanting, and neither a block nor a queue is lost. The heap has at most the texts and records more that the step
    /// needs: those of an operand with a variable that is sent, or of its fields where it is given to a primitive, what a primitive
    /// answers, and a record for each part whose frame is too large to stand in a block. No room of it is lost. Where a message and
    /// an input that isn't replicated meet, what is sent is no operand that is a text or a record with a variable, and the block of
    /// the input's part is as wide as a free one or one of the two that meet, no memory is taken, and nothing is added to the heap.
    ///
    /// The step may not be wrong: some configuration that the machine stands for takes it rightly. A wrong step is one that
    /// sends to or receives from what is no channel, tests what is no Bool, gives a primitive what it doesn't take, or
    /// meets a value that doesn't fit a pattern.
    pub fn step(&mut self) -> Result<Event, AllocError>
        requires kept { IsMachine self.old }
        requires ready { (view_of self.old).ready ≢ [] }
        requires few { channels_of self.old + 1 < 2 ^ 32 }
        requires right { IsRightFor (view_of self.old) 1 }
        ensures kept { IsMachine self.new }
        ensures ok { IfOk result (λ event. (C : Configuration) → IsConfiguration C → StandsFor (view_of self.old) C
            → IsStepOf C (label_of (heap_of self.new) event) (trap_of event) (view_of self.new)) }
        ensures event { IfOk result (IsEventOf (heap_of self.new)) }
        ensures trapped { (at : Span) → result ≡ Ok (Event.Trapped at) → IsUnchanged self.old self.new }
        ensures refused { OnErr result (IsUnchanged self.old self.new) }
        ensures keeps { KeepsWords (heap_of self.old) (heap_of self.new) }
        ensures work { CostsAtMost (cost_of self.old) (queues_of self.old) (queues_of self.new) }
        ensures blocks { MakesOnly (queues_of self.old) (queues_of self.new) (widths_of self.old) }
        ensures adds { UsesNeed (heap_of self.old).room (heap_of self.new).room (heap_need_of self.old) }
        ensures plain_adds { MeetsInPlace self.old → UsesNeed (heap_of self.old).room (heap_of self.new).room no_need }
        ensures plain { MeetsInPlace self.old
            → IsOk result × KeepsBlocks (queues_of self.old).region (queues_of self.new).region }
        ensures channels { channels_of self.new ≤ channels_of self.old + 1 }
        ensures queues { LosesNoQueue (queues_of self.old) (queues_of self.new) }
        ensures code { core_of self.new ≡ core_of self.old }
    {
        match self.step_shown() {
            Ok(event) => Ok(unpacked(event)),
            Err(error) => Err(error),
        }
    }

    // The same, and the event is packed.
    fn step_shown(&mut self) -> Result<Shown, AllocError>
        requires kept { IsMachine self.old }
        requires ready { (view_of self.old).ready ≢ [] }
        requires few { channels_of self.old + 1 < 2 ^ 32 }
        requires right { IsRightFor (view_of self.old) 1 }
        ensures kept { IsMachine self.new }
        ensures ok { IfOk result (λ event. (C : Configuration) → IsConfiguration C → StandsFor (view_of self.old) C
            → IsStepOf C (label_shown (heap_of self.new) event) (trap_shown event) (view_of self.new)) }
        ensures event { IfOk result (IsShownOf (heap_of self.new)) }
        ensures trapped { (at : Span) → result ≡ Ok (Shown.Trapped at) → IsUnchanged self.old self.new }
        ensures refused { OnErr result (IsUnchanged self.old self.new) }
        ensures keeps { KeepsWords (heap_of self.old) (heap_of self.new) }
        ensures work { CostsAtMost (cost_of self.old) (queues_of self.old) (queues_of self.new) }
        ensures blocks { MakesOnly (queues_of self.old) (queues_of self.new) (widths_of self.old) }
        ensures adds { UsesNeed (heap_of self.old).room (heap_of self.new).room (heap_need_of self.old) }
        ensures plain { MeetsInPlace self.old
            → IsOk result × KeepsBlocks (queues_of self.old).region (queues_of self.new).region }
        ensures channels { channels_of self.new ≤ channels_of self.old + 1 }
        ensures queues { LosesNoQueue (queues_of self.old) (queues_of self.new) }
        ensures code { core_of self.new ≡ core_of self.old }
    {
        take_turn(&mut self.store, &self.code.nodes);
        let result = act::<Alone>(&self.code.nodes, &self.constants, &mut self.store);
        return_turn(&mut self.store, &self.code.nodes);
        result
    }

    // Whether somebody has the turn, or stands in queue 0.
    #[inline(always)]
    pub(crate) fn has_next(&self) -> bool
        requires { IsRunning self.now }
        ensures { IsTrue result ↔ ((running_view self.now).ready ≢ []) }
    {
        match self.store.turn.get() {
            Turn::Nobody => self.is_ready(),
            _ => true,
        }
    }

    // At most so many steps of a run, of which all but the last one show nothing: the five of a call of a primitive whose answer is
    // awaited, where nobody else is ready, or the three of a reader that waits at a new channel, or else one. They are those of who has
    // the turn, or else of the first of queue 0, and somebody may have the turn afterwards. The last one shows nothing either where it is
    // a communication that is passed over and has no words. An error, which is want of memory, is that of no step. They cost no more than
    // one step may.
    #[inline(always)]
    fn make_steps(&mut self, most: u64, passes: bool) -> Result<Steps, AllocError>
        requires kept { IsRunning self.old }
        requires some { 1 ≤ most }
        requires ready { (running_view self.old).ready ≢ [] }
        requires few { channels_of self.old + 1 < 2 ^ 32 }
        requires right { IsRightFor (running_view self.old) 1 }
        ensures kept { IsRunning self.new }
        ensures made { IfOk result (MakesSteps passes self.old self.new) }
        ensures within { IfOk result (λ steps. steps.quiet + 1 ≤ most) }
        ensures refused { OnErr result (running_view self.new ≡ running_view self.old) }
        ensures keeps { KeepsWords (heap_of self.old) (heap_of self.new) }
        ensures spends { SpendsAtMost 1 self.old self.new }
        ensures channels { channels_of self.new ≤ channels_of self.old + 1 }
    {
        ensure_turn(&mut self.store, &self.code.nodes);
        match steps_at_once(&self.code.nodes, &mut self.store, most)? {
            Some(AtOnce::Call(Received { channel, value })) => Ok(Steps {
                quiet: 4,
                event: Shown::Comm { channel, value },
            }),
            Some(AtOnce::Wait) => Ok(Steps {
                quiet: 2,
                event: Shown::Quiet,
            }),
            None => {
                let event = act_or_pass::<InRun>(
                    &self.code.nodes,
                    &self.constants,
                    &mut self.store,
                    passes,
                )?;
                Ok(Steps { quiet: 0, event })
            }
        }
    }

    // Up to `most` steps of a run, until one shows something that isn't passed over or divides by zero, nobody is next, or memory
    // is wanting. Only the last one can have an event or an error. Communications are passed over where `passes` is true.
    //
    // It is no part of the loops that show events, of which each watcher has its own: so there is one copy of the step.
    #[inline(never)]
    pub(crate) fn skip_quiet(&mut self, most: u64, passes: bool) -> Gone
        requires kept { IsRunning self.old }
        requires few { channels_of self.old + most < 2 ^ 32 }
        requires right { IsRightFor (running_view self.old) most }
        ensures kept { IsRunning self.new }
        ensures gone { GoesOn passes self.old self.new most result.passed result.event }
        ensures keeps { KeepsWords (heap_of self.old) (heap_of self.new) }
        ensures channels { channels_of self.new ≤ channels_of self.old + most }
        ensures made { channels_of self.new ≤ channels_of self.old + result.passed + 1 }
        ensures spends { SpendsAtMost most self.old self.new }
        ensures spends_passed { SpendsAtMost (result.passed + 1) self.old self.new }
    {
        let mut step = 0;
        while step < most {
            if !self.has_next() {
                return Gone {
                    passed: step,
                    event: Ok(None),
                };
            }
            match self.make_steps(most - step, passes) {
                Ok(Steps { quiet, event }) => {
                    if !is_passed(&event, passes) {
                        return Gone {
                            passed: step + quiet,
                            event: Ok(Some(event)),
                        };
                    }
                    step += quiet + 1;
                }
                Err(error) => {
                    return Gone {
                        passed: step,
                        event: Err(error),
                    };
                }
            }
        }
        Gone {
            passed: most,
            event: Ok(None),
        }
    }

    // Nobody has the turn any more: who had it is the first of queue 0.
    pub(crate) fn rest(&mut self)
        requires kept { IsRunning self.old }
        ensures kept { IsMachine self.new }
        ensures view { view_of self.new ≡ running_view self.old }
        ensures heap { heap_of self.new ≡ heap_of self.old }
        ensures work { CostsAtMost (greatest_cost_of self.old) (queues_of self.old) (queues_of self.new) }
        ensures blocks { KeepsBlocks (queues_of self.old).region (queues_of self.new).region }
        ensures channels { channels_of self.new ≡ channels_of self.old }
        ensures queues { LosesNoQueue (queues_of self.old) (queues_of self.new) }
        ensures code { core_of self.new ≡ core_of self.old }
    {
        return_turn(&mut self.store, &self.code.nodes);
    }
}
