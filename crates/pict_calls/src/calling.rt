// A primitive acts on words.
ghost use Rattle.std.specs.Prelude.{◌≡◌, ◌+◌, ◌≤◌, All, IfOk, IsSome, OnErr, Some};
ghost use Rattle.pict_syntax.specs.declared.primitive.Primitive.{Primitive};
ghost use Rattle.pict_core.specs.Term.{Val, Labelled, Process};
ghost use Rattle.pict_core.specs.Primitives.{Effect, effect_of};
ghost use Rattle.pict_heap.specs.HeapState.{value_of, IsWord};
ghost use Rattle.pict_prim.specs.Acts.{effect_act, answer_need, IsActOf};
ghost use Rattle.pict_turns.specs.Acting.{HasActing, IsRefused};
ghost use Rattle.pict_desk.specs.Room.{KeepsPiles};
ghost use Rattle.pict_turns.specs.Growing.{AddsAtMost};
ghost use Rattle.pict_turns.specs.Turns.{turn_cost};
ghost use Rattle.pict_turns.specs.Widths.{MakesOnly, answer_widths};
ghost use Rattle.pict_desk.specs.Arguments.{record_of_words};
ghost use Rattle.pict_calls.specs.Calling.{CallsOn};
ghost use Rattle.pict_turns.specs.Stepping.{Acts};

use crate::finishing::{finish, outputs};
use pict_blocks::KEPT_WIDTH;
use pict_desk::act_of;
use pict_heap::Word;
use pict_prim::{Act, act_on, room_of};
use pict_syntax::{Prim, Span};
use pict_turns::{Shown, Store, reserve};
use std::alloc::AllocError;

// Does what the primitive is about to do for the output that has the turn, as `call` says.
#[inline(always)]
fn carry_out(store: &mut Store, act: Act, at: Span) -> Result<Shown, AllocError>
    requires act { IsActOf store.old.desk.heap act }
    ensures done { (core : Process) (p : Primitive) (v : Val) → CallsOn core store.old p v at → effect_of p v ≡ Some (effect_act store.old.desk.heap act)
        → IfOk result (Acts core store.old store.new) }
    ensures refused { (core : Process) → HasActing core store.old → OnErr result (IsRefused core store.old store.new) }
    ensures piles { KeepsPiles store.old.desk.pending store.new.desk.pending }
    ensures blocks { MakesOnly store.old.queues store.new.queues (answer_widths (effect_act store.old.desk.heap act)) }
    ensures adds { AddsAtMost store.old store.new (answer_need (effect_act store.old.desk.heap act)) }
    ensures work { store.new.queues.region.work ≡ store.old.queues.region.work }
    ensures turn { (core : Process) → turn_cost core store.new ≤ turn_cost core store.old + 13 }
{
    let need = room_of(&store.desk.heap, act);
    reserve(store, need, KEPT_WIDTH, outputs(act))?;
    Ok(finish(store, act, at))
}

/// Who has the turn is the output of the word to the primitive, at this place in the text: the primitive acts. It prints, or
/// answers, or both; the answer's output, of kept values at the same place, has the turn then. The heap has at most what is answered
/// more. Dividing by zero and an error, which is want of memory, change nothing but room and spare blocks.
#[inline(never)]
pub(crate) fn call(
    store: &mut Store,
    p: Prim,
    argument: Word,
    at: Span,
) -> Result<Shown, AllocError>
    requires word { IsWord store.old.desk.heap argument }
    requires takes { IsSome (effect_of p (value_of store.old.desk.heap argument)) }
    ensures done { (core : Process) → CallsOn core store.old p (value_of store.old.desk.heap argument) at
        → IfOk result (Acts core store.old store.new) }
    ensures refused { (core : Process) → HasActing core store.old → OnErr result (IsRefused core store.old store.new) }
    ensures piles { KeepsPiles store.old.desk.pending store.new.desk.pending }
    ensures blocks { (e : Effect) → effect_of p (value_of store.old.desk.heap argument) ≡ Some e
        → MakesOnly store.old.queues store.new.queues (answer_widths e) }
    ensures adds { (e : Effect) → effect_of p (value_of store.old.desk.heap argument) ≡ Some e → AddsAtMost store.old store.new (answer_need e) }
    ensures work { store.new.queues.region.work ≡ store.old.queues.region.work }
    ensures turn { (core : Process) → turn_cost core store.new ≤ turn_cost core store.old + 13 }
{
    match act_on(&store.desk.heap, p, argument) {
        Some(act) => carry_out(store, act, at),
        None => unreachable!(),
    }
}

/// The same as `call`, of a record with these fields and any labels. The record need not be in the heap.
#[inline(always)]
pub(crate) fn call_words(
    store: &mut Store,
    p: Prim,
    fields: &[Word],
    at: Span,
) -> Result<Shown, AllocError>
    requires words { All (IsWord store.old.desk.heap) fields.now }
    requires takes { (labelled : Labelled) × IsSome (effect_of p (record_of_words store.old.desk.heap fields.now labelled)) }
    ensures done { (core : Process) (labelled : Labelled) → CallsOn core store.old p (record_of_words store.old.desk.heap fields.now labelled) at
        → IfOk result (Acts core store.old store.new) }
    ensures refused { (core : Process) → HasActing core store.old → OnErr result (IsRefused core store.old store.new) }
    ensures piles { KeepsPiles store.old.desk.pending store.new.desk.pending }
    ensures blocks { (labelled : Labelled) (e : Effect) → effect_of p (record_of_words store.old.desk.heap fields.now labelled) ≡ Some e
        → MakesOnly store.old.queues store.new.queues (answer_widths e) }
    ensures adds { (labelled : Labelled) (e : Effect) → effect_of p (record_of_words store.old.desk.heap fields.now labelled) ≡ Some e
        → AddsAtMost store.old store.new (answer_need e) }
    ensures work { store.new.queues.region.work ≡ store.old.queues.region.work }
    ensures turn { (core : Process) → turn_cost core store.new ≤ turn_cost core store.old + 13 }
{
    let act = act_of(&store.desk.heap, p, fields);
    carry_out(store, act, at)
}
