// A primitive acts on the fields of an operand. The record itself is not made.
ghost use Rattle.std.specs.Prelude.{◌≡◌, ◌+◌, ◌≤◌, ◌∷◌, [], length, map, IfOk, OnOk, OnErr, IsSome, Some};
ghost use Rattle.pict_region.specs.RegionState.{spare};
ghost use Rattle.pict_core.specs.Closed.{AreOver};
ghost use Rattle.pict_core.specs.Plain.{plain_val, vals_of};
ghost use Rattle.pict_core.specs.Primitives.{Effect, effect_of};
ghost use Rattle.pict_core.specs.Term.{Process, Labelled};
ghost use Rattle.pict_desk.specs.Pairs.{ArePairs};
ghost use Rattle.pict_turns.specs.Acting.{HasActing, IsRefused};
ghost use Rattle.pict_turns.specs.Reserving.{OnlyReserves};
ghost use Rattle.pict_desk.specs.Room.{KeepsPiles};
ghost use Rattle.pict_turns.specs.Growing.{AddsAtMost};
ghost use Rattle.pict_turns.specs.Turns.{turn_cost};
ghost use Rattle.pict_prim.specs.Acts.{answer_need};
ghost use Rattle.pict_desk.specs.Needs.{both_needs, needs_of};
ghost use Rattle.pict_turns.specs.Widths.{MakesOnly, answer_widths};
ghost use Rattle.pict_calls.specs.Calling.{CallsOn};
ghost use Rattle.pict_turns.specs.Stepping.{Acts};
ghost use Rattle.pict_desk.specs.Arguments.{argument_of, HasRoomForCall};

use crate::calling::call_words;
use crate::finishing::finish;
use pict_code::Operand;
use pict_desk::{
    answer_at_hand, answer_len, both, decide, divides_by_zero, need_of_all, three_at_hand,
    two_at_hand,
};
use pict_prim::{NO_NEED, Need};
use pict_syntax::{Prim, Span};
use pict_turns::{Shown, Store, Turn, reserve_kept};
use std::alloc::AllocError;

// Makes room for the words of the fields, for what the primitive adds, and for the output of the answer. An error, which is
// want of memory, changes nothing but room and spare blocks.
fn make_call_room(store: &mut Store, p: Prim, fields: &[Operand]) -> Result<(), AllocError>
    requires over { AreOver (length store.old.desk.values.items) 0 (vals_of (map plain_val fields.now)) }
    requires pairs { ArePairs store.old.desk.heap store.old.desk.values.items }
    ensures room { OnOk result (HasRoomForCall store.old.desk store.new.desk p fields.now) }
    ensures spare { OnOk result (1 ≤ spare store.new.queues.region 9) }
    ensures most { MakesOnly store.old.queues store.new.queues (9 ∷ []) }
    ensures rest { OnlyReserves store.old store.new }
{
    let answered = answer_len(&store.desk.heap, p, fields, &store.desk.values);
    let own = Need {
        records: 1,
        fields: fields.len() as u64,
        texts: 1,
        bytes: answered.max(20),
    };
    let need = both(own, need_of_all(fields)?)?;
    reserve_kept(store, need)?;
    Ok(())
}

// The same as `call_fields`, where words of the fields are made in the heap.
fn call_making(
    store: &mut Store,
    p: Prim,
    fields: &[Operand],
    at: Span,
) -> Result<Shown, AllocError>
    requires over { AreOver (length store.old.desk.values.items) 0 (vals_of (map plain_val fields.now)) }
    requires pairs { ArePairs store.old.desk.heap store.old.desk.values.items }
    requires takes { (labelled : Labelled) × IsSome (effect_of p (argument_of store.old.desk.heap store.old.desk.values.items fields.now labelled)) }
    ensures done { (core : Process) (labelled : Labelled)
        → CallsOn core store.old p (argument_of store.old.desk.heap store.old.desk.values.items fields.now labelled) at
        → IfOk result (Acts core store.old store.new) }
    ensures refused { (core : Process) → HasActing core store.old → OnErr result (IsRefused core store.old store.new) }
    ensures piles { KeepsPiles store.old.desk.pending store.new.desk.pending }
    ensures blocks { (labelled : Labelled) (e : Effect)
        → effect_of p (argument_of store.old.desk.heap store.old.desk.values.items fields.now labelled) ≡ Some e
        → MakesOnly store.old.queues store.new.queues (answer_widths e) }
    ensures adds { (labelled : Labelled) (e : Effect)
        → effect_of p (argument_of store.old.desk.heap store.old.desk.values.items fields.now labelled) ≡ Some e
        → AddsAtMost store.old store.new (both_needs (needs_of (vals_of (map plain_val fields.now))) (answer_need e)) }
    ensures work { store.new.queues.region.work ≡ store.old.queues.region.work }
    ensures turn { (core : Process) → turn_cost core store.new ≤ turn_cost core store.old + 13 }
{
    if divides_by_zero(p, fields, &store.desk.values) {
        return Ok(Shown::Trapped(at));
    }
    make_call_room(store, p, fields)?;
    let act = decide(&mut store.desk, p, fields);
    Ok(finish(store, act, at))
}

// The same as `call_fields`, of any fields.
#[inline(never)]
fn call_any(store: &mut Store, p: Prim, fields: &[Operand], at: Span) -> Result<Shown, AllocError>
    requires over { AreOver (length store.old.desk.values.items) 0 (vals_of (map plain_val fields.now)) }
    requires pairs { ArePairs store.old.desk.heap store.old.desk.values.items }
    requires takes { (labelled : Labelled) × IsSome (effect_of p (argument_of store.old.desk.heap store.old.desk.values.items fields.now labelled)) }
    ensures done { (core : Process) (labelled : Labelled)
        → CallsOn core store.old p (argument_of store.old.desk.heap store.old.desk.values.items fields.now labelled) at
        → IfOk result (Acts core store.old store.new) }
    ensures refused { (core : Process) → HasActing core store.old → OnErr result (IsRefused core store.old store.new) }
    ensures piles { KeepsPiles store.old.desk.pending store.new.desk.pending }
    ensures blocks { (labelled : Labelled) (e : Effect)
        → effect_of p (argument_of store.old.desk.heap store.old.desk.values.items fields.now labelled) ≡ Some e
        → MakesOnly store.old.queues store.new.queues (answer_widths e) }
    ensures adds { (labelled : Labelled) (e : Effect)
        → effect_of p (argument_of store.old.desk.heap store.old.desk.values.items fields.now labelled) ≡ Some e
        → AddsAtMost store.old store.new (both_needs (needs_of (vals_of (map plain_val fields.now))) (answer_need e)) }
    ensures work { store.new.queues.region.work ≡ store.old.queues.region.work }
    ensures turn { (core : Process) → turn_cost core store.new ≤ turn_cost core store.old + 13 }
{
    if let Some(words) = three_at_hand(fields, &store.desk.values) {
        return call_words(store, p, &words, at);
    }
    if let Some(words) = two_at_hand(fields, &store.desk.values) {
        return call_words(store, p, &words, at);
    }
    call_making(store, p, fields, at)
}

/// Who has the turn is the output of a record with these fields and any labels to the primitive, at this place in the text: the
/// primitive acts, as `call` says. The record is not made, only the words of its fields that are texts or records, and what a
/// primitive answers of two numbers goes through no heap.
#[inline(always)]
pub(crate) fn call_fields(
    store: &mut Store,
    p: Prim,
    fields: &[Operand],
    at: Span,
) -> Result<Shown, AllocError>
    requires over { AreOver (length store.old.desk.values.items) 0 (vals_of (map plain_val fields.now)) }
    requires pairs { ArePairs store.old.desk.heap store.old.desk.values.items }
    requires takes { (labelled : Labelled) × IsSome (effect_of p (argument_of store.old.desk.heap store.old.desk.values.items fields.now labelled)) }
    ensures done { (core : Process) (labelled : Labelled)
        → CallsOn core store.old p (argument_of store.old.desk.heap store.old.desk.values.items fields.now labelled) at
        → IfOk result (Acts core store.old store.new) }
    ensures refused { (core : Process) → HasActing core store.old → OnErr result (IsRefused core store.old store.new) }
    ensures piles { KeepsPiles store.old.desk.pending store.new.desk.pending }
    ensures blocks { (labelled : Labelled) (e : Effect)
        → effect_of p (argument_of store.old.desk.heap store.old.desk.values.items fields.now labelled) ≡ Some e
        → MakesOnly store.old.queues store.new.queues (answer_widths e) }
    ensures adds { (labelled : Labelled) (e : Effect)
        → effect_of p (argument_of store.old.desk.heap store.old.desk.values.items fields.now labelled) ≡ Some e
        → AddsAtMost store.old store.new (both_needs (needs_of (vals_of (map plain_val fields.now))) (answer_need e)) }
    ensures work { store.new.queues.region.work ≡ store.old.queues.region.work }
    ensures turn { (core : Process) → turn_cost core store.new ≤ turn_cost core store.old + 13 }
{
    if let Some(kept) = answer_at_hand(p, fields, &store.desk.values, at) {
        reserve_kept(store, NO_NEED)?;
        store.turn.set(Turn::Output(kept));
        return Ok(Shown::Quiet);
    }
    call_any(store, p, fields, at)
}
