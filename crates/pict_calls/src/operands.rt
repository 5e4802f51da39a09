// A primitive acts on an operand.
ghost use Rattle.std.specs.Prelude.{◌≡◌, ◌+◌, ◌≤◌, [], IfOk, IsSome, OnErr, Some, length};
ghost use Rattle.pict_syntax.specs.declared.primitive.Primitive.TheVariants as primitive;
ghost use Rattle.pict_core.specs.Closed.{IsOver};
ghost use Rattle.pict_core.specs.Plain.{plain_val};
ghost use Rattle.pict_core.specs.Primitives.{Effect, effect_of};
ghost use Rattle.pict_core.specs.Term.{Process, Text};
ghost use Rattle.pict_desk.specs.AtHand.{IsOfHeap};
ghost use Rattle.pict_desk.specs.Pairs.{ArePairs};
ghost use Rattle.pict_turns.specs.Acting.{HasActing, IsRefused};
ghost use Rattle.pict_desk.specs.Room.{KeepsPiles};
ghost use Rattle.pict_turns.specs.Growing.{AddsAtMost, argument_need};
ghost use Rattle.pict_turns.specs.Turns.{turn_cost};
ghost use Rattle.pict_prim.specs.Acts.{answer_need};
ghost use Rattle.pict_desk.specs.Needs.{both_needs, text_need};
ghost use Rattle.pict_turns.specs.Widths.{MakesOnly, answer_widths};
ghost use Rattle.pict_calls.specs.Calling.{CallsOn};
ghost use Rattle.pict_turns.specs.Stepping.{Acts};
ghost use Rattle.pict_desk.specs.Arguments.{operand_in};

use crate::calling::call;
use crate::fields::call_fields;
use crate::finishing::finish;
use pict_blocks::KEPT_WIDTH;
use pict_code::Operand;
use pict_core::CoreVal;
use pict_desk::{is_small, word_at_hand};
use pict_prim::{Act, Need};
use pict_syntax::{Prim, Span};
use pict_turns::{Shown, Store, reserve};
use std::alloc::AllocError;

// Who has the turn is the output of this text to `print`, at this place in the text: as `call` says.
#[inline(never)]
fn print_text(store: &mut Store, bytes: &[u8], at: Span) -> Result<Shown, AllocError>
    ensures done { (core : Process) → CallsOn core store.old primitive.Print (Text bytes.now) at → IfOk result (Acts core store.old store.new) }
    ensures refused { (core : Process) → HasActing core store.old → OnErr result (IsRefused core store.old store.new) }
    ensures piles { KeepsPiles store.old.desk.pending store.new.desk.pending }
    ensures blocks { MakesOnly store.old.queues store.new.queues [] }
    ensures adds { AddsAtMost store.old store.new (text_need (length bytes.now)) }
    ensures work { store.new.queues.region.work ≡ store.old.queues.region.work }
    ensures turn { (core : Process) → turn_cost core store.new ≤ turn_cost core store.old + 13 }
{
    let need = Need {
        records: 0,
        fields: 0,
        texts: 1,
        bytes: bytes.len() as u64,
    };
    reserve(store, need, KEPT_WIDTH, 0)?;
    let text = store.desk.heap.add_text(bytes);
    Ok(finish(store, Act::Print(text), at))
}

// The same as `call_operand`, of an operand that is neither a text nor a record.
#[inline(never)]
fn call_simple(store: &mut Store, p: Prim, message: &Operand, at: Span) -> Result<Shown, AllocError>
    requires at_hand { IsOfHeap (plain_val message.now) → ⊥ }
    requires over { IsOver (length store.old.desk.values.items) 0 (plain_val message.now) }
    requires pairs { ArePairs store.old.desk.heap store.old.desk.values.items }
    requires takes { IsSome (effect_of p (operand_in store.old.desk.heap store.old.desk.values.items (plain_val message.now))) }
    ensures done { (core : Process)
        → CallsOn core store.old p (operand_in store.old.desk.heap store.old.desk.values.items (plain_val message.now)) at
        → IfOk result (Acts core store.old store.new) }
    ensures refused { (core : Process) → HasActing core store.old → OnErr result (IsRefused core store.old store.new) }
    ensures piles { KeepsPiles store.old.desk.pending store.new.desk.pending }
    ensures blocks { (e : Effect) → effect_of p (operand_in store.old.desk.heap store.old.desk.values.items (plain_val message.now)) ≡ Some e
        → MakesOnly store.old.queues store.new.queues (answer_widths e) }
    ensures adds { (e : Effect) → effect_of p (operand_in store.old.desk.heap store.old.desk.values.items (plain_val message.now)) ≡ Some e
        → AddsAtMost store.old store.new (answer_need e) }
    ensures work { store.new.queues.region.work ≡ store.old.queues.region.work }
    ensures turn { (core : Process) → turn_cost core store.new ≤ turn_cost core store.old + 13 }
{
    match word_at_hand(message, &store.desk.values) {
        Some(argument) => call(store, p, argument, at),
        None => unreachable!(),
    }
}

/// Who has the turn is the output of the operand to the primitive, at this place in the text; each variable of the operand has the
/// two words of its level in the store. The primitive acts: it prints, or answers, or both; the answer's output, of kept values
/// at the same place, has the turn then. Dividing by zero and an error, which is want of memory, change nothing but room and
/// spare blocks. A record that is the operand is not made. The heap has at most the words of its fields without labels and what is
/// answered more. It takes time in the nodes of the operand and in the bytes of texts.
#[inline(always)]
pub(crate) fn call_operand(
    store: &mut Store,
    p: Prim,
    message: &Operand,
    at: Span,
) -> Result<Shown, AllocError>
    requires over { IsOver (length store.old.desk.values.items) 0 (plain_val message.now) }
    requires pairs { ArePairs store.old.desk.heap store.old.desk.values.items }
    requires takes { IsSome (effect_of p (operand_in store.old.desk.heap store.old.desk.values.items (plain_val message.now))) }
    ensures done { (core : Process)
        → CallsOn core store.old p (operand_in store.old.desk.heap store.old.desk.values.items (plain_val message.now)) at
        → IfOk result (Acts core store.old store.new) }
    ensures refused { (core : Process) → HasActing core store.old → OnErr result (IsRefused core store.old store.new) }
    ensures piles { KeepsPiles store.old.desk.pending store.new.desk.pending }
    ensures blocks { (e : Effect) → effect_of p (operand_in store.old.desk.heap store.old.desk.values.items (plain_val message.now)) ≡ Some e
        → MakesOnly store.old.queues store.new.queues (answer_widths e) }
    ensures adds { (e : Effect) → effect_of p (operand_in store.old.desk.heap store.old.desk.values.items (plain_val message.now)) ≡ Some e
        → AddsAtMost store.old store.new (both_needs (argument_need (plain_val message.now)) (answer_need e)) }
    ensures work { store.new.queues.region.work ≡ store.old.queues.region.work }
    ensures turn { (core : Process) → turn_cost core store.new ≤ turn_cost core store.old + 13 }
{
    if is_small(message) {
        return call_simple(store, p, message, at);
    }
    match message {
        CoreVal::Fields { positional, .. } => call_fields(store, p, positional, at),
        CoreVal::Text(bytes) => print_text(store, bytes.slice(), at),
        _ => call_simple(store, p, message, at),
    }
}
