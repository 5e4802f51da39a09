// The deeds of outputs to primitives.
ghost use Rattle.std.specs.Prelude.{◌≡◌, IfOk, IsSome, OnErr, OnOk, length, map, Some};
ghost use Rattle.pict_syntax.specs.declared.span.Span.{Span as AnySpan};
ghost use Rattle.pict_syntax.specs.declared.primitive.Primitive.TheVariants as primitive;
ghost use Rattle.pict_core.specs.Closed.{IsOver, AreOver};
ghost use Rattle.pict_core.specs.Plain.{plain_val, vals_of};
ghost use Rattle.pict_core.specs.Primitives.{Effect, effect_of};
ghost use Rattle.pict_core.specs.Term.{Labelled, Text};
ghost use Rattle.pict_heap.specs.HeapState.{HeapState, value_of, IsWord, KeepsWords};
ghost use Rattle.pict_prim.specs.Acts.{effect_act, need_of, IsActOf, HasRoom};
ghost use Rattle.pict_desk.specs.Arguments.{operand_in, argument_of, HasRoomForCall};
ghost use Rattle.pict_desk.specs.AtHand.{IsOfHeap};
ghost use Rattle.pict_desk.specs.Constants.{OnlyMakes};
ghost use Rattle.pict_desk.specs.Kept.{IsOutput};
ghost use Rattle.pict_desk.specs.Needs.{IsMade};
ghost use Rattle.pict_desk.specs.Pairs.{ArePairs};
ghost use Rattle.pict_desk.specs.Room.{KeepsHeap, OnlyMakesRoom};
ghost use Rattle.pict_picker.specs.Calling.{HasEffect};
ghost use Rattle.pict_picker.specs.Deeds.{IsUndone};

use crate::deed::Deed;
use crate::waiting::Waiting;
use pict_code::Operand;
use pict_core::CoreVal;
use pict_desk::{
    Desk, Kept, answer_at_hand, answer_len, both, decide, divides_by_zero, need, need_of_all,
    reserve_room, word_at_hand, word_of,
};
use pict_heap::{Heap, Word, pack};
use pict_prim::{Act, Done, Need, act_on, perform, room_of};
use pict_syntax::{Prim, Span};
use std::alloc::AllocError;

/// The word of an operand, each variable of which has the two words of its level. The only error is want of memory, and then
/// the heap has the texts and the records that it had.
pub(crate) fn make_word(desk: &mut Desk, operand: &Operand) -> Result<Word, AllocError>
    requires over { IsOver (length desk.old.values.items) 0 (plain_val operand.now) }
    requires pairs { ArePairs desk.old.heap desk.old.values.items }
    ensures made { IfOk result (λ w. IsMade desk.old.heap desk.new.heap w (operand_in desk.old.heap desk.old.values.items (plain_val operand.now))) }
    ensures rest { OnlyMakes desk.old desk.new }
    ensures refused { OnErr result (KeepsHeap desk.old.heap desk.new.heap) }
{
    let need = need(operand)?;
    reserve_room(desk, need)?;
    let word = word_of(&mut desk.heap, &mut desk.pending, operand, &desk.values);
    Ok(word)
}

// The kept words of the output of a message on a word, at this place.
fn output_to(to: Word, message: Word, at: Span) -> Kept
    ensures { (h : HeapState) → IsWord h to → IsWord h message → IsOutput h (value_of h to) (value_of h message) at result }
{
    Kept {
        to: pack(to),
        message: pack(message),
        at,
    }
}

// The primitive does what it is about to do. Room for it was made before. Takes no memory.
fn finish(heap: &mut Heap, act: Act, at: Span) -> Deed
    requires act { IsActOf heap.old act }
    requires room { HasRoom heap.old.room (need_of heap.old act) }
    ensures effect { HasEffect heap.new (effect_act heap.old act) at result }
    ensures keeps { KeepsWords heap.old heap.new }
    ensures zero { act ≡ Act.ZeroDivisor → heap.new ≡ heap.old }
{
    match perform(heap, act) {
        Done::Printed(word) => Deed::Ends(Some(word)),
        Done::Answer(to, answer) => {
            Deed::Keeps(Waiting::Output(output_to(to, answer, at)), None)
        }
        Done::PrintedAnswer(word, to, answer) => Deed::Keeps(
            Waiting::Output(output_to(to, answer, at)),
            Some(word),
        ),
        Done::ZeroDivisor => Deed::Stops(at),
    }
}

/// Of an output of the word to the primitive: the primitive acts. The only error is want of memory. After it, and after a trap,
/// the heap has the texts and the records that it had.
pub(crate) fn call(desk: &mut Desk, p: Prim, argument: Word, at: Span) -> Result<Deed, AllocError>
    requires word { IsWord desk.old.heap argument }
    requires takes { IsSome (effect_of p (value_of desk.old.heap argument)) }
    ensures effect { (e : Effect) → effect_of p (value_of desk.old.heap argument) ≡ Some e → IfOk result (HasEffect desk.new.heap e at) }
    ensures rest { OnlyMakes desk.old desk.new }
    ensures undone { IsUndone result → KeepsHeap desk.old.heap desk.new.heap }
{
    match act_on(&desk.heap, p, argument) {
        Some(act) => {
            let need = room_of(&desk.heap, act);
            reserve_room(desk, need)?;
            Ok(finish(&mut desk.heap, act, at))
        }
        None => unreachable!(),
    }
}

// Makes room for the words of the fields, and for what the primitive adds. An error, which is want of memory, changes nothing
// but room.
fn make_call_room(desk: &mut Desk, p: Prim, fields: &[Operand]) -> Result<(), AllocError>
    requires over { AreOver (length desk.old.values.items) 0 (vals_of (map plain_val fields.now)) }
    requires pairs { ArePairs desk.old.heap desk.old.values.items }
    ensures room { OnOk result (HasRoomForCall desk.old desk.new p fields.now) }
    ensures rest { OnlyMakesRoom desk.old desk.new }
{
    let answered = answer_len(&desk.heap, p, fields, &desk.values);
    let own = Need {
        records: 1,
        fields: fields.len() as u64,
        texts: 1,
        bytes: answered.max(20),
    };
    let need = both(own, need_of_all(fields)?)?;
    reserve_room(desk, need)?;
    Ok(())
}

// The same as `call_fields`, where words of the fields are made in the heap. What would divide by zero is known before.
fn call_making(desk: &mut Desk, p: Prim, fields: &[Operand], at: Span) -> Result<Deed, AllocError>
    requires over { AreOver (length desk.old.values.items) 0 (vals_of (map plain_val fields.now)) }
    requires pairs { ArePairs desk.old.heap desk.old.values.items }
    requires takes { (labelled : Labelled) × IsSome (effect_of p (argument_of desk.old.heap desk.old.values.items fields.now labelled)) }
    ensures effect { (labelled : Labelled) (e : Effect) → effect_of p (argument_of desk.old.heap desk.old.values.items fields.now labelled) ≡ Some e
        → IfOk result (HasEffect desk.new.heap e at) }
    ensures rest { OnlyMakes desk.old desk.new }
    ensures undone { IsUndone result → KeepsHeap desk.old.heap desk.new.heap }
{
    if divides_by_zero(p, fields, &desk.values) {
        return Ok(Deed::Stops(at));
    }
    make_call_room(desk, p, fields)?;
    let act = decide(desk, p, fields);
    Ok(finish(&mut desk.heap, act, at))
}

// The same as `call_operand`, of a record with these fields and any labels. The record is not made, and what a primitive answers of
// two numbers goes through no heap.
fn call_fields(desk: &mut Desk, p: Prim, fields: &[Operand], at: Span) -> Result<Deed, AllocError>
    requires over { AreOver (length desk.old.values.items) 0 (vals_of (map plain_val fields.now)) }
    requires pairs { ArePairs desk.old.heap desk.old.values.items }
    requires takes { (labelled : Labelled) × IsSome (effect_of p (argument_of desk.old.heap desk.old.values.items fields.now labelled)) }
    ensures effect { (labelled : Labelled) (e : Effect) → effect_of p (argument_of desk.old.heap desk.old.values.items fields.now labelled) ≡ Some e
        → IfOk result (HasEffect desk.new.heap e at) }
    ensures rest { OnlyMakes desk.old desk.new }
    ensures undone { IsUndone result → KeepsHeap desk.old.heap desk.new.heap }
{
    if let Some(kept) = answer_at_hand(p, fields, &desk.values, at) {
        return Ok(Deed::Keeps(Waiting::Output(kept), None));
    }
    call_making(desk, p, fields, at)
}

// Of an output of this text to `print`.
fn print_text(desk: &mut Desk, bytes: &[u8]) -> Result<Deed, AllocError>
    ensures effect { (at : AnySpan) (e : Effect) → effect_of primitive.Print (Text bytes.now) ≡ Some e → IfOk result (HasEffect desk.new.heap e at) }
    ensures rest { OnlyMakes desk.old desk.new }
    ensures undone { IsUndone result → KeepsHeap desk.old.heap desk.new.heap }
{
    let need = Need {
        records: 0,
        fields: 0,
        texts: 1,
        bytes: bytes.len() as u64,
    };
    reserve_room(desk, need)?;
    let text = desk.heap.add_text(bytes);
    Ok(Deed::Ends(Some(text)))
}

// The same as `call_operand`, of an operand that is neither a text nor a record.
fn call_simple(desk: &mut Desk, p: Prim, message: &Operand, at: Span) -> Result<Deed, AllocError>
    requires at_hand { IsOfHeap (plain_val message.now) → ⊥ }
    requires over { IsOver (length desk.old.values.items) 0 (plain_val message.now) }
    requires pairs { ArePairs desk.old.heap desk.old.values.items }
    requires takes { IsSome (effect_of p (operand_in desk.old.heap desk.old.values.items (plain_val message.now))) }
    ensures effect { (e : Effect) → effect_of p (operand_in desk.old.heap desk.old.values.items (plain_val message.now)) ≡ Some e
        → IfOk result (HasEffect desk.new.heap e at) }
    ensures rest { OnlyMakes desk.old desk.new }
    ensures undone { IsUndone result → KeepsHeap desk.old.heap desk.new.heap }
{
    match word_at_hand(message, &desk.values) {
        Some(argument) => call(desk, p, argument, at),
        None => unreachable!(),
    }
}

/// Of an output of the operand to the primitive: the primitive acts. A record that is the operand is not made. The only error is
/// want of memory. After it, and after a trap, the heap has the texts and the records that it had.
pub(crate) fn call_operand(
    desk: &mut Desk,
    p: Prim,
    message: &Operand,
    at: Span,
) -> Result<Deed, AllocError>
    requires over { IsOver (length desk.old.values.items) 0 (plain_val message.now) }
    requires pairs { ArePairs desk.old.heap desk.old.values.items }
    requires takes { IsSome (effect_of p (operand_in desk.old.heap desk.old.values.items (plain_val message.now))) }
    ensures effect { (e : Effect) → effect_of p (operand_in desk.old.heap desk.old.values.items (plain_val message.now)) ≡ Some e
        → IfOk result (HasEffect desk.new.heap e at) }
    ensures rest { OnlyMakes desk.old desk.new }
    ensures undone { IsUndone result → KeepsHeap desk.old.heap desk.new.heap }
{
    match message {
        CoreVal::Fields { positional, .. } => call_fields(desk, p, positional, at),
        CoreVal::Text(bytes) => print_text(desk, bytes.slice()),
        _ => call_simple(desk, p, message, at),
    }
}
