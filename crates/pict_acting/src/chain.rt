// A call of a primitive whose answer is awaited: five steps in one go.
ghost use Rattle.std.specs.Prelude.{◌≡◌, ◌<◌, ◌≤◌, ◌^◌, [], ℕ, List, length, map, IfOk, IfSome, OnErr, Ok, Some, None};
ghost use Rattle.std.specs.List.{AllByRecursion};
ghost use Rattle.pict_syntax.specs.declared.span.Span.{Span};
ghost use Rattle.pict_core.specs.Closed.{IsOver, AreOver};
ghost use Rattle.pict_core.specs.Plain.{plain_val, vals_of};
ghost use Rattle.pict_core.specs.Term.{Val, Var, Int};
ghost use Rattle.pict_code.specs.Instruction as op;
ghost use Rattle.pict_code.specs.Nodes.{Place, places};
ghost use Rattle.pict_code.specs.Plain.{plain_node, plain_op};
ghost use Rattle.pict_heap.specs.HeapState.{HeapState};
ghost use Rattle.pict_queue.specs.QueuesState.{CostsAtMost};
ghost use Rattle.pict_queue.specs.Contents.{contents};
ghost use Rattle.pict_desk.specs.Arguments.{operand_in};
ghost use Rattle.pict_desk.specs.Code.{core_in, IsCode};
ghost use Rattle.pict_desk.specs.Pairs.{ArePairs};
ghost use Rattle.pict_turns.specs.Acting.{IsStore};
ghost use Rattle.pict_turns.specs.Reserving.{OnlyReserves};
ghost use Rattle.pict_acting.specs.declared.chain.Received.{Received as AnyReceived};
ghost use Rattle.pict_acting.specs.Bounds.{greatest_cost, half_cost, MakesFew};
ghost use Rattle.pict_acting.specs.Chain.{KeepsOtherLevels, AnswersAt, CallsAt, BeginsCall, MakesCall};
ghost use Rattle.pict_acting.specs.Opening.{BeginsOpening, OpensFor};

use crate::opening::{
    Opening, add_channel, is_level, make_room, narrow_op, opening_at_turn, put_last,
};
use pict_code::{CodePat, Node, Op, Operand};
use pict_core::CoreVal;
use pict_desk::number_at_hand;
use pict_heap::{Word, pack};
use pict_prim::answer_of_numbers;
use pict_queue::QueueId;
use pict_syntax::Prim;
use pict_turns::{Store, Turn, frame_at};
use std::alloc::AllocError;

// A call that a node begins: the level of the new channel, the number of the reader's node that waits there, the level that it binds
// and the number of its part, and what the primitive answers.
#[derive(Clone, Copy)]
struct Call {
    level: u32,
    reader: u32,
    bound: u32,
    part: u32,
    answer: Word,
}

/// What the reader of a call receives.
#[derive(Clone, Copy)]
pub struct Received {
    /// The channel's number.
    pub channel: u32,
    /// The two words of the value's word.
    pub value: (u64, u64),
}

// The number that an operand stands for whatever value this level gets, or None where it stands for no number, or is the variable of
// this level. Each variable has the two words of its level among `values`.
#[inline(always)]
fn number_beside(operand: &Operand, level: u32, values: &[(u64, u64)]) -> Option<i64>
    requires over { IsOver (length values.now) 0 (plain_val operand.now) }
    requires pairs { (h : HeapState) × ArePairs h values.now }
    ensures { (h : HeapState) → ArePairs h values.now → (later : List (ℕ × ℕ)) → KeepsOtherLevels level values.now later
        → IfSome result (λ n. operand_in h later (plain_val operand.now) ≡ Int n) }
{
    if is_level(operand, level) {
        return None;
    }
    number_at_hand(operand, values)
}

// What the primitive answers of a record of two numbers and the variable of this level, whatever value the level gets, or None where
// the fields are others or it answers nothing.
#[inline(always)]
fn answer_at(p: Prim, fields: &[Operand], level: u32, values: &[(u64, u64)]) -> Option<Word>
    requires over { AreOver (length values.now) 0 (vals_of (map plain_val fields.now)) }
    requires pairs { (h : HeapState) × ArePairs h values.now }
    ensures { (h : HeapState) → ArePairs h values.now → IfSome result (AnswersAt h values.now p fields.now level) }
{
    if fields.len() != 3 {
        return None;
    }
    if !is_level(&fields[2], level) {
        return None;
    }
    let a = number_beside(&fields[0], level, values)?;
    let b = number_beside(&fields[1], level, values)?;
    let answer = answer_of_numbers(p, a, b)?;
    Some(answer)
}

// The same of the output to a primitive that an instruction is, or None where it is another instruction.
#[inline(always)]
fn called_at(instruction: &Op, level: u32, values: &[(u64, u64)]) -> Option<Word>
    requires over { (chan message : Val) (at : Span) → plain_op instruction.now ≡ op.Out chan message at → IsOver (length values.now) 0 message }
    requires pairs { (h : HeapState) × ArePairs h values.now }
    ensures { (h : HeapState) → ArePairs h values.now → IfSome result (CallsAt h values.now (plain_op instruction.now) level) }
{
    let (chan, message) = match instruction {
        Op::Out(chan, message, _) => (chan, message),
        _ => return None,
    };
    let p = match chan {
        CoreVal::Prim(p) => *p,
        _ => return None,
    };
    match message {
        CoreVal::Fields { positional, .. } => answer_at(p, positional, level, values),
        _ => None,
    }
}

// The level that a replicated input from this level binds to all that it receives, and its part.
#[inline(always)]
fn awaited(instruction: &Op, level: u32) -> Option<(u32, u32)>
    ensures { IfSome result (λ r. plain_op instruction.now ≡ op.Serve (Var level) (op.Bind r.0) r.1) }
{
    match instruction {
        Op::Serve(chan, CodePat::Bind(bound), part) => {
            if is_level(chan, level) {
                Some((*bound, *part))
            } else {
                None
            }
        }
        _ => None,
    }
}

// The call that a node begins with this channel, if it begins one.
#[inline(always)]
fn call_of(code: &[Node], values: &[(u64, u64)], opening: Opening) -> Option<Call>
    requires code { IsCode (map plain_node code.now) }
    requires opens { (number : ℕ) × OpensFor (core_in code.now) number opening }
    requires levels { AllByRecursion (λ (p : Place). p.around ≤ length values.now) (places 0 (core_in code.now)) }
    requires pairs { (h : HeapState) × ArePairs h values.now }
    ensures { (number : ℕ) → OpensFor (core_in code.now) number opening → (h : HeapState) → ArePairs h values.now
        → IfSome result (BeginsCall (core_in code.now) h values.now number) }
{
    let Opening { level, left, right } = opening;
    let (bound, part) = awaited(narrow_op(code, left)?, level)?;
    narrow_op(code, part)?;
    let answer = called_at(narrow_op(code, right)?, level, values)?;
    Some(Call {
        level,
        reader: left,
        bound,
        part,
        answer,
    })
}

// Makes the five steps of the call that who has the turn begins, where nobody else is ready. An error, which is want of memory,
// changes nothing but room. They make no more blocks than one step may, and cost no more than half of what one may.
#[inline(always)]
fn make_call(code: &[Node], store: &mut Store, call: Call) -> Result<Received, AllocError>
    requires code { IsCode (map plain_node code.now) }
    requires store { IsStore (core_in code.now) store.old }
    requires begins { (number : ℕ) × (store.old.turn ≡ Turn.Node number)
        × ((h : HeapState) → ArePairs h store.old.desk.values.items → BeginsCall (core_in code.now) h store.old.desk.values.items number call) }
    requires alone { contents store.old.queues 0 ≡ [] }
    requires few { length store.old.queues.queues < 2 ^ 32 }
    ensures made { IfOk result (MakesCall (core_in code.now) store.old store.new) }
    ensures refused { OnErr result (OnlyReserves store.old store.new) }
    ensures blocks { MakesFew (core_in code.now) 1 store.old.queues store.new.queues }
    ensures cost { CostsAtMost (half_cost (core_in code.now)) store.old.queues store.new.queues }
{
    let own = frame_at(code, call.reader as usize);
    let frame = frame_at(code, call.part as usize);
    make_room(store, own, frame)?;
    let channel = add_channel(store, call.level);
    put_last(store, u64::from(channel) + 1, call.reader, own);
    let value = pack(call.answer);
    store.desk.values[call.bound as usize] = value;
    store.turn.set(Turn::Node(call.part as usize));
    Ok(Received { channel, value })
}

// The five steps of a call that who has the turn begins with this channel, where nobody else is ready and so many steps may be made; or
// None where it isn't so, and then nothing has changed.
#[inline(always)]
pub(crate) fn call_from(
    code: &[Node],
    store: &mut Store,
    most: u64,
    opening: Opening,
) -> Result<Option<Received>, AllocError>
    requires code { IsCode (map plain_node code.now) }
    requires store { IsStore (core_in code.now) store.old }
    requires begins { BeginsOpening (core_in code.now) store.old opening }
    requires few { length store.old.queues.queues < 2 ^ 32 }
    ensures called { (received : AnyReceived) → result ≡ Ok (Some received)
        → (5 ≤ most) × MakesCall (core_in code.now) store.old store.new received }
    ensures none { result ≡ Ok None → store.new ≡ store.old }
    ensures refused { OnErr result (OnlyReserves store.old store.new) }
    ensures blocks { MakesFew (core_in code.now) 1 store.old.queues store.new.queues }
    ensures cost { CostsAtMost (half_cost (core_in code.now)) store.old.queues store.new.queues }
{
    if most < 5 {
        return Ok(None);
    }
    if store.queues.length(QueueId(0)) > 0 {
        return Ok(None);
    }
    match call_of(code, &store.desk.values, opening) {
        Some(call) => Ok(Some(make_call(code, store, call)?)),
        None => Ok(None),
    }
}

/// The five steps of a call that who has the turn begins, where nobody else is ready and so many steps may be made; or None, and then
/// nothing has changed and its steps are to be made one by one. Of when None comes nothing is said.
///
/// A channel is made, a replicated reader waits there, a primitive answers there, and the reader receives what is returned: the first
/// four steps show nothing, and the fifth this communication. An error, which is want of memory, changes nothing but room. The five
/// make no more blocks and cost no more than one step of the code may. There are fewer channels than 2 to the power 32.
#[inline(always)]
pub fn call_at_once(
    code: &[Node],
    store: &mut Store,
    most: u64,
) -> Result<Option<Received>, AllocError>
    requires code { IsCode (map plain_node code.now) }
    requires store { IsStore (core_in code.now) store.old }
    requires few { length store.old.queues.queues < 2 ^ 32 }
    ensures called { (received : AnyReceived) → result ≡ Ok (Some received)
        → (5 ≤ most) × MakesCall (core_in code.now) store.old store.new received }
    ensures none { result ≡ Ok None → store.new ≡ store.old }
    ensures refused { OnErr result (OnlyReserves store.old store.new) }
    ensures blocks { MakesFew (core_in code.now) 1 store.old.queues store.new.queues }
    ensures cost { CostsAtMost (greatest_cost (core_in code.now)) store.old.queues store.new.queues }
{
    match opening_at_turn(code, &*store) {
        Some(opening) => call_from(code, store, most, opening),
        None => Ok(None),
    }
}
