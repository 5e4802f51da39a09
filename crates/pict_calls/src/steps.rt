// The steps of outputs to primitives.
ghost use Rattle.std.specs.Prelude.{◌≡◌, List, length, None, IsSome};
ghost use Rattle.pict_core.specs.Closed.{IsOver};
ghost use Rattle.pict_core.specs.Plain.{plain_val};
ghost use Rattle.pict_core.specs.Primitives.{effect_of};
ghost use Rattle.pict_code.specs.Instruction as op;
ghost use Rattle.pict_code.specs.declared.instruction.Node.{Node as AnyNode};
ghost use Rattle.pict_desk.specs.Known.{value_in, known, operand_value};
ghost use Rattle.pict_desk.specs.declared.kept.Kept.{Kept as AnyKept};
ghost use Rattle.pict_desk.specs.AtHand.{channel_named};
ghost use Rattle.pict_desk.specs.Pairs.{ArePairs};
ghost use Rattle.pict_desk.specs.Arguments.{operand_in};
ghost use Rattle.pict_turns.specs.Acting.{ActsBy};
ghost use Rattle.pict_desk.specs.Code.{core_in};
ghost use Rattle.pict_desk.specs.Constants.{IsConstant};
ghost use Rattle.pict_turns.specs.Stepping.{MayAct, StepsBy};
ghost use Rattle.pict_core.specs.Term.{Val, PrimitiveVal};

use crate::calling::call;
use crate::operands::call_operand;
use pict_code::Operand;
use pict_desk::{Kept, word_at};
use pict_heap::Word;
use pict_syntax::{Prim, Span};
use pict_turns::{Shown, Store, Turn};
use std::alloc::AllocError;

// The step of an output of these kept values, which has the turn, and is to no channel.
#[inline(always)]
fn call_kept(store: &mut Store, kept: Kept) -> Result<Shown, AllocError>
    requires may { (code : List AnyNode) × MayAct code store.old }
    requires kept { store.old.turn ≡ Turn.Output kept }
    requires elsewhere { channel_named (value_in store.old.desk.heap kept.to.0 kept.to.1) ≡ None }
    ensures steps { (code : List AnyNode) → MayAct code store.old → StepsBy code store.old store.new result }
{
    match word_at(kept.to) {
        Word::Prim(p) => call(store, p, word_at(kept.message), kept.at),
        _ => unreachable!(),
    }
}

/// The step of the output of kept values that has the turn, and is to no channel: its primitive acts on the word of its message. Where
/// it answers, the output of the answer, of kept values at the same place, has the turn then. Dividing by zero and an error, which is
/// want of memory, change nothing but room and spare blocks.
#[inline(never)]
pub fn call_of_turn(store: &mut Store) -> Result<Shown, AllocError>
    requires may { (code : List AnyNode) × MayAct code store.old }
    requires kept { (kept : AnyKept) × (store.old.turn ≡ Turn.Output kept) }
    requires elsewhere { (kept : AnyKept) → store.old.turn ≡ Turn.Output kept → channel_named (value_in store.old.desk.heap kept.to.0 kept.to.1) ≡ None }
    ensures steps { (code : List AnyNode) → MayAct code store.old → StepsBy code store.old store.new result }
{
    match store.turn.get() {
        Turn::Output(kept) => call_kept(store, kept),
        _ => unreachable!(),
    }
}

/// The step of a node's output of an operand, which has this constant, to a primitive that takes it, at this place in the text; each
/// variable of the operand has the two words of its level in the store. Where the primitive answers, the output of the answer, of kept
/// values at the same place, has the turn then. Dividing by zero and an error, which is want of memory, change nothing but room and
/// spare blocks. A record that is the operand is not made. It takes time in the nodes of the operand and in the bytes of texts.
#[inline(always)]
pub fn call_message(
    store: &mut Store,
    p: Prim,
    message: &Operand,
    constant: &Option<Word>,
    at: Span,
) -> Result<Shown, AllocError>
    requires over { IsOver (length store.old.desk.values.items) 0 (plain_val message.now) }
    requires pairs { ArePairs store.old.desk.heap store.old.desk.values.items }
    requires constant { IsConstant store.old.desk.heap (plain_val message.now) constant.now }
    requires takes { IsSome (effect_of p (operand_in store.old.desk.heap store.old.desk.values.items (plain_val message.now))) }
    ensures steps { (code : List AnyNode) (chan : Val) → MayAct code store.old → ActsBy (core_in code) store.old (op.Out chan (plain_val message.now) at)
        → operand_value (known store.old.desk.heap store.old.desk.values.items) chan ≡ PrimitiveVal p → StepsBy code store.old store.new result }
{
    match constant {
        Some(word) => call(store, p, *word, at),
        None => call_operand(store, p, message, at),
    }
}
