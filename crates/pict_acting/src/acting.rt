// The step of who has the turn.
ghost use Rattle.std.specs.Prelude.{◌↔◌, map, IsTrue};
ghost use Rattle.pict_code.specs.Plain.{plain_op, plain_node};
ghost use Rattle.pict_turns.specs.Acting.{ActsBy};
ghost use Rattle.pict_desk.specs.Code.{core_in};
ghost use Rattle.pict_desk.specs.Constants.{IsConstantFor, AreConstants};
ghost use Rattle.pict_acting.specs.Operands.{HasNoOperand, HasOneOperand};
ghost use Rattle.pict_meetings.specs.PassedOver.{StepsOrPasses};
ghost use Rattle.pict_turns.specs.Stepping.{MayAct, StepsBy};

use crate::outputs::{output, output_kept};
use pict_code::{Node, Op};
use pict_heap::Word;
use pict_meetings::input;
use pict_turns::{Shown, Store, Turn, choose, end, fork, make_channel};
use std::alloc::AllocError;

/// The step of who has the turn, with its oldest partner.
///
/// The event is the label of the oldest-first step of the store's view, by words of the heap, and the store has the view after
/// it; who has the turn keeps it, hands it on, or nobody has it then. The only error is want of memory. Where memory is wanting,
/// or the step divides by zero, nothing changes but room, spare blocks and work.
///
/// The code is the code of a closed process, somebody has the turn, the step isn't wrong, and there may be a channel more.
/// `constants` has one place for each node: the word of an output's message that is a text or a record without variables.
///
/// Whatever the answer, the work of the queues rises by at most the step's cost, blocks are made only where fewer are free than
/// the step needs, and the heap has at most the texts and records more that the step needs. A plain meeting of a message and an
/// input takes no memory.
///
/// Each caller names a type of its own, and so has a copy of the step for itself, which the compiler makes part of the caller's
/// loop.
pub fn act<C>(
    code: &[Node],
    constants: &[Option<Word>],
    store: &mut Store,
) -> Result<Shown, AllocError>
    requires may { MayAct code.now store.old }
    requires constants { AreConstants store.old.desk.heap (map plain_node code.now) constants.now }
    ensures steps { StepsBy code.now store.old store.new result }
{
    act_or_pass::<C>(code, constants, store, false)
}

/// The step of who has the turn, where `passes` says whether communications are passed over.
///
/// All is as `act` says, but that where they are passed over the event of a communication may be that of a quiet step: then no word of
/// what was received need have been made.
pub fn act_or_pass<C>(
    code: &[Node],
    constants: &[Option<Word>],
    store: &mut Store,
    passes: bool,
) -> Result<Shown, AllocError>
    requires may { MayAct code.now store.old }
    requires constants { AreConstants store.old.desk.heap (map plain_node code.now) constants.now }
    ensures steps { StepsOrPasses passes code.now store.old store.new result }
{
    match store.turn.get() {
        Turn::Nobody => unreachable!(),
        Turn::Node(number) | Turn::Wide(number, _) => {
            act_by::<C>(code, store, &code[number].op, &constants[number], passes)
        }
        Turn::Output(kept) => output_kept(code, store, kept),
    }
}

// Whether the instruction is nothing, a parallel composition or a new channel.
//
// Instructions are told apart by this and the next first, so that each `match` behind them has few arms: the compiler makes comparisons
// of them then, which a processor foresees better than a jump through a table. They are no `inline(always)`: compiled by itself
// each is one comparison.
#[inline]
fn has_no_operand(op: &Op) -> bool
    ensures { IsTrue result ↔ HasNoOperand (plain_op op.now) }
{
    match op {
        Op::Zero | Op::Par(_, _) | Op::New(_, _) => true,
        _ => false,
    }
}

// Whether the instruction is an input or a conditional.
#[inline]
fn has_one_operand(op: &Op) -> bool
    ensures { IsTrue result ↔ HasOneOperand (plain_op op.now) }
{
    match op {
        Op::In(_, _, _) | Op::Serve(_, _, _) | Op::If(_, _, _) => true,
        _ => false,
    }
}

// The same as `act_by`, of an instruction without operands.
#[inline(always)]
fn act_alone(code: &[Node], store: &mut Store, op: &Op) -> Result<Shown, AllocError>
    requires may { MayAct code.now store.old }
    requires acts { ActsBy (core_in code.now) store.old (plain_op op.now) }
    requires none { HasNoOperand (plain_op op.now) }
    ensures steps { StepsBy code.now store.old store.new result }
{
    match op {
        Op::Zero => end(store),
        Op::Par(left, right) => fork(store, code, *left, *right),
        Op::New(level, part) => make_channel(store, code, *level, *part),
        _ => unreachable!(),
    }
}

// The same as `act_by`, of an instruction with one operand.
#[inline(always)]
fn act_on_one(code: &[Node], store: &mut Store, op: &Op) -> Result<Shown, AllocError>
    requires may { MayAct code.now store.old }
    requires acts { ActsBy (core_in code.now) store.old (plain_op op.now) }
    requires one { HasOneOperand (plain_op op.now) }
    ensures steps { StepsBy code.now store.old store.new result }
{
    match op {
        Op::If(test, yes, no) => choose(store, code, test, *yes, *no),
        Op::In(chan, pattern, part) => input(code, store, chan, false, pattern, *part),
        Op::Serve(chan, pattern, part) => input(code, store, chan, true, pattern, *part),
        _ => unreachable!(),
    }
}

// The same of a node with this instruction and this constant, whose levels have the values of its frame.
fn act_by<C>(
    code: &[Node],
    store: &mut Store,
    op: &Op,
    constant: &Option<Word>,
    passes: bool,
) -> Result<Shown, AllocError>
    requires may { MayAct code.now store.old }
    requires acts { ActsBy (core_in code.now) store.old (plain_op op.now) }
    requires constant { IsConstantFor store.old.desk.heap (plain_op op.now) constant.now }
    ensures steps { StepsOrPasses passes code.now store.old store.new result }
{
    if has_no_operand(op) {
        act_alone(code, store, op)
    } else if has_one_operand(op) {
        act_on_one(code, store, op)
    } else {
        match op {
            Op::Out(chan, message, at) => {
                output(code, store, chan, message, constant, *at, passes)
            }
            _ => unreachable!(),
        }
    }
}
