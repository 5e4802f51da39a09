// The deeds of outputs.
ghost use Rattle.std.specs.Prelude.{◌≡◌, ℕ, List, IfOk, None};
ghost use Rattle.pict_core.specs.Plain.{plain_val};
ghost use Rattle.pict_core.specs.Term.{Process, Chan};
ghost use Rattle.pict_code.specs.Instruction as op;
ghost use Rattle.pict_code.specs.declared.instruction.Node.{Node as AnyNode};
ghost use Rattle.pict_desk.specs.Arguments.{operand_in};
ghost use Rattle.pict_desk.specs.AtHand.{channel_named};
ghost use Rattle.pict_desk.specs.Code.{core_in};
ghost use Rattle.pict_desk.specs.Constants.{OnlyMakes};
ghost use Rattle.pict_desk.specs.Room.{KeepsHeap};
ghost use Rattle.pict_picker.specs.Acting.{ActsBy, MayAct};
ghost use Rattle.pict_picker.specs.Deeds.{IsDeed, IsUndone};
ghost use Rattle.pict_picker.specs.Parts.{KeepsDesk};
ghost use Rattle.pict_picker.specs.Picker.{AreLists, channel_processes};
ghost use Rattle.pict_picker.specs.Waiting.{pair_value, kept_process, IsKept};

use crate::calling::{call, call_operand, make_word};
use crate::deed::Deed;
use crate::frames::reserve_frame;
use crate::lists::Lists;
use crate::meeting::send;
use pict_code::{Node, Operand};
use pict_desk::{Desk, Kept, channel_at_hand, channel_of, primitive_at_hand, word_at};
use pict_heap::{Word, pack};
use pict_syntax::Span;
use std::alloc::{AllocError, Global};

// Of an output of the operand on the channel. The only error is want of memory.
fn send_operand(
    alloc: Global,
    code: &[Node],
    desk: &mut Desk,
    lists: &Lists,
    j: usize,
    channel: u32,
    chan: &Operand,
    message: &Operand,
    at: Span,
) -> Result<Deed, AllocError>
    requires lists { AreLists (core_in code.now) desk.old.heap lists.now }
    requires acts { (own : Process) × ActsBy code.now desk.old (channel_processes (core_in code.now) desk.old.heap lists.now) j
        (op.Out (plain_val chan.now) (plain_val message.now) at) own }
    requires to { operand_in desk.old.heap desk.old.values.items (plain_val chan.now) ≡ Chan channel }
    ensures deed { (own : Process) → ActsBy code.now desk.old (channel_processes (core_in code.now) desk.old.heap lists.now) j
        (op.Out (plain_val chan.now) (plain_val message.now) at) own
        → IfOk result (IsDeed (core_in code.now) desk.new.heap (channel_processes (core_in code.now) desk.old.heap lists.now) j own) }
    ensures rest { KeepsDesk (core_in code.now) desk.old desk.new }
    ensures undone { IsUndone result → KeepsHeap desk.old.heap desk.new.heap }
{
    let list = &lists.channels[channel as usize];
    let room = reserve_frame(alloc, code, list, j)?;
    let word = make_word(desk, message)?;
    Ok(send(code, desk, list, j, channel, pack(word), at, room))
}

/// Of an output of the second operand on the first, whose partner is the `j`-th at its channel. The only error is want of
/// memory.
pub(crate) fn output(
    alloc: Global,
    code: &[Node],
    desk: &mut Desk,
    lists: &Lists,
    j: usize,
    chan: &Operand,
    message: &Operand,
    at: Span,
) -> Result<Deed, AllocError>
    requires lists { AreLists (core_in code.now) desk.old.heap lists.now }
    requires acts { (own : Process) × ActsBy code.now desk.old (channel_processes (core_in code.now) desk.old.heap lists.now) j
        (op.Out (plain_val chan.now) (plain_val message.now) at) own }
    ensures deed { (own : Process) → ActsBy code.now desk.old (channel_processes (core_in code.now) desk.old.heap lists.now) j
        (op.Out (plain_val chan.now) (plain_val message.now) at) own
        → IfOk result (IsDeed (core_in code.now) desk.new.heap (channel_processes (core_in code.now) desk.old.heap lists.now) j own) }
    ensures rest { KeepsDesk (core_in code.now) desk.old desk.new }
    ensures undone { IsUndone result → KeepsHeap desk.old.heap desk.new.heap }
{
    match channel_at_hand(chan, &desk.values) {
        Some(channel) => send_operand(alloc, code, desk, lists, j, channel, chan, message, at),
        None => {
            let p = primitive_at_hand(chan, &desk.values);
            call_operand(desk, p, message, at)
        }
    }
}

// Of an output of kept values that is to no channel. The only error is want of memory.
fn call_kept(desk: &mut Desk, kept: Kept) -> Result<Deed, AllocError>
    requires kept { IsKept desk.old.heap kept }
    requires acts { (code : List AnyNode) × (lists : List (List Process)) × (j : ℕ) × MayAct code desk.old lists j (kept_process desk.old.heap kept) }
    requires elsewhere { channel_named (pair_value desk.old.heap kept.to) ≡ None }
    ensures deed { (code : List AnyNode) (lists : List (List Process)) (j : ℕ) → MayAct code desk.old lists j (kept_process desk.old.heap kept)
        → IfOk result (IsDeed (core_in code) desk.new.heap lists j (kept_process desk.old.heap kept)) }
    ensures rest { OnlyMakes desk.old desk.new }
    ensures undone { IsUndone result → KeepsHeap desk.old.heap desk.new.heap }
{
    match word_at(kept.to) {
        Word::Prim(p) => call(desk, p, word_at(kept.message), kept.at),
        _ => unreachable!(),
    }
}

/// Of an output of kept values, whose partner is the `j`-th at its channel. The only error is want of memory.
pub(crate) fn output_kept(
    alloc: Global,
    code: &[Node],
    desk: &mut Desk,
    lists: &Lists,
    j: usize,
    kept: Kept,
) -> Result<Deed, AllocError>
    requires lists { AreLists (core_in code.now) desk.old.heap lists.now }
    requires kept { IsKept desk.old.heap kept }
    requires acts { MayAct code.now desk.old (channel_processes (core_in code.now) desk.old.heap lists.now) j (kept_process desk.old.heap kept) }
    ensures deed { IfOk result (IsDeed (core_in code.now) desk.new.heap (channel_processes (core_in code.now) desk.old.heap lists.now) j
        (kept_process desk.old.heap kept)) }
    ensures rest { KeepsDesk (core_in code.now) desk.old desk.new }
    ensures undone { IsUndone result → KeepsHeap desk.old.heap desk.new.heap }
{
    match channel_of(kept.to) {
        Some(channel) => {
            let list = &lists.channels[channel as usize];
            let room = reserve_frame(alloc, code, list, j)?;
            Ok(send(code, desk, list, j, channel, kept.message, kept.at, room))
        }
        None => call_kept(desk, kept),
    }
}
