// The deed of a process.
ghost use Rattle.std.specs.Prelude.{◌≡◌, ◌<◌, ◌^◌, IfOk, Some, length, slice_get};
ghost use Rattle.pict_core.specs.Plain.{plain_val};
ghost use Rattle.pict_core.specs.Term.{Process};
ghost use Rattle.pict_code.specs.Nodes.{places, input_op};
ghost use Rattle.pict_code.specs.Plain.{plain_op, plain_pat};
ghost use Rattle.pict_desk.specs.Code.{core_in};
ghost use Rattle.pict_desk.specs.Room.{KeepsHeap};
ghost use Rattle.pict_picker.specs.Acting.{ActsBy, MayAct};
ghost use Rattle.pict_picker.specs.Deeds.{IsDeed, IsUndone};
ghost use Rattle.pict_picker.specs.Parts.{KeepsDesk};
ghost use Rattle.pict_picker.specs.Picker.{AreLists, channel_processes};
ghost use Rattle.pict_picker.specs.Waiting.{node_process, processes_of, IsNode};

use crate::deed::Deed;
use crate::frames::read_frame;
use crate::lists::Lists;
use crate::meeting::receive;
use crate::nodes::{choose, fork, open};
use crate::sending::{output, output_kept};
use crate::waiting::Waiting;
use pict_code::{CodePat, Node, Op, Operand};
use pict_desk::{Desk, channel_at_hand};
use std::alloc::{AllocError, Global};

// Of an input from the operand, whose partner is the `j`-th at its channel. The only error is want of memory.
fn input(
    alloc: Global,
    code: &[Node],
    desk: &mut Desk,
    lists: &Lists,
    j: usize,
    chan: &Operand,
    pattern: &CodePat,
    part: u32,
    replicated: bool,
) -> Result<Deed, AllocError>
    requires lists { AreLists (core_in code.now) desk.old.heap lists.now }
    requires acts { (own : Process) × ActsBy code.now desk.old (channel_processes (core_in code.now) desk.old.heap lists.now) j
        (input_op replicated (plain_val chan.now) (plain_pat pattern.now) part) own }
    ensures deed { (own : Process) → ActsBy code.now desk.old (channel_processes (core_in code.now) desk.old.heap lists.now) j
        (input_op replicated (plain_val chan.now) (plain_pat pattern.now) part) own
        → IfOk result (IsDeed (core_in code.now) desk.new.heap (channel_processes (core_in code.now) desk.old.heap lists.now) j own) }
    ensures rest { KeepsDesk (core_in code.now) desk.old desk.new }
    ensures heap { desk.new.heap ≡ desk.old.heap }
{
    match channel_at_hand(chan, &desk.values) {
        Some(channel) => receive(
            alloc,
            code,
            desk,
            &lists.channels[channel as usize],
            j,
            channel,
            pattern,
            part,
            replicated,
        ),
        None => unreachable!(),
    }
}

// Of a node with this instruction, whose levels have the values of its frame. Its partner is the `j`-th at its channel. The
// only error is want of memory.
fn act_by(
    alloc: Global,
    code: &[Node],
    desk: &mut Desk,
    lists: &Lists,
    j: usize,
    op: &Op,
) -> Result<Deed, AllocError>
    requires lists { AreLists (core_in code.now) desk.old.heap lists.now }
    requires few { length lists.now.channels.items < 2 ^ 32 }
    requires acts { (own : Process) × ActsBy code.now desk.old (channel_processes (core_in code.now) desk.old.heap lists.now) j (plain_op op.now) own }
    ensures deed { (own : Process) → ActsBy code.now desk.old (channel_processes (core_in code.now) desk.old.heap lists.now) j (plain_op op.now) own
        → IfOk result (IsDeed (core_in code.now) desk.new.heap (channel_processes (core_in code.now) desk.old.heap lists.now) j own) }
    ensures rest { KeepsDesk (core_in code.now) desk.old desk.new }
    ensures undone { IsUndone result → KeepsHeap desk.old.heap desk.new.heap }
{
    match op {
        Op::Zero => Ok(Deed::Ends(None)),
        Op::Par(left, right) => fork(alloc, code, desk, *left, *right),
        Op::New(level, part) => open(alloc, code, desk, lists.channels.len(), *level, *part),
        Op::If(test, yes, no) => choose(alloc, code, desk, test, *yes, *no),
        Op::Out(chan, message, at) => output(alloc, code, desk, lists, j, chan, message, *at),
        Op::In(chan, pattern, part) => input(
            alloc, code, desk, lists, j, chan, pattern, *part, false,
        ),
        Op::Serve(chan, pattern, part) => input(
            alloc, code, desk, lists, j, chan, pattern, *part, true,
        ),
    }
}

// Of the node with this number, with these values of its frame. The only error is want of memory.
fn act_node(
    alloc: Global,
    code: &[Node],
    desk: &mut Desk,
    lists: &Lists,
    j: usize,
    number: u32,
    frame: &[(u64, u64)],
) -> Result<Deed, AllocError>
    requires lists { AreLists (core_in code.now) desk.old.heap lists.now }
    requires few { length lists.now.channels.items < 2 ^ 32 }
    requires node { IsNode (core_in code.now) desk.old.heap number frame.now }
    requires acts { MayAct code.now desk.old (channel_processes (core_in code.now) desk.old.heap lists.now) j
        (node_process desk.old.heap frame.now (slice_get (places 0 (core_in code.now)) number)) }
    ensures deed { IfOk result (IsDeed (core_in code.now) desk.new.heap (channel_processes (core_in code.now) desk.old.heap lists.now) j
        (node_process desk.old.heap frame.now (slice_get (places 0 (core_in code.now)) number))) }
    ensures rest { KeepsDesk (core_in code.now) desk.old desk.new }
    ensures undone { IsUndone result → KeepsHeap desk.old.heap desk.new.heap }
{
    let node = &code[number as usize];
    read_frame(desk, &node.frame, frame);
    act_by(alloc, code, desk, lists, j, &node.op)
}

/// What the `i`-th ready process does, with the `j`-th that waits at its channel, before any list changes. The only error is
/// want of memory. Whatever the answer, all words stand for what they stood for; after an error or a trap the heap has the texts
/// and the records that it had.
pub(crate) fn act(
    alloc: Global,
    code: &[Node],
    desk: &mut Desk,
    lists: &Lists,
    i: usize,
    j: usize,
) -> Result<Deed, AllocError>
    requires lists { AreLists (core_in code.now) desk.old.heap lists.now }
    requires few { length lists.now.channels.items < 2 ^ 32 }
    requires acts { (own : Process) × (slice_get (processes_of (core_in code.now) desk.old.heap lists.now.ready.items) i ≡ Some own)
        × MayAct code.now desk.old (channel_processes (core_in code.now) desk.old.heap lists.now) j own }
    ensures deed { (own : Process) → slice_get (processes_of (core_in code.now) desk.old.heap lists.now.ready.items) i ≡ Some own
        → IfOk result (IsDeed (core_in code.now) desk.new.heap (channel_processes (core_in code.now) desk.old.heap lists.now) j own) }
    ensures rest { KeepsDesk (core_in code.now) desk.old desk.new }
    ensures undone { IsUndone result → KeepsHeap desk.old.heap desk.new.heap }
{
    match lists.ready.get(i) {
        Waiting::Node(number, frame) => act_node(alloc, code, desk, lists, j, *number, frame),
        Waiting::Output(kept) => output_kept(alloc, code, desk, lists, j, *kept),
    }
}
