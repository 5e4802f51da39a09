// The partners of a ready process, counted.
ghost use Rattle.std.specs.Prelude.{◌≡◌, ◌⊎◌, ℕ, All, length, map, filter, option_map};
ghost use Rattle.pict_core.specs.Plain.{plain_val};
ghost use Rattle.pict_core.specs.Term.{Process};
ghost use Rattle.pict_code.specs.Plain.{plain_node, plain_op};
ghost use Rattle.pict_code.specs.Standing.{value_at};
ghost use Rattle.pict_heap.specs.HeapState.{HeapState};
ghost use Rattle.pict_view.specs.View.{AreOutputs, AreInputs};
ghost use Rattle.pict_desk.specs.AtHand.{channel_named};
ghost use Rattle.pict_desk.specs.Code.{core_in, IsCode};
ghost use Rattle.pict_desk.specs.Known.{operand_value};
ghost use Rattle.pict_desk.specs.Pairs.{IsPair};
ghost use Rattle.pict_picker.specs.Partners.{stands_at, channel_in, stands_by, is_partner_of};
ghost use Rattle.pict_picker.specs.Waiting.{pair_value, process_of, processes_of, IsWaiting, AreParked};

use crate::waiting::Waiting;
use pict_code::{Node, Op, Operand};
use pict_core::CoreVal;
use pict_desk::channel_of;
use pict_ranked::Ranked;

// The channel that the value of this level is, in a frame of these levels, or None where it is no channel.
fn channel_of_level(level: u32, levels: &[u32], frame: &[(u64, u64)]) -> Option<u32>
    requires many { length frame.now ≡ length levels.now }
    requires pairs { (h : HeapState) × All (IsPair h) frame.now }
    ensures { (h : HeapState) → All (IsPair h) frame.now → result ≡ channel_named (value_at levels.now (map (pair_value h) frame.now) level) }
{
    for k in 0..levels.len() {
        if levels[k] == level {
            return channel_of(frame[k]);
        }
    }
    None
}

// The channel that the operand is, in a frame of these levels, or None where it is no channel.
fn channel_in_frame(operand: &Operand, levels: &[u32], frame: &[(u64, u64)]) -> Option<u32>
    requires many { length frame.now ≡ length levels.now }
    requires pairs { (h : HeapState) × All (IsPair h) frame.now }
    ensures { (h : HeapState) → All (IsPair h) frame.now
        → result ≡ channel_named (operand_value (value_at levels.now (map (pair_value h) frame.now)) (plain_val operand.now)) }
{
    match operand {
        CoreVal::Var(level) => channel_of_level(*level, levels, frame),
        CoreVal::Chan(number) => Some(*number),
        _ => None,
    }
}

// The channel with this side, where there is a channel.
fn on_side(channel: Option<u32>, sends: bool) -> Option<(u32, bool)>
    ensures { result ≡ option_map (λ c. (c, sends)) channel }
{
    match channel {
        Some(channel) => Some((channel, sends)),
        None => None,
    }
}

// The channel at which a node with this instruction stands, in a frame of these levels, and whether it sends.
fn channel_of_op(op: &Op, levels: &[u32], frame: &[(u64, u64)]) -> Option<(u32, bool)>
    requires many { length frame.now ≡ length levels.now }
    requires pairs { (h : HeapState) × All (IsPair h) frame.now }
    ensures { (h : HeapState) → All (IsPair h) frame.now
        → result ≡ stands_by (operand_value (value_at levels.now (map (pair_value h) frame.now))) (plain_op op.now) }
{
    match op {
        Op::Out(chan, _, _) => on_side(channel_in_frame(chan, levels, frame), true),
        Op::In(chan, _, _) => on_side(channel_in_frame(chan, levels, frame), false),
        Op::Serve(chan, _, _) => on_side(channel_in_frame(chan, levels, frame), false),
        _ => None,
    }
}

/// The channel at which a process stands, and whether it sends there, or None where it stands at no channel. Takes no memory,
/// and time in the levels of its frame.
pub(crate) fn channel_of_waiting(code: &[Node], waiting: &Waiting) -> Option<(u32, bool)>
    requires code { IsCode (map plain_node code.now) }
    requires waiting { (h : HeapState) × IsWaiting (core_in code.now) h waiting.now }
    ensures { (h : HeapState) → IsWaiting (core_in code.now) h waiting.now → result ≡ stands_at (process_of (core_in code.now) h waiting.now) }
{
    match waiting {
        Waiting::Node(number, frame) => {
            let node = &code[*number as usize];
            channel_of_op(&node.op, &node.frame, frame)
        }
        Waiting::Output(kept) => on_side(channel_of(kept.to), true),
    }
}

/// The channel at which a process stands, on whichever side. Takes no memory, and time in the levels of its frame.
pub(crate) fn own_channel(code: &[Node], waiting: &Waiting) -> Option<u32>
    requires code { IsCode (map plain_node code.now) }
    requires waiting { (h : HeapState) × IsWaiting (core_in code.now) h waiting.now }
    ensures { (h : HeapState) → IsWaiting (core_in code.now) h waiting.now → result ≡ channel_in (stands_at (process_of (core_in code.now) h waiting.now)) }
{
    match channel_of_waiting(code, waiting) {
        Some((channel, _)) => Some(channel),
        None => None,
    }
}

/// How many of those that wait at a channel are partners of one that sends there, or of one that receives: all or none, which
/// the first of them tells. Takes no memory.
pub(crate) fn count_partners(list: &Ranked<Waiting>, sends: bool) -> usize
    ensures { (core : Process) (h : HeapState) (c : ℕ) → AreParked core h list.now.items
        → AreOutputs c (processes_of core h list.now.items) ⊎ AreInputs c (processes_of core h list.now.items)
        → result ≡ length (filter (is_partner_of sends) (processes_of core h list.now.items)) }
{
    if list.len() == 0 {
        return 0;
    }
    match list.get(0) {
        Waiting::Node(_, _) => { if sends { list.len() } else { 0 } }
        Waiting::Output(_) => { if sends { 0 } else { list.len() } }
    }
}
