// The steps of inputs.
ghost use Rattle.std.specs.Prelude.{◌≡◌, ◌≤◌, ◌+◌, ◌∷◌, [], ℕ, List, map, length, false, IsTrue, IsOk, OnOk};
ghost use Rattle.pict_syntax.specs.declared.limits.TheConstants.{NARROW_LIMIT};
ghost use Rattle.pict_core.specs.Plain.{plain_val};
ghost use Rattle.pict_code.specs.Nodes.{input_op};
ghost use Rattle.pict_code.specs.Plain.{plain_pat, plain_node};
ghost use Rattle.pict_meetings.specs.Partners.{Receives};
ghost use Rattle.pict_meetings.specs.Room.{CanHoldBeside};
ghost use Rattle.pict_meetings.specs.Waiting.{waits_first};
ghost use Rattle.pict_region.specs.RegionState.{spare};
ghost use Rattle.pict_queue.specs.QueuesState.{CostsAtMost};
ghost use Rattle.pict_turns.specs.Acting.{HasActing, ActsBy};
ghost use Rattle.pict_desk.specs.Code.{core_in, IsCode, HasFrame};
ghost use Rattle.pict_turns.specs.Parts.{CanHold};
ghost use Rattle.pict_blocks.specs.Parts.{block_width};
ghost use Rattle.pict_turns.specs.Reserving.{OnlyReserves};
ghost use Rattle.pict_turns.specs.Growing.{AddsAtMost, part_need};
ghost use Rattle.pict_turns.specs.Turns.{turn_cost};
ghost use Rattle.pict_turns.specs.Views.{acting_words};
ghost use Rattle.pict_turns.specs.Widths.{MakesOnly};
ghost use Rattle.pict_turns.specs.Plain.{ReceivesInPlace, TakesNoMemory};
ghost use Rattle.pict_turns.specs.Stepping.{MayAct, IsStepBy, StepsBy};

use crate::meeting::meet_message;
use crate::parking::park;
use crate::room::reserve_beside;
use crate::waiting::{Waiting, first_waiting};
use pict_blocks::{KEPT_WIDTH, block_width};
use pict_code::{CodePat, Node, Operand};
use pict_desk::channel_at_hand;
use pict_prim::NO_NEED;
use pict_turns::{Shown, Store, Turn, frame_at, reserve_part};
use std::alloc::AllocError;

/// The width of the block that who has the turn would have, in words. Takes no memory.
pub fn acting_width(code: &[Node], store: &Store) -> u32
    requires code { IsCode (map plain_node code.now) }
    requires acting { HasActing (core_in code.now) store.now }
    ensures { length (acting_words (core_in code.now) store.now) + 1 ≡ result }
{
    match store.turn.get() {
        Turn::Nobody => unreachable!(),
        Turn::Node(number) | Turn::Wide(number, _) => block_width(frame_at(code, number)),
        Turn::Output(_) => KEPT_WIDTH,
    }
}

// Makes room for the part of an input that has the turn, whose block would have this width, and which keeps the turn where it is
// replicated. An error, which is want of memory, changes nothing but room and spare blocks.
#[inline(always)]
fn reserve_part_of_input(
    store: &mut Store,
    frame: &[u32],
    width: u32,
    replicated: bool,
) -> Result<(), AllocError>
    ensures can { OnOk result (CanHold store.new frame.now) }
    ensures beside { IsTrue replicated → OnOk result (CanHoldBeside store.new width frame.now) }
    ensures plain { replicated ≡ false → length frame.now ≤ NARROW_LIMIT → 1 ≤ spare store.old.queues.region (block_width frame.now) → IsOk result }
    ensures most { MakesOnly store.old.queues store.new.queues (width ∷ block_width frame.now ∷ []) }
    ensures one { replicated ≡ false → MakesOnly store.old.queues store.new.queues (block_width frame.now ∷ []) }
    ensures rest { OnlyReserves store.old store.new }
{
    if replicated {
        reserve_beside(store, frame, width)
    } else {
        reserve_part(store, frame, NO_NEED)
    }
}

// The step of an input from a channel where a message waits.
#[inline(never)]
fn receive_message(
    code: &[Node],
    store: &mut Store,
    channel: u32,
    replicated: bool,
    pattern: &CodePat,
    part: u32,
) -> Result<Shown, AllocError>
    requires may { MayAct code.now store.old }
    requires receives { Receives (core_in code.now) store.old channel replicated (plain_pat pattern.now) part }
    requires first { waits_first store.old.queues channel ≡ Waiting.Output }
    ensures step { IsStepBy (core_in code.now) store.old store.new result }
    ensures cost { (frame : List ℕ) → HasFrame (map plain_node code.now) part frame
        → CostsAtMost (block_width frame + 7) store.old.queues store.new.queues }
    ensures turn { (frame : List ℕ) → HasFrame (map plain_node code.now) part frame
        → turn_cost (core_in code.now) store.new ≤ turn_cost (core_in code.now) store.old + (block_width frame + 4) }
    ensures blocks { (frame : List ℕ) → HasFrame (map plain_node code.now) part frame
        → MakesOnly store.old.queues store.new.queues ((length (acting_words (core_in code.now) store.old) + 1) ∷ block_width frame ∷ []) }
    ensures adds { AddsAtMost store.old store.new (part_need (map plain_node code.now) part) }
    ensures plain { ReceivesInPlace (core_in code.now) store.old (acting_words (core_in code.now) store.old) → TakesNoMemory store.old store.new result }
{
    let width = acting_width(code, store);
    let frame = frame_at(code, part as usize);
    reserve_part_of_input(store, frame, width, replicated)?;
    let value = meet_message(store, code, channel, pattern, part, replicated);
    Ok(Shown::Comm { channel, value })
}

// The step of an input from a channel.
#[inline(always)]
fn receive(
    code: &[Node],
    store: &mut Store,
    channel: u32,
    replicated: bool,
    pattern: &CodePat,
    part: u32,
) -> Result<Shown, AllocError>
    requires may { MayAct code.now store.old }
    requires receives { Receives (core_in code.now) store.old channel replicated (plain_pat pattern.now) part }
    ensures steps { StepsBy code.now store.old store.new result }
{
    match first_waiting(&mut store.queues, channel) {
        Waiting::Output => { receive_message(code, store, channel, replicated, pattern, part) }
        _ => {
            park(store, code, channel);
            Ok(Shown::Quiet)
        }
    }
}

/// The step of a node's input from the operand, with this pattern and the part of this number.
#[inline(always)]
pub fn input(
    code: &[Node],
    store: &mut Store,
    chan: &Operand,
    replicated: bool,
    pattern: &CodePat,
    part: u32,
) -> Result<Shown, AllocError>
    requires may { MayAct code.now store.old }
    requires acts { ActsBy (core_in code.now) store.old (input_op replicated (plain_val chan.now) (plain_pat pattern.now) part) }
    ensures steps { StepsBy code.now store.old store.new result }
{
    match channel_at_hand(chan, &store.desk.values) {
        Some(channel) => receive(code, store, channel, replicated, pattern, part),
        None => unreachable!(),
    }
}
