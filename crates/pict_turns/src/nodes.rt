// Steps of nodes that need no partner.
ghost use Rattle.std.specs.Prelude.{◌≡◌, ◌<◌, ◌≤◌, ◌+◌, ◌^◌, ◌∷◌, [], ℕ, List, Bool, length, map, max, OnOk, Ok, if◌then◌else◌};
ghost use Rattle.pict_core.specs.Plain.{plain_val};
ghost use Rattle.pict_core.specs.Term.{Process, Boolean};
ghost use Rattle.pict_core.specs.Step.{Quiet};
ghost use Rattle.pict_code.specs.Instruction as op;
ghost use Rattle.pict_code.specs.Plain.{plain_node};
ghost use Rattle.pict_code.specs.declared.instruction.Node.{Node as AnyNode};
ghost use Rattle.pict_queue.specs.QueuesState.{IsQueue, CostsAtMost};
ghost use Rattle.pict_desk.specs.Known.{known, operand_value};
ghost use Rattle.pict_desk.specs.Needs.{no_need};
ghost use Rattle.pict_desk.specs.Pairs.{ArePairs};
ghost use Rattle.pict_turns.specs.Acting.{ActsBy, IsRight, IsDone};
ghost use Rattle.pict_desk.specs.Code.{core_in, IsCode, HasFrame};
ghost use Rattle.pict_turns.specs.Channels.{AddsChannel};
ghost use Rattle.pict_blocks.specs.Parts.{block_width};
ghost use Rattle.pict_turns.specs.Reserving.{CanHoldAnd, OnlyReserves};
ghost use Rattle.pict_turns.specs.Stepping.{StepsBy};
ghost use Rattle.pict_turns.specs.Turns.{turn_cost};
ghost use Rattle.pict_turns.specs.Widths.{MakesOnly, part_width};

use crate::event::Shown;
use crate::parts::{hand_on, hand_on_from, record_at, spawn_from};
use crate::reading::frame_at;
use crate::reserving::{reserve_part, reserve_parts};
use crate::store::Store;
use crate::turn::Turn;
use pict_code::{Node, Operand};
use pict_desk::chosen;
use pict_heap::{Word, pack};
use pict_prim::NO_NEED;
use std::alloc::AllocError;

/// The inert process, which has the turn, ends. Takes no memory.
#[inline(always)]
pub fn end(store: &mut Store) -> Result<Shown, AllocError>
    ensures steps { (code : List AnyNode) → ActsBy (core_in code) store.old op.Zero → StepsBy code store.old store.new result }
    ensures done { (core : Process) → ActsBy core store.old op.Zero → IsDone core store.old store.new Quiet }
    ensures quiet { result ≡ Ok Shown.Quiet }
    ensures rest { store.new ≡ record store.old { turn = Turn.Nobody } }
{
    store.turn.set(Turn::Nobody);
    Ok(Shown::Quiet)
}

/// A parallel composition, which has the turn: its left part has it then, and the block of its right part becomes the last of the
/// ready ones. An error, which is want of memory, changes nothing but room and spare blocks.
#[inline(always)]
pub fn fork(store: &mut Store, code: &[Node], left: u32, right: u32) -> Result<Shown, AllocError>
    requires code { IsCode (map plain_node code.now) }
    requires acts { ActsBy (core_in code.now) store.old (op.Par left right) }
    ensures steps { StepsBy code.now store.old store.new result }
    ensures quiet { OnOk result (result ≡ Ok Shown.Quiet) }
    ensures turn { OnOk result ((first : List ℕ) → HasFrame (map plain_node code.now) left first
        → turn_cost (core_in code.now) store.new ≤ block_width first + 4) }
    ensures blocks { MakesOnly store.old.queues store.new.queues
        (part_width (map plain_node code.now) left ∷ part_width (map plain_node code.now) right ∷ []) }
    ensures cost { (second : List ℕ) → HasFrame (map plain_node code.now) right second
        → CostsAtMost (block_width second + 2) store.old.queues store.new.queues }
{
    let first = frame_at(code, left as usize);
    let second = frame_at(code, right as usize);
    reserve_parts(store, first, second)?;
    let there = record_at(&*store, code, second);
    hand_on_from(store, code, left, first);
    spawn_from(store, there, right, second);
    Ok(Shown::Quiet)
}

/// A conditional, which has the turn: the part that its test chooses has it then. An error, which is want of memory, changes
/// nothing but room and spare blocks.
#[inline(always)]
pub fn choose(
    store: &mut Store,
    code: &[Node],
    test: &Operand,
    yes: u32,
    no: u32,
) -> Result<Shown, AllocError>
    requires code { IsCode (map plain_node code.now) }
    requires acts { ActsBy (core_in code.now) store.old (op.If (plain_val test.now) yes no) }
    requires right { IsRight (core_in code.now) store.old }
    ensures steps { StepsBy code.now store.old store.new result }
    ensures quiet { OnOk result (result ≡ Ok Shown.Quiet) }
    ensures turn { OnOk result ((first second : List ℕ) → HasFrame (map plain_node code.now) yes first → HasFrame (map plain_node code.now) no second
        → turn_cost (core_in code.now) store.new ≤ max (block_width first) (block_width second) + 4) }
    ensures blocks { (b : Bool) → operand_value (known store.old.desk.heap store.old.desk.values.items) (plain_val test.now) ≡ Boolean b
        → MakesOnly store.old.queues store.new.queues (part_width (map plain_node code.now) (if b then yes else no) ∷ []) }
    ensures work { store.new.queues.region.work ≡ store.old.queues.region.work }
{
    let part = chosen(&store.desk, test, yes, no);
    let frame = frame_at(code, part as usize);
    reserve_part(store, frame, NO_NEED)?;
    hand_on_from(store, code, part, frame);
    Ok(Shown::Quiet)
}

// Makes room for a channel, and for the part with this frame.
#[inline(always)]
fn reserve_channel(store: &mut Store, frame: &[u32]) -> Result<(), AllocError>
    ensures part { OnOk result (CanHoldAnd store.new frame.now no_need) }
    ensures queue { OnOk result (1 ≤ store.new.queues.spare_queues) }
    ensures most { MakesOnly store.old.queues store.new.queues (block_width frame.now ∷ []) }
    ensures rest { OnlyReserves store.old store.new }
{
    reserve_part(store, frame, NO_NEED)?;
    store.queues.reserve_queues(1)
}

// A new channel, as the value of this level. Takes no memory.
#[inline(always)]
fn add_channel(store: &mut Store, level: u32)
    requires spare { 1 ≤ store.old.queues.spare_queues }
    requires ready { IsQueue store.old.queues 0 }
    requires few { length store.old.queues.queues < 2 ^ 32 }
    requires inside { level < length store.old.desk.values.items }
    requires pairs { ArePairs store.old.desk.heap store.old.desk.values.items }
    ensures { AddsChannel store.old store.new level }
{
    let number = match store.queues.add_queue() {
        Ok(queue) => (queue.0 - 1) as u32,
        Err(_) => unreachable!(),
    };
    store.desk.values[level as usize] = pack(Word::Chan(number));
}

/// A restriction, which has the turn: its part has it then, with the next channel as the value of the new level. An error, which is
/// want of memory, changes nothing but room and spare blocks: there is no channel more.
#[inline(always)]
pub fn make_channel(
    store: &mut Store,
    code: &[Node],
    level: u32,
    part: u32,
) -> Result<Shown, AllocError>
    requires code { IsCode (map plain_node code.now) }
    requires acts { ActsBy (core_in code.now) store.old (op.New level part) }
    requires few { length store.old.queues.queues < 2 ^ 32 }
    ensures steps { StepsBy code.now store.old store.new result }
    ensures quiet { OnOk result (result ≡ Ok Shown.Quiet) }
    ensures turn { OnOk result ((frame : List ℕ) → HasFrame (map plain_node code.now) part frame
        → turn_cost (core_in code.now) store.new ≤ block_width frame + 4) }
    ensures blocks { MakesOnly store.old.queues store.new.queues (part_width (map plain_node code.now) part ∷ []) }
    ensures work { store.new.queues.region.work ≡ store.old.queues.region.work }
{
    let frame = frame_at(code, part as usize);
    reserve_channel(store, frame)?;
    add_channel(store, level);
    hand_on(store, part, frame);
    Ok(Shown::Quiet)
}
