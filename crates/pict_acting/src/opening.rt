// A channel that a node makes for two parts, of which the left one waits there: three steps in one go.
ghost use Rattle.std.specs.Prelude.{◌≡◌, ◌<◌, ◌≤◌, ◌+◌, ◌^◌, ◌*◌, ◌∷◌, ◌↔◌, [], ℕ, All, length, map, true, false, IfSome, IsSome, IsTrue, OnErr, OnOk, Ok, Some};
ghost use Rattle.pict_syntax.specs.declared.limits.TheConstants.{NARROW_LIMIT};
ghost use Rattle.pict_core.specs.Plain.{plain_val};
ghost use Rattle.pict_core.specs.Term.{Var};
ghost use Rattle.pict_code.specs.Instruction as op;
ghost use Rattle.pict_code.specs.Plain.{plain_node, plain_op};
ghost use Rattle.pict_queue.specs.QueuesState.{IsQueue, CostsAtMost};
ghost use Rattle.pict_region.specs.RegionState.{spare};
ghost use Rattle.pict_blocks.specs.Parts.{block_width};
ghost use Rattle.pict_desk.specs.Code.{core_in, IsCode};
ghost use Rattle.pict_desk.specs.Pairs.{ArePairs};
ghost use Rattle.pict_meetings.specs.Room.{CanHoldBeside};
ghost use Rattle.pict_turns.specs.Acting.{IsStore};
ghost use Rattle.pict_turns.specs.Channels.{AddsChannel};
ghost use Rattle.pict_turns.specs.Reserving.{OnlyReserves};
ghost use Rattle.pict_turns.specs.Turns.{IsNarrow};
ghost use Rattle.pict_turns.specs.Widths.{MakesOnly};
ghost use Rattle.pict_acting.specs.declared.opening.Opening.{Opening as AnyOpening};
ghost use Rattle.pict_acting.specs.Bounds.{half_cost, MakesFew};
ghost use Rattle.pict_acting.specs.Opening.{IsNarrowWith, OpensFor, BeginsOpening, ReadsAt, WaitsFor, PutsLast, MakesWait};

use pict_blocks::{block_width, spawn};
use pict_code::{Node, Op, Operand};
use pict_core::CoreVal;
use pict_heap::{Word, pack};
use pict_meetings::reserve_beside;
use pict_prim::NO_NEED;
use pict_queue::QueueId;
use pict_syntax::NARROW_LIMIT;
use pict_turns::{Store, Turn, frame_at, reserve_part};
use std::alloc::AllocError;

// A channel that a node makes for two parts: the level of the channel, and the numbers of the parts' nodes.
#[derive(Clone, Copy)]
pub(crate) struct Opening {
    pub(crate) level: u32,
    pub(crate) left: u32,
    pub(crate) right: u32,
}

// Whether the operand is the variable of this level.
#[inline(always)]
pub(crate) fn is_level(operand: &Operand, level: u32) -> bool
    ensures { IsTrue result ↔ (plain_val operand.now ≡ Var level) }
{
    match operand {
        CoreVal::Var(own) => *own == level,
        _ => false,
    }
}

// The level and the part of an instruction that makes a channel.
#[inline(always)]
fn opened(instruction: &Op) -> Option<(u32, u32)>
    ensures is { IfSome result (λ r. plain_op instruction.now ≡ op.New r.0 r.1) }
    ensures some { (level part : ℕ) → plain_op instruction.now ≡ op.New level part → result ≡ Some (level, part) }
{
    match instruction {
        Op::New(level, part) => Some((*level, *part)),
        _ => None,
    }
}

// The parts of a parallel composition.
#[inline(always)]
fn forked(instruction: &Op) -> Option<(u32, u32)>
    ensures is { IfSome result (λ r. plain_op instruction.now ≡ op.Par r.0 r.1) }
    ensures some { (left right : ℕ) → plain_op instruction.now ≡ op.Par left right → result ≡ Some (left, right) }
{
    match instruction {
        Op::Par(left, right) => Some((*left, *right)),
        _ => None,
    }
}

// Whether the instruction is an input from this level.
#[inline(always)]
fn reads_at(instruction: &Op, level: u32) -> bool
    ensures { IsTrue result ↔ ReadsAt (plain_op instruction.now) level }
{
    match instruction {
        Op::In(chan, _, _) | Op::Serve(chan, _, _) => is_level(chan, level),
        _ => false,
    }
}

// The instruction of the node with this number, where its frame stands in a block itself.
#[inline(always)]
pub(crate) fn narrow_op(code: &[Node], number: u32) -> Option<&Op>
    requires code { IsCode (map plain_node code.now) }
    requires inside { number < length code.now }
    ensures is { IfSome result (λ instruction. IsNarrowWith (core_in code.now) number (plain_op instruction.now)) }
    ensures some { IsNarrow (core_in code.now) number → IsSome result }
{
    if frame_at(code, number as usize).len() <= NARROW_LIMIT as usize {
        Some(&code[number as usize].op)
    } else {
        None
    }
}

// The channel that the node with this number makes for two parts, if it makes one.
#[inline(always)]
fn opening_of(code: &[Node], number: usize) -> Option<Opening>
    requires code { IsCode (map plain_node code.now) }
    requires narrow { IsNarrow (core_in code.now) number }
    ensures is { IfSome result (OpensFor (core_in code.now) number) }
    ensures some { (opening : AnyOpening) → OpensFor (core_in code.now) number opening → result ≡ Some opening }
{
    let (level, both) = opened(&code[number].op)?;
    let (left, right) = forked(narrow_op(code, both)?)?;
    Some(Opening { level, left, right })
}

// The channel that who has the turn makes for two parts, if it makes one.
#[inline(always)]
pub(crate) fn opening_at_turn(code: &[Node], store: &Store) -> Option<Opening>
    requires code { IsCode (map plain_node code.now) }
    requires store { IsStore (core_in code.now) store.now }
    ensures is { IfSome result (BeginsOpening (core_in code.now) store.now) }
    ensures some { (opening : AnyOpening) → BeginsOpening (core_in code.now) store.now opening → result ≡ Some opening }
{
    match store.turn.get() {
        Turn::Node(number) => opening_of(code, number),
        _ => None,
    }
}

// Makes room for blocks of both frames and for a channel. An error, which is want of memory, changes nothing but room.
#[inline(always)]
pub(crate) fn make_room(store: &mut Store, own: &[u32], frame: &[u32]) -> Result<(), AllocError>
    ensures both { OnOk result (CanHoldBeside store.new (block_width own.now) frame.now) }
    ensures own { OnOk result (1 ≤ spare store.new.queues.region (block_width own.now)) }
    ensures queue { OnOk result (1 ≤ store.new.queues.spare_queues) }
    ensures most { MakesOnly store.old.queues store.new.queues (block_width own.now ∷ block_width own.now ∷ block_width frame.now ∷ []) }
    ensures rest { OnlyReserves store.old store.new }
{
    reserve_part(store, own, NO_NEED)?;
    reserve_beside(store, frame, block_width(own))?;
    store.queues.reserve_queues(1)
}

// A new channel, as the value of this level. Takes no memory.
#[inline(always)]
pub(crate) fn add_channel(store: &mut Store, level: u32) -> u32
    requires spare { 1 ≤ store.old.queues.spare_queues }
    requires ready { IsQueue store.old.queues 0 }
    requires few { length store.old.queues.queues < 2 ^ 32 }
    requires inside { level < length store.old.desk.values.items }
    requires pairs { ArePairs store.old.desk.heap store.old.desk.values.items }
    ensures number { result + 1 ≡ length store.old.queues.queues }
    ensures adds { AddsChannel store.old store.new level }
{
    let number = match store.queues.add_queue() {
        Ok(queue) => (queue.0 - 1) as u32,
        Err(_) => unreachable!(),
    };
    store.desk.values[level as usize] = pack(Word::Chan(number));
    number
}

// A new block of the node with this number becomes the last of a queue. Takes no memory.
#[inline(always)]
pub(crate) fn put_last(store: &mut Store, queue: u64, number: u32, frame: &[u32])
    requires queue { IsQueue store.old.queues queue }
    requires narrow { length frame.now ≤ NARROW_LIMIT }
    requires spare { 1 ≤ spare store.old.queues.region (block_width frame.now) }
    requires inside { All (λ level. level < length store.old.desk.values.items) frame.now }
    ensures puts { PutsLast store.old store.new queue number frame.now }
    ensures cost { CostsAtMost (2 * length frame.now + 4) store.old.queues store.new.queues }
{
    spawn(
        &mut store.queues,
        QueueId(queue),
        number,
        frame,
        &store.desk.values,
    );
}

// Whether the left part waits at the channel, and the frames of both parts stand in blocks themselves.
#[inline(always)]
fn waits_for(code: &[Node], opening: Opening) -> bool
    requires code { IsCode (map plain_node code.now) }
    requires opens { (number : ℕ) × OpensFor (core_in code.now) number opening }
    ensures { IsTrue result ↔ WaitsFor (core_in code.now) opening }
{
    match narrow_op(code, opening.left) {
        Some(instruction) => {
            reads_at(instruction, opening.level) && narrow_op(code, opening.right).is_some()
        }
        None => false,
    }
}

// Makes the channel, at which the left part waits then, and the right part is the last of the ready ones. An error, which is want of
// memory, changes nothing but room. The three steps make no more blocks than one may, and cost no more than half of what
// one may.
#[inline(always)]
fn make_wait(code: &[Node], store: &mut Store, opening: Opening) -> Result<(), AllocError>
    requires code { IsCode (map plain_node code.now) }
    requires store { IsStore (core_in code.now) store.old }
    requires begins { BeginsOpening (core_in code.now) store.old opening }
    requires waits { WaitsFor (core_in code.now) opening }
    requires few { length store.old.queues.queues < 2 ^ 32 }
    ensures made { OnOk result (MakesWait (core_in code.now) store.old store.new) }
    ensures refused { OnErr result (OnlyReserves store.old store.new) }
    ensures blocks { MakesFew (core_in code.now) 1 store.old.queues store.new.queues }
    ensures cost { CostsAtMost (half_cost (core_in code.now)) store.old.queues store.new.queues }
{
    let own = frame_at(code, opening.left as usize);
    let frame = frame_at(code, opening.right as usize);
    make_room(store, own, frame)?;
    let channel = add_channel(store, opening.level);
    put_last(store, u64::from(channel) + 1, opening.left, own);
    put_last(store, 0, opening.right, frame);
    store.turn.set(Turn::Nobody);
    Ok(())
}

// The three steps of a channel that who has the turn makes for two parts, of which the left one waits there. It answers whether it is
// so, and else nothing has changed.
#[inline(always)]
pub(crate) fn wait_from(
    code: &[Node],
    store: &mut Store,
    opening: Opening,
) -> Result<bool, AllocError>
    requires code { IsCode (map plain_node code.now) }
    requires store { IsStore (core_in code.now) store.old }
    requires begins { BeginsOpening (core_in code.now) store.old opening }
    requires few { length store.old.queues.queues < 2 ^ 32 }
    ensures made { result ≡ Ok true → MakesWait (core_in code.now) store.old store.new }
    ensures none { result ≡ Ok false → store.new ≡ store.old }
    ensures misses { result ≡ Ok false → WaitsFor (core_in code.now) opening → ⊥ }
    ensures refused { OnErr result (OnlyReserves store.old store.new) }
    ensures blocks { MakesFew (core_in code.now) 1 store.old.queues store.new.queues }
    ensures cost { CostsAtMost (half_cost (core_in code.now)) store.old.queues store.new.queues }
{
    if !waits_for(code, opening) {
        return Ok(false);
    }
    make_wait(code, store, opening)?;
    Ok(true)
}
