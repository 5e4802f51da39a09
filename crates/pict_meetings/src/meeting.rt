// Outputs and inputs that meet at a channel.
ghost use Rattle.std.specs.Prelude.{◌≡◌, ◌<◌, ◌≤◌, ◌+◌, [], List, ℕ, Bool, true, false, All, map, take, length, IsTrue, if◌then◌else◌};
ghost use Rattle.pict_syntax.specs.declared.span.Span.{Span};
ghost use Rattle.pict_core.specs.Step.{Comm};
ghost use Rattle.pict_core.specs.Term.{Process};
ghost use Rattle.pict_code.specs.Instruction.{CodePat as AnyPattern};
ghost use Rattle.pict_code.specs.Nodes.{nodes_of};
ghost use Rattle.pict_code.specs.Plain.{plain_node, plain_pat};
ghost use Rattle.pict_region.specs.RegionState.{KeepsBlocks};
ghost use Rattle.pict_queue.specs.QueuesState.{IsQueue, CostsAtMost};
ghost use Rattle.pict_queue.specs.Contents.{contents, HoldsNoMore};
ghost use Rattle.pict_desk.specs.Known.{value_in};
ghost use Rattle.pict_desk.specs.Pairs.{IsPair, ArePairs};
ghost use Rattle.pict_turns.specs.Acting.{IsRight, IsDone};
ghost use Rattle.pict_desk.specs.Code.{core_in, IsCode, HasFrame};
ghost use Rattle.pict_turns.specs.Parts.{CanHold, Spawns, IsLast};
ghost use Rattle.pict_blocks.specs.Parts.{block_width};
ghost use Rattle.pict_turns.specs.Growing.{AddsAtMost, part_need};
ghost use Rattle.pict_turns.specs.Turns.{turn_cost};
ghost use Rattle.pict_turns.specs.Views.{acting_words};
ghost use Rattle.pict_meetings.specs.Partners.{Receives};
ghost use Rattle.pict_meetings.specs.Sent.{sent_value, CanTake, SendsThis};
ghost use Rattle.pict_meetings.specs.Room.{CanHoldAfter, CanHoldBeside};
ghost use Rattle.pict_meetings.specs.Serving.{IsInputWith};
ghost use Rattle.pict_meetings.specs.Waiting.{waits_first};

use crate::binding::{bind_levels, bind_sent};
use crate::sent::Sent;
use crate::taking::{read_waiting, settle, take_message};
use crate::waiting::Waiting;
use pict_code::{CodePat, Node, Op};
use pict_turns::{Store, Turn, frame_at, make_ready, spawn_part};

// The node with this number is the last of the ready ones then. Who has the turn stays the first of them, or ends.
#[inline(always)]
fn make_last(store: &mut Store, stays: bool, number: u32, frame: &[u32])
    requires queue { IsQueue store.old.queues 0 }
    requires can { CanHold store.old frame.now }
    requires inside { All (λ level. level < length store.old.desk.values.items) frame.now }
    requires pairs { ArePairs store.old.desk.heap store.old.desk.values.items }
    ensures behind { stays ≡ true → Spawns store.old store.new number frame.now }
    ensures alone { stays ≡ false → (core : Process) → HasFrame (nodes_of core) number frame.now
        → IsLast core (record store.old { turn = Turn.Nobody }) store.new number frame.now }
    ensures no_more { HoldsNoMore store.old.queues store.new.queues }
    ensures spare_queues { store.new.queues.spare_queues ≡ store.old.queues.spare_queues }
    ensures blocks { KeepsBlocks store.old.queues.region store.new.queues.region }
    ensures cost { CostsAtMost (block_width frame.now + 2) store.old.queues store.new.queues }
{
    if stays {
        spawn_part(store, number, frame);
    } else {
        store.turn.set(Turn::Nobody);
        make_ready(store, number, frame);
    }
}

/// The input from the channel that has the turn takes the oldest message there, which is the result: its part, with what its
/// pattern binds, becomes the last of the ready ones. A replicated input keeps the turn, another ends. It needs what the part
/// does, and where the input keeps the turn a block for it as well. Takes no memory.
pub(crate) fn meet_message(
    store: &mut Store,
    code: &[Node],
    channel: u32,
    pattern: &CodePat,
    part: u32,
    replicated: bool,
) -> (u64, u64)
    requires code { IsCode (map plain_node code.now) }
    requires receives { Receives (core_in code.now) store.old channel replicated (plain_pat pattern.now) part }
    requires queue { IsQueue store.old.queues (channel + 1) }
    requires first { waits_first store.old.queues channel ≡ Waiting.Output }
    requires right { IsRight (core_in code.now) store.old }
    requires can { (frame : List ℕ) → HasFrame (map plain_node code.now) part frame → CanHold store.old frame }
    requires beside { IsTrue replicated → (frame : List ℕ) → HasFrame (map plain_node code.now) part frame
        → CanHoldBeside store.old (length (acting_words (core_in code.now) store.old) + 1) frame }
    ensures pair { IsPair store.new.desk.heap result }
    ensures done { IsDone (core_in code.now) store.old store.new (Comm channel (value_in store.new.desk.heap result.0 result.1)) }
    ensures turn { (frame : List ℕ) → HasFrame (map plain_node code.now) part frame
        → turn_cost (core_in code.now) store.new ≤ turn_cost (core_in code.now) store.old + (block_width frame + 4) }
    ensures blocks { KeepsBlocks store.old.queues.region store.new.queues.region }
    ensures adds { AddsAtMost store.old store.new (part_need (map plain_node code.now) part) }
    ensures cost { (frame : List ℕ) → HasFrame (map plain_node code.now) part frame
        → CostsAtMost (block_width frame + 7) store.old.queues store.new.queues }
{
    let frame = frame_at(code, part as usize);
    let message = take_message(&mut store.queues, channel);
    bind_levels(store, pattern, message);
    make_last(store, replicated, part, frame);
    message
}

// The oldest input at the channel, of the node with this number, which has this pattern and this part, takes what who has
// the turn sends.
#[inline(always)]
fn serve(
    store: &mut Store,
    code: &[Node],
    channel: u32,
    sent: Sent,
    number: usize,
    pattern: &CodePat,
    part: u32,
    replicated: bool,
)
    requires code { IsCode (map plain_node code.now) }
    requires sends { (at : Span) × SendsThis (core_in code.now) store.old channel sent at }
    requires queue { IsQueue store.old.queues (channel + 1) }
    requires first { waits_first store.old.queues channel ≡ Waiting.Input number }
    requires input { IsInputWith (map plain_node code.now) number replicated (plain_pat pattern.now) part }
    requires takes { CanTake (plain_pat pattern.now) sent }
    requires right { IsRight (core_in code.now) store.old }
    requires can { (frame : List ℕ) → HasFrame (map plain_node code.now) part frame
        → CanHoldAfter store.old (if replicated then [] else take 1 (contents store.old.queues (channel + 1))) frame }
    ensures done { IsDone (core_in code.now) store.old store.new (Comm channel (sent_value store.new.desk.heap sent)) }
    ensures turn { (frame : List ℕ) → HasFrame (map plain_node code.now) part frame
        → turn_cost (core_in code.now) store.new ≤ block_width frame + 4 }
    ensures blocks { KeepsBlocks store.old.queues.region store.new.queues.region }
    ensures adds { AddsAtMost store.old store.new (part_need (map plain_node code.now) part) }
    ensures cost { (own frame : List ℕ) → HasFrame (map plain_node code.now) number own → HasFrame (map plain_node code.now) part frame
        → CostsAtMost (block_width own + block_width frame + 6) store.old.queues store.new.queues }
{
    let frame = frame_at(code, part as usize);
    store.turn.set(Turn::Nobody);
    read_waiting(store, code, channel, number);
    settle(&mut store.queues, channel, replicated);
    bind_sent(store, pattern, sent);
    make_ready(store, part, frame);
}

// The pattern and the part of the input that the node with this number is, and whether it is replicated.
#[inline(always)]
pub(crate) fn input_at(code: &[Node], number: usize) -> (&CodePat, u32, bool)
    requires inside { number < length code.now }
    requires input { (replicated : Bool) × (pattern : AnyPattern) × (part : ℕ) × IsInputWith (map plain_node code.now) number replicated pattern part }
    ensures { IsInputWith (map plain_node code.now) number result.2 (plain_pat result.0.now) result.1 }
{
    match &code[number].op {
        Op::In(_, pattern, part) => (pattern, *part, false),
        Op::Serve(_, pattern, part) => (pattern, *part, true),
        _ => unreachable!(),
    }
}

/// The oldest input that waits at the channel, of the node with number `reader`, takes what who has the turn sends: its
/// part, with what its pattern binds beside the values that it held, becomes the last of the ready ones. A replicated input goes
/// behind the others at the channel, another ends, as the output does. It needs what the part does, once the block that ends is
/// given back. Takes no memory.
#[inline(always)]
pub(crate) fn meet_reader(store: &mut Store, code: &[Node], channel: u32, reader: usize, sent: Sent)
    requires code { IsCode (map plain_node code.now) }
    requires sends { (at : Span) × SendsThis (core_in code.now) store.old channel sent at }
    requires queue { IsQueue store.old.queues (channel + 1) }
    requires first { waits_first store.old.queues channel ≡ Waiting.Input reader }
    requires takes { (replicated : Bool) (pattern : AnyPattern) (part : ℕ) → IsInputWith (map plain_node code.now) reader replicated pattern part
        → CanTake pattern sent }
    requires right { IsRight (core_in code.now) store.old }
    requires can { (replicated : Bool) (pattern : AnyPattern) (part : ℕ) (frame : List ℕ)
        → IsInputWith (map plain_node code.now) reader replicated pattern part → HasFrame (map plain_node code.now) part frame
        → CanHoldAfter store.old (if replicated then [] else take 1 (contents store.old.queues (channel + 1))) frame }
    ensures done { IsDone (core_in code.now) store.old store.new (Comm channel (sent_value store.new.desk.heap sent)) }
    ensures turn { (replicated : Bool) (pattern : AnyPattern) (part : ℕ) (frame : List ℕ)
        → IsInputWith (map plain_node code.now) reader replicated pattern part → HasFrame (map plain_node code.now) part frame
        → turn_cost (core_in code.now) store.new ≤ block_width frame + 4 }
    ensures blocks { KeepsBlocks store.old.queues.region store.new.queues.region }
    ensures adds { (replicated : Bool) (pattern : AnyPattern) (part : ℕ) → IsInputWith (map plain_node code.now) reader replicated pattern part
        → AddsAtMost store.old store.new (part_need (map plain_node code.now) part) }
    ensures cost { (replicated : Bool) (pattern : AnyPattern) (part : ℕ) (own frame : List ℕ)
        → IsInputWith (map plain_node code.now) reader replicated pattern part
        → HasFrame (map plain_node code.now) reader own → HasFrame (map plain_node code.now) part frame
        → CostsAtMost (block_width own + block_width frame + 6) store.old.queues store.new.queues }
{
    let (pattern, part, replicated) = input_at(code, reader);
    serve(
        store, code, channel, sent, reader, pattern, part, replicated,
    );
}
