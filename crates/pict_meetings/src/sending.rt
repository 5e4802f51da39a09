// The steps of outputs to a channel.
ghost use Rattle.std.specs.Prelude.{◌≡◌, ◌<◌, ◌≤◌, ◌+◌, ◌∷◌, ◌↔◌, [], ℕ, Bool, List, length, map, IsOk, IfSome, OnOk, OnErr, IsTrue};
ghost use Rattle.pict_syntax.specs.declared.span.Span.{Span as AnySpan};
ghost use Rattle.pict_core.specs.Closed.{IsOver};
ghost use Rattle.pict_core.specs.Plain.{plain_val};
ghost use Rattle.pict_core.specs.Term.{Process};
ghost use Rattle.pict_code.specs.Instruction.{CodePat as AnyPattern};
ghost use Rattle.pict_code.specs.Plain.{plain_node, plain_pat};
ghost use Rattle.pict_heap.specs.HeapState.{HeapState};
ghost use Rattle.pict_meetings.specs.Partners.{Sends, SendsKept};
ghost use Rattle.pict_meetings.specs.Room.{as_wide, CanHoldAfterAnd};
ghost use Rattle.pict_meetings.specs.Serving.{IsInputWith};
ghost use Rattle.pict_meetings.specs.Waiting.{waits_first, NoInputWaits};
ghost use Rattle.pict_desk.specs.Needs.{need_of, both_needs, no_need, HasRoomFor};
ghost use Rattle.pict_desk.specs.Pairs.{ArePairs};
ghost use Rattle.pict_queue.specs.QueuesState.{IsQueue, CostsAtMost};
ghost use Rattle.pict_region.specs.RegionState.{spare};
ghost use Rattle.pict_turns.specs.Acting.{IsRefused};
ghost use Rattle.pict_desk.specs.Code.{core_in, IsCode, HasFrame};
ghost use Rattle.pict_blocks.specs.Parts.{block_width};
ghost use Rattle.pict_turns.specs.Reserving.{OnlyReserves};
ghost use Rattle.pict_turns.specs.Growing.{AddsAtMost, part_need, message_need};
ghost use Rattle.pict_turns.specs.Turns.{turn_cost};
ghost use Rattle.pict_turns.specs.Views.{acting_words};
ghost use Rattle.pict_turns.specs.Widths.{MakesOnly};
ghost use Rattle.pict_desk.specs.Constants.{IsConstant};
ghost use Rattle.pict_turns.specs.Plain.{SendsInPlace, TakesNoMemory};
ghost use Rattle.pict_meetings.specs.PassedOver.{IsStepOrPassed, StepsOrPasses};
ghost use Rattle.pict_meetings.specs.Sending.{SendsOperand, EndsAsWide};
ghost use Rattle.pict_meetings.specs.Sent.{CanTake, IsReceived, IsSentFor, SendsThis, TakesWhole};
ghost use Rattle.pict_meetings.specs.declared.sent.Sent.{Sent as AnySent};
ghost use Rattle.pict_desk.specs.Arguments.{operand_in};
ghost use Rattle.pict_turns.specs.Stepping.{MayAct, IsStepBy, StepsBy};

use crate::meeting::{input_at, meet_reader};
use crate::parking::{park, park_output};
use crate::room::reserve_served;
use crate::sent::{Sent, fields_at_hand};
use crate::waiting::{Waiting, first_waiting};
use pict_blocks::block_width;
use pict_code::{CodePat, Node, Op, Operand};
use pict_desk::{need, pair_there, word_of};
use pict_heap::{Word, pack};
use pict_prim::NO_NEED;
use pict_syntax::Span;
use pict_turns::{Shown, Store, frame_at, reserve_kept};
use std::alloc::AllocError;

// The number of an input's part.
fn part_of(code: &[Node], reader: usize) -> u32
    requires { (replicated : Bool) × (pattern : AnyPattern) × (part : ℕ) × IsInputWith (map plain_node code.now) reader replicated pattern part }
    ensures { (replicated : Bool) (pattern : AnyPattern) (part : ℕ) → IsInputWith (map plain_node code.now) reader replicated pattern part → result ≡ part }
{
    match &code[reader].op {
        Op::In(_, _, part) => *part,
        Op::Serve(_, _, part) => *part,
        _ => unreachable!(),
    }
}

// The frame of an input's part.
fn reader_frame(code: &[Node], reader: usize) -> &[u32]
    requires code { IsCode (map plain_node code.now) }
    requires input { (replicated : Bool) × (pattern : AnyPattern) × (part : ℕ) × IsInputWith (map plain_node code.now) reader replicated pattern part }
    ensures { (replicated : Bool) (pattern : AnyPattern) (part : ℕ) (frame : List ℕ) → IsInputWith (map plain_node code.now) reader replicated pattern part
        → HasFrame (map plain_node code.now) part frame → result.now ≡ frame }
{
    let part = part_of(code, reader);
    frame_at(code, part as usize)
}

// Whether the block of the input with this number ends when it takes a message, and is as wide as that of the frame.
fn reader_as_wide(code: &[Node], reader: usize, frame: &[u32]) -> bool
    requires low { reader < length code.now }
    ensures { IsTrue result ↔ EndsAsWide (map plain_node code.now) reader frame.now }
{
    match &code[reader].op {
        Op::In(_, _, _) => block_width(frame_at(code, reader)) == block_width(frame),
        _ => false,
    }
}

// The step of an output of what is sent on a channel where an input waits. An error, which is want of memory, changes nothing but
// room, spare blocks and work.
#[inline(always)]
fn send_to_reader(
    code: &[Node],
    store: &mut Store,
    channel: u32,
    reader: usize,
    sent: Sent,
) -> Result<(), AllocError>
    requires may { MayAct code.now store.old }
    requires sends { (at : AnySpan) × SendsThis (core_in code.now) store.old channel sent at }
    requires first { waits_first store.old.queues channel ≡ Waiting.Input reader }
    requires takes { (replicated : Bool) (pattern : AnyPattern) (part : ℕ) → IsInputWith (map plain_node code.now) reader replicated pattern part
        → CanTake pattern sent }
    ensures ok { OnOk result (IsReceived (core_in code.now) store.old store.new channel sent) }
    ensures refused { OnErr result (IsRefused (core_in code.now) store.old store.new) }
    ensures cost { (replicated : Bool) (pattern : AnyPattern) (part : ℕ) (own frame : List ℕ)
        → IsInputWith (map plain_node code.now) reader replicated pattern part
        → HasFrame (map plain_node code.now) reader own → HasFrame (map plain_node code.now) part frame
        → CostsAtMost (block_width own + block_width frame + 6) store.old.queues store.new.queues }
    ensures turn { (replicated : Bool) (pattern : AnyPattern) (part : ℕ) (frame : List ℕ)
        → IsInputWith (map plain_node code.now) reader replicated pattern part → HasFrame (map plain_node code.now) part frame
        → turn_cost (core_in code.now) store.new ≤ turn_cost (core_in code.now) store.old + (block_width frame + 4) }
    ensures blocks { (replicated : Bool) (pattern : AnyPattern) (part : ℕ) (frame : List ℕ)
        → IsInputWith (map plain_node code.now) reader replicated pattern part → HasFrame (map plain_node code.now) part frame
        → MakesOnly store.old.queues store.new.queues (block_width frame ∷ []) }
    ensures adds { (replicated : Bool) (pattern : AnyPattern) (part : ℕ) → IsInputWith (map plain_node code.now) reader replicated pattern part
        → AddsAtMost store.old store.new (part_need (map plain_node code.now) part) }
    ensures plain { SendsInPlace (core_in code.now) store.old (acting_words (core_in code.now) store.old) → TakesNoMemory store.old store.new result }
{
    let frame = reader_frame(code, reader);
    let reuses = reader_as_wide(code, reader, frame);
    reserve_served(store, frame, NO_NEED, reuses)?;
    meet_reader(store, code, channel, reader, sent);
    Ok(())
}

// The answer of a step that makes these two words be received on the channel, if it is done.
#[inline(always)]
fn receipt(
    done: Result<(), AllocError>,
    channel: u32,
    message: (u64, u64),
) -> Result<Shown, AllocError>
    ensures step { (core : Process) (old new : Store) → OnOk done (IsReceived core old new channel (Sent.Whole message)) → OnErr done (IsRefused core old new)
        → IsStepBy core old new result }
    ensures ok { IsOk done → IsOk result }
{
    done?;
    Ok(Shown::Comm {
        channel,
        value: message,
    })
}

/// The step of an output of these two words on a channel, which has the turn as an output of kept values.
#[inline(always)]
pub fn send_kept(
    code: &[Node],
    store: &mut Store,
    channel: u32,
    message: (u64, u64),
) -> Result<Shown, AllocError>
    requires may { MayAct code.now store.old }
    requires kept { SendsKept (core_in code.now) store.old channel }
    requires sends { (at : AnySpan) × Sends (core_in code.now) store.old channel message at }
    ensures steps { StepsBy code.now store.old store.new result }
{
    match first_waiting(&mut store.queues, channel) {
        Waiting::Input(reader) => {
            let done = send_to_reader(code, store, channel, reader, Sent::Whole(message));
            receipt(done, channel, message)
        }
        _ => {
            park(store, code, channel);
            Ok(Shown::Quiet)
        }
    }
}

// Makes room for the word of the operand and for a block of an output of kept values. An error, which is want of memory,
// changes nothing but room.
fn reserve_message(store: &mut Store, message: &Operand) -> Result<(), AllocError>
    ensures block { OnOk result (1 ≤ spare store.new.queues.region 9) }
    ensures room { OnOk result (HasRoomFor store.new.desk.heap store.new.desk.pending (need_of (plain_val message.now))) }
    ensures most { MakesOnly store.old.queues store.new.queues (9 ∷ []) }
    ensures rest { OnlyReserves store.old store.new }
{
    let need = need(message)?;
    reserve_kept(store, need)
}

// Makes room for the word of the operand, and for a block of the frame once other blocks are given back: `reuses` says whether
// one of them is as wide. An error, which is want of memory, changes nothing but room.
fn reserve_meeting(
    store: &mut Store,
    frame: &[u32],
    message: &Operand,
    reuses: bool,
) -> Result<(), AllocError>
    ensures room { OnOk result ((given : List (List ℕ)) → (IsTrue reuses → 1 ≤ as_wide (block_width frame.now) given)
        → CanHoldAfterAnd store.new given frame.now (need_of (plain_val message.now))) }
    ensures most { MakesOnly store.old.queues store.new.queues (block_width frame.now ∷ []) }
    ensures rest { OnlyReserves store.old store.new }
{
    let need = need(message)?;
    reserve_served(store, frame, need, reuses)
}

// The step of an output of two words on a channel where no input waits.
#[inline(never)]
fn park_words(
    store: &mut Store,
    channel: u32,
    message: (u64, u64),
    at: Span,
) -> Result<Shown, AllocError>
    requires queue { IsQueue store.old.queues (channel + 1) }
    ensures step { (core : Process) → Sends core store.old channel message at → NoInputWaits store.old.queues channel
        → IsStepBy core store.old store.new result }
    ensures cost { CostsAtMost 10 store.old.queues store.new.queues }
    ensures turn { (core : Process) → turn_cost core store.new ≤ turn_cost core store.old }
    ensures blocks { MakesOnly store.old.queues store.new.queues (9 ∷ []) }
    ensures adds { AddsAtMost store.old store.new no_need }
{
    reserve_kept(store, NO_NEED)?;
    park_output(store, channel, message, at);
    Ok(Shown::Quiet)
}

// The step of an output of an operand on a channel where no input waits, once the operand's word is made.
#[inline(never)]
fn park_made(
    store: &mut Store,
    channel: u32,
    message: &Operand,
    at: Span,
) -> Result<Shown, AllocError>
    requires queue { IsQueue store.old.queues (channel + 1) }
    requires over { IsOver (length store.old.desk.values.items) 0 (plain_val message.now) }
    requires pairs { ArePairs store.old.desk.heap store.old.desk.values.items }
    ensures step { (core : Process) → SendsOperand core store.old channel (plain_val message.now) at → NoInputWaits store.old.queues channel
        → IsStepBy core store.old store.new result }
    ensures cost { CostsAtMost 10 store.old.queues store.new.queues }
    ensures turn { (core : Process) → turn_cost core store.new ≤ turn_cost core store.old }
    ensures blocks { MakesOnly store.old.queues store.new.queues (9 ∷ []) }
    ensures adds { AddsAtMost store.old store.new (need_of (plain_val message.now)) }
{
    reserve_message(store, message)?;
    let word = word_of(
        &mut store.desk.heap,
        &mut store.desk.pending,
        message,
        &store.desk.values,
    );
    park_output(store, channel, pack(word), at);
    Ok(Shown::Quiet)
}

// The step of an output of an operand, which has this constant, on a channel where no input waits.
#[inline(never)]
fn park_operand(
    store: &mut Store,
    channel: u32,
    message: &Operand,
    constant: &Option<Word>,
    at: Span,
) -> Result<Shown, AllocError>
    requires queue { IsQueue store.old.queues (channel + 1) }
    requires over { IsOver (length store.old.desk.values.items) 0 (plain_val message.now) }
    requires pairs { ArePairs store.old.desk.heap store.old.desk.values.items }
    requires constant { IsConstant store.old.desk.heap (plain_val message.now) constant.now }
    ensures step { (core : Process) → SendsOperand core store.old channel (plain_val message.now) at → NoInputWaits store.old.queues channel
        → IsStepBy core store.old store.new result }
    ensures cost { CostsAtMost 10 store.old.queues store.new.queues }
    ensures turn { (core : Process) → turn_cost core store.new ≤ turn_cost core store.old }
    ensures blocks { MakesOnly store.old.queues store.new.queues (9 ∷ []) }
    ensures adds { AddsAtMost store.old store.new (message_need (plain_val message.now)) }
{
    match pair_there(message, constant, &store.desk.values) {
        Some(pair) => park_words(store, channel, pair, at),
        None => park_made(store, channel, message, at),
    }
}

// The step of an output of an operand on a channel where an input waits, once the operand's word is made.
#[inline(never)]
fn send_made(
    code: &[Node],
    store: &mut Store,
    channel: u32,
    reader: usize,
    message: &Operand,
) -> Result<Shown, AllocError>
    requires may { MayAct code.now store.old }
    requires sends { (at : AnySpan) × SendsOperand (core_in code.now) store.old channel (plain_val message.now) at }
    requires first { waits_first store.old.queues channel ≡ Waiting.Input reader }
    ensures step { IsStepBy (core_in code.now) store.old store.new result }
    ensures cost { (replicated : Bool) (pattern : AnyPattern) (part : ℕ) (own frame : List ℕ)
        → IsInputWith (map plain_node code.now) reader replicated pattern part
        → HasFrame (map plain_node code.now) reader own → HasFrame (map plain_node code.now) part frame
        → CostsAtMost (block_width own + block_width frame + 6) store.old.queues store.new.queues }
    ensures turn { (replicated : Bool) (pattern : AnyPattern) (part : ℕ) (frame : List ℕ)
        → IsInputWith (map plain_node code.now) reader replicated pattern part → HasFrame (map plain_node code.now) part frame
        → turn_cost (core_in code.now) store.new ≤ turn_cost (core_in code.now) store.old + (block_width frame + 4) }
    ensures blocks { (replicated : Bool) (pattern : AnyPattern) (part : ℕ) (frame : List ℕ)
        → IsInputWith (map plain_node code.now) reader replicated pattern part → HasFrame (map plain_node code.now) part frame
        → MakesOnly store.old.queues store.new.queues (block_width frame ∷ []) }
    ensures adds { (replicated : Bool) (pattern : AnyPattern) (part : ℕ) → IsInputWith (map plain_node code.now) reader replicated pattern part
        → AddsAtMost store.old store.new (both_needs (need_of (plain_val message.now)) (part_need (map plain_node code.now) part)) }
{
    let frame = reader_frame(code, reader);
    let reuses = reader_as_wide(code, reader, frame);
    reserve_meeting(store, frame, message, reuses)?;
    let word = word_of(
        &mut store.desk.heap,
        &mut store.desk.pending,
        message,
        &store.desk.values,
    );
    let value = pack(word);
    meet_reader(store, code, channel, reader, Sent::Whole(value));
    Ok(Shown::Comm { channel, value })
}

// Whether the pattern binds what it receives as a whole.
#[inline(always)]
fn takes_whole(pattern: &CodePat) -> bool
    ensures { IsTrue result ↔ TakesWhole (plain_pat pattern.now) }
{
    match pattern {
        CodePat::Bind(_) => true,
        _ => false,
    }
}

// The record that is sent to an input, unmade, where it can be: the input takes it apart, and its fields are at hand.
#[inline(always)]
fn unmade(code: &[Node], reader: usize, message: &Operand, values: &[(u64, u64)]) -> Option<Sent>
    requires inside { reader < length code.now }
    requires input { (replicated : Bool) × (pattern : AnyPattern) × (part : ℕ) × IsInputWith (map plain_node code.now) reader replicated pattern part }
    requires over { IsOver (length values.now) 0 (plain_val message.now) }
    requires pairs { (h : HeapState) × ArePairs h values.now }
    ensures sent { (h : HeapState) → ArePairs h values.now → IfSome result (IsSentFor h (operand_in h values.now (plain_val message.now))) }
    ensures takes { IfSome result (λ sent. (replicated : Bool) (pattern : AnyPattern) (part : ℕ)
        → IsInputWith (map plain_node code.now) reader replicated pattern part → CanTake pattern sent) }
{
    let (pattern, _, _) = input_at(code, reader);
    if takes_whole(pattern) {
        None
    } else {
        fields_at_hand(message, values)
    }
}

// The answer of a step that makes what is sent be received, if it is done, where communications are passed over.
#[inline(always)]
fn passed(done: Result<(), AllocError>) -> Result<Shown, AllocError>
    ensures { (core : Process) (old new : Store) (channel : ℕ) (sent : AnySent) (passes : Bool) → OnOk done (IsReceived core old new channel sent)
        → OnErr done (IsRefused core old new) → IsTrue passes → IsStepOrPassed passes core old new result }
{
    done?;
    Ok(Shown::Quiet)
}

// The same, and where communications are passed over the word of a record isn't made that is taken apart.
#[inline(never)]
fn send_unmade(
    code: &[Node],
    store: &mut Store,
    channel: u32,
    reader: usize,
    message: &Operand,
    passes: bool,
) -> Result<Shown, AllocError>
    requires may { MayAct code.now store.old }
    requires sends { (at : AnySpan) × SendsOperand (core_in code.now) store.old channel (plain_val message.now) at }
    requires first { waits_first store.old.queues channel ≡ Waiting.Input reader }
    ensures step { IsStepOrPassed passes (core_in code.now) store.old store.new result }
    ensures cost { (replicated : Bool) (pattern : AnyPattern) (part : ℕ) (own frame : List ℕ)
        → IsInputWith (map plain_node code.now) reader replicated pattern part
        → HasFrame (map plain_node code.now) reader own → HasFrame (map plain_node code.now) part frame
        → CostsAtMost (block_width own + block_width frame + 6) store.old.queues store.new.queues }
    ensures turn { (replicated : Bool) (pattern : AnyPattern) (part : ℕ) (frame : List ℕ)
        → IsInputWith (map plain_node code.now) reader replicated pattern part → HasFrame (map plain_node code.now) part frame
        → turn_cost (core_in code.now) store.new ≤ turn_cost (core_in code.now) store.old + (block_width frame + 4) }
    ensures blocks { (replicated : Bool) (pattern : AnyPattern) (part : ℕ) (frame : List ℕ)
        → IsInputWith (map plain_node code.now) reader replicated pattern part → HasFrame (map plain_node code.now) part frame
        → MakesOnly store.old.queues store.new.queues (block_width frame ∷ []) }
    ensures adds { (replicated : Bool) (pattern : AnyPattern) (part : ℕ) → IsInputWith (map plain_node code.now) reader replicated pattern part
        → AddsAtMost store.old store.new (both_needs (need_of (plain_val message.now)) (part_need (map plain_node code.now) part)) }
{
    if passes {
        match unmade(code, reader, message, &store.desk.values) {
            Some(sent) => return passed(send_to_reader(code, store, channel, reader, sent)),
            None => {}
        }
    }
    send_made(code, store, channel, reader, message)
}

// The step of an output of an operand, which has this constant, on a channel where an input waits.
#[inline(always)]
fn send_operand(
    code: &[Node],
    store: &mut Store,
    channel: u32,
    reader: usize,
    message: &Operand,
    constant: &Option<Word>,
    passes: bool,
) -> Result<Shown, AllocError>
    requires may { MayAct code.now store.old }
    requires sends { (at : AnySpan) × SendsOperand (core_in code.now) store.old channel (plain_val message.now) at }
    requires first { waits_first store.old.queues channel ≡ Waiting.Input reader }
    requires constant { IsConstant store.old.desk.heap (plain_val message.now) constant.now }
    ensures step { IsStepOrPassed passes (core_in code.now) store.old store.new result }
    ensures cost { (replicated : Bool) (pattern : AnyPattern) (part : ℕ) (own frame : List ℕ)
        → IsInputWith (map plain_node code.now) reader replicated pattern part
        → HasFrame (map plain_node code.now) reader own → HasFrame (map plain_node code.now) part frame
        → CostsAtMost (block_width own + block_width frame + 6) store.old.queues store.new.queues }
    ensures turn { (replicated : Bool) (pattern : AnyPattern) (part : ℕ) (frame : List ℕ)
        → IsInputWith (map plain_node code.now) reader replicated pattern part → HasFrame (map plain_node code.now) part frame
        → turn_cost (core_in code.now) store.new ≤ turn_cost (core_in code.now) store.old + (block_width frame + 4) }
    ensures blocks { (replicated : Bool) (pattern : AnyPattern) (part : ℕ) (frame : List ℕ)
        → IsInputWith (map plain_node code.now) reader replicated pattern part → HasFrame (map plain_node code.now) part frame
        → MakesOnly store.old.queues store.new.queues (block_width frame ∷ []) }
    ensures adds { (replicated : Bool) (pattern : AnyPattern) (part : ℕ) → IsInputWith (map plain_node code.now) reader replicated pattern part
        → AddsAtMost store.old store.new (both_needs (message_need (plain_val message.now)) (part_need (map plain_node code.now) part)) }
    ensures plain { SendsInPlace (core_in code.now) store.old (acting_words (core_in code.now) store.old) → TakesNoMemory store.old store.new result }
{
    match pair_there(message, constant, &store.desk.values) {
        Some(pair) => {
            let done = send_to_reader(code, store, channel, reader, Sent::Whole(pair));
            receipt(done, channel, pair)
        }
        None => send_unmade(code, store, channel, reader, message, passes),
    }
}

/// The step of a node's output of an operand, which has this constant, on a channel: its text or record is made where it has none.
/// Where communications are passed over, a record of two or three fields at hand, without labels, that the reader takes apart isn't
/// made; no clause says so.
#[inline(always)]
pub fn send(
    code: &[Node],
    store: &mut Store,
    channel: u32,
    message: &Operand,
    constant: &Option<Word>,
    at: Span,
    passes: bool,
) -> Result<Shown, AllocError>
    requires may { MayAct code.now store.old }
    requires sends { SendsOperand (core_in code.now) store.old channel (plain_val message.now) at }
    requires constant { IsConstant store.old.desk.heap (plain_val message.now) constant.now }
    ensures steps { StepsOrPasses passes code.now store.old store.new result }
{
    match first_waiting(&mut store.queues, channel) {
        Waiting::Input(reader) => {
            send_operand(code, store, channel, reader, message, constant, passes)
        }
        _ => park_operand(store, channel, message, constant, at),
    }
}
