// The deeds of outputs and inputs at a channel.
ghost use Rattle.std.specs.Prelude.{◌≡◌, ◌<◌, ◌≤◌, [], ℕ, Bool, List, length, map, slice_get, IfOk, IsSome, Ok};
ghost use Rattle.std.specs.Vec.{vec_capacity};
ghost use Rattle.std.specs.List.{AllByRecursion};
ghost use Rattle.pict_syntax.specs.declared.span.Span.{Span as AnySpan};
ghost use Rattle.pict_core.specs.Matching.{match_value};
ghost use Rattle.pict_core.specs.Term.{Process, Val};
ghost use Rattle.pict_code.specs.Instruction.{CodePat as AnyPattern};
ghost use Rattle.pict_code.specs.Levels.{Rises};
ghost use Rattle.pict_code.specs.Nodes.{input_op};
ghost use Rattle.pict_code.specs.Plain.{plain_node, plain_op, plain_pat};
ghost use Rattle.pict_code.specs.ReadBack.{unleveled};
ghost use Rattle.pict_desk.specs.Binding.{levels_of, BindsPattern};
ghost use Rattle.pict_desk.specs.Code.{core_in};
ghost use Rattle.pict_desk.specs.Pairs.{IsPair, ArePairs};
ghost use Rattle.pict_picker.specs.Acting.{IsKeptOn, ReadsAt, ReceivesOn, SendsOn, SentAt, WaitAt};
ghost use Rattle.pict_picker.specs.Deeds.{IsDeed, IsUndone};
ghost use Rattle.pict_picker.specs.Parts.{reader_width, HasRoomAt, KeepsDesk};
ghost use Rattle.pict_picker.specs.Waiting.{pair_value};

use crate::deed::Deed;
use crate::frames::{fill_part, make_part, read_frame};
use crate::waiting::Waiting;
use pict_code::{CodePat, Node, Op};
use pict_desk::{Desk, Kept, bind, word_at};
use pict_heap::{Word, pack};
use pict_ranked::Ranked;
use pict_syntax::Span;
use std::alloc::{AllocError, Global};

// The pattern and the part of an input, and whether it is replicated.
fn input_of(op: &Op) -> (&CodePat, u32, bool)
    requires { (replicated : Bool) × (chan : Val) × (pattern : AnyPattern) × (part : ℕ) × (plain_op op.now ≡ input_op replicated chan pattern part) }
    ensures { (chan : Val) × (plain_op op.now ≡ input_op result.2 chan (plain_pat result.0.now) result.1) }
{
    match op {
        Op::In(_, pattern, part) => (pattern, *part, false),
        Op::Serve(_, pattern, part) => (pattern, *part, true),
        _ => unreachable!(),
    }
}

// The levels of the pattern, which fits the message, get what it binds. Takes no memory.
fn bind_message(desk: &mut Desk, pattern: &CodePat, message: (u64, u64))
    requires pair { IsPair desk.old.heap message }
    requires fits { IsSome (match_value (unleveled (plain_pat pattern.now)) (pair_value desk.old.heap message)) }
    requires inside { AllByRecursion (λ level. level < length desk.old.values.items) (levels_of (plain_pat pattern.now)) }
    requires rising { Rises 0 (levels_of (plain_pat pattern.now)) }
    requires pairs { ArePairs desk.old.heap desk.old.values.items }
    ensures binds { BindsPattern desk.old.heap (plain_pat pattern.now) (pair_value desk.old.heap message) desk.old.values.items desk.new.values.items }
    ensures len { length desk.new.values.items ≡ length desk.old.values.items }
    ensures pairs { ArePairs desk.old.heap desk.new.values.items }
    ensures heap { desk.new.heap ≡ desk.old.heap }
{
    bind(&desk.heap, pattern, word_at(message), &mut desk.values);
}

// Of an output whose partner is the input of the node with this number, of this frame. The input's part gets `room` for its
// frame, which is empty. Takes no memory.
fn serve(
    code: &[Node],
    desk: &mut Desk,
    channel: u32,
    message: (u64, u64),
    number: u32,
    frame: &[(u64, u64)],
    room: Vec<(u64, u64)>,
) -> Deed
    requires acts { (lists : List (List Process)) × (j : ℕ) × (at : AnySpan) × (own : Process) × SendsOn code.now desk.old lists j channel message at own
        × ReadsAt code.now desk.old lists j channel number frame.now }
    requires empty { room.items ≡ [] }
    requires room { reader_width (map plain_node code.now) (slice_get (map plain_node code.now) number) ≤ vec_capacity room }
    ensures deed { (lists : List (List Process)) (j : ℕ) (at : AnySpan) (own : Process) → SendsOn code.now desk.old lists j channel message at own
        → ReadsAt code.now desk.old lists j channel number frame.now → IsDeed (core_in code.now) desk.new.heap lists j own result }
    ensures rest { KeepsDesk (core_in code.now) desk.old desk.new }
    ensures heap { desk.new.heap ≡ desk.old.heap }
    ensures done { IsUndone (Ok result) → ⊥ }
{
    let node = &code[number as usize];
    read_frame(desk, &node.frame, frame);
    let (pattern, part, replicated) = input_of(&node.op);
    bind_message(desk, pattern, message);
    let body = fill_part(code, desk, part, room);
    Deed::Serves {
        channel,
        message,
        replicated,
        body,
    }
}

// The kept words of an output of this message on the channel.
fn kept_on(channel: u32, message: (u64, u64), at: Span) -> Kept
    ensures { IsKeptOn channel message at result }
{
    Kept {
        to: pack(Word::Chan(channel)),
        message,
        at,
    }
}

/// Of an output of this message on the channel, at which these wait: it meets the `j`-th, if that is an input, and else it
/// waits. Where there is an input its part gets `room` for its frame, which is empty. Takes no memory.
pub(crate) fn send(
    code: &[Node],
    desk: &mut Desk,
    list: &Ranked<Waiting>,
    j: usize,
    channel: u32,
    message: (u64, u64),
    at: Span,
    room: Vec<(u64, u64)>,
) -> Deed
    requires acts { (lists : List (List Process)) × (own : Process) × SendsOn code.now desk.old lists j channel message at own
        × WaitAt code.now desk.old lists channel list.now.items }
    requires empty { room.items ≡ [] }
    requires room { HasRoomAt (map plain_node code.now) list.now.items j (vec_capacity room) }
    ensures deed { (lists : List (List Process)) (own : Process) → SendsOn code.now desk.old lists j channel message at own
        → WaitAt code.now desk.old lists channel list.now.items → IsDeed (core_in code.now) desk.new.heap lists j own result }
    ensures rest { KeepsDesk (core_in code.now) desk.old desk.new }
    ensures heap { desk.new.heap ≡ desk.old.heap }
    ensures done { IsUndone (Ok result) → ⊥ }
{
    if j >= list.len() {
        return Deed::Parks(channel, kept_on(channel, message, at));
    }
    match list.get(j) {
        Waiting::Node(number, frame) => serve(code, desk, channel, message, *number, frame, room),
        Waiting::Output(_) => Deed::Parks(channel, kept_on(channel, message, at)),
    }
}

// Of an input that takes this message, which is its partner. The only error is want of memory.
fn take(
    alloc: Global,
    code: &[Node],
    desk: &mut Desk,
    channel: u32,
    message: (u64, u64),
    pattern: &CodePat,
    part: u32,
    replicated: bool,
) -> Result<Deed, AllocError>
    requires acts { (lists : List (List Process)) × (j : ℕ) × (own : Process)
        × ReceivesOn code.now desk.old lists j channel replicated (plain_pat pattern.now) part own
        × SentAt desk.old lists j channel message }
    ensures deed { (lists : List (List Process)) (j : ℕ) (own : Process)
        → ReceivesOn code.now desk.old lists j channel replicated (plain_pat pattern.now) part own
        → SentAt desk.old lists j channel message → IfOk result (IsDeed (core_in code.now) desk.new.heap lists j own) }
    ensures rest { KeepsDesk (core_in code.now) desk.old desk.new }
    ensures heap { desk.new.heap ≡ desk.old.heap }
{
    bind_message(desk, pattern, message);
    let body = make_part(alloc, code, desk, part)?;
    Ok(Deed::Takes {
        channel,
        message,
        replicated,
        body,
    })
}

/// Of an input from the channel, at which these wait: it meets the `j`-th, if that is an output, and else it waits. The only
/// error is want of memory.
pub(crate) fn receive(
    alloc: Global,
    code: &[Node],
    desk: &mut Desk,
    list: &Ranked<Waiting>,
    j: usize,
    channel: u32,
    pattern: &CodePat,
    part: u32,
    replicated: bool,
) -> Result<Deed, AllocError>
    requires acts { (lists : List (List Process)) × (own : Process)
        × ReceivesOn code.now desk.old lists j channel replicated (plain_pat pattern.now) part own
        × WaitAt code.now desk.old lists channel list.now.items }
    ensures deed { (lists : List (List Process)) (own : Process)
        → ReceivesOn code.now desk.old lists j channel replicated (plain_pat pattern.now) part own
        → WaitAt code.now desk.old lists channel list.now.items → IfOk result (IsDeed (core_in code.now) desk.new.heap lists j own) }
    ensures rest { KeepsDesk (core_in code.now) desk.old desk.new }
    ensures heap { desk.new.heap ≡ desk.old.heap }
{
    if j >= list.len() {
        return Ok(Deed::Waits(channel));
    }
    match list.get(j) {
        Waiting::Output(kept) => take(
            alloc,
            code,
            desk,
            channel,
            kept.message,
            pattern,
            part,
            replicated,
        ),
        Waiting::Node(_, _) => Ok(Deed::Waits(channel)),
    }
}
