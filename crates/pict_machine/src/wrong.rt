// Whether a step is wrong, asked before it is made.
ghost use Rattle.std.specs.Prelude.{◌≡◌, ◌≢◌, ◌<◌, ◌+◌, ◌↔◌, ◌∷◌, ℕ, List, Bool, None, [], length, map, IsTrue};
ghost use Rattle.pict_syntax.specs.declared.span.Span.{Span};
ghost use Rattle.pict_core.specs.Closed.{IsOver};
ghost use Rattle.pict_core.specs.Configuration.{Configuration, IsConfiguration};
ghost use Rattle.pict_core.specs.Plain.{plain_val};
ghost use Rattle.pict_core.specs.Step.{Wrong, next};
ghost use Rattle.pict_code.specs.Instruction as op;
ghost use Rattle.pict_code.specs.Instruction.{CodePat as AnyPattern};
ghost use Rattle.pict_code.specs.Nodes.{input_op};
ghost use Rattle.pict_code.specs.Plain.{plain_node, plain_op, plain_pat};
ghost use Rattle.pict_view.specs.View.{StandsFor};
ghost use Rattle.pict_heap.specs.HeapState.{HeapState, value_of};
ghost use Rattle.pict_queue.specs.QueuesState.{IsQueue};
ghost use Rattle.pict_queue.specs.Contents.{contents};
ghost use Rattle.pict_blocks.specs.Keeping.{kept_words};
ghost use Rattle.pict_blocks.specs.Writing.{OnlyWorks};
ghost use Rattle.pict_desk.specs.Code.{core_in, IsCode};
ghost use Rattle.pict_desk.specs.Arguments.{operand_in};
ghost use Rattle.pict_desk.specs.AtHand.{channel_named};
ghost use Rattle.pict_desk.specs.Pairs.{ArePairs};
ghost use Rattle.pict_desk.specs.declared.kept.Kept.{Kept as AnyKept};
ghost use Rattle.pict_meetings.specs.Serving.{IsInputWith};
ghost use Rattle.pict_turns.specs.Acting.{ActsBy};
ghost use Rattle.pict_machine.specs.Machine.{IsMachine, IsUnchanged, view_of};
ghost use Rattle.pict_machine.specs.Wrong.{is_wrong, primitive_named, MayAsk, OnlyAsks};

use crate::machine::Machine;
use pict_code::{CodePat, Node, Op, Operand};
use pict_desk::{Kept, channel_at_hand, channel_of, word_at, word_at_hand};
use pict_heap::Word;
use pict_meetings::{Waiting, first_waiting};
use pict_queue::{QueueId, Queues};
use pict_shapes::{fits, fits_operand, operand_is, takes, takes_operand};
use pict_syntax::{Prim, ValueKind};
use pict_turns::{Store, Turn, return_turn, take_turn};

impl Machine {
    /// Whether the next step, that of the oldest ready process with its oldest partner, is wrong: it sends to or receives from
    /// what is no channel, tests what is no Bool, gives a primitive what it doesn't take, or meets a value that doesn't fit a
    /// pattern. Takes no memory, and changes nothing but the work of the queues and the values of levels, which count for nothing
    /// between two calls.
    pub fn next_is_wrong(&mut self) -> bool
        requires kept { IsMachine self.old }
        requires ready { (view_of self.old).ready ≢ [] }
        requires stands { (C : Configuration) × IsConfiguration C × StandsFor (view_of self.old) C }
        ensures wrong { (C : Configuration) → IsConfiguration C → StandsFor (view_of self.old) C → IsTrue result ↔ (next C ≡ Wrong) }
        ensures kept { IsMachine self.new }
        ensures unchanged { IsUnchanged self.old self.new }
    {
        take_turn(&mut self.store, &self.code.nodes);
        let wrong = turn_is_wrong(&self.code.nodes, &mut self.store);
        return_turn(&mut self.store, &self.code.nodes);
        wrong
    }
}

// Whether the step of who has the turn is wrong.
fn turn_is_wrong(code: &[Node], store: &mut Store) -> bool
    requires code { IsCode (map plain_node code.now) }
    requires may { MayAsk (core_in code.now) store.old }
    ensures wrong { result ≡ is_wrong (core_in code.now) store.old }
    ensures asks { OnlyAsks store.old store.new }
{
    match store.turn.get() {
        Turn::Nobody => unreachable!(),
        Turn::Node(number) | Turn::Wide(number, _) => node_is_wrong(code, store, &code[number].op),
        Turn::Output(kept) => output_is_wrong(code, store, kept),
    }
}

// The same of a node with this instruction.
fn node_is_wrong(code: &[Node], store: &mut Store, op: &Op) -> bool
    requires code { IsCode (map plain_node code.now) }
    requires may { MayAsk (core_in code.now) store.old }
    requires acts { ActsBy (core_in code.now) store.old (plain_op op.now) }
    ensures wrong { result ≡ is_wrong (core_in code.now) store.old }
    ensures asks { OnlyAsks store.old store.new }
{
    match op {
        Op::Zero => false,
        Op::Par(_, _) => false,
        Op::New(_, _) => false,
        Op::If(test, _, _) => test_is_wrong(code, store, test),
        Op::Out(chan, message, _) => send_is_wrong(code, store, chan, message),
        Op::In(chan, pattern, _) => input_is_wrong(code, store, chan, pattern),
        Op::Serve(chan, pattern, _) => input_is_wrong(code, store, chan, pattern),
    }
}

// The same of a conditional with this test.
fn test_is_wrong(code: &[Node], store: &Store, test: &Operand) -> bool
    requires code { IsCode (map plain_node code.now) }
    requires may { MayAsk (core_in code.now) store.now }
    requires acts { (yes : ℕ) × (no : ℕ) × ActsBy (core_in code.now) store.now (op.If (plain_val test.now) yes no) }
    ensures { result ≡ is_wrong (core_in code.now) store.now }
{
    !operand_is(&store.desk.heap, ValueKind::Bool, test, &store.desk.values)
}

// The same of an output of the second operand on the first.
fn send_is_wrong(code: &[Node], store: &mut Store, chan: &Operand, message: &Operand) -> bool
    requires code { IsCode (map plain_node code.now) }
    requires may { MayAsk (core_in code.now) store.old }
    requires acts { (at : Span) × ActsBy (core_in code.now) store.old (op.Out (plain_val chan.now) (plain_val message.now) at) }
    ensures wrong { result ≡ is_wrong (core_in code.now) store.old }
    ensures asks { OnlyAsks store.old store.new }
{
    match channel_at_hand(chan, &store.desk.values) {
        Some(channel) => match first_waiting(&mut store.queues, channel) {
            Waiting::Input(reader) => {
                let pattern = pattern_at(code, reader);
                !fits_operand(&store.desk.heap, pattern, message, &store.desk.values)
            }
            _ => false,
        },
        None => call_is_wrong(code, store, chan, message),
    }
}

// The same where the first operand is no channel.
fn call_is_wrong(code: &[Node], store: &Store, chan: &Operand, message: &Operand) -> bool
    requires code { IsCode (map plain_node code.now) }
    requires may { MayAsk (core_in code.now) store.now }
    requires acts { (at : Span) × ActsBy (core_in code.now) store.now (op.Out (plain_val chan.now) (plain_val message.now) at) }
    requires elsewhere { None ≡ channel_named (operand_in store.now.desk.heap store.now.desk.values.items (plain_val chan.now)) }
    ensures { result ≡ is_wrong (core_in code.now) store.now }
{
    match primitive_of_operand(chan, &store.desk.values) {
        Some(p) => !takes_operand(&store.desk.heap, p, message, &store.desk.values),
        None => true,
    }
}

// The same of an output of kept values.
fn output_is_wrong(code: &[Node], store: &mut Store, kept: Kept) -> bool
    requires code { IsCode (map plain_node code.now) }
    requires may { MayAsk (core_in code.now) store.old }
    requires kept { store.old.turn ≡ Turn.Output kept }
    ensures wrong { result ≡ is_wrong (core_in code.now) store.old }
    ensures asks { OnlyAsks store.old store.new }
{
    match channel_of(kept.to) {
        Some(channel) => match first_waiting(&mut store.queues, channel) {
            Waiting::Input(reader) => {
                let pattern = pattern_at(code, reader);
                !fits(&store.desk.heap, pattern, word_at(kept.message))
            }
            _ => false,
        },
        None => match primitive_of(word_at(kept.to)) {
            Some(p) => !takes(&store.desk.heap, p, word_at(kept.message)),
            None => true,
        },
    }
}

// The same of an input from the operand, with this pattern.
fn input_is_wrong(code: &[Node], store: &mut Store, chan: &Operand, pattern: &CodePat) -> bool
    requires code { IsCode (map plain_node code.now) }
    requires may { MayAsk (core_in code.now) store.old }
    requires acts { (replicated : Bool) × (part : ℕ)
        × ActsBy (core_in code.now) store.old (input_op replicated (plain_val chan.now) (plain_pat pattern.now) part) }
    ensures wrong { result ≡ is_wrong (core_in code.now) store.old }
    ensures asks { OnlyAsks store.old store.new }
{
    match channel_at_hand(chan, &store.desk.values) {
        Some(channel) => match first_waiting(&mut store.queues, channel) {
            Waiting::Output => {
                let message = waiting_message(&mut store.queues, channel);
                !fits(&store.desk.heap, pattern, word_at(message))
            }
            _ => false,
        },
        None => true,
    }
}

// The pattern of the input that the node with this number is.
fn pattern_at(code: &[Node], number: usize) -> &CodePat
    requires inside { number < length code.now }
    requires input { (replicated : Bool) × (pattern : AnyPattern) × (part : ℕ) × IsInputWith (map plain_node code.now) number replicated pattern part }
    ensures { (replicated : Bool) (pattern : AnyPattern) (part : ℕ) → IsInputWith (map plain_node code.now) number replicated pattern part
        → plain_pat result.now ≡ pattern }
{
    match &code[number].op {
        Op::In(_, pattern, _) => pattern,
        Op::Serve(_, pattern, _) => pattern,
        _ => unreachable!(),
    }
}

// The two words of the message that waits first at a channel.
fn waiting_message(queues: &mut Queues, channel: u32) -> (u64, u64)
    requires queue { IsQueue queues.old (channel + 1) }
    requires kept { (k : AnyKept) × (rest : List (List ℕ)) × (contents queues.old (channel + 1) ≡ kept_words k ∷ rest) }
    ensures message { (k : AnyKept) (rest : List (List ℕ)) → contents queues.old (channel + 1) ≡ kept_words k ∷ rest → result ≡ k.message }
    ensures works { OnlyWorks queues.old queues.new }
{
    let queue = QueueId(u64::from(channel) + 1);
    match queues.peek(queue, 4) {
        Some(tag) => match queues.peek(queue, 5) {
            Some(payload) => (tag, payload),
            None => unreachable!(),
        },
        None => unreachable!(),
    }
}

// The primitive that an operand stands for, or None where it stands for none.
fn primitive_of_operand(operand: &Operand, values: &[(u64, u64)]) -> Option<Prim>
    requires over { IsOver (length values.now) 0 (plain_val operand.now) }
    requires pairs { (h : HeapState) × ArePairs h values.now }
    ensures { (h : HeapState) → ArePairs h values.now → result ≡ primitive_named (operand_in h values.now (plain_val operand.now)) }
{
    match word_at_hand(operand, values) {
        Some(word) => primitive_of(word),
        None => None,
    }
}

// The primitive that a word is, or None where it is none.
fn primitive_of(word: Word) -> Option<Prim>
    ensures { (h : HeapState) → result ≡ primitive_named (value_of h word) }
{
    match word {
        Word::Prim(p) => Some(p),
        _ => None,
    }
}
