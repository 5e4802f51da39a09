// Where who has the turn stands, and what kind of step it takes.
ghost use Rattle.std.specs.Prelude.{◌≡◌, length, map};
ghost use Rattle.pict_core.specs.Closed.{IsOver};
ghost use Rattle.pict_core.specs.Plain.{plain_val};
ghost use Rattle.pict_code.specs.Plain.{plain_node, plain_op};
ghost use Rattle.pict_desk.specs.AtHand.{channel_named};
ghost use Rattle.pict_desk.specs.Code.{core_in, IsCode};
ghost use Rattle.pict_desk.specs.Known.{known, operand_value};
ghost use Rattle.pict_desk.specs.Pairs.{ArePairs};
ghost use Rattle.pict_turns.specs.Acting.{HasActing, ActsBy};
ghost use Rattle.pict_sites.specs.Working.{acting_process};
ghost use Rattle.pict_sites.specs.Standing.{channel_at, other_home, home_in, IsForm};

use pict_code::{Node, Op, Operand};
use pict_desk::{channel_at_hand, channel_of};
use pict_turns::{Store, Turn};

/// What kind of step who has the turn takes.
#[derive(Clone, Copy)]
pub(crate) enum Form {
    /// That of a parallel composition of the nodes with these numbers: left, right.
    Fork(u32, u32),
    /// That of a restriction: it opens a channel.
    Opening,
    /// Another one.
    Other,
}

// The channel that an operand stands for, or None where it stands for no channel.
fn channel_of_operand(store: &Store, operand: &Operand) -> Option<u32>
    requires over { IsOver (length store.now.desk.values.items) 0 (plain_val operand.now) }
    requires pairs { ArePairs store.now.desk.heap store.now.desk.values.items }
    ensures { result ≡ channel_named (operand_value (known store.now.desk.heap store.now.desk.values.items) (plain_val operand.now)) }
{
    channel_at_hand(operand, &store.desk.values)
}

// The channel that a node with this instruction stands at, if it is an output or an input.
fn channel_of_op(code: &[Node], store: &Store, op: &Op) -> Option<u32>
    requires code { IsCode (map plain_node code.now) }
    requires acts { ActsBy (core_in code.now) store.now (plain_op op.now) }
    ensures { result ≡ channel_at (acting_process (core_in code.now) store.now) }
{
    match op {
        Op::Out(chan, _, _) => channel_of_operand(store, chan),
        Op::In(chan, _, _) => channel_of_operand(store, chan),
        Op::Serve(chan, _, _) => channel_of_operand(store, chan),
        _ => None,
    }
}

// The channel that who has the turn stands at, if it is an output or an input.
fn channel_of_turn(code: &[Node], store: &Store) -> Option<u32>
    requires code { IsCode (map plain_node code.now) }
    requires acting { HasActing (core_in code.now) store.now }
    ensures { result ≡ channel_at (acting_process (core_in code.now) store.now) }
{
    match store.turn.get() {
        Turn::Nobody => unreachable!(),
        Turn::Node(number) | Turn::Wide(number, _) => channel_of_op(code, store, &code[number].op),
        Turn::Output(kept) => channel_of(kept.to),
    }
}

/// The home of the channel that who has the turn stands at, if that is another site than s.
pub(crate) fn home_elsewhere(code: &[Node], store: &Store, homes: &[u32], s: usize) -> Option<u32>
    requires code { IsCode (map plain_node code.now) }
    requires acting { HasActing (core_in code.now) store.now }
    ensures { result ≡ other_home s (home_in homes.now (channel_at (acting_process (core_in code.now) store.now))) }
{
    match channel_of_turn(code, store) {
        Some(channel) => match homes.get(channel as usize) {
            Some(home) => {
                if *home as usize == s {
                    None
                } else {
                    Some(*home)
                }
            }
            None => None,
        },
        None => None,
    }
}

// What kind of step a node with this instruction takes.
fn form_of(code: &[Node], store: &Store, op: &Op) -> Form
    requires code { IsCode (map plain_node code.now) }
    requires acts { ActsBy (core_in code.now) store.now (plain_op op.now) }
    ensures { IsForm (core_in code.now) store.now result }
{
    match op {
        Op::Par(left, right) => Form::Fork(*left, *right),
        Op::New(_, _) => Form::Opening,
        _ => Form::Other,
    }
}

/// What kind of step who has the turn takes.
pub(crate) fn form_of_turn(code: &[Node], store: &Store) -> Form
    requires code { IsCode (map plain_node code.now) }
    requires acting { HasActing (core_in code.now) store.now }
    ensures { IsForm (core_in code.now) store.now result }
{
    match store.turn.get() {
        Turn::Nobody => unreachable!(),
        Turn::Node(number) | Turn::Wide(number, _) => form_of(code, store, &code[number].op),
        Turn::Output(_) => Form::Other,
    }
}
