// The steps of outputs.
ghost use Rattle.std.specs.Prelude.{◌≡◌};
ghost use Rattle.pict_core.specs.Plain.{plain_val};
ghost use Rattle.pict_code.specs.Instruction as op;
ghost use Rattle.pict_turns.specs.Acting.{ActsBy};
ghost use Rattle.pict_desk.specs.Code.{core_in};
ghost use Rattle.pict_desk.specs.Constants.{IsConstant};
ghost use Rattle.pict_meetings.specs.PassedOver.{StepsOrPasses};
ghost use Rattle.pict_turns.specs.Stepping.{MayAct, StepsBy};

use pict_calls::{call_message, call_of_turn};
use pict_code::{Node, Operand};
use pict_desk::{Kept, channel_at_hand, channel_of, primitive_at_hand};
use pict_heap::Word;
use pict_meetings::{send, send_kept};
use pict_syntax::Span;
use pict_turns::{Shown, Store, Turn};
use std::alloc::AllocError;

// The step of an output of these kept values, which has the turn.
#[inline(always)]
pub(crate) fn output_kept(code: &[Node], store: &mut Store, kept: Kept) -> Result<Shown, AllocError>
    requires may { MayAct code.now store.old }
    requires kept { store.old.turn ≡ Turn.Output kept }
    ensures steps { StepsBy code.now store.old store.new result }
{
    match channel_of(kept.to) {
        Some(channel) => send_kept(code, store, channel, kept.message),
        None => call_of_turn(store),
    }
}

// The step of an output of the second operand, which has this constant, on the first.
#[inline(always)]
pub(crate) fn output(
    code: &[Node],
    store: &mut Store,
    chan: &Operand,
    message: &Operand,
    constant: &Option<Word>,
    at: Span,
    passes: bool,
) -> Result<Shown, AllocError>
    requires may { MayAct code.now store.old }
    requires acts { ActsBy (core_in code.now) store.old (op.Out (plain_val chan.now) (plain_val message.now) at) }
    requires constant { IsConstant store.old.desk.heap (plain_val message.now) constant.now }
    ensures steps { StepsOrPasses passes code.now store.old store.new result }
{
    match channel_at_hand(chan, &store.desk.values) {
        Some(channel) => send(code, store, channel, message, constant, at, passes),
        None => {
            let p = primitive_at_hand(chan, &store.desk.values);
            call_message(store, p, message, constant, at)
        }
    }
}
