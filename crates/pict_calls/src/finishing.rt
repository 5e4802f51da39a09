// What a primitive is about to do is done, and its output ends.
ghost use Rattle.std.specs.Prelude.{◌≡◌};
ghost use Rattle.pict_heap.specs.HeapState.{HeapState, value_of, IsWord};
ghost use Rattle.pict_prim.specs.Acts.{effect_act, need_of, answer_need, IsActOf, HasRoom};
ghost use Rattle.pict_turns.specs.Growing.{AddsAtMost};
ghost use Rattle.pict_calls.specs.Finishing.{outputs_of, HasActed};
ghost use Rattle.pict_desk.specs.Kept.{IsOutput};

use pict_desk::Kept;
use pict_heap::{Word, pack};
use pict_prim::{Act, Done, perform};
use pict_syntax::Span;
use pict_turns::{Shown, Store, Turn};

/// How many free blocks the output that the act leaves needs: one where it answers.
#[inline(always)]
pub(crate) fn outputs(act: Act) -> u64
    ensures { result ≡ outputs_of act }
{
    match act {
        Act::Print(_) => 0,
        Act::ZeroDivisor => 0,
        _ => 1,
    }
}

// The kept words of the output of a message on a word, at this place.
#[inline(always)]
fn output(to: Word, message: Word, at: Span) -> Kept
    ensures { (h : HeapState) → IsWord h to → IsWord h message → IsOutput h (value_of h to) (value_of h message) at result }
{
    Kept {
        to: pack(to),
        message: pack(message),
        at,
    }
}

/// The act is done, and its output, which has the turn, ends, or becomes that of the answer; where there is a trap it has the turn
/// still. Takes no memory.
#[inline(always)]
pub(crate) fn finish(store: &mut Store, act: Act, at: Span) -> Shown
    requires act { IsActOf store.old.desk.heap act }
    requires room { HasRoom store.old.desk.heap.room (need_of store.old.desk.heap act) }
    ensures acted { HasActed store.old store.new (effect_act store.old.desk.heap act) at result }
    ensures pending { store.new.desk.pending ≡ store.old.desk.pending }
    ensures adds { AddsAtMost store.old store.new (answer_need (effect_act store.old.desk.heap act)) }
{
    match perform(&mut store.desk.heap, act) {
        Done::Printed(word) => {
            store.turn.set(Turn::Nobody);
            Shown::Print(word)
        }
        Done::Answer(to, answer) => {
            store.turn.set(Turn::Output(output(to, answer, at)));
            Shown::Quiet
        }
        Done::PrintedAnswer(word, to, answer) => {
            store.turn.set(Turn::Output(output(to, answer, at)));
            Shown::Print(word)
        }
        Done::ZeroDivisor => Shown::Trapped(at),
    }
}
