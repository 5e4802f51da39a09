// The step of who has the turn, with what it shows as words.
ghost use Rattle.std.specs.Prelude.{◌≡◌, map};
ghost use Rattle.pict_code.specs.Plain.{plain_node};
ghost use Rattle.pict_heap.specs.HeapState.{HeapState};
ghost use Rattle.pict_desk.specs.Code.{core_in};
ghost use Rattle.pict_desk.specs.Constants.{AreConstants};
ghost use Rattle.pict_picker.specs.Events.{label_of, trap_of, IsDidOf};
ghost use Rattle.pict_turns.specs.Shown.{label_shown, trap_shown, IsShownOf};
ghost use Rattle.pict_turns.specs.Stepping.{MayAct};
ghost use Rattle.pict_sites.specs.Happening.{IsDidBy};

use pict_acting::act;
use pict_code::Node;
use pict_desk::word_at;
use pict_heap::Word;
use pict_picker::Did;
use pict_turns::{Shown, Store};
use std::alloc::AllocError;

/// Who asks for a step of a site.
pub struct AtSite;

// What a step shows, with the value that is received as a word.
fn did_of(event: Shown) -> Did
    requires { (h : HeapState) × IsShownOf h event }
    ensures label { (h : HeapState) → IsShownOf h event → label_of h result ≡ label_shown h event }
    ensures event { (h : HeapState) → IsShownOf h event → IsDidOf h result }
    ensures trap { trap_of result ≡ trap_shown event }
{
    match event {
        Shown::Quiet => Did::Quiet,
        Shown::Comm { channel, value } => Did::Comm {
            channel,
            value: word_at(value),
        },
        Shown::Print(word) => Did::Print(word),
        Shown::Trapped(at) => Did::Trapped(at),
    }
}

/// The step of who has the turn, which is right. Where memory is wanting, or it divides by zero, nothing changes but room, spare
/// blocks and work.
pub(crate) fn step(
    code: &[Node],
    constants: &[Option<Word>],
    store: &mut Store,
) -> Result<Did, AllocError>
    requires may { MayAct code.now store.old }
    requires constants { AreConstants store.old.desk.heap (map plain_node code.now) constants.now }
    ensures { IsDidBy (core_in code.now) store.old store.new result }
{
    let event = act::<AtSite>(code, constants, store)?;
    Ok(did_of(event))
}
