// What who has the turn makes in one go.
ghost use Rattle.std.specs.Prelude.{◌≡◌, ◌≤◌, ◌<◌, ◌^◌, length, map, OnErr, Ok, Some, None};
ghost use Rattle.pict_code.specs.Plain.{plain_node};
ghost use Rattle.pict_queue.specs.QueuesState.{CostsAtMost};
ghost use Rattle.pict_desk.specs.Code.{core_in, IsCode};
ghost use Rattle.pict_turns.specs.Acting.{IsStore};
ghost use Rattle.pict_turns.specs.Reserving.{OnlyReserves};
ghost use Rattle.pict_acting.specs.declared.chain.Received.{Received as AnyReceived};
ghost use Rattle.pict_acting.specs.Bounds.{half_cost, MakesFew};
ghost use Rattle.pict_acting.specs.Chain.{MakesCall};
ghost use Rattle.pict_acting.specs.Opening.{BeginsWait, MakesWait};

use crate::chain::{Received, call_from};
use crate::opening::{opening_at_turn, wait_from};
use pict_code::Node;
use pict_turns::Store;
use std::alloc::AllocError;

/// Steps that are made in one go.
#[derive(Clone, Copy)]
pub enum AtOnce {
    /// The five of a call of a primitive whose answer is awaited: this is received.
    Call(Received),
    /// The three of a reader that waits at a new channel, beside another process.
    Wait,
}

/// Steps that who has the turn makes in one go, where so many may be made; or None, and then nothing has changed.
///
/// Where nobody else is ready they may be the five of a call of a primitive, as `call_at_once` says. Else, whoever is ready, they are three
/// that show nothing: a channel is made, two parts stand beside each other, and the left one waits at the channel; the right one is the
/// last of the ready ones then, and nobody has the turn. None comes only where who has the turn begins no such three, or fewer may be
/// made. An error, which is want of memory, changes nothing but room. They make no more blocks than one step of the code may, and
/// cost no more than half of what one may. There are fewer channels than 2 to the power 32.
#[inline(always)]
pub fn steps_at_once(
    code: &[Node],
    store: &mut Store,
    most: u64,
) -> Result<Option<AtOnce>, AllocError>
    requires code { IsCode (map plain_node code.now) }
    requires store { IsStore (core_in code.now) store.old }
    requires few { length store.old.queues.queues < 2 ^ 32 }
    ensures called { (received : AnyReceived) → result ≡ Ok (Some (AtOnce.Call received))
        → (5 ≤ most) × MakesCall (core_in code.now) store.old store.new received }
    ensures waits { result ≡ Ok (Some AtOnce.Wait) → (3 ≤ most) × MakesWait (core_in code.now) store.old store.new }
    ensures none { result ≡ Ok None → store.new ≡ store.old }
    ensures misses { result ≡ Ok None → 3 ≤ most → BeginsWait (core_in code.now) store.old → ⊥ }
    ensures refused { OnErr result (OnlyReserves store.old store.new) }
    ensures blocks { MakesFew (core_in code.now) 1 store.old.queues store.new.queues }
    ensures cost { CostsAtMost (half_cost (core_in code.now)) store.old.queues store.new.queues }
{
    if most < 3 {
        return Ok(None);
    }
    let opening = match opening_at_turn(code, &*store) {
        Some(opening) => opening,
        None => return Ok(None),
    };
    match call_from(code, store, most, opening)? {
        Some(received) => Ok(Some(AtOnce::Call(received))),
        None => {
            if wait_from(code, store, opening)? {
                Ok(Some(AtOnce::Wait))
            } else {
                Ok(None)
            }
        }
    }
}
