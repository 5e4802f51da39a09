// A primitive acts on words of a heap.

ghost use Rattle.std.specs.Prelude.{◌≡◌, IsSome, Some};
ghost use Rattle.pict_core.specs.Primitives.{effect_of};
ghost use Rattle.pict_heap.specs.HeapState.{value_of, IsWord, KeepsWords};
ghost use Rattle.pict_prim.specs.Acts.{effect_done, IsDoneOf, HasRoom, UsesNeed};
ghost use Rattle.pict_prim.specs.Needed.{needed};

use crate::act::{Done, Need};
use crate::deciding::act_on;
use crate::performing::{perform, room_of};
use pict_heap::{Heap, Word};
use pict_syntax::Prim;

/// What the primitive adds to the heap where it acts on an argument of its shape: exactly so many records, fields and texts; of
/// bytes, for a decimal text up to 19 more. Takes no memory.
pub fn room(heap: &Heap, p: Prim, argument: Word) -> Need
    requires word { IsWord heap.now argument }
    requires shape { IsSome (effect_of p (value_of heap.now argument)) }
    ensures { result ≡ needed p (value_of heap.now argument) }
{
    match act_on(heap, p, argument) {
        None => unreachable!(),
        Some(act) => room_of(heap, act),
    }
}

/// What the primitive does to an argument of its shape: `ZeroDivisor` exactly where the divisor is zero, and then the heap is as it
/// was. Every word stands for what it stood for; no more room is used than `room` tells. Takes no memory.
pub fn apply(heap: &mut Heap, p: Prim, argument: Word) -> Done
    requires word { IsWord heap.old argument }
    requires shape { IsSome (effect_of p (value_of heap.old argument)) }
    requires room { HasRoom heap.old.room (needed p (value_of heap.old argument)) }
    ensures effect { effect_of p (value_of heap.old argument) ≡ Some (effect_done heap.new result) }
    ensures words { IsDoneOf heap.new result }
    ensures keeps { KeepsWords heap.old heap.new }
    ensures room { UsesNeed heap.old.room heap.new.room (needed p (value_of heap.old argument)) }
    ensures zero { result ≡ Done.ZeroDivisor → heap.new ≡ heap.old }
{
    match act_on(heap, p, argument) {
        None => unreachable!(),
        Some(act) => perform(heap, act),
    }
}
