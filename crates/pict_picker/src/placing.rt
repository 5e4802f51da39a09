// Deeds are placed in lists.
ghost use Rattle.std.specs.Prelude.{◌≡◌, ◌<◌, ◌≤◌, ◌+◌, ◌++◌, ◌∷◌, [], ℕ, length, slice_get, slice_set, Some, OnOk};
ghost use Rattle.pict_syntax.specs.declared.span.Span.{Span as AnySpan};
ghost use Rattle.pict_core.specs.Term.{Process};
ghost use Rattle.pict_heap.specs.HeapState.{HeapState};
ghost use Rattle.pict_view.specs.Moved.{if_replicated};
ghost use Rattle.pict_view.specs.Placed.{without};
ghost use Rattle.pict_picker.specs.Deeds.{label_printed, IsPrintedOrNone};
ghost use Rattle.pict_picker.specs.Events.{label_of, IsDidOf};
ghost use Rattle.pict_picker.specs.Lists.{items_at, room_at, SameItems, grows_at, HasRoomIn, left_ready, MayPlace, IsDeedPlaced};
ghost use Rattle.pict_picker.specs.Picker.{channel_items};
ghost use Rattle.pict_picker.specs.declared.waiting.Waiting.{Waiting as AnyWaiting};

use crate::deed::Deed;
use crate::did::Did;
use crate::lists::Lists;
use crate::waiting::Waiting;
use pict_desk::word_at;
use pict_heap::Word;
use pict_ranked::Ranked;
use std::alloc::{AllocError, Global};

/// Makes room for what the step of a process adds to the lists that stands at this channel, or at none. The only error is want of
/// memory. Whatever the answer, the same stand everywhere.
pub(crate) fn reserve(lists: &mut Lists, channel: Option<u32>) -> Result<(), AllocError>
    requires there { (c : ℕ) → channel ≡ Some c → c < length lists.old.channels.items }
    ensures room { OnOk result (HasRoomIn lists.new channel) }
    ensures same { SameItems lists.old lists.new }
{
    lists.ready.reserve(1)?;
    lists.channels.reserve(1)?;
    match channel {
        Some(channel) => lists.channels[channel as usize].reserve(1),
        None => Ok(()),
    }
}

// One more waits at the channel, behind the others. Takes no memory.
fn push_at(lists: &mut Lists, channel: u32, waiting: Waiting)
    requires there { channel < length lists.old.channels.items }
    requires room { 1 ≤ room_at channel lists.old.channels.items }
    ensures items { channel_items lists.new ≡ slice_set (channel_items lists.old) channel (items_at channel lists.old.channels.items ++ waiting ∷ []) }
    ensures len { length lists.new.channels.items ≡ length lists.old.channels.items }
    ensures ready { lists.new.ready ≡ lists.old.ready }
{
    lists.channels[channel as usize].push(waiting);
}

// The `j`-th at the channel is taken out. Takes no memory.
fn take_at(lists: &mut Lists, channel: u32, j: usize) -> Waiting
    requires there { channel < length lists.old.channels.items }
    requires some { j < length (items_at channel lists.old.channels.items) }
    ensures taken { slice_get (items_at channel lists.old.channels.items) j ≡ Some result }
    ensures items { channel_items lists.new ≡ slice_set (channel_items lists.old) channel (without j (items_at channel lists.old.channels.items)) }
    ensures room { room_at channel lists.new.channels.items ≡ room_at channel lists.old.channels.items }
    ensures len { length lists.new.channels.items ≡ length lists.old.channels.items }
    ensures ready { lists.new.ready ≡ lists.old.ready }
{
    lists.channels[channel as usize].remove(j)
}

// The `j`-th at the channel goes behind the others where it stays, and is dropped where it doesn't. Takes no memory.
fn settle_at(lists: &mut Lists, channel: u32, j: usize, stays: bool)
    requires there { channel < length lists.old.channels.items }
    requires some { j < length (items_at channel lists.old.channels.items) }
    requires room { 1 ≤ room_at channel lists.old.channels.items }
    ensures items { (w : AnyWaiting) → slice_get (items_at channel lists.old.channels.items) j ≡ Some w
        → channel_items lists.new
        ≡ slice_set (channel_items lists.old) channel (without j (items_at channel lists.old.channels.items) ++ if_replicated stays w) }
    ensures len { length lists.new.channels.items ≡ length lists.old.channels.items }
    ensures ready { lists.new.ready ≡ lists.old.ready }
{
    let taken = take_at(lists, channel, j);
    if stays {
        push_at(lists, channel, taken);
    }
}

// The process that acts leaves unless it stays, and the body is ready, behind the others. Takes no memory.
fn go_on(ready: &mut Ranked<Waiting>, i: usize, stays: bool, body: Waiting)
    requires there { i < length ready.old.items }
    requires room { 1 ≤ ready.old.room }
    ensures { ready.new.items ≡ left_ready i ready.old.items stays ++ body ∷ [] }
{
    if stays {
        ready.push(body);
    } else {
        ready.remove(i);
        ready.push(body);
    }
}

// What a step shows that prints this word, or nothing.
fn shown(word: Option<Word>) -> Did
    ensures label { (h : HeapState) → label_of h result ≡ label_printed h word }
    ensures event { (h : HeapState) → IsPrintedOrNone h word → IsDidOf h result }
    ensures trap { (at : AnySpan) → ¬ (result ≡ Did.Trapped at) }
{
    match word {
        Some(word) => Did::Print(word),
        None => Did::Quiet,
    }
}

/// Places the deed of the `i`-th ready process, with the `j`-th at its channel. Takes no memory.
pub(crate) fn place_deed(alloc: Global, lists: &mut Lists, i: usize, j: usize, deed: Deed) -> Did
    requires may { (core : Process) × (h : HeapState) × MayPlace core h lists.old i j deed }
    requires room { HasRoomIn lists.old (grows_at deed) }
    ensures placed { (core : Process) (h : HeapState) (m : MayPlace core h lists.old i j deed)
        → IsDeedPlaced core h lists.old lists.new i j m.own deed result }
    ensures trapped { (at : AnySpan) → result ≡ Did.Trapped at → (deed ≡ Deed.Stops at) × (lists.new ≡ lists.old) }
    ensures channels { length lists.new.channels.items ≤ length lists.old.channels.items + 1 }
{
    match deed {
        Deed::Ends(word) => {
            lists.ready.remove(i);
            shown(word)
        }
        Deed::Keeps(waiting, word) => {
            lists.ready.replace(i, waiting);
            shown(word)
        }
        Deed::Forks(left, right) => {
            lists.ready.replace(i, left);
            lists.ready.push(right);
            Did::Quiet
        }
        Deed::Opens(part) => {
            lists.ready.replace(i, part);
            lists.channels.push_reserved(Ranked::new(alloc));
            Did::Quiet
        }
        Deed::Waits(channel) => {
            let waiting = lists.ready.remove(i);
            push_at(lists, channel, waiting);
            Did::Quiet
        }
        Deed::Parks(channel, kept) => {
            lists.ready.remove(i);
            push_at(lists, channel, Waiting::Output(kept));
            Did::Quiet
        }
        Deed::Serves {
            channel,
            message,
            replicated,
            body,
        } => {
            go_on(&mut lists.ready, i, false, body);
            settle_at(lists, channel, j, replicated);
            Did::Comm {
                channel,
                value: word_at(message),
            }
        }
        Deed::Takes {
            channel,
            message,
            replicated,
            body,
        } => {
            go_on(&mut lists.ready, i, replicated, body);
            take_at(lists, channel, j);
            Did::Comm {
                channel,
                value: word_at(message),
            }
        }
        Deed::Stops(at) => Did::Trapped(at),
    }
}
