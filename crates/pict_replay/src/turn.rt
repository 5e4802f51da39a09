// One choice of a replay: its step, and whether it shows what the lines give.
ghost use Rattle.std.specs.Prelude.{◌≡◌, ◌≤◌, ◌<◌, ◌+◌, ◌^◌, ◌↔◌, ◌∷◌, [], IsTrue, IfOk, IfSome, Ok, None, true, false, map, length, drop};
ghost use Rattle.pict_core.specs.Configuration.{Configuration, IsConfiguration};
ghost use Rattle.pict_core.specs.Places.{IsPlace};
ghost use Rattle.pict_core.specs.Run.{shown};
ghost use Rattle.pict_core.specs.Step as step;
ghost use Rattle.pict_heap.specs.HeapState.{HeapState};
ghost use Rattle.pict_trace.specs.Plain.{plain_label, plain_line};
ghost use Rattle.pict_view.specs.View.{StandsFor};
ghost use Rattle.pict_picker.specs.Events.{label_of, IsDidOf};
ghost use Rattle.pict_picker.specs.Picker.{IsPicker, view_of, channels_of};
ghost use Rattle.pict_replay.specs.Plain.{place_of};
ghost use Rattle.pict_replay.specs.Replayed.{given, unused_after};
ghost use Rattle.pict_replay.specs.Turns.{StandsRight, IsAsGiven, FailsAt};

use crate::choices::Choice;
use crate::same::same_value;
use itoa::Buffer;
use pict_heap::Heap;
use pict_picker::{Did, Picker};
use pict_show_words::printed;
use pict_trace::{TraceLabel as Expect, TraceLine as Expected};
use std::alloc::AllocError;

// Does the step of a choice, where there is its place: whether it is done, and shows what the unused lines give for the step
// of this number. The only error is want of memory.
pub(crate) fn take_choice(
    picker: &mut Picker,
    choice: Choice,
    number: u64,
    unused: &[Expected],
) -> Result<bool, AllocError>
    requires kept { IsPicker picker.old }
    requires few { channels_of picker.old + 1 < 2 ^ 32 }
    requires right { StandsRight (view_of picker.old) }
    ensures kept { IsPicker picker.new }
    ensures channels { channels_of picker.new ≤ channels_of picker.old + 1 }
    ensures as_given { result ≡ Ok true → (C : Configuration) → IsConfiguration C → StandsFor (view_of picker.old) C
        → IsAsGiven number C (place_of choice) (map plain_line unused.now) (view_of picker.new) }
    ensures fails { result ≡ Ok false → (C : Configuration) → IsConfiguration C → StandsFor (view_of picker.old) C
        → FailsAt number C (place_of choice) (map plain_line unused.now) }
{
    if !is_place(picker, choice) {
        return Ok(false);
    }
    let did = picker.step_choice(choice.ready, choice.partner)?;
    match did.trap() {
        Some(_) => Ok(false),
        None => shows_given(picker.heap(), &did, number, unused),
    }
}

// Whether there is the place of a choice.
fn is_place(picker: &Picker, choice: Choice) -> bool
    requires { IsPicker picker.now }
    ensures { (C : Configuration) → StandsFor (view_of picker.now) C → IsTrue result ↔ IsPlace C (place_of choice) }
{
    if choice.ready >= picker.ready_count() {
        return false;
    }
    match picker.partners(choice.ready) {
        0 => choice.partner == 0,
        count => choice.partner < count,
    }
}

// Whether a step that is done shows what the unused lines give for the step of this number.
fn shows_given(heap: &Heap, did: &Did, number: u64, unused: &[Expected]) -> Result<bool, AllocError>
    requires { IsDidOf heap.now did.now }
    ensures { IfOk result (λ same. IsTrue same ↔ (shown number (label_of heap.now did.now) ≡ given number (map plain_line unused.now))) }
{
    match given(number, unused) {
        Some(label) => shows(heap, did, label),
        None => Ok(shows_nothing(did)),
    }
}

// What the unused lines give for the step of this number: the label of the next one, where it has this number.
fn given(number: u64, unused: &[Expected]) -> Option<&Expect>
    ensures some { IfSome result (λ label. given number (map plain_line unused.now) ≡ (number, plain_label label.now) ∷ []) }
    ensures none { result ≡ None → given number (map plain_line unused.now) ≡ [] }
{
    match unused {
        [line, ..] => {
            if line.number == number {
                Some(&line.label)
            } else {
                None
            }
        }
        [] => None,
    }
}

// How many of the unused lines the step of this number uses.
pub(crate) fn count_used(number: u64, unused: &[Expected]) -> usize
    ensures within { result ≤ length unused.now }
    ensures after { unused_after number (map plain_line unused.now) ≡ drop result (map plain_line unused.now) }
{
    match given(number, unused) {
        Some(_) => 1,
        None => 0,
    }
}

// Whether a step shows nothing.
fn shows_nothing(did: &Did) -> bool
    ensures { (h : HeapState) → IsDidOf h did.now → IsTrue result ↔ (label_of h did.now ≡ step.Quiet) }
{
    match did {
        Did::Quiet | Did::Trapped(_) => true,
        Did::Comm { .. } | Did::Print(_) => false,
    }
}

// Whether a step shows this.
fn shows(heap: &Heap, did: &Did, label: &Expect) -> Result<bool, AllocError>
    requires { IsDidOf heap.now did.now }
    ensures { IfOk result (λ same. IsTrue same ↔ (label_of heap.now did.now ≡ plain_label label.now)) }
{
    match label {
        Expect::Comm(number, expected) => match did {
            Did::Comm { channel, value } => {
                if *channel != *number {
                    return Ok(false);
                }
                same_value(heap, *value, expected)
            }
            _ => Ok(false),
        },
        Expect::Print(bytes) => match did {
            Did::Print(word) => {
                let mut buffer = Buffer::new();
                Ok(printed(heap, *word, &mut buffer) == bytes.slice())
            }
            _ => Ok(false),
        },
    }
}
