// Whether choices and lines agree.
ghost use Rattle.std.specs.Prelude.{◌≡◌, ℕ, Ok, map};
ghost use Rattle.pict_code.specs.Plain.{plain_code};
ghost use Rattle.pict_code.specs.ReadBack.{core_of};
ghost use Rattle.pict_desk.specs.Code.{IsCode};
ghost use Rattle.pict_reduction.specs.Reached.{NoFreeRunIsWrong};
ghost use Rattle.pict_trace.specs.Plain.{plain_line};
ghost use Rattle.pict_replay.specs.Plain.{place_of};
ghost use Rattle.pict_replay.specs.Replayed.{Agrees, IsFault};

use crate::choices::Choice;
use crate::least::{is_overdue, least_numbers};
use crate::turn::{count_used, take_choice};
use pict_code::Code;
use pict_picker::Picker;
use pict_trace::TraceLine as Expected;
use std::alloc::{AllocError, Global};

/// Whether lines are those of the run of choices.
#[derive(Clone, Copy, Debug, PartialEq, Eq)]
pub enum Verdict {
    /// They are.
    Yes,
    /// They aren't, and the step of this number, from 1, is the first at fault.
    No(u64),
}

/// Does the steps of the choices, from the opening configuration of the code's process, and says whether each of them is
/// possible and the lines are exactly the labels that their steps show, in order, with the numbers of the steps; else it gives
/// the first step that is at fault. No free run of the process may be wrong.
///
/// The only error is want of memory, which is also the answer where there are more than 4,294,967,295 choices, or a record of a line
/// has more fields. It recurses along the values of the lines. It takes time in the lines, and for each choice that of the picker's step.
pub fn replay(
    alloc: Global,
    code: Code,
    choices: &[Choice],
    expected: &[Expected],
) -> Result<Verdict, AllocError>
    requires code { IsCode (plain_code code) }
    requires right { NoFreeRunIsWrong (core_of (plain_code code)) }
    ensures yes { result ≡ Ok Verdict.Yes → Agrees (core_of (plain_code code)) (map place_of choices.now) (map plain_line expected.now) }
    ensures no { (number : ℕ) → result ≡ Ok (Verdict.No number)
        → IsFault (core_of (plain_code code)) (map place_of choices.now) (map plain_line expected.now) number }
{
    if choices.len() > u32::MAX as usize {
        return Err(AllocError);
    }
    let least = least_numbers(alloc, expected)?;
    let mut picker = Picker::load(alloc, code)?;
    let mut used = 0;
    for done in 0..choices.len() {
        let number = done as u64 + 1;
        let unused = &expected[used..];
        if is_overdue(&least, used, number) {
            return Ok(Verdict::No(number));
        }
        let as_given = take_choice(&mut picker, choices[done], number, unused)?;
        if !as_given {
            return Ok(Verdict::No(number));
        }
        used += count_used(number, unused);
    }
    let lines = expected.len();
    if used < lines {
        return Ok(Verdict::No(choices.len() as u64 + 1));
    }
    Ok(Verdict::Yes)
}
