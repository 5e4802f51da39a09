// Lines of choices, read.

ghost use Rattle.std.specs.Prelude.{ℕ, ◌≡◌, ◌<◌, ◌^◌, ◌++◌, map, IfOk, IfSome, None, Err};
ghost use Rattle.std.specs.Fmt.{decimal};
ghost use Rattle.pict_replay.specs.Files.{choice_text, BeginsWithChoice, BeginsWithChoices, IsChoices, IsFirstBadChoice};
ghost use Rattle.pict_replay.specs.Plain.{place_of};

use pict_trace::number_until;
use std::alloc::{AllocError, Global};
use thiserror::Error;

/// A choice by place: a ready process, and one of its partners, each counted from 0 in the order of their stamps.
#[derive(Clone, Copy, Debug, PartialEq, Eq)]
pub struct Choice {
    /// The place of the process that acts, among those that are ready.
    pub ready: u64,
    /// The place of its partner, among those that it has; 0 where it has none.
    pub partner: u64,
}

/// Why a text is not read as choices.
#[derive(Debug, Drop, Error)]
pub enum ChoicesError {
    /// The line of this number, from 1, is none.
    #[error("line {0} is no choice")]
    Bad(u64),
    /// Memory ran out.
    #[error("out of memory")]
    Memory,
}

impl From<AllocError> for ChoicesError {
    ghost use Rattle.std.specs.Prelude.{◌≡◌};
    ghost use Rattle.pict_replay.specs.declared.choices.ChoicesError.TheVariants.{Memory};

    ghost from_gives = { λ _ e. e ≡ Memory };

    fn from(_: AllocError) -> ChoicesError {
        ChoicesError::Memory
    }
}

// The choice whose line is at the front of a text, and the text behind the line.
fn choice_at<'a>(text: &'a [u8]) -> Option<(Choice, &'a [u8])>
    ensures some { IfSome result (λ r. text.now ≡ choice_text (place_of r.0) ++ r.1.now) }
    ensures ready { IfSome result (λ r. r.0.ready < 2 ^ 64) }
    ensures partner { IfSome result (λ r. r.0.partner < 2 ^ 64) }
    ensures none { result ≡ None → ¬ BeginsWithChoice text.now }
{
    match number_until(text, b' ') {
        Some(ready) => match number_until(ready.1, b'\n') {
            Some(partner) => Some((
                Choice {
                    ready: ready.0,
                    partner: partner.0,
                },
                partner.1,
            )),
            None => None,
        },
        None => None,
    }
}

/// The choices at the front of a text, as many as there are, in order, and the text behind their lines, which begins with none.
/// The only error is want of memory. It takes time in the bytes of the lines.
pub(crate) fn begin_choices<'a>(
    alloc: Global,
    text: &'a [u8],
) -> Result<(Vec<Choice>, &'a [u8]), AllocError>
    ensures choices { IfOk result (λ r. BeginsWithChoices text.now (map place_of r.0.items) r.1.now) }
    ensures no_more { IfOk result (λ r. ¬ BeginsWithChoice r.1.now) }
{
    let mut choices = Vec::new(alloc);
    let mut rest = text;
    'lines: while let Some(found) = choice_at(rest) {
        choices.push(found.0)?;
        rest = found.1;
    }
    Ok((choices, rest))
}

/// The choices of the lines of a text, in order, to its end: each line is two numbers below 2^64, in decimal without a
/// leading zero, with one space between them.
///
/// The error `Bad` comes exactly at the first line that isn't one. The bytes behind the last newline, where there are some,
/// are a line, and no choice. The only other error is want of memory. It takes time in the bytes of the text.
pub fn read_choices(alloc: Global, text: &[u8]) -> Result<Vec<Choice>, ChoicesError>
    ensures choices { IfOk result (λ choices. IsChoices text.now (map place_of choices.items)) }
    ensures bad { (number : ℕ) → result ≡ Err (ChoicesError.Bad number) → IsFirstBadChoice text.now number }
{
    let found = begin_choices(alloc, text)?;
    if !found.1.is_empty() {
        return Err(ChoicesError::Bad(found.0.len() as u64 + 1));
    }
    Ok(found.0)
}
