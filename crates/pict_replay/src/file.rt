// Replay files: the lines of choices, the line `trace`, and the lines of a trace.
ghost use Rattle.std.specs.Prelude.{◌≡◌, ◌↔◌, ◌+◌, ◌-◌, ◌<◌, ◌^◌, [], ℕ, IsTrue, IfOk, Err, length, map};
ghost use Rattle.pict_syntax.specs.Names.{with_names};
ghost use Rattle.pict_trace.specs.Plain.{plain_line};
ghost use Rattle.pict_trace.specs.Readable.{GainsLabels, labels_in};
ghost use Rattle.pict_replay.specs.Files.{IsFile, IsNoFile};
ghost use Rattle.pict_replay.specs.Plain.{place_of};

use crate::choices::{Choice, begin_choices};
use pict_syntax::Names;
use pict_trace::{TraceLine as Expected, begin_lines, behind};
use std::alloc::{AllocError, Global};
use thiserror::Error;

/// What a replay file says.
#[derive(Drop)]
pub struct ReplayFile {
    /// The choices, in order.
    pub choices: Vec<Choice>,
    /// The lines of the trace, in order.
    pub expected: Vec<Expected>,
}

/// Why a text is not read as a replay file.
#[derive(Debug, Drop, Error)]
pub enum FileError {
    /// It is none. This many bytes stand before the first line that breaks the form, or before the end, where the line `trace`
    /// is missing.
    #[error("not a replay file, at byte {0}")]
    NoFile(usize),
    /// Memory ran out.
    #[error("out of memory")]
    Memory,
}

impl From<AllocError> for FileError {
    ghost use Rattle.std.specs.Prelude.{◌≡◌};
    ghost use Rattle.pict_replay.specs.declared.file.FileError.TheVariants.{Memory};

    ghost from_gives = { λ _ e. e ≡ Memory };

    fn from(_: AllocError) -> FileError {
        FileError::Memory
    }
}

/// What a text says as a replay file: the lines of any number of choices, as `read_choices` takes them, the line `trace`, and
/// any number of lines of a trace, as `read_lines` takes them. `names` gains the labels of their records that it lacked, and the
/// records have them by their numbers there.
///
/// The error `NoFile` comes exactly where the text is not of this form. The bytes behind the last newline, where there are some,
/// are a line, and none of a file. The only other error is want of memory. Whatever the answer, `names` keeps its entries at
/// their places, and gains labels of the text alone. It takes time in the bytes of the text.
pub fn read_file(alloc: Global, names: &mut Names, text: &[u8]) -> Result<ReplayFile, FileError>
    requires room { length names.old + length text.now < 2 ^ 32 }
    ensures file { IfOk result (λ file. IsFile names.new text.now (map place_of file.choices.items) (map plain_line file.expected.items)) }
    ensures no_file { (at : ℕ) → result ≡ Err (FileError.NoFile at) → IsNoFile text.now at }
    ensures gained { IfOk result (λ file. names.new ≡ with_names names.old (labels_in names.new (map plain_line file.expected.items))) }
    ensures kept { GainsLabels text.now names.old names.new }
{
    let choices = begin_choices(alloc, text)?;
    if choices.1.is_empty() {
        return Err(FileError::NoFile(text.len()));
    }
    match behind(b"trace\n", choices.1) {
        Some(part) => {
            let lines = begin_lines(alloc, names, part)?;
            if !is_over(lines.1) {
                return Err(FileError::NoFile(bytes_before(text, lines.1)));
            }
            Ok(ReplayFile {
                choices: choices.0,
                expected: lines.0,
            })
        }
        None => {
            let place = bytes_before(text, choices.1);
            Err(FileError::NoFile(place))
        }
    }
}

// Whether nothing is left of a text.
fn is_over(rest: &[u8]) -> bool
    ensures { IsTrue result ↔ (rest.now ≡ []) }
{
    match rest {
        [] => true,
        [_, ..] => false,
    }
}

// How many bytes of a text stand before this rest of it.
fn bytes_before(text: &[u8], rest: &[u8]) -> usize
    ensures { result ≡ length text.now - length rest.now }
{
    text.len().saturating_sub(rest.len())
}
