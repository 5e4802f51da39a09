// The summary of a run of the program that is made from a number.
ghost use Rattle.std.specs.Prelude.{◌≡◌, ◌≤◌, IfOk, OnOk, OnErr, Err, string_bytes};
ghost use Rattle.std.specs.Io.KnownBytes.{Appends};
ghost use Rattle.pict_outside.specs.Counts.{Rose};
ghost use Rattle.pict_outside.specs.Bytes.{AppendsFront};
ghost use Rattle.pict_load.specs.Summary as summary;

use crate::rings::{Ring, rings_of};
use pict_machine::{End, RunError};
use pict_outside::Sink;
use std::alloc::{AllocError, Global};

/// What is counted of a run.
#[derive(Clone, Copy, Debug, PartialEq, Eq)]
pub struct Tally {
    /// How it ends.
    pub end: End,
    /// How many steps are done.
    pub steps: u64,
    /// How many of them are communications.
    pub communications: u64,
    /// How many bytes are printed.
    pub printed: u64,
}

/// A line of a summary.
#[derive(Clone, Copy, Debug, PartialEq, Eq)]
pub enum Line {
    /// A ring: its size and its token.
    Ring(Ring),
    /// How many bytes the program's text has.
    Text(u64),
    /// How many steps are done.
    Steps(u64),
    /// How many of them are communications.
    Communications(u64),
    /// How many bytes are printed.
    Printed(u64),
    /// How the run ends.
    End(End),
}

/// Writes the summary of a run of the program that is made from `n`, whose text has this many bytes: each line with one write.
///
/// After an error the sink has taken a beginning of the summary. `Sink` comes only where the sink's count of faults rose.
pub fn write_summary<O: Sink>(
    alloc: Global,
    n: u64,
    text: u64,
    tally: Tally,
    out: &mut O,
) -> Result<(), RunError>
    ensures all { OnOk result (Appends (O.taken out.old) (O.taken out.new) (summary.summary_text n text tally)) }
    ensures part { OnErr result (AppendsFront (O.taken out.old) (O.taken out.new) (summary.summary_text n text tally)) }
    ensures sink { result ≡ Err RunError.Sink → Rose (O.faults out.old) (O.faults out.new) }
    ensures faults_stay { O.faults out.old ≤ O.faults out.new }
{
    let lines = summary_lines(n, text, tally);
    for line in lines.iter() {
        let line = line_text(alloc, *line)?;
        out.write(line.as_bytes())?;
    }
    Ok(())
}

/// The lines of a summary.
fn summary_lines(n: u64, text: u64, tally: Tally) -> [Line; 8]
    ensures { result ≡ summary.summary_lines n text tally }
{
    let [first, second, third] = rings_of(n);
    [
        Line::Ring(first),
        Line::Ring(second),
        Line::Ring(third),
        Line::Text(text),
        Line::Steps(tally.steps),
        Line::Communications(tally.communications),
        Line::Printed(tally.printed),
        Line::End(tally.end),
    ]
}

/// The text of a line.
fn line_text(alloc: Global, line: Line) -> Result<String, AllocError>
    ensures { IfOk result (λ text. string_bytes text ≡ summary.line_text line) }
{
    match line {
        Line::Ring(Ring { size, token }) => format!(in alloc; "ring {size} {token}\n"),
        Line::Text(bytes) => format!(in alloc; "text {bytes}\n"),
        Line::Steps(steps) => format!(in alloc; "steps {steps}\n"),
        Line::Communications(count) => format!(in alloc; "communications {count}\n"),
        Line::Printed(bytes) => format!(in alloc; "printed {bytes}\n"),
        Line::End(End::Done) => format!(in alloc; "end done\n"),
        Line::End(_) => format!(in alloc; "end fuel\n"),
    }
}
