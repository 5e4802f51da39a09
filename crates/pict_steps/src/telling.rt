// What is told of a run.

ghost use Rattle.pict_report.specs.Reports.{AreShort};

use crate::cells::{Cells, entry_cells, heads, step_cells};
use crate::table::write_table;
use pict_show::write_decimal;
use pict_stepper::{End, Run, write_place};
use pict_syntax::{Names, Sources};
use std::alloc::{AllocError, Global};

const STEP_HEADS: [&str; 7] = [
    "step", "stamp", "process", "place", "rule", "partner", "shows",
];

const WAITING_HEADS: [&str; 3] = ["stamp", "process", "place"];

// The table of the steps.
fn write_steps(
    alloc: Global,
    out: &mut Vec<u8>,
    names: &Names,
    sources: &Sources,
    run: &Run,
) -> Result<(), AllocError>
    requires short { AreShort sources.now.list.items }
{
    let mut rows: Vec<Cells> = Vec::new(alloc);
    rows.push(heads(alloc, &STEP_HEADS)?)?;
    for (index, step) in run.steps.iter().enumerate() {
        rows.push(step_cells(alloc, names, sources, index as u64 + 1, step)?)?;
    }
    write_table(alloc, out, &rows, STEP_HEADS.len())
}

// The table of those who wait.
fn waiting(
    alloc: Global,
    names: &Names,
    sources: &Sources,
    run: &Run,
) -> Result<Vec<Cells>, AllocError>
    requires short { AreShort sources.now.list.items }
{
    let mut rows = Vec::new(alloc);
    rows.push(heads(alloc, &WAITING_HEADS)?)?;
    for entry in run.last.entries() {
        if !entry.ready {
            rows.push(entry_cells(alloc, names, sources, entry)?)?;
        }
    }
    Ok(rows)
}

// How a run ended.
fn write_end(out: &mut Vec<u8>, sources: &Sources, end: End) -> Result<(), AllocError>
    requires short { AreShort sources.now.list.items }
{
    match end {
        End::Finished => out.extend_from_slice(b" steps, and nothing is ready. "),
        End::Trap(at) => {
            out.extend_from_slice(b" steps, and the next one divides by zero, at ")?;
            write_place(out, sources, at)?;
            out.extend_from_slice(b". ")
        }
        End::GoesOn => out.extend_from_slice(b" steps, and somebody is ready still. "),
    }
}

/// The table of a run of a text, and of those who wait at its end. The only error is want of memory.
pub fn told(
    alloc: Global,
    names: &Names,
    sources: &Sources,
    run: &Run,
) -> Result<Vec<u8>, AllocError>
    requires short { AreShort sources.now.list.items }
{
    let mut out = Vec::new(alloc);
    write_steps(alloc, &mut out, names, sources, run)?;
    write_decimal(&mut out, run.steps.len() as u64)?;
    write_end(&mut out, sources, run.end)?;
    let rows = waiting(alloc, names, sources, run)?;
    if rows.len() < 2 {
        out.extend_from_slice(b"Nobody waits.\n")?;
    } else {
        out.extend_from_slice(b"These wait:\n")?;
        write_table(alloc, &mut out, &rows, WAITING_HEADS.len())?;
    }
    Ok(out)
}
