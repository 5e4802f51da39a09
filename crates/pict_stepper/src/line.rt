// The steps of a run as lines, with tabs between their fields.

ghost use Rattle.std.specs.Prelude.{◌≡◌, ◌++◌, map, option_map, OnOk, IfOk};
ghost use Rattle.pict_report.specs.Reports.{AreShort};
ghost use Rattle.pict_reference.specs.Plain.{plain_entry, mark_of};
ghost use Rattle.pict_stepper.specs.Told.{stamp_of};
ghost use Rattle.pict_stepper.specs.Lines.{mark_text, stamp_text, come_line, come_lines, step_line, steps_lines, end_line, run_lines};

use crate::run::{End, Run, Step};
use crate::written::{write_label, write_place, write_place_of, write_process};
use pict_reference::Entry;
use pict_show::write_decimal;
use pict_syntax::{Names, Sources};
use std::alloc::{AllocError, Global};

// Whether a process may act or waits, as a word.
fn mark_word(ready: bool) -> &'static [u8]
    ensures { result.now ≡ mark_text (mark_of ready) }
{
    if ready { b"ready" } else { b"waits" }
}

// Writes the line of a process that comes.
fn write_entry(
    alloc: Global,
    out: &mut Vec<u8>,
    names: &Names,
    sources: &Sources,
    entry: &Entry,
) -> Result<(), AllocError>
    requires short { AreShort sources.now.list.items }
    ensures { OnOk result (out.new.items ≡ out.old.items ++ come_line names.now sources.now.list.items (plain_entry entry.now)) }
{
    out.extend_from_slice(b"come\t")?;
    write_decimal(out, entry.stamp)?;
    out.push(b'\t')?;
    out.extend_from_slice(mark_word(entry.ready))?;
    out.push(b'\t')?;
    write_process(alloc, out, names, &entry.process)?;
    out.push(b'\t')?;
    write_place_of(out, sources, &entry.process)?;
    out.push(b'\n')?;
    Ok(())
}

// Writes the lines of those who come.
fn write_entries(
    alloc: Global,
    out: &mut Vec<u8>,
    names: &Names,
    sources: &Sources,
    entries: &[Entry],
) -> Result<(), AllocError>
    requires short { AreShort sources.now.list.items }
    ensures { OnOk result (out.new.items ≡ out.old.items ++ come_lines names.now sources.now.list.items (map plain_entry entries.now)) }
{
    for entry in entries {
        write_entry(alloc, out, names, sources, entry)?;
    }
    Ok(())
}

// Writes the stamp of a partner, if there is one.
fn write_partner(out: &mut Vec<u8>, partner: &Option<Entry>) -> Result<(), AllocError>
    ensures { OnOk result (out.new.items ≡ out.old.items ++ stamp_text (stamp_of (option_map plain_entry partner.now))) }
{
    match partner {
        None => Ok(()),
        Some(entry) => write_decimal(out, entry.stamp),
    }
}

// Writes the line of a step of this number.
fn write_step(
    alloc: Global,
    out: &mut Vec<u8>,
    names: &Names,
    number: u64,
    step: &Step,
) -> Result<(), AllocError>
    ensures { OnOk result (out.new.items ≡ out.old.items ++ step_line names.now number step.now) }
{
    out.extend_from_slice(b"step\t")?;
    write_decimal(out, number)?;
    out.push(b'\t')?;
    write_decimal(out, step.actor.stamp)?;
    out.push(b'\t')?;
    out.extend_from_slice(step.rule.name().as_bytes())?;
    out.push(b'\t')?;
    write_partner(out, &step.partner)?;
    out.push(b'\t')?;
    write_label(alloc, out, names, &step.label)?;
    out.push(b'\n')?;
    Ok(())
}

// Writes the lines of steps, of which the first has the number 1.
fn write_steps(
    alloc: Global,
    out: &mut Vec<u8>,
    names: &Names,
    sources: &Sources,
    steps: &[Step],
) -> Result<(), AllocError>
    requires short { AreShort sources.now.list.items }
    ensures { OnOk result (out.new.items ≡ out.old.items ++ steps_lines names.now sources.now.list.items 1 steps.now) }
{
    for (index, step) in steps.iter().enumerate() {
        write_step(alloc, out, names, index as u64 + 1, step)?;
        write_entries(alloc, out, names, sources, &step.come)?;
    }
    Ok(())
}

// Writes the line that says why there are no more steps.
fn write_end(out: &mut Vec<u8>, sources: &Sources, end: End) -> Result<(), AllocError>
    requires short { AreShort sources.now.list.items }
    ensures { OnOk result (out.new.items ≡ out.old.items ++ end_line sources.now.list.items end) }
{
    match end {
        End::Finished => out.extend_from_slice(b"end\tfinished\n"),
        End::Trap(at) => {
            out.extend_from_slice(b"end\tdivides\t")?;
            write_place(out, sources, at)?;
            out.push(b'\n')?;
            Ok(())
        }
        End::GoesOn => out.extend_from_slice(b"end\tgoes on\n"),
    }
}

/// The lines of a run. The only error is want of memory.
///
/// `come STAMP ready|waits PROCESS PLACE` tells a process, `step NUMBER STAMP ROW PARTNER SHOWN` a step: the stamps of who acts
/// and, if there is one, of the partner. In a step these two leave, and then those come that are told behind it; before the first
/// step that one comes with which the run begins. The last line is `end finished`, `end divides PLACE` or `end goes on`. A tab
/// stands between two fields, and a newline behind each line. Processes, places and what is shown are written as by
/// [`write_process`], [`write_place_of`] and [`write_label`].
pub fn lines(
    alloc: Global,
    names: &Names,
    sources: &Sources,
    run: &Run,
) -> Result<Vec<u8>, AllocError>
    requires short { AreShort sources.now.list.items }
    ensures text { IfOk result (λ out. out.items ≡ run_lines names.now sources.now.list.items run.now) }
{
    let mut out = Vec::new(alloc);
    write_entry(alloc, &mut out, names, sources, &run.first)?;
    write_steps(alloc, &mut out, names, sources, &run.steps)?;
    write_end(&mut out, sources, run.end)?;
    Ok(out)
}
