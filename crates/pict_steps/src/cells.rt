// What the table says of a process and of a step, cell by cell.

ghost use Rattle.pict_report.specs.Reports.{AreShort};

use pict_reference::Entry;
use pict_show::write_decimal;
use pict_stepper::{Step, write_label, write_place_of, write_process};
use pict_syntax::{Names, Sources};
use std::alloc::{AllocError, Global};

/// A row of cells.
pub type Cells = Vec<Vec<u8>>;

// The stamp, the form and the place of a process.
fn push_entry(
    alloc: Global,
    cells: &mut Cells,
    names: &Names,
    sources: &Sources,
    entry: &Entry,
) -> Result<(), AllocError>
    requires short { AreShort sources.now.list.items }
{
    let mut stamp = Vec::new(alloc);
    write_decimal(&mut stamp, entry.stamp)?;
    cells.push(stamp)?;
    let mut form = Vec::new(alloc);
    write_process(alloc, &mut form, names, &entry.process)?;
    cells.push(form)?;
    let mut place = Vec::new(alloc);
    write_place_of(&mut place, sources, &entry.process)?;
    cells.push(place)?;
    Ok(())
}

// The stamp, the form and the place of a partner, in one cell.
fn partner_cell(
    alloc: Global,
    names: &Names,
    sources: &Sources,
    partner: &Option<Entry>,
) -> Result<Vec<u8>, AllocError>
    requires short { AreShort sources.now.list.items }
{
    let mut cell = Vec::new(alloc);
    if let Some(entry) = partner {
        write_decimal(&mut cell, entry.stamp)?;
        cell.push(b' ')?;
        write_process(alloc, &mut cell, names, &entry.process)?;
        cell.push(b' ')?;
        write_place_of(&mut cell, sources, &entry.process)?;
    }
    Ok(cell)
}

/// The cells of words.
pub fn heads(alloc: Global, words: &[&str]) -> Result<Cells, AllocError> {
    let mut cells = Vec::new(alloc);
    for word in words {
        cells.push(Vec::from_slice(alloc, word.as_bytes())?)?;
    }
    Ok(cells)
}

/// The cells of a step of this number: who acts, by which rule, with whom, and what it shows.
pub fn step_cells(
    alloc: Global,
    names: &Names,
    sources: &Sources,
    number: u64,
    step: &Step,
) -> Result<Cells, AllocError>
    requires short { AreShort sources.now.list.items }
{
    let mut cells = Vec::new(alloc);
    let mut first = Vec::new(alloc);
    write_decimal(&mut first, number)?;
    cells.push(first)?;
    push_entry(alloc, &mut cells, names, sources, &step.actor)?;
    cells.push(Vec::from_slice(alloc, step.rule.name().as_bytes())?)?;
    cells.push(partner_cell(alloc, names, sources, &step.partner)?)?;
    let mut shown = Vec::new(alloc);
    write_label(alloc, &mut shown, names, &step.label)?;
    cells.push(shown)?;
    Ok(cells)
}

/// The cells of a process that waits.
pub fn entry_cells(
    alloc: Global,
    names: &Names,
    sources: &Sources,
    entry: &Entry,
) -> Result<Cells, AllocError>
    requires short { AreShort sources.now.list.items }
{
    let mut cells = Vec::new(alloc);
    push_entry(alloc, &mut cells, names, sources, entry)?;
    Ok(cells)
}
