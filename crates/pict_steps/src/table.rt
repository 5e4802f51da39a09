// Tables of texts, in columns.

use crate::cells::Cells;
use std::alloc::{AllocError, Global};

// How wide the column of this index is: as its widest cell.
fn width(rows: &[Cells], column: usize) -> usize {
    let mut widest = 0;
    for row in rows {
        if let Some(cell) = row.get(column) {
            widest = cell.len().max(widest);
        }
    }
    widest
}

// Writes the cells of a row, each at the beginning of its column, and no blanks at the end of the line.
fn write_row(out: &mut Vec<u8>, row: &Cells, widths: &[usize]) -> Result<(), AllocError> {
    let mut gap: usize = 0;
    for (cell, width) in row.iter().zip(widths.iter()) {
        if !cell.is_empty() {
            for _ in 0..gap {
                out.push(b' ')?;
            }
            gap = 0;
            out.extend_from_slice(cell)?;
        }
        gap = gap
            .saturating_add(width.saturating_sub(cell.len()))
            .saturating_add(2);
    }
    out.push(b'\n')?;
    Ok(())
}

/// Writes rows of cells in columns, two blanks apart. The only error is want of memory.
pub fn write_table(
    alloc: Global,
    out: &mut Vec<u8>,
    rows: &[Cells],
    columns: usize,
) -> Result<(), AllocError> {
    let mut widths = Vec::new(alloc);
    for column in 0..columns {
        widths.push(width(rows, column))?;
    }
    for row in rows {
        write_row(out, row, &widths)?;
    }
    Ok(())
}
