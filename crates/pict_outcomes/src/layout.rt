// Where the configurations of a small graph stand in its picture.

use crate::graph::Edge;
use std::alloc::{AllocError, Global};

/// The width of a column.
const COLUMN: u64 = 170;
/// The height of a row.
pub const ROW: u64 = 104;
/// The height above the first row.
const HEAD: u64 = 96;

/// The middle of a configuration, in pixels from the left and from the top.
#[derive(Clone, Copy, Debug)]
pub struct Spot {
    /// From the left.
    pub x: u64,
    /// From the top.
    pub y: u64,
}

/// Where all configurations stand, by their numbers.
#[derive(Drop)]
pub struct Layout {
    /// The middle of each.
    pub spots: Vec<Spot>,
    /// How many rows there are.
    pub rows: u64,
    /// The width of the picture.
    pub width: u64,
    /// Its height.
    pub height: u64,
}

// One of a row: how far to the left those stand from which it is reached, and its number.
#[derive(Clone, Copy, PartialEq, Eq, PartialOrd, Ord, Debug)]
struct Member {
    pull: u64,
    number: usize,
}

// The middles of those from which one is reached: their sum, and how many they are.
#[derive(Clone, Copy, Debug)]
struct Pull {
    sum: u64,
    count: u64,
}

fn zeros(alloc: Global, count: usize) -> Result<Vec<u64>, AllocError> {
    let mut made = Vec::new(alloc);
    for _ in 0..count {
        made.push(0)?;
    }
    Ok(made)
}

fn number_at(numbers: &[u64], index: usize) -> u64 {
    match numbers.get(index) {
        None => 0,
        Some(number) => *number,
    }
}

// The row of each configuration, from 0 on: how many reductions lead there at least. The reductions are listed by the numbers of
// the configurations from which they lead, and these were found breadth first.
fn rows(alloc: Global, count: usize, edges: &[Edge]) -> Result<Vec<u64>, AllocError> {
    let mut rows = zeros(alloc, count)?;
    for edge in edges {
        let next = number_at(&rows, edge.from).saturating_add(1);
        if edge.to != 0 && edge.to < rows.len() && rows[edge.to] == 0 {
            rows[edge.to] = next;
        }
    }
    Ok(rows)
}

// How many configurations stand in each row.
fn sizes(alloc: Global, rows: &[u64]) -> Result<Vec<u64>, AllocError> {
    let mut sizes = zeros(alloc, rows.len())?;
    for row in rows {
        let index = *row as usize;
        if index < sizes.len() {
            sizes[index] = sizes[index].saturating_add(1);
        }
    }
    Ok(sizes)
}

fn greatest(numbers: &[u64]) -> u64 {
    let mut greatest = 0;
    for number in numbers {
        greatest = greatest.max(*number);
    }
    greatest
}

// Puts the members of a row beside each other, at one distance, in the order of those from which they are reached.
fn place_row(
    spots: &mut Vec<Spot>,
    members: &mut Vec<Member>,
    width: u64,
    row: u64,
) -> Result<(), AllocError> {
    members.sort()?;
    let twice = (members.len() as u64).saturating_mul(2).max(1);
    for (index, member) in members.iter().enumerate() {
        let odd = (index as u64).saturating_mul(2).saturating_add(1);
        if member.number < spots.len() {
            spots[member.number] = Spot {
                x: width.saturating_mul(odd) / twice,
                y: ROW.saturating_mul(row).saturating_add(HEAD),
            };
        }
    }
    Ok(())
}

// The members of a row.
fn members(
    alloc: Global,
    rows: &[u64],
    pulls: &[Pull],
    row: u64,
) -> Result<Vec<Member>, AllocError> {
    let mut members = Vec::new(alloc);
    for (number, own) in rows.iter().enumerate() {
        if *own == row {
            let pull = match pulls.get(number) {
                None => 0,
                Some(pull) => pull.sum / pull.count.max(1),
            };
            members.push(Member { pull, number })?;
        }
    }
    Ok(members)
}

// Adds the middles of a row to the pulls of those that are reached from there.
fn pull_from(pulls: &mut Vec<Pull>, edges: &[Edge], rows: &[u64], spots: &[Spot], row: u64) {
    for edge in edges {
        if number_at(rows, edge.from) == row && edge.to < pulls.len() {
            if let Some(spot) = spots.get(edge.from) {
                let pull = pulls[edge.to];
                pulls[edge.to] = Pull {
                    sum: pull.sum.saturating_add(spot.x),
                    count: pull.count.saturating_add(1),
                };
            }
        }
    }
}

/// Where so many configurations stand: in rows, by how many reductions lead there at least. The only error is want of memory. It is
/// for small graphs: each row is looked for among all.
pub fn laid_out(alloc: Global, count: usize, edges: &[Edge]) -> Result<Layout, AllocError> {
    let rows = rows(alloc, count, edges)?;
    let last = greatest(&rows);
    let widest = greatest(&sizes(alloc, &rows)?).max(3);
    let width = widest.saturating_mul(COLUMN);
    let mut spots = Vec::new(alloc);
    let mut pulls = Vec::new(alloc);
    for _ in 0..count {
        spots.push(Spot { x: 0, y: 0 })?;
        pulls.push(Pull { sum: 0, count: 0 })?;
    }
    for row in 0..last.saturating_add(1) {
        let mut those = members(alloc, &rows, &pulls, row)?;
        place_row(&mut spots, &mut those, width, row)?;
        pull_from(&mut pulls, edges, &rows, &spots, row);
    }
    let rows = last.saturating_add(1);
    Ok(Layout {
        spots,
        rows,
        width,
        height: rows.saturating_mul(ROW).saturating_add(HEAD),
    })
}
