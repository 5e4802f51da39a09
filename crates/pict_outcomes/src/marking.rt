// The way to an outcome, marked in the graph.

use crate::graph::Edge;
use pict_orders::{Choice, Found};
use std::alloc::{AllocError, Global};

/// Which configurations and reductions are marked, by their numbers.
#[derive(Drop)]
pub struct Marks {
    /// The configurations.
    pub vertices: Vec<bool>,
    /// The reductions.
    pub edges: Vec<bool>,
}

// Whether the choices of one begin with those of the other.
fn begins_with(choices: &[Choice], front: &[Choice]) -> bool {
    if choices.len() < front.len() {
        return false;
    }
    for (index, choice) in front.iter().enumerate() {
        match choices.get(index) {
            None => return false,
            Some(own) => {
                if own != choice {
                    return false;
                }
            }
        }
    }
    true
}

/// Whether it is marked.
pub fn is_marked(marks: &[bool], index: usize) -> bool {
    match marks.get(index) {
        None => false,
        Some(mark) => *mark,
    }
}

// Whether the way goes on from a configuration by this choice.
fn goes_on_by(way: &[Choice], from: Option<&Found>, choice: Choice) -> bool {
    match from {
        None => false,
        Some(found) => match way.get(found.choices.len()) {
            None => false,
            Some(next) => *next == choice,
        },
    }
}

/// The marks of the way to a configuration: its choices begin with those of each one that the way comes by. Where none is asked for
/// nothing is marked. The only error is want of memory.
pub fn marks_of(
    alloc: Global,
    all: &[Found],
    edges: &[Edge],
    end: Option<&Found>,
) -> Result<Marks, AllocError> {
    let mut marks = Marks {
        vertices: Vec::new(alloc),
        edges: Vec::new(alloc),
    };
    for found in all {
        let mark = match end {
            None => false,
            Some(end) => begins_with(&end.choices, &found.choices),
        };
        marks.vertices.push(mark)?;
    }
    for edge in edges {
        let mark = match end {
            None => false,
            Some(end) => is_marked(&marks.vertices, edge.from)
                && goes_on_by(&end.choices, all.get(edge.from), edge.choice),
        };
        marks.edges.push(mark)?;
    }
    Ok(marks)
}
