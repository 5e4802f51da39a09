// The graph as a text: for Graphviz, and as a transition system in the Aldebaran format.

use crate::graph::{Edge, Graph};
use crate::marking::{Marks, is_marked, marks_of};
use pict_orders::Exploration;
use pict_reference::Label;
use pict_show::write_decimal;
use pict_stepper::write_label;
use pict_syntax::Names;
use std::alloc::{AllocError, Global};

// Writes three decimal digits.
fn write_three(out: &mut Vec<u8>, byte: u8) -> Result<(), AllocError> {
    out.push(b'0' + byte / 100)?;
    out.push(b'0' + byte / 10 % 10)?;
    out.push(b'0' + byte % 10)?;
    Ok(())
}

// Writes a byte within quotes: a quote, a backslash and what isn't printable as a backslash and three decimal digits.
fn write_byte(out: &mut Vec<u8>, byte: u8) -> Result<(), AllocError> {
    if (b' '..=b'~').contains(&byte) && byte != b'"' && byte != b'\\' {
        out.push(byte)?;
        return Ok(());
    }
    out.push(b'\\')?;
    write_three(out, byte)
}

// Writes two numbers of vertices with this between them.
fn write_pair(
    out: &mut Vec<u8>,
    first: u64,
    between: &[u8],
    second: u64,
) -> Result<(), AllocError> {
    write_decimal(out, first)?;
    out.extend_from_slice(between)?;
    write_decimal(out, second)
}

// Writes what a reduction prints, or `tau` where it prints nothing.
fn write_action(out: &mut Vec<u8>, label: &Label) -> Result<(), AllocError> {
    match label {
        Label::Print(bytes) => {
            out.extend_from_slice(b"print ")?;
            for byte in bytes.slice() {
                write_byte(out, *byte)?;
            }
            Ok(())
        }
        _ => out.extend_from_slice(b"tau"),
    }
}

/// The graph in the Aldebaran format: a line `des (0, REDUCTIONS, CONFIGURATIONS)`, and a line `(FROM, "ACTION", TO)` for each
/// reduction. What prints nothing is the internal action `tau`. The only error is want of memory.
pub fn aut(
    alloc: Global,
    exploration: &Exploration,
    edges: &[Edge],
) -> Result<Vec<u8>, AllocError> {
    let mut out = Vec::new(alloc);
    out.extend_from_slice(b"des (0, ")?;
    write_pair(
        &mut out,
        edges.len() as u64,
        b", ",
        exploration.found.len() as u64,
    )?;
    out.extend_from_slice(b")\n")?;
    for edge in edges {
        out.push(b'(')?;
        write_decimal(&mut out, edge.from as u64)?;
        out.extend_from_slice(b", \"")?;
        write_action(&mut out, &edge.label)?;
        out.extend_from_slice(b"\", ")?;
        write_decimal(&mut out, edge.to as u64)?;
        out.extend_from_slice(b")\n")?;
    }
    Ok(out)
}

// Writes what a reduction shows, within quotes.
fn write_shown(
    alloc: Global,
    out: &mut Vec<u8>,
    names: &Names,
    label: &Label,
) -> Result<(), AllocError> {
    let mut shown = Vec::new(alloc);
    write_label(alloc, &mut shown, names, label)?;
    for byte in &shown {
        if *byte == b'"' || *byte == b'\\' {
            out.push(b'\\')?;
        }
        out.push(*byte)?;
    }
    Ok(())
}

// Writes the node of a configuration, where it says more than its arrows: with two circles where nothing is ready, and marked where it
// is on the way.
fn write_node(
    out: &mut Vec<u8>,
    number: usize,
    is_end: bool,
    is_alone: bool,
    is_on_way: bool,
) -> Result<(), AllocError> {
    if !is_end && !is_alone && !is_on_way {
        return Ok(());
    }
    write_decimal(out, number as u64)?;
    if is_end && is_on_way {
        out.extend_from_slice(b" [shape=doublecircle, color=\"#b5622b\", penwidth=3]")?;
    } else if is_end {
        out.extend_from_slice(b" [shape=doublecircle]")?;
    } else if is_on_way {
        out.extend_from_slice(b" [color=\"#b5622b\", penwidth=3]")?;
    }
    out.push(b'\n')?;
    Ok(())
}

// The configurations at which no arrow begins or ends.
fn lonely(alloc: Global, count: usize, edges: &[Edge]) -> Result<Vec<bool>, AllocError> {
    let mut lonely = Vec::new(alloc);
    for _ in 0..count {
        lonely.push(true)?;
    }
    for edge in edges {
        if edge.from < lonely.len() && edge.to < lonely.len() {
            lonely[edge.from] = false;
            lonely[edge.to] = false;
        }
    }
    Ok(lonely)
}

/// The graph for Graphviz: a node for each configuration, with two circles where nothing is ready, and for each reduction an arrow
/// with what it shows. What is marked is drawn thick. The only error is want of memory.
pub fn marked_dot(
    alloc: Global,
    names: &Names,
    graph: &Graph,
    marks: &Marks,
) -> Result<Vec<u8>, AllocError> {
    let mut out = Vec::new(alloc);
    out.extend_from_slice(b"digraph {\n")?;
    let lonely = lonely(alloc, graph.exploration.found.len(), graph.edges)?;
    for (number, found) in graph.exploration.found.iter().enumerate() {
        let is_end = found.state.ready_count() == 0;
        let is_on_way = is_marked(&marks.vertices, number);
        write_node(
            &mut out,
            number,
            is_end,
            is_marked(&lonely, number),
            is_on_way,
        )?;
    }
    for (index, edge) in graph.edges.iter().enumerate() {
        write_pair(&mut out, edge.from as u64, b" -> ", edge.to as u64)?;
        out.extend_from_slice(b" [label=\"")?;
        write_shown(alloc, &mut out, names, &edge.label)?;
        if is_marked(&marks.edges, index) {
            out.extend_from_slice(b"\", color=\"#b5622b\", penwidth=3]\n")?;
        } else {
            out.extend_from_slice(b"\"]\n")?;
        }
    }
    out.extend_from_slice(b"}\n")?;
    Ok(out)
}

/// The same graph with nothing marked. The only error is want of memory.
pub fn dot(
    alloc: Global,
    names: &Names,
    exploration: &Exploration,
    edges: &[Edge],
) -> Result<Vec<u8>, AllocError> {
    let marks = marks_of(alloc, &exploration.found, edges, None)?;
    marked_dot(alloc, names, &Graph { exploration, edges }, &marks)
}
