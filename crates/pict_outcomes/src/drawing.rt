// The picture of a small graph, in SVG.

ghost use Rattle.pict_report.specs.Reports.{AreShort};

use crate::graph::{Edge, Graph};
use crate::layout::{Layout, ROW, Spot, laid_out};
use crate::marking::{Marks, is_marked};
use crate::outcome::Outcome;
use crate::telling::write_counts;
use pict_orders::{Exploration, Found};
use pict_reference::Label;
use pict_shared::Held;
use pict_show::{write_decimal, write_quoted};
use pict_stepper::{write_label, write_place_of, write_process};
use pict_syntax::{Names, Sources};
use std::alloc::{AllocError, Global};

/// How many configurations are drawn at most.
pub const MOST_CONFIGURATIONS: usize = 80;
/// How many reductions are drawn at most.
pub const MOST_REDUCTIONS: usize = 200;

// How many letters of a text are shown; the whole of it is in the title of the mark.
const LETTERS: usize = 24;

const STYLE: &[u8] = b"<style>text { font: 11px monospace; fill: #222; text-anchor: middle }
text.told { text-anchor: start }
.shown { stroke: #fff; stroke-width: 3px; paint-order: stroke }
.arrow { fill: none; stroke: #8a97a5 }
.spot { fill: #e8eef4; stroke: #678 }
.end { fill: #fff; stroke: #2f855a; stroke-width: 2 }
.trap { fill: #fdecea; stroke: #c53030; stroke-width: 2 }
.way { stroke: #b5622b; stroke-width: 3 }
</style>
<defs><marker id=\"tip\" markerUnits=\"userSpaceOnUse\" markerWidth=\"10\" markerHeight=\"8\" refX=\"25\" refY=\"4\" orient=\"auto\"><path d=\"M 0 0 L 10 4 L 0 8 z\" fill=\"#567\"/></marker></defs>
";

const LEGEND: &[u8] =
    b"<g transform=\"translate(20 44)\"><circle class=\"spot\" cx=\"0\" cy=\"-4\" r=\"8\"/><text class=\"told\" x=\"16\" y=\"0\">a configuration</text></g>
<g transform=\"translate(160 44)\"><circle class=\"end\" cx=\"0\" cy=\"-4\" r=\"8\"/><text class=\"told\" x=\"16\" y=\"0\">nothing is ready</text></g>
<g transform=\"translate(310 44)\"><circle class=\"trap\" cx=\"0\" cy=\"-4\" r=\"8\"/><text class=\"told\" x=\"16\" y=\"0\">may divide by zero</text></g>
";

const WAY: &[u8] =
    b"<g transform=\"translate(20 66)\"><path class=\"arrow way\" d=\"M -8 -4 H 8\"/><text class=\"told\" x=\"16\" y=\"0\">the way to outcome ";

// Writes a byte within the text of an element.
fn write_safe(out: &mut Vec<u8>, byte: u8) -> Result<(), AllocError> {
    match byte {
        b'&' => out.extend_from_slice(b"&amp;"),
        b'<' => out.extend_from_slice(b"&lt;"),
        b'>' => out.extend_from_slice(b"&gt;"),
        _ => {
            out.push(byte)?;
            Ok(())
        }
    }
}

// Writes a text within an element.
fn write_text(out: &mut Vec<u8>, text: &[u8]) -> Result<(), AllocError> {
    for byte in text {
        write_safe(out, *byte)?;
    }
    Ok(())
}

// Writes the front of a text within an element, with two dots where there is more of it.
fn write_front(out: &mut Vec<u8>, text: &[u8]) -> Result<(), AllocError> {
    if text.len() <= LETTERS {
        return write_text(out, text);
    }
    for (index, byte) in text.iter().enumerate() {
        if index < LETTERS {
            write_safe(out, *byte)?;
        }
    }
    out.extend_from_slice(b"..")
}

// Writes a word, and a number behind it.
fn write_with(out: &mut Vec<u8>, word: &[u8], number: u64) -> Result<(), AllocError> {
    out.extend_from_slice(word)?;
    write_decimal(out, number)
}

// Writes the beginning of a text with its middle at this spot.
fn begin_text(out: &mut Vec<u8>, at: Spot) -> Result<(), AllocError> {
    write_with(out, b"<text class=\"shown\" x=\"", at.x)?;
    write_with(out, b"\" y=\"", at.y)?;
    out.extend_from_slice(b"\">")
}

// The process that acts in a reduction.
fn actor_of<'a>(from: &'a Found, edge: &Edge) -> Option<&'a Held> {
    let mut left = edge.choice.ready;
    for entry in from.state.entries() {
        if entry.ready {
            if left == 0 {
                return Some(entry);
            }
            left -= 1;
        }
    }
    None
}

// The stamp of the process that acts, its form and its place.
fn actor_at(
    alloc: Global,
    names: &Names,
    sources: &Sources,
    actor: &Held,
) -> Result<Vec<u8>, AllocError>
    requires short { AreShort sources.now.list.items }
{
    let mut out = Vec::new(alloc);
    write_decimal(&mut out, actor.stamp)?;
    out.extend_from_slice(b"  ")?;
    write_process(alloc, &mut out, names, &actor.process.core)?;
    out.extend_from_slice(b"  ")?;
    write_place_of(&mut out, sources, &actor.process.core)?;
    Ok(out)
}

// What is shown at an arrow: what was sent on which channel; or what was printed, and at which place of the text.
fn shown_at(
    alloc: Global,
    names: &Names,
    sources: &Sources,
    actor: &Held,
    label: &Label,
) -> Result<Vec<u8>, AllocError>
    requires short { AreShort sources.now.list.items }
{
    let mut shown = Vec::new(alloc);
    write_label(alloc, &mut shown, names, label)?;
    if let Label::Print(_) = label {
        shown.push(b' ')?;
        write_place_of(&mut shown, sources, &actor.process.core)?;
    }
    Ok(shown)
}

// A point of the curve that leads from one spot to another and is drawn towards a third, so many eighths of it from its beginning.
fn point(from: Spot, towards: Spot, to: Spot, eighths: u64) -> Spot {
    let here = eighths.min(8);
    let rest = 8 - here;
    Spot {
        x: weighed(from.x, towards.x, to.x, here, rest),
        y: weighed(from.y, towards.y, to.y, here, rest),
    }
}

fn weighed(first: u64, second: u64, third: u64, here: u64, rest: u64) -> u64 {
    let one = first.saturating_mul(rest.saturating_mul(rest));
    let two = second.saturating_mul(rest.saturating_mul(here).saturating_mul(2));
    let three = third.saturating_mul(here.saturating_mul(here));
    one.saturating_add(two).saturating_add(three) / 64
}

// Towards which point an arrow is bent, the so-manieth from its beginning to its end. An arrow to the next row is straight, if it is
// the first; others are bent to the right, and one that leads back to its beginning is a loop.
fn bend(from: Spot, to: Spot, earlier: u64) -> Spot {
    let more = earlier.saturating_mul(64);
    let across = if from.y < to.y && to.y.saturating_sub(from.y) <= ROW {
        0
    } else {
        72
    };
    let up = if from.x == to.x && from.y == to.y {
        64
    } else {
        0
    };
    Spot {
        x: (from.x.saturating_add(to.x) / 2)
            .saturating_add(across)
            .saturating_add(more),
        y: (from.y.saturating_add(to.y) / 2).saturating_sub(up),
    }
}

// Writes a pair of numbers.
fn write_spot(out: &mut Vec<u8>, word: &[u8], spot: Spot) -> Result<(), AllocError> {
    write_with(out, word, spot.x)?;
    write_with(out, b" ", spot.y)
}

// Writes the line of an arrow.
fn write_line(
    out: &mut Vec<u8>,
    from: Spot,
    towards: Spot,
    to: Spot,
    is_on_way: bool,
) -> Result<(), AllocError> {
    out.extend_from_slice(b"<path class=\"arrow")?;
    if is_on_way {
        out.extend_from_slice(b" way")?;
    }
    write_spot(out, b"\" marker-end=\"url(#tip)\" d=\"M ", from)?;
    if from.x == to.x && from.y == to.y {
        let above = Spot {
            x: from.x,
            y: towards.y,
        };
        write_spot(out, b" C ", towards)?;
        write_spot(out, b" ", above)?;
    } else {
        write_spot(out, b" Q ", towards)?;
    }
    write_spot(out, b" ", to)?;
    out.extend_from_slice(b"\"/>")
}

fn spot_of(layout: &Layout, number: usize) -> Spot {
    match layout.spots.get(number) {
        None => Spot { x: 0, y: 0 },
        Some(spot) => *spot,
    }
}

// How many of the arrows before this one lead from where it leads, and to where it leads.
fn earlier(edges: &[Edge], index: usize, edge: &Edge) -> u64 {
    let mut count = 0u64;
    for (number, other) in edges.iter().enumerate() {
        if number < index && other.from == edge.from && other.to == edge.to {
            count = count.saturating_add(1);
        }
    }
    count
}

// Writes an arrow, with what it shows, and who acts in its title.
fn write_arrow(
    alloc: Global,
    out: &mut Vec<u8>,
    names: &Names,
    sources: &Sources,
    actor: &Held,
    label: &Label,
    line: Line,
) -> Result<(), AllocError>
    requires short { AreShort sources.now.list.items }
{
    let shown = shown_at(alloc, names, sources, actor, label)?;
    out.extend_from_slice(b"<g><title>")?;
    write_text(out, &shown)?;
    out.push(b'\n')?;
    write_text(out, &actor_at(alloc, names, sources, actor)?)?;
    out.extend_from_slice(b"</title>")?;
    write_line(out, line.from, line.towards, line.to, line.is_on_way)?;
    begin_text(out, line.text)?;
    write_front(out, &shown)?;
    out.extend_from_slice(b"</text></g>\n")
}

// Writes all reductions.
fn write_arrows(
    alloc: Global,
    out: &mut Vec<u8>,
    names: &Names,
    sources: &Sources,
    graph: &Graph,
    layout: &Layout,
    marks: &Marks,
) -> Result<(), AllocError>
    requires short { AreShort sources.now.list.items }
{
    for (index, edge) in graph.edges.iter().enumerate() {
        if let Some(found) = graph.exploration.found.get(edge.from) {
            if let Some(actor) = actor_of(found, edge) {
                let is_on_way = is_marked(&marks.edges, index);
                let line = line_of(layout, graph.edges, index, edge, is_on_way);
                write_arrow(alloc, out, names, sources, actor, &edge.label, line)?;
            }
        }
    }
    Ok(())
}

// How an arrow is drawn.
#[derive(Clone, Copy)]
struct Line {
    from: Spot,
    towards: Spot,
    to: Spot,
    text: Spot,
    is_on_way: bool,
}

fn line_of(layout: &Layout, edges: &[Edge], index: usize, edge: &Edge, is_on_way: bool) -> Line {
    let from = spot_of(layout, edge.from);
    let to = spot_of(layout, edge.to);
    let towards = bend(from, to, earlier(edges, index, edge));
    let text = point(from, towards, to, 3 + index as u64 % 3);
    Line {
        from,
        towards,
        to,
        text,
        is_on_way,
    }
}

// The number of the outcome, from 1 on, that is this configuration, if it is one.
fn outcome_of(outcomes: &[Outcome], vertex: usize) -> Option<u64> {
    for (index, outcome) in outcomes.iter().enumerate() {
        if outcome.vertex == vertex {
            return Some((index as u64).saturating_add(1));
        }
    }
    None
}

// Writes what was printed before a configuration in which nothing is ready, or which is an outcome, with the number of that.
fn write_told(
    alloc: Global,
    out: &mut Vec<u8>,
    found: &Found,
    number: Option<u64>,
    spot: Spot,
) -> Result<(), AllocError> {
    let mut told = Vec::new(alloc);
    if let Some(number) = number {
        write_decimal(&mut told, number)?;
        told.extend_from_slice(b". ")?;
    }
    if found.bytes.is_empty() {
        told.extend_from_slice(b"prints nothing")?;
    } else {
        write_quoted(&mut told, b'"', &found.bytes)?;
    }
    begin_text(
        out,
        Spot {
            x: spot.x,
            y: spot.y.saturating_add(28),
        },
    )?;
    write_front(out, &told)?;
    out.extend_from_slice(b"</text>")
}

// Writes the circle of a configuration, with its number.
fn write_circle(
    out: &mut Vec<u8>,
    number: usize,
    class: &[u8],
    spot: Spot,
    is_on_way: bool,
) -> Result<(), AllocError> {
    out.extend_from_slice(b"<circle class=\"")?;
    out.extend_from_slice(class)?;
    if is_on_way {
        out.extend_from_slice(b" way")?;
    }
    write_with(out, b"\" cx=\"", spot.x)?;
    write_with(out, b"\" cy=\"", spot.y)?;
    out.extend_from_slice(b"\" r=\"13\"/>")?;
    write_with(out, b"<text x=\"", spot.x)?;
    write_with(out, b"\" y=\"", spot.y.saturating_add(4))?;
    write_with(out, b"\">", number as u64)?;
    out.extend_from_slice(b"</text>")
}

fn has_trap(exploration: &Exploration, vertex: usize) -> bool {
    for trap in &exploration.traps {
        if trap.vertex == vertex {
            return true;
        }
    }
    false
}

// How the circle of a configuration is drawn.
fn class_of(is_end: bool, has_trap: bool) -> &'static [u8] {
    if is_end {
        return b"end";
    }
    if has_trap { b"trap" } else { b"spot" }
}

// Writes all configurations.
fn write_circles(
    alloc: Global,
    out: &mut Vec<u8>,
    exploration: &Exploration,
    outcomes: &[Outcome],
    layout: &Layout,
    marks: &Marks,
) -> Result<(), AllocError> {
    for (number, found) in exploration.found.iter().enumerate() {
        let spot = spot_of(layout, number);
        let is_end = found.state.ready_count() == 0;
        let told = outcome_of(outcomes, number);
        let class = class_of(is_end, has_trap(exploration, number));
        write_circle(out, number, class, spot, is_marked(&marks.vertices, number))?;
        if is_end || told.is_some() {
            write_told(alloc, out, found, told, spot)?;
        }
        out.push(b'\n')?;
    }
    Ok(())
}

// Writes the head of the picture: its size, its style and the legend.
fn write_head(
    out: &mut Vec<u8>,
    exploration: &Exploration,
    layout: &Layout,
    marked: Option<u64>,
) -> Result<(), AllocError> {
    write_with(
        out,
        b"<svg xmlns=\"http://www.w3.org/2000/svg\" width=\"",
        layout.width,
    )?;
    write_with(out, b"\" height=\"", layout.height)?;
    write_with(out, b"\" viewBox=\"0 0 ", layout.width)?;
    write_with(out, b" ", layout.height)?;
    out.extend_from_slice(b"\">\n")?;
    out.extend_from_slice(STYLE)?;
    write_with(out, b"<rect width=\"", layout.width)?;
    write_with(out, b"\" height=\"", layout.height)?;
    out.extend_from_slice(b"\" fill=\"#fff\"/>\n<text class=\"told\" x=\"12\" y=\"20\">")?;
    write_counts(out, exploration)?;
    out.extend_from_slice(b"</text>\n")?;
    out.extend_from_slice(LEGEND)?;
    if let Some(number) = marked {
        write_with(out, WAY, number)?;
        out.extend_from_slice(b"</text></g>\n")?;
    }
    Ok(())
}

/// The picture of a graph: a circle for each configuration, in rows by how many reductions lead there at least, and an arrow for each
/// reduction with what it shows; in its title stands who acts. Where an outcome is marked, its number is told. The only error is want
/// of memory. It is for graphs of `MOST_CONFIGURATIONS` and `MOST_REDUCTIONS` at most.
pub fn svg(
    alloc: Global,
    names: &Names,
    sources: &Sources,
    graph: &Graph,
    outcomes: &[Outcome],
    marks: &Marks,
    marked: Option<u64>,
) -> Result<Vec<u8>, AllocError>
    requires short { AreShort sources.now.list.items }
{
    let mut out = Vec::new(alloc);
    let layout = laid_out(alloc, graph.exploration.found.len(), graph.edges)?;
    write_head(&mut out, graph.exploration, &layout, marked)?;
    write_arrows(alloc, &mut out, names, sources, graph, &layout, marks)?;
    write_circles(alloc, &mut out, graph.exploration, outcomes, &layout, marks)?;
    out.extend_from_slice(b"</svg>\n")?;
    Ok(out)
}
