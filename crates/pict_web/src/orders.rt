// All orders of a program's steps: its outcomes, a way to one of them, and the graph of its configurations.

ghost use Rattle.std.specs.Prelude.{◌≡◌, ◌≤◌, IfOk, length};
ghost use Rattle.pict_core.specs.Plain.{plain_core};
ghost use Rattle.pict_core.specs.Closed.{IsClosed};
ghost use Rattle.pict_outside.specs.Entries.{pairs_of};
ghost use Rattle.pict_outside.specs.Texts.{texts_of as held_texts};
ghost use Rattle.pict_report.specs.Reports.{AreShort};
ghost use Rattle.pict_front.specs.Answers.{plain_front};
ghost use Rattle.pict_web.specs.Asked.{texts_cut};
ghost use Rattle.pict_web.specs.Told.{Answers, SaysOf, IsTold};
ghost use Rattle.pict_web.specs.Ordered.{WayOf, orders_of as orders_are};

use crate::handing::{hand_over, status_of};
use crate::held::Bundle;
use crate::{Cut, Lengths, entries_of};
use pict_core::Core;
use pict_front::{Front, front};
use pict_orders::{Exploration, explore};
use pict_outcomes::{dot, edges, outcomes, told, vertex_of};
use pict_outside::Entry;
use pict_syntax::{Names, Sources};
use pict_telling::prelude_unless;
use pict_top::Status;
use pict_way::way;
use std::alloc::{AllocError, Global};

/// Writes what all orders of the steps of the text `main.pi` come to, among at most `most` configurations, to the beginning of
/// `out`: its outcomes where `what` is 0; where it is 1 the replay file of a way to the outcome of this number, from 1 on, or nothing
/// where there is no such outcome; and the graph of the configurations, for Graphviz, where it is anything else. The answers are those
/// of `pict_web_steps`, and so are `texts` and `cuts`. Nothing is reported.
#[unsafe(no_mangle)]
pub extern "C" fn pict_web_orders(
    alloc: Global,
    what: u8,
    bare: bool,
    most: u64,
    outcome: u64,
    texts: &[u8],
    cuts: &[Cut],
    out: &mut [u8],
    lengths: &mut Lengths,
) -> u8
    ensures out_length { length out.new ≡ length out.old }
    ensures printed_fits { lengths.new.printed ≤ length out.new }
    ensures reported { lengths.new.reported ≡ 0 }
    ensures ordered { IsTold (orders_are what) bare (held_texts (texts_cut cuts.now texts.now)) result out.new lengths.new.printed }
{
    match told_in(alloc, what, bare, most, outcome, texts, cuts) {
        Ok(text) => hand_over(&text, out, lengths).number(),
        Err(status) => {
            *lengths = Lengths {
                printed: 0,
                reported: 0,
            };
            status.number()
        }
    }
}

/// What is told of a text, or the status with which nothing is.
fn told_in(
    alloc: Global,
    what: u8,
    bare: bool,
    most: u64,
    outcome: u64,
    texts: &[u8],
    cuts: &[Cut],
) -> Result<Vec<u8>, Status>
    ensures { SaysOf (orders_are what) bare (held_texts (texts_cut cuts.now texts.now)) result }
{
    match entries_of(alloc, texts, cuts) {
        Ok(entries) => told_over(alloc, what, bare, most, outcome, entries),
        Err(AllocError) => Err(Status::Memory),
    }
}

/// The same over a shelf of these texts.
fn told_over(
    alloc: Global,
    what: u8,
    bare: bool,
    most: u64,
    outcome: u64,
    entries: Vec<Entry>,
) -> Result<Vec<u8>, Status>
    ensures { SaysOf (orders_are what) bare (held_texts (pairs_of entries.items)) result }
{
    let mut shelf = Bundle::new(alloc, entries);
    let mut sources = Sources::new(alloc);
    let prelude = prelude_unless(bare);
    match front(alloc, prelude, "main.pi", &mut shelf, &mut sources) {
        Err(error) => Err(status_of(&error)),
        Ok(front) => orders_of(alloc, what, most, outcome, &sources, front),
    }
}

/// What is told of an accepted text, or the status of want of memory.
fn orders_of(
    alloc: Global,
    what: u8,
    most: u64,
    outcome: u64,
    sources: &Sources,
    front: Front,
) -> Result<Vec<u8>, Status>
    requires short { AreShort sources.now.list.items }
    requires closed { IsClosed (plain_core front.core) }
    ensures { Answers (orders_are what) (record { sources = sources.now.list.items; front = plain_front front }) result }
{
    match text_of(alloc, what, most, outcome, sources, front) {
        Ok(text) => Ok(text),
        Err(AllocError) => Err(Status::Memory),
    }
}

/// What is told of an accepted text.
fn text_of(
    alloc: Global,
    what: u8,
    most: u64,
    outcome: u64,
    sources: &Sources,
    front: Front,
) -> Result<Vec<u8>, AllocError>
    requires short { AreShort sources.now.list.items }
    requires closed { IsClosed (plain_core front.core) }
    ensures { IfOk result (λ text. what ≡ 1 → WayOf front.names (plain_core front.core) text.items) }
{
    let process = front.core.copy(alloc)?;
    let exploration = explore(alloc, front.core, most as usize)?;
    if what == 1 {
        return way_to(alloc, &front.names, process, &exploration, outcome);
    }
    if what == 0 {
        let all = outcomes(alloc, &exploration)?;
        return told(alloc, &front.names, sources, &exploration, &all);
    }
    let edges = edges(alloc, &exploration)?;
    dot(alloc, &front.names, &exploration, &edges)
}

/// The replay file of a way to the outcome of this number; nothing where there is none.
fn way_to(
    alloc: Global,
    names: &Names,
    process: Core,
    exploration: &Exploration,
    outcome: u64,
) -> Result<Vec<u8>, AllocError>
    requires closed { IsClosed (plain_core process) }
    ensures { IfOk result (λ text. WayOf names.now (plain_core process) text.items) }
{
    let all = outcomes(alloc, exploration)?;
    match vertex_of(exploration, &all, outcome as usize) {
        None => Ok(Vec::new(alloc)),
        Some(found) => match way(alloc, names, process, &found.choices)? {
            None => Ok(Vec::new(alloc)),
            Some(text) => Ok(text),
        },
    }
}
