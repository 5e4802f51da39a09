// Frames: the values of a node's levels, and room for them.
ghost use Rattle.std.specs.Prelude.{◌≡◌, ◌<◌, ◌≤◌, [], All, IfOk, length, map, slice_get};
ghost use Rattle.std.specs.Vec.{vec_capacity};
ghost use Rattle.pict_code.specs.Levels.{Rises};
ghost use Rattle.pict_code.specs.Plain.{plain_node, plain_op};
ghost use Rattle.pict_heap.specs.HeapState.{HeapState};
ghost use Rattle.pict_desk.specs.Code.{core_in, IsCode};
ghost use Rattle.pict_desk.specs.Known.{pair_at};
ghost use Rattle.pict_desk.specs.Pairs.{IsPair, ArePairs};
ghost use Rattle.pict_picker.specs.Parts.{frame_width, part_width, reader_width, waiting_width, HasRoomAt, IsPart};
ghost use Rattle.pict_picker.specs.Picker.{IsDesk};

use crate::waiting::Waiting;
use pict_code::{Node, Op};
use pict_desk::Desk;
use pict_ranked::Ranked;
use std::alloc::{AllocError, Global};

// Reads the values of a frame, each to the place of its level among `values`. Takes no memory.
fn read_values(values: &mut [(u64, u64)], levels: &[u32], frame: &[(u64, u64)])
    requires many { length frame.now ≡ length levels.now }
    requires inside { All (λ level. level < length values.old) levels.now }
    requires rising { Rises 0 levels.now }
    ensures read { map (pair_at values.new) levels.now ≡ frame.now }
    ensures pairs { (h : HeapState) → ArePairs h values.old → All (IsPair h) frame.now → ArePairs h values.new }
    ensures len { length values.new ≡ length values.old }
{
    for i in 0..levels.len() {
        values[levels[i] as usize] = frame[i];
    }
}

/// The levels of a frame get these values. Takes no memory.
pub(crate) fn read_frame(desk: &mut Desk, levels: &[u32], frame: &[(u64, u64)])
    requires many { length frame.now ≡ length levels.now }
    requires inside { All (λ level. level < length desk.old.values.items) levels.now }
    requires rising { Rises 0 levels.now }
    ensures read { map (pair_at desk.new.values.items) levels.now ≡ frame.now }
    ensures pairs { (h : HeapState) → ArePairs h desk.old.values.items → All (IsPair h) frame.now → ArePairs h desk.new.values.items }
    ensures len { length desk.new.values.items ≡ length desk.old.values.items }
    ensures heap { desk.new.heap ≡ desk.old.heap }
{
    read_values(&mut desk.values, levels, frame);
}

// How many levels the frame of the node with this number has, or 0 where there is no such node.
fn frame_len(code: &[Node], number: u32) -> usize
    ensures { result ≡ frame_width (slice_get (map plain_node code.now) number) }
{
    match code.get(number as usize) {
        Some(node) => node.frame.len(),
        None => 0,
    }
}

// How many the frame of an input's part has, or 0 for any other instruction.
fn part_len(code: &[Node], op: &Op) -> usize
    ensures { result ≡ part_width (map plain_node code.now) (plain_op op.now) }
{
    match op {
        Op::In(_, _, part) => frame_len(code, *part),
        Op::Serve(_, _, part) => frame_len(code, *part),
        _ => 0,
    }
}

// The same of the part of an input, by the number of its node.
fn reader_len(code: &[Node], number: u32) -> usize
    ensures { result ≡ reader_width (map plain_node code.now) (slice_get (map plain_node code.now) number) }
{
    match code.get(number as usize) {
        Some(node) => part_len(code, &node.op),
        None => 0,
    }
}

// The same of what waits, or 0 for an output.
fn waiting_len(code: &[Node], waiting: &Waiting) -> usize
    ensures { result ≡ waiting_width (map plain_node code.now) waiting.now }
{
    match waiting {
        Waiting::Node(number, _) => reader_len(code, *number),
        Waiting::Output(_) => 0,
    }
}

// The same of the `j`-th of these, or 0 where there are no more.
fn len_at(code: &[Node], list: &Ranked<Waiting>, j: usize) -> usize
    ensures { HasRoomAt (map plain_node code.now) list.now.items j result }
{
    if j < list.len() {
        waiting_len(code, list.get(j))
    } else {
        0
    }
}

/// An empty frame, with room for that of the part of the `j`-th of these, if it is an input. The only error is want of memory.
pub(crate) fn reserve_frame(
    alloc: Global,
    code: &[Node],
    list: &Ranked<Waiting>,
    j: usize,
) -> Result<Vec<(u64, u64)>, AllocError>
    ensures empty { IfOk result (λ frame. frame.items ≡ []) }
    ensures room { IfOk result (λ frame. HasRoomAt (map plain_node code.now) list.now.items j (vec_capacity frame)) }
{
    let mut frame = Vec::new(alloc);
    frame.reserve_exact(len_at(code, list, j))?;
    Ok(frame)
}

// Writes the values of these levels into an empty frame that has room for them. Takes no memory.
fn write_values(frame: &mut Vec<(u64, u64)>, values: &[(u64, u64)], levels: &[u32])
    requires inside { All (λ level. level < length values.now) levels.now }
    requires empty { frame.old.items ≡ [] }
    requires room { length levels.now ≤ vec_capacity frame.old }
    ensures { frame.new.items ≡ map (pair_at values.now) levels.now }
{
    for level in levels {
        frame.push_reserved(values[*level as usize]);
    }
}

/// The node with this number, with the values that the levels of its frame have. They are written into an empty frame that has
/// room for them. Takes no memory.
pub(crate) fn fill_part(code: &[Node], desk: &Desk, number: u32, frame: Vec<(u64, u64)>) -> Waiting
    requires code { IsCode (map plain_node code.now) }
    requires inside { number < length code.now }
    requires desk { IsDesk (core_in code.now) desk.now }
    requires empty { frame.items ≡ [] }
    requires room { frame_width (slice_get (map plain_node code.now) number) ≤ vec_capacity frame }
    ensures { IsPart (core_in code.now) desk.now.values.items number result }
{
    let mut filled = frame;
    write_values(&mut filled, &desk.values, &code[number as usize].frame);
    Waiting::Node(number, filled)
}

/// The node with this number, with the values that the levels of its frame have. The only error is want of memory.
pub(crate) fn make_part(
    alloc: Global,
    code: &[Node],
    desk: &Desk,
    number: u32,
) -> Result<Waiting, AllocError>
    requires code { IsCode (map plain_node code.now) }
    requires inside { number < length code.now }
    requires desk { IsDesk (core_in code.now) desk.now }
    ensures { IfOk result (IsPart (core_in code.now) desk.now.values.items number) }
{
    let mut frame = Vec::new(alloc);
    frame.reserve_exact(frame_len(code, number))?;
    Ok(fill_part(code, desk, number, frame))
}
