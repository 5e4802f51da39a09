// The code of a process.
ghost use Rattle.std.specs.Prelude.{◌≡◌, ◌+◌, List, ◌∷◌, ◌++◌, map, reverse, length, IfOk, OnOk};
ghost use Rattle.pict_core.specs.Plain.{plain_core, plain_pat, plain_val};
ghost use Rattle.pict_code.specs.Nodes.{Place as Part, nodes_of, op_of, input_op, leveled};
ghost use Rattle.pict_code.specs.Instruction as instruction;
ghost use Rattle.pict_code.specs.Plain.{plain_code, plain_node, plain_op};
ghost use Rattle.pict_lower.specs.Laid.{IsLaid, IsNext, has_first, has_second, frame_back, size_back};
ghost use Rattle.pict_lower.specs.Parts.{parts, parts_of, all_places, plain_place, size_at};

use crate::frames::{frame_from, shared};
use crate::patterns::leveled;
use crate::places::{Place, places_of};
use crate::sums::sum;
use pict_code::{Code, Node, Op};
use pict_core::{Core, CorePat, CoreVal};
use pict_syntax::Span;
use std::alloc::{AllocError, Global};

/// The code of a process: its parts in preorder, each with its frame and its instruction.
///
/// The only error is want of memory. More than 2 to the power 32 parts, or variables around one part, find none. The time is
/// that of the nodes and the levels of their frames, and of putting the variables of each operand in order. Nothing recurses
/// along the process, only along the nesting of patterns and values.
pub fn lower(alloc: Global, core: &Core) -> Result<Code, AllocError>
    ensures { IfOk result (λ code. plain_code code ≡ nodes_of (plain_core core.now)) }
{
    let places = places_of(alloc, core)?;
    let mut number = count_of(&places)?;
    let mut nodes = Vec::new(alloc);
    let mut sizes = Vec::new(alloc);
    // A part's own parts stand behind it, so the last one is the first to get its frame.
    while number > 0 {
        number -= 1;
        add_node(
            alloc,
            &mut nodes,
            &mut sizes,
            number,
            places[number as usize],
        )?;
    }
    nodes.reverse();
    Ok(Code { nodes })
}

fn count_of<'a>(places: &[Place<'a>]) -> Result<u32, AllocError>
    ensures { IfOk result (λ count. count ≡ length places.now) }
{
    match u32::try_from(places.len()) {
        Ok(count) => Ok(count),
        Err(_) => Err(AllocError),
    }
}

/// Puts the node of a place, and how many parts the place has, behind those of the places after it, the last of which
/// stands first.
fn add_node<'a>(
    alloc: Global,
    nodes: &mut Vec<Node>,
    sizes: &mut Vec<u32>,
    number: u32,
    place: Place<'a>,
) -> Result<(), AllocError>
    requires { IsNext number (plain_place place) nodes.old.items sizes.old.items }
    ensures { OnOk result ((rest : List Part)
        → IsLaid (number + 1) (all_places (parts_of (plain_place place.entry) ++ rest)) nodes.old.items sizes.old.items
        → IsLaid number (all_places (plain_place place.entry ∷ rest)) nodes.new.items sizes.new.items) }
{
    let two = has_first(place.process);
    let three = has_second(place.process);
    let first = size_back(two, sizes, 0);
    let second = size_back(three, sizes, first);
    let op = op_of(alloc, number, first, place)?;
    let levels = frame_from(
        alloc,
        place,
        frame_back(two, nodes, 0),
        frame_back(three, nodes, first),
    )?;
    let frame = shared(alloc, nodes, first, levels)?;
    let size = sum(sum(1, first)?, second)?;
    nodes.push(Node { frame, op })?;
    sizes.push(size)?;
    Ok(())
}

/// Whether a process has a part.
fn has_first(process: &Core) -> bool
    ensures { result ≡ has_first (plain_core process.now) }
{
    match process {
        Core::Zero => false,
        Core::Out { .. } => false,
        Core::Par(_, _) => true,
        Core::New(_) => true,
        Core::In { .. } => true,
        Core::If { .. } => true,
    }
}

/// Whether a process has a second part.
fn has_second(process: &Core) -> bool
    ensures { result ≡ has_second (plain_core process.now) }
{
    match process {
        Core::Zero => false,
        Core::Out { .. } => false,
        Core::Par(_, _) => true,
        Core::New(_) => false,
        Core::In { .. } => false,
        Core::If { .. } => true,
    }
}

/// The frame of the node so many before the last, if it is wanted and there; else nothing.
fn frame_back(wanted: bool, nodes: &[Node], back: u32) -> &[u32]
    ensures { result.now ≡ frame_back wanted (reverse (map plain_node nodes.now)) back }
{
    let back = back as usize;
    if wanted && back < nodes.len() {
        return &nodes[nodes.len() - 1 - back].frame;
    }
    &[]
}

/// The size so many before the last, if it is wanted and there; else nothing.
fn size_back(wanted: bool, sizes: &[u32], back: u32) -> u32
    ensures { result ≡ size_back wanted (reverse sizes.now) back }
{
    let back = back as usize;
    if wanted && back < sizes.len() {
        return sizes[sizes.len() - 1 - back];
    }
    0
}

/// The instruction of a part with this number, whose first part has this size.
fn op_of<'a>(alloc: Global, number: u32, first: u32, place: Place<'a>) -> Result<Op, AllocError>
    ensures { IfOk result (λ op. first ≡ size_at (parts_of (plain_place place.entry)) 0
        → plain_op op ≡ op_of number place.entry.around (plain_core place.entry.process.now)) }
{
    match place.process {
        Core::Zero => Ok(Op::Zero),
        Core::Par(_, _) => {
            let left = sum(number, 1)?;
            Ok(Op::Par(left, sum(left, first)?))
        }
        Core::New(_) => Ok(Op::New(place.around, sum(number, 1)?)),
        Core::Out { chan, message, at } => lower_output(alloc, chan, message, *at),
        Core::In {
            chan,
            replicated,
            pattern,
            ..
        } => lower_input(
            alloc,
            place.around,
            chan,
            *replicated,
            pattern,
            sum(number, 1)?,
        ),
        Core::If { test, .. } => {
            let left = sum(number, 1)?;
            Ok(Op::If(test.copy(alloc)?, left, sum(left, first)?))
        }
    }
}

/// The instruction of an output.
fn lower_output(
    alloc: Global,
    chan: &CoreVal,
    message: &CoreVal,
    at: Span,
) -> Result<Op, AllocError>
    ensures { IfOk result (λ op. plain_op op ≡ instruction.Out (plain_val chan.now) (plain_val message.now) at) }
{
    Ok(Op::Out(chan.copy(alloc)?, message.copy(alloc)?, at))
}

/// The instruction of an input, around which so many variables are bound.
fn lower_input(
    alloc: Global,
    around: u32,
    chan: &CoreVal,
    replicated: bool,
    pattern: &CorePat,
    part: u32,
) -> Result<Op, AllocError>
    ensures { IfOk result (λ op. plain_op op ≡ input_op replicated (plain_val chan.now) (leveled around (plain_pat pattern.now)) part) }
{
    let chan = chan.copy(alloc)?;
    let mut level = around;
    let pattern = leveled(alloc, &mut level, pattern)?;
    if replicated {
        return Ok(Op::Serve(chan, pattern, part));
    }
    Ok(Op::In(chan, pattern, part))
}
