// Frames.
ghost use Rattle.std.specs.Prelude.{◌≡◌, ℕ, List, ◌++◌, ◌||◌, map, reverse, IfOk, IfSome, OnOk};
ghost use Rattle.pict_core.specs.Plain.{plain_core};
ghost use Rattle.pict_code.specs.Frames.{frame_of};
ghost use Rattle.pict_code.specs.Levels.{has};
ghost use Rattle.pict_code.specs.Nodes.{Place as Part, nodes_from};
ghost use Rattle.pict_code.specs.Plain.{plain_node};
ghost use Rattle.pict_lower.specs.Parts.{parts, all_places, frame_at, in_operands};

use crate::levels::{below, in_order, united, variables};
use crate::places::Place;
use pict_code::Node;
use pict_core::Core;
use std::alloc::{AllocError, Global};
use std::rc::Rc;

/// The frame of a part, from the frames of its own parts.
pub fn frame_from<'a>(
    alloc: Global,
    place: Place<'a>,
    first: &[u32],
    second: &[u32],
) -> Result<Vec<u32>, AllocError>
    requires first { first.now ≡ frame_at (parts place.around (plain_core place.process.now)) 0 }
    requires second { second.now ≡ frame_at (parts place.around (plain_core place.process.now)) 1 }
    ensures { IfOk result (λ f. f.items ≡ frame_of place.entry.around (plain_core place.entry.process.now)) }
{
    let around = place.around;
    let parts = united(alloc, below(first, around), below(second, around))?;
    let mut levels = Vec::new(alloc);
    operands(&mut levels, place.process)?;
    if levels.is_empty() {
        return Ok(parts);
    }
    let levels = in_order(levels);
    united(alloc, below(&levels, around), &parts)
}

/// Puts the levels of the variables in a process' operands behind what is there.
fn operands(levels: &mut Vec<u32>, process: &Core) -> Result<(), AllocError>
    ensures { OnOk result ((level : ℕ) → has level levels.new.items ≡ has level levels.old.items || in_operands level (plain_core process.now)) }
{
    match process {
        Core::Zero => Ok(()),
        Core::Par(_, _) => Ok(()),
        Core::New(_) => Ok(()),
        Core::Out { chan, message, .. } => {
            variables(levels, chan)?;
            variables(levels, message)
        }
        Core::In { chan, .. } => variables(levels, chan),
        Core::If { test, .. } => variables(levels, test),
    }
}

/// A frame of these levels: that of the last node, or of the node so many before it, where it is the same list, else a new one.
pub fn shared(
    alloc: Global,
    nodes: &[Node],
    back: u32,
    levels: Vec<u32>,
) -> Result<Rc<Vec<u32>>, AllocError>
    ensures { IfOk result (λ frame. frame.value.items ≡ levels.items) }
{
    if let Some(frame) = same_frame(nodes, 0, &levels)? {
        return Ok(frame);
    }
    if let Some(frame) = same_frame(nodes, back, &levels)? {
        return Ok(frame);
    }
    Ok(Rc::new(alloc, levels)?)
}

/// The frame of the node so many before the last, if there is such a node and its frame has these levels.
fn same_frame(nodes: &[Node], back: u32, levels: &[u32]) -> Result<Option<Rc<Vec<u32>>>, AllocError>
    ensures { IfOk result (λ found. IfSome found (λ frame. frame.value.items ≡ levels.now)) }
{
    let back = back as usize;
    if back < nodes.len() {
        let node = &nodes[nodes.len() - 1 - back];
        if node.frame.as_slice() == levels {
            return Ok(Some(node.frame.clone()?));
        }
    }
    Ok(None)
}
