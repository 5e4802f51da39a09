// The parts of a process in preorder.
ghost use Rattle.std.specs.Prelude.{◌≡◌, ◌∷◌, ◌++◌, map, IfOk, OnOk};
ghost use Rattle.pict_core.specs.Plain.{plain_core};
ghost use Rattle.pict_code.specs.Nodes.{place, places};
ghost use Rattle.pict_lower.specs.Parts.{parts_of, plain_place, waiting};

use crate::patterns::level_after;
use crate::sums::sum;
use pict_core::Core;
use std::alloc::{AllocError, Global};

/// A part of a process, and the number of variables that are bound around it.
#[derive(Clone, Copy)]
pub struct Place<'a> {
    pub around: u32,
    pub process: &'a Core,
}

/// The parts of a process in preorder, itself first. Nothing recurses along the process.
pub fn places_of<'a>(alloc: Global, core: &'a Core) -> Result<Vec<Place<'a>>, AllocError>
    ensures { IfOk result (λ ps. map plain_place ps.items ≡ places 0 (plain_core core.now)) }
{
    let mut found = Vec::new(alloc);
    let mut pending = Vec::new(alloc);
    pending.push(Place {
        around: 0,
        process: core,
    })?;
    while let Some(place) = pending.pop() {
        found.push(place)?;
        push_parts(&mut pending, place)?;
    }
    Ok(found)
}

/// Puts the parts of a place on the pile, the first one on top.
fn push_parts<'a>(pending: &mut Vec<Place<'a>>, place: Place<'a>) -> Result<(), AllocError>
    ensures { OnOk result (waiting pending.new.items ≡ parts_of (plain_place place.entry) ++ waiting pending.old.items) }
{
    let around = place.around;
    match place.process {
        Core::Zero => Ok(()),
        Core::Out { .. } => Ok(()),
        Core::New(body) => push_part(pending, sum(around, 1)?, body.core()),
        Core::In { pattern, body, .. } => {
            push_part(pending, level_after(around, pattern)?, body.core())
        }
        Core::Par(left, right) => push_two(pending, around, left.core(), right.core()),
        Core::If { yes, no, .. } => push_two(pending, around, yes.core(), no.core()),
    }
}

fn push_part<'a>(
    pending: &mut Vec<Place<'a>>,
    around: u32,
    process: &'a Core,
) -> Result<(), AllocError>
    ensures { OnOk result (waiting pending.new.items ≡ place around (plain_core process.now) ∷ waiting pending.old.items) }
{
    pending.push(Place { around, process })?;
    Ok(())
}

fn push_two<'a>(
    pending: &mut Vec<Place<'a>>,
    around: u32,
    first: &'a Core,
    second: &'a Core,
) -> Result<(), AllocError>
    ensures { OnOk result (waiting pending.new.items
        ≡ place around (plain_core first.now) ∷ place around (plain_core second.now) ∷ waiting pending.old.items) }
{
    push_part(pending, around, second)?;
    push_part(pending, around, first)
}
