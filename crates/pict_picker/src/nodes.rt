// The deeds of nodes that need no partner.
ghost use Rattle.std.specs.Prelude.{◌≡◌, ◌<◌, ◌^◌, ℕ, List, IfOk, length};
ghost use Rattle.pict_core.specs.Plain.{plain_val};
ghost use Rattle.pict_core.specs.Term.{Process};
ghost use Rattle.pict_code.specs.Instruction as op;
ghost use Rattle.pict_desk.specs.Code.{core_in};
ghost use Rattle.pict_picker.specs.Acting.{ActsBy};
ghost use Rattle.pict_picker.specs.Deeds.{IsDeed};
ghost use Rattle.pict_picker.specs.Parts.{KeepsDesk};

use crate::deed::Deed;
use crate::frames::make_part;
use pict_code::{Node, Operand};
use pict_desk::{Desk, chosen};
use pict_heap::{Word, pack};
use std::alloc::{AllocError, Global};

/// Of a parallel composition: its left part has its place, and its right part comes last. The only error is want of memory.
pub(crate) fn fork(
    alloc: Global,
    code: &[Node],
    desk: &Desk,
    left: u32,
    right: u32,
) -> Result<Deed, AllocError>
    requires acts { (lists : List (List Process)) × (j : ℕ) × (own : Process) × ActsBy code.now desk.now lists j (op.Par left right) own }
    ensures { (lists : List (List Process)) (j : ℕ) (own : Process) → ActsBy code.now desk.now lists j (op.Par left right) own
        → IfOk result (IsDeed (core_in code.now) desk.now.heap lists j own) }
{
    let first = make_part(alloc, code, desk, left)?;
    let second = make_part(alloc, code, desk, right)?;
    Ok(Deed::Forks(first, second))
}

/// Of a conditional: the part that its test chooses has its place. The only error is want of memory.
pub(crate) fn choose(
    alloc: Global,
    code: &[Node],
    desk: &Desk,
    test: &Operand,
    yes: u32,
    no: u32,
) -> Result<Deed, AllocError>
    requires acts { (lists : List (List Process)) × (j : ℕ) × (own : Process) × ActsBy code.now desk.now lists j (op.If (plain_val test.now) yes no) own }
    ensures { (lists : List (List Process)) (j : ℕ) (own : Process) → ActsBy code.now desk.now lists j (op.If (plain_val test.now) yes no) own
        → IfOk result (IsDeed (core_in code.now) desk.now.heap lists j own) }
{
    let part = chosen(desk, test, yes, no);
    let kept = make_part(alloc, code, desk, part)?;
    Ok(Deed::Keeps(kept, None))
}

/// Of a restriction, where there are so many channels: its part has its place, with the next channel as the value of the new
/// level. The only error is want of memory.
pub(crate) fn open(
    alloc: Global,
    code: &[Node],
    desk: &mut Desk,
    channels: usize,
    level: u32,
    part: u32,
) -> Result<Deed, AllocError>
    requires acts { (lists : List (List Process)) × (j : ℕ) × (own : Process) × ActsBy code.now desk.old lists j (op.New level part) own }
    requires few { channels < 2 ^ 32 }
    ensures deed { (lists : List (List Process)) (j : ℕ) (own : Process) → ActsBy code.now desk.old lists j (op.New level part) own
        → length lists ≡ channels → IfOk result (IsDeed (core_in code.now) desk.new.heap lists j own) }
    ensures rest { KeepsDesk (core_in code.now) desk.old desk.new }
    ensures heap { desk.new.heap ≡ desk.old.heap }
{
    desk.values[level as usize] = pack(Word::Chan(channels as u32));
    let opened = make_part(alloc, code, desk, part)?;
    Ok(Deed::Opens(opened))
}
