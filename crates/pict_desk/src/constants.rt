// Words that are made once: those of operands without variables.
ghost use Rattle.std.specs.Prelude.{◌↔◌, ℕ, length, map, IfOk, IfSome, IsNone, IsTrue};
ghost use Rattle.pict_core.specs.Closed.{IsOver};
ghost use Rattle.pict_core.specs.Plain.{plain_val, plain_field, vals_of, labelled_of};
ghost use Rattle.pict_code.specs.Plain.{plain_op, plain_node};
ghost use Rattle.pict_heap.specs.HeapState.{HeapState};
ghost use Rattle.pict_desk.specs.Known.{known, operand_value};
ghost use Rattle.pict_desk.specs.AtHand.{IsOfHeap, IsPairFor};
ghost use Rattle.pict_desk.specs.Pairs.{ArePairs};
ghost use Rattle.pict_desk.specs.Code.{IsCode};
ghost use Rattle.pict_desk.specs.Constants.{HasNoVariable, HaveNoVariable, LabelledHaveNone, IsConstant, IsConstantFor, AreConstants, OnlyMakes, HasMessageOver};

use crate::desk::Desk;
use crate::needs::need;
use crate::operands::{pair_at_hand, word_of};
use crate::room::reserve_room;
use pict_code::{Node, Op, Operand};
use pict_core::CoreVal;
use pict_heap::{Word, pack};
use pict_syntax::Name;
use std::alloc::{AllocError, Global};

// Whether no variable occurs in the operand.
#[cycle(has_no_variable)]
fn has_no_variable(operand: &Operand) -> bool
    ensures { IsTrue result ↔ HasNoVariable (plain_val operand.now) }
{
    match operand {
        CoreVal::Var(_) => false,
        CoreVal::Fields {
            positional,
            labelled,
        } => have_no_variable(positional) && labelled_have_none(labelled),
        _ => true,
    }
}

// The same of fields without labels.
#[cycle(has_no_variable)]
fn have_no_variable(operands: &[Operand]) -> bool
    ensures { IsTrue result ↔ HaveNoVariable (vals_of (map plain_val operands.now)) }
{
    for operand in operands {
        if !has_no_variable(operand) {
            return false;
        }
    }
    true
}

// The same of fields with labels.
#[cycle(has_no_variable)]
fn labelled_have_none(operands: &[(Name, Operand)]) -> bool
    ensures { IsTrue result ↔ LabelledHaveNone (labelled_of (map plain_field operands.now)) }
{
    for field in operands {
        if !has_no_variable(&field.1) {
            return false;
        }
    }
    true
}

// Whether the operand is a text or a record.
fn is_of_heap(operand: &Operand) -> bool
    ensures { IsTrue result ↔ IsOfHeap (plain_val operand.now) }
{
    match operand {
        CoreVal::Text(_) => true,
        CoreVal::Fields { .. } => true,
        _ => false,
    }
}

// Makes the word of the operand, or nothing where it has a variable or takes nothing of a heap. An error is want of memory.
fn make_constant(desk: &mut Desk, operand: &Operand) -> Result<Option<Word>, AllocError>
    requires over { (n : ℕ) × IsOver n 0 (plain_val operand.now) }
    ensures is { IfOk result (IsConstant desk.new.heap (plain_val operand.now)) }
    ensures rest { OnlyMakes desk.old desk.new }
{
    if !is_of_heap(operand) || !has_no_variable(operand) {
        return Ok(None);
    }
    let need = need(operand)?;
    reserve_room(desk, need)?;
    let word = word_of(&mut desk.heap, &mut desk.pending, operand, &[]);
    Ok(Some(word))
}

// Makes what is made once for the instruction. An error is want of memory.
fn make_constant_for(desk: &mut Desk, op: &Op) -> Result<Option<Word>, AllocError>
    requires over { HasMessageOver (plain_op op.now) }
    ensures is { IfOk result (IsConstantFor desk.new.heap (plain_op op.now)) }
    ensures rest { OnlyMakes desk.old desk.new }
{
    match op {
        Op::Out(_, message, _) => make_constant(desk, message),
        _ => Ok(None),
    }
}

/// Makes what is made once for each of the nodes, in their order. The only error is want of memory. It takes time in the nodes
/// and in the operands of outputs.
pub fn make_constants(
    alloc: Global,
    desk: &mut Desk,
    nodes: &[Node],
) -> Result<Vec<Option<Word>>, AllocError>
    requires code { IsCode (map plain_node nodes.now) }
    ensures are { IfOk result (λ constants. AreConstants desk.new.heap (map plain_node nodes.now) constants.items) }
    ensures rest { OnlyMakes desk.old desk.new }
{
    let mut constants = Vec::new(alloc);
    constants.reserve(nodes.len())?;
    for node in nodes {
        let constant = make_constant_for(desk, &node.op)?;
        constants.push(constant)?;
    }
    Ok(constants)
}

/// The two words of an operand, where its word need not be made. Each variable has the two words of its level among `values`.
/// Takes no memory.
#[inline(always)]
pub fn pair_there(
    operand: &Operand,
    constant: &Option<Word>,
    values: &[(u64, u64)],
) -> Option<(u64, u64)>
    requires over { IsOver (length values.now) 0 (plain_val operand.now) }
    requires pairs { (h : HeapState) × ArePairs h values.now }
    ensures pair { (h : HeapState) → ArePairs h values.now → IsConstant h (plain_val operand.now) constant.now
        → IfSome result (IsPairFor h (operand_value (known h values.now) (plain_val operand.now))) }
    ensures none { (h : HeapState) → IsConstant h (plain_val operand.now) constant.now → IsNone result
        → IsOfHeap (plain_val operand.now) × ¬ HasNoVariable (plain_val operand.now) }
{
    match pair_at_hand(operand, values) {
        Some(pair) => Some(pair),
        None => match constant {
            Some(word) => Some(pack(*word)),
            None => None,
        },
    }
}
