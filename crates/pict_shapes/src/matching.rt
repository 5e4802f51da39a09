// Whether a pattern of an instruction fits an operand, of which no word is made.
ghost use Rattle.std.specs.Prelude.{◌≡◌, ◌≢◌, ◌≤◌, ◌<◌, ℕ, map, length, slice_get, Some, IfSome, None};
ghost use Rattle.pict_code.specs.Plain.{plain_pat, plain_pat_field, pats_of, labelled_pats_of};
ghost use Rattle.pict_code.specs.ReadBack.{unleveled, unleveled_all, unleveled_labelled};
ghost use Rattle.pict_core.specs.Closed.{IsOver, AreOver, LabelledOver, IsDistinct};
ghost use Rattle.pict_core.specs.Matching.{match_value, match_values, match_labelled};
ghost use Rattle.pict_core.specs.Plain.{plain_val, plain_field, vals_of, labelled_of};
ghost use Rattle.pict_desk.specs.Arguments.{operand_in};
ghost use Rattle.pict_desk.specs.Pairs.{ArePairs};
ghost use Rattle.pict_shapes.specs.Fitting.{is_found, values_in, fields_in, labels_in};

use crate::fitting::fits;
use pict_code::{CodePat, Operand};
use pict_core::CoreVal;
use pict_desk::word_at_hand;
use pict_heap::Heap;
use pict_syntax::Name;

/// Whether the pattern fits the value of the operand, each variable of which has the two words of its level among `values`. Takes no
/// memory. It takes time in the nodes of the pattern, and, where the labels of pattern and operand stand in one order, in those of
/// the operand.
#[cycle(fits_operand)]
pub fn fits_operand(
    heap: &Heap,
    pattern: &CodePat,
    operand: &Operand,
    values: &[(u64, u64)],
) -> bool
    requires over { IsOver (length values.now) 0 (plain_val operand.now) }
    requires pairs { ArePairs heap.now values.now }
    ensures { result ≡ is_found (match_value (unleveled (plain_pat pattern.now)) (operand_in heap.now values.now (plain_val operand.now))) }
{
    match pattern {
        CodePat::Bind(_) => true,
        CodePat::Any => true,
        CodePat::Fields {
            positional,
            labelled,
        } => match operand {
            CoreVal::Fields {
                positional: operands,
                labelled: fields,
            } => {
                if fits_operands(heap, positional, operands, values) {
                    fits_fields(heap, labelled, fields, values)
                } else {
                    false
                }
            }
            CoreVal::Text(_) => false,
            _ => match word_at_hand(operand, values) {
                Some(word) => fits(heap, pattern, word),
                None => unreachable!(),
            },
        },
    }
}

// Whether the patterns fit the operands, which are as many.
#[cycle(fits_operand)]
fn fits_operands(
    heap: &Heap,
    patterns: &[CodePat],
    operands: &[Operand],
    values: &[(u64, u64)],
) -> bool
    requires over { AreOver (length values.now) 0 (vals_of (map plain_val operands.now)) }
    requires pairs { ArePairs heap.now values.now }
    ensures { result ≡ is_found (match_values (unleveled_all (pats_of (map plain_pat patterns.now))) (values_in heap.now values.now operands.now)) }
{
    if patterns.len() != operands.len() {
        return false;
    }
    for i in 0..patterns.len() {
        if !fits_operand(heap, &patterns[i], &operands[i], values) {
            return false;
        }
    }
    true
}

// Whether the patterns fit the fields that have their labels.
#[cycle(fits_operand)]
fn fits_fields(
    heap: &Heap,
    patterns: &[(Name, CodePat)],
    fields: &[(Name, Operand)],
    values: &[(u64, u64)],
) -> bool
    requires over { LabelledOver (length values.now) 0 (labelled_of (map plain_field fields.now)) }
    requires distinct { IsDistinct (labelled_of (map plain_field fields.now)) }
    requires pairs { ArePairs heap.now values.now }
    ensures { result ≡ is_found (match_labelled (unleveled_labelled (labelled_pats_of (map plain_pat_field patterns.now)))
        (fields_in heap.now values.now fields.now)) }
{
    let mut from = 0;
    for part in patterns {
        match place_of(fields, part.0, from) {
            Some(place) => {
                if !fits_operand(heap, &part.1, &fields[place].1, values) {
                    return false;
                }
                from = place + 1;
            }
            None => return false,
        }
    }
    true
}

// The place of a field with this label, looked for from a place on and then before it.
fn place_of(fields: &[(Name, Operand)], label: Name, from: usize) -> Option<usize>
    requires from { from ≤ length fields.now }
    ensures some { IfSome result (λ place. slice_get (labels_in fields.now) place ≡ Some label.0) }
    ensures within { IfSome result (λ place. place < length fields.now) }
    ensures none { result ≡ None → (place : ℕ) → slice_get (labels_in fields.now) place ≢ Some label.0 }
{
    match place_between(fields, label, from, fields.len()) {
        Some(place) => Some(place),
        None => place_between(fields, label, 0, from),
    }
}

// The place of a field with this label, from a place on and before an end.
fn place_between(fields: &[(Name, Operand)], label: Name, from: usize, end: usize) -> Option<usize>
    requires end { end ≤ length fields.now }
    ensures some { IfSome result (λ place. slice_get (labels_in fields.now) place ≡ Some label.0) }
    ensures within { IfSome result (λ place. place < length fields.now) }
    ensures none { result ≡ None → (place : ℕ) → from ≤ place → place < end → slice_get (labels_in fields.now) place ≢ Some label.0 }
{
    for place in from..end {
        if fields[place].0 == label {
            return Some(place);
        }
    }
    None
}
