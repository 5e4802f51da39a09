// Whether a pattern of an instruction fits a word.
ghost use Rattle.std.specs.Prelude.{◌≡◌, map};
ghost use Rattle.pict_code.specs.Plain.{plain_pat, plain_pat_field, pats_of, labelled_pats_of};
ghost use Rattle.pict_code.specs.ReadBack.{unleveled, unleveled_all, unleveled_labelled};
ghost use Rattle.pict_core.specs.Matching.{match_value};
ghost use Rattle.pict_heap.specs.HeapState.{value_of, IsWord};
ghost use Rattle.pict_desk.specs.Parts.{positional_found, labelled_found};
ghost use Rattle.pict_shapes.specs.Fitting.{is_found};

use pict_code::CodePat;
use pict_heap::{Heap, Word};
use pict_syntax::Name;

/// Whether the pattern fits the word. Takes no memory. It takes time in the nodes of the pattern, and for each label in the
/// logarithm of the number of labels that the word's record has.
#[cycle(fits)]
pub fn fits(heap: &Heap, pattern: &CodePat, word: Word) -> bool
    requires word { IsWord heap.now word }
    ensures { result ≡ is_found (match_value (unleveled (plain_pat pattern.now)) (value_of heap.now word)) }
{
    match pattern {
        CodePat::Bind(_) => true,
        CodePat::Any => true,
        CodePat::Fields {
            positional,
            labelled,
        } => {
            if fits_positional(heap, positional, word) {
                fits_labelled(heap, labelled, word)
            } else {
                false
            }
        }
    }
}

// Whether the patterns fit the positional fields of a record, which are as many.
#[cycle(fits)]
fn fits_positional(heap: &Heap, patterns: &[CodePat], word: Word) -> bool
    requires word { IsWord heap.now word }
    ensures { result ≡ is_found (positional_found (unleveled_all (pats_of (map plain_pat patterns.now))) (value_of heap.now word)) }
{
    match heap.count(word) {
        None => return false,
        Some(count) => {
            if count as usize != patterns.len() {
                return false;
            }
        }
    }
    for i in 0..patterns.len() {
        match heap.positional(word, i as u32) {
            Some(part) => {
                if !fits(heap, &patterns[i], part) {
                    return false;
                }
            }
            None => return false,
        }
    }
    true
}

// Whether the patterns fit the fields of a record that have these labels.
#[cycle(fits)]
fn fits_labelled(heap: &Heap, patterns: &[(Name, CodePat)], word: Word) -> bool
    requires word { IsWord heap.now word }
    ensures { result ≡ is_found (labelled_found (unleveled_labelled (labelled_pats_of (map plain_pat_field patterns.now))) (value_of heap.now word)) }
{
    for field in patterns {
        match heap.labelled(word, field.0) {
            Some(part) => {
                if !fits(heap, &field.1, part) {
                    return false;
                }
            }
            None => return false,
        }
    }
    match heap.count(word) {
        Some(_) => true,
        None => false,
    }
}
