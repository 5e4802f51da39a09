// What patterns of instructions bind, as words of levels.
ghost use Rattle.std.specs.Prelude.{◌≡◌, ◌<◌, length, map, IsSome};
ghost use Rattle.std.specs.List.{AllByRecursion};
ghost use Rattle.pict_code.specs.Levels.{Rises};
ghost use Rattle.pict_code.specs.Plain.{plain_pat, plain_pat_field, pats_of, labelled_pats_of};
ghost use Rattle.pict_code.specs.ReadBack.{unleveled, unleveled_all, unleveled_labelled};
ghost use Rattle.pict_core.specs.Matching.{match_value};
ghost use Rattle.pict_heap.specs.HeapState.{value_of, IsWord};
ghost use Rattle.pict_desk.specs.Binding.{levels_of, levels_of_all, levels_of_labelled, Binds, BindsPattern};
ghost use Rattle.pict_desk.specs.Pairs.{ArePairs};
ghost use Rattle.pict_desk.specs.Parts.{positional_found, labelled_found};

use pict_code::CodePat;
use pict_heap::{Heap, Word, pack};
use pict_syntax::Name;

/// Binds the word by the pattern, which fits it: each level of the pattern gets the two words of what it binds, among
/// `values`. Takes no memory. It takes time in the nodes of the pattern, and for each label in the logarithm of the number of
/// labels that the word's record has.
#[cycle(bind)]
pub fn bind(heap: &Heap, pattern: &CodePat, word: Word, values: &mut [(u64, u64)])
    requires word { IsWord heap.now word }
    requires fits { IsSome (match_value (unleveled (plain_pat pattern.now)) (value_of heap.now word)) }
    requires inside { AllByRecursion (λ level. level < length values.old) (levels_of (plain_pat pattern.now)) }
    requires rising { Rises 0 (levels_of (plain_pat pattern.now)) }
    ensures binds { BindsPattern heap.now (plain_pat pattern.now) (value_of heap.now word) values.old values.new }
    ensures len { length values.new ≡ length values.old }
    ensures pairs { ArePairs heap.now values.old → ArePairs heap.now values.new }
{
    match pattern {
        CodePat::Bind(level) => {
            values[*level as usize] = pack(word);
        }
        CodePat::Any => {}
        CodePat::Fields {
            positional,
            labelled,
        } => {
            bind_positional(heap, positional, word, values);
            bind_labelled(heap, labelled, word, values);
        }
    }
}

// Binds the positional fields of a record.
#[cycle(bind)]
fn bind_positional(heap: &Heap, patterns: &[CodePat], word: Word, values: &mut [(u64, u64)])
    requires word { IsWord heap.now word }
    requires fits { IsSome (positional_found (unleveled_all (pats_of (map plain_pat patterns.now))) (value_of heap.now word)) }
    requires inside { AllByRecursion (λ level. level < length values.old) (levels_of_all (pats_of (map plain_pat patterns.now))) }
    requires rising { Rises 0 (levels_of_all (pats_of (map plain_pat patterns.now))) }
    ensures binds { Binds heap.now (levels_of_all (pats_of (map plain_pat patterns.now)))
        (positional_found (unleveled_all (pats_of (map plain_pat patterns.now))) (value_of heap.now word)) values.old values.new }
    ensures len { length values.new ≡ length values.old }
    ensures pairs { ArePairs heap.now values.old → ArePairs heap.now values.new }
{
    let count = match heap.count(word) {
        Some(count) => count,
        None => unreachable!(),
    };
    for i in 0..count {
        match heap.positional(word, i) {
            Some(part) => bind(heap, &patterns[i as usize], part, values),
            None => unreachable!(),
        }
    }
}

// Binds the fields of a record that have these labels.
#[cycle(bind)]
fn bind_labelled(heap: &Heap, patterns: &[(Name, CodePat)], word: Word, values: &mut [(u64, u64)])
    requires word { IsWord heap.now word }
    requires fits { IsSome (labelled_found (unleveled_labelled (labelled_pats_of (map plain_pat_field patterns.now))) (value_of heap.now word)) }
    requires inside { AllByRecursion (λ level. level < length values.old) (levels_of_labelled (labelled_pats_of (map plain_pat_field patterns.now))) }
    requires rising { Rises 0 (levels_of_labelled (labelled_pats_of (map plain_pat_field patterns.now))) }
    ensures binds { Binds heap.now (levels_of_labelled (labelled_pats_of (map plain_pat_field patterns.now)))
        (labelled_found (unleveled_labelled (labelled_pats_of (map plain_pat_field patterns.now))) (value_of heap.now word)) values.old values.new }
    ensures len { length values.new ≡ length values.old }
    ensures pairs { ArePairs heap.now values.old → ArePairs heap.now values.new }
{
    for field in patterns {
        match heap.labelled(word, field.0) {
            Some(part) => bind(heap, &field.1, part, values),
            None => unreachable!(),
        }
    }
}
