// Frames too large for a block, as records of a heap.
ghost use Rattle.std.specs.Prelude.{◌≡◌, ◌<◌, ◌^◌, ℕ, All, length, map, false};
ghost use Rattle.pict_code.specs.Levels.{Rises, has};
ghost use Rattle.pict_desk.specs.Known.{pair_at, value_in, known, value_fields};
ghost use Rattle.pict_heap.specs.HeapState.{KeepsWords};
ghost use Rattle.pict_prim.specs.Acts.{UsesNeed};
ghost use Rattle.pict_desk.specs.Pairs.{IsPair, ArePairs};
ghost use Rattle.pict_desk.specs.Needs.{record_need, HasRoomFor, KeepsPending};

use crate::operands::word_at;
use crate::pending::Pending;
use pict_heap::{Heap, Word, pack};
use pict_syntax::Name;

/// A record of the values of a frame, as its two words: its fields are those values, in order. Room for it was reserved
/// before; all earlier words stand for what they stood for, and the piles are as they were. Takes no memory. It takes time in
/// the levels of the frame.
pub fn frame_record(
    heap: &mut Heap,
    pending: &mut Pending,
    frame: &[u32],
    values: &[(u64, u64)],
) -> (u64, u64)
    requires inside { All (λ level. level < length values.now) frame.now }
    requires pairs { ArePairs heap.old values.now }
    requires room { HasRoomFor heap.old pending.old (record_need (length frame.now)) }
    ensures fields { value_fields (value_in heap.new result.0 result.1) ≡ map (known heap.old values.now) frame.now }
    ensures pair { IsPair heap.new result }
    ensures keeps { KeepsWords heap.old heap.new }
    ensures used { UsesNeed heap.old.room heap.new.room (record_need (length frame.now)) }
    ensures pending { KeepsPending pending.old pending.new }
{
    let start = pending.words.len();
    for level in frame {
        let word = word_at(values[*level as usize]);
        pending.words.push_reserved(word);
    }
    let labelled: [(Name, Word); 0] = [];
    let made = heap.add_record(&pending.words[start..], &labelled);
    pending.words.truncate(start);
    pack(made)
}

/// Reads the values of a frame out of such a record, each to the place of its level among `values`. Takes no memory. It takes
/// time in the levels of the frame.
pub fn read_record(heap: &Heap, pair: (u64, u64), frame: &[u32], values: &mut [(u64, u64)])
    requires pair { IsPair heap.now pair }
    requires fields { length (value_fields (value_in heap.now pair.0 pair.1)) ≡ length frame.now }
    requires few { length frame.now < 2 ^ 32 }
    requires inside { All (λ level. level < length values.old) frame.now }
    requires rising { Rises 0 frame.now }
    ensures read { map (known heap.now values.new) frame.now ≡ value_fields (value_in heap.now pair.0 pair.1) }
    ensures others { (level : ℕ) → has level frame.now ≡ false → pair_at values.new level ≡ pair_at values.old level }
    ensures pairs { ArePairs heap.now values.old → ArePairs heap.now values.new }
    ensures len { length values.new ≡ length values.old }
{
    let whole = word_at(pair);
    for i in 0..frame.len() {
        match heap.positional(whole, i as u32) {
            Some(word) => {
                values[frame[i] as usize] = pack(word);
            }
            None => unreachable!(),
        }
    }
}
