// Words as pairs of numbers.
ghost use Rattle.std.specs.Prelude.{◌≡◌, IfSome, Some};
ghost use Rattle.pict_heap.specs.Packed.{packed, unpacked, FitsWord};
ghost use Rattle.pict_heap.specs.declared.word.Word.{Word as AnyWord};

use crate::word::Word;
use pict_syntax::Prim;

/// The word as two numbers: its kind, and its content. Takes no memory.
#[inline(always)]
pub fn pack(w: Word) -> (u64, u64)
    ensures pair { (result.0, result.1) ≡ packed w }
    ensures fits { FitsWord w }
{
    match w {
        Word::Int(n) => (0, n.cast_unsigned()),
        Word::Char(byte) => (1, u64::from(byte)),
        Word::Bool(b) => (2, u64::from(b)),
        Word::Chan(number) => (3, u64::from(number)),
        Word::Prim(p) => (4, u64::from(p.number())),
        Word::Text(number) => (5, number),
        Word::Fields(number) => (6, number),
    }
}

/// The word that is packed to this pair, or None where there is none. Takes no memory.
#[inline(always)]
pub fn unpack(tag: u64, payload: u64) -> Option<Word>
    ensures packs { IfSome result (λ w. packed w ≡ (tag, payload)) }
    ensures back { (w : AnyWord) → FitsWord w → packed w ≡ (tag, payload) → result ≡ Some w }
{
    decoded(tag, payload)
}

#[inline(always)]
fn decoded(tag: u64, payload: u64) -> Option<Word>
    ensures { result ≡ unpacked tag payload }
{
    match tag {
        0 => Some(Word::Int(payload.cast_signed())),
        1 if payload < 256 => Some(Word::Char(payload as u8)),
        2 if payload < 2 => Some(Word::Bool(payload == 1)),
        3 if payload < 4_294_967_296 => Some(Word::Chan(payload as u32)),
        4 => Prim::numbered(payload).map(Word::Prim),
        5 => Some(Word::Text(payload)),
        6 => Some(Word::Fields(payload)),
        _ => None,
    }
}
