// Values without quotes and brackets: numbers, channels, truth values and primitives.

ghost use Rattle.std.specs.Prelude.{◌≡◌, ◌≢◌, ◌∷◌, ◌<◌, ◌≤◌, ◌^◌, ℕ, ℤ, FitsSigned, Bool, List, length, slice_index, false, true, IfSome, IfNone, IfOk, None, Err};
ghost use Rattle.std.specs.Int.{w64};
ghost use Rattle.std.specs.Fmt.{decimal, signed_decimal};
ghost use Rattle.pict_core.specs.Plain.{plain_val};
ghost use Rattle.pict_show.specs.Values.{truth_text};
ghost use Rattle.pict_trace.specs.Reading.{is_end, IsBareText, IsNoBareText, Reads, BeginsNoValue};

use crate::found::{Found, ReadError};
use crate::front::{behind, is_end};
use crate::number::{number_of, signed_of};
use pict_core::CoreVal;
use pict_syntax::Prim;

// How many bytes stand before the first that ends a value.
pub(crate) fn word_end(text: &[u8]) -> usize
    ensures within { result ≤ length text.now }
    ensures before { (k : ℕ) → k < result → is_end (slice_index text.now k) ≡ false }
    ensures ends { result < length text.now → is_end (slice_index text.now result) ≡ true }
{
    let mut len = 0;
    while len < text.len() && !is_end(text[len]) {
        len += 1;
    }
    len
}

// The truth value with this name.
fn truth_of(word: &[u8]) -> Option<bool>
    ensures found { IfSome result (λ b. word.now ≡ truth_text b) }
    ensures none { IfNone result ((b : Bool) → word.now ≢ truth_text b) }
{
    match word {
        b"true" => Some(true),
        b"false" => Some(false),
        _ => None,
    }
}

// The channel with this number.
fn channel_of(digits: &[u8]) -> Option<CoreVal>
    ensures some { (names : List (List ℕ)) → IfSome result (λ v. IsBareText names (99 ∷ digits.now) (plain_val v)) }
    ensures none { result ≡ None → (number : ℕ) → number < 2 ^ 32 → digits.now ≢ decimal number }
{
    match number_of(digits) {
        Some(number) => {
            if number > u64::from(u32::MAX) {
                return None;
            }
            Some(CoreVal::Chan(number as u32))
        }
        None => None,
    }
}

// The number that these bytes write.
fn integer_of(word: &[u8]) -> Option<CoreVal>
    ensures some { (names : List (List ℕ)) → IfSome result (λ v. IsBareText names word.now (plain_val v)) }
    ensures none { result ≡ None → (n : ℤ) → FitsSigned w64 n → word.now ≢ signed_decimal n }
{
    match signed_of(word) {
        Some(n) => Some(CoreVal::Int(n)),
        None => None,
    }
}

// The value without quotes and brackets that these bytes write.
fn bare_value(word: &[u8]) -> Option<CoreVal>
    ensures some { (names : List (List ℕ)) → IfSome result (λ v. IsBareText names word.now (plain_val v)) }
    ensures none { result ≡ None → IsNoBareText word.now }
{
    if let Some(b) = truth_of(word) {
        return Some(CoreVal::Bool(b));
    }
    if let Some(p) = Prim::named(word) {
        return Some(CoreVal::Prim(p));
    }
    match behind(b"c", word) {
        Some(digits) => channel_of(digits),
        None => integer_of(word),
    }
}

// The value without quotes and brackets at the front of a text.
pub(crate) fn read_bare<'a>(text: &'a [u8]) -> Result<Found<'a>, ReadError>
    requires no_string { (after : List ℕ) → text.now ≢ 34 ∷ after }
    requires no_character { (after : List ℕ) → text.now ≢ 39 ∷ after }
    ensures ok { (names : List (List ℕ)) → IfOk result (λ r. Reads names 0 text.now (plain_val r.value) r.rest.now) }
    ensures bad { result ≡ Err ReadError.Bad → BeginsNoValue 0 text.now }
{
    let len = word_end(text);
    match bare_value(&text[..len]) {
        Some(value) => Ok(Found {
            value,
            rest: &text[len..],
        }),
        None => Err(ReadError::Bad),
    }
}
