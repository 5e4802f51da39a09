// Numbers: digits, with a minus right before them or without.

ghost use Rattle.std.specs.Prelude.{◌≡◌, ◌<◌, ◌≤◌, ℕ, true, false, length, take, slice_index, IsTrue, ◌↔◌, IfSome, IfNone};
ghost use Rattle.std.specs.Char.{is_ascii_digit};
ghost use Rattle.std.specs.Str.Parse.{signed_digits_value};
ghost use Rattle.pict_syntax.specs.Tokens.{IsNumber, IsWithin64Bits};
ghost use Rattle.pict_lex.specs.Number.{BeginsNumber};

/// Whether a number begins here.
pub(crate) fn begins_number(rest: &[u8]) -> bool
    ensures { IsTrue result ↔ BeginsNumber rest.now }
{
    match rest {
        [b'-', digit, ..] => digit.is_ascii_digit(),
        [first, ..] => first.is_ascii_digit(),
        [] => false,
    }
}

/// The place behind the digits that stand from `from` on.
fn digits_end(rest: &[u8], from: usize) -> usize
    requires { from ≤ length rest.now }
    ensures after { from ≤ result }
    ensures within { result ≤ length rest.now }
    ensures digits { (k : ℕ) → from ≤ k → k < result → is_ascii_digit (slice_index rest.now k) ≡ true }
    ensures longest { result < length rest.now → is_ascii_digit (slice_index rest.now result) ≡ false }
{
    let mut end = from;
    while end < rest.len() && rest[end].is_ascii_digit() {
        end += 1;
    }
    end
}

/// How many bytes the number at the front has.
pub(crate) fn number_len(rest: &[u8]) -> usize
    requires { BeginsNumber rest.now }
    ensures within { result ≤ length rest.now }
    ensures number { IsNumber (take result rest.now) }
    ensures longest { result < length rest.now → is_ascii_digit (slice_index rest.now result) ≡ false }
{
    if rest[0] == b'-' {
        digits_end(rest, 1)
    } else {
        digits_end(rest, 0)
    }
}

/// The value of a number, unless it is out of range.
pub(crate) fn number_value(bytes: &[u8]) -> Option<i64>
    requires { IsNumber bytes.now }
    ensures value { IfSome result (λ n. n ≡ signed_digits_value 10 bytes.now) }
    ensures in_range { IfSome result IsWithin64Bits }
    ensures none { IfNone result (¬ IsWithin64Bits (signed_digits_value 10 bytes.now)) }
{
    match str::from_utf8(bytes) {
        Ok(text) => i64::from_str_radix(text, 10).ok(),
        Err(_) => unreachable!(),
    }
}
