// Numbers read from their decimal texts.

ghost use Rattle.std.specs.Prelude.{◌≡◌, ◌≢◌, ◌<◌, ◌^◌, ℕ, ℤ, IfSome, None, FitsSigned};
ghost use Rattle.std.specs.Int.{w64};
ghost use Rattle.std.specs.Fmt.{decimal, signed_decimal};

use itoa::Buffer;

// The number that these bytes write, in decimal, without a sign and without a leading zero.
pub(crate) fn number_of(word: &[u8]) -> Option<u64>
    ensures some { IfSome result (λ n. word.now ≡ decimal n) }
    ensures none { result ≡ None → (n : ℕ) → n < 2 ^ 64 → word.now ≢ decimal n }
{
    match str::from_utf8(word) {
        Err(_) => None,
        Ok(text) => match text.parse::<u64>() {
            Err(_) => None,
            Ok(n) => {
                if Buffer::new().format(n) != text {
                    return None;
                }
                Some(n)
            }
        },
    }
}

// The number that these bytes write, in decimal, with `-` where it is negative, and without a leading zero.
pub(crate) fn signed_of(word: &[u8]) -> Option<i64>
    ensures some { IfSome result (λ n. word.now ≡ signed_decimal n) }
    ensures none { result ≡ None → (n : ℤ) → FitsSigned w64 n → word.now ≢ signed_decimal n }
{
    match str::from_utf8(word) {
        Err(_) => None,
        Ok(text) => match text.parse::<i64>() {
            Err(_) => None,
            Ok(z) => {
                if Buffer::new().format(z) != text {
                    return None;
                }
                Some(z)
            }
        },
    }
}
