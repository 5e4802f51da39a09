// Characters and strings: items and escapes.

ghost use Rattle.std.specs.Prelude.{◌≡◌, ◌∷◌, ◌<◌, ◌≢◌, false, IsTrue, length, slice_index, List, ℕ};
ghost use Rattle.std.specs.Char.{digit_value, is_ascii_hexdigit};
ghost use Rattle.pict_lex.specs.Due.{IsDue};

/// What stands where one more item or the quote of a literal is due.
pub enum Due {
    /// An item: the byte that it stands for, and how many bytes it has.
    Item(u8, usize),
    /// The quote.
    Quote,
    /// The end of the text, a backslash right before it, or a newline.
    CutOff,
    /// A byte that may not stand in a literal.
    BadByte,
    /// A backslash that begins no escape.
    BadEscape,
}

/// The value of a hexadecimal digit of either case.
fn hexadecimal_value(digit: u8) -> u8
    requires { IsTrue (is_ascii_hexdigit digit) }
    ensures value { result ≡ digit_value digit }
    ensures small { result < 16 }
{
    match digit {
        b'0'..=b'9' => digit - b'0',
        b'a'..=b'f' => digit - b'a' + 10,
        _ => digit - b'A' + 10,
    }
}

/// Whether both are hexadecimal digits.
fn are_hexadecimal(high: u8, low: u8) -> bool
    ensures both { IsTrue result → IsTrue (is_ascii_hexdigit high) × IsTrue (is_ascii_hexdigit low) }
    ensures not_both { result ≡ false → IsTrue (is_ascii_hexdigit high) → is_ascii_hexdigit low ≡ false }
{
    high.is_ascii_hexdigit() && low.is_ascii_hexdigit()
}

/// What a backslash and `x`, with these bytes behind them, are.
fn hexadecimal_due(digits: &[u8]) -> Due
    ensures { IsDue 34 (92 ∷ 120 ∷ digits.now) result }
{
    if digits.len() < 2 {
        return Due::BadEscape;
    }
    let (high, low) = (digits[0], digits[1]);
    if are_hexadecimal(high, low) {
        Due::Item(16 * hexadecimal_value(high) + hexadecimal_value(low), 4)
    } else {
        Due::BadEscape
    }
}

/// What a backslash with these bytes behind it is.
fn escape_due(letter: u8, more: &[u8]) -> Due
    ensures { IsDue 34 (92 ∷ letter ∷ more.now) result }
{
    match letter {
        b'n' => Due::Item(b'\n', 2),
        b't' => Due::Item(b'\t', 2),
        b'\\' => Due::Item(b'\\', 2),
        b'"' => Due::Item(b'"', 2),
        b'\'' => Due::Item(b'\'', 2),
        b'x' => hexadecimal_due(more),
        _ => Due::BadEscape,
    }
}

/// What a byte is that is neither a backslash nor a newline.
fn byte_due(quote: u8, after: &[u8]) -> Due
    requires some { 0 < length after.now }
    requires no_backslash { slice_index after.now 0 ≢ 92 }
    requires no_newline { slice_index after.now 0 ≢ 10 }
    ensures { IsDue quote after.now result }
{
    let byte = after[0];
    if byte == quote {
        Due::Quote
    } else if b' ' <= byte && byte <= b'~' {
        Due::Item(byte, 1)
    } else {
        Due::BadByte
    }
}

/// What stands at the front of `after`, where an item of a literal with this quote or the quote is due.
pub fn due_at(quote: u8, after: &[u8]) -> Due
    requires { quote ≢ 92 }
    ensures { IsDue quote after.now result }
{
    match after {
        [] => Due::CutOff,
        [b'\n', ..] | [b'\\'] => Due::CutOff,
        [b'\\', letter, more @ ..] => escape_due(*letter, more),
        _ => byte_due(quote, after),
    }
}
