// Byte strings between quotes.
ghost use Rattle.std.specs.Prelude.{◌⊎◌, false, ◌≡◌, ◌++◌, ◌<◌, ◌≤◌, take, OnOk};
ghost use Rattle.std.specs.Fmt.{digit_glyph};
ghost use Rattle.pict_syntax.specs.Tokens.{item_bytes};
ghost use Rattle.pict_show.specs.Values.{item_of, quoted};

use std::alloc::AllocError;

/// The lower-case hexadecimal digit of a number below 16.
fn digit(number: u8) -> u8
    requires { number < 16 }
    ensures { result ≡ digit_glyph false number }
{
    if number < 10 {
        48 + number
    } else {
        87 + number
    }
}

/// How a byte stands between quotes of this kind, `"` or `'`: the first so many of these bytes.
pub fn written(quote: u8, byte: u8) -> ([u8; 4], usize)
    requires { (quote ≡ 34) ⊎ (quote ≡ 39) }
    ensures bytes { take result.1 result.0 ≡ item_bytes (item_of quote byte) }
    ensures within { result.1 ≤ 4 }
{
    if byte == b'\\' {
        return ([b'\\', b'\\', 0, 0], 2);
    }
    if byte == b'\n' {
        return ([b'\\', b'n', 0, 0], 2);
    }
    if byte == b'\t' {
        return ([b'\\', b't', 0, 0], 2);
    }
    if byte == quote {
        return ([b'\\', quote, 0, 0], 2);
    }
    if b' ' <= byte && byte <= b'~' {
        return ([byte, 0, 0, 0], 1);
    }
    ([b'\\', b'x', digit(byte / 16), digit(byte % 16)], 4)
}

/// Writes a byte string behind what is there, between quotes `"` or `'`, as a literal of the language: bytes 0x20 to 0x7E
/// as they are, but a backslash before a backslash and before the quote, `\n`, `\t`, every other byte as `\x` and two
/// lower-case digits. The only error is want of memory.
pub fn write_quoted(out: &mut Vec<u8>, quote: u8, bytes: &[u8]) -> Result<(), AllocError>
    requires { (quote ≡ 34) ⊎ (quote ≡ 39) }
    ensures text { OnOk result (out.new.items ≡ out.old.items ++ quoted quote bytes.now) }
{
    out.push(quote)?;
    for byte in bytes {
        let (item, len) = written(quote, *byte);
        out.extend_from_slice(&item[..len])?;
    }
    out.push(quote)?;
    Ok(())
}
