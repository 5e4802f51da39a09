// What stands at the front of the bytes of an object: numbers, single bytes, and bytes behind their count.

ghost use Rattle.std.specs.Prelude.{◌<◌, length, IfOk};
ghost use Rattle.std.specs.Int.{w32, w64};
ghost use Rattle.pict_object.specs.Reading.{GivesReading, number_at, byte_at, text_at, label_at};

use crate::error::DecodeError;
use pict_syntax::Name;

/// The number in four bytes, and what is behind it.
pub(crate) fn read_count(bytes: &[u8]) -> Result<(u32, &[u8]), DecodeError>
    ensures { GivesReading (λ x. (x.0, x.1.now)) result (number_at w32 bytes.now) }
{
    if bytes.len() < 4 {
        return Err(DecodeError::NotObject);
    }
    let (front, rest) = bytes.split_at(4);
    let number = u32::from_be_bytes([front[0], front[1], front[2], front[3]]);
    Ok((number, rest))
}

/// The number in eight bytes, and what is behind it.
pub(crate) fn read_bits(bytes: &[u8]) -> Result<(u64, &[u8]), DecodeError>
    ensures { GivesReading (λ x. (x.0, x.1.now)) result (number_at w64 bytes.now) }
{
    if bytes.len() < 8 {
        return Err(DecodeError::NotObject);
    }
    let (front, rest) = bytes.split_at(8);
    let number = u64::from_be_bytes([
        front[0], front[1], front[2], front[3], front[4], front[5], front[6], front[7],
    ]);
    Ok((number, rest))
}

/// The first byte, and what is behind it.
#[tactic(auto, unfolding(crate::specs::Reading::byte_at))]
pub(crate) fn read_byte(bytes: &[u8]) -> Result<(u8, &[u8]), DecodeError>
    ensures { GivesReading (λ x. (x.0, x.1.now)) result (byte_at bytes.now) }
{
    match bytes {
        [] => Err(DecodeError::NotObject),
        [byte, rest @ ..] => Ok((*byte, rest)),
    }
}

/// The bytes behind their count, and what is behind them.
#[tactic(auto, unfolding(crate::specs::Reading::text_at))]
pub(crate) fn read_text(bytes: &[u8]) -> Result<(&[u8], &[u8]), DecodeError>
    ensures { GivesReading (λ x. (x.0.now, x.1.now)) result (text_at bytes.now) }
{
    let (count, rest) = read_count(bytes)?;
    let len = count as usize;
    if rest.len() < len {
        return Err(DecodeError::NotObject);
    }
    let (text, rest) = rest.split_at(len);
    Ok((text, rest))
}

/// The place of one of these labels, which isn't below `from`, and what is behind it.
#[tactic(auto, unfolding(crate::specs::Reading::label_at))]
pub(crate) fn read_label<'a>(
    bytes: &'a [u8],
    labels: &[Name],
    from: usize,
) -> Result<(usize, &'a [u8]), DecodeError>
    ensures place { GivesReading (λ x. (x.0, x.1.now)) result (label_at labels.now from bytes.now) }
    ensures within { IfOk result (λ x. x.0 < length labels.now) }
{
    let (number, rest) = read_count(bytes)?;
    let place = number as usize;
    if place < from {
        return Err(DecodeError::NotObject);
    }
    if place < labels.len() {
        Ok((place, rest))
    } else {
        Err(DecodeError::NotObject)
    }
}
