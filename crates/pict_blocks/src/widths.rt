// How wide blocks are.
ghost use Rattle.std.specs.Prelude.{◌≡◌, ◌≤◌, length};
ghost use Rattle.pict_blocks.specs.Parts.{block_width};

use pict_syntax::NARROW_LIMIT;

/// The width of a block of an output of kept values, in words.
pub const KEPT_WIDTH: u32 = 9;

/// The width of a block for a frame that stands in the block itself, in words.
#[inline(always)]
pub fn narrow_width(frame: &[u32]) -> u32
    requires { length frame.now ≤ NARROW_LIMIT }
    ensures value { result ≡ block_width frame.now }
    ensures positive { 2 ≤ result }
    ensures narrow { result ≤ 65535 }
{
    2 + 2 * frame.len() as u32
}

/// The width of a block for a frame, in words.
#[inline(always)]
pub fn block_width(frame: &[u32]) -> u32
    ensures value { result ≡ block_width frame.now }
    ensures positive { 2 ≤ result }
    ensures narrow { result ≤ 65535 }
{
    if frame.len() <= NARROW_LIMIT as usize {
        narrow_width(frame)
    } else {
        4
    }
}
