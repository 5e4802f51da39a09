// The rings of a number.
ghost use Rattle.std.specs.Prelude.{◌≡◌};
ghost use Rattle.rand_pcg.specs.Pcg.{pcg32};
ghost use Rattle.pict_load.specs.Rings as rings;

use pict_seed::STREAM;
use rand_core::utils::NextWord;
use rand_pcg::Lcg64Xsh32;

/// A ring of servers, each of which sends on to the next one.
#[derive(Clone, Copy, Debug, PartialEq, Eq)]
pub struct Ring {
    /// How many servers it has, from 100 to 199.
    pub size: u32,
    /// The number that goes round it, from 10,000 to 19,999: each server sends one less, up to 0.
    pub token: u32,
}

/// The three rings that the generator draws from a number. Takes no memory.
pub fn rings_of(n: u64) -> [Ring; 3]
    ensures { result ≡ rings.rings_of n }
{
    let mut generator = Lcg64Xsh32::new(n, STREAM);
    let first = draw(&mut generator);
    let second = draw(&mut generator);
    let third = draw(&mut generator);
    [first, second, third]
}

/// Draws a ring, by two words of the generator.
fn draw(generator: &mut Lcg64Xsh32) -> Ring
    ensures ring { let first = pcg32 generator.old in let second = pcg32 first.1 in result ≡ rings.ring_of first.0 second.0 }
    ensures after { let first = pcg32 generator.old in let second = pcg32 first.1 in generator.new ≡ second.1 }
{
    let first = generator.next_word();
    let second = generator.next_word();
    Ring {
        size: 100 + first % 100,
        token: 10_000 + second % 10_000,
    }
}
