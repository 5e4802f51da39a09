// The choices of a seed.
ghost use Rattle.std.specs.Prelude.{◌≡◌, ◌≤◌, ◌<◌};
ghost use Rattle.pict_seed.specs.Stream.{generator, chosen};

use rand_core::utils::NextWord;
use rand_pcg::Lcg64Xsh32;
use std::marker::Model;

/// The stream of the generator that a seed begins.
pub const STREAM: u64 = 54;

/// Chooses by the words of the generator that a seed begins. Contracts see the generator as it is after the words that were
/// drawn.
#[derive(Drop)]
pub struct Chooser {
    words: Lcg64Xsh32,
}

impl Model for Chooser {
    ghost use Rattle.rand_pcg.specs.Lcg.{Lcg};

    ghost Value = { Lcg };

    ghost view = { λ c. c.words };
}

impl Chooser {
    /// The choices of a seed. Takes no memory.
    pub fn new(seed: u64) -> Chooser
        ensures { result ≡ generator seed }
    {
        Chooser {
            words: Lcg64Xsh32::new(seed, STREAM),
        }
    }

    /// One of `count`, from 0: 0 without a draw where `count` is 1, else the next word modulo `count`. Takes no memory.
    pub fn choose(&mut self, count: u64) -> u64
        requires { 1 ≤ count }
        ensures choice { result ≡ (chosen count self.old).0 }
        ensures after { self.new ≡ (chosen count self.old).1 }
        ensures below { result < count }
    {
        if count == 1 {
            return 0;
        }
        let word = self.words.next_word() as u64;
        word % count
    }
}
