//! What is drawn, all of it by one seed.

ghost use Rattle.std.specs.Prelude.{◌<◌};

use crate::network::Draw;
use rand::seq::SliceRandom;
use rand_chacha::ChaCha20Rng;
use rand_core::SeedableRng;
use rand_core::utils::NextWord;
use swim_member::Deal;
use swim_wire::MEMBERS_MAX;

/// A generator of random numbers.
#[derive(Drop)]
pub(crate) struct Dice {
    rng: ChaCha20Rng,
}

impl Dice {
    /// The generator of a seed.
    pub(crate) fn new(seed: u64) -> Dice {
        let mut key = [0; 32];
        for (byte, part) in key.iter_mut().zip(seed.to_be_bytes()) {
            *byte = part;
        }
        Dice {
            rng: ChaCha20Rng::from_seed(key),
        }
    }

    /// Another generator, with a key that is drawn.
    pub(crate) fn generator(&mut self) -> ChaCha20Rng {
        let mut key = [0; 32];
        for part in key.chunks_mut(4) {
            part.copy_from_slice(&self.word().to_be_bytes());
        }
        ChaCha20Rng::from_seed(key)
    }

    /// A number.
    pub(crate) fn word(&mut self) -> u32 {
        self.rng.next_word()
    }

    /// A number below the bound.
    pub(crate) fn below(&mut self, bound: usize) -> usize
        requires { 0 < bound }
        ensures { result < bound }
    {
        self.word() as usize % bound
    }

    /// What becomes of a datagram.
    pub(crate) fn draw(&mut self) -> Draw {
        Draw {
            loss: self.word(),
            repeat: self.word(),
            delay: self.word(),
            second: self.word(),
        }
    }

    /// The order of the members of a new turn list.
    pub(crate) fn deal(&mut self) -> Deal {
        let mut numbers = [0; MEMBERS_MAX - 1];
        numbers.copy_from_slice(Deal::from_first(0).numbers());
        numbers.as_mut_slice().shuffle(&mut self.rng);
        Deal::new(numbers).unwrap_or(Deal::from_first(0))
    }
}
