//! The worker that ticks.

ghost use Rattle.std.specs.Prelude.{◌≡◌, ◌∷◌, [], IfOk, IfErr};
ghost use Rattle.swim_shell.specs.Ticks.{answers, next_deal};

use crate::caller::{Caller, Refusal};
use crate::worker::Worker;
use rand::seq::SliceRandom;
use rand_chacha::ChaCha20Rng;
use std::marker::Model;
use swim_member::{Deal, Event};
use swim_wire::MEMBERS_MAX;

/// Makes one call a turn, a Tick with the next deal of a generator.
#[derive(Drop)]
pub struct Ticker {
    rng: ChaCha20Rng,
}

impl Model for Ticker {
    ghost use Rattle.rand_chacha.specs.ChaCha.{ChaCha};

    ghost Value = { ChaCha };

    ghost view = { λ t. t.rng };
}

impl Ticker {
    /// A ticker whose ticks get the deals of this generator.
    pub fn new(rng: ChaCha20Rng) -> Ticker
        ensures { result ≡ rng }
    {
        Ticker { rng }
    }
}

/// The next deal of the generator: the numbers in order, shuffled by it.
fn draw_deal(rng: &mut ChaCha20Rng) -> Deal
    ensures { (result, answers rng.new) ≡ next_deal (answers rng.old) }
{
    let mut numbers = [0; MEMBERS_MAX - 1];
    numbers.copy_from_slice(Deal::from_first(0).numbers());
    numbers.as_mut_slice().shuffle(rng);
    match Deal::new(numbers) {
        Some(deal) => deal,
        None => unreachable!(),
    }
}

impl<C: Caller> Worker<C> for Ticker {
    ghost use Rattle.swim_shell.specs.Work.{LastOf};
    ghost use Rattle.swim_shell.specs.Ticks.{Ticking, TicksInVain};

    type End = Refusal;

    ghost worked = { λ a p b q n. Ticking a p b q n };

    ghost ended = { λ why a p b q n. LastOf Ticking (TicksInVain C.limit why) a p b q n };

    #[tactic(auto, using(crate::proofs::Ticking::ticking_start))]
    fn begin(&mut self) {}

    #[tactic(auto, using(crate::proofs::Ticking::ticking_more, crate::proofs::Ticking::ticks_in_vain))]
    fn turn(&mut self, caller: &mut C) -> Option<Refusal> {
        let deal = draw_deal(&mut self.rng);
        match caller.call(Event::Tick { deal }) {
            Ok(_) => None,
            Err(refusal) => Some(refusal),
        }
    }
}
