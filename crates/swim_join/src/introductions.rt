//! To whom a member introduces itself.

ghost use Rattle.std.specs.Prelude.{◌≡◌, ◌<◌, IfSome, IsTrue, ◌↔◌};
ghost use Rattle.swim_join.specs.Introductions.{first_word, go_on, introductions_of, next_among, with_next};
ghost use Rattle.swim_join.specs.Joins.{IsDrawnFrom, next_draw};

use crate::draw::{count_eligible, next_draw, nth_eligible};
use rand_chacha::ChaCha20Rng;
use swim_wire::{Endpoint, Update};

/// The introductions of a member that somebody has answered: it joins the others that it knows then, one after the other, from a drawn
/// one on. So what it says of itself is with many at once, and not with one that tells it on.
#[derive(Clone, Copy, Debug, PartialEq, Eq)]
pub(crate) struct Introductions {
    /// How many are left, at most.
    left: u32,
    /// How many were made.
    made: u32,
    /// The word that drew the first.
    word: u32,
}

impl Introductions {
    /// So many at most, none of which was made yet.
    pub(crate) fn new(most: u32) -> Introductions
        ensures { result ≡ introductions_of most }
    {
        Introductions {
            left: most,
            made: 0,
            word: 0,
        }
    }

    /// Whether one is left.
    pub(crate) fn are_left(&self) -> bool
        ensures { IsTrue result ↔ (0 < self.now.left) }
    {
        self.left > 0
    }

    /// Whether some were made and some are left.
    pub(crate) fn go_on(&self) -> bool
        ensures { result ≡ go_on self.now }
    {
        self.made > 0 && self.left > 0
    }

    /// The word that draws the first, which the generator gives once.
    fn first_word(&self, rng: &mut ChaCha20Rng) -> u32
        ensures word { result ≡ (first_word self.now rng.old).0 }
        ensures then { rng.new ≡ (first_word self.now rng.old).1 }
    {
        if self.made == 0 {
            return next_draw(rng);
        }
        self.word
    }

    /// The member that comes after so many from the drawn one on; none where each had its turn.
    fn next_among(&self, rows: &[Update], me: Endpoint, word: u32) -> Option<Endpoint>
        ensures value { result ≡ next_among me rows.now self.now.made word }
        ensures drawn { IfSome result (IsDrawnFrom me rows.now) }
    {
        let count = count_eligible(rows, me);
        if self.made as usize >= count {
            return None;
        }
        nth_eligible(rows, me, (word as usize + self.made as usize) % count)
    }

    /// The next member that these rows show, which is introduced now. None is left where there is none.
    pub(crate) fn next(
        &mut self,
        rows: &[Update],
        me: Endpoint,
        rng: &mut ChaCha20Rng,
    ) -> Option<Endpoint>
        ensures value { result ≡ next_among me rows.now self.old.made
            (first_word self.old rng.old).0 }
        ensures then { self.new ≡ with_next result (first_word self.old rng.old).0 self.old }
        ensures draws { rng.new ≡ (first_word self.old rng.old).1 }
        ensures drawn { IfSome result (IsDrawnFrom me rows.now) }
    {
        self.word = self.first_word(rng);
        let next = self.next_among(rows, me, self.word);
        match next {
            Some(_) => {
                self.left = self.left.saturating_sub(1);
                self.made = self.made.saturating_add(1);
            }
            None => self.left = 0,
        }
        next
    }
}
