//! A beginning of the history, of which the code keeps the length alone.

ghost use Rattle.std.specs.Prelude.{◌≡◌, ◌<◌, ◌≤◌, ◌^◌, ◌++◌, ◌∷◌, [], length, IfSome};
ghost use mathlib.Core.List.{IsPrefix};
ghost use Rattle.swim_shared.specs.Machinery.Rules.{head_of, MayAdd};

use crate::law::{Add, Claim, Law, Nothing};
use logbook::{Offer, Pen, Seen, Start, Word};
use std::marker::Model;
use swim_node::Entry;

/// An empty history, which has no name yet.
#[derive(Drop)]
pub struct Opened {
    /// The word that is shared.
    pub head: Word<Entry, u64, Law>,
    /// All of it: nothing.
    pub front: Front,
    /// The history has no entry.
    pub ghost empty: { front.entries ≡ [] },
    /// The shared word is that of this history.
    pub ghost head_is: { head ≡ head_of front.book },
}

impl Opened {
    /// A new history.
    pub fn new() -> Opened {
        let (seen, mut first, _second) = Seen::open(Start::alone(), 0, 0);
        Opened {
            head: Word::tracked(0, &mut first),
            front: Front { len: 0, seen },
        }
    }
}

/// A beginning of a history.
#[derive(Drop)]
pub struct Front {
    len: u64,
    seen: Seen<Entry, u64, Law>,
}

impl Model for Front {
    ghost use Rattle.std.specs.Prelude.{◌≡◌, length};
    ghost use Rattle.swim_shared.specs.Passes.{Sight};

    ghost Value = { Sight };

    ghost view = { λ f. record { book = f.seen.book; entries = f.seen.log } };

    ghost invariant = { λ f. f.len ≡ length f.seen.log };
}

impl Front {
    /// How many entries it has.
    pub fn len(&self) -> u64
        ensures { result ≡ length self.now.entries }
    {
        self.len
    }

    /// A copy.
    pub fn again(&self) -> Front
        ensures { result ≡ self.now }
    {
        Front {
            len: self.len,
            seen: self.seen.again(),
        }
    }

    /// That the shorter of two beginnings of one history begins the longer. It does nothing: its
    /// contract is what counts.
    pub fn shorter_begins_longer(&self, longer: &Front)
        requires book { longer.now.book ≡ self.now.book }
        requires longer { length self.now.entries ≤ length longer.now.entries }
        ensures { IsPrefix self.now.entries longer.now.entries }
    {
        let mut both = self.seen.again();
        both.learn(&longer.seen);
    }

    /// The right to add the next entry. There is none where somebody else has it, or has added.
    pub fn claim(&self, head: &Word<Entry, u64, Law>) -> Option<Pen>
        requires head { head.now ≡ head_of self.now.book }
        requires room { length self.now.entries < 2 ^ 62 }
        ensures { IfSome result (λ pen. MayAdd self.now pen) }
    {
        let mut seen = self.seen.again();
        let mut offer: Offer<Entry, u64, Law, Nothing> = seen.plain::<Nothing, (), Claim>(&());
        let mut pen = seen.no_pen();
        let rest = self.len + self.len;
        let found = head.compare_exchange::<Claim, Nothing>(
            rest,
            rest + 1,
            &mut seen,
            &mut offer,
            &mut pen,
        );
        if found != rest {
            return None;
        }
        let _place: Word<Entry, u64, Law> = Word::tracked(0, &mut pen);
        Some(pen)
    }

    /// Adds an entry to the history, which nobody else can have done.
    pub fn add(&mut self, head: &Word<Entry, u64, Law>, pen: Pen, entry: &Entry)
        requires head { head.now ≡ head_of self.old.book }
        requires room { length self.old.entries < 2 ^ 62 }
        requires may { MayAdd self.old pen }
        ensures book { self.new.book ≡ self.old.book }
        ensures added { self.new.entries ≡ self.old.entries ++ entry.now ∷ [] }
    {
        let mut offer: Offer<Entry, u64, Law, Nothing> = self
            .seen
            .plain::<Nothing, Entry, Add>(entry);
        let mut pen = pen;
        let claimed = self.len + self.len + 1;
        head.compare_exchange::<Add, Nothing>(
            claimed,
            claimed + 1,
            &mut self.seen,
            &mut offer,
            &mut pen,
        );
        self.len += 1;
    }
}
