//! What a call looks at.

ghost use Rattle.std.specs.Prelude.{◌≡◌, ℕ, ◌+◌, ◌<◌};

use std::marker::Model;

/// How many looks a call took: each at a slot. A slot that moves is one more.
#[derive(Drop)]
pub struct Visits {
    made: u32,
}

impl Model for Visits {
    ghost Value = { ℕ };

    ghost view = { λ v. v.made };
}

impl Visits {
    /// None so far.
    pub fn new() -> Visits
        ensures { result ≡ 0 }
    {
        Visits { made: 0 }
    }

    /// How many there were.
    pub fn made(&self) -> u32
        ensures { result ≡ self.now }
    {
        self.made
    }

    /// One more.
    pub fn look(&mut self)
        requires { self.old < 4294967295 }
        ensures { self.new ≡ self.old + 1 }
    {
        self.made += 1;
    }

    /// So many more, where a loop looks at each of some places.
    pub fn look_at(&mut self, count: usize)
        requires { self.old + count < 4294967296 }
        ensures { self.new ≡ self.old + count }
    {
        self.made += count as u32;
    }
}
