//! Deals: in which order the members of a new turn list are probed.

ghost use Rattle.std.specs.Prelude.{◌≡◌, ◌==◌, ◌<◌, IsTrue, ◌↔◌, All};
ghost use Rattle.std.specs.List.{IsDistinct};
ghost use Rattle.std.specs.Option.{SomeIff};
ghost use Rattle.swim_rules.specs.Deals.{IsDeal, deal_from};

use crate::table::ROWS_MAX;
use std::marker::Model;

/// The numbers 0 to 255 in some order, each once. A random one puts the members of a new turn list
/// in a random order.
#[derive(Clone, Copy)]
pub struct Deal {
    numbers: [u8; ROWS_MAX],
}

impl Model for Deal {
    ghost use Rattle.std.specs.Prelude.{ℕ, List};
    ghost use Rattle.swim_rules.specs.Deals.{IsDeal};

    ghost Value = { List ℕ };

    ghost view = { λ d. d.numbers };

    ghost invariant = { λ d. IsDeal d.numbers };

    ghost inverse = { λ numbers. record { numbers = numbers } };
}

/// Whether no two of these numbers are equal.
fn are_distinct(numbers: &[u8]) -> bool
    ensures distinct { IsTrue result ↔ IsDistinct (λ m n. m == n) numbers.now }
    // each is a byte
    ensures below { All (λ n. n < ROWS_MAX) numbers.now }
{
    let mut seen = [false; ROWS_MAX];
    for number in numbers {
        if seen[*number as usize] {
            return false;
        }
        seen[*number as usize] = true;
    }
    true
}

impl Deal {
    /// The deal with these numbers, or none where they are not the numbers 0 to 255, each once.
    pub fn new(numbers: [u8; ROWS_MAX]) -> Option<Deal>
        ensures { SomeIff result (IsDeal numbers) numbers }
    {
        if !are_distinct(&numbers) {
            return None;
        }
        Some(Deal { numbers })
    }

    /// The deal that begins with this number and goes up cyclically.
    pub fn from_first(first: u8) -> Deal
        ensures { result ≡ deal_from first }
    {
        let mut numbers = [0; ROWS_MAX];
        for place in 0..ROWS_MAX {
            numbers[place] = first.wrapping_add(place as u8);
        }
        Deal { numbers }
    }

    /// The numbers, in their order.
    pub fn numbers(&self) -> &[u8]
        ensures numbers { result.now ≡ self.now }
        ensures kept { IsDeal self.now }
    {
        &self.numbers
    }

    /// That each number is dealt once. It does nothing: its contract is what counts.
    pub fn numbers_are_dealt(&self)
        ensures { IsDeal self.now }
    {
        self.numbers();
    }
}
