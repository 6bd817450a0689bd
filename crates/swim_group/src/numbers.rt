//! The numbers that one member told of itself.

ghost use Rattle.std.specs.Prelude.{◌≡◌, ◌+◌, ◌<◌, ◌≤◌, ◌↔◌, ◌⊎◌, ℕ, [], length, vec_len, All, Contains, IsTrue, IfSome, IfNone, OnOk, OnErr};
ghost use Rattle.std.specs.Vec.{vec_capacity};
ghost use Rattle.std.specs.List.Sorted.{IsNonDecreasing};
ghost use Rattle.swim_group.specs.Checking.{IsAdded};

use std::alloc::{AllocError, Global};
use std::marker::Model;
use swim_wire::{Endpoint, Update};

/// The numbers that one member told of itself, each once, the least first: so each is found by halving, and the next one
/// mostly goes to the end.
#[derive(Drop)]
pub(crate) struct Numbers {
    rising: Vec<u64>,
}

impl Model for Numbers {
    ghost use Rattle.std.specs.Prelude.{List, ℕ};
    ghost use Rattle.std.specs.List.Sorted.{IsNonDecreasing};

    ghost Value = { List ℕ };

    ghost view = { λ n. n.rising.items };

    ghost invariant = { λ n. IsNonDecreasing n.rising.items };
}

/// Adds this number at its place, if it is new.
fn add(rising: &mut Vec<u64>, number: u64)
    requires sorted { IsNonDecreasing rising.old.items }
    requires room { vec_len rising.old < vec_capacity rising.old }
    ensures sorted { IsNonDecreasing rising.new.items }
    ensures added { (n : ℕ) → Contains rising.new.items n
        ↔ (Contains rising.old.items n ⊎ (n ≡ number)) }
    ensures few { vec_len rising.new ≤ vec_len rising.old + 1 }
    ensures memory { vec_capacity rising.old ≤ vec_capacity rising.new }
{
    let Err(place) = rising.binary_search(&number) else {
        return;
    };
    let Ok(()) = rising.insert(place, number) else {
        unreachable!();
    };
}

/// Adds what this member tells of itself in these updates.
fn add_own(rising: &mut Vec<u64>, who: Endpoint, updates: &[Update])
    requires sorted { IsNonDecreasing rising.old.items }
    requires room { vec_len rising.old + length updates.now ≤ vec_capacity rising.old }
    ensures sorted { IsNonDecreasing rising.new.items }
    ensures added { IsAdded rising.old.items who updates.now rising.new.items }
{
    for i in 0..updates.len() {
        let update = &updates[i];
        if update.who == who {
            add(rising, update.number);
        }
    }
}

impl Numbers {
    /// None yet.
    pub(crate) fn new(alloc: Global) -> Numbers
        ensures { result ≡ [] }
    {
        Numbers {
            rising: Vec::new(alloc),
        }
    }

    /// Whether this is one of them.
    pub(crate) fn has(&self, number: u64) -> bool
        ensures { IsTrue result ↔ Contains self.now number }
    {
        self.rising.binary_search(&number).is_ok()
    }

    /// The greatest of them.
    pub(crate) fn greatest(&self) -> Option<u64>
        ensures some { IfSome result (λ n. Contains self.now n × All (λ m. m ≤ n) self.now) }
        ensures none { IfNone result (self.now ≡ []) }
    {
        self.rising.last().copied()
    }

    /// Adds what this member tells of itself in these updates. Err: there was no memory, and they stay as they were.
    pub(crate) fn add_own(&mut self, who: Endpoint, updates: &[Update]) -> Result<(), AllocError>
        ensures ok { OnOk result (IsAdded self.old who updates.now self.new) }
        ensures err { OnErr result (self.new ≡ self.old) }
    {
        self.rising.reserve(updates.len())?;
        add_own(&mut self.rising, who, updates);
        Ok(())
    }
}
