//! A link in memory that fails by a plan.

ghost use Rattle.std.specs.Prelude.{◌≡◌, ◌+◌, ◌++◌, ◌∷◌, [], Some, None};
ghost use Rattle.swim_node.specs.Link.{is_due, plan_after};

use crate::{Link, LinkFault};
use std::alloc::Global;
use swim_trace::Trace;
use swim_wire::Endpoint;

/// A datagram that a link took.
#[derive(Drop)]
pub struct Taken {
    /// Its destination.
    pub to: Endpoint,
    /// Its text.
    pub bytes: Vec<u8>,
}

/// A link that keeps what it takes, and loses each datagram whose turn the plan names, or for which there is no memory.
#[derive(Drop)]
pub struct MemoryLink {
    number: u64,
    taken: Vec<Taken>,
    loses: Option<u64>,
    failures: Trace<()>,
}

impl MemoryLink {
    ghost use Rattle.std.specs.Prelude.{length};

    /// A link that took nothing yet and loses nothing. The number is its name.
    pub fn new(alloc: Global, number: u64) -> MemoryLink
        ensures taken { result.taken.items ≡ [] }
        ensures failures { result.failures ≡ [] }
        ensures number { result.number ≡ number }
        ensures plan { result.loses ≡ None }
    {
        MemoryLink {
            number,
            taken: Vec::new(alloc),
            loses: None,
            failures: Trace::new(),
        }
    }

    /// What the link took, in order.
    pub fn taken(&self) -> &[Taken]
        ensures { result.now ≡ self.now.taken.items }
    {
        &self.taken
    }

    /// The k-th send from now on fails, and only that one. 0 counts as 1.
    pub fn lose(&mut self, k: u64)
        ensures plan { self.new.loses ≡ Some k }
        ensures rest { (self.new.taken ≡ self.old.taken)
            × (self.new.failures ≡ self.old.failures)
            × (self.new.number ≡ self.old.number) }
    {
        self.loses = Some(k);
    }

    /// Whether the plan loses this send.
    fn is_lost(&mut self) -> bool
        ensures due { result ≡ is_due self.old.loses }
        ensures plan { self.new.loses ≡ plan_after self.old.loses }
        ensures rest { (self.new.taken ≡ self.old.taken)
            × (self.new.failures ≡ self.old.failures)
            × (self.new.number ≡ self.old.number) }
    {
        match self.loses {
            None => false,
            Some(k) if k <= 1 => {
                self.loses = None;
                true
            }
            Some(k) => {
                self.loses = Some(k - 1);
                false
            }
        }
    }

    /// Counts a failure.
    fn failed(&mut self) -> LinkFault
        ensures failures { length self.new.failures ≡ length self.old.failures + 1 }
        ensures rest { (self.new.taken ≡ self.old.taken)
            × (self.new.loses ≡ self.old.loses)
            × (self.new.number ≡ self.old.number) }
    {
        self.failures = self.failures.and(&());
        LinkFault
    }
}

impl Link for MemoryLink {
    ghost use Rattle.std.specs.Prelude.{length, map, true, IsErr, MatchResult};
    ghost use Rattle.swim_node.specs.Link.{link_number, took_by};

    ghost name = { λ l. link_number l.number };

    ghost tells = { Unit {0} };

    ghost took = { λ l. took_by l.taken.items };

    ghost failures = { λ l. length l.failures };

    fn send(&mut self, to: Endpoint, bytes: &[u8]) -> Result<(), LinkFault>
        ensures name { self.new.number ≡ self.old.number }
        ensures failures { MatchResult result
            (λ _. length self.new.failures ≡ length self.old.failures)
            (λ _. length self.new.failures ≡ length self.old.failures + 1) }
        ensures took { MatchResult result
            (λ _. took_by self.new.taken.items
            ≡ took_by self.old.taken.items ++ (to, bytes.now) ∷ [])
            (λ _. took_by self.new.taken.items ≡ took_by self.old.taken.items) }

        // A datagram whose turn the plan names is not taken.
        ensures due { is_due self.old.loses ≡ true → IsErr result }
        ensures plan { self.new.loses ≡ plan_after self.old.loses }
    {
        if self.is_lost() {
            return Err(self.failed());
        }
        let alloc = *self.taken.allocator();
        let mut kept = Vec::new(alloc);
        if kept.extend_from_slice(bytes).is_err() {
            return Err(self.failed());
        }
        if self.taken.reserve(1).is_err() {
            return Err(self.failed());
        }
        self.taken.push_reserved(Taken { to, bytes: kept });
        Ok(())
    }
}
