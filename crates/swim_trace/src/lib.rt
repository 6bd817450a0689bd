//! A list that only proofs read.
#![tactic(auto)]

ghost use Rattle.std.specs.Prelude.{◌≡◌, [], ◌∷◌, ◌++◌};

use http_server::Log;
use std::marker::Model;

/// The same with two things at each place, which contracts see as the list `items` of pairs.
pub use http_server::Log as Pairs;

/// What was done, in order. It has no bytes, and its methods do nothing when a program runs. Contracts see it as the list.
#[derive(Drop)]
pub struct Trace<A> {
    log: Log<A, ()>,
}

impl<A> Model for Trace<A> {
    ghost use Rattle.std.specs.Prelude.{List};
    ghost use Rattle.swim_trace.specs.Items.{firsts};

    ghost Value = { List A };

    ghost view = { λ t. firsts t.log.items };
}

impl<A> Trace<A> {
    /// Nothing was done yet.
    pub fn new() -> Trace<A>
        ensures { result ≡ [] }
    {
        Trace { log: Log::new() }
    }

    /// These were done, in their order.
    pub fn of(items: &[A]) -> Trace<A>
        ensures { result ≡ items.now }
    {
        let mut trace = Trace::new();
        for item in items {
            trace = trace.and(item);
        }
        trace
    }

    /// The same, and then this.
    #[tactic(auto, using(crate::proofs::Lists::firsts_append))]
    pub fn and(&self, last: &A) -> Trace<A>
        ensures { result ≡ self.now ++ last.now ∷ [] }
    {
        Trace {
            log: self.log.and(last, &()),
        }
    }
}
