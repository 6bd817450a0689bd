//! What takes datagrams.

ghost use Rattle.std.specs.Prelude.{◌≡◌, ◌+◌, ◌++◌, ◌∷◌, [], MatchResult};

use swim_wire::Endpoint;

/// A datagram was not sent.
#[derive(Clone, Copy, Debug, PartialEq, Eq)]
pub struct LinkFault;

/// What takes datagrams, one at a time.
pub trait Link {
    ghost use Rattle.std.specs.Prelude.{ℕ, List};
    ghost use Rattle.swim_node.specs.Link.{LinkId};

    /// Which link it is. No call changes it.
    ghost name: { Self → LinkId };

    /// Whether it tells what it took.
    ghost tells: { Type 0 };

    /// What it took, in order: destination and bytes.
    ghost took: { Self → List (ℕ × List ℕ) };

    /// How many sends have failed, without a bound.
    ghost failures: { Self → ℕ };

    /// Sends the bytes of one datagram to an endpoint. A fault says that they did not go out, and nothing more.
    fn send(&mut self, to: Endpoint, bytes: &[u8]) -> Result<(), LinkFault>
        ensures name { name self.new ≡ name self.old }
        ensures failures { MatchResult result (λ _. failures self.new ≡ failures self.old)
            (λ _. failures self.new ≡ failures self.old + 1) }
        ensures took { tells
            → MatchResult result (λ _. took self.new ≡ took self.old ++ (to, bytes.now) ∷ [])
            (λ _. took self.new ≡ took self.old) };
}
