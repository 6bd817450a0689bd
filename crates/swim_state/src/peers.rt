//! Whom a member knew.

use std::marker::Model;
use swim_wire::Endpoint;

/// The most peers that a state file holds.
pub const PEERS_MAX: usize = 8;

/// At most eight endpoints.
#[derive(Clone, Copy, Debug, PartialEq, Eq)]
pub struct Peers {
    count: usize,
    /// The peers, and the least endpoint in each place after them.
    places: [Endpoint; PEERS_MAX],
}

impl Model for Peers {
    ghost use Rattle.std.specs.Prelude.{ℕ, List, take, length};
    ghost use Rattle.swim_state.specs.Machinery.Padding.{IsPadded, padded, count_back, places_back};

    ghost Value = { List ℕ };

    ghost view = { λ p. take p.count p.places };

    ghost invariant = { λ p. IsPadded p.count p.places };

    ghost inverse = { λ xs. record { count = length xs; places = padded xs } };

    ghost inverse_ok = { λ p is i. record {
      count = count_back p.count p.places is i;
      places = places_back p.count p.places is i;
    } };
}

impl Peers {
    ghost use Rattle.std.specs.Prelude.{◌≡◌, ◌<◌, ◌≤◌, ◌∷◌, ◌++◌, [], length};
    ghost use Rattle.swim_state.specs.declared.peers.TheConstants.{PEERS_MAX};

    /// No peers.
    pub fn none() -> Peers
        ensures { result ≡ [] }
    {
        Peers {
            count: 0,
            places: [Endpoint::default(); PEERS_MAX],
        }
    }

    /// Adds one, for which there is room.
    pub fn push(&mut self, peer: Endpoint)
        requires { length self.old < PEERS_MAX }
        ensures { self.new ≡ self.old ++ peer ∷ [] }
    {
        self.places[self.count] = peer;
        self.count += 1;
    }

    /// These endpoints.
    pub fn of(peers: &[Endpoint]) -> Peers
        requires { length peers.now ≤ PEERS_MAX }
        ensures { result ≡ peers.now }
    {
        let mut all = Peers::none();
        for &peer in peers {
            all.push(peer);
        }
        all
    }

    /// The peers, in order.
    pub fn as_slice(&self) -> &[Endpoint]
        ensures peers { result.now ≡ self.now }
        ensures few { length result.now ≤ PEERS_MAX }
    {
        &self.places[..self.count]
    }
}
