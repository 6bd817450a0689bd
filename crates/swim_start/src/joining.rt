//! Whom a member joins.

ghost use Rattle.std.specs.Prelude.{◌≡◌, ◌+◌, ◌≤◌, ◌++◌, ◌<◌, ◌∷◌, [], ℕ, List, length};
ghost use Rattle.swim_start.specs.Starting.{once, others, peers_to_join};

use arrayvec::ArrayVec;
use swim_join::LIST_MAX;
use swim_wire::Endpoint;

/// Adds a peer that is not the member itself and not there yet.
fn add_peer(peers: &mut ArrayVec<Endpoint, LIST_MAX>, me: Endpoint, peer: Endpoint)
    requires { length peers.old.items < LIST_MAX }
    ensures added { (told : List ℕ) → peers.old.items ≡ once (others me told)
        → peers.new.items ≡ once (others me (told ++ peer ∷ [])) }
    ensures few { length peers.new.items ≤ length peers.old.items + 1 }
{
    if peer != me && !peers.contains(&peer) {
        peers.push(peer);
    }
}

/// Adds those of these peers that are not the member itself and not there yet.
fn add_peers(peers: &mut ArrayVec<Endpoint, LIST_MAX>, me: Endpoint, more: &[Endpoint])
    requires { length peers.old.items + length more.now ≤ LIST_MAX }
    ensures added { (told : List ℕ) → peers.old.items ≡ once (others me told)
        → peers.new.items ≡ once (others me (told ++ more.now)) }
    ensures few { length peers.new.items ≤ length peers.old.items + length more.now }
{
    for peer in more {
        add_peer(peers, me, *peer);
    }
}

/// Whom the member joins: the listed peers, and then the stored ones, each once, without itself.
pub fn peers_of(
    me: Endpoint,
    listed: &[Endpoint],
    stored: &[Endpoint],
) -> ArrayVec<Endpoint, LIST_MAX>
    requires { length listed.now + length stored.now ≤ LIST_MAX }
    ensures { result.items ≡ peers_to_join me listed.now stored.now }
{
    let mut peers = ArrayVec::new();
    add_peers(&mut peers, me, listed);
    add_peers(&mut peers, me, stored);
    peers
}
