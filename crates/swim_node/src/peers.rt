//! Whom the member knows, as the state file keeps it.

ghost use Rattle.std.specs.Prelude.{◌≡◌};
ghost use Rattle.swim_state.specs.Second.{ArePeers};
ghost use Rattle.swim_node.specs.Peers.{known_peers};

use swim_member::Member;
use swim_state::{PEERS_MAX, Peers};

/// The first eight members that are Alive or Suspect, in the order of their endpoints.
pub(crate) fn known_peers(member: &Member) -> Peers
    ensures value { result ≡ known_peers member.now }
    ensures peers { ArePeers result }
{
    let mut peers = Peers::none();
    for number in 0..PEERS_MAX {
        match member.eligible(number) {
            Some(row) => {
                let who = row.who();
                who.is_above_zero();
                peers.push(who);
            }
            None => return peers,
        }
    }
    peers
}
