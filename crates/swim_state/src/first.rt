//! A body of version 1: a ceiling and its bitwise complement.

ghost use Rattle.std.specs.Prelude.{◌≡◌, ◌≤◌, ◌^◌, length, IfSome};
ghost use Rattle.swim_state.specs.File.{said};
ghost use Rattle.swim_state.specs.First.{body_alone, is_good_alone, version_1};
ghost use Rattle.swim_state.specs.Second.{ArePeers};

use crate::layout::Saved;
use crate::peers::Peers;
use byteorder::{BigEndian, ByteOrder};
use swim_wire::NUMBER_MAX;

/// How many bytes a body has.
pub(crate) const BODY_SIZE: usize = 16;

/// Whether the complement agrees with a ceiling that may stand.
fn is_good(body: &[u8]) -> bool
    requires { length body.now ≡ 16 }
    ensures { result ≡ is_good_alone body.now }
{
    let ceiling = BigEndian::read_u64(body);
    BigEndian::read_u64(&body[8..]) == !ceiling && ceiling <= NUMBER_MAX
}

/// What a body says, or none where it isn't good.
pub(crate) fn decode(body: &[u8]) -> Option<Saved>
    requires { length body.now ≡ 16 }
    ensures said { result ≡ said version_1 body.now }
    ensures stands { IfSome result (λ s. s.ceiling ≤ NUMBER_MAX × ArePeers s.peers) }
{
    if !is_good(body) {
        return None;
    }
    Some(Saved {
        ceiling: BigEndian::read_u64(body),
        peers: Peers::none(),
    })
}

/// The body with this ceiling.
#[tactic(auto, unfolding(crate::specs::First::body_alone))]
pub(crate) fn encode(ceiling: u64) -> [u8; BODY_SIZE]
    ensures { result ≡ body_alone ceiling }
{
    let mut bytes = [0; BODY_SIZE];
    BigEndian::write_u64(&mut bytes, ceiling);
    BigEndian::write_u64(&mut bytes[8..], !ceiling);
    bytes
}
