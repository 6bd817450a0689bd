//! A body of version 2: a ceiling, a count of peers and eight places for endpoints, and then the bitwise
//! complement of these bytes.

ghost use Rattle.std.specs.Prelude.{◌≡◌, ◌<◌, ◌≤◌, ◌+◌, ◌*◌, ◌^◌, ◌%◌, ◌&&◌, ◌++◌, ◌∷◌, [], ℕ, List, nat_lt, length, map, drop, replicate, Option, Some, None, if◌then◌else◌, All, IfSome};
ghost use Rattle.std.specs.List.{flat_map};
ghost use Rattle.byteorder.specs.Endian.{big_bytes, big_number};
ghost use Rattle.arrayvec.specs.ArrayVec.{array_vec_len};
ghost use Rattle.swim_state.specs.File.{said};
ghost use Rattle.swim_state.specs.Second.{ArePeers, ascend, body, complement, endpoints, plain, version_2};
ghost use Rattle.swim_state.specs.declared.peers.TheConstants.{PEERS_MAX};

use crate::layout::Saved;
use crate::peers::{PEERS_MAX, Peers};
use arrayvec::ArrayVec;
use byteorder::{BigEndian, ByteOrder};
use swim_wire::{Endpoint, NUMBER_MAX};

/// How many bytes a body has.
pub(crate) const BODY_SIZE: usize = 114;

/// Where the count of peers stands, and the first of the eight places.
const COUNT_AT: usize = 8;

const PEERS_AT: usize = 9;

/// How many bytes an endpoint has.
const PEER_SIZE: usize = 6;

/// Appends the bytes, for which there is room.
fn append(out: &mut ArrayVec<u8, BODY_SIZE>, bytes: &[u8])
    requires { array_vec_len out.old + length bytes.now ≤ 114 }
    ensures { out.new.items ≡ out.old.items ++ bytes.now }
{
    if out.try_extend_from_slice(bytes).is_err() {
        unreachable!()
    }
}

/// Appends an endpoint.
fn append_peer(out: &mut ArrayVec<u8, BODY_SIZE>, peer: Endpoint)
    requires { array_vec_len out.old + 6 ≤ 114 }
    ensures text { out.new.items ≡ out.old.items ++ big_bytes 6 peer }
    ensures fits { peer < 2 ^ 48 }
{
    let mut bytes = [0; PEER_SIZE];
    BigEndian::write_u48(&mut bytes, peer.number());
    append(out, &bytes);
}

/// Appends endpoints, for which there is room.
fn append_peers(out: &mut ArrayVec<u8, BODY_SIZE>, peers: &[Endpoint])
    requires { array_vec_len out.old + 6 * length peers.now ≤ 114 }
    ensures text { out.new.items ≡ out.old.items ++ flat_map (big_bytes 6) peers.now }
    ensures fit { All (λ peer. peer < 2 ^ 48) peers.now }
{
    for &peer in peers {
        append_peer(out, peer);
    }
}

/// Appends places that aren't used.
fn append_unused(out: &mut ArrayVec<u8, BODY_SIZE>, count: usize)
    requires { array_vec_len out.old + 6 * count ≤ 114 }
    ensures { out.new.items ≡ out.old.items ++ flat_map (big_bytes 6) (replicate count 0) }
{
    for _ in 0..count {
        append(out, &[0; PEER_SIZE]);
    }
}

/// Appends the complement of these bytes, for which there is room.
fn append_complement(out: &mut ArrayVec<u8, BODY_SIZE>, bytes: &[u8])
    requires { array_vec_len out.old + length bytes.now ≤ 114 }
    ensures { out.new.items ≡ out.old.items ++ complement bytes.now }
{
    for &byte in bytes {
        out.push(!byte);
    }
}

/// The bytes before the complement.
fn encode_plain(saved: &Saved) -> ArrayVec<u8, BODY_SIZE>
    ensures bytes { result.items ≡ plain saved.now }
    ensures fit { All (λ peer. peer < 2 ^ 48) saved.now.peers }
    ensures len { array_vec_len result ≡ 57 }
{
    let mut ceiling = [0; 8];
    BigEndian::write_u64(&mut ceiling, saved.ceiling);
    let peers = saved.peers.as_slice();
    let mut out = ArrayVec::new();
    append(&mut out, &ceiling);
    append(&mut out, &[peers.len() as u8]);
    append_peers(&mut out, peers);
    append_unused(&mut out, PEERS_MAX - peers.len());
    out
}

/// The body that says this.
#[tactic(auto, unfolding(crate::specs::Second::body))]
pub(crate) fn encode(saved: &Saved) -> ArrayVec<u8, BODY_SIZE>
    ensures bytes { result.items ≡ body saved.now }
    ensures fit { All (λ peer. peer < 2 ^ 48) saved.now.peers }
{
    let mut out = encode_plain(saved);
    append_complement(&mut out, encode_plain(saved).as_slice());
    out
}

/// The endpoint at this offset, or none where it isn't above the one before it or has port 0.
fn peer_at(body: &[u8], at: usize, before: u64) -> Option<Endpoint>
    requires { at + 6 ≤ length body.now }
    ensures { result ≡ (let n = big_number 6 (drop at body.now) in
        if nat_lt before n && nat_lt 0 (n % 65536) then Some n else None) }
{
    let number = BigEndian::read_u48(&body[at..]);
    if number <= before {
        return None;
    }
    Endpoint::new((number / 65_536) as u32, (number % 65_536) as u16)
}

/// The peers in a body that has this count of them, or none where they don't ascend.
fn peers_at(body: &[u8], count: usize) -> Option<Peers>
    requires few { count ≤ PEERS_MAX }
    requires size { length body.now ≡ 114 }
    ensures { result ≡ (let peers = endpoints count (drop 9 body.now) in
        if ascend 0 peers then Some peers else None) }
{
    let mut peers = Peers::none();
    let mut before = 0;
    for i in 0..count {
        let peer = match peer_at(body, PEERS_AT + PEER_SIZE * i, before) {
            Some(peer) => peer,
            None => return None,
        };
        peers.push(peer);
        before = peer.number();
    }
    Some(peers)
}

/// What a body says, or none where it isn't good.
pub(crate) fn decode(body: &[u8]) -> Option<Saved>
    requires { length body.now ≡ 114 }
    ensures said { result ≡ said version_2 body.now }
    ensures stands { IfSome result (λ s. s.ceiling ≤ NUMBER_MAX × ArePeers s.peers) }
{
    let ceiling = BigEndian::read_u64(body);
    let count = body[COUNT_AT] as usize;
    if ceiling > NUMBER_MAX {
        return None;
    }
    if count > PEERS_MAX {
        return None;
    }
    let peers = match peers_at(body, count) {
        Some(peers) => peers,
        None => return None,
    };
    let saved = Saved { ceiling, peers };
    if encode(&saved).as_slice() != body {
        return None;
    }
    Some(saved)
}
