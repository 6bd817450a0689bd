//! Where the bytes of a file depart from the format.

ghost use Rattle.std.specs.Prelude.{◌≡◌, ◌<◌, ◌≤◌, ◌+◌, ◌*◌, ◌∷◌, [], length, false, All, IfOk, OnOk};
ghost use Rattle.swim_show.specs.Departing.{IsThere, wanted_size};
ghost use Rattle.swim_show.specs.declared.departing.Departure.TheVariants.{Short};
ghost use Rattle.swim_state.specs.File.{layout_of};

use crate::shown::ENDPOINT_AT;
use byteorder::{BigEndian, ByteOrder};
use std::alloc::{AllocError, Global};
use swim_state::{PEERS_MAX, Reading, Slot, Version, slots_in, version_of};
use swim_wire::NUMBER_MAX;

/// The first ten bytes of each file.
pub(crate) const LETTERS: [u8; 10] = *b"SWIMSTAT\x00\x01";

/// How many bytes an endpoint has.
const PEER_SIZE: usize = 6;

/// Where the count of peers stands in a body of version 2, before their places.
const COUNT_AT: usize = 8;

/// A place where a file departs from the format. Offsets are from the beginning of the file.
#[derive(Clone, Copy, Debug, PartialEq, Eq)]
pub enum Departure {
    /// The file ends before the last byte of its version.
    Short {
        /// How many bytes are looked at.
        is: u64,
        /// How many its version has.
        wanted: u64,
    },
    /// A byte is another one than has to stand there.
    Byte {
        /// Its offset.
        at: u64,
        /// What stands there.
        is: u8,
        /// What has to stand there.
        wanted: u8,
    },
    /// A ceiling is above 2^62.
    Ceiling {
        /// Its offset.
        at: u64,
        /// The ceiling.
        number: u64,
    },
    /// A slot has more than eight peers.
    Count {
        /// The offset of their count.
        at: u64,
        /// The count.
        count: u8,
    },
    /// An endpoint has port 0.
    Port {
        /// Its offset.
        at: u64,
    },
    /// A peer is not above the one before it.
    Order {
        /// Its offset.
        at: u64,
    },
}

impl Departure {
    /// Where it is: the offset of what is wrong, or where the file ends.
    pub fn offset(&self) -> u64 {
        match *self {
            Departure::Short { is, .. } => is,
            Departure::Byte { at, .. }
            | Departure::Ceiling { at, .. }
            | Departure::Count { at, .. }
            | Departure::Port { at }
            | Departure::Order { at } => at,
        }
    }
}

/// Adds each of the bytes from an offset on that is not the one wanted.
fn add_bytes(
    found: &mut Vec<Departure>,
    image: &[u8],
    at: usize,
    wanted: &[u8],
) -> Result<(), AllocError>
    requires inside { at + length wanted.now ≤ length image.now }
    requires there { All (IsThere image.now) found.old.items }
    ensures there { OnOk result (All (IsThere image.now) found.new.items) }
{
    for (index, &wanted) in wanted.iter().enumerate() {
        let is = image[at + index];
        if is != wanted {
            let at = (at + index) as u64;
            found.push(Departure::Byte { at, is, wanted })?;
        }
    }
    Ok(())
}

/// Adds each byte of the second half of a body that is not the complement of the one in the first.
fn add_complement(
    found: &mut Vec<Departure>,
    image: &[u8],
    at: usize,
    half: usize,
) -> Result<(), AllocError>
    requires inside { at + 2 * half ≤ length image.now }
    requires there { All (IsThere image.now) found.old.items }
    ensures there { OnOk result (All (IsThere image.now) found.new.items) }
{
    for index in at..at + half {
        add_bytes(found, image, index + half, &[!image[index]])?;
    }
    Ok(())
}

/// Adds that the endpoint at an offset has port 0, if it has.
fn add_port(found: &mut Vec<Departure>, image: &[u8], at: usize) -> Result<(), AllocError>
    requires inside { at + 6 ≤ length image.now }
    requires there { All (IsThere image.now) found.old.items }
    ensures there { OnOk result (All (IsThere image.now) found.new.items) }
{
    if BigEndian::read_u48(&image[at..]) % 65_536 == 0 {
        found.push(Departure::Port { at: at as u64 })?;
    }
    Ok(())
}

/// Adds what is wrong with the peer at an offset. The one before it, if it is not the first, has the six bytes before its own.
fn add_peer(
    found: &mut Vec<Departure>,
    image: &[u8],
    at: usize,
    is_first: bool,
) -> Result<(), AllocError>
    requires inside { at + 6 ≤ length image.now }
    requires before { is_first ≡ false → 6 ≤ at }
    requires there { All (IsThere image.now) found.old.items }
    ensures there { OnOk result (All (IsThere image.now) found.new.items) }
{
    add_port(found, image, at)?;
    let peer = BigEndian::read_u48(&image[at..]);
    if !is_first && peer <= BigEndian::read_u48(&image[at - PEER_SIZE..]) {
        found.push(Departure::Order { at: at as u64 })?;
    }
    Ok(())
}

/// Adds what is wrong with the peers from an offset on, of which there are so many.
fn add_peers(
    found: &mut Vec<Departure>,
    image: &[u8],
    at: usize,
    count: usize,
) -> Result<(), AllocError>
    requires inside { at + 6 * count ≤ length image.now }
    requires there { All (IsThere image.now) found.old.items }
    ensures there { OnOk result (All (IsThere image.now) found.new.items) }
{
    for index in 0..count {
        add_peer(found, image, at + PEER_SIZE * index, index == 0)?;
    }
    Ok(())
}

/// Adds what is wrong with the count of peers at an offset, and with the eight places after it.
fn add_places(found: &mut Vec<Departure>, image: &[u8], at: usize) -> Result<(), AllocError>
    requires inside { at + 49 ≤ length image.now }
    requires there { All (IsThere image.now) found.old.items }
    ensures there { OnOk result (All (IsThere image.now) found.new.items) }
{
    let count = image[at];
    if count as usize > PEERS_MAX {
        found.push(Departure::Count {
            at: at as u64,
            count,
        })?;
        return Ok(());
    }
    let used = PEER_SIZE * count as usize;
    add_peers(found, image, at + 1, count as usize)?;
    let unused = [0; PEER_SIZE * PEERS_MAX];
    add_bytes(found, image, at + 1 + used, &unused[used..])
}

/// Adds what is wrong with the body of a slot.
fn add_body(
    found: &mut Vec<Departure>,
    image: &[u8],
    version: Version,
    slot: Slot,
) -> Result<(), AllocError>
    requires whole { (layout_of version).file_size ≤ length image.now }
    requires there { All (IsThere image.now) found.old.items }
    ensures there { OnOk result (All (IsThere image.now) found.new.items) }
{
    let at = slot.body(version) as usize;
    add_complement(found, image, at, version.body_size() / 2)?;
    let number = BigEndian::read_u64(&image[at..]);
    if number > NUMBER_MAX {
        found.push(Departure::Ceiling {
            at: at as u64,
            number,
        })?;
    }
    match version {
        Version::One => Ok(()),
        Version::Two => add_places(found, image, at + COUNT_AT),
    }
}

/// Adds what is wrong with the head of a file that is not too short.
fn add_head(found: &mut Vec<Departure>, image: &[u8]) -> Result<(), AllocError>
    requires whole { 16385 ≤ length image.now }
    requires there { All (IsThere image.now) found.old.items }
    ensures there { OnOk result (All (IsThere image.now) found.new.items) }
{
    add_bytes(found, image, 0, &LETTERS)?;
    add_port(found, image, ENDPOINT_AT)
}

/// The places where a file with these bytes departs from the format: each is there. A shut slot has none, whatever its
/// body holds. Err: there was no memory.
pub fn departures(alloc: Global, image: &[u8]) -> Result<Vec<Departure>, AllocError>
    ensures there { IfOk result (λ found. All (IsThere image.now) found.items) }
    // of a file that is too short this alone is told
    ensures short { length image.now < wanted_size image.now
        → IfOk result (λ found. found.items
        ≡ Short (length image.now) (wanted_size image.now) ∷ []) }
{
    let mut found = Vec::new(alloc);
    let version = version_of(image);
    let (is, wanted) = (image.len() as u64, version.size());
    if is < wanted {
        found.push(Departure::Short { is, wanted })?;
        return Ok(found);
    }
    add_head(&mut found, image)?;
    let slots = slots_in(image);
    if slots.a == Reading::Damaged {
        add_body(&mut found, image, version, Slot::A)?;
    }
    if slots.b == Reading::Damaged {
        add_body(&mut found, image, version, Slot::B)?;
    }
    Ok(found)
}
