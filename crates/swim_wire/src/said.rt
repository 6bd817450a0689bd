//! What received bytes say of the number of a member, read where it stands.

ghost use Rattle.std.specs.Prelude.{◌≡◌, ◌≤◌, length, drop, slice_index};
ghost use Rattle.swim_wire.specs.Faults.{IsCounted};
ghost use Rattle.swim_wire.specs.Updates.{update_of};
ghost use Rattle.swim_wire.specs.Reading.{updates_of};
ghost use Rattle.swim_wire.specs.Decoding.{decoded};
ghost use Rattle.swim_wire.specs.Said.{number_of, greatest_said, number_said};

use crate::endpoint::Endpoint;
use crate::head::{count_of, has_no_updates, shape_fault};
use crate::reading::{field_fault, update_at};
use crate::update::{number_in, who_in};

/// The number that the update with which the bytes begin says of a member, or 0.
fn number_of(bytes: &[u8], about: Endpoint) -> u64
    requires { 16 ≤ length bytes.now }
    ensures { result ≡ number_of about (update_of bytes.now) }
{
    if who_in(bytes) == about.number() {
        number_in(bytes)
    } else {
        0
    }
}

/// The greatest number that the updates after the head say of a member, or 0.
fn greatest_said(bytes: &[u8], about: Endpoint) -> u64
    requires { IsCounted bytes.now }
    ensures { result
        ≡ greatest_said about (updates_of (slice_index bytes.now 6) (drop 32 bytes.now)) }
{
    let mut greatest = 0;
    for i in 0..count_of(bytes) {
        greatest = number_of(update_at(bytes, i), about).max(greatest);
    }
    greatest
}

/// The greatest number that received bytes say of a member, or 0, and 0 where they spell no datagram. Most say none: their updates are
/// judged only where they say one, and those of most pings, which have none, cost a look at their count.
pub fn number_said(bytes: &[u8], about: Endpoint) -> u64
    ensures { result ≡ number_said about (decoded bytes.now) }
{
    if has_no_updates(bytes) || shape_fault(bytes).is_some() {
        return 0;
    }
    let greatest = greatest_said(bytes, about);
    if greatest == 0 || field_fault(bytes).is_some() {
        return 0;
    }
    greatest
}
