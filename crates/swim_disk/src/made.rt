//! What writes make of some bytes, read from the writes themselves.

ghost use Rattle.std.specs.Prelude.{◌≡◌, ◌<◌, ◌≤◌, ◌+◌, ◌∷◌, [], ℕ, List, get_or, length, take, drop, replicate, true, IfOk, IfNone, IfSome, OnOk};
ghost use Rattle.swim_disk.specs.declared.mem.TheConstants.{MOST_BYTES};
ghost use Rattle.swim_disk.specs.Disk.{overlaid};
ghost use Rattle.swim_disk.specs.Machinery.Made.{AreFilled, AreWrites, Covers, IsFilled, made};
ghost use Rattle.swim_disk.specs.Replay.{end_of};

use crate::MOST_BYTES;
use crate::mem::overlay;
use crate::past::Call;
use std::alloc::{AllocError, Global};

/// Where a call's writing ends.
fn end(call: &Call) -> usize
    requires { end_of call.now ≤ MOST_BYTES }
    ensures { result ≡ end_of call.now }
{
    match call {
        Call::Write { at, bytes } => *at as usize + bytes.len(),
        Call::Sync => 0,
    }
}

/// How many bytes there are.
pub(crate) fn count_made(start: &[u8], writes: &[Call]) -> usize
    requires { length (made start.now writes.now) ≤ MOST_BYTES }
    ensures { result ≡ length (made start.now writes.now) }
{
    let mut count = start.len();
    for call in writes {
        count = count.max(end(call));
    }
    count
}

/// The byte that a call writes at this place, if it writes one there.
fn byte_by(call: &Call, place: usize) -> Option<u8>
    ensures some { IfSome result (λ byte. (start : List ℕ)
        → get_or (made start (call.now ∷ [])) place 0 ≡ byte) }
    ensures none { IfNone result ((start : List ℕ)
        → get_or (made start (call.now ∷ [])) place 0 ≡ get_or start place 0) }
{
    match call {
        Call::Write { at, bytes } => {
            let at = *at as usize;
            if at <= place && place - at < bytes.len() {
                Some(bytes[place - at])
            } else {
                None
            }
        }
        Call::Sync => None,
    }
}

/// The byte at this place, or 0 past the end.
fn byte_made(start: &[u8], writes: &[Call], place: usize) -> u8
    ensures { result ≡ get_or (made start.now writes.now) place 0 }
{
    let mut left = writes.len();
    while left > 0 {
        left -= 1;
        if let Some(byte) = byte_by(&writes[left], place) {
            return byte;
        }
    }
    if place < start.len() { start[place] } else { 0 }
}

/// Fills the whole buffer with the bytes from this offset on.
pub(crate) fn read_made(start: &[u8], writes: &[Call], at: usize, buffer: &mut [u8])
    requires size { length (made start.now writes.now) ≤ MOST_BYTES }
    requires within { at + length buffer.old ≤ length (made start.now writes.now) }
    ensures { buffer.new ≡ take (length buffer.old) (drop at (made start.now writes.now)) }
{
    for place in 0..buffer.len() {
        buffer[place] = byte_made(start, writes, at + place);
    }
}

/// Does this call to the bytes. Err: there was no memory.
fn redo(bytes: &mut Vec<u8>, call: &Call) -> Result<(), AllocError>
    requires size { length bytes.old.items ≤ MOST_BYTES }
    requires room { end_of call.now ≤ MOST_BYTES }
    ensures { OnOk result (bytes.new.items ≡ made bytes.old.items (call.now ∷ [])) }
{
    match call {
        Call::Write { at, bytes: written } => overlay(bytes, *at, written),
        Call::Sync => Ok(()),
    }
}

/// All the bytes.
pub(crate) fn bytes_made(
    alloc: Global,
    start: &[u8],
    writes: &[Call],
) -> Result<Vec<u8>, AllocError>
    requires { length (made start.now writes.now) ≤ MOST_BYTES }
    ensures { IfOk result (λ v. v.items ≡ made start.now writes.now) }
{
    let mut bytes = start.to_vec(alloc)?;
    for call in writes {
        redo(&mut bytes, call)?;
    }
    Ok(bytes)
}

/// Whether the first call writes each byte that the second one writes.
fn covers(call: &Call, old: &Call) -> bool
    ensures { result ≡ true → Covers call.now old.now }
{
    match (call, old) {
        (
            Call::Write { at, bytes },
            Call::Write {
                at: from,
                bytes: old,
            },
        ) => {
            *at <= *from
                && *from - *at <= bytes.len() as u64
                && old.len() as u64 <= bytes.len() as u64 - (*from - *at)
        }
        _ => false,
    }
}

/// Whether one of these calls writes each byte that this one writes, so that it may be left out before them.
fn is_covered(call: &Call, later: &[Call]) -> bool
    ensures { result ≡ true → (start : List ℕ)
        → made start (call.now ∷ later.now) ≡ made start later.now }
{
    for other in later {
        if covers(other, call) {
            return true;
        }
    }
    false
}

/// Leaves out the write at this place, if a later one writes each of its bytes.
fn leave_out(writes: &mut Vec<Call>, place: usize)
    requires { place < length writes.old.items }
    ensures made { (start : List ℕ) → made start writes.new.items ≡ made start writes.old.items }
    ensures writes { AreWrites writes.old.items → AreWrites writes.new.items }
    ensures count { place ≤ length writes.new.items }
{
    if is_covered(&writes[place], &writes[place + 1..]) {
        writes.remove(place);
    }
}

/// Leaves out each write of which a later one writes every byte.
pub(crate) fn drop_covered(writes: &mut Vec<Call>)
    ensures made { (start : List ℕ) → made start writes.new.items ≡ made start writes.old.items }
    ensures writes { AreWrites writes.old.items → AreWrites writes.new.items }
{
    let mut place = writes.len();
    while place > 0 {
        place -= 1;
        leave_out(writes, place);
    }
}

/// Puts this byte in place of each.
fn fill(bytes: &mut [u8], byte: u8)
    ensures { bytes.new ≡ replicate (length bytes.old) byte }
{
    for place in 0..bytes.len() {
        bytes[place] = byte;
    }
}

/// Puts this byte in place of each that a call writes.
fn fill_call(call: &mut Call, byte: u8)
    ensures { IsFilled byte call.old call.new }
{
    match call {
        Call::Write { at: _, bytes } => fill(bytes, byte),
        Call::Sync => {}
    }
}

/// Puts this byte in place of each that the calls from this place on write.
pub(crate) fn fill_from(writes: &mut Vec<Call>, from: usize, byte: u8)
    ensures { AreFilled byte from writes.old.items writes.new.items }
{
    for place in from..writes.len() {
        fill_call(&mut writes[place], byte);
    }
}
