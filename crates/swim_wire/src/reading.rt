//! Bytes to a datagram.

ghost use Rattle.std.specs.Prelude.{◌≡◌, ℕ, ◌+◌, ◌*◌, ◌≤◌, ◌↔◌, [], length, drop, slice_index, Ok, Err, Some, IsTrue, IfSome, IfNone, IfErr, OnOk, OnErr};
ghost use Rattle.swim_wire.specs.declared.datagram.Datagram.{Datagram as Datagrams};
ghost use Rattle.swim_wire.specs.declared.fault.WireFault.{WireFault as Faults};
ghost use Rattle.swim_wire.specs.Updates.{HasReservedUpdate, HasNoMember, HasUnknownCode, HasGreatNumber};
ghost use Rattle.swim_wire.specs.Spelling.{Spells};
ghost use Rattle.swim_wire.specs.Faults.{SomeUpdate, HasReserved, HasNoEndpoint, HasNoneBelow, IsFirstFault, IsFaultless, IsCounted, from_update};
ghost use Rattle.swim_wire.specs.Reading.{updates_of, datagram_of};
ghost use Rattle.swim_wire.specs.Decoding.{decoded};

use crate::datagram::{Datagram, UPDATES_MAX};
use crate::fault::WireFault;
use crate::head::{
    HEAD_LEN, Head, count_of, has_no_sender, has_no_subject, has_reserved_head, shape_fault,
};
use crate::update::{
    GreatNumber, NoMember, ReservedByte, UPDATE_LEN, UnknownCode, Update, UpdateFault, is_well,
};
use arrayvec::ArrayVec;

/// The bytes from update `i` on.
pub(crate) fn update_at(bytes: &[u8], i: usize) -> &[u8]
    requires { 32 + 16 * i + 16 ≤ length bytes.now }
    ensures text { result.now ≡ from_update i bytes.now }
    ensures whole { 16 ≤ length result.now }
{
    &bytes[HEAD_LEN + UPDATE_LEN * i..]
}

/// Whether some update has this fault.
fn some_update<F: UpdateFault>(bytes: &[u8], count: usize) -> bool
    requires { length bytes.now ≡ 32 + 16 * count }
    ensures { IsTrue result ↔ SomeUpdate F.Faulty bytes.now }
{
    for i in 0..count {
        if F::is_in(update_at(bytes, i)) {
            return true;
        }
    }
    false
}

/// Whether no update has any fault.
fn are_updates_well(bytes: &[u8], count: usize) -> bool
    requires { length bytes.now ≡ 32 + 16 * count }
    ensures reserved { IsTrue result → ¬ SomeUpdate HasReservedUpdate bytes.now }
    ensures member { IsTrue result → ¬ SomeUpdate HasNoMember bytes.now }
    ensures kind { IsTrue result → ¬ SomeUpdate HasUnknownCode bytes.now }
    ensures number { IsTrue result → ¬ SomeUpdate HasGreatNumber bytes.now }
{
    for i in 0..count {
        if !is_well(update_at(bytes, i)) {
            return false;
        }
    }
    true
}

/// Whether a byte of the head or of an update that has to be 0 is not.
fn has_reserved(bytes: &[u8], count: usize) -> bool
    requires { length bytes.now ≡ 32 + 16 * count }
    ensures { IsTrue result ↔ HasReserved bytes.now }
{
    has_reserved_head(bytes) || some_update::<ReservedByte>(bytes, count)
}

/// Whether the sender, the subject or the member of an update is no endpoint.
fn has_no_endpoint(bytes: &[u8], count: usize) -> bool
    requires { length bytes.now ≡ 32 + 16 * count }
    ensures { IsTrue result ↔ HasNoEndpoint bytes.now }
{
    if has_no_sender(bytes) {
        return true;
    }
    if has_no_subject(bytes) {
        return true;
    }
    some_update::<NoMember>(bytes, count)
}

/// Whether no field of the head or of an update is faulty, by one look at each update.
fn are_fields_well(bytes: &[u8]) -> bool
    requires none { HasNoneBelow 7 bytes.now }
    requires counted { IsCounted bytes.now }
    ensures { IsTrue result → IsFaultless bytes.now }
{
    if has_reserved_head(bytes) || has_no_sender(bytes) || has_no_subject(bytes) {
        return false;
    }
    are_updates_well(bytes, count_of(bytes))
}

/// The first fault of the fields, by a look at all updates for each kind of fault. Only faulty bytes are looked at so.
#[cold]
fn ordered_fault(bytes: &[u8]) -> Option<WireFault>
    requires none { HasNoneBelow 7 bytes.now }
    requires counted { IsCounted bytes.now }
    ensures some { IfSome result (λ fault. IsFirstFault fault bytes.now) }
    ensures none { IfNone result (IsFaultless bytes.now) }
{
    let count = count_of(bytes);
    if has_reserved(bytes, count) {
        return Some(WireFault::Reserved);
    }
    if has_no_endpoint(bytes, count) {
        return Some(WireFault::Endpoint);
    }
    if some_update::<UnknownCode>(bytes, count) {
        return Some(WireFault::UpdateKind);
    }
    if some_update::<GreatNumber>(bytes, count) {
        return Some(WireFault::Number);
    }
    None
}

/// The first fault of the fields, in bytes whose length is that of their count.
pub(crate) fn field_fault(bytes: &[u8]) -> Option<WireFault>
    requires none { HasNoneBelow 7 bytes.now }
    requires counted { IsCounted bytes.now }
    ensures some { IfSome result (λ fault. IsFirstFault fault bytes.now) }
    ensures none { IfNone result (IsFaultless bytes.now) }
    ensures counted { IfNone result (IsCounted bytes.now) }
{
    if are_fields_well(bytes) {
        return None;
    }
    ordered_fault(bytes)
}

/// The first fault of the bytes, in the order of `WireFault`, or none where they are a datagram.
fn first_fault(bytes: &[u8]) -> Option<WireFault>
    ensures some { IfSome result (λ fault. IsFirstFault fault bytes.now) }
    ensures none { IfNone result (IsFaultless bytes.now) }
    ensures counted { IfNone result (IsCounted bytes.now) }
{
    if let Some(fault) = shape_fault(bytes) {
        return Some(fault);
    }
    field_fault(bytes)
}

/// Reads the first updates after the head over those of a list, which has no more.
fn read_over(bytes: &[u8], updates: &mut [Update])
    requires faultless { IsFaultless bytes.now }
    requires counted { IsCounted bytes.now }
    requires few { length updates.old ≤ slice_index bytes.now 6 }
    ensures { updates.new ≡ updates_of (length updates.old) (drop 32 bytes.now) }
{
    for i in 0..updates.len() {
        updates[i] = Update::from_bytes(update_at(bytes, i));
    }
}

/// Appends the updates after the head to a list that has the first of them.
fn read_rest(bytes: &[u8], updates: &mut ArrayVec<Update, UPDATES_MAX>)
    requires faultless { IsFaultless bytes.now }
    requires counted { IsCounted bytes.now }
    requires few { length updates.old.items ≤ slice_index bytes.now 6 }
    requires first { updates.old.items ≡ updates_of (length updates.old.items) (drop 32 bytes.now) }
    ensures { updates.new.items ≡ updates_of (slice_index bytes.now 6) (drop 32 bytes.now) }
{
    for i in updates.len()..count_of(bytes) {
        updates.push(Update::from_bytes(update_at(bytes, i)));
    }
}

/// Reads the updates after the head into a list, over those that it has: so only places that are left over are cleared.
fn read_updates(bytes: &[u8], updates: &mut ArrayVec<Update, UPDATES_MAX>)
    requires faultless { IsFaultless bytes.now }
    requires counted { IsCounted bytes.now }
    ensures { updates.new.items ≡ updates_of (slice_index bytes.now 6) (drop 32 bytes.now) }
{
    updates.truncate(count_of(bytes));
    read_over(bytes, updates);
    read_rest(bytes, updates);
}

/// Reads the datagram that bytes without a fault spell, into a place that has another one.
fn read_into(bytes: &[u8], place: &mut Datagram)
    requires faultless { IsFaultless bytes.now }
    requires counted { IsCounted bytes.now }
    ensures { place.new ≡ datagram_of bytes.now }
{
    let head = Head::from_bytes(bytes);
    place.version = head.version;
    place.kind = head.kind;
    place.group = head.group;
    place.seq = head.seq;
    place.sender = head.sender;
    place.subject = head.subject;
    read_updates(bytes, &mut place.updates);
}

/// Reads the datagram that all of the bytes spell into a place that has another one, or answers the first fault, in the
/// order of `WireFault`. A datagram is large: so it is moved nowhere.
pub fn decode_into(bytes: &[u8], place: &mut Datagram) -> Result<(), WireFault>
    ensures ok { OnOk result (Spells bytes.now place.new) }
    ensures err { (fault : Faults) → (result ≡ Err fault) ↔ IsFirstFault fault bytes.now }
    ensures read { OnOk result (decoded bytes.now ≡ Ok place.new) }
    ensures fault { IfErr result (λ fault. decoded bytes.now ≡ Err fault) }
    // after a fault the place has what it had
    ensures kept { OnErr result (place.new ≡ place.old) }
{
    if let Some(fault) = first_fault(bytes) {
        return Err(fault);
    }
    read_into(bytes, place);
    Ok(())
}

/// The datagram that all of the bytes spell, or the first fault, in the order of `WireFault`.
pub fn decode(bytes: &[u8]) -> Result<Datagram, WireFault>
    ensures ok { (d : Datagrams) → (result ≡ Ok d) ↔ Spells bytes.now d }
    ensures err { (fault : Faults) → (result ≡ Err fault) ↔ IsFirstFault fault bytes.now }
    ensures read { result ≡ decoded bytes.now }
{
    let mut datagram = Datagram::default();
    match decode_into(bytes, &mut datagram) {
        Ok(()) => Ok(datagram),
        Err(fault) => Err(fault),
    }
}
