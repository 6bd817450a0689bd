//! The words of a line that are bytes, as hex digits.

ghost use Rattle.std.specs.Prelude.{◌≡◌, ◌∷◌, [], take, Ok, IfOk, IfErr};
ghost use Rattle.hex.specs.Hex.{decode_of};
ghost use Rattle.swim_script.specs.Bytes.{Refuses, IsBytes, IsCut};

use crate::fault::FaultKind;
use arrayvec::ArrayVec;
use hex::FromHexError;
use std::alloc::Global;
use swim_member::RECEIVED_MAX;

/// The most bytes that a hex word spells.
const HEX_MAX: usize = 600;

/// Bytes as hex digits, two a byte in either case.
fn decode_hex(alloc: Global, word: &[u8]) -> Result<Vec<u8>, FaultKind>
    ensures bytes { IfOk result (λ bytes. decode_of word.now ≡ Ok bytes.items) }
    ensures none { IfErr result (λ kind. Refuses kind (λ bytes. decode_of word.now ≡ Ok bytes)) }
{
    match hex::decode(alloc, word) {
        Ok(bytes) => Ok(bytes),
        Err(FromHexError::OutOfMemory) => Err(FaultKind::NoMemory),
        Err(_) => Err(FaultKind::Argument),
    }
}

/// As many of the bytes as a member keeps of a datagram.
fn cut(bytes: &[u8]) -> ArrayVec<u8, RECEIVED_MAX>
    ensures { result.items ≡ take RECEIVED_MAX bytes.now }
{
    let mut cut = ArrayVec::new();
    for byte in bytes {
        if cut.is_full() {
            return cut;
        }
        cut.push(*byte);
    }
    cut
}

/// Bytes as hex digits; `-` for none.
pub(crate) fn read_bytes(alloc: Global, word: &[u8]) -> Result<Vec<u8>, FaultKind>
    ensures bytes { IfOk result (λ bytes. IsBytes word.now bytes.items) }
    ensures none { IfErr result (λ kind. Refuses kind (IsBytes word.now)) }
{
    if word == b"-".as_slice() {
        return Ok(Vec::new(alloc));
    }
    if word.is_empty() {
        return Err(FaultKind::Argument);
    }
    decode_hex(alloc, word)
}

/// The byte that two hex digits spell.
pub(crate) fn read_hex_byte(alloc: Global, word: &[u8]) -> Result<u8, FaultKind>
    ensures byte { IfOk result (λ byte. decode_of word.now ≡ Ok (byte ∷ [])) }
    ensures none { IfErr result (λ kind.
        Refuses kind (λ byte. decode_of word.now ≡ Ok (byte ∷ []))) }
{
    let bytes = decode_hex(alloc, word)?;
    match bytes.as_slice() {
        [byte] => Ok(*byte),
        _ => Err(FaultKind::Argument),
    }
}

/// The bytes of a datagram, at most 600 of which 513 are kept; `-` for none.
pub(crate) fn read_hex(alloc: Global, word: &[u8]) -> Result<ArrayVec<u8, RECEIVED_MAX>, FaultKind>
    ensures bytes { IfOk result (λ bytes. IsCut word.now bytes.items) }
    ensures none { IfErr result (λ kind. Refuses kind (IsCut word.now)) }
{
    if word.len() > 2 * HEX_MAX {
        return Err(FaultKind::Argument);
    }
    let bytes = read_bytes(alloc, word)?;
    Ok(cut(&bytes))
}
