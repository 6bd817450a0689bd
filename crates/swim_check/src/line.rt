//! A line of a capture.

ghost use Rattle.std.specs.Prelude.{◌≡◌, ◌⊎◌, Ok, Err, IfOk, IfErr};
ghost use Rattle.hex.specs.Hex.{decode_of};
ghost use Rattle.hex.specs.declared.error.FromHexError.{FromHexError as HexFaults};
ghost use Rattle.swim_check.specs.declared.line.LineFault.TheVariants as fault;
ghost use Rattle.swim_check.specs.Captures.{IsRefused, SaysSent};

use hex::FromHexError;
use std::alloc::Global;
use swim_wire::{Datagram, WireFault, decode};
use swim_words::{read_endpoint, split_at_byte};
use thiserror::Error;

/// Why a line is refused.
#[derive(Clone, Copy, Debug, PartialEq, Eq, Error)]
pub enum LineFault {
    /// The text ends before the end of the line.
    #[error("the last line has no end")]
    Cut,
    /// There is no space between two words.
    #[error("no two words")]
    Words,
    /// The first word is no endpoint.
    #[error("no endpoint")]
    Endpoint,
    /// The second word is no bytes as hex digits.
    #[error("no hex digits")]
    Hex,
    /// The bytes are no datagram.
    #[error("no datagram: {0}")]
    Datagram(WireFault),
    /// The datagram names another sender.
    #[error("the datagram has another sender")]
    Sender,
    /// There was no memory.
    #[error("there is no memory")]
    NoMemory,
}

/// Bytes as hex digits.
fn read_hex(alloc: Global, word: &[u8]) -> Result<Vec<u8>, LineFault>
    ensures said { IfOk result (λ bytes. decode_of word.now ≡ Ok bytes.items) }
    ensures refused { IfErr result (λ refused. (refused ≡ fault.NoMemory)
        ⊎ (refused ≡ fault.Hex) × (why : HexFaults) × (decode_of word.now ≡ Err why)) }
{
    match hex::decode(alloc, word) {
        Ok(bytes) => Ok(bytes),
        Err(FromHexError::OutOfMemory) => Err(LineFault::NoMemory),
        Err(_) => Err(LineFault::Hex),
    }
}

/// The datagram that a line says: `SENDER HEX`, with who sent it and its bytes.
pub fn read_line(alloc: Global, line: &[u8]) -> Result<Datagram, LineFault>
    ensures said { IfOk result (λ datagram. SaysSent line.now datagram) }
    ensures refused { IfErr result (IsRefused line.now) }
{
    let Some((sender, word)) = split_at_byte(line, b' ') else {
        return Err(LineFault::Words);
    };
    let Some(endpoint) = read_endpoint(sender) else {
        return Err(LineFault::Endpoint);
    };
    let bytes = read_hex(alloc, word)?;
    match decode(&bytes) {
        Err(fault) => Err(LineFault::Datagram(fault)),
        Ok(datagram) => {
            if datagram.sender != endpoint {
                return Err(LineFault::Sender);
            }
            Ok(datagram)
        }
    }
}
