//! Hosts by their names.

ghost use Rattle.std.specs.Prelude.{◌≡◌, ◌↔◌, ℕ, List, IsTrue, IfSome, IfNone};
ghost use Rattle.std.specs.List.{list_all, list_any};
ghost use Rattle.swim_words.specs.Words.{No};
ghost use Rattle.swim_words.specs.Hosts.{IsHostName, SaysHost, is_host_byte, is_letter};

use crate::words::{read_within, split_at_byte};

/// The most bytes of a host name.
pub const HOST_MAX: usize = 253;

fn is_letter(byte: u8) -> bool
    ensures { result ≡ is_letter byte }
{
    matches!(byte, b'a'..=b'z' | b'A'..=b'Z')
}

/// Whether a host name may have this byte.
fn is_host_byte(byte: u8) -> bool
    ensures { result ≡ is_host_byte byte }
{
    is_letter(byte) || matches!(byte, b'0'..=b'9' | b'.' | b'-' | b'_')
}

/// Whether a host name has these bytes alone.
fn are_host_bytes(name: &[u8]) -> bool
    ensures { result ≡ list_all is_host_byte name.now }
{
    name.iter().all(|byte| is_host_byte(*byte))
}

fn has_letter(name: &[u8]) -> bool
    ensures { result ≡ list_any is_letter name.now }
{
    name.iter().any(|byte| is_letter(*byte))
}

/// Whether this is a host name.
fn is_host_name(name: &[u8]) -> bool
    ensures { IsTrue result ↔ IsHostName name.now }
{
    !name.is_empty() && name.len() <= HOST_MAX && are_host_bytes(name) && has_letter(name)
}

/// A host name and a port, as `db1.example:7001`: at most 253 letters, digits, dots, hyphens and underscores, with a letter among them,
/// a colon, and 1 to 65,535.
pub fn read_host(text: &[u8]) -> Option<(&[u8], u16)>
    ensures host { IfSome result (λ host. SaysHost text.now host.0.now host.1) }
    ensures none { IfNone result ((name : List ℕ) → No (SaysHost text.now name)) }
{
    let (name, port) = split_at_byte(text, b':')?;
    let port = read_within(port, 1, 65535)?;
    if !is_host_name(name) {
        return None;
    }
    Some((name, port as u16))
}
