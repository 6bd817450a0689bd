//! Whom a file names to join.

ghost use Rattle.std.specs.Prelude.{◌≡◌, ◌≢◌, ℕ, List, IfSome, IfNone, IfOk, Some};
ghost use Rattle.toml.specs.Data.{as_str, string};
ghost use Rattle.toml.specs.View.{view};
ghost use Rattle.swim_words.specs.Words.{No};
ghost use Rattle.swim_words.specs.Hosts.{SaysHost};
ghost use Rattle.swim_settings.specs.Says.{IsPlace, place_text};

use arrayvec::ArrayString;
use std::alloc::{AllocError, Global};
use std::{fmt, str};
use swim_wire::Endpoint;
use swim_words::{HOST_MAX, read_endpoint, read_host};
use toml::Value;

/// The name of a host.
pub type HostName = ArrayString<HOST_MAX>;

/// Whom a file names to join: a member by its endpoint, or by a host's name and a port.
#[derive(Clone, Copy, Debug, PartialEq, Eq)]
pub enum Place {
    /// The member at this endpoint.
    Member(Endpoint),
    /// The one at this port of a host.
    Host(HostName, u16),
}

/// What fills the unused places of a list.
impl Default for Place {
    fn default() -> Place {
        Place::Member(Endpoint::default())
    }
}

impl fmt::Display for Place {
    ghost use Rattle.std.specs.Prelude.{Some};

    ghost output = { λ place. Some (place_text place) };

    fn fmt<W: fmt::Write>(&self, f: &mut fmt::Formatter<W>) -> fmt::Result {
        match self {
            Place::Member(endpoint) => write!(f, "{endpoint}"),
            Place::Host(name, port) => write!(f, "{name}:{port}"),
        }
    }
}

/// The port of a host that a text names.
fn read_named(text: &str) -> Option<Place>
    ensures text { IfSome result (λ place. text.now ≡ place_text place) }
    ensures place { IfSome result IsPlace }
    ensures none { IfNone result ((name : List ℕ) → No (SaysHost text.now name)) }
{
    let (name, port) = read_host(text.as_bytes())?;
    let name = str::from_utf8(name).ok()?;
    let name = ArrayString::from(name).ok()?;
    Some(Place::Host(name, port))
}

/// Whom a text names.
fn read_place(text: &str) -> Option<Place>
    ensures text { IfSome result (λ place. text.now ≡ place_text place) }
    ensures place { IfSome result IsPlace }
    ensures none { IfNone result ((p : Place) → IsPlace p → text.now ≢ place_text p) }
{
    match read_endpoint(text.as_bytes()) {
        Some(endpoint) => Some(Place::Member(endpoint)),
        None => read_named(text),
    }
}

/// Whom a value names.
pub(crate) fn as_place(value: &Value) -> Option<Place>
    ensures text { IfSome result (λ place. as_str (view value.now) ≡ Some (place_text place)) }
    ensures place { IfSome result IsPlace }
    ensures none { IfNone result ((p : Place) → IsPlace p
        → as_str (view value.now) ≢ Some (place_text p)) }
{
    match value.as_str() {
        Some(text) => read_place(text),
        None => None,
    }
}

/// The place as a file has it.
pub(crate) fn value_of_place(alloc: Global, place: &Place) -> Result<Value, AllocError>
    ensures { IfOk result (λ value. view value ≡ string (place_text place.now)) }
{
    let text = format!(in alloc; "{place}")?;
    Ok(Value::from(text))
}
