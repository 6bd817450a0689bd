//! Where a member's control socket is.

ghost use Rattle.std.specs.Prelude.{◌≡◌, ◌≢◌, ◌<◌, ◌⊎◌, IfSome, IfNone, IfOk, Some, length};
ghost use Rattle.toml.specs.Data.{as_str, string};
ghost use Rattle.toml.specs.View.{view};
ghost use Rattle.swim_words.specs.Words.{Lacks};
ghost use Rattle.swim_settings.specs.Controls.{IsControl, control_text, is_same_control};
ghost use Rattle.swim_settings.specs.declared.control.ControlPlace.{ControlPlace};

use arrayvec::ArrayString;
use std::alloc::{AllocError, Global};
use std::fmt;
use swim_wire::Endpoint;
use swim_words::{read_endpoint, split_at_byte};
use toml::Value;

/// The most bytes of the path of a control socket: the system takes 107, and a new one is made beside it, under a name of four more.
pub const CONTROL_PATH_MAX: usize = 103;

/// The path of a control socket.
pub type ControlPath = ArrayString<CONTROL_PATH_MAX>;

/// Where a member's control socket is: a TCP port, or a file in the system's folders, which only the member's own user may use.
#[derive(Clone, Copy, Debug)]
pub enum ControlPlace {
    /// A TCP socket at this endpoint.
    Tcp(Endpoint),
    /// A Unix socket at this path, which has a slash.
    Unix(ControlPath),
}

impl ControlPlace {
    /// Whether both are the same endpoint, or the same path.
    pub fn is_same(&self, other: &ControlPlace) -> bool
        ensures { result ≡ is_same_control self.now other.now }
    {
        match (self, other) {
            (ControlPlace::Tcp(own), ControlPlace::Tcp(other)) => own == other,
            (ControlPlace::Unix(own), ControlPlace::Unix(other)) => own.as_str() == other.as_str(),
            _ => false,
        }
    }
}

impl fmt::Display for ControlPlace {
    ghost use Rattle.std.specs.Prelude.{Some};

    ghost output = { λ place. Some (control_text place) };

    fn fmt<W: fmt::Write>(&self, f: &mut fmt::Formatter<W>) -> fmt::Result {
        match self {
            ControlPlace::Tcp(endpoint) => write!(f, "{endpoint}"),
            ControlPlace::Unix(path) => write!(f, "{path}"),
        }
    }
}

/// A control socket as messages name it.
#[derive(Clone, Copy, Debug)]
pub struct NamedControl(pub ControlPlace);

impl fmt::Display for NamedControl {
    fn fmt<W: fmt::Write>(&self, f: &mut fmt::Formatter<W>) -> fmt::Result {
        let NamedControl(place) = self;
        match place {
            ControlPlace::Tcp(endpoint) => write!(f, "TCP {endpoint} (control)"),
            ControlPlace::Unix(path) => write!(f, "socket {path} (control)"),
        }
    }
}

/// The path that a text is: it has a slash.
fn read_path(text: &str) -> Option<ControlPath>
    ensures text { IfSome result (λ path. path.bytes ≡ text.now) }
    ensures slash { IfSome result (λ path. ¬ Lacks 47 text.now) }
    ensures none { IfNone result (Lacks 47 text.now ⊎ (CONTROL_PATH_MAX < length text.now)) }
{
    split_at_byte(text.as_bytes(), b'/')?;
    ArrayString::from(text).ok()
}

/// The control socket that a text names: an endpoint, or a path with a slash, of at most 103 bytes. None where it is neither.
pub fn read_control(text: &str) -> Option<ControlPlace>
    ensures text { IfSome result (λ place. text.now ≡ control_text place) }
    ensures place { IfSome result IsControl }
    ensures none { IfNone result ((c : ControlPlace) → IsControl c → text.now ≢ control_text c) }
{
    if let Some(endpoint) = read_endpoint(text.as_bytes()) {
        return Some(ControlPlace::Tcp(endpoint));
    }
    let path = read_path(text)?;
    Some(ControlPlace::Unix(path))
}

/// The control socket that a value names.
pub(crate) fn as_control(value: &Value) -> Option<ControlPlace>
    ensures text { IfSome result (λ place. as_str (view value.now) ≡ Some (control_text place)) }
    ensures place { IfSome result IsControl }
    ensures none { IfNone result ((c : ControlPlace) → IsControl c
        → as_str (view value.now) ≢ Some (control_text c)) }
{
    match value.as_str() {
        Some(text) => read_control(text),
        None => None,
    }
}

/// The control socket as a file has it.
pub(crate) fn value_of_control(alloc: Global, place: &ControlPlace) -> Result<Value, AllocError>
    ensures { IfOk result (λ value. view value ≡ string (control_text place.now)) }
{
    let text = format!(in alloc; "{place}")?;
    Ok(Value::from(text))
}
