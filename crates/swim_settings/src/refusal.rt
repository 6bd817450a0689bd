//! Why settings are refused.

ghost use Rattle.std.specs.Prelude.{◌≡◌};
ghost use Rattle.swim_settings.specs.declared.refusal.SettingsRefusal.TheVariants as refusals;

use crate::key::Key;
use std::alloc::AllocError;
use std::{error, fmt};

/// Why settings are refused. It prints what `swim: settings refused` names, always on one line.
#[derive(Debug, PartialEq, Eq, Drop)]
pub enum SettingsRefusal {
    /// Memory ran out.
    Memory,
    /// The bytes are no TOML.
    Toml,
    /// This key is missing, or has another value than it takes.
    Key(Key),
    /// There is no such key.
    Unknown(String),
}

impl From<AllocError> for SettingsRefusal {
    ghost from_gives = { λ _ refusal. refusal ≡ refusals.Memory };

    fn from(_: AllocError) -> SettingsRefusal {
        SettingsRefusal::Memory
    }
}

/// Whether TOML takes the key without quotes.
fn is_bare(key: &str) -> bool {
    !key.is_empty()
        && key.as_bytes().iter().all(|byte| byte.is_ascii_alphanumeric()
            || *byte == b'_'
            || *byte == b'-')
}

impl fmt::Display for SettingsRefusal {
    /// The key; one that TOML does not take without quotes is quoted and escaped.
    fn fmt<W: fmt::Write>(&self, f: &mut fmt::Formatter<W>) -> fmt::Result {
        match self {
            SettingsRefusal::Memory => write!(f, "memory"),
            SettingsRefusal::Toml => write!(f, "toml"),
            SettingsRefusal::Key(key) => write!(f, "{key}"),
            SettingsRefusal::Unknown(key) if is_bare(key.as_str()) => write!(f, "{key}"),
            SettingsRefusal::Unknown(key) => write!(f, "{key:?}"),
        }
    }
}

impl error::Error for SettingsRefusal {}
