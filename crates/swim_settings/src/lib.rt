//! The settings file of `swim run`, a TOML table. It is read whole, and refused at the first key that is missing or has
//! another value than it takes, in the order of `Key::ALL`, and else at a key that is none of these.
#![tactic(auto)]

mod control;
mod detection;
mod key;
mod level;
mod place;
mod preset;
mod refusal;
mod reload;
mod settings;
mod shown;
mod table;
mod value;

pub use control::{CONTROL_PATH_MAX, ControlPath, ControlPlace, NamedControl, read_control};
pub use key::{KEYS, Key};
pub use level::Level;
pub use place::{HostName, Place};
pub use preset::{DefaultTimes, Preset};
pub use refusal::SettingsRefusal;
pub use reload::restart_keys;
pub use settings::{JOIN_MAX, RunSettings, read_settings};
pub use shown::show_settings;
pub use table::{as_number, read_table, refuse_unknown};
