//! A member that runs: its settings, its state file, its sockets, and its eras one after the other.
#![tactic(auto)]

mod binding;
mod ended;
mod errand;
mod file_watch;
mod host_lookup;
mod listing;
mod live_settings;
mod lookup;
mod member_chores;
mod reading;
mod rereading;
mod running;
mod settings_reading;
mod socket_file;
mod state_file;
mod surroundings;

pub use binding::try_addresses;
pub use reading::settings_at;
pub use running::{run, shown_settings};
