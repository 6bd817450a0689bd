//! News of members: rows in the order of their members, what changed from one list of rows to a later one, and how that
//! is written, as a line or as JSON.
#![tactic(auto)]

mod change;
mod comparing;
mod json;
mod rows;
mod state;

pub use change::Change;
pub use comparing::{CHANGES_MAX, Changes, compare};
pub use json::{ChangeJson, RowJson};
pub use rows::{PAGES_MAX, Rows};
pub use state::state_name;
