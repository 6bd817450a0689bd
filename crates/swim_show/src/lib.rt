//! What a state file says, for people: its owner, its slots, what an opening would do with it, and where its bytes
//! depart from the format. The format is in `docs/reference/STATE_FILE.md`.
#![tactic(auto)]

mod asking;
mod departing;
mod fault;
mod json;
mod lines;
mod shown;

pub use asking::{Told, answer};
pub use departing::{Departure, departures};
pub use fault::ShowFault;
pub use shown::{FileReport, Opening, show};
