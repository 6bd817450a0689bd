//! What `swim play` does: it plays a script over a member, its disk and its link in memory, or the recording of an era, and
//! tells what happened.
#![tactic(auto)]

mod life;
mod player;
mod recorded;
mod session;
mod setup;
mod transcript;

pub use life::{Life, PlayDisk};
pub use player::{Transcript, play};
pub use recorded::{Recorded, play_recorded};
pub use session::Run;
pub use setup::Setup;
