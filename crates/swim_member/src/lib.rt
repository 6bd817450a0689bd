//! One member of a group, as a machine over events: each event gives what is sent, what is noted and
//! what is shown, and a new state.
#![tactic(auto)]

mod answer;
mod event;
mod hearing;
mod join;
mod judge;
mod leave;
mod member;
mod note;
mod own_number;
mod probe;
mod receive;
mod relay;
mod resume;
mod send;
mod settings;
mod state;
mod step;
mod tick;
mod turn;

pub use answer::{Answer, NOTES_MAX, OUTS_MAX, Out};
pub use event::{Event, RECEIVED_MAX};
pub use judge::Judgement;
pub use member::{Member, RELAYS_MAX};
pub use note::Note;
pub use own_number::OwnNumber;
pub use resume::{MemberState, ResumeFault};
pub use send::Outs;
pub use settings::{BLOCK_MAX, HELPERS_MAX, Settings, SettingsFault};
pub use state::{Counts, Joining, Phase, Probe, Relay};
pub use swim_rules::Deal;
