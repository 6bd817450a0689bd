//! The recording of an era: its lines, as text that is read again, the name of its file, and how an ended era is handed to who keeps it.
#![tactic(auto)]

mod argument;
mod begun;
mod block;
mod event;
mod finished;
mod handing;
mod head;
mod line;
mod names;
mod text;
mod time;
mod writer;

pub use argument::Argument;
pub use begun::BegunEra;
pub use block::{an_event_ends_the_lines, read_lines};
pub use event::{EventFault, EventWord, read_event};
pub use finished::Finished;
pub use handing::{Keeper, Unkept, begin, hand_over};
pub use head::Head;
pub use line::{Line, Start, Times, read_line};
pub use names::{FileName, read_name};
pub use time::{EraTime, read_time};
pub use writer::recording;
