//! Who asks a running member over its control socket: a line and its answer, all rows, and what changes of them.
#![tactic(auto)]

mod about;
mod addresses;
mod asking;
mod connecting;
mod counters;
mod gap;
mod joining;
mod json;
mod leaving;
mod looking;
mod lookup;
mod output;
mod paging;
mod paint;
mod place;
mod status;
mod stopping;
mod timed;
mod watching;

pub use about::{AboutJson, ask_about, read_about};
pub use addresses::Addresses;
pub use asking::{Answered, ask};
pub use counters::{CountersJson, read_counters};
pub use joining::{JoinRequest, Joined};
pub use leaving::may_have_left;
pub use looking::{MemberReport, look};
pub use paint::Paint;
pub use place::find;
pub use status::{StatusJson, WholeJson, read_status};
pub use stopping::await_end;
pub use watching::{Watched, show_members, watch_members};
