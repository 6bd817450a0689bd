//! The story of one member, told from a recorded era: what each call says of it, in order.
#![tactic(auto)]

mod account;
mod asking;
mod cause;
mod clock;
mod datagrams;
mod fact;
mod heading;
mod json;
mod last;
mod laws;
mod lines;
mod lives;
mod moments;
mod news;
mod printing;
mod probing;
mod sends;
mod sentence;
mod tale;
mod telling;
mod ticks;
mod view;

pub use account::Account;
pub use asking::{ExplainFault, in_order, recordings_at, tell_file};
pub use cause::{Case, suspicion};
pub use fact::{Fact, Happening, Purpose};
pub use laws::stories_name_causes;
pub use moments::{lateness, moment};
pub use news::news_of;
pub use printing::{Printed, print_tales};
pub use tale::{Tale, tale_of};
pub use telling::story;
