//! The joiner: whom a member joins, and when. It asks those of a list while it is alone, introduces itself to those that it is shown,
//! looks for those that it holds for failed, looks at its rows now and then, and rejoins one of them. It logs what of them changed, and
//! that nobody answers.
#![tactic(auto)]

mod draw;
mod intervals;
mod introductions;
mod joiner;
mod look;
mod news_log;
mod peers;
mod silence;
mod sought;

pub use intervals::{Intervals, Moment};
pub use joiner::{Due, Joiner};
pub use peers::LIST_MAX;
