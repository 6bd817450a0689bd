//! The log of the program: lines on standard error, and how much is logged.
#![tactic(auto)]

mod level;
mod stamped;
mod stream;

pub use level::LogLevel;
pub use stamped::Stamped;
pub use stream::LogStream;
