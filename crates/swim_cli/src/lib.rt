//! The words of the program, and `swim init`.
#![tactic(auto)]

mod command_line;
mod control_words;
mod descriptors;
mod examples;
mod making;
mod member_words;
mod new_file;
mod up_words;

pub use command_line::{Subcommand, read_words};
pub use control_words::ControlWords;
pub use descriptors::hold_standard;
pub use making::{judge_ceiling, make, make_first};
pub use member_words::MemberWords;
pub use new_file::NewFile;
pub use up_words::UpWords;
