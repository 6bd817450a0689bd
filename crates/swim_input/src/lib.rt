//! What a command reads: files and streams, each with a bound, so that none is read without end.
#![tactic(auto)]

mod fault;
mod placing;
mod reading;

pub use fault::InputFault;
pub use placing::key_line;
pub use reading::{
    INPUT_MAX, SETTINGS_MAX, look_at, open_file, read_file, read_input, read_stream,
};
