//! The words that scripts, control lines and transcripts are made of. A text is cut at a byte, and a word is read as a
//! number, an endpoint or a host: a reader says none exactly where there is none.
#![tactic(auto)]

mod hosts;
mod table;
mod words;

pub use hosts::{HOST_MAX, read_host};
pub use table::{Word, named};
pub use words::{read_endpoint, read_number, read_within, split_at_byte};
