//! The datagrams of a group: what their bytes mean, read and written exactly.
//!
//! A datagram has 32 bytes of head and 16 for each update. All numbers are big-endian.
//!
//! | Offset | Size | Part | Format |
//! |---|---|---|---|
//! | 0 | 32 | head | `head.rt` |
//! | 32 | 16 each | updates | `update.rt` |
#![tactic(auto)]

mod copying;
mod cursor;
mod datagram;
mod endpoint;
mod fault;
mod head;
mod laws;
mod reading;
mod rules;
mod said;
mod update;
mod writing;

pub use copying::copied;
pub use cursor::Cursor;
pub use datagram::{DATAGRAM_MAX, Datagram, Kind, UPDATES_MAX};
pub use endpoint::{Endpoint, is_no_members};
pub use fault::WireFault;
pub use laws::{
    datagram_has_one_text, own_numbers_of_spelled, spelled_or_faulty, text_spells_one_datagram,
};
pub use reading::{decode, decode_into};
pub use rules::Rules;
pub use said::number_said;
pub use update::{LEAP, MEMBERS_MAX, NUMBER_MAX, Update, UpdateKind};
pub use writing::{encode, encode_into};
