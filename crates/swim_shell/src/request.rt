//! What control lines ask for.

ghost use Rattle.std.specs.Prelude.{◌≡◌, ◌≢◌, ◌<◌, ◌≤◌, List, ℕ, length, codes};
ghost use Rattle.swim_shell.specs.Lines.{IsLine};
ghost use Rattle.swim_shell.specs.Requests.{Names, NamesShort};

use crate::lines::LineText;
use swim_wire::{Cursor, Endpoint};
use swim_words::{read_endpoint, split_at_byte};

/// What a line asks for.
#[derive(Clone, Copy, Debug, PartialEq, Eq)]
pub enum Request {
    /// The status, from the watch.
    Status,
    /// The next members after this, at most 30.
    Members(Cursor),
    /// To ask this member for all that it knows.
    Join(Endpoint),
    /// To leave the group.
    Leave,
    /// To end the workers.
    Stop,
    /// To end the era, so that it is recorded.
    Record,
    /// What the member has done since it began.
    Counters,
    /// To read the settings again.
    Reload,
    /// Who the member is.
    About,
    /// It is none of the lines.
    Unknown,
    /// The word that is to be an endpoint is none.
    Address,
    /// It has more than 64 bytes.
    TooLong,
}

/// What a line of two words asks for.
#[tactic(auto, using(crate::proofs::Hearing::unknown_split, crate::proofs::Hearing::unknown_word))]
fn with_word(text: &[u8]) -> Request
    requires status { text.now ≢ codes "status" }
    requires members { text.now ≢ codes "members" }
    requires leave { text.now ≢ codes "leave" }
    requires stop { text.now ≢ codes "stop" }
    requires renew { text.now ≢ codes "record" }
    requires counters { text.now ≢ codes "counters" }
    requires reload { text.now ≢ codes "reload" }
    requires about { text.now ≢ codes "about" }
    ensures { NamesShort text.now result }
{
    match split_at_byte(text, b' ') {
        Some((first, word)) => {
            if first == b"join".as_slice() {
                return match read_endpoint(word) {
                    Some(peer) => Request::Join(peer),
                    None => Request::Address,
                };
            }
            if first == b"members".as_slice() {
                return match read_endpoint(word) {
                    Some(peer) => Request::Members(Cursor::at(peer)),
                    None => Request::Address,
                };
            }
            Request::Unknown
        }
        None => Request::Unknown,
    }
}

/// What a line of at most 64 bytes asks for.
fn short(text: &[u8]) -> Request
    ensures { NamesShort text.now result }
{
    if text == b"status".as_slice() {
        return Request::Status;
    }
    if text == b"members".as_slice() {
        return Request::Members(Cursor::zero());
    }
    if text == b"leave".as_slice() {
        return Request::Leave;
    }
    if text == b"stop".as_slice() {
        return Request::Stop;
    }
    if text == b"record".as_slice() {
        return Request::Record;
    }
    if text == b"counters".as_slice() {
        return Request::Counters;
    }
    if text == b"reload".as_slice() {
        return Request::Reload;
    }
    if text == b"about".as_slice() {
        return Request::About;
    }
    with_word(text)
}

/// What the line asks for.
#[tactic(auto, using(crate::proofs::Hearing::names_short))]
pub fn understand(line: &LineText) -> Request
    ensures { (text : List ℕ) → IsLine text line.now → Names text result }
{
    match line {
        LineText::Text(text) => short(text.as_slice()),
        LineText::Long => Request::TooLong,
    }
}
