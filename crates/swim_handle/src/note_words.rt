//! What the log says of a note: who, what and what to do, and its number and name at the end.

ghost use Rattle.std.specs.Prelude.{◌≡◌};
ghost use Rattle.swim_handle.specs.Notes.{is_usual, note_level};

use log::Level;
use std::fmt::{self, Display, Formatter};
use swim_member::Note;
use swim_wire::{Endpoint, Rules};

/// Whether a healthy group makes such notes too: late datagrams, members that come and go, and a member that has left cause them.
fn is_usual(note: Note) -> bool
    ensures { result ≡ is_usual note }
{
    matches!(
        note,
        Note::Misdirected | Note::UnknownTarget | Note::Unasked | Note::Stopped
    )
}

/// The level at which a note is logged: debug, where a healthy group makes it too, and else warn.
pub(crate) fn note_level(note: Note) -> Level
    ensures { result ≡ note_level note }
{
    if is_usual(note) {
        Level::Debug
    } else {
        Level::Warn
    }
}

/// What a note says of the one from whom the datagram came that it is about.
fn told_of(note: Note) -> &'static str {
    match note {
        Note::OtherGroup =>
            "is of another group: it is ignored; look at its `group` and its `join`",
        Note::NotSender =>
            "sent a datagram of another sender: it is ignored; `me` of that one must be the address that others see",
        Note::FromSelf =>
            "sent a datagram of this member: it is ignored; look for a second member with this address",
        Note::Leap =>
            "told an incarnation of this member far above its own: it is not taken; a new state file has too low a ceiling, or it is forged",
        Note::NoNumberLeft =>
            "told the greatest incarnation of this member: it is not taken; it is forged, so keep strangers off the network",
        Note::TableFull =>
            "told of a member that gets no row, since 256 are known: look for addresses that no member has",
        Note::Misdirected =>
            "sent a ping that is for another member: harmless, if a member was moved",
        Note::RelaysFull =>
            "asked for an indirect probe while 16 are under way: it is not made; the network may be overloaded",
        Note::UnknownTarget =>
            "asked for a probe of a member that is not known here: harmless, while members come and go",
        Note::Unasked =>
            "answered what is not waited for any more: harmless; if it comes often, `direct` or `period` is too short",
        Note::SaveFailed =>
            "told what only a greater incarnation overrides, and none could be saved: look at the disk at once",
        Note::Expelled =>
            "told that this member failed: it takes no part any more; see OPERATIONS.md, \"A member that is expelled\"",
        Note::Stopped => "sent a datagram, and this member takes no part any more: harmless",
        _ => "sent a datagram",
    }
}

/// What a note says of the member itself, which is about no datagram.
fn told_here(note: Note) -> &'static str {
    match note {
        Note::Misdirected => "was told to join itself: harmless",
        Note::ReceiveFailed =>
            "could not receive a datagram: look at the network; 16 in a row end the program",
        Note::TimeOver => "has made 2^62 ticks, and makes no more: start it again",
        _ => "takes no part any more: harmless",
    }
}

/// The code of the rules that are not these.
fn others(rules: Rules) -> u8 {
    match rules {
        Rules::One => Rules::Two.code(),
        Rules::Two => Rules::One.code(),
    }
}

/// A note of a member that lives by these rules, and whence the datagram came that it is about, as a sentence.
#[derive(Clone, Copy, Debug)]
pub(crate) struct NoteLine {
    pub(crate) note: Note,
    pub(crate) from: Option<Endpoint>,
    pub(crate) rules: Rules,
}

impl Display for NoteLine {
    fn fmt<W: fmt::Write>(&self, f: &mut Formatter<W>) -> fmt::Result {
        let NoteLine { note, from, rules } = *self;
        match (note, from) {
            (Note::SendFailed(count), _) => write!(
                f,
                "this member could not send {count} datagrams: look at the network; later probes and joins send them again"
            )?,
            (Note::BadDatagram(fault), Some(from)) => write!(
                f,
                "{from} sent bytes that are no datagram ({fault}): look for what else sends to this port"
            )?,
            (Note::OtherVersion, Some(from)) => write!(
                f,
                "{from} has rules {}, this member {}: it is ignored; give both the same `rules`",
                others(rules),
                rules.code()
            )?,
            (note, Some(from)) => write!(f, "{from} {}", told_of(note))?,
            (note, None) => write!(f, "this member {}", told_here(note))?,
        }
        write!(f, " (note {note})")
    }
}
