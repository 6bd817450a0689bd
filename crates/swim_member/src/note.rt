//! Notes.

ghost use Rattle.std.specs.Prelude.{◌≡◌};

use std::fmt;
use swim_wire::WireFault;

/// What a step has to say beside what it sends. It prints its number and name, and then the fault or the count.
#[derive(Clone, Copy, Debug, PartialEq, Eq)]
pub enum Note {
    /// The bytes are no datagram.
    BadDatagram(WireFault),
    /// The datagram is of another group.
    OtherGroup,
    /// The datagram does not come from the sender that it names.
    NotSender,
    /// The datagram names this member as its sender.
    FromSelf,
    /// A suspicion about this member has a number that is too far above its own.
    Leap,
    /// A suspicion about this member has the greatest number.
    NoNumberLeft,
    /// An Alive or a Suspect about a new member found no room.
    TableFull,
    /// A ping whose subject is another member, or a join to oneself.
    Misdirected,
    /// A ping-req found no room for a relay.
    RelaysFull,
    /// A ping-req is about a member that is not Alive or Suspect here.
    UnknownTarget,
    /// An ack or a page answers nothing that was asked.
    Unasked,
    /// The wanted number was not granted.
    SaveFailed,
    /// By rules 1, a Confirm about this member was heard.
    Expelled,
    /// The member does not take part any more.
    Stopped,
    /// A receive failed.
    ReceiveFailed,
    /// So many datagrams were not sent.
    SendFailed(u32),
    /// No tick counts any more.
    TimeOver,
    /// The datagram is of the other version: its sender lives by other rules.
    OtherVersion,
}

/// What fills the unused places of a list.
impl Default for Note {
    fn default() -> Note
        ensures { result ≡ Note.Stopped }
    {
        Note::Stopped
    }
}

impl Note {
    ghost use Rattle.std.specs.Prelude.{◌≡◌};
    ghost use Rattle.swim_member.specs.Texts.{note_number, note_name};

    /// The number of the note, by which programs name it.
    pub fn number(self) -> u8
        ensures { result ≡ note_number self }
    {
        match self {
            Note::BadDatagram(_) => 1,
            Note::OtherGroup => 2,
            Note::NotSender => 3,
            Note::FromSelf => 4,
            Note::Leap => 5,
            Note::NoNumberLeft => 6,
            Note::TableFull => 7,
            Note::Misdirected => 8,
            Note::RelaysFull => 9,
            Note::UnknownTarget => 10,
            Note::Unasked => 11,
            Note::SaveFailed => 12,
            Note::Expelled => 13,
            Note::Stopped => 14,
            Note::ReceiveFailed => 15,
            Note::SendFailed(_) => 16,
            Note::TimeOver => 17,
            Note::OtherVersion => 18,
        }
    }

    /// The name of the note.
    pub fn name(self) -> &'static str
        ensures { result.now ≡ note_name self }
    {
        match self {
            Note::BadDatagram(_) => "BadDatagram",
            Note::OtherGroup => "OtherGroup",
            Note::NotSender => "NotSender",
            Note::FromSelf => "FromSelf",
            Note::Leap => "Leap",
            Note::NoNumberLeft => "NoNumberLeft",
            Note::TableFull => "TableFull",
            Note::Misdirected => "Misdirected",
            Note::RelaysFull => "RelaysFull",
            Note::UnknownTarget => "UnknownTarget",
            Note::Unasked => "Unasked",
            Note::SaveFailed => "SaveFailed",
            Note::Expelled => "Expelled",
            Note::Stopped => "Stopped",
            Note::ReceiveFailed => "ReceiveFailed",
            Note::SendFailed(_) => "SendFailed",
            Note::TimeOver => "TimeOver",
            Note::OtherVersion => "OtherVersion",
        }
    }
}

impl fmt::Display for Note {
    ghost use Rattle.std.specs.Prelude.{Some};
    ghost use Rattle.swim_member.specs.Texts.{note_text};

    ghost output = { λ note. Some (note_text note) };

    fn fmt<W: fmt::Write>(&self, f: &mut fmt::Formatter<W>) -> fmt::Result {
        let number = self.number();
        let name = self.name();
        match self {
            Note::BadDatagram(fault) => write!(f, "{number} {name} {fault}"),
            Note::SendFailed(count) => write!(f, "{number} {name} {count}"),
            _ => write!(f, "{number} {name}"),
        }
    }
}
