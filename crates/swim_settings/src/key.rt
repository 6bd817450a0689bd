//! The keys of a settings file.

ghost use Rattle.swim_settings.specs.Keys.{key_text};

use std::fmt;
use swim_words::Word;

/// How many keys there are.
pub const KEYS: usize = 23;

/// A key of a settings file.
#[derive(Clone, Copy, Debug, PartialEq, Eq)]
pub enum Key {
    /// The path of the state file.
    File,
    /// The group's number.
    Group,
    /// The own endpoint, to which the UDP socket is bound.
    Me,
    /// The endpoint to which the control socket is bound.
    Control,
    /// Whose times stand for those that the file has not.
    Preset,
    /// Milliseconds from one tick to the next.
    TickMs,
    /// Sends of an update, times the binary digits of the count of members.
    Lambda,
    /// Ticks from one probe to the next.
    Period,
    /// Ticks until others are asked about a target.
    Direct,
    /// Ticks until a Suspect becomes Confirm.
    Suspect,
    /// Ticks until a Confirm is forgotten.
    Forget,
    /// Members that are asked about a target.
    Helpers,
    /// Entries in an era.
    Limit,
    /// Numbers that one save reserves.
    Block,
    /// By which rules the group lives.
    Rules,
    /// The key of the generator that the ticker's deals and the drawn members come from.
    RandomKey,
    /// Whom to join after the opening.
    Join,
    /// Ticks from one join of a drawn member to the next.
    Rejoin,
    /// To how many others a member introduces itself once somebody has answered it.
    Introduce,
    /// What a member does that is expelled.
    Expelled,
    /// The folder of the recordings of the eras that ended.
    Record,
    /// How many recordings are kept there.
    RecordEras,
    /// The least level of the lines of the log.
    Log,
}

impl Key {
    /// All keys, in the order in which a refused one is looked for.
    pub const ALL: [Key; KEYS] = [
        Key::File,
        Key::Group,
        Key::Me,
        Key::Control,
        Key::Preset,
        Key::TickMs,
        Key::Lambda,
        Key::Period,
        Key::Direct,
        Key::Suspect,
        Key::Forget,
        Key::Helpers,
        Key::Limit,
        Key::Block,
        Key::Rules,
        Key::RandomKey,
        Key::Join,
        Key::Rejoin,
        Key::Introduce,
        Key::Expelled,
        Key::Record,
        Key::RecordEras,
        Key::Log,
    ];
}

/// The key as a file has it.
impl Word for Key {
    ghost text_of = { key_text };

    fn text(self) -> &'static str {
        match self {
            Key::File => "file",
            Key::Group => "group",
            Key::Me => "me",
            Key::Control => "control",
            Key::Preset => "preset",
            Key::TickMs => "tick_ms",
            Key::Lambda => "lambda",
            Key::Period => "period",
            Key::Direct => "direct",
            Key::Suspect => "suspect",
            Key::Forget => "forget",
            Key::Helpers => "helpers",
            Key::Limit => "limit",
            Key::Block => "block",
            Key::Rules => "rules",
            Key::RandomKey => "random_key",
            Key::Join => "join",
            Key::Rejoin => "rejoin",
            Key::Introduce => "introduce",
            Key::Expelled => "expelled",
            Key::Record => "record",
            Key::RecordEras => "record_eras",
            Key::Log => "log",
        }
    }
}

/// The first one, in the free places of a list.
impl Default for Key {
    fn default() -> Key {
        Key::File
    }
}

impl fmt::Display for Key {
    ghost use Rattle.std.specs.Prelude.{Some};

    ghost output = { λ key. Some (key_text key) };

    fn fmt<W: fmt::Write>(&self, f: &mut fmt::Formatter<W>) -> fmt::Result {
        let text = self.text();
        write!(f, "{text}")
    }
}
