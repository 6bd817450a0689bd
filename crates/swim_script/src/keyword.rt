//! The words that begin a line.

ghost use Rattle.std.specs.Prelude.{◌≡◌, IfSome, IfNone};
ghost use Rattle.swim_words.specs.Words.{No};
ghost use Rattle.swim_script.specs.Commands.{keyword_text, IsKeyword};

use swim_words::{Word, named};

/// The first word of a line.
#[derive(Clone, Copy, Debug, PartialEq, Eq)]
pub enum Keyword {
    Group,
    Me,
    Set,
    Start,
    Init,
    Open,
    Receive,
    Tick,
    ReceiveFailed,
    SendFailed,
    Join,
    Leave,
    Members,
    Fail,
    Tear,
    Halt,
    Kill,
    Crash,
    Overwrite,
    Slots,
    Rebase,
    Keep,
    Peers,
}

impl Keyword {
    /// All of them.
    const ALL: [Keyword; 23] = [
        Keyword::Group,
        Keyword::Me,
        Keyword::Set,
        Keyword::Start,
        Keyword::Init,
        Keyword::Open,
        Keyword::Receive,
        Keyword::Tick,
        Keyword::ReceiveFailed,
        Keyword::SendFailed,
        Keyword::Join,
        Keyword::Leave,
        Keyword::Members,
        Keyword::Fail,
        Keyword::Tear,
        Keyword::Halt,
        Keyword::Kill,
        Keyword::Crash,
        Keyword::Overwrite,
        Keyword::Slots,
        Keyword::Rebase,
        Keyword::Keep,
        Keyword::Peers,
    ];

    /// The keyword that the word is.
    pub(crate) fn of(word: &[u8]) -> Option<Keyword>
        ensures keyword { IfSome result (λ keyword. word.now ≡ keyword_text keyword) }
        ensures none { IfNone result (No (IsKeyword word.now)) }
    {
        named(&Keyword::ALL, word)
    }
}

impl Word for Keyword {
    ghost text_of = { keyword_text };

    fn text(self) -> &'static str {
        match self {
            Keyword::Group => "group",
            Keyword::Me => "me",
            Keyword::Set => "set",
            Keyword::Start => "start",
            Keyword::Init => "init",
            Keyword::Open => "open",
            Keyword::Receive => "recv",
            Keyword::Tick => "tick",
            Keyword::ReceiveFailed => "recvfail",
            Keyword::SendFailed => "sendfail",
            Keyword::Join => "join",
            Keyword::Leave => "leave",
            Keyword::Members => "members",
            Keyword::Fail => "fail",
            Keyword::Tear => "tear",
            Keyword::Halt => "halt",
            Keyword::Kill => "kill",
            Keyword::Crash => "crash",
            Keyword::Overwrite => "disk",
            Keyword::Slots => "slots",
            Keyword::Rebase => "rebase",
            Keyword::Keep => "keep",
            Keyword::Peers => "peers",
        }
    }
}
