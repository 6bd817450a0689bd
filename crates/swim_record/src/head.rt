//! The words that begin a line.

ghost use Rattle.std.specs.Prelude.{◌≡◌, IfSome, IfNone};
ghost use Rattle.swim_words.specs.Words.{No};
ghost use Rattle.swim_record.specs.Text.{head_word};

use swim_words::{Word, named};

/// The first word of a line.
#[derive(Clone, Copy, Debug, PartialEq, Eq)]
pub enum Head {
    Member,
    Times,
    RowAlive,
    RowSuspect,
    RowConfirm,
    SayAlive,
    SaySuspect,
    SayConfirm,
    Probe,
    Answered,
    Relay,
    Joining,
    Listed,
    Running,
    Left,
    Expelled,
    Caller,
    Granted,
    Lost,
}

impl Head {
    /// All of them.
    const ALL: [Head; 19] = [
        Head::Member,
        Head::Times,
        Head::RowAlive,
        Head::RowSuspect,
        Head::RowConfirm,
        Head::SayAlive,
        Head::SaySuspect,
        Head::SayConfirm,
        Head::Probe,
        Head::Answered,
        Head::Relay,
        Head::Joining,
        Head::Listed,
        Head::Running,
        Head::Left,
        Head::Expelled,
        Head::Caller,
        Head::Granted,
        Head::Lost,
    ];

    /// The head that the word is.
    pub(crate) fn of(word: &[u8]) -> Option<Head>
        ensures head { IfSome result (λ head. word.now ≡ head_word head) }
        ensures none { IfNone result (No (λ head. word.now ≡ head_word head)) }
    {
        named(&Head::ALL, word)
    }
}

impl Word for Head {
    ghost text_of = { head_word };

    fn text(self) -> &'static str {
        match self {
            Head::Member => "member",
            Head::Times => "times",
            Head::RowAlive => "alive",
            Head::RowSuspect => "suspect",
            Head::RowConfirm => "confirm",
            Head::SayAlive => "+alive",
            Head::SaySuspect => "+suspect",
            Head::SayConfirm => "+confirm",
            Head::Probe => "probe",
            Head::Answered => "answered",
            Head::Relay => "relay",
            Head::Joining => "joining",
            Head::Listed => "listed",
            Head::Running => "running",
            Head::Left => "left",
            Head::Expelled => "expelled",
            Head::Caller => "caller",
            Head::Granted => "granted",
            Head::Lost => "lost",
        }
    }
}
