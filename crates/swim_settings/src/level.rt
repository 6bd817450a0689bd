//! How much a member logs.

ghost use Rattle.swim_settings.specs.Levels.{level_text};

use swim_words::Word;

/// The least level of the lines that are logged.
#[derive(Clone, Copy, Debug, PartialEq, Eq)]
pub enum Level {
    /// No line.
    Off,
    /// What the member cannot mend.
    Error,
    /// What it goes on with, but should not be.
    Warn,
    /// What it does seldom: its start, its number, its settings.
    Info,
    /// What it does often.
    Debug,
    /// All that it does.
    Trace,
}

impl Level {
    /// All levels.
    pub(crate) const ALL: [Level; 6] = [
        Level::Off,
        Level::Error,
        Level::Warn,
        Level::Info,
        Level::Debug,
        Level::Trace,
    ];
}

/// The level as a file has it.
impl Word for Level {
    ghost text_of = { level_text };

    fn text(self) -> &'static str {
        match self {
            Level::Off => "off",
            Level::Error => "error",
            Level::Warn => "warn",
            Level::Info => "info",
            Level::Debug => "debug",
            Level::Trace => "trace",
        }
    }
}
