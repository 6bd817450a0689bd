//! What the keys of a settings file take.

ghost use Rattle.std.specs.Prelude.{◌≡◌};
ghost use Rattle.swim_exit.specs.Takes.{told_range, taken_range};

use std::fmt::{self, Display, Formatter};
use swim_member::{BLOCK_MAX, HELPERS_MAX};
use swim_settings::Key;
use toml::Value;

/// The greatest number of a TOML table, which a group may have.
const GROUP_MAX: u64 = 9_223_372_036_854_775_807;

/// What a key takes.
#[derive(Clone, Copy, Debug, PartialEq, Eq)]
pub(crate) enum Takes {
    /// A text that is so.
    Text(&'static str),
    /// A list of texts that are so.
    List(&'static str),
    /// A whole number from the one to the other.
    Number(u64, u64),
    /// The same of ticks.
    Ticks(u64, u64),
    /// A number of ticks below that of another key.
    TicksBelow(Key),
}

impl Takes {
    /// What this key takes.
    pub(crate) fn of(key: Key) -> Takes
        ensures { told_range result ≡ taken_range key }
    {
        match key {
            Key::File => Takes::Text("the path of the state file"),
            Key::Group => Takes::Number(0, GROUP_MAX),
            Key::Me => Takes::Text("an endpoint, e.g. \"10.0.0.1:7000\""),
            Key::Control => Takes::Text(
                "a path with a slash, at most 103 bytes, or an endpoint, e.g. \"127.0.0.1:7001\"",
            ),
            Key::Preset => Takes::Text("\"local\", \"lan\" or \"wan\""),
            Key::TickMs => Takes::Number(1, 60_000),
            Key::Lambda => Takes::Number(1, 16),
            Key::Period => Takes::Ticks(2, 1000),
            Key::Direct => Takes::TicksBelow(Key::Period),
            Key::Suspect => Takes::Ticks(1, 100_000),
            Key::Forget => Takes::Ticks(1, 1_000_000),
            Key::Helpers => Takes::Number(0, HELPERS_MAX as u64),
            Key::Limit => Takes::Number(1, 65_536),
            Key::Block => Takes::Number(1, BLOCK_MAX),
            Key::Rules => Takes::Number(1, 2),
            Key::RandomKey => Takes::Text("64 hex digits"),
            Key::Join => Takes::List("endpoints, or host names with a port, at most 8"),
            Key::Rejoin => Takes::Ticks(0, 1_000_000),
            Key::Introduce => Takes::Number(0, 256),
            Key::Expelled => Takes::Text("\"stay\" or \"end\""),
            Key::Record => Takes::Text("the path of a folder"),
            Key::RecordEras => Takes::Number(1, 1000),
            Key::Log => {
                Takes::Text("\"off\", \"error\", \"warn\", \"info\", \"debug\" or \"trace\"")
            }
        }
    }

    /// Why it does not take this value, which it refuses: it is of another kind, or else it does not fit.
    pub(crate) fn why(self, value: &Value) -> &'static str {
        match (self, value) {
            (Takes::Text(_), Value::String(_)) | (Takes::List(_), Value::Array(_)) =>
                "does not fit",
            (Takes::Number(_, _) | Takes::Ticks(_, _) | Takes::TicksBelow(_), Value::Integer(_)) =>
                "is out of its range",
            (_, value) => kind_of(value),
        }
    }
}

/// Of which kind a value is.
fn kind_of(value: &Value) -> &'static str {
    match value {
        Value::String(_) => "is a text",
        Value::Integer(_) => "is a whole number",
        Value::Float(_) => "is a number with a point",
        Value::Boolean(_) => "is true or false",
        Value::Datetime(_) => "is a date",
        Value::Array(_) => "is a list",
        Value::Table(_) => "is a table",
    }
}

impl Display for Takes {
    fn fmt<W: fmt::Write>(&self, f: &mut Formatter<W>) -> fmt::Result {
        match self {
            Takes::Text(what) => write!(f, "{what}"),
            Takes::List(what) => write!(f, "a list of {what}"),
            Takes::Number(least, most) => write!(f, "a whole number, {least} to {most}"),
            Takes::Ticks(least, most) => write!(f, "a whole number of ticks, {least} to {most}"),
            Takes::TicksBelow(key) => {
                write!(f, "a whole number of ticks, from 1 and less than `{key}`")
            }
        }
    }
}
