//! What is wrong with settings that are refused: where, with which value, and what their key takes.

use crate::nearest::nearest;
use crate::takes::Takes;
use std::alloc::{AllocError, Global};
use std::fmt::{self, Display, Formatter};
use swim_input::key_line;
use swim_settings::{Key, SettingsRefusal, read_table};
use swim_words::Word;
use toml::{Table, Value};

/// A place of a file: its path, and the line, if it is known.
#[derive(Clone, Copy)]
struct Spot<'a> {
    path: &'a str,
    line: Option<usize>,
}

impl<'a> Spot<'a> {
    /// Where this key stands.
    fn of(path: &'a str, text: &[u8], key: &str) -> Spot<'a> {
        Spot {
            path,
            line: key_line(text, key),
        }
    }
}

impl Display for Spot<'_> {
    fn fmt<W: fmt::Write>(&self, f: &mut Formatter<W>) -> fmt::Result {
        let path = self.path;
        match self.line {
            Some(line) => write!(f, "{path} line {line}"),
            None => write!(f, "{path}"),
        }
    }
}

/// What is wrong with a key that the file has not: it has to be there, or what stands in its place does not fit to the others.
fn of_missing(
    alloc: Global,
    spot: Spot<'_>,
    table: &Table,
    key: Key,
) -> Result<String, AllocError> {
    let takes = Takes::of(key);
    if key != Key::Direct {
        return format!(in alloc; "{spot}: the key is missing; it takes {takes}");
    }
    match table.get(Key::Preset.text()) {
        Some(preset) => format!(in alloc;
            "{spot}: `{key}` of preset {preset} does not fit; it takes {takes}"
        ),
        None => format!(in alloc; "{spot}: the default of `{key}` does not fit; it takes {takes}"),
    }
}

/// What is wrong with the value of a key. That of the generator is not shown.
fn of_value(alloc: Global, spot: Spot<'_>, value: &Value, key: Key) -> Result<String, AllocError> {
    let takes = Takes::of(key);
    let why = takes.why(value);
    if key == Key::RandomKey {
        return format!(in alloc; "{spot}: its value {why}; it takes {takes}");
    }
    format!(in alloc; "{spot}: {value} {why}; it takes {takes}")
}

/// What is wrong with a key of a text that is TOML.
fn of_key(alloc: Global, path: &str, text: &[u8], key: Key) -> Result<String, AllocError> {
    let spot = Spot::of(path, text, key.text());
    let Ok(table) = read_table(alloc, text) else {
        return format!(in alloc; "{spot}");
    };
    match table.get(key.text()) {
        Some(value) => of_value(alloc, spot, value, key),
        None => of_missing(alloc, spot, &table, key),
    }
}

/// What is wrong with a name that is no key.
fn of_unknown(alloc: Global, path: &str, text: &[u8], name: &str) -> Result<String, AllocError> {
    let spot = Spot::of(path, text, name);
    match nearest(name.as_bytes()) {
        Some(key) => format!(in alloc; "{spot}: there is no such key; did you mean `{key}`?"),
        None => format!(in alloc; "{spot}: there is no such key; SETTINGS.md has all keys"),
    }
}

/// How many lines of a text have ended before this place.
fn lines_before(text: &[u8], place: usize) -> usize {
    text.iter()
        .take(place)
        .filter(|byte| **byte == b'\n')
        .count()
}

/// What is wrong with a text that is no TOML.
fn of_text(alloc: Global, path: &str, text: &[u8]) -> Result<String, AllocError> {
    let Err(error) = toml::table_from_slice(alloc, text) else {
        return format!(in alloc; "{path}");
    };
    let line = match error.span() {
        Some(span) => Some(lines_before(text, span.start).saturating_add(1)),
        None => None,
    };
    let message = error.message();
    let spot = Spot { path, line };
    format!(in alloc; "{spot}: {message}")
}

/// What is wrong with the settings of this text, which are refused so, on one line.
pub(crate) fn mistake_in(
    alloc: Global,
    path: &str,
    text: &[u8],
    refusal: &SettingsRefusal,
) -> Result<String, AllocError> {
    match refusal {
        SettingsRefusal::Toml => of_text(alloc, path, text),
        SettingsRefusal::Unknown(name) => of_unknown(alloc, path, text, name.as_str()),
        SettingsRefusal::Key(key) => of_key(alloc, path, text, *key),
        SettingsRefusal::Memory => format!(in alloc; "{path}"),
    }
}
