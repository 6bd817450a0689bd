//! The settings that are made.

use std::alloc::{AllocError, Global};
use std::fmt::Write;
use swim_cli::UpWords;
use swim_settings::{Key, Preset};
use swim_words::Word;
use toml::Value;

/// What the file begins with.
const HEAD: &str =
    "# The settings of a member, which `swim up` made. SETTINGS.md says what each key takes; a key that is not here has its default.
";

/// What is said of a key that the file has.
fn comment_of(key: Key) -> &'static str {
    match key {
        Key::File => {
            "# The state file. Never put back an older one, never share it, and make no new one for a lost one: see OPERATIONS.md."
        }
        Key::Group => "# The number of the group, the same for all its members.",
        Key::Me => "# The member: its address and its UDP port, by which the others reach it.",
        Key::Control => {
            "# The control socket. Who may use that of a path, or reaches that of an address, controls the member."
        }
        Key::Preset => "# Whose times it takes, the same for all members of the group.",
        Key::Join => "# Whom it joins after the start, at most 8. One that runs is enough.",
        Key::Rules => {
            "# The rules of the group, the same for all its members. By 2 a member that was considered failed can come back."
        }
        _ => "# How many events are kept in memory.",
    }
}

/// Adds a key with its value, and what is said of it.
fn add(text: &mut String, key: Key, value: Value) -> Result<(), AllocError> {
    let comment = comment_of(key);
    write!(text, "\n{comment}\n{key} = {value}\n")
}

/// Adds a key whose value is a text.
fn add_text(alloc: Global, text: &mut String, key: Key, value: &str) -> Result<(), AllocError> {
    add(text, key, Value::string(alloc, value)?)
}

/// Whom to join, as a file has them.
fn value_of_join(alloc: Global, words: &UpWords<'_>) -> Result<Value, AllocError> {
    let mut places = Vec::new(alloc);
    for place in &words.join {
        places.push(Value::string(alloc, place.as_str())?)?;
    }
    Ok(Value::from(places))
}

/// The settings of these words, as the text of a file, with a state file at this path, of this group, and with this control socket where
/// they name none.
pub(crate) fn settings_text(
    alloc: Global,
    file: &str,
    group: u64,
    words: &UpWords<'_>,
    usual: &str,
) -> Result<String, AllocError> {
    let mut text = String::from_str(alloc, HEAD)?;
    let group = i64::try_from(group).unwrap_or(i64::MAX);
    add_text(alloc, &mut text, Key::File, file)?;
    add(&mut text, Key::Group, Value::Integer(group))?;
    add_text(alloc, &mut text, Key::Me, words.me)?;
    add_text(
        alloc,
        &mut text,
        Key::Control,
        words.control.unwrap_or(usual),
    )?;
    let preset = words.preset.unwrap_or(Preset::Lan.text());
    add_text(alloc, &mut text, Key::Preset, preset)?;
    add(&mut text, Key::Limit, Value::Integer(256))?;
    add(&mut text, Key::Rules, Value::Integer(2))?;
    add(&mut text, Key::Join, value_of_join(alloc, words)?)?;
    Ok(text)
}
