//! Settings as the text of a file.

ghost use Rattle.std.specs.Prelude.{◌≡◌, ◌^◌, ◌<◌, IfOk, option_map};
ghost use Rattle.toml.specs.Data.{string};
ghost use Rattle.toml.specs.View.{view, items_view};
ghost use Rattle.swim_words.specs.Words.{endpoint_text};
ghost use Rattle.swim_settings.specs.Ranges.{AreInRange};
ghost use Rattle.swim_settings.specs.Says.{AreTexts};
ghost use Rattle.swim_settings.specs.Shown.{shown_number, shown_text, ShowsSetting};

use crate::control::value_of_control;
use crate::detection::write_detection;
use crate::key::Key;
use crate::place::{Place, value_of_place};
use crate::settings::RunSettings;
use std::alloc::{AllocError, Global};
use std::fmt::Write;
use swim_wire::Endpoint;
use swim_words::Word;
use toml::Value;

/// What is said of the generator's key, where the settings have one.
const HIDDEN: &str = "# random_key is set, and not shown\n";

/// The number at a key that takes one.
pub(crate) fn number_of(key: Key, run: &RunSettings) -> Option<u64>
    ensures { result ≡ shown_number key run.now }
{
    match key {
        Key::Group => Some(run.settings.group),
        Key::TickMs => Some(run.tick_ms),
        Key::Lambda => Some(u64::from(run.settings.lambda)),
        Key::Period => Some(run.settings.period),
        Key::Direct => Some(run.settings.direct),
        Key::Suspect => Some(run.settings.suspect),
        Key::Forget => Some(run.settings.forget),
        Key::Helpers => Some(run.settings.helpers as u64),
        Key::Limit => Some(u64::from(run.limit)),
        Key::Block => Some(run.settings.block),
        Key::Rules => Some(u64::from(run.settings.rules)),
        Key::Rejoin => Some(run.rejoin),
        Key::Introduce => Some(u64::from(run.introduce)),
        Key::RecordEras => Some(run.record_eras),
        _ => None,
    }
}

/// The text at a key that takes one, but for an endpoint.
pub(crate) fn text_of<'a>(key: Key, run: &'a RunSettings) -> Option<&'a str>
    ensures { option_map (λ text. text.now) result ≡ shown_text key run.now }
{
    match key {
        Key::File => Some(run.file.as_str()),
        Key::Preset => match run.preset {
            Some(preset) => Some(preset.text()),
            None => None,
        },
        Key::Expelled => Some(if run.ends_expelled { "end" } else { "stay" }),
        Key::Record => run.folder(),
        Key::Log => match run.log {
            Some(level) => Some(level.text()),
            None => None,
        },
        _ => None,
    }
}

/// An endpoint as a file has it.
fn value_of_endpoint(alloc: Global, endpoint: Endpoint) -> Result<Value, AllocError>
    ensures { IfOk result (λ value. view value ≡ string (endpoint_text endpoint)) }
{
    let text = format!(in alloc; "{endpoint}")?;
    Ok(Value::from(text))
}

/// Places as a file has them.
fn texts_of(alloc: Global, places: &[Place]) -> Result<Vec<Value>, AllocError>
    ensures { IfOk result (λ texts. AreTexts (items_view texts.items) places.now) }
{
    let mut texts = Vec::new(alloc);
    for place in places {
        let text = value_of_place(alloc, place)?;
        texts.push(text)?;
    }
    Ok(texts)
}

/// What stands at a key; none where the key does not stand there.
fn value_of(alloc: Global, key: Key, run: &RunSettings) -> Result<Option<Value>, AllocError>
    requires { AreInRange run.now }
    ensures { IfOk result (λ value. ShowsSetting key run.now (option_map view value)) }
{
    if let Some(number) = number_of(key, run) {
        return Ok(Some(Value::Integer(number as i64)));
    }
    if let Some(text) = text_of(key, run) {
        return Ok(Some(Value::string(alloc, text)?));
    }
    match key {
        Key::Me => Ok(Some(value_of_endpoint(alloc, run.settings.me)?)),
        Key::Control => Ok(Some(value_of_control(alloc, &run.control)?)),
        Key::Join => Ok(Some(Value::from(texts_of(alloc, run.join.as_slice())?))),
        _ => Ok(None),
    }
}

/// The settings as the text of a file that says them, a line for each key in the order of `Key::ALL`, but for `random_key`. Comments say
/// how soon a member that stops is found by them.
pub fn show_settings(alloc: Global, run: &RunSettings) -> Result<String, AllocError>
    requires { AreInRange run.now }
{
    let mut text = String::new(alloc);
    for key in Key::ALL {
        if let Some(value) = value_of(alloc, key, run)? {
            write!(text, "{key} = {value}\n")?;
        }
    }
    if run.random_key.is_some() {
        text.push_str(HIDDEN)?;
    }
    write_detection(alloc, &mut text, run)?;
    Ok(text)
}
