//! The values of a table, key by key.

ghost use Rattle.std.specs.Prelude.{◌≡◌, ◌≢◌, ◌^◌, ◌<◌, ◌≤◌, List, ℕ, IfSome, IfNone, IfOk, IfErr};
ghost use Rattle.std.specs.Prelude.{All, Contains, Ok, Some, None, is_some, length, option_and_then, option_map};
ghost use Rattle.hex.specs.Hex.{decode_of};
ghost use Rattle.toml.specs.Data.{as_str};
ghost use Rattle.toml.specs.View.{view, items_view, table_view};
ghost use Rattle.swim_wire.specs.Numbers.{IsEndpoint};
ghost use Rattle.swim_words.specs.Words.{endpoint_text, No};
ghost use Rattle.swim_settings.specs.Says.{value_at, text_at, number_at, IsNumber, IsWithin, IsControlAt, IsEndpointAt, IsChoice, IsFolder, IsPlace, IsWordAt, AreBytes, AreTexts, ArePlaces};
ghost use Rattle.swim_settings.specs.declared.key.Key.TheVariants as keys;
ghost use Rattle.swim_settings.specs.declared.refusal.SettingsRefusal.TheVariants as refusals;

use crate::control::{ControlPlace, as_control};
use crate::key::Key;
use crate::place::{Place, as_place};
use crate::refusal::SettingsRefusal;
use crate::table::as_number;
use arrayvec::ArrayVec;
use hex::FromHex;
use swim_wire::Endpoint;
use swim_words::{Word, named, read_endpoint};
use toml::{Table, Value};

/// The endpoint whose text a value is.
fn as_endpoint(value: &Value) -> Option<Endpoint>
    ensures endpoint { IfSome result (λ e. as_str (view value.now) ≡ Some (endpoint_text e)) }
    ensures none { IfNone result ((e : ℕ) → IsEndpoint e
        → as_str (view value.now) ≢ Some (endpoint_text e)) }
{
    match value.as_str() {
        Some(text) => read_endpoint(text.as_bytes()),
        None => None,
    }
}

/// The 32 bytes that a value spells in hex digits.
fn as_bytes(value: &Value) -> Option<[u8; 32]>
    ensures bytes { IfSome result (λ bytes. (text : List ℕ)
        × (as_str (view value.now) ≡ Some text) × (decode_of text ≡ Ok bytes)) }
    ensures none { IfNone result ((text bytes : List ℕ) → as_str (view value.now) ≡ Some text
        → length bytes ≡ 32 → decode_of text ≢ Ok bytes) }
{
    match value.as_str() {
        Some(text) => <[u8; 32] as FromHex>::from_hex(text).ok(),
        None => None,
    }
}

/// The places whose texts these are, unless there are more than `N`.
fn places_in<const N: usize>(items: &[Value]) -> Option<ArrayVec<Place, N>>
    ensures texts { IfSome result (λ places. AreTexts (items_view items.now) places.items) }
    ensures places { IfSome result (λ places. All IsPlace places.items) }
    ensures none { IfNone result ((places : List Place) → AreTexts (items_view items.now) places
        → All IsPlace places → N < length places) }
{
    let mut places = ArrayVec::new();
    for item in items {
        let place = as_place(item)?;
        if places.is_full() {
            return None;
        }
        places.push(place);
    }
    Some(places)
}

/// What stands at a key.
fn find(table: &Table, key: Key) -> Option<&Value>
    ensures { option_map (λ value. view value.now) result ≡ value_at key (table_view table.now) }
{
    table.get(key.text())
}

/// Whether something stands at a key.
pub(crate) fn has_key(table: &Table, key: Key) -> bool
    ensures { result ≡ is_some (value_at key (table_view table.now)) }
{
    find(table, key).is_some()
}

/// The text at a key that has to be there.
pub(crate) fn read_text(table: &Table, key: Key) -> Result<&str, SettingsRefusal>
    ensures text { IfOk result (λ text. text_at key (table_view table.now) ≡ Some text.now) }
    ensures none { IfErr result (λ refusal. (refusal ≡ refusals.Key key)
        × (text_at key (table_view table.now) ≡ None)) }
{
    match find(table, key) {
        Some(value) => value.as_str().ok_or(SettingsRefusal::Key(key)),
        None => Err(SettingsRefusal::Key(key)),
    }
}

/// Whether the text at a key is the other one of two. It has to be one of them; the usual one is meant where the key isn't
/// there.
pub(crate) fn read_choice(
    table: &Table,
    key: Key,
    usual: &str,
    other: &str,
) -> Result<bool, SettingsRefusal>
    ensures choice { IfOk result (IsChoice key usual.now other.now (table_view table.now)) }
    ensures none { IfErr result (λ refusal. (refusal ≡ refusals.Key key)
        × No (IsChoice key usual.now other.now (table_view table.now))) }
{
    if find(table, key).is_none() {
        return Ok(false);
    }
    let text = read_text(table, key)?;
    if text == other {
        Ok(true)
    } else if text == usual {
        Ok(false)
    } else {
        Err(SettingsRefusal::Key(key))
    }
}

/// The folder at a key, which has to have a name; none where the key isn't there.
pub(crate) fn read_folder(table: &Table, key: Key) -> Result<Option<&str>, SettingsRefusal>
    ensures folder { IfOk result (λ folder.
        IsFolder key (table_view table.now) (option_map (λ f. f.now) folder)) }
    ensures none { IfErr result (λ refusal. (refusal ≡ refusals.Key key)
        × No (IsFolder key (table_view table.now))) }
{
    if find(table, key).is_none() {
        return Ok(None);
    }
    let text = read_text(table, key)?;
    if text.is_empty() {
        return Err(SettingsRefusal::Key(key));
    }
    Ok(Some(text))
}

/// The value, of all that have a word, whose word stands at a key; none where the key isn't there.
pub(crate) fn read_word<W: Word>(
    table: &Table,
    key: Key,
    words: &[W],
) -> Result<Option<W>, SettingsRefusal>
    requires all { (word : W) → Contains words.now word }
    ensures word { IfOk result (IsWordAt W.text_of key (table_view table.now)) }
    ensures none { IfErr result (λ refusal. (refusal ≡ refusals.Key key)
        × No (IsWordAt W.text_of key (table_view table.now))) }
{
    if find(table, key).is_none() {
        return Ok(None);
    }
    let text = read_text(table, key)?;
    match named(words, text.as_bytes()) {
        Some(word) => Ok(Some(word)),
        None => Err(SettingsRefusal::Key(key)),
    }
}

/// The endpoint at a key that has to be there.
pub(crate) fn read_endpoint_at(table: &Table, key: Key) -> Result<Endpoint, SettingsRefusal>
    ensures endpoint { IfOk result (λ e. text_at key (table_view table.now)
        ≡ Some (endpoint_text e)) }
    ensures none { IfErr result (λ refusal. (refusal ≡ refusals.Key key)
        × No (IsEndpointAt key (table_view table.now))) }
{
    match find(table, key) {
        Some(value) => as_endpoint(value).ok_or(SettingsRefusal::Key(key)),
        None => Err(SettingsRefusal::Key(key)),
    }
}

/// The control socket at its key, which has to be there.
pub(crate) fn read_control_at(table: &Table) -> Result<ControlPlace, SettingsRefusal>
    ensures place { IfOk result (IsControlAt (table_view table.now)) }
    ensures none { IfErr result (λ refusal. (refusal ≡ refusals.Key keys.Control)
        × No (IsControlAt (table_view table.now))) }
{
    match find(table, Key::Control) {
        Some(value) => as_control(value).ok_or(SettingsRefusal::Key(Key::Control)),
        None => Err(SettingsRefusal::Key(Key::Control)),
    }
}

/// The number at a key that has to be there.
pub(crate) fn read_number(table: &Table, key: Key) -> Result<u64, SettingsRefusal>
    ensures number { IfOk result (λ number. number_at key (table_view table.now) ≡ Some number) }
    ensures none { IfErr result (λ refusal. (refusal ≡ refusals.Key key)
        × (number_at key (table_view table.now) ≡ None)) }
    ensures high { IfOk result (λ number. number < 2 ^ 63) }
{
    match find(table, key) {
        Some(value) => as_number(value).ok_or(SettingsRefusal::Key(key)),
        None => Err(SettingsRefusal::Key(key)),
    }
}

/// The number at a key, or the default where the key isn't there. It has to be one from `least` to `most`.
pub(crate) fn read_within(
    table: &Table,
    key: Key,
    default: u64,
    least: u64,
    most: u64,
) -> Result<u64, SettingsRefusal>
    ensures number { IfOk result (IsNumber key default (table_view table.now)) }
    ensures range { IfOk result (λ number. (least ≤ number) × (number ≤ most)) }
    ensures none { IfErr result (λ refusal. (refusal ≡ refusals.Key key)
        × No (IsWithin key default least most (table_view table.now))) }
{
    let number = match find(table, key) {
        Some(_) => read_number(table, key)?,
        None => default,
    };
    if number < least || most < number {
        return Err(SettingsRefusal::Key(key));
    }
    Ok(number)
}

/// The bytes that hex digits spell at a key; none where the key isn't there.
pub(crate) fn read_bytes(table: &Table, key: Key) -> Result<Option<[u8; 32]>, SettingsRefusal>
    ensures bytes { IfOk result (AreBytes key (table_view table.now)) }
    ensures none { IfErr result (λ refusal. (refusal ≡ refusals.Key key)
        × No (AreBytes key (table_view table.now))) }
{
    match find(table, key) {
        Some(value) => match as_bytes(value) {
            Some(bytes) => Ok(Some(bytes)),
            None => Err(SettingsRefusal::Key(key)),
        },
        None => Ok(None),
    }
}

/// The places at a key, `N` at the most; none where the key isn't there.
pub(crate) fn read_places<const N: usize>(
    table: &Table,
    key: Key,
) -> Result<ArrayVec<Place, N>, SettingsRefusal>
    ensures places { IfOk result (λ ps. ArePlaces N key (table_view table.now) ps.items) }
    ensures none { IfErr result (λ refusal. (refusal ≡ refusals.Key key)
        × No (ArePlaces N key (table_view table.now))) }
{
    let Some(value) = find(table, key) else {
        return Ok(ArrayVec::new());
    };
    match value.as_array() {
        Some(items) => places_in(items.as_slice()).ok_or(SettingsRefusal::Key(key)),
        None => Err(SettingsRefusal::Key(key)),
    }
}
