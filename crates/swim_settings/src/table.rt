//! What every file of keys is read by, also a plan of `swim simulate`: its bytes as a TOML table, and its values as numbers. A
//! key that is none of the file's is refused.

ghost use Rattle.std.specs.Prelude.{◌≡◌, ◌^◌, ◌<◌, Some, IfSome, IfOk, IfErr, option_and_then};
ghost use Rattle.toml.specs.Data.{as_integer};
ghost use Rattle.toml.specs.Parse.{parse_document};
ghost use Rattle.toml.specs.View.{view, table_view};
ghost use Rattle.swim_settings.specs.Says.{natural_of, IsOfText};
ghost use Rattle.swim_settings.specs.Unknown.{AreNamed, IsOfUnknown};

use crate::refusal::SettingsRefusal;
use std::alloc::Global;
use swim_words::{Word, named};
use toml::{Table, Value};

/// The bytes as a TOML table.
pub fn read_table(alloc: Global, bytes: &[u8]) -> Result<Table, SettingsRefusal>
    ensures table { IfOk result (λ table. parse_document bytes.now ≡ Some (table_view table)) }
    ensures refused { IfErr result (IsOfText bytes.now) }
{
    match toml::table_from_slice(alloc, bytes) {
        Ok(table) => Ok(table),
        Err(error) if error.is_memory() => Err(SettingsRefusal::Memory),
        Err(_) => Err(SettingsRefusal::Toml),
    }
}

/// Refuses a key that none of these words is; of several the least, by its bytes.
pub fn refuse_unknown<K: Word>(
    alloc: Global,
    keys: &[K],
    table: &Table,
) -> Result<(), SettingsRefusal>
    ensures named { IfOk result (λ _. AreNamed K.text_of keys.now (table_view table.now)) }
    ensures unknown { IfErr result (IsOfUnknown K.text_of keys.now (table_view table.now)) }
{
    for name in table.keys() {
        if named(keys, name.as_str().as_bytes()).is_none() {
            return Err(SettingsRefusal::Unknown(String::from_str(alloc, name.as_str())?));
        }
    }
    Ok(())
}

/// The number that a value is, unless it is none or below 0.
pub fn as_number(value: &Value) -> Option<u64>
    ensures number { result ≡ option_and_then natural_of (as_integer (view value.now)) }
    ensures high { IfSome result (λ number. number < 2 ^ 63) }
{
    match value.as_integer() {
        Some(number) => u64::try_from(number).ok(),
        None => None,
    }
}
