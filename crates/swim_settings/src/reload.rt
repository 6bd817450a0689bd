//! Settings that are read again while the member runs.

ghost use Rattle.std.specs.Prelude.{◌≡◌, ◌+◌, ◌<◌, ◌≤◌, ◌∷◌, [], ◌++◌, length, option_map, string_bytes};
ghost use Rattle.std.specs.List.{filter};
ghost use Rattle.swim_settings.specs.Ranges.{AreInRange};
ghost use Rattle.swim_settings.specs.Reloads.{agree_at, is_taken_anew, needs_restart, restart_keys, same_text, same_number, taken_anew};

use crate::key::{KEYS, Key};
use crate::settings::RunSettings;
use crate::shown::{number_of, text_of};
use arrayvec::ArrayVec;

/// Whether a running member takes the key.
fn is_taken_anew(key: Key) -> bool
    ensures { result ≡ is_taken_anew key }
{
    matches!(
        key,
        Key::Join | Key::Rejoin | Key::Introduce | Key::Record | Key::RecordEras | Key::Log
    )
}

/// Whether these are the same numbers.
fn is_same_number(now: Option<u64>, then: Option<u64>) -> bool
    ensures { result ≡ same_number now then }
{
    match (now, then) {
        (Some(now), Some(then)) => now == then,
        (None, None) => true,
        _ => false,
    }
}

/// Whether these are the same texts.
fn is_same_text(now: Option<&str>, then: Option<&str>) -> bool
    ensures { result ≡ same_text (option_map (λ text. text.now) now.entry)
        (option_map (λ text. text.now) then.entry) }
{
    match (now, then) {
        (Some(now), Some(then)) => now == then,
        (None, None) => true,
        _ => false,
    }
}

/// Whether these are the same keys of a generator.
fn is_same_key(now: Option<[u8; 32]>, then: Option<[u8; 32]>) -> bool
    ensures { result ≡ same_text now then }
{
    match (now, then) {
        (Some(now), Some(then)) => now == then,
        (None, None) => true,
        _ => false,
    }
}

/// Whether both have the same at a key that no running member takes.
fn agree_at(now: &RunSettings, then: &RunSettings, key: Key) -> bool
    ensures { result ≡ agree_at now.now then.now key }
{
    match key {
        Key::Me => now.settings.me == then.settings.me,
        Key::Control => now.control.is_same(&then.control),
        Key::RandomKey => is_same_key(now.random_key, then.random_key),
        key => {
            is_same_number(number_of(key, now), number_of(key, then))
                && is_same_text(text_of(key, now), text_of(key, then))
        }
    }
}

/// Whether both differ at a key that no running member takes.
fn needs_restart(now: &RunSettings, then: &RunSettings, key: Key) -> bool
    ensures { result ≡ needs_restart now.now then.now key }
{
    !is_taken_anew(key) && !agree_at(now, then, key)
}

/// Adds the key, if it needs a restart.
fn add_key(keys: &mut ArrayVec<Key, KEYS>, now: &RunSettings, then: &RunSettings, key: Key)
    requires { length keys.old.items < KEYS }
    ensures added { keys.new.items
        ≡ keys.old.items ++ filter (needs_restart now.now then.now) (key ∷ []) }
    ensures few { length keys.new.items ≤ length keys.old.items + 1 }
{
    if needs_restart(now, then, key) {
        keys.push(key);
    }
}

/// Those of these keys that need a restart.
fn restart_among(now: &RunSettings, then: &RunSettings, all: &[Key]) -> ArrayVec<Key, KEYS>
    requires { length all.now ≤ KEYS }
    ensures { result.items ≡ filter (needs_restart now.now then.now) all.now }
{
    let mut keys = ArrayVec::new();
    for key in all {
        add_key(&mut keys, now, then, *key);
    }
    keys
}

/// The keys at which other settings differ from those in force, and that need a restart.
pub fn restart_keys(now: &RunSettings, then: &RunSettings) -> ArrayVec<Key, KEYS>
    ensures { result.items ≡ restart_keys now.now then.now }
{
    restart_among(now, then, &Key::ALL)
}

impl RunSettings {
    /// The folder of the recordings, if there is one.
    pub fn folder(&self) -> Option<&str>
        ensures { option_map (λ folder. folder.now) result
            ≡ option_map string_bytes self.now.record_folder }
    {
        match &self.record_folder {
            Some(folder) => Some(folder.as_str()),
            None => None,
        }
    }

    /// Takes from other settings the keys that a running member takes, and no others.
    pub fn take_anew(&mut self, then: RunSettings)
        requires now { AreInRange self.old }
        requires then { AreInRange then }
        ensures taken { self.new ≡ taken_anew self.old then }
        ensures range { AreInRange self.new }
    {
        self.join = then.join;
        self.rejoin = then.rejoin;
        self.introduce = then.introduce;
        self.record_folder = then.record_folder;
        self.record_eras = then.record_eras;
        self.log = then.log;
    }
}
