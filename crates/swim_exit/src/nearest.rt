//! Which key somebody meant who wrote another name.

ghost use Rattle.std.specs.Prelude.{◌≡◌, ◌≤◌, ◌++◌, ℕ, List, IfSome, IsTrue, take, drop, length};
ghost use Rattle.swim_settings.specs.Keys.{key_text};
ghost use Rattle.swim_exit.specs.Nearest.{EndAlike, IsNear, StartAlike};

use swim_settings::Key;
use swim_words::Word;

/// What follows in each of two names after what both begin with.
fn after_start<'a>(one: &'a [u8], other: &'a [u8]) -> (&'a [u8], &'a [u8])
    ensures { StartAlike one.now other.now result.0.now result.1.now }
{
    let (mut first, mut second) = (one, other);
    for _ in 0..one.len() {
        match (first.split_first(), second.split_first()) {
            (Some((x, rest)), Some((y, others))) if *x == *y => {
                first = rest;
                second = others;
            }
            _ => return (first, second),
        }
    }
    (first, second)
}

/// What comes in each of two names before what both end with.
fn before_end<'a>(one: &'a [u8], other: &'a [u8]) -> (&'a [u8], &'a [u8])
    ensures { EndAlike one.now other.now result.0.now result.1.now }
{
    let (mut first, mut second) = (one, other);
    for _ in 0..one.len() {
        match (first.split_last(), second.split_last()) {
            (Some((x, rest)), Some((y, others))) if *x == *y => {
                first = rest;
                second = others;
            }
            _ => return (first, second),
        }
    }
    (first, second)
}

/// Whether two names are alike but for so many letters of each at one place, and have others.
fn is_near(one: &[u8], other: &[u8], letters: usize) -> bool
    ensures { IsTrue result → IsNear letters one.now other.now }
{
    let (first, second) = after_start(one, other);
    let (first, second) = before_end(first, second);
    first.len() <= letters && second.len() <= letters && first.len() < one.len()
}

/// The key that is alike but for so many letters.
fn near(name: &[u8], letters: usize) -> Option<Key>
    ensures { IfSome result (λ key. IsNear letters name.now (key_text key)) }
{
    Key::ALL
        .iter()
        .copied()
        .find(|key| is_near(name, key.text().as_bytes(), letters))
}

/// The key that somebody meant who wrote this name, if one is alike: but for a letter, or else for two.
pub(crate) fn nearest(name: &[u8]) -> Option<Key>
    ensures { IfSome result (λ key. IsNear 2 name.now (key_text key)) }
{
    match near(name, 1) {
        Some(key) => Some(key),
        None => near(name, 2),
    }
}
