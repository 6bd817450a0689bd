//! When an era was, as a line of its recording.

ghost use Rattle.std.specs.Prelude.{◌≡◌, ◌≢◌, ◌++◌, ◌∷◌, ℕ, List, codes, true, false, IfSome, IfNone, IsSomeAnd};
ghost use Rattle.swim_words.specs.Words.{No};
ghost use Rattle.swim_record.specs.EraTimes.{IsEraTime, SaysTime, time_numbers, time_text};
ghost use Rattle.swim_record.specs.declared.time.EraTime.{EraTime as EraTimes};

use crate::argument::{Argument, first_word, read_arguments};
use std::fmt;
use swim_words::split_at_byte;

/// When an era was, by the clock of its machine, and how long its ticks are to be.
#[derive(Clone, Copy, Debug, PartialEq, Eq)]
pub struct EraTime {
    /// When it began: milliseconds since the beginning of 1970, in UTC.
    pub begun: u64,
    /// When it ended, likewise. It is less than `begun` only if the clock was set back meanwhile.
    pub ended: u64,
    /// The length of a tick, in milliseconds.
    pub tick: u64,
}

impl fmt::Display for EraTime {
    ghost use Rattle.std.specs.Prelude.{Some};

    ghost output = { λ t. Some (time_text t) };

    fn fmt<W: fmt::Write>(&self, f: &mut fmt::Formatter<W>) -> fmt::Result {
        let EraTime { begun, ended, tick } = *self;
        write!(f, "clock {begun} {ended} {tick}")
    }
}

/// The time that these words say.
fn of_numbers(words: &[Argument]) -> Option<EraTime>
    ensures time { IfSome result (λ t. words.now ≡ time_numbers t) }
    ensures none { IfNone result (No (λ t. words.now ≡ time_numbers t)) }
{
    let [begun, ended, tick] = words else {
        return None;
    };
    Some(EraTime {
        begun: begun.number()?,
        ended: ended.number()?,
        tick: tick.number()?,
    })
}

/// Whether the word begins the line of a time.
fn is_clock(word: &[u8]) -> bool
    ensures yes { result ≡ true → word.now ≡ codes "clock" }
    ensures no { result ≡ false → word.now ≢ codes "clock" }
{
    word == b"clock".as_slice()
}

/// The time that a line says, which has no end.
fn time_of(line: &[u8]) -> Option<EraTime>
    ensures time { IfSome result (SaysTime line.now) }
    ensures none { IfNone result (No (SaysTime line.now)) }
{
    let (word, rest) = first_word(line);
    if !is_clock(word) {
        return None;
    }
    let words = read_arguments(rest)?;
    of_numbers(&words)
}

/// The time that the first line of a text says, and what follows that line's end.
pub fn read_time(text: &[u8]) -> Option<(EraTime, &[u8])>
    ensures time { IfSome result (λ r. text.now ≡ time_text r.0 ++ 10 ∷ r.1.now) }
    // what was written as the line of a time is read as that time
    ensures back { (t : EraTimes) (rest : List ℕ) → IsEraTime t
        → text.now ≡ time_text t ++ 10 ∷ rest
        → IsSomeAnd result (λ r. (r.0 ≡ t) × (r.1.now ≡ rest)) }
{
    let (line, rest) = split_at_byte(text, b'\n')?;
    let time = time_of(line)?;
    Some((time, rest))
}
