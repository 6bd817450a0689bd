//! The answer to `counters`, read and as JSON.

ghost use Rattle.std.specs.Prelude.{◌≡◌, IfSome, IfNone};
ghost use Rattle.swim_shell.specs.Counters.{counters_text};
ghost use Rattle.swim_words.specs.Words.{No};
ghost use Rattle.swim_ask.specs.Answers.{SaysCounters};

use crate::status::read_count;
use std::fmt;
use swim_shell::{COUNTERS, Counter, Counters};

/// The counters that an answer to the line `counters` tells; none where it is no such answer.
pub fn read_counters(answer: &[u8]) -> Option<Counters>
    ensures counters { IfSome result (λ counters. answer.now ≡ counters_text counters.values) }
    ensures none { IfNone result (No (SaysCounters answer.now)) }
{
    let (lines, mut left) = read_count(answer, b"ok", b'\n')?;
    if lines != COUNTERS as u64 {
        return None;
    }
    let mut values = [0; COUNTERS];
    for place in 0..COUNTERS {
        let (count, rest) = read_count(left, Counter::at(place).name().as_bytes(), b'\n')?;
        values[place] = count;
        left = rest;
    }
    if !left.is_empty() {
        return None;
    }
    Some(Counters { values })
}

/// Counters as a JSON object, by their names in the order of their lines: `{"eras":3, .. ,"OtherVersion":0}`, without spaces.
#[derive(Clone, Copy)]
pub struct CountersJson(pub Counters);

impl fmt::Display for CountersJson {
    fn fmt<W: fmt::Write>(&self, f: &mut fmt::Formatter<W>) -> fmt::Result {
        for (place, count) in self.0.values.iter().enumerate() {
            let before = if place == 0 { "{" } else { "," };
            let name = Counter::at(place).name();
            write!(f, "{before}\"{name}\":{count}")?;
        }
        write!(f, "}}")
    }
}
