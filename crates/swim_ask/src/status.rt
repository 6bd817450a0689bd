//! The answer to `status`, read and as JSON.

ghost use Rattle.std.specs.Prelude.{◌≡◌, ◌≢◌, ◌⊎◌, ◌^◌, ◌<◌, ◌++◌, ◌∷◌, ℕ, List, IfSome, IfNone};
ghost use Rattle.std.specs.Fmt.{decimal};
ghost use Rattle.swim_member.specs.Texts.{phase_word};
ghost use Rattle.swim_shell.specs.Answers.{status_text};
ghost use Rattle.swim_words.specs.Words.{No, Lacks};
ghost use Rattle.swim_ask.specs.Answers.{SaysStatus};
ghost use Rattle.swim_ask.specs.Machinery.Counts.{SaysCounts, counts_from, status_at};

use crate::about::AboutValues;
use std::fmt;
use swim_member::Phase;
use swim_node::Status;
use swim_shell::About;
use swim_words::{read_number, split_at_byte};

/// The phase that the word is.
fn read_phase(word: &[u8]) -> Option<Phase>
    ensures phase { IfSome result (λ phase. word.now ≡ phase_word phase) }
    ensures none { IfNone result (No (λ phase. word.now ≡ phase_word phase)) }
{
    match word {
        b"running" => Some(Phase::Running),
        b"left" => Some(Phase::Left),
        b"expelled" => Some(Phase::Expelled),
        _ => None,
    }
}

/// What stands after a word and a space.
pub(crate) fn after_word<'a>(text: &'a [u8], word: &[u8]) -> Option<&'a [u8]>
    ensures rest { IfSome result (λ rest. text.now ≡ word.now ++ 32 ∷ rest.now) }
    ensures none { IfNone result (Lacks 32 word.now
        → (rest : List ℕ)
        → text.now ≢ word.now ++ 32 ∷ rest) }
{
    let (first, rest) = split_at_byte(text, b' ')?;
    if first == word { Some(rest) } else { None }
}

/// The count after a name, and what stands after the byte that ends it, which is no digit.
pub(crate) fn read_count<'a>(text: &'a [u8], name: &[u8], end: u8) -> Option<(u64, &'a [u8])>
    ensures count { IfSome result (λ r. text.now ≡ name.now ++ 32 ∷ decimal r.0 ++ end ∷ r.1.now) }
    ensures small { IfSome result (λ r. r.0 < 2 ^ 64) }
    ensures none { IfNone result (Lacks 32 name.now
        → (end < 48) ⊎ (57 < end)
        → (count : ℕ) (rest : List ℕ)
        → count < 2 ^ 64
        → text.now ≢ name.now ++ 32 ∷ decimal count ++ end ∷ rest) }
{
    let rest = after_word(text, name)?;
    let (word, after) = split_at_byte(rest, end)?;
    let count = read_number(word)?;
    Some((count, after))
}

/// The name of the count of a status at this place, and the byte that ends the count.
fn count_at(place: usize) -> (&'static [u8], u8)
    ensures name { result.0.now ≡ (status_at place).0 }
    ensures end { result.1 ≡ (status_at place).1 }
{
    match place {
        0 => (b"number", b' '),
        1 => (b"alive", b' '),
        2 => (b"suspect", b' '),
        3 => (b"confirmed", b' '),
        _ => (b"length", b'\n'),
    }
}

/// The counts of a status, and nothing after them.
fn read_counts(text: &[u8]) -> Option<[u64; 5]>
    ensures counts { IfSome result (λ counts. text.now ≡ counts_from status_at 0 counts) }
    ensures none { IfNone result (No (SaysCounts status_at 5 text.now)) }
{
    let mut left = text;
    let mut counts = [0; 5];
    for place in 0..5 {
        let (name, end) = count_at(place);
        let (count, rest) = read_count(left, name, end)?;
        counts[place] = count;
        left = rest;
    }
    if left.is_empty() { Some(counts) } else { None }
}

/// The status that an answer to the line `status` says; none where it is no such answer.
pub fn read_status(answer: &[u8]) -> Option<Status>
    ensures status { IfSome result (λ status. answer.now ≡ status_text status) }
    ensures none { IfNone result (No (SaysStatus answer.now)) }
{
    let rest = after_word(answer, b"ok")?;
    let (phase, rest) = split_at_byte(rest, b' ')?;
    let phase = read_phase(phase)?;
    let [number, alive, suspect, confirmed, length] = read_counts(rest)?;
    Some(Status {
        phase,
        number,
        alive: alive as usize,
        suspect: suspect as usize,
        confirmed: confirmed as usize,
        length: length as usize,
    })
}

/// A status as the values of a JSON object.
#[derive(Clone, Copy)]
struct StatusValues(Status);

/// A status as a JSON object: `{"phase":"running","number":3,"alive":4,"suspect":0,"failed":0,"length":17}`.
#[derive(Clone, Copy)]
pub struct StatusJson(pub Status);

impl fmt::Display for StatusValues {
    fn fmt<W: fmt::Write>(&self, f: &mut fmt::Formatter<W>) -> fmt::Result {
        let Status {
            phase,
            number,
            alive,
            suspect,
            confirmed,
            length,
        } = self.0;
        let phase = phase.name();
        write!(
            f,
            "\"phase\":\"{phase}\",\"number\":{number},\"alive\":{alive},\"suspect\":{suspect},\"failed\":{confirmed},\"length\":{length}"
        )
    }
}

impl fmt::Display for StatusJson {
    fn fmt<W: fmt::Write>(&self, f: &mut fmt::Formatter<W>) -> fmt::Result {
        let values = StatusValues(self.0);
        write!(f, "{{{values}}}")
    }
}

/// A status and who the member is, as one JSON object: the values of `StatusJson`, and then those of `AboutJson`.
#[derive(Clone, Copy)]
pub struct WholeJson(pub Status, pub About);

impl fmt::Display for WholeJson {
    fn fmt<W: fmt::Write>(&self, f: &mut fmt::Formatter<W>) -> fmt::Result {
        let (status, about) = (StatusValues(self.0), AboutValues(self.1));
        write!(f, "{{{status},{about}}}")
    }
}
