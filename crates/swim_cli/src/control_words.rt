//! The words after `swim ctl`.

ghost use Rattle.std.specs.Prelude.{◌≡◌, ◌↔◌, IsTrue};
ghost use Rattle.swim_cli.specs.Control.{BeginsLine};

use std::alloc::{AllocError, Global};

/// Whether a word is the first one of a control line, and so no address.
fn begins_line(word: &str) -> bool
    ensures { IsTrue result ↔ BeginsLine word.now }
{
    matches!(
        word,
        "status"
            | "about"
            | "members"
            | "counters"
            | "join"
            | "leave"
            | "record"
            | "reload"
            | "stop"
    )
}

/// What stands before the first space of a word.
fn head_of(word: &str) -> &str {
    match word.split_once(' ') {
        Some((head, _)) => head,
        None => word,
    }
}

/// These words with a space between two.
fn line_of(alloc: Global, words: &[&str]) -> Result<String, AllocError> {
    let mut line = String::new(alloc);
    for (place, word) in words.iter().enumerate() {
        line.push_str(if place == 0 { "" } else { " " })?;
        line.push_str(word)?;
    }
    Ok(line)
}

/// A control socket, if it is named, and a control line.
#[derive(Debug, Drop)]
pub struct ControlWords<'a> {
    /// The control socket, not yet judged.
    pub to: Option<&'a str>,
    /// The line.
    pub line: String,
}

impl<'a> ControlWords<'a> {
    /// What these words name: the first is the control socket, unless the member is named beside them, or a control line begins with it
    /// or with what stands before its first space. None where no word is left for a line.
    pub(crate) fn of(
        alloc: Global,
        words: &[&'a str],
        is_named: bool,
    ) -> Result<Option<ControlWords<'a>>, AllocError> {
        let Some((first, rest)) = words.split_first() else {
            return Ok(None);
        };
        let (to, said) = if is_named || begins_line(head_of(*first)) {
            (None, words)
        } else {
            (Some(*first), rest)
        };
        if said.is_empty() {
            return Ok(None);
        }
        let line = line_of(alloc, said)?;
        Ok(Some(ControlWords { to, line }))
    }
}
