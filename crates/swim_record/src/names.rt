//! The names of recordings.

use std::alloc::{AllocError, Global};
use std::fmt;

/// What a name begins with.
const LIFE: &str = "life-";

/// What stands between its two numbers.
const ERA: &str = "-era-";

/// What it ends with.
const END: &str = ".recording";

/// The name of a recording: the number with which the life began, and the place of the era in it, counted from 1. Names are in
/// the order in which their eras ended.
#[derive(Clone, Copy, Debug, PartialEq, Eq, PartialOrd, Ord)]
pub struct FileName {
    /// The number with which the life began, which no other life of the state file has.
    pub life: u64,
    /// The place of the era in its life.
    pub era: u64,
}

impl fmt::Display for FileName {
    fn fmt<W: fmt::Write>(&self, f: &mut fmt::Formatter<W>) -> fmt::Result {
        let life = self.life;
        let era = self.era;
        write!(f, "{LIFE}{life:07}{ERA}{era:06}{END}")
    }
}

/// The two numbers of a text that has the parts of a name.
fn numbers_of(text: &str) -> Option<FileName> {
    let numbers = text.strip_prefix(LIFE)?.strip_suffix(END)?;
    let (life, era) = numbers.split_once(ERA)?;
    Some(FileName {
        life: life.parse().ok()?,
        era: era.parse().ok()?,
    })
}

/// The name that the text is, if it is one, just as it is written. An error is that there is no memory to compare them.
pub fn read_name(alloc: Global, text: &str) -> Result<Option<FileName>, AllocError> {
    let Some(name) = numbers_of(text) else {
        return Ok(None);
    };
    let written = format!(in alloc; "{name}")?;
    if written.as_str() == text {
        Ok(Some(name))
    } else {
        Ok(None)
    }
}
