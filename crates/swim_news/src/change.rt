//! What became of a member, and how it is written.

ghost use Rattle.std.specs.Prelude.{◌≡◌, ◌∷◌, [], IfSome, IfNone};
ghost use Rattle.swim_news.specs.News.{Turns, new_of, old_of, who_of};

use crate::state::state_name;
use std::fmt;
use swim_wire::{Endpoint, Update};

/// What became of a member's row from one list of rows to a later one. It prints as
/// `member 10.0.0.2:7000 alive 3, was suspect 2`: the state, the number, and `unknown` where there is no row.
#[derive(Clone, Copy, Debug, PartialEq, Eq)]
pub enum Change {
    /// The member had no row.
    New(Update),
    /// Its row is another one.
    Changed {
        /// The row that it was.
        was: Update,
        /// The row that it is.
        now: Update,
    },
    /// It has no row any more.
    Gone(Update),
}

/// A new row that fills the unused places of a list.
impl Default for Change {
    fn default() -> Change {
        Change::New(Update::default())
    }
}

impl Change {
    /// The member.
    pub(crate) fn who(&self) -> Endpoint
        ensures { result ≡ who_of (Turns self.now) }
    {
        match self {
            Change::New(row) | Change::Gone(row) => row.who,
            Change::Changed { was, .. } => was.who,
        }
    }

    /// The row that it was, if there was one.
    pub(crate) fn was(&self) -> Option<Update>
        ensures row { IfSome result (λ row. old_of (Turns self.now) ≡ row ∷ []) }
        ensures none { IfNone result (old_of (Turns self.now) ≡ []) }
    {
        match self {
            Change::New(_) => None,
            Change::Changed { was, .. } | Change::Gone(was) => Some(*was),
        }
    }

    /// The row that it is, if there is one.
    pub fn now(&self) -> Option<Update>
        ensures row { IfSome result (λ row. new_of (Turns self.now) ≡ row ∷ []) }
        ensures none { IfNone result (new_of (Turns self.now) ≡ []) }
    {
        match self {
            Change::New(now) | Change::Changed { now, .. } => Some(*now),
            Change::Gone(_) => None,
        }
    }
}

impl fmt::Display for Change {
    fn fmt<W: fmt::Write>(&self, f: &mut fmt::Formatter<W>) -> fmt::Result {
        let (who, was, now) = (self.who(), Said(self.was()), Said(self.now()));
        write!(f, "member {who} {now}, was {was}")
    }
}

/// A row without its member.
#[derive(Clone, Copy)]
struct Said(Option<Update>);

impl fmt::Display for Said {
    fn fmt<W: fmt::Write>(&self, f: &mut fmt::Formatter<W>) -> fmt::Result {
        match self.0 {
            Some(row) => {
                let state = state_name(row.kind);
                let number = row.number;
                write!(f, "{state} {number}")
            }
            None => write!(f, "unknown"),
        }
    }
}
