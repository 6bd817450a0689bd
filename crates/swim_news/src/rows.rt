//! Rows of all members at one time.

ghost use Rattle.std.specs.Prelude.{◌≡◌, ◌↔◌, ◌<◌, ◌≤◌, ◌++◌, ◌∷◌, [], length, IsTrue, IsFalse};
ghost use Rattle.swim_news.specs.News.{AreFrom, last_of};

use arrayvec::ArrayVec;
use std::marker::Model;
use swim_wire::{Endpoint, MEMBERS_MAX, UPDATES_MAX, Update};

/// The most pages of all rows, the last of which is not full.
pub const PAGES_MAX: usize = MEMBERS_MAX / UPDATES_MAX + 1;

/// Whether the row's member comes after those of the rows.
fn comes_after(rows: &[Update], row: &Update) -> bool
    requires { AreFrom 0 rows.now }
    ensures { IsTrue result ↔ AreFrom 0 (rows.now ++ row.now ∷ []) }
{
    match rows.last() {
        Some(last) => last.who < row.who,
        None => true,
    }
}

/// What a member knows of all members, itself among them: a row each, in the order of their endpoints.
#[derive(Drop)]
pub struct Rows {
    items: ArrayVec<Update, MEMBERS_MAX>,
}

impl Model for Rows {
    ghost use Rattle.std.specs.Prelude.{List};
    ghost use Rattle.swim_wire.specs.declared.update.Update.{Update as Updates};
    ghost use Rattle.swim_news.specs.News.{AreFrom};

    ghost Value = { List Updates };

    ghost view = { λ r. r.items.items };

    ghost invariant = { λ r. AreFrom 0 r.items.items };
}

impl Rows {
    /// No rows.
    pub fn new() -> Rows
        ensures { result ≡ [] }
    {
        Rows {
            items: ArrayVec::new(),
        }
    }

    /// The rows, in the order of their members.
    pub fn as_slice(&self) -> &[Update]
        ensures rows { result.now ≡ self.now }
        ensures order { AreFrom 0 result.now }
        ensures most { length result.now ≤ MEMBERS_MAX }
    {
        self.items.as_slice()
    }

    /// The member of the last row.
    pub fn last(&self) -> Option<Endpoint>
        ensures { result ≡ last_of self.now }
    {
        match self.items.last() {
            Some(row) => Some(row.who),
            None => None,
        }
    }

    /// Adds a row after all others, and says so. It is refused if its member does not come after theirs, or if there are
    /// `MEMBERS_MAX` rows.
    pub fn add(&mut self, row: Update) -> bool
        ensures fits { IsTrue result ↔ AreFrom 0 (self.old ++ row ∷ [])
            × (length self.old < MEMBERS_MAX) }
        ensures added { IsTrue result → self.new ≡ self.old ++ row ∷ [] }
        ensures refused { IsFalse result → self.new ≡ self.old }
    {
        if self.items.is_full() || !comes_after(self.items.as_slice(), &row) {
            return false;
        }
        self.items.push(row);
        true
    }
}
