//! What a program is told of the members that its own knows.

ghost use Rattle.std.specs.Prelude.{◌≡◌, ◌≢◌, ◌∷◌, ◌++◌, [], IfErr, IfNone, IfOk, IfSome, IsErrOf, OnErr, OnOk};
ghost use Rattle.swim_library.specs.Changes.{AddsAllPages, AddsPage, AreAllRows, FindsChanges, HasLooked, HasNothingToTell, ReadsInVain, TellsChange, no_row_as, row_after_as, row_before_as};
ghost use Rattle.swim_library.specs.declared.refusal.Refusal.TheVariants as why;

use crate::refusal::Refusal;
use crate::running::Running;
use crate::shapes::SwimRow;
use swim_news::{Change, Changes, PAGES_MAX, Rows, compare};
use swim_wire::{Cursor, Endpoint, Update};

/// What a program was told of members, and is to be told next.
#[derive(Drop)]
pub(crate) struct Told {
    /// The rows as they are once it is told all that waits.
    pub(crate) rows: Rows,
    /// The changes that wait, in the order of their members.
    pub(crate) changes: Changes,
}

impl Told {
    /// It was told nothing.
    pub(crate) fn new() -> Told
        ensures rows { result.rows ≡ [] }
        ensures changes { result.changes.items ≡ [] }
    {
        Told {
            rows: Rows::new(),
            changes: Changes::new(),
        }
    }

    /// The first change that waits, which then waits no more.
    fn next(&mut self) -> Option<Change>
        ensures some { IfSome result (λ change. self.old.changes.items
            ≡ change ∷ self.new.changes.items) }
        ensures none { IfNone result (self.old.changes.items ≡ []) }
        ensures same { IfNone result (self.new ≡ self.old) }
        ensures rows { self.new.rows ≡ self.old.rows }
    {
        self.changes.pop_at(0)
    }
}

/// That there is no row of this member, as C sees it.
fn no_row(who: Endpoint) -> SwimRow
    ensures { result ≡ no_row_as who }
{
    SwimRow {
        number: 0,
        address: who.address(),
        port: who.port(),
        kind: 0,
    }
}

/// The row that it is after a change.
fn row_after(change: &Change) -> SwimRow
    ensures { result ≡ row_after_as change.now }
{
    match change {
        Change::New(now) | Change::Changed { now, .. } => SwimRow::of(now),
        Change::Gone(was) => no_row(was.who),
    }
}

/// The row that it was before.
fn row_before(change: &Change) -> SwimRow
    ensures { result ≡ row_before_as change.now }
{
    match change {
        Change::New(now) => no_row(now.who),
        Change::Changed { was, .. } | Change::Gone(was) => SwimRow::of(was),
    }
}

/// Adds the rows of a page. One that is not in order is left out, which does not come.
fn add_page(rows: &mut Rows, page: &[Update])
    ensures { AreAllRows (rows.old ++ page.now) → rows.new ≡ rows.old ++ page.now }
{
    for row in page {
        rows.add(*row);
    }
}

impl Running {
    /// Reads the page after these rows, and says whether it is full.
    fn read_page(&mut self, rows: &mut Rows) -> Result<bool, Refusal>
        ensures read { IfOk result (AddsPage self.old self.new rows.old rows.new) }
        ensures refused { IfErr result (λ refusal. refusal ≡ why.NoMemory) }
        ensures same { OnErr result (self.new ≡ self.old) }
        ensures unread { OnErr result (rows.new ≡ rows.old) }
        ensures told { self.new.told ≡ self.old.told }
        ensures seeking { self.new.seeking ≡ self.old.seeking }
    {
        let after = match rows.last() {
            Some(last) => Cursor::at(last),
            None => Cursor::zero(),
        };
        match self.page_after(after) {
            Ok(page) => {
                add_page(rows, &page);
                Ok(page.is_full())
            }
            Err(refusal) => Err(refusal),
        }
    }

    /// Reads all rows, page by page.
    pub(crate) fn read_rows(&mut self) -> Result<Rows, Refusal>
        ensures read { IfOk result (AddsAllPages self.old self.new) }
        ensures refused { IfErr result (λ refusal. refusal ≡ why.NoMemory) }
        ensures in_vain { OnErr result (ReadsInVain self.old self.new) }
        ensures told { self.new.told ≡ self.old.told }
        ensures seeking { self.new.seeking ≡ self.old.seeking }
    {
        let mut rows = Rows::new();
        for _ in 0..PAGES_MAX {
            match self.read_page(&mut rows) {
                Ok(true) => {}
                Ok(false) => break,
                Err(refusal) => return Err(refusal),
            }
        }
        Ok(rows)
    }

    /// Looks for changes from the rows that were told to those of now.
    fn look(&mut self) -> Result<(), Refusal>
        ensures found { OnOk result (FindsChanges self.old self.new) }
        ensures refused { IfErr result (λ refusal. refusal ≡ why.NoMemory) }
        ensures in_vain { OnErr result (ReadsInVain self.old self.new) }
    {
        let rows = match self.read_rows() {
            Ok(rows) => rows,
            Err(refusal) => return Err(refusal),
        };
        compare(&self.told.rows, &rows, &mut self.told.changes);
        self.told.rows = rows;
        Ok(())
    }

    /// Looks for changes, if none waits.
    fn find_changes(&mut self) -> Result<(), Refusal>
        ensures looked { OnOk result (HasLooked self.old self.new) }
        ensures refused { IfErr result (λ refusal. refusal ≡ why.NoMemory) }
        ensures in_vain { OnErr result (ReadsInVain self.old self.new) }
    {
        if self.told.changes.is_empty() {
            return self.look();
        }
        Ok(())
    }

    /// Tells the next change of a member's row: those that a look found one after another, and then it looks again.
    pub(crate) fn next_change(
        &mut self,
        row: &mut SwimRow,
        was: &mut SwimRow,
    ) -> Result<(), Refusal>
        ensures told { OnOk result (TellsChange self.old self.new row.new was.new) }
        ensures nothing { IsErrOf result why.Nothing → HasNothingToTell self.old self.new }
        ensures refused { IfErr result (λ refusal. refusal ≢ why.Nothing
            → refusal ≡ why.NoMemory) }
        ensures in_vain { IsErrOf result why.NoMemory → ReadsInVain self.old self.new }
        ensures unwritten { OnErr result ((row.new ≡ row.old) × (was.new ≡ was.old)) }
    {
        self.find_changes()?;
        match self.told.next() {
            None => Err(Refusal::Nothing),
            Some(change) => {
                *row = row_after(&change);
                *was = row_before(&change);
                Ok(())
            }
        }
    }
}
