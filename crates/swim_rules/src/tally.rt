//! What a table keeps of its rows, so that it looks at none of them for a count, or while none is due.

ghost use Rattle.std.specs.Prelude.{◌≡◌, ◌<◌, ◌≤◌, ◌-◌, ◌∷◌, List, length, None};
ghost use Rattle.std.specs.List.{filter, find};
ghost use Rattle.swim_rules.specs.Rows.{is_due, is_of_kind};
ghost use Rattle.swim_rules.specs.declared.table.Row.{Row as Rows};
ghost use Rattle.swim_rules.specs.Machinery.Tallies.{earliest, AreTallies, IsTally};

use crate::table::{ROWS_MAX, Row};
use swim_wire::UpdateKind;

/// What is kept of the rows of one kind.
#[derive(Clone, Copy)]
pub(crate) struct Tally {
    /// How many there are.
    pub(crate) count: usize,
    /// A tick before which none of them was heard. A row that was heard earlier lowers it. One that goes may leave it
    /// too low, until a walk finds none that is due.
    pub(crate) since: u64,
}

/// How many rows are of this kind.
fn count_kind(rows: &[Row], kind: UpdateKind) -> usize
    ensures { result ≡ length (filter (is_of_kind kind) rows.now) }
{
    rows.iter().filter(|row| row.is_of_kind(kind)).count()
}

/// The earliest tick at which a row of this kind was heard, or the greatest number where there is none. It is called: inlined,
/// it would take registers from each tick at which nothing is due.
#[inline(never)]
fn earliest(rows: &[Row], kind: UpdateKind) -> u64
    ensures { result ≡ earliest kind rows.now }
{
    let mut since = u64::MAX;
    for row in rows {
        if row.is_of_kind(kind) {
            since = since.min(row.since);
        }
    }
    since
}

/// The first row of this kind that has stood for so many ticks.
fn find_due(rows: &[Row], kind: UpdateKind, ticks: u64, now: u64) -> Option<Row>
    ensures { result ≡ find (is_due kind ticks now) rows.now }
{
    for row in rows {
        if row.is_due(kind, ticks, now) {
            return Some(*row);
        }
    }
    None
}

impl Tally {
    /// The tally of these rows.
    fn of(rows: &[Row], kind: UpdateKind) -> Tally
        ensures { IsTally kind result rows.now }
    {
        Tally {
            count: count_kind(rows, kind),
            since: earliest(rows, kind),
        }
    }

    /// Counts a row that comes, if it is of this kind.
    fn add(&mut self, kind: UpdateKind, row: &Row)
        requires { (rows : List Rows) × IsTally kind self.old rows × length rows < ROWS_MAX }
        ensures { (rows : List Rows) → IsTally kind self.old rows
            → IsTally kind self.new (row.now ∷ rows) }
    {
        if row.is_of_kind(kind) {
            self.count += 1;
            self.since = self.since.min(row.since);
        }
    }

    /// Counts a row no more, if it is of this kind.
    fn remove(&mut self, kind: UpdateKind, row: &Row)
        requires { (rows : List Rows) × IsTally kind self.old (row.now ∷ rows) }
        ensures { (rows : List Rows) → IsTally kind self.old (row.now ∷ rows)
            → IsTally kind self.new rows }
    {
        if row.is_of_kind(kind) {
            self.count -= 1;
        }
    }

    /// The first of these rows that is of this kind and has stood for so many ticks. While a row from the tick of the
    /// tally would not be due, none is looked at.
    pub(crate) fn first_due(
        &mut self,
        rows: &[Row],
        kind: UpdateKind,
        ticks: u64,
        now: u64,
    ) -> Option<Row>
        requires tally { IsTally kind self.old rows.now }
        ensures answer { result ≡ find (is_due kind ticks now) rows.now }
        ensures tally { IsTally kind self.new rows.now }
        // a walk that finds none makes the tick that is kept exact
        ensures exact { ticks ≤ now - self.old.since → result ≡ None
            → self.new.since ≡ earliest kind rows.now }
    {
        if now.saturating_sub(self.since) < ticks {
            return None;
        }
        let due = find_due(rows, kind, ticks, now);
        if due.is_none() {
            self.since = earliest(rows, kind);
        }
        due
    }
}

/// The tallies of the two kinds of rows that change as time goes on.
#[derive(Clone, Copy)]
pub(crate) struct Tallies {
    pub(crate) suspects: Tally,
    pub(crate) confirms: Tally,
}

impl Tallies {
    /// The tallies of these rows.
    pub(crate) fn of(rows: &[Row]) -> Tallies
        ensures { AreTallies result rows.now }
    {
        Tallies {
            suspects: Tally::of(rows, UpdateKind::Suspect),
            confirms: Tally::of(rows, UpdateKind::Confirm),
        }
    }

    /// Counts a row that comes.
    pub(crate) fn add(&mut self, row: &Row)
        requires { (rows : List Rows) × AreTallies self.old rows × length rows < ROWS_MAX }
        ensures { (rows : List Rows) → AreTallies self.old rows
            → AreTallies self.new (row.now ∷ rows) }
    {
        self.suspects.add(UpdateKind::Suspect, row);
        self.confirms.add(UpdateKind::Confirm, row);
    }

    /// Counts a row no more.
    pub(crate) fn remove(&mut self, row: &Row)
        requires { (rows : List Rows) × AreTallies self.old (row.now ∷ rows) }
        ensures { (rows : List Rows) → AreTallies self.old (row.now ∷ rows)
            → AreTallies self.new rows }
    {
        self.suspects.remove(UpdateKind::Suspect, row);
        self.confirms.remove(UpdateKind::Confirm, row);
    }
}
