//! The table of the other members.

ghost use Rattle.std.specs.Prelude.{◌≡◌, ◌≢◌, ℕ, ◌+◌, ◌<◌, ◌≤◌, IsTrue, List, length, MatchResult, true, slice_get, slice_set, nat_le, []};
ghost use Rattle.swim_wire.specs.Filler.{filler};
ghost use Rattle.std.specs.List.{find, filter, insert, remove, position_or_len};
ghost use Rattle.std.specs.Option.{option_map, option_copied};
ghost use Rattle.swim_rules.specs.Rules.{Told, row, rows};
ghost use Rattle.swim_rules.specs.Rows.{AreInOrder, row_of, answer_to, hear_rows, told_with, is_due, is_eligible, is_of_kind, due_confirm, hear_option, due_to_forget, remove_option, remove_row, confirm_of, is_after, told_option, untold_option, IsTable, LacksRow};
ghost use Rattle.swim_rules.specs.Machinery.Places.{IsRowAt, IsGapAt, row_place, is_there};
ghost use Rattle.swim_rules.specs.Machinery.Tallies.{AreTallies};

use crate::overriding::overrides;
use crate::tally::Tallies;
use arrayvec::ArrayVec;
use std::marker::Model;
use swim_wire::{Cursor, Endpoint, MEMBERS_MAX, Rules, Update, UpdateKind};

/// The most rows of a table: one of each other member.
pub const ROWS_MAX: usize = MEMBERS_MAX - 1;

/// A row of the table: the update that was accepted last, and when.
#[derive(Clone, Copy, Debug, PartialEq, Eq)]
pub struct Row {
    /// What was heard of the member, and overrides all else that was.
    pub update: Update,
    /// The tick at which the update was heard.
    pub since: u64,
}

impl Row {
    /// The member that the row is about.
    pub fn who(&self) -> Endpoint
        ensures { result ≡ self.now.update.who }
    {
        self.update.who
    }

    /// Whether the row is Alive or Suspect.
    pub fn is_eligible(&self) -> bool
        ensures { result ≡ is_eligible self.now }
    {
        self.update.kind != UpdateKind::Confirm
    }

    /// Whether the row is of this kind.
    pub(crate) fn is_of_kind(&self, kind: UpdateKind) -> bool
        ensures { result ≡ is_of_kind kind self.now }
    {
        self.update.kind == kind
    }

    /// Whether the row is of this kind and has stood for so many ticks.
    pub(crate) fn is_due(&self, kind: UpdateKind, ticks: u64, now: u64) -> bool
        ensures { result ≡ is_due kind ticks now self.now }
    {
        self.is_of_kind(kind) && ticks <= now.saturating_sub(self.since)
    }

    /// The Confirm that a Suspect becomes.
    fn confirm(&self) -> Update
        ensures { result ≡ confirm_of self.now }
    {
        Update {
            kind: UpdateKind::Confirm,
            who: self.update.who,
            number: self.update.number,
        }
    }
}

impl Default for Row {
    fn default() -> Row
        ensures { result ≡ record { update = filler; since = 0 } }
    {
        Row {
            update: Update::default(),
            since: 0,
        }
    }
}

/// What became of an update that a table was told.
#[derive(Clone, Copy, Debug, PartialEq, Eq)]
pub enum Heard {
    /// It is the member's row now.
    Accepted,
    /// It does not override the member's row, which stays.
    Kept,
    /// It is a Confirm about a member without a row, and was ignored.
    Unknown,
    /// It is about a member without a row, and was ignored since the table has no room.
    Full,
}

/// The rows of the other members, at most `ROWS_MAX`, in the order of their endpoints.
#[derive(Drop)]
pub struct Table {
    me: Endpoint,
    suspect: u64,
    forget: u64,
    /// By which rules an update overrides another.
    rules: Rules,
    rows: ArrayVec<Row, ROWS_MAX>,
    tallies: Tallies,
}

impl Model for Table {
    ghost use Rattle.swim_rules.specs.Rows.{Members, AreInOrder, LacksRow};
    ghost use Rattle.swim_rules.specs.Machinery.Tallies.{AreTallies};

    ghost Value = { Members };

    ghost view = { λ t. record {
      me = t.me;
      suspect = t.suspect;
      forget = t.forget;
      rules = t.rules;
      rows = t.rows.items;
    } };

    ghost invariant = { λ t. AreInOrder t.rows.items
        × LacksRow t.me t.rows.items
        × AreTallies t.tallies t.rows.items };
}

/// How many rows stand before `who`.
fn place_of(rows: &[Row], who: Endpoint) -> usize
    requires { AreInOrder rows.now }
    ensures { result ≡ row_place who rows.now }
{
    rows.partition_point(|row| row.update.who < who)
}

/// Whether the row at this place is that of `who`.
fn is_row_of(rows: &[Row], place: usize, who: Endpoint) -> bool
    ensures { result ≡ is_there (slice_get rows.now place) who }
{
    match rows.get(place) {
        Some(row) => row.update.who == who,
        None => false,
    }
}

/// Where the row of `who` stands, or else where it would.
fn find_row(rows: &[Row], who: Endpoint) -> Result<usize, usize>
    requires { AreInOrder rows.now }
    ensures { MatchResult result (IsRowAt rows.now who) (IsGapAt rows.now who) }
{
    let place = place_of(rows, who);
    if is_row_of(rows, place, who) {
        Ok(place)
    } else {
        Err(place)
    }
}

/// The row of a member, or none.
fn row_in(rows: &[Row], who: Endpoint) -> Option<Row>
    requires { AreInOrder rows.now }
    ensures { result ≡ row_of rows.now who }
{
    match find_row(rows, who) {
        Ok(place) => Some(rows[place]),
        Err(_) => None,
    }
}

/// Puts a row in the place of another.
fn put(rows: &mut ArrayVec<Row, ROWS_MAX>, place: usize, row: Row)
    requires { place < length rows.old.items }
    ensures { rows.new.items ≡ slice_set rows.old.items place row }
{
    rows[place] = row;
}

/// Puts a row in the place of another, and counts both.
fn replace(rows: &mut ArrayVec<Row, ROWS_MAX>, tallies: &mut Tallies, place: usize, row: Row)
    requires place { place < length rows.old.items }
    requires counted { AreTallies tallies.old rows.old.items }
    ensures rows { rows.new.items ≡ slice_set rows.old.items place row }
    ensures counted { AreTallies tallies.new rows.new.items }
{
    let old = rows[place];
    put(rows, place, row);
    tallies.remove(&old);
    tallies.add(&row);
}

/// Puts a row before the one at this place.
fn insert(rows: &mut ArrayVec<Row, ROWS_MAX>, tallies: &mut Tallies, place: usize, row: Row)
    requires place { place ≤ length rows.old.items }
    requires room { length rows.old.items < ROWS_MAX }
    requires counted { AreTallies tallies.old rows.old.items }
    ensures rows { rows.new.items ≡ insert rows.old.items place row }
    ensures counted { AreTallies tallies.new rows.new.items }
{
    rows.insert(place, row);
    tallies.add(&row);
}

/// Hears an update about the member of one of these rows, or about a new one, by these rules.
fn hear_in(
    rows: &mut ArrayVec<Row, ROWS_MAX>,
    tallies: &mut Tallies,
    update: Update,
    now: u64,
    rules: Rules,
) -> Heard
    requires order { AreInOrder rows.old.items }
    requires counted { AreTallies tallies.old rows.old.items }
    ensures answer { result ≡ answer_to rules rows.old.items update }
    ensures rows { rows.new.items ≡ hear_rows rules rows.old.items update now }
    ensures counted { AreTallies tallies.new rows.new.items }
    ensures most { length rows.new.items ≤ ROWS_MAX }
{
    let row = Row { update, since: now };
    match find_row(rows, update.who) {
        Ok(place) => {
            if !overrides(&update, &rows[place].update, rules) {
                return Heard::Kept;
            }
            replace(rows, tallies, place, row);
            Heard::Accepted
        }
        Err(place) => {
            if update.kind == UpdateKind::Confirm {
                return Heard::Unknown;
            }
            if rows.is_full() {
                return Heard::Full;
            }
            insert(rows, tallies, place, row);
            Heard::Accepted
        }
    }
}

/// Removes the row at this place.
fn remove(rows: &mut ArrayVec<Row, ROWS_MAX>, tallies: &mut Tallies, place: usize)
    requires place { place < length rows.old.items }
    requires counted { AreTallies tallies.old rows.old.items }
    ensures rows { rows.new.items ≡ remove rows.old.items place }
    ensures counted { AreTallies tallies.new rows.new.items }
    ensures one_less { length rows.new.items + 1 ≡ length rows.old.items }
{
    let row = rows.remove(place);
    tallies.remove(&row);
}

/// Removes the row of a member, if there is one. It is called, as `earliest` is.
#[inline(never)]
fn remove_in(rows: &mut ArrayVec<Row, ROWS_MAX>, tallies: &mut Tallies, who: Endpoint)
    requires order { AreInOrder rows.old.items }
    requires counted { AreTallies tallies.old rows.old.items }
    ensures rows { rows.new.items ≡ remove_row rows.old.items who }
    ensures counted { AreTallies tallies.new rows.new.items }
    ensures most { length rows.new.items ≤ ROWS_MAX }
{
    if let Ok(place) = find_row(rows, who) {
        remove(rows, tallies, place);
    }
}

/// The row at this place, or none past the end.
fn row_at(rows: &[Row], place: usize) -> Option<Row>
    ensures { result ≡ slice_get rows.now place }
{
    rows.get(place).copied()
}

/// The first row after a cursor.
fn first_after(rows: &[Row], cursor: Cursor) -> Option<Row>
    requires { AreInOrder rows.now }
    ensures { result ≡ find (is_after cursor) rows.now }
{
    let place = rows.partition_point(|row| row.update.who.number() <= cursor.number());
    row_at(rows, place)
}

/// The row with this number, from 0, among those that are Alive or Suspect.
fn nth_eligible(rows: &[Row], number: usize) -> Option<Row>
    ensures { result ≡ slice_get (filter is_eligible rows.now) number }
{
    let mut left = number;
    for row in rows {
        if row.is_eligible() {
            if left == 0 {
                return Some(*row);
            }
            left -= 1;
        }
    }
    None
}

impl Table {
    /// A table with no rows. It is that of the member `me`, which never gets a row. A Suspect becomes
    /// Confirm after `suspect` ticks, and a Confirm is forgotten after `forget` ticks. By `rules` an
    /// update overrides another.
    pub fn new(me: Endpoint, suspect: u64, forget: u64, rules: Rules) -> Table
        ensures { result ≡ record {
          me = me;
          suspect = suspect;
          forget = forget;
          rules = rules;
          rows = [];
        } }
    {
        Table::with_rows(me, suspect, forget, rules, ArrayVec::new())
    }

    /// A table with these rows, as another one had them. All else is as with `new`.
    pub fn with_rows(
        me: Endpoint,
        suspect: u64,
        forget: u64,
        rules: Rules,
        rows: ArrayVec<Row, ROWS_MAX>,
    ) -> Table
        requires order { AreInOrder rows.items }
        requires others { LacksRow me rows.items }
        ensures { result ≡ record {
          me = me;
          suspect = suspect;
          forget = forget;
          rules = rules;
          rows = rows.items;
        } }
    {
        let tallies = Tallies::of(&rows);
        Table {
            me,
            suspect,
            forget,
            rules,
            rows,
            tallies,
        }
    }

    /// Hears an update about another member at the tick `now`, and answers what became of it.
    pub fn hear(&mut self, update: Update, now: u64) -> Heard
        requires { update.who ≢ self.old.me }
        ensures answer { result ≡ answer_to self.old.rules self.old.rows update }
        ensures rows { self.new
            ≡ record self.old { rows = hear_rows self.old.rules self.old.rows update now } }
        ensures kept { IsTable self.new }
        // rows that are the tops of what was told stay so
        ensures tops { (base : List Row) (told : List Told)
            → rows self.old.rules base told ≡ self.old.rows
            → rows self.old.rules base (told_with result told update now) ≡ self.new.rows }
    {
        hear_in(&mut self.rows, &mut self.tallies, update, now, self.rules)
    }

    /// Turns the first Suspect that is due at the tick `now`, in the order of the members, into a
    /// Confirm with its number, and gives that, or none where no Suspect is due.
    pub fn expire(&mut self, now: u64) -> Option<Update>
        ensures answer { result ≡ due_confirm self.old now }
        ensures rows { self.new ≡ record self.old {
          rows = hear_option self.old.rules self.old.rows (due_confirm self.old now) now;
        } }
        ensures kept { IsTable self.new }
        ensures tops { (base : List Row) (told : List Told)
            → rows self.old.rules base told ≡ self.old.rows
            → rows self.old.rules base (told_option told result now) ≡ self.new.rows }
    {
        let suspects = &mut self.tallies.suspects;
        let row = suspects.first_due(&self.rows, UpdateKind::Suspect, self.suspect, now)?;
        hear_in(
            &mut self.rows,
            &mut self.tallies,
            row.confirm(),
            now,
            self.rules,
        );
        Some(row.confirm())
    }

    /// Forgets the first member whose Confirm is due at the tick `now`, in the order of the members,
    /// and gives it, or none where no Confirm is due.
    pub fn forget(&mut self, now: u64) -> Option<Endpoint>
        ensures answer { result ≡ due_to_forget self.old now }
        ensures rows { self.new
            ≡ record self.old { rows = remove_option self.old.rows (due_to_forget self.old now) } }
        ensures kept { IsTable self.new }
        ensures tops { (base : List Row) (told : List Told)
            → rows self.old.rules base told ≡ self.old.rows
            → rows self.old.rules base (untold_option told result) ≡ self.new.rows }
    {
        let confirms = &mut self.tallies.confirms;
        let row = confirms.first_due(&self.rows, UpdateKind::Confirm, self.forget, now)?;
        let who = row.who();
        remove_in(&mut self.rows, &mut self.tallies, who);
        Some(who)
    }

    /// The row of a member, or none.
    pub fn get(&self, who: Endpoint) -> Option<Row>
        ensures row { result ≡ row_of self.now.rows who }
        // it is the top of what was heard of the member
        ensures top { (base : List Row) (told : List Told)
            → rows self.now.rules base told ≡ self.now.rows
            → result ≡ row self.now.rules base told who }
        ensures kept { IsTable self.now }
    {
        row_in(&self.rows, who)
    }

    /// The rows, in the order of the members.
    pub fn rows(&self) -> &[Row]
        ensures rows { result.now ≡ self.now.rows }
        ensures kept { IsTable self.now }
    {
        &self.rows
    }

    /// How many rows are of this kind.
    pub fn count_of(&self, kind: UpdateKind) -> usize
        ensures count { result ≡ length (filter (is_of_kind kind) self.now.rows) }
        ensures bound { result ≤ ROWS_MAX }
    {
        let suspects = self.tallies.suspects.count;
        let confirms = self.tallies.confirms.count;
        let alive = self.rows.len() - confirms - suspects;
        match kind {
            UpdateKind::Alive => alive,
            UpdateKind::Suspect => suspects,
            UpdateKind::Confirm => confirms,
        }
    }

    /// The first row after a cursor, in the order of the members, or none.
    pub fn row_after(&self, cursor: Cursor) -> Option<Row>
        ensures { result ≡ find (is_after cursor) self.now.rows }
    {
        first_after(&self.rows, cursor)
    }

    /// How many rows are Alive or Suspect.
    pub fn count(&self) -> usize
        ensures count { result ≡ length (filter is_eligible self.now.rows) }
        ensures bound { result ≤ ROWS_MAX }
    {
        self.rows.len() - self.tallies.confirms.count
    }

    /// The row with this number, from 0, among those that are Alive or Suspect, in the order of the
    /// members, or none where there are not so many.
    pub fn eligible(&self, number: usize) -> Option<Row>
        ensures { result ≡ slice_get (filter is_eligible self.now.rows) number }
    {
        nth_eligible(&self.rows, number)
    }
}
