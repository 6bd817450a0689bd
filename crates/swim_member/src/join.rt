//! Joins, asked for and answered, and the pages of what a member knows.

ghost use Rattle.std.specs.Prelude.{◌≡◌, ◌∷◌, [], take, true};
ghost use Rattle.std.specs.List.{find, filter, list_all};
ghost use Rattle.swim_rules.specs.Rows.{AreInOrder, LacksRow};
ghost use Rattle.swim_member.specs.Fit.{may_say};
ghost use Rattle.swim_member.specs.Join.{join_to, on_join, on_page, updates_with, page_after, is_update_after, last_name};
ghost use Rattle.swim_member.specs.Events.{Join_peer, perform, outs, notes};
ghost use Rattle.swim_member.specs.Machinery.Steps.{apply_all, after, notes_by, outs_by, earlier_update};
ghost use Rattle.swim_member.specs.Machinery.Adding.{Adds, HasRoom};

use crate::answer::{Answer, Out};
use crate::member::Member;
use crate::note::Note;
use crate::state::Joining;
use arrayvec::ArrayVec;
use swim_rules::{Row, Table};
use swim_wire::{Cursor, Datagram, Endpoint, Kind, UPDATES_MAX, Update};

/// The member of the last update, or the zero cursor.
fn last_of(updates: &[Update]) -> Cursor
    ensures { result ≡ last_name updates.now }
{
    match updates.last() {
        Some(update) => Cursor::at(update.who),
        None => Cursor::zero(),
    }
}

/// The own update where it comes at all and before a row, else that of the row.
fn earlier(own: &Update, comes: bool, row: &Row) -> Update
    ensures { result ≡ earlier_update own.now comes row.now }
{
    if comes && own.who.number() < row.update.who.number() {
        *own
    } else {
        row.update
    }
}

/// The first update after a cursor out of the rows and the own update, in the order of the members.
fn first_after(table: &Table, own: &Update, cursor: Cursor) -> Option<Update>
    requires order { AreInOrder table.now.rows }
    requires other { LacksRow own.now.who table.now.rows }
    ensures { result ≡ find (is_update_after cursor) (updates_with table.now.rows own.now) }
{
    let comes = cursor.number() < own.who.number();
    match table.row_after(cursor) {
        Some(row) => Some(earlier(own, comes, &row)),
        None if comes => Some(*own),
        None => None,
    }
}

/// Where an update stands in the order of the members.
fn cursor_of(update: &Update) -> Cursor
    ensures { result ≡ update.now.who }
{
    Cursor::at(update.who)
}

/// The next updates after a cursor, at most `UPDATES_MAX`, out of the rows and the own update, in the
/// order of the members.
fn page_of(table: &Table, own: &Update, cursor: Cursor) -> ArrayVec<Update, UPDATES_MAX>
    requires order { AreInOrder table.now.rows }
    requires other { LacksRow own.now.who table.now.rows }
    ensures { result.items
        ≡ take UPDATES_MAX (filter (is_update_after cursor) (updates_with table.now.rows own.now)) }
{
    let mut page = ArrayVec::new();
    let mut last = cursor;
    for _ in 0..UPDATES_MAX {
        match first_after(table, own, last) {
            None => return page,
            Some(update) => {
                last = cursor_of(&update);
                page.push(update);
            }
        }
    }
    page
}

impl Member {
    /// The next updates after a cursor, at most `UPDATES_MAX`, in the order of the members, the own
    /// one among them.
    pub(crate) fn page_after(&self, cursor: Cursor) -> ArrayVec<Update, UPDATES_MAX>
        ensures page { result.items ≡ page_after self.now cursor }
        ensures said { list_all (may_say self.now.settings.me self.now.number) result.items ≡ true }
    {
        page_of(&self.table, &self.own(), cursor)
    }

    /// Asks a member for a page after a cursor, and remembers that.
    fn join_to(&mut self, peer: Endpoint, cursor: Cursor, answer: &mut Answer)
        requires { HasRoom answer.old }
        ensures state { self.new ≡ apply_all (join_to self.old peer cursor) self.old }
        ensures answer { Adds self.old self.new answer.old answer.new
            (outs (join_to self.old peer cursor)) 1 (notes (join_to self.old peer cursor)) }
    {
        let seq = self.take_seq();
        let mut updates = ArrayVec::new();
        updates.push(self.own());
        self.joining = Some(Joining { peer, seq, cursor });
        answer.send(&Out {
            to: peer,
            datagram: Datagram {
                version: self.settings.rules_of(),
                kind: Kind::Join,
                group: self.settings.group,
                seq,
                sender: self.settings.me,
                subject: cursor,
                updates,
            },
        });
    }

    /// Takes the wish to join by a member: it is asked for its first page.
    #[inline(never)]
    pub(crate) fn start_join(&mut self, peer: Endpoint, answer: &mut Answer)
        requires { HasRoom answer.old }
        ensures state { self.new ≡ after self.old (Join_peer peer ∷ []) }
        ensures answer { Adds self.old self.new answer.old answer.new
            (outs_by self.old (Join_peer peer ∷ [])) 1 (notes_by self.old (Join_peer peer ∷ [])) }
    {
        if peer == self.settings.me {
            answer.note(Note::Misdirected);
            return;
        }
        self.join_to(peer, Cursor::zero(), answer);
    }

    /// Answers a join with the page that it asks for.
    pub(crate) fn on_join(&self, join: &Datagram, answer: &mut Answer)
        requires { HasRoom answer.old }
        ensures { Adds self.now self.now answer.old answer.new
            (outs (on_join self.now join.now)) 1 (notes (on_join self.now join.now)) }
    {
        let updates = self.page_after(join.subject);
        answer.send(&Out {
            to: join.sender,
            datagram: Datagram {
                version: self.settings.rules_of(),
                kind: Kind::Page,
                group: self.settings.group,
                seq: join.seq,
                sender: self.settings.me,
                subject: join.subject,
                updates,
            },
        });
    }

    /// Takes a page. A full one that answers the last join leads to the next join.
    pub(crate) fn on_page(&mut self, page: &Datagram, answer: &mut Answer)
        requires { HasRoom answer.old }
        ensures state { self.new ≡ apply_all (on_page self.old page.now self.old.joining) self.old }
        ensures answer { Adds self.old self.new answer.old answer.new
            (outs (on_page self.old page.now self.old.joining)) 1
            (notes (on_page self.old page.now self.old.joining)) }
    {
        let Some(joining) = self.joining else {
            answer.note(Note::Unasked);
            return;
        };
        if page.sender != joining.peer
            || page.seq != joining.seq
            || page.subject != joining.cursor
        {
            answer.note(Note::Unasked);
            return;
        }
        let last = last_of(&page.updates);
        if page.updates.is_full() && joining.cursor.number() < last.number() {
            self.join_to(joining.peer, last, answer);
        } else {
            self.joining = None;
        }
    }
}
