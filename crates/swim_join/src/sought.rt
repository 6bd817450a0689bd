//! Those that a member looks for: it holds them for failed, or they are on its list and it does not know them.

ghost use Rattle.std.specs.Prelude.{◌≡◌, ◌≤◌, ◌+◌, ◌++◌, [], length};
ghost use Rattle.swim_member.specs.Looks.{is_among};
ghost use Rattle.swim_join.specs.Searches.{back_in, but_for, but_for_drawn, drawn_back, is_back_in, is_sought, missing_in, picked, sought_by, sought_in, wanted_by};

use crate::peers::{LIST_MAX, has_row};
use arrayvec::ArrayVec;
use std::marker::Model;
use swim_wire::{Endpoint, MEMBERS_MAX, Update, UpdateKind};

/// Of so many draws of a member that looks for others one is as always, so that it goes on to join the living ones.
pub(crate) const SEARCHES: u32 = 8;

/// The most members that are looked for: those of all rows, and those of a list.
const SOUGHT_MAX: usize = MEMBERS_MAX + LIST_MAX;

/// The others that a member holds for failed by the rows that it read last, the peers of its list that these do not show, and those that
/// are back and were not joined since. Contracts see it as a list.
#[derive(Drop)]
pub(crate) struct Sought {
    list: ArrayVec<Endpoint, SOUGHT_MAX>,
}

impl Model for Sought {
    ghost use Rattle.std.specs.Prelude.{List, ℕ};

    ghost Value = { List ℕ };

    ghost view = { λ l. l.list.items };
}

/// Whether the member is one of these.
fn is_among(members: &[Endpoint], who: Endpoint) -> bool
    ensures { result ≡ is_among who members.now }
{
    members.iter().any(|member| *member == who)
}

/// Whether the row is of another member that it shows as failed, or that is one of these.
fn is_sought(row: &Update, me: Endpoint, sought: &[Endpoint]) -> bool
    ensures { result ≡ is_sought me sought.now row.now }
{
    row.who != me && (row.kind == UpdateKind::Confirm || is_among(sought, row.who))
}

/// The others that the rows show as failed, and those of these members that they show, in the order of the rows.
fn sought_in(rows: &[Update], me: Endpoint, sought: &[Endpoint]) -> ArrayVec<Endpoint, SOUGHT_MAX>
    requires { length rows.now ≤ MEMBERS_MAX }
    ensures all { result.items ≡ sought_in me rows.now sought.now }
    ensures few { length result.items ≤ length rows.now }
{
    let mut list = ArrayVec::new();
    for row in rows {
        if is_sought(row, me, sought) {
            list.push(row.who);
        }
    }
    list
}

/// Whether a row shows this other member as Alive or Suspect.
fn is_back_in(rows: &[Update], me: Endpoint, who: Endpoint) -> bool
    ensures { result ≡ is_back_in me rows.now who }
{
    rows.iter().any(|row| row.who == who && row.kind != UpdateKind::Confirm && row.who != me)
}

/// Those of these members that are back by the rows, in their order.
fn back_in(rows: &[Update], me: Endpoint, sought: &[Endpoint]) -> ArrayVec<Endpoint, SOUGHT_MAX>
    requires { length sought.now ≤ SOUGHT_MAX }
    ensures { result.items ≡ back_in me rows.now sought.now }
{
    let mut back = ArrayVec::new();
    for who in sought {
        if is_back_in(rows, me, *who) {
            back.push(*who);
        }
    }
    back
}

/// These members but for that one, in their order.
fn but_for(sought: &[Endpoint], who: Endpoint) -> ArrayVec<Endpoint, SOUGHT_MAX>
    requires { length sought.now ≤ SOUGHT_MAX }
    ensures { result.items ≡ but_for who sought.now }
{
    let mut rest = ArrayVec::new();
    for member in sought {
        if *member != who {
            rest.push(*member);
        }
    }
    rest
}

/// Adds the peers of a list that no row shows.
fn add_missing(wanted: &mut ArrayVec<Endpoint, SOUGHT_MAX>, rows: &[Update], peers: &[Endpoint])
    requires { length wanted.old.items + length peers.now ≤ SOUGHT_MAX }
    ensures { wanted.new.items ≡ wanted.old.items ++ missing_in rows.now peers.now }
{
    for peer in peers {
        if !has_row(rows, *peer) {
            wanted.push(*peer);
        }
    }
}

/// The one of these members that a random word draws; none if there is none.
fn picked(members: &[Endpoint], word: u32) -> Option<Endpoint>
    ensures { result ≡ picked members.now word }
{
    if members.is_empty() {
        return None;
    }
    let place = (word / SEARCHES) as usize % members.len();
    members.get(place).copied()
}

/// The member that a random word draws of the others that the rows show as failed, and of the peers of a list that they do not show.
pub(crate) fn wanted(
    rows: &[Update],
    me: Endpoint,
    peers: &[Endpoint],
    word: u32,
) -> Option<Endpoint>
    requires rows { length rows.now ≤ MEMBERS_MAX }
    requires peers { length peers.now ≤ LIST_MAX }
    ensures value { result ≡ wanted_by me rows.now peers.now word }
{
    let mut wanted = sought_in(rows, me, &[]);
    add_missing(&mut wanted, rows, peers);
    picked(wanted.as_slice(), word)
}

impl Sought {
    /// Nobody is sought yet.
    pub(crate) fn new() -> Sought
        ensures { result ≡ [] }
    {
        Sought {
            list: ArrayVec::new(),
        }
    }

    /// How many they are.
    pub(crate) fn count(&self) -> usize
        ensures { result ≡ length self.now }
    {
        self.list.len()
    }

    /// All rows were read: those that they show as failed are sought, and the peers of a list that they do not show, and still those that
    /// are back.
    pub(crate) fn watch(&mut self, rows: &[Update], me: Endpoint, peers: &[Endpoint])
        requires rows { length rows.now ≤ MEMBERS_MAX }
        requires peers { length peers.now ≤ LIST_MAX }
        ensures { self.new ≡ sought_by me rows.now peers.now self.old }
    {
        let mut sought = sought_in(rows, me, self.list.as_slice());
        add_missing(&mut sought, rows, peers);
        self.list = sought;
    }

    /// The one that a random word draws of those that are back by the rows, which is sought no more; none if nobody is back.
    pub(crate) fn take_back(&mut self, rows: &[Update], me: Endpoint, word: u32) -> Option<Endpoint>
        ensures value { result ≡ drawn_back me rows.now self.old word }
        ensures then { self.new ≡ but_for_drawn result self.old }
    {
        let back = back_in(rows, me, self.list.as_slice());
        let drawn = picked(back.as_slice(), word);
        if let Some(who) = drawn {
            self.list = but_for(self.list.as_slice(), who);
        }
        drawn
    }
}
