//! Probing in turns (SWIM, section 4.3): a list of members is gone through in a random order, and only then is a new one
//! made. So the time until a member is probed is bounded.

ghost use Rattle.std.specs.Prelude.{◌≡◌, ◌==◌, ◌+◌, ◌≤◌, [], map, take, drop, length, slice_get, MatchOption};
ghost use Rattle.std.specs.List.{filter, find, position_or_len};
ghost use Rattle.swim_rules.specs.Rows.{is_eligible};
ghost use Rattle.swim_member.specs.Member.{row_name, is_eligible_in};
ghost use Rattle.swim_rules.specs.Deals.{IsDeal};
ghost use Rattle.swim_member.specs.Turn.{dealt};
ghost use Rattle.swim_member.specs.Machinery.Turns.{IsTurn, target, turned};

use crate::member::{Member, has_eligible};
use arrayvec::ArrayVec;
use std::marker::Model;
use swim_rules::{Deal, ROWS_MAX, Row, Table};
use swim_wire::{Endpoint, copied};

/// The turn list, and how far the probing is in it.
#[derive(Drop)]
pub(crate) struct TurnList {
    listed: ArrayVec<Endpoint, ROWS_MAX>,
    /// How many of them were probed or passed over.
    place: usize,
}

impl Model for TurnList {
    ghost use Rattle.swim_member.specs.Machinery.Turns.{TurnListView, IsTurn};

    ghost Value = { TurnListView };

    ghost view = { λ t. record { listed = t.listed.items; place = t.place } };

    ghost invariant = { λ t. IsTurn t.listed.items t.place };
}

/// The members of the rows that are Alive or Suspect.
fn eligible_names(rows: &[Row]) -> ArrayVec<Endpoint, ROWS_MAX>
    requires { length rows.now ≤ ROWS_MAX }
    ensures { result.items ≡ map row_name (filter is_eligible rows.now) }
{
    let mut names = ArrayVec::new();
    for row in rows {
        if row.is_eligible() {
            names.push(row.who());
        }
    }
    names
}

/// These members, numbered from 0, in the order in which the deal names their numbers.
fn deal_out(names: &[Endpoint], deal: &Deal) -> ArrayVec<Endpoint, ROWS_MAX>
    ensures dealt { result.items ≡ dealt names.now deal.now }
    ensures kept { IsDeal deal.now }
{
    let mut listed = ArrayVec::new();
    for number in deal.numbers() {
        if let Some(name) = names.get(*number as usize) {
            listed.push(*name);
        }
    }
    listed
}

impl TurnList {
    /// A turn list that is empty.
    pub(crate) fn new() -> TurnList
        ensures { result ≡ record { listed = []; place = 0 } }
    {
        TurnList {
            listed: ArrayVec::new(),
            place: 0,
        }
    }

    /// That nobody is listed twice. It does nothing: its contract is what counts.
    pub(crate) fn nobody_is_listed_twice(&self)
        ensures { IsTurn self.now.listed self.now.place }
    {
        // a function knows its type's invariant where it uses a field
        let _ = &self.listed;
    }

    /// A turn list that has come to this place of these members.
    pub(crate) fn with_list(listed: ArrayVec<Endpoint, ROWS_MAX>, place: usize) -> TurnList
        requires { IsTurn listed.items place }
        ensures { result ≡ record { listed = listed.items; place = place } }
    {
        TurnList { listed, place }
    }

    /// A copy of the turn list.
    pub(crate) fn list(&self) -> ArrayVec<Endpoint, ROWS_MAX>
        ensures { result.items ≡ self.now.listed }
    {
        copied(&self.listed)
    }

    /// How many of its members were probed or passed over.
    pub(crate) fn place(&self) -> usize
        ensures { result ≡ self.now.place }
    {
        self.place
    }

    /// The next listed member that is eligible, or none. Those before it are passed over for this turn.
    pub(crate) fn go_on(&mut self, table: &Table) -> Option<Endpoint>
        ensures next { result
            ≡ find (is_eligible_in table.now.rows) (drop self.old.place self.old.listed) }
        ensures listed { self.new.listed ≡ self.old.listed }
        ensures place { MatchOption result (self.new.place ≡ self.old.place) (λ _. self.new.place
            ≡ self.old.place + (position_or_len (is_eligible_in table.now.rows)
            (drop self.old.place self.old.listed) + 1)) }
    {
        for (over, member) in self.listed[self.place..].iter().enumerate() {
            if has_eligible(table, *member) {
                self.place += over + 1;
                return Some(*member);
            }
        }
        None
    }

    /// Makes a new list of the members that are eligible, in the order of the deal, and gives the
    /// first of them, or none where there are none.
    pub(crate) fn begin(&mut self, table: &Table, deal: &Deal) -> Option<Endpoint>
        ensures listed { self.new.listed
            ≡ dealt (map row_name (filter is_eligible table.now.rows)) deal.now }
        ensures first { result ≡ slice_get self.new.listed 0 }
        ensures place { self.new.place ≡ length (take 1 self.new.listed) }
    {
        self.listed = deal_out(&eligible_names(table.rows()), deal);
        let first = self.listed.first().copied();
        self.place = if first.is_some() { 1 } else { 0 };
        first
    }
}

impl Member {
    /// Whom to probe next: the next listed member that is eligible, or else the first of a new list.
    pub(crate) fn take_turn(&mut self, deal: &Deal) -> Option<Endpoint>
        ensures target { result ≡ target self.old deal.now }
        ensures state { self.new ≡ turned self.old deal.now }
    {
        if let Some(next) = self.turn.go_on(&self.table) {
            return Some(next);
        }
        self.turn.begin(&self.table, deal)
    }
}
