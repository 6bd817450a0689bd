//! Members that do what the nodes do, so that what each of them holds can be seen, and whether the law of detection is kept.

ghost use Rattle.swim_member.specs.Checks.{AreSound};

use crate::detection::{Deadline, cause_at_tick};
use crate::fault::SimulateFault;
use crate::place::place_of;
use std::alloc::Global;
use std::collections::BTreeMap;
use swim_member::{Answer, Counts, Judgement, Member, MemberState, Out, Settings};
use swim_node::Entry;
use swim_rules::{ROWS_MAX, Row};
use swim_wire::{Cursor, Datagram, Endpoint, Kind, NUMBER_MAX, Update, UpdateKind};
use thiserror::Error;

/// How the law of detection is broken.
#[derive(Clone, Copy, Debug, PartialEq, Eq, Error)]
pub enum Lapse {
    /// A member holds or tells a Suspect or a Confirm that it was not told, and did not find itself.
    #[error("nothing caused it")]
    Uncaused,
    /// A member holds another for alive or suspected for longer than the law lets it.
    #[error("it should have been found by now")]
    Unfound,
}

/// The ping that began a period.
#[derive(Clone, Copy, Drop)]
struct Ping {
    who: Endpoint,
    seq: u32,
    is_answered: bool,
}

/// What a member may hold and tell of others by the law of detection.
#[derive(Drop)]
struct Allowed {
    me: Endpoint,
    /// Each Suspect and each Confirm that had a cause, by the member that it is about.
    caused: BTreeMap<Endpoint, Vec<Update>>,
    alloc: Global,
    /// The deadline of each member that may be held for alive or suspected.
    deadlines: Vec<Option<Deadline>>,
    ping: Option<Ping>,
    /// How many rows there were of each kind when they were looked at.
    counts: Counts,
}

impl Allowed {
    /// Whether this may be held, or told.
    fn has(&self, update: &Update) -> bool {
        if update.kind == UpdateKind::Alive || update.who == self.me {
            return true;
        }
        match self.caused.get(&update.who) {
            Some(caused) => caused.iter().rev().any(|known| *known == *update),
            None => false,
        }
    }

    /// There is a cause to hold this.
    fn cause(&mut self, update: &Update) -> Result<(), SimulateFault> {
        if self.has(update) {
            return Ok(());
        }
        if let Some(caused) = self.caused.get_mut(&update.who) {
            caused.push(*update)?;
            return Ok(());
        }
        let mut caused = Vec::new(self.alloc);
        caused.push(*update)?;
        self.caused.insert(update.who, caused)?;
        Ok(())
    }

    /// There is no deadline for the members from this place to that one.
    fn clear(&mut self, from: usize, to: usize) {
        for place in from..to {
            if let Some(deadline) = self.deadlines.get_mut(place) {
                *deadline = None;
            }
        }
    }

    /// An ack vouches for the member that it is about, and answers a ping of this sequence.
    fn hear_ack(&mut self, subject: Cursor, seq: u32) {
        let Some(who) = subject.endpoint() else {
            return;
        };
        if let Some(deadline) = self.deadlines.get_mut(place_of(who)) {
            *deadline = None;
        }
        if let Some(ping) = &mut self.ping {
            ping.is_answered = ping.is_answered || ping.who == who && ping.seq == seq;
        }
    }

    /// An update that is told has a cause, and may vouch for the member that it is about. After a Confirm the member may be
    /// held for alive anew, before its row is looked at.
    fn hear(&mut self, update: &Update) -> Result<(), SimulateFault> {
        if let Some(Some(deadline)) = self.deadlines.get(place_of(update.who)).copied() {
            if update.kind == UpdateKind::Confirm || !deadline.is_low(update) {
                let place = place_of(update.who);
                self.clear(place, place.saturating_add(1));
            }
        }
        self.cause(update)
    }

    /// A datagram is accepted.
    fn receive(&mut self, datagram: &Datagram) -> Result<(), SimulateFault> {
        for update in datagram.updates.as_slice() {
            self.hear(update)?;
        }
        if datagram.kind == Kind::Ack {
            self.hear_ack(datagram.subject, datagram.seq);
        }
        Ok(())
    }

    /// Whether a tick may make this of a row: a Suspect only if the ping of this period was one of that member, and no ack
    /// came for it.
    fn may_make(&self, made: &Update) -> bool {
        if made.kind != UpdateKind::Suspect {
            return true;
        }
        match &self.ping {
            Some(ping) => ping.who == made.who && !ping.is_answered,
            None => false,
        }
    }

    /// What a tick makes of a row has a cause, if it may make it.
    fn cause_made(&mut self, made: &Update) -> Result<(), SimulateFault> {
        if self.may_make(made) {
            return self.cause(made);
        }
        Ok(())
    }

    /// What the next tick makes of a row has a cause.
    fn cause_next(&mut self, state: &MemberState, row: &Row) -> Result<(), SimulateFault>
        requires sound { AreSound state.now.settings }
    {
        match cause_at_tick(state, row) {
            Some(made) => self.cause_made(&made),
            None => Ok(()),
        }
    }

    /// The deadline of a row is noted, or is over.
    fn time(&mut self, state: &MemberState, row: &Row) -> Option<(Update, Lapse)>
        requires sound { AreSound state.now.settings }
    {
        let most = self.deadlines.len().saturating_sub(1).min(ROWS_MAX);
        let new = Deadline::of(state, row, most);
        let Some(deadline) = self.deadlines.get_mut(place_of(row.who())) else {
            return None;
        };
        let is_over = new.is_some()
            && matches!(deadline, Some(old) if old.due <= u128::from(state.time));
        *deadline = match (*deadline, new) {
            (Some(old), Some(new)) if old.due < new.due => Some(old),
            _ => new,
        };
        if is_over {
            return Some((row.update, Lapse::Unfound));
        }
        None
    }

    /// A row is looked at before a tick.
    fn look_at(
        &mut self,
        state: &MemberState,
        row: &Row,
    ) -> Result<Option<(Update, Lapse)>, SimulateFault>
        requires sound { AreSound state.now.settings }
    {
        if !self.has(&row.update) {
            return Ok(Some((row.update, Lapse::Uncaused)));
        }
        self.cause_next(state, row)?;
        Ok(self.time(state, row))
    }

    /// The rows of a member are looked at before a tick, if one may change by it, or did since they were looked at.
    fn look(&mut self, member: &Member) -> Result<Option<(Update, Lapse)>, SimulateFault> {
        let counts = member.counts();
        if counts == self.counts && counts.suspect == 0 && !member.ends_period() {
            return Ok(None);
        }
        self.counts = counts;
        let state = member.state();
        let mut next = 0usize;
        let mut found = None;
        let seen = &state;
        for index in 0..seen.rows.len() {
            let row = seen.rows[index];
            let place = place_of(row.who());
            self.clear(next, place);
            next = place.saturating_add(1);
            found = found.or(self.look_at(seen, &row)?);
        }
        let members = self.deadlines.len();
        self.clear(next, members);
        Ok(found)
    }

    /// A tick that began a period sent these datagrams.
    fn begin_period(&mut self, outs: &[Out]) {
        self.ping = None;
        for out in outs {
            if out.datagram.kind == Kind::Ping {
                self.ping = Some(Ping {
                    who: out.to,
                    seq: out.datagram.seq,
                    is_answered: false,
                });
            }
        }
    }

    /// The first update of these datagrams that may not be told.
    fn first_uncaused(&self, outs: &[Out]) -> Option<(Update, Lapse)> {
        for out in outs {
            for update in out.datagram.updates.as_slice() {
                if !self.has(update) {
                    return Some((*update, Lapse::Uncaused));
                }
            }
        }
        None
    }
}

/// A member that does what a node does, and what it may hold.
#[derive(Drop)]
pub struct Shadow {
    member: Member,
    allowed: Allowed,
    /// The datagram of the next call, where it is one.
    read: Datagram,
}

impl Shadow {
    /// What a node does that begins with these settings and this number, in a group of so many members. None if no member
    /// begins so.
    pub fn new(
        alloc: Global,
        settings: &Settings,
        first: u64,
        members: usize,
    ) -> Result<Option<Shadow>, SimulateFault> {
        if settings.check().is_err() || first < 1 || NUMBER_MAX < first {
            return Ok(None);
        }
        let member = Member::new(*settings, first);
        let mut deadlines = Vec::new(alloc);
        deadlines.resize(members, None)?;
        let allowed = Allowed {
            me: settings.me,
            caused: BTreeMap::new(alloc),
            alloc,
            deadlines,
            ping: None,
            counts: member.counts(),
        };
        Ok(Some(Shadow {
            member,
            allowed,
            read: Datagram::default(),
        }))
    }

    /// Does what the node did last. Gives an update by which the law of detection is broken, if there is one.
    pub fn follow(&mut self, entry: &Entry) -> Result<Option<(Update, Lapse)>, SimulateFault> {
        let judged = self.member.judge(&entry.event, &mut self.read);
        let mut found = None;
        let mut begins = false;
        match &judged {
            Judgement::Datagram { own: _ } => self.allowed.receive(&self.read)?,
            Judgement::Tick => {
                begins = self.member.ends_period();
                found = self.allowed.look(&self.member)?;
            }
            _ => {}
        }
        let granted = entry.granted.max(self.member.number());
        let mut said = Answer::nothing();
        self.member
            .act(&entry.event, judged, &self.read, granted, &mut said);
        if begins {
            self.allowed.begin_period(entry.outs.as_slice());
        }
        Ok(found.or(self.allowed.first_uncaused(entry.outs.as_slice())))
    }
}
