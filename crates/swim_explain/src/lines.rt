//! A story as lines for a person.

use crate::fact::{Fact, Happening, Purpose};
use std::fmt;
use swim_node::Outcome;
use swim_rules::{Heard, Row};
use swim_wire::{Kind, Update, UpdateKind};

/// What an update says, without its member, as `suspect, number 12`.
#[derive(Clone, Copy)]
struct Said(Update);

impl fmt::Display for Said {
    fn fmt<W: fmt::Write>(&self, f: &mut fmt::Formatter<W>) -> fmt::Result {
        let Update { kind, number, .. } = self.0;
        let kind = kind.name();
        write!(f, "{kind}, number {number}")
    }
}

/// What a row says, as `alive, number 12, since tick 4100`.
#[derive(Clone, Copy)]
struct Held(Row);

impl fmt::Display for Held {
    fn fmt<W: fmt::Write>(&self, f: &mut fmt::Formatter<W>) -> fmt::Result {
        let Row { update, since } = self.0;
        let said = Said(update);
        write!(f, "{said}, since tick {since}")
    }
}

/// What an update of this kind took the place of.
#[derive(Clone, Copy)]
struct Replaced(Row, UpdateKind);

impl fmt::Display for Replaced {
    fn fmt<W: fmt::Write>(&self, f: &mut fmt::Formatter<W>) -> fmt::Result {
        let held = Held(self.0);
        match (self.1, self.0.update.kind) {
            (UpdateKind::Alive, UpdateKind::Suspect) => write!(f, "refuted: it was {held}"),
            (UpdateKind::Alive, UpdateKind::Confirm) => write!(f, "it is back: it was {held}"),
            _ => write!(f, "it was {held}"),
        }
    }
}

/// What became of an update.
#[derive(Clone, Copy)]
struct Met {
    update: Update,
    was: Option<Row>,
    became: Heard,
}

impl fmt::Display for Met {
    fn fmt<W: fmt::Write>(&self, f: &mut fmt::Formatter<W>) -> fmt::Result {
        let said = Said(self.update);
        match (self.became, &self.was) {
            (Heard::Accepted, Some(row)) => {
                let replaced = Replaced(*row, self.update.kind);
                write!(f, "{said} ({replaced})")
            }
            (Heard::Accepted, None) => write!(f, "{said} (it was not known)"),
            (_, Some(row)) => {
                let held = Held(*row);
                write!(f, "{said}, which changes nothing: it stays {held}")
            }
            (Heard::Full, None) => write!(f, "{said}, passed over: no room for a member"),
            (_, None) => write!(f, "{said}, passed over: it is not known"),
        }
    }
}

/// What a datagram is called.
pub(crate) fn name_of(kind: Kind) -> &'static str {
    match kind {
        Kind::Ping => "ping",
        Kind::PingReq => "ping-req",
        Kind::Ack => "ack",
        Kind::Join => "join",
        Kind::Page => "page",
    }
}

/// What is added where a datagram was not sent.
fn loss_of(outcome: Outcome) -> &'static str {
    match outcome {
        Outcome::Taken => "",
        Outcome::Lost => ", which was not sent",
    }
}

/// For what a ping was sent.
#[derive(Clone, Copy)]
struct Why(Purpose);

impl fmt::Display for Why {
    fn fmt<W: fmt::Write>(&self, f: &mut fmt::Formatter<W>) -> fmt::Result {
        match self.0 {
            Purpose::Probe => write!(f, "probed by a ping"),
            Purpose::Relay(asker) => write!(f, "pinged for {asker}"),
            Purpose::Leave => write!(f, "told by a ping that this member leaves"),
        }
    }
}

/// What is held where the era begins.
#[derive(Clone, Copy)]
struct BeginningLine(Option<Row>);

impl fmt::Display for BeginningLine {
    fn fmt<W: fmt::Write>(&self, f: &mut fmt::Formatter<W>) -> fmt::Result {
        match self.0 {
            None => write!(f, "the era begins: it is not known"),
            Some(row) => {
                let held = Held(row);
                write!(f, "the era begins: it is {held}")
            }
        }
    }
}

/// What time or an ack did, or what became of the member whose era it is.
#[derive(Clone, Copy)]
struct Changed(Fact);

impl fmt::Display for Changed {
    fn fmt<W: fmt::Write>(&self, f: &mut fmt::Formatter<W>) -> fmt::Result {
        match self.0 {
            Fact::Answered { by, seq } => write!(f, "{by} answered the probe, sequence {seq}"),
            Fact::Unanswered { seq } => {
                write!(
                    f,
                    "the period ends, and nobody answered the probe, sequence {seq}"
                )
            }
            Fact::Suspected { number, seq } => {
                write!(
                    f,
                    "suspect, number {number}, accused: nobody answered the probe, sequence {seq}"
                )
            }
            Fact::Confirmed { number, since } => {
                write!(
                    f,
                    "confirm, number {number}, expired: nothing refuted the suspicion of tick {since}"
                )
            }
            Fact::Forgotten { since } => write!(f, "forgotten: it was confirm since tick {since}"),
            Fact::Renumbered { from, to } => {
                write!(f, "the incarnation is {to} now (it was {from})")
            }
            Fact::Left => write!(f, "this member left"),
            _ => write!(f, "this member was expelled"),
        }
    }
}

/// What was sent.
#[derive(Clone, Copy)]
struct SentFact(Fact);

impl fmt::Display for SentFact {
    fn fmt<W: fmt::Write>(&self, f: &mut fmt::Formatter<W>) -> fmt::Result {
        match self.0 {
            Fact::Pinged {
                purpose,
                seq,
                outcome,
            } => {
                let (why, loss) = (Why(purpose), loss_of(outcome));
                write!(f, "{why}, sequence {seq}{loss}")
            }
            Fact::Asked {
                helper,
                seq,
                outcome,
            } => {
                let loss = loss_of(outcome);
                write!(f, "{helper} was asked to ping it, sequence {seq}{loss}")
            }
            Fact::Joined { seq, outcome } => {
                let loss = loss_of(outcome);
                write!(f, "asked for all that it knows, sequence {seq}{loss}")
            }
            fact => {
                let changed = Changed(fact);
                write!(f, "{changed}")
            }
        }
    }
}

impl fmt::Display for Fact {
    fn fmt<W: fmt::Write>(&self, f: &mut fmt::Formatter<W>) -> fmt::Result {
        match *self {
            Fact::Began { row } => {
                let beginning = BeginningLine(row);
                write!(f, "{beginning}")
            }
            Fact::Came { kind, seq } => {
                let name = name_of(kind);
                write!(f, "a datagram of its own came: {name}, sequence {seq}")
            }
            Fact::Told {
                by,
                update,
                was,
                became,
            } => {
                let met = Met {
                    update,
                    was,
                    became,
                };
                write!(f, "{by} told: {met}")
            }
            Fact::ToldItself { by, update } => {
                let said = Said(update);
                write!(f, "{by} told: {said}")
            }
            fact => {
                let sent = SentFact(fact);
                write!(f, "{sent}")
            }
        }
    }
}

impl fmt::Display for Happening {
    fn fmt<W: fmt::Write>(&self, f: &mut fmt::Formatter<W>) -> fmt::Result {
        let (tick, fact) = (self.tick, self.fact);
        write!(f, "tick {tick}  {fact}")
    }
}
