//! A story as JSON, an object a line.

use crate::account::Account;
use crate::clock::stamp_of;
use crate::fact::{Fact, Happening, Purpose};
use crate::heading::Heading;
use crate::lines::name_of;
use crate::sentence::Sentence;
use std::fmt;
use swim_member::Settings;
use swim_node::Outcome;
use swim_record::EraTime;
use swim_rules::{Heard, Row};

/// A row without its member, or `null`.
#[derive(Clone, Copy)]
struct HeldJson(Option<Row>);

impl fmt::Display for HeldJson {
    fn fmt<W: fmt::Write>(&self, f: &mut fmt::Formatter<W>) -> fmt::Result {
        match self.0 {
            Some(row) => {
                let (kind, number, since) = (row.update.kind.name(), row.update.number, row.since);
                write!(
                    f,
                    "{{\"kind\":\"{kind}\",\"number\":{number},\"since\":{since}}}"
                )
            }
            None => write!(f, "null"),
        }
    }
}

/// What became of an update, as a word.
fn word_of(heard: Heard) -> &'static str {
    match heard {
        Heard::Accepted => "accepted",
        Heard::Kept => "kept",
        Heard::Unknown => "unknown",
        Heard::Full => "full",
    }
}

/// Whether a datagram was lost.
#[derive(Clone, Copy)]
struct LostJson(Outcome);

impl fmt::Display for LostJson {
    fn fmt<W: fmt::Write>(&self, f: &mut fmt::Formatter<W>) -> fmt::Result {
        match self.0 {
            Outcome::Taken => write!(f, "\"lost\":false"),
            Outcome::Lost => write!(f, "\"lost\":true"),
        }
    }
}

/// For what a ping was sent.
#[derive(Clone, Copy)]
struct PurposeJson(Purpose);

impl fmt::Display for PurposeJson {
    fn fmt<W: fmt::Write>(&self, f: &mut fmt::Formatter<W>) -> fmt::Result {
        match self.0 {
            Purpose::Probe => write!(f, "\"for\":\"probe\""),
            Purpose::Relay(asker) => write!(f, "\"for\":\"relay\",\"asker\":\"{asker}\""),
            Purpose::Leave => write!(f, "\"for\":\"leave\""),
        }
    }
}

/// What time or an ack did, or what became of the member whose era it is.
#[derive(Clone, Copy)]
struct ChangedJson(Fact);

impl fmt::Display for ChangedJson {
    fn fmt<W: fmt::Write>(&self, f: &mut fmt::Formatter<W>) -> fmt::Result {
        match self.0 {
            Fact::Answered { by, seq } => {
                write!(f, "\"fact\":\"answered\",\"by\":\"{by}\",\"seq\":{seq}")
            }
            Fact::Unanswered { seq } => write!(f, "\"fact\":\"unanswered\",\"seq\":{seq}"),
            Fact::Suspected { number, seq } => {
                write!(
                    f,
                    "\"fact\":\"suspected\",\"number\":{number},\"seq\":{seq}"
                )
            }
            Fact::Confirmed { number, since } => {
                write!(
                    f,
                    "\"fact\":\"confirmed\",\"number\":{number},\"since\":{since}"
                )
            }
            Fact::Forgotten { since } => write!(f, "\"fact\":\"forgotten\",\"since\":{since}"),
            Fact::Renumbered { from, to } => {
                write!(f, "\"fact\":\"renumbered\",\"from\":{from},\"to\":{to}")
            }
            Fact::Left => write!(f, "\"fact\":\"left\""),
            _ => write!(f, "\"fact\":\"expelled\""),
        }
    }
}

/// What was sent.
#[derive(Clone, Copy)]
struct SentJson(Fact);

impl fmt::Display for SentJson {
    fn fmt<W: fmt::Write>(&self, f: &mut fmt::Formatter<W>) -> fmt::Result {
        match self.0 {
            Fact::Pinged {
                purpose,
                seq,
                outcome,
            } => {
                let (purpose, lost) = (PurposeJson(purpose), LostJson(outcome));
                write!(f, "\"fact\":\"pinged\",{purpose},\"seq\":{seq},{lost}")
            }
            Fact::Asked {
                helper,
                seq,
                outcome,
            } => {
                let lost = LostJson(outcome);
                write!(
                    f,
                    "\"fact\":\"asked\",\"helper\":\"{helper}\",\"seq\":{seq},{lost}"
                )
            }
            Fact::Joined { seq, outcome } => {
                let lost = LostJson(outcome);
                write!(f, "\"fact\":\"joined\",\"seq\":{seq},{lost}")
            }
            fact => {
                let changed = ChangedJson(fact);
                write!(f, "{changed}")
            }
        }
    }
}

/// A fact, as the members of an object.
#[derive(Clone, Copy)]
struct FactJson(Fact);

impl fmt::Display for FactJson {
    fn fmt<W: fmt::Write>(&self, f: &mut fmt::Formatter<W>) -> fmt::Result {
        match self.0 {
            Fact::Began { row } => {
                let row = HeldJson(row);
                write!(f, "\"fact\":\"began\",\"row\":{row}")
            }
            Fact::Came { kind, seq } => {
                let name = name_of(kind);
                write!(f, "\"fact\":\"came\",\"kind\":\"{name}\",\"seq\":{seq}")
            }
            Fact::Told {
                by,
                update,
                was,
                became,
            } => {
                let (kind, number) = (update.kind.name(), update.number);
                let (was, became) = (HeldJson(was), word_of(became));
                write!(
                    f,
                    "\"fact\":\"told\",\"by\":\"{by}\",\"kind\":\"{kind}\",\"number\":{number},\"was\":{was},\"became\":\"{became}\""
                )
            }
            Fact::ToldItself { by, update } => {
                let (kind, number) = (update.kind.name(), update.number);
                write!(
                    f,
                    "\"fact\":\"told_itself\",\"by\":\"{by}\",\"kind\":\"{kind}\",\"number\":{number}"
                )
            }
            fact => {
                let sent = SentJson(fact);
                write!(f, "{sent}")
            }
        }
    }
}

/// When an account was, as RFC 3339 writes it, or `null`.
#[derive(Clone, Copy)]
struct TimeJson(Option<u64>);

impl fmt::Display for TimeJson {
    fn fmt<W: fmt::Write>(&self, f: &mut fmt::Formatter<W>) -> fmt::Result {
        let stamp = match self.0 {
            Some(at) => stamp_of(at),
            None => None,
        };
        match &stamp {
            Some(stamp) => write!(f, "\"{stamp:.3}\""),
            None => f.write_str("null"),
        }
    }
}

/// An account, as an object.
#[derive(Clone, Copy)]
pub(crate) struct AccountJson(pub(crate) Account);

impl fmt::Display for AccountJson {
    fn fmt<W: fmt::Write>(&self, f: &mut fmt::Formatter<W>) -> fmt::Result {
        let Account {
            teller,
            at,
            happening,
            ..
        } = self.0;
        let Happening { call, tick, fact } = happening;
        let (time, fact) = (TimeJson(at), FactJson(fact));
        write!(
            f,
            "{{\"time\":{time},\"teller\":\"{teller}\",\"call\":{call},\"tick\":{tick},{fact}}}"
        )
    }
}

/// The cause, as an object. The sentence has no letter that JSON writes in another way.
#[derive(Clone, Copy)]
pub(crate) struct CauseJson<'a>(pub(crate) &'a Sentence);

impl<'a> fmt::Display for CauseJson<'a> {
    fn fmt<W: fmt::Write>(&self, f: &mut fmt::Formatter<W>) -> fmt::Result {
        let sentence = self.0;
        write!(f, "{{\"cause\":\"{sentence}\"}}")
    }
}

/// The length of a tick in milliseconds, or `null`.
#[derive(Clone, Copy)]
struct TickJson(Option<EraTime>);

impl fmt::Display for TickJson {
    fn fmt<W: fmt::Write>(&self, f: &mut fmt::Formatter<W>) -> fmt::Result {
        match self.0 {
            Some(time) => {
                let tick = time.tick;
                write!(f, "{tick}")
            }
            None => f.write_str("null"),
        }
    }
}

/// Of whom a story is told, and by whom, as an object.
#[derive(Clone, Copy)]
pub(crate) struct HeadingJson(pub(crate) Heading);

impl fmt::Display for HeadingJson {
    fn fmt<W: fmt::Write>(&self, f: &mut fmt::Formatter<W>) -> fmt::Result {
        let Heading {
            settings,
            time,
            who,
        } = self.0;
        let Settings {
            me,
            period,
            suspect,
            forget,
            ..
        } = settings;
        let tick = TickJson(time);
        write!(
            f,
            "{{\"of\":\"{who}\",\"by\":\"{me}\",\"period\":{period},\"suspect\":{suspect},\"forget\":{forget},\"tick_ms\":{tick}}}"
        )
    }
}
