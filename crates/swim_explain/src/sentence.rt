//! The cause of the last suspicion, in one sentence.

use crate::account::Account;
use crate::cause::Case;
use crate::clock::{Ticks, When};
use crate::fact::Fact;
use crate::last::last_suspicion;
use crate::probing::{Probing, probing_of};
use std::alloc::{AllocError, Global};
use std::fmt::{self, Display, Formatter};
use swim_wire::{Endpoint, Update, UpdateKind};

/// Names: `A`, `A and B`, `A, B and C`.
#[derive(Clone, Copy)]
struct Names<'a>(&'a [Endpoint]);

impl<'a> Display for Names<'a> {
    fn fmt<W: fmt::Write>(&self, f: &mut Formatter<W>) -> fmt::Result {
        let count = self.0.len();
        for (place, name) in self.0.iter().enumerate() {
            if place > 0 && place.saturating_add(1) == count {
                f.write_str(" and ")?;
            } else if place > 0 {
                f.write_str(", ")?;
            }
            name.fmt(f)?;
        }
        Ok(())
    }
}

/// Who was asked to ping as well, and that nobody answered.
#[derive(Clone, Copy)]
struct Helped<'a>(&'a [Endpoint]);

impl<'a> Display for Helped<'a> {
    fn fmt<W: fmt::Write>(&self, f: &mut Formatter<W>) -> fmt::Result {
        if self.0.is_empty() {
            return f.write_str("nobody was there to help, no answer");
        }
        let names = Names(self.0);
        write!(f, "{names} helped, no answer")
    }
}

/// Who suspected the member, by which probe.
#[derive(Clone, Copy)]
struct Accusation<'a> {
    who: Endpoint,
    accused: Account,
    probing: &'a Probing,
}

impl<'a> Display for Accusation<'a> {
    fn fmt<W: fmt::Write>(&self, f: &mut Formatter<W>) -> fmt::Result {
        let Accusation {
            who,
            accused,
            probing,
        } = *self;
        let (teller, when, helped) = (
            accused.teller,
            When(accused),
            Helped(probing.helpers.as_slice()),
        );
        match probing.ping {
            Some(ping) => {
                let sent = When(ping);
                write!(
                    f,
                    "{teller} probed {who} at {sent}, {helped}; suspected at {when}"
                )
            }
            None => write!(
                f,
                "{teller} suspected {who} at {when}, since nobody answered its probe"
            ),
        }
    }
}

/// Who told of a suspicion which nobody here began.
#[derive(Clone, Copy)]
struct Hearsay {
    who: Endpoint,
    told: Account,
}

/// Who told an update, and what.
fn said_by(fact: &Fact) -> Option<(Endpoint, Update)> {
    match fact {
        Fact::Told { by, update, .. } | Fact::ToldItself { by, update } => Some((*by, *update)),
        _ => None,
    }
}

impl Display for Hearsay {
    fn fmt<W: fmt::Write>(&self, f: &mut Formatter<W>) -> fmt::Result {
        let Hearsay { who, told } = *self;
        let (teller, when) = (told.teller, When(told));
        match said_by(&told.happening.fact) {
            Some((by, update)) if by == who && update.kind == UpdateKind::Confirm => {
                write!(f, "{who} itself told {teller} at {when} that it leaves")
            }
            Some((by, update)) => {
                let kind = update.kind.name();
                write!(
                    f,
                    "{by} told {teller} at {when} that {who} is {kind}ed; who found that is in none of these recordings"
                )
            }
            None => Ok(()),
        }
    }
}

/// That a suspicion was refuted, or that the member came back after the Confirm.
#[derive(Clone, Copy)]
struct Refuted(Account);

impl Display for Refuted {
    fn fmt<W: fmt::Write>(&self, f: &mut Formatter<W>) -> fmt::Result {
        let when = When(self.0);
        match self.0.happening.fact {
            Fact::Told {
                update,
                was: Some(row),
                ..
            } if row.update.kind == UpdateKind::Confirm => {
                let number = update.number;
                write!(f, "; it is back at {when} with number {number}")
            }
            _ => write!(f, "; refuted at {when}"),
        }
    }
}

/// That a suspicion stood too long.
#[derive(Clone, Copy)]
struct Expired(Account);

impl Display for Expired {
    fn fmt<W: fmt::Write>(&self, f: &mut Formatter<W>) -> fmt::Result {
        let (happening, tick) = (self.0.happening, self.0.tick);
        match happening.fact {
            Fact::Confirmed { since, .. } => {
                let stood = Ticks(happening.tick.saturating_sub(since), tick);
                let when = When(self.0);
                write!(f, "; not refuted in {stood}, confirmed at {when}")
            }
            _ => Ok(()),
        }
    }
}

/// How a suspicion ended.
#[derive(Clone, Copy)]
struct CaseEnd(Case);

impl Display for CaseEnd {
    fn fmt<W: fmt::Write>(&self, f: &mut Formatter<W>) -> fmt::Result {
        let Case {
            expired,
            refuted,
            ..
        } = self.0;
        match (expired, refuted) {
            (Some(expired), Some(refuted)) => {
                let (expired, refuted) = (Expired(expired), Refuted(refuted));
                write!(f, "{expired}{refuted}")
            }
            (Some(expired), None) => {
                let expired = Expired(expired);
                write!(f, "{expired}")
            }
            (None, Some(refuted)) => {
                let refuted = Refuted(refuted);
                write!(f, "{refuted}")
            }
            (None, None) => {
                f.write_str("; these recordings end before it was refuted or confirmed")
            }
        }
    }
}

/// How a suspicion began.
#[derive(Clone, Copy)]
struct CaseStart<'a> {
    who: Endpoint,
    accused: Option<Account>,
    told: Option<Account>,
    probing: &'a Probing,
}

impl<'a> Display for CaseStart<'a> {
    fn fmt<W: fmt::Write>(&self, f: &mut Formatter<W>) -> fmt::Result {
        let CaseStart {
            who,
            accused,
            told,
            probing,
        } = *self;
        match (accused, told) {
            (Some(accused), _) => {
                let accusation = Accusation {
                    who,
                    accused,
                    probing,
                };
                write!(f, "{accusation}")
            }
            (None, Some(told)) => {
                let hearsay = Hearsay { who, told };
                write!(f, "{hearsay}")
            }
            (None, None) => write!(f, "{who} was suspected before these recordings"),
        }
    }
}

/// Why a member was suspected last, and how that ended.
#[derive(Drop)]
pub(crate) struct Sentence {
    who: Endpoint,
    case: Option<Case>,
    probing: Probing,
}

/// What accounts say of the cause.
pub(crate) fn sentence_of(
    alloc: Global,
    accounts: &[Account],
    who: Endpoint,
) -> Result<Sentence, AllocError> {
    let case = last_suspicion(accounts);
    let probing = probing_of(alloc, accounts, &case)?;
    Ok(Sentence { who, case, probing })
}

impl Display for Sentence {
    fn fmt<W: fmt::Write>(&self, f: &mut Formatter<W>) -> fmt::Result {
        let who = self.who;
        let probing = &self.probing;
        match self.case {
            None => write!(f, "nobody suspected {who} in these recordings"),
            Some(case) => {
                let Case { accused, told, .. } = case;
                let start = CaseStart {
                    who,
                    accused,
                    told,
                    probing,
                };
                let end = CaseEnd(case);
                write!(f, "{start}{end}")
            }
        }
    }
}
