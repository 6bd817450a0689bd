//! Stories as text.

use crate::account::{Account, in_time};
use crate::clock::{Seconds, TimeOfDay, day_of, stamp_of};
use crate::heading::Heading;
use crate::json::{AccountJson, CauseJson, HeadingJson};
use crate::moments::lateness;
use crate::sentence::sentence_of;
use crate::tale::Tale;
use std::alloc::{AllocError, Global};
use std::fmt::{self, Display, Formatter, Write};
use swim_wire::Endpoint;

/// What is printed: of whom, whether all or only what changes or explains something, and whether as JSON.
#[derive(Clone, Copy, Debug)]
pub struct Printed {
    /// Of whom the stories are.
    pub who: Endpoint,
    /// Whether all is printed.
    pub all: bool,
    /// Whether it is JSON, an object a line.
    pub as_json: bool,
}

/// Whose story it is, and by whom it is told.
fn heading_of(tale: &Tale, who: Endpoint) -> Heading {
    Heading {
        settings: tale.settings,
        time: tale.time,
        who,
    }
}

/// Whether an earlier tale than that of this place has the same heading.
fn is_headed(tales: &[Tale], place: usize) -> bool {
    let Some(tale) = tales.get(place) else {
        return false;
    };
    let tick = tale.time.map(|time| time.tick);
    let mut earlier = tales.iter().take(place);
    earlier.any(|earlier| {
        earlier.settings == tale.settings && earlier.time.map(|time| time.tick) == tick
    })
}

/// A heading, on a line.
fn write_heading(text: &mut String, heading: Heading, as_json: bool) -> Result<(), AllocError> {
    if as_json {
        let heading = HeadingJson(heading);
        return writeln!(text, "{heading}");
    }
    writeln!(text, "{heading}")
}

/// The heading of the tale at this place, unless an earlier one has the same.
fn write_heading_at(
    text: &mut String,
    tales: &[Tale],
    place: usize,
    asked: &Printed,
) -> Result<(), AllocError> {
    if is_headed(tales, place) {
        return Ok(());
    }
    match tales.get(place) {
        Some(tale) => write_heading(text, heading_of(tale, asked.who), asked.as_json),
        None => Ok(()),
    }
}

/// The headings of tales, each once.
fn write_headings(text: &mut String, tales: &[Tale], asked: &Printed) -> Result<(), AllocError> {
    for place in 0..tales.len() {
        write_heading_at(text, tales, place, asked)?;
    }
    Ok(())
}

/// What ticks came late in an era, if the times of it may be wrong by more than the period of a probe.
fn write_late(text: &mut String, tale: &Tale) -> Result<(), AllocError> {
    let Some(time) = tale.time else {
        return Ok(());
    };
    let late = lateness(time, tale.ticks);
    if late <= tale.settings.period.saturating_mul(time.tick) {
        return Ok(());
    }
    let (late, path, begun, ended) = (
        Seconds(late),
        tale.path.as_str(),
        TimeOfDay(time.begun),
        TimeOfDay(time.ended),
    );
    writeln!(
        text,
        "Ticks came late or not at all in {path}, from {begun} to {ended}: times of it may be up to {late} too early"
    )
}

/// An account as a line: when it was, who tells it if several do, and what.
#[derive(Clone, Copy)]
struct AccountLine {
    account: Account,
    is_named: bool,
}

impl Display for AccountLine {
    fn fmt<W: fmt::Write>(&self, f: &mut Formatter<W>) -> fmt::Result {
        let Account {
            teller,
            at,
            happening,
            ..
        } = self.account;
        if let Some(at) = at {
            let time = TimeOfDay(at);
            write!(f, "{time} ")?;
        }
        if self.is_named {
            write!(f, "{teller} ")?;
        }
        write!(f, "{happening}")
    }
}

/// The day of a moment, on a line.
fn write_day(alloc: Global, text: &mut String, at: u64) -> Result<(), AllocError> {
    let Some(stamp) = stamp_of(at) else {
        return Ok(());
    };
    let stamp = format!(in alloc; "{stamp:.0}")?;
    match stamp.as_str().split_once('T') {
        Some((date, _)) => writeln!(text, "{date} UTC"),
        None => Ok(()),
    }
}

/// Accounts as lines for a person, with a line where a day begins.
fn write_lines(
    alloc: Global,
    text: &mut String,
    accounts: &[Account],
    is_named: bool,
) -> Result<(), AllocError> {
    let mut day = None;
    for account in accounts {
        if let Some(at) = account.at
            && day != Some(day_of(at))
        {
            day = Some(day_of(at));
            write_day(alloc, text, at)?;
        }
        let line = AccountLine {
            account: *account,
            is_named,
        };
        writeln!(text, "{line}")?;
    }
    Ok(())
}

/// Accounts as objects.
fn write_objects(text: &mut String, accounts: &[Account]) -> Result<(), AllocError> {
    for account in accounts {
        let object = AccountJson(*account);
        writeln!(text, "{object}")?;
    }
    Ok(())
}

/// Whether several members tell these.
fn is_named(tales: &[Tale]) -> bool {
    match tales.first() {
        Some(first) => tales.iter().any(|tale| tale.teller() != first.teller()),
        None => false,
    }
}

/// What of the tales is asked for.
fn write_told(
    alloc: Global,
    text: &mut String,
    tales: &[Tale],
    asked: &Printed,
) -> Result<(), AllocError> {
    let accounts = in_time(alloc, tales, asked.who, asked.all)?;
    if asked.as_json {
        return write_objects(text, &accounts);
    }
    for tale in tales {
        write_late(text, tale)?;
    }
    write_lines(alloc, text, &accounts, is_named(tales))
}

/// The cause, by all that the tales tell.
fn write_cause(
    alloc: Global,
    text: &mut String,
    tales: &[Tale],
    asked: &Printed,
) -> Result<(), AllocError> {
    let (who, as_json) = (asked.who, asked.as_json);
    let accounts = in_time(alloc, tales, who, true)?;
    let cause = sentence_of(alloc, &accounts, who)?;
    if as_json {
        let cause = CauseJson(&cause);
        return writeln!(text, "{cause}");
    }
    writeln!(text, "{cause}")
}

/// What several recordings tell of one member, in the order of time, and in the end the cause of its last suspicion. Eras of unknown
/// time come first, in the order of the tales, with their ticks alone. An error is that there was no memory.
pub fn print_tales(alloc: Global, tales: &[Tale], asked: &Printed) -> Result<String, AllocError> {
    let mut text = String::new(alloc);
    write_headings(&mut text, tales, asked)?;
    write_told(alloc, &mut text, tales, asked)?;
    write_cause(alloc, &mut text, tales, asked)?;
    Ok(text)
}
