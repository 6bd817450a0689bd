//! What is known of a member that another one was told to join.

ghost use Rattle.std.specs.Prelude.{◌≡◌, ◌≢◌, ◌↔◌, Some, true, get_or};
ghost use Rattle.swim_shell.specs.Counters.{counter_at};
ghost use Rattle.swim_shell.specs.declared.counters.Counter.TheVariants as counter;
ghost use Rattle.swim_wire.specs.declared.update.Update.{Update as Row};
ghost use Rattle.swim_ask.specs.JoinRequest.{HasNone};

use crate::asking::{exchange, now};
use crate::counters::read_counters;
use crate::paging::{read_all_rows, read_rows};
use crate::place::find_from;
use std::fmt::{self, Display, Formatter};
use std::net::{Net, TcpStream};
use std::rt::Clock;
use std::thread::{self, Threads};
use std::time::Duration;
use swim_exit::{Exit, Failure};
use swim_news::Rows;
use swim_settings::ControlPlace;
use swim_shell::{Counters, ERA_COUNTS};
use swim_wire::{Endpoint, Update, UpdateKind};

/// How long a member is left alone until it is asked again, in milliseconds, and how often it is asked: three seconds in all.
const PAUSE_MILLIS: u64 = 100;

const LOOKS: u32 = 30;

/// The place of the counter of datagrams that came.
const RECEIVED: usize = ERA_COUNTS + 3;

/// What a member knows of one that it was told to join, which is alive by this row.
#[derive(Clone, Copy, Debug, PartialEq, Eq)]
pub enum Joined {
    /// It did not have the row before the join.
    New(Update),
    /// It had the row before. Maybe a datagram has come since, and the member does not tell from whom.
    Old(Update),
}

/// What a member told of one that it is to join, and of the datagrams that had come by then.
#[derive(Clone, Copy)]
struct Look {
    /// The row of the other one, if it is alive.
    row: Option<Update>,
    /// How many datagrams had come; none where the member does not count them, as it is of an older version.
    received: Option<u64>,
}

/// A member, and one that it is to join.
#[derive(Clone, Copy)]
pub struct JoinRequest {
    at: ControlPlace,
    who: Endpoint,
    /// What was told before the join.
    before: Look,
}

/// The row of this member, if it is alive.
fn alive_in(rows: &Rows, who: Endpoint) -> Option<Update> {
    let found = rows.as_slice().iter().copied().find(|row| row.who == who);
    found.filter(|row| row.kind == UpdateKind::Alive)
}

/// How many datagrams had come.
fn received_by(counters: &Counters) -> u64
    ensures value { result ≡ get_or counters.now.values RECEIVED 0 }
    ensures named { counter_at RECEIVED ≡ counter.Received }
{
    counters.values[RECEIVED]
}

/// How many datagrams have come to a member; none where it does not count them.
fn ask_received<R: Net<Stream = TcpStream> + Clock + AllocGlobal>(
    rt: &R,
    at: &ControlPlace,
) -> Result<Option<u64>, Failure> {
    let answer = exchange(rt, at, "counters")?;
    let counters = read_counters(answer.as_slice());
    Ok(counters.map(|counters| received_by(&counters)))
}

/// Whether no datagram has come from one count to a later one. Where there is none of them that is not known.
fn has_none(before: Option<u64>, after: Option<u64>) -> bool
    ensures { result ≡ true ↔ HasNone before after }
{
    matches!((before, after), (Some(before), Some(after)) if before == after)
}

/// What is known of a member by its rows before and after a join; none where that says nothing yet.
fn known_by(before: Option<Update>, after: Option<Update>, is_silent: bool) -> Option<Joined>
    ensures new { (row : Row) → result ≡ Some (Joined.New row)
        ↔ (after ≡ Some row) × (before ≢ Some row) }
    ensures old { (row : Row) → result ≡ Some (Joined.Old row)
        ↔ (after ≡ Some row) × (before ≡ Some row) × (is_silent ≢ true) }
{
    let row = after?;
    match before {
        Some(before) if before == row => {}
        _ => return Some(Joined::New(row)),
    }
    if is_silent {
        return None;
    }
    Some(Joined::Old(row))
}

impl JoinRequest {
    /// Of the member whose control socket a word names, which is not yet judged, with what it tells of the other one before the join.
    pub fn new<T: Threads>(
        rt: &HostRuntime,
        threads: &T,
        to: &str,
        who: Endpoint,
    ) -> Result<JoinRequest, Failure> {
        let at = find_from(rt, threads, to, &now(rt)?)?;
        let before = Look {
            row: alive_in(&read_all_rows(rt, &at)?, who),
            received: ask_received(rt, &at)?,
        };
        Ok(JoinRequest { at, who, before })
    }

    /// Tells the member to join the other one, and gives its answer.
    pub fn send<R: Net<Stream = TcpStream> + Clock + AllocGlobal>(
        &self,
        rt: &R,
    ) -> Result<Vec<u8>, Failure> {
        let who = self.who;
        match format!(in rt.alloc(); "join {who}") {
            Ok(line) => exchange(rt, &self.at, line.as_str()),
            Err(_) => Err(Failure::from(Exit::Memory)),
        }
    }

    /// What is known of the other one now; none where that is nothing yet.
    fn look<R: Net<Stream = TcpStream> + Clock + AllocGlobal>(
        &self,
        rt: &R,
    ) -> Result<Option<Joined>, Failure> {
        let Some(rows) = read_rows(rt, &self.at)? else {
            return Ok(None);
        };
        let Look { row, received } = self.before;
        let is_silent = has_none(received, ask_received(rt, &self.at)?);
        Ok(known_by(row, alive_in(&rows, self.who), is_silent))
    }

    /// Waits until something is known of the other one, to which a join was sent. An error says that this took more than three seconds,
    /// or that the member does not answer.
    pub fn wait<R: Net<Stream = TcpStream> + Clock + AllocGlobal>(
        &self,
        rt: &R,
    ) -> Result<Joined, Failure> {
        for _ in 0..LOOKS {
            if let Some(joined) = self.look(rt)? {
                return Ok(joined);
            }
            thread::sleep(rt, Duration::from_millis(PAUSE_MILLIS));
        }
        let who = self.who;
        let asked = format_args!(
            "UDP {who}: is it up, reachable from there, of the same group and with the same rules?"
        );
        Err(Failure::about(rt.alloc(), Exit::Unjoined, asked))
    }
}

/// It prints for people.
impl Display for Joined {
    fn fmt<W: fmt::Write>(&self, f: &mut Formatter<W>) -> fmt::Result {
        match self {
            Joined::New(row) => {
                let (who, number) = (row.who, row.number);
                write!(f, "{who} is alive, incarnation {number}")
            }
            Joined::Old(row) => {
                let (who, number) = (row.who, row.number);
                write!(
                    f,
                    "{who} was known before, as alive, incarnation {number}; whether it answered is not known"
                )
            }
        }
    }
}
