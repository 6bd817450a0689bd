//! One look at a running member.

use crate::about::ask_about;
use crate::asking::exchange;
use crate::counters::read_counters;
use crate::paging::read_rows;
use crate::place::find;
use crate::status::read_status;
use std::net::{Net, TcpStream};
use std::rt::Clock;
use swim_news::Rows;
use swim_node::Status;
use swim_shell::{About, Counters};

/// What a member said of itself and of all members.
#[derive(Drop)]
pub struct MemberReport {
    /// Its status.
    pub status: Status,
    /// All rows, itself among them; none where its era was full, so that it has to be asked again.
    pub rows: Option<Rows>,
    /// What it has done since it began; none where it does not know that line, as it is of an older version.
    pub counters: Option<Counters>,
    /// Who it is; none where it does not know that line.
    pub about: Option<About>,
}

/// Asks the member whose control socket a word names for its status, all rows, what it has done, and who it is. Each of its answers takes at
/// most 5 seconds. None where it did not answer, or not so.
pub fn look<R: Net<Stream = TcpStream> + Clock + AllocGlobal>(
    rt: &R,
    word: &str,
) -> Option<MemberReport> {
    let to = find(rt, word).ok()?;
    let answer = exchange(rt, &to, "status").ok()?;
    let status = read_status(answer.as_slice())?;
    let rows = read_rows(rt, &to).ok()?;
    let answer = exchange(rt, &to, "counters").ok()?;
    let about = ask_about(rt, &to).ok()?;
    Some(MemberReport {
        status,
        rows,
        counters: read_counters(answer.as_slice()),
        about,
    })
}
