//! `swim members` and `swim watch`.

use crate::about::ask_about;
use crate::addresses::Addresses;
use crate::asking::now;
use crate::gap::{Gap, GapJson};
use crate::json::{ChangeJson, RowJson};
use crate::output::Output;
use crate::paging::{read_all_rows, read_rows};
use crate::paint::{Paint, PaintedChange, PaintedKind};
use crate::place::{find, find_from};
use crate::timed::{Timed, TimedJson};
use arrayvec::ArrayString;
use std::fmt::{self, Display, Write as _};
use std::net::{Net, TcpStream};
use std::rt::Clock;
use std::sync::{Wait, WaitMethods};
use std::thread::Threads;
use std::time::Duration;
use swim_exit::{Exit, Failure};
use swim_news::{Change, Changes, Rows, compare};
use swim_settings::ControlPlace;
use swim_shell::Alone;
use swim_wire::Update;

/// The width of the longest endpoint.
const ENDPOINT_WIDTH: usize = 21;

/// Prints a line at once.
fn print_line<P: Print + AllocGlobal, D: Display>(rt: &P, line: &D) -> Result<(), Failure> {
    println!(rt; "{line}").map_err(|error| Failure::of_output(rt.alloc(), &error))
}

/// Prints a row of the table.
fn print_row<P: Print + AllocGlobal>(rt: &P, row: &Update, paint: Paint) -> Result<(), Failure> {
    let mut text = ArrayString::<ENDPOINT_WIDTH>::new();
    let _ = write!(text, "{}", row.who);
    let who = text.as_str();
    let kind = PaintedKind(paint, row.kind);
    let number = row.number;
    println!(rt; "{who:<21} {kind} {number}").map_err(|error| Failure::of_output(
        rt.alloc(),
        &error,
    ))
}

/// Prints rows as JSON, a line each.
fn print_objects<P: Print + AllocGlobal>(rt: &P, rows: &Rows) -> Result<(), Failure> {
    for row in rows.as_slice() {
        print_line(rt, &RowJson(*row))?;
    }
    Ok(())
}

/// Prints rows as a table with a head.
fn print_table<P: Print + AllocGlobal>(rt: &P, rows: &Rows, paint: Paint) -> Result<(), Failure> {
    print_line(rt, &"MEMBER                STATE   INCARNATION")?;
    for row in rows.as_slice() {
        print_row(rt, row, paint)?;
    }
    Ok(())
}

/// Prints that a member is alone, where it says so.
fn print_alone<R: Net<Stream = TcpStream> + Clock + AllocGlobal + Print>(
    rt: &R,
    to: &ControlPlace,
) -> Result<(), Failure> {
    let about = ask_about(rt, to).unwrap_or(None);
    match about {
        Some(about) if about.is_alone => print_line(rt, &Alone(about.who)),
        _ => Ok(()),
    }
}

/// Prints all rows of a member, whose control socket is a word not yet judged. Where its era is full it is asked again.
pub fn show_members<T: Threads>(
    rt: &HostRuntime,
    threads: &T,
    to: &str,
    as_json: bool,
    paint: Paint,
) -> Result<(), Failure> {
    let to = find_from(rt, threads, to, &now(rt)?)?;
    let rows = read_all_rows(rt, &to)?;
    if as_json {
        return print_objects(rt, &rows);
    }
    print_table(rt, &rows, paint)?;
    print_alone(rt, &to)
}

/// A change as what a JSON object has of it.
#[derive(Clone, Copy)]
struct NamedChange(Change);

impl Display for NamedChange {
    fn fmt<W: fmt::Write>(&self, f: &mut fmt::Formatter<W>) -> fmt::Result {
        let change = ChangeJson(self.0);
        write!(f, "\"change\":{change}")
    }
}

/// How a member is watched.
#[derive(Clone, Copy, Debug)]
pub struct Watched<'a> {
    /// The control sockets of members that are asked in turn, until one answers.
    pub to: Addresses<'a>,
    /// Whether each line is a JSON object.
    pub as_json: bool,
    /// Milliseconds from one comparison to the next.
    pub every: u64,
    /// Whether to end where it does not answer.
    pub once: bool,
    /// In which colours a line is that is no JSON object.
    pub paint: Paint,
}

/// The rows of the member whose control socket a word names now.
fn rows_at<R: Net<Stream = TcpStream> + Clock + AllocGlobal>(
    rt: &R,
    word: &str,
) -> Result<Option<Rows>, Failure> {
    read_rows(rt, &find(rt, word)?)
}

/// Whether a failure says that a member does not answer, or not so.
fn is_silence(failure: &Failure) -> bool {
    matches!(
        failure.exit(),
        Exit::Host | Exit::Unreached | Exit::Silent | Exit::Answer
    )
}

impl Watched<'_> {
    /// Tells something with the time: as this line, or as this part of a JSON object.
    fn tell<R: Print + Clock + AllocGlobal, L: Display + Copy, J: Display + Copy>(
        &self,
        rt: &R,
        line: L,
        json: J,
    ) -> Result<(), Failure> {
        if self.as_json {
            print_line(rt, &TimedJson(Timed::now(rt, json)))
        } else {
            print_line(rt, &Timed::now(rt, line))
        }
    }

    /// Tells what changed from one list of rows to a later one, a line each.
    fn tell_news<R: Print + Clock + AllocGlobal>(
        &self,
        rt: &R,
        old: &Rows,
        new: &Rows,
    ) -> Result<(), Failure> {
        let mut changes = Changes::new();
        compare(old, new, &mut changes);
        for change in changes.as_slice() {
            self.tell(rt, PaintedChange(self.paint, *change), NamedChange(*change))?;
        }
        Ok(())
    }

    /// Asks the members in turn for their rows, beginning with the one that answered last, until one answers.
    fn read_any<R: Net<Stream = TcpStream> + Clock + AllocGlobal>(
        &mut self,
        rt: &R,
    ) -> Result<Option<Rows>, Failure> {
        for _ in 1..self.to.count() {
            match rows_at(rt, self.to.word()) {
                Err(failure) if is_silence(&failure) => self.to.step(),
                read => return read,
            }
        }
        rows_at(rt, self.to.word())
    }

    /// Tells people that another member is asked now.
    fn tell_asked<R: Print + Clock + AllocGlobal>(
        &self,
        rt: &R,
        before: &str,
    ) -> Result<(), Failure> {
        if self.as_json || self.to.word() == before {
            return Ok(());
        }
        let (asked, before) = (self.to.word(), before);
        print_line(
            rt,
            &Timed::now(
                rt,
                format_args!("asks {asked} from now on: {before} does not answer"),
            ),
        )
    }

    /// Asks for rows: none where the era of the member is full, or where no member answers, which is told once.
    fn rows_now<R: Net<Stream = TcpStream> + Clock + AllocGlobal + Print>(
        &mut self,
        rt: &R,
        is_lost: &mut bool,
    ) -> Result<Option<Rows>, Failure> {
        let before = self.to.word();
        let read = self.read_any(rt);
        let answers = match &read {
            Ok(_) => true,
            Err(failure) => !is_silence(failure),
        };
        if !answers && self.once {
            return read;
        }
        if let Some(gap) = Gap::after(*is_lost, answers) {
            self.tell(rt, gap, GapJson(gap))?;
        }
        *is_lost = !answers;
        if !answers {
            return Ok(None);
        }
        self.tell_asked(rt, before)?;
        read
    }
}

/// Prints what changes of a member's rows until the process is ended, or nobody reads it any more. Where it does not answer, the next
/// one is asked. The first comparison is with no rows. Where the era is full, or where no member answers, there is no comparison, and
/// the next one is with the rows that stood before.
pub fn watch_members<R: Net<Stream = TcpStream> + Clock + AllocGlobal + Print, T: Wait>(
    rt: &R,
    wait: &T,
    mut watched: Watched<'_>,
) -> Result<(), Failure> {
    let mut before = Rows::new();
    let mut is_lost = false;
    let mut output = Output::new(rt);
    for _ in wait.forever() {
        if let Some(rows) = watched.rows_now(rt, &mut is_lost)? {
            watched.tell_news(rt, &before, &rows)?;
            before = rows;
        }
        output.wait(rt, Duration::from_millis(watched.every))?;
    }
    unreachable!()
}
