//! All rows of a running member, asked for page by page by control lines.

ghost use Rattle.std.specs.Prelude.{◌≡◌, ◌≢◌, ◌+◌, ◌↔◌, List, ℕ, codes, length, IfErr, IfNone, IfOk, IfSome};
ghost use Rattle.std.specs.Io.{StartsWith};
ghost use Rattle.swim_wire.specs.Text.{kind_word};
ghost use Rattle.swim_words.specs.Words.{No};
ghost use Rattle.swim_ask.specs.Answers.{AddsAnswer, AddsRows, FitsAfter, HasAfterFirst, SaysRow};

use crate::asking::exchange;
use arrayvec::ArrayString;
use std::alloc::Global;
use std::fmt::Write as _;
use std::net::{Net, TcpStream};
use std::rt::Clock;
use std::time::Duration;
use std::{str, thread};
use swim_exit::{Exit, Failure};
use swim_news::{PAGES_MAX, Rows};
use swim_settings::{ControlPlace, NamedControl};
use swim_wire::{MEMBERS_MAX, UPDATES_MAX, Update, UpdateKind};
use swim_words::{read_endpoint, read_number, split_at_byte};

/// How long a member is left alone until it is asked again whose era was full, in milliseconds, and how often it is asked.
const AGAIN_MILLIS: u64 = 100;

const AGAIN_MAX: u32 = 50;

/// Room for the line `members A`.
const LINE_MAX: usize = 40;

/// The begin of the answer where the call did not fit into the era.
const ERA_FULL: &[u8] = b"error 5";

/// What became of a page that was asked for.
enum Page {
    /// It was read, and more rows may follow.
    Full,
    /// It was read, and none follow.
    Last,
    /// The call for it did not fit into the era.
    EraFull,
}

/// The kind of a row with this name.
fn read_kind(word: &[u8]) -> Option<UpdateKind>
    ensures kind { IfSome result (λ kind. word.now ≡ kind_word kind) }
    ensures none { IfNone result (No (λ kind. word.now ≡ kind_word kind)) }
{
    match word {
        b"alive" => Some(UpdateKind::Alive),
        b"suspect" => Some(UpdateKind::Suspect),
        b"confirm" => Some(UpdateKind::Confirm),
        _ => None,
    }
}

/// The row of a line `KIND A N`.
fn read_row(line: &[u8]) -> Option<Update>
    ensures row { IfSome result (λ row. SaysRow line.now row) }
    ensures none { IfNone result (No (SaysRow line.now)) }
{
    let (kind, rest) = split_at_byte(line, b' ')?;
    let (who, number) = split_at_byte(rest, b' ')?;
    Some(Update {
        kind: read_kind(kind)?,
        who: read_endpoint(who)?,
        number: read_number(number)?,
    })
}

/// Adds the rows of an answer, and says how many lines it has; none if a line is no row, or one that is not after the
/// others.
fn add_rows(rows: &mut Rows, lines: &[u8]) -> Option<usize>
    ensures count { IfSome result (λ count. length rows.new ≡ length rows.old + count) }
    ensures rows { IfSome result (λ count. AddsRows lines.now rows.old rows.new count) }
    ensures none { IfNone result (No (FitsAfter lines.now rows.old)) }
{
    let mut left = lines;
    for count in 0..MEMBERS_MAX {
        let Some((line, rest)) = split_at_byte(left, b'\n') else {
            return Some(count);
        };
        if !rows.add(read_row(line)?) {
            return None;
        }
        left = rest;
    }
    None
}

/// Adds the rows of the whole answer to a line `members`. A page with as many rows as one has at most is not the last one.
fn take_answer(rows: &mut Rows, answer: &[u8]) -> Result<Page, Exit>
    ensures full { result ≡ Ok Page.Full → length rows.new ≡ length rows.old + UPDATES_MAX }
    ensures last { result ≡ Ok Page.Last → length rows.new ≢ length rows.old + UPDATES_MAX }
    ensures era { result ≡ Ok Page.EraFull ↔ StartsWith answer.now (codes "error 5") }
    ensures kept { result ≡ Ok Page.EraFull → rows.new ≡ rows.old }
    ensures rows { IfOk result (λ page. page ≢ Page.EraFull
        → AddsAnswer answer.now rows.old rows.new) }
    ensures refused { IfErr result (λ why. (lines : List ℕ)
        → HasAfterFirst answer.now lines
        → No (FitsAfter lines rows.old)) }
{
    if answer.starts_with(ERA_FULL) {
        return Ok(Page::EraFull);
    }
    let Some((first, lines)) = split_at_byte(answer, b'\n') else {
        return Err(Exit::Answer);
    };
    if !first.starts_with(b"ok ") {
        return Err(Exit::Answer);
    }
    match add_rows(rows, lines) {
        Some(UPDATES_MAX) => Ok(Page::Full),
        Some(_) => Ok(Page::Last),
        None => Err(Exit::Answer),
    }
}

/// The line that asks for the rows after these.
fn next_line(rows: &Rows) -> ArrayString<LINE_MAX> {
    let mut line = ArrayString::new();
    let _ = match rows.last() {
        Some(last) => write!(line, "members {last}"),
        None => write!(line, "members"),
    };
    line
}

/// The exit where an answer is no page of rows, with its first line.
fn unread(alloc: Global, to: &ControlPlace, answer: &[u8], exit: Exit) -> Failure {
    let first = answer.split(|byte| *byte == b'\n').next().unwrap_or(b"");
    let said = str::from_utf8(first).unwrap_or("");
    let to = NamedControl(*to);
    Failure::about(alloc, exit, format_args!("{to} answered {said:?}"))
}

/// All rows of a member, by as many control lines as there are pages. None if its era is full, so that it has to be asked
/// again. What changes meanwhile may be in the rows or not.
pub(crate) fn read_rows<R: Net<Stream = TcpStream> + Clock + AllocGlobal>(
    rt: &R,
    to: &ControlPlace,
) -> Result<Option<Rows>, Failure> {
    let mut rows = Rows::new();
    for _ in 0..PAGES_MAX {
        let line = next_line(&rows);
        let answer = exchange(rt, to, line.as_str())?;
        match take_answer(&mut rows, answer.as_slice()) {
            Ok(Page::Full) => {}
            Ok(Page::Last) => break,
            Ok(Page::EraFull) => return Ok(None),
            Err(exit) => return Err(unread(rt.alloc(), to, answer.as_slice(), exit)),
        }
    }
    Ok(Some(rows))
}

/// The same, where a member whose era is full is asked again.
pub(crate) fn read_all_rows<R: Net<Stream = TcpStream> + Clock + AllocGlobal>(
    rt: &R,
    to: &ControlPlace,
) -> Result<Rows, Failure> {
    for _ in 0..AGAIN_MAX {
        if let Some(rows) = read_rows(rt, to)? {
            return Ok(rows);
        }
        thread::sleep(rt, Duration::from_millis(AGAIN_MILLIS));
    }
    let to = NamedControl(*to);
    let full = format_args!("{to}: each page that was asked for found its era full");
    Err(Failure::about(rt.alloc(), Exit::Answer, full))
}
