//! `swim ctl`.

ghost use Rattle.std.specs.Prelude.{◌≡◌, ◌+◌, ◌⊎◌, ◌↔◌, ℕ, min, IfNone, IfOk, IfSome, IsOk, IsTrue};
ghost use Rattle.std.specs.declared.io.ErrorKind.TheVariants as kinds;
ghost use Rattle.swim_words.specs.Words.{Lacks};
ghost use Rattle.swim_ask.specs.Whole.{AsksLines, Follow, IsWhole, ends};

use crate::connecting::connect;
use crate::place::find_from;
use std::alloc::Global;
use std::io::{self, ErrorKind, Read, Write};
use std::net::{Net, TcpStream};
use std::rt::Clock;
use std::thread::Threads;
use std::time::{Duration, Instant};
use swim_exit::{Exit, Failure};
use swim_net::ControlStream;
use swim_settings::{ControlPlace, NamedControl};
use swim_words::{read_number, split_at_byte};

/// How many milliseconds the whole exchange may take, and a lookup of the host with it.
pub(crate) const LIMIT_MILLIS: u64 = 5000;

/// The most bytes of an answer, and so the most reads: 31 lines of at most 51 bytes are less.
const ANSWER_MAX: usize = 4096;

/// What is left of so many milliseconds; an error where nothing is.
pub(crate) fn left_of<R: Clock>(rt: &R, start: &Instant, millis: u64) -> io::Result<Duration> {
    let left = Duration::from_millis(millis).saturating_sub(start.elapsed(rt)?);
    if left.is_zero() {
        return Err(io::Error::from(ErrorKind::TimedOut));
    }
    Ok(left)
}

/// What is left of the time limit; an error where nothing is.
fn left<R: Clock>(rt: &R, start: &Instant) -> io::Result<Duration> {
    left_of(rt, start, LIMIT_MILLIS)
}

/// Whether the line asks for members or counters, whose answer has more lines than one.
fn asks_lines(line: &str) -> bool
    ensures { IsTrue result ↔ AsksLines line.now }
{
    line == "members" || line.starts_with("members ") || line == "counters"
}

/// How many lines the answer has that begins so: with `ok N`, where members or counters were asked for, N more than one.
fn lines_wanted(line: &str, answer: &[u8]) -> Option<u64>
    ensures wanted { IfSome result (λ wanted. (more : ℕ)
        × Follow line.now answer.now more
        × (wanted ≡ min (more + 1) u64.MAX)) }
    ensures ended { IfSome result (λ wanted. ¬ Lacks 10 answer.now) }
    ensures none { IfNone result (Lacks 10 answer.now) }
{
    let (first, _) = split_at_byte(answer, b'\n')?;
    if !asks_lines(line) {
        return Some(1);
    }
    let more = match first.strip_prefix(b"ok ") {
        Some(count) => read_number(count).unwrap_or(0),
        None => 0,
    };
    Some(more.saturating_add(1))
}

/// How many lines of the text have ended.
fn count_ends(text: &[u8]) -> usize
    ensures { result ≡ ends text.now }
{
    text.iter().filter(|byte| **byte == b'\n').count()
}

/// Whether this is the whole answer to the line.
fn is_whole(line: &str, answer: &[u8]) -> bool
    ensures { IsTrue result ↔ IsWhole line.now answer.now }
{
    match lines_wanted(line, answer) {
        Some(wanted) => wanted <= count_ends(answer) as u64,
        None => false,
    }
}

/// The whole answer to a line. A read that a signal interrupts is tried again.
fn read_answer<R: Clock>(
    rt: &R,
    start: &Instant,
    stream: &mut ControlStream,
    line: &str,
    answer: &mut Vec<u8>,
) -> io::Result<()>
    ensures { IsOk result → IsWhole line.now answer.new.items }
{
    for _ in 0..ANSWER_MAX {
        if is_whole(line, answer.as_slice()) {
            return Ok(());
        }
        stream.set_read_timeout(left(rt, start)?)?;
        let mut bytes = [0u8; 512];
        match stream.read(&mut bytes) {
            Ok(0) => return Err(io::Error::from(ErrorKind::UnexpectedEof)),
            Ok(count) => answer.extend_from_slice(&bytes[..count])?,
            Err(error) if error.kind() == ErrorKind::Interrupted => {}
            Err(error) => return Err(error),
        }
    }
    Err(io::Error::from(ErrorKind::InvalidData))
}

/// Connects, sends the line and reads its answer, within the time limit from that start on.
fn talk<R: Net<Stream = TcpStream> + Clock + AllocGlobal>(
    rt: &R,
    start: &Instant,
    to: &ControlPlace,
    line: &str,
) -> io::Result<Vec<u8>>
    ensures { IfOk result (λ answer. IsWhole line.now answer.items) }
{
    let mut stream = connect(rt, to, left(rt, start)?)?;
    stream.set_write_timeout(left(rt, start)?)?;
    stream.write_all(line.as_bytes())?;
    stream.write_all(b"\n")?;
    let mut answer = Vec::new(rt.alloc());
    read_answer(rt, start, &mut stream, line, &mut answer)?;
    Ok(answer)
}

/// Whether what ended an exchange is its time limit. Where that is the limit of a read or of a write, the system says that it would
/// have to wait.
fn is_late(kind: ErrorKind) -> bool
    ensures { IsTrue result ↔ ((kind ≡ kinds.WouldBlock) ⊎ (kind ≡ kinds.TimedOut)) }
{
    matches!(kind, ErrorKind::WouldBlock | ErrorKind::TimedOut)
}

/// The exit where the control socket of a member does not answer. A member that was only late may still read the line.
fn unanswered(alloc: Global, to: &ControlPlace, error: &io::Error) -> Failure {
    let to = NamedControl(*to);
    if is_late(error.kind()) {
        let seconds = LIMIT_MILLIS / 1000;
        let about = format_args!(
            "{to}: no answer in {seconds} s; the line may still be carried out"
        );
        return Failure::about(alloc, Exit::Silent, about);
    }
    let exit = Exit::of(error, Exit::Unreached);
    Failure::about(alloc, exit, format_args!("{to}: {error}"))
}

/// Now, from which on a time limit is counted. An error says that there is no memory, or that the clock fails.
pub(crate) fn now<R: Clock + AllocGlobal>(rt: &R) -> Result<Instant, Failure> {
    match Instant::now(rt) {
        Ok(now) => Ok(now),
        Err(error) => {
            let exit = Exit::of(&error, Exit::Unreached);
            Err(Failure::about(rt.alloc(), exit, format_args!("clock: {error}")))
        }
    }
}

/// The whole answer to a control line. It takes at most 5 seconds. An error says that there was no memory, or that the member did
/// not answer.
pub(crate) fn exchange<R: Net<Stream = TcpStream> + Clock + AllocGlobal>(
    rt: &R,
    to: &ControlPlace,
    line: &str,
) -> Result<Vec<u8>, Failure>
    ensures { IfOk result (λ answer. IsWhole line.now answer.items) }
{
    match talk(rt, &now(rt)?, to, line) {
        Ok(answer) => Ok(answer),
        Err(error) => Err(unanswered(rt.alloc(), to, &error)),
    }
}

/// What a member answered, and where.
#[derive(Drop)]
pub struct Answered {
    /// Its control socket.
    pub at: ControlPlace,
    /// The whole answer.
    pub text: Vec<u8>,
}

/// The exit where a line has an end within: what follows that would be another line, whose answer nobody reads.
fn refuse_lines(alloc: Global, line: &str) -> Result<(), Failure>
    ensures { IsOk result → Lacks 10 line.now }
{
    match split_at_byte(line.as_bytes(), b'\n') {
        None => Ok(()),
        Some(_) => {
            let about = format_args!("{line:?}: it has the end of a line within");
            Err(Failure::about(alloc, Exit::Words, about))
        }
    }
}

/// Sends one control line as it is, with its end, and gives the whole answer; a text of several lines is refused. The address is the
/// path of a socket, an endpoint, or a host name and a port, not yet judged. All of it takes at most 5 seconds, the lookup of the host
/// too.
pub fn ask<T: Threads>(
    rt: &HostRuntime,
    threads: &T,
    to: &str,
    line: &str,
) -> Result<Answered, Failure>
    ensures whole { IfOk result (λ answered. IsWhole line.now answered.text.items) }
    ensures one { IfOk result (λ _. Lacks 10 line.now) }
{
    refuse_lines(rt.alloc(), line)?;
    let start = now(rt)?;
    let at = find_from(rt, threads, to, &start)?;
    match talk(rt, &start, &at, line) {
        Ok(text) => Ok(Answered { at, text }),
        Err(error) => Err(unanswered(rt.alloc(), &at, &error)),
    }
}
