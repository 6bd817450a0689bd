//! One connection: its request is read, it is answered once, and it ends.

ghost use Rattle.std.specs.Prelude.{◌≡◌, ◌⊎◌, ◌↔◌, [], IfSome, IsOk, OnOk};
ghost use Rattle.std.specs.IoError.{error_kind};
ghost use Rattle.std.specs.declared.io.ErrorKind.TheVariants.{Interrupted, WouldBlock};

use mio::net::TcpStream as Stream;
use std::alloc::Global;
use std::io::{self, ErrorKind, Read, Write};
use std::net::Shutdown;
use std::time::{Clock, Duration, Instant};
use swim_http::{RequestReading, read_request};

/// The most that a connection may take in all, in milliseconds. One that reads or writes slowly ends then.
const PEER_MILLIS: u64 = 5000;

/// How often a connection reads or writes in one turn.
const CALLS_MAX: u32 = 8;

/// The most bytes of one read.
const READ_MAX: usize = 1024;

/// A connection.
#[derive(Drop)]
pub(crate) struct Peer {
    stream: Stream,
    began: Instant,
    /// What came of its request.
    heard: Vec<u8>,
    /// Whether its input has ended.
    is_heard: bool,
    /// Its answer, and how much of it was sent.
    answer: Option<String>,
    sent: usize,
}

/// The same error, or none if it says only that the call is to be tried later.
fn unless_later(error: io::Error) -> io::Result<()>
    ensures { IsOk result
        ↔ ((error_kind error ≡ WouldBlock) ⊎ (error_kind error ≡ Interrupted)) }
{
    match error.kind() {
        ErrorKind::WouldBlock | ErrorKind::Interrupted => Ok(()),
        _ => Err(error),
    }
}

/// What is left of an answer of which so many bytes were sent.
fn unsent(answer: &Option<String>, sent: usize) -> &[u8] {
    match answer {
        Some(answer) if sent < answer.len() => &answer.as_bytes()[sent..],
        _ => &[],
    }
}

impl Peer {
    /// A connection that begins now, over a stream that never waits.
    pub(crate) fn new<C: Clock>(alloc: Global, clock: &C, stream: Stream) -> io::Result<Peer> {
        Ok(Peer {
            stream,
            began: Instant::now(clock)?,
            heard: Vec::new(alloc),
            is_heard: false,
            answer: None,
            sent: 0,
        })
    }

    /// Whether its time is over.
    pub(crate) fn is_late<C: Clock>(&self, clock: &C) -> bool {
        let limit = Duration::from_millis(PEER_MILLIS);
        self.began.elapsed(clock).unwrap_or(limit) >= limit
    }

    /// Reads what has come.
    fn hear(&mut self) -> io::Result<()>
        ensures { self.new.answer ≡ self.old.answer }
    {
        for _ in 0..CALLS_MAX {
            let mut bytes = [0u8; READ_MAX];
            match self.stream.read(&mut bytes) {
                Ok(0) => {
                    self.is_heard = true;
                    return Ok(());
                }
                Ok(count) => self.heard.extend_from_slice(&bytes[..count])?,
                Err(error) => return unless_later(error),
            }
        }
        Ok(())
    }

    /// Sends what there is room for, and ends its output behind the last byte.
    fn send(&mut self) -> io::Result<()> {
        for _ in 0..CALLS_MAX {
            match self.stream.write(unsent(&self.answer, self.sent)) {
                Ok(count) => self.sent = self.sent.saturating_add(count),
                Err(error) => return unless_later(error),
            }
            if self.is_sent() {
                return self.stream.shutdown(Shutdown::Write);
            }
        }
        Ok(())
    }

    /// Whether its whole answer was sent.
    fn is_sent(&self) -> bool {
        match &self.answer {
            Some(answer) => self.sent >= answer.len(),
            None => false,
        }
    }

    /// Reads what has come, and says what it asks for, once it was not answered and all of that has come. An error says that it has
    /// ended. Of what comes once it is answered nothing is kept.
    pub(crate) fn listen(&mut self) -> io::Result<Option<RequestReading>>
        ensures { IfSome self.old.answer (λ _. OnOk result (self.new.heard.items ≡ [])) }
    {
        self.hear()?;
        if self.answer.is_some() {
            self.heard.clear();
            return Ok(None);
        }
        match read_request(self.heard.as_slice()) {
            RequestReading::More if self.is_heard => Err(io::Error::from(ErrorKind::UnexpectedEof)),
            RequestReading::More => Ok(None),
            reading => Ok(Some(reading)),
        }
    }

    /// Gives it its answer.
    pub(crate) fn answer(&mut self, answer: String) {
        self.answer = Some(answer);
    }

    /// Sends what there is room for of its answer, and says whether it has ended: its answer was sent, and its input has ended.
    /// Before that its socket stays, since to close one with input unread would take the answer from its reader.
    pub(crate) fn speak(&mut self) -> io::Result<bool> {
        if self.answer.is_some() && !self.is_sent() {
            self.send()?;
        }
        Ok(self.is_sent() && self.is_heard)
    }
}
