//! Both ends of a control connection, which takes a second at most.

ghost use Rattle.std.specs.Prelude.{◌≡◌, []};
ghost use Rattle.swim_net.specs.Guard.{IsLetThrough};
ghost use Rattle.swim_net.specs.Moves.{moved_in};

use crate::control_socket::IncomingStream;
use crate::guard::LineGuard;
use crate::waits::Waits;
use mio::Interest;
use mio::unix::SourceFd;
use std::io::{self, ErrorKind, Read, Write};
use std::os::fd::{AsRawFd, RawFd};
use std::time::{Clock, Duration, Instant};

/// The most that a connection may take for all its lines, in milliseconds.
const CONNECTION_MILLIS: u64 = 1000;

/// The waits of a connection, for a second and no longer: so nobody holds up the others by a line that never ends or by
/// lines without end.
#[derive(Drop)]
pub(crate) struct Patience<'a, C: Clock> {
    pub(crate) waits: &'a Waits,
    pub(crate) clock: &'a C,
    pub(crate) began: Instant,
}

impl<'a, C: Clock> Patience<'a, C> {
    /// How long the connection has still; an error if its second is over.
    fn left(&self) -> io::Result<Duration> {
        let limit = Duration::from_millis(CONNECTION_MILLIS);
        let left = limit.saturating_sub(self.began.elapsed(self.clock)?);
        if left.is_zero() {
            return Err(io::Error::from(ErrorKind::TimedOut));
        }
        Ok(left)
    }

    /// Has waits end when this becomes possible at the connection.
    fn watch(&self, descriptor: RawFd, interest: Interest) -> io::Result<()> {
        self.waits.watch(&mut SourceFd(&descriptor), interest)
    }

    /// Waits for a change. An error if the alarm was rung, or the second was over before.
    fn wait(&self) -> io::Result<()> {
        if self.waits.wait(self.clock, self.left()?) {
            return Err(io::Error::from(ErrorKind::WouldBlock));
        }
        Ok(())
    }
}

/// Reads from a stream that never waits, within the connection's second, up to the line that ends its input.
#[derive(Drop)]
pub struct ConnectionReader<'a, C: Clock> {
    stream: IncomingStream,
    guard: LineGuard,
    patience: Patience<'a, C>,
    ghost cut: { IsLetThrough (moved_in stream.answers.items) guard.passed guard.has_ended },
}

impl<'a, C: Clock> ConnectionReader<'a, C> {
    /// A reader of this stream, of which nothing was read.
    pub(crate) fn new(stream: IncomingStream, patience: Patience<'a, C>) -> ConnectionReader<'a, C>
        requires { stream.answers.items ≡ [] }
        ensures { result.stream ≡ stream }
    {
        let guard = LineGuard::new();
        ConnectionReader {
            stream,
            guard,
            patience,
        }
    }
}

impl<'a, C: Clock> Read for ConnectionReader<'a, C> {
    ghost use Rattle.std.specs.Prelude.{◌≡◌, ◌++◌, None, Ok, true, false, take, IfOk, OnErr};
    ghost use Rattle.std.specs.Io.{ReadsAtMost};
    ghost use Rattle.std.specs.Io.KnownBytes.{ReadConsumes};
    ghost use Rattle.swim_net.specs.Control.{GivesOf, given_by, has_ended, has_refused, reads_of};
    ghost use Rattle.swim_net.specs.Control.{unended_of};
    ghost use Rattle.swim_net.specs.Guard.{Ends, StaysOpen};

    /// Gives `WouldBlock` if nothing has come, and `TimedOut` if the second is over. Behind a line that ends the input it gives no
    /// more, whatever comes.
    #[tactic(auto, using(crate::proofs::Moving::moved_same, crate::proofs::Moving::take_within, crate::proofs::Moving::count_within))]
    fn read(&mut self, buf: &mut [u8]) -> io::Result<usize>
        ensures bound { ReadsAtMost result buf.new }
        ensures bytes { ReadConsumes None None result buf.new }

        // All that it gave is what is let through of what came.
        ensures cut { IsLetThrough (moved_in (reads_of self.new)) (given_by self.new)
            (has_ended self.new) }
        ensures on { has_ended self.new ≡ false
            → ∥ StaysOpen (given_by self.new) (unended_of self.new) (has_refused self.new) ∥₁ }
        ensures last { has_ended self.new ≡ true → ∥ Ends (given_by self.new) ∥₁ }

        // It gives no more than one read was answered, and a failure has taken no bytes.
        ensures given { IfOk result (λ count.
            given_by self.new ≡ given_by self.old ++ take count buf.new) }
        ensures read { IfOk result (λ count. has_ended self.old ≡ false
            → GivesOf (reads_of self.old) (reads_of self.new) buf.new count) }
        ensures ended { has_ended self.old ≡ true
            → (result ≡ Ok 0) × (reads_of self.new ≡ reads_of self.old) }
        ensures failed { OnErr result
            (moved_in (reads_of self.new) ≡ moved_in (reads_of self.old)) }
        ensures kept { OnErr result (given_by self.new ≡ given_by self.old) }
    {
        if self.guard.has_ended {
            return Ok(0);
        }
        self.patience.left()?;
        let count = self.stream.read(buf)?;
        Ok(self.guard.let_through(&buf[..count]))
    }
}

/// Writes to a stream that never waits, within the connection's second.
#[derive(Drop)]
pub struct ConnectionWriter<'a, S: Write + AsRawFd + Drop, C: Clock> {
    stream: S,
    patience: Patience<'a, C>,
    /// Whether a wait ends when there is room.
    watched: bool,
}

impl<'a, S: Write + AsRawFd + Drop, C: Clock> ConnectionWriter<'a, S, C> {
    /// A writer to this stream.
    pub(crate) fn new(stream: S, patience: Patience<'a, C>) -> ConnectionWriter<'a, S, C>
        ensures { result.stream ≡ stream }
    {
        ConnectionWriter {
            stream,
            patience,
            watched: false,
        }
    }

    /// Waits until there may be room. An error as of the connection's waits, or if the system watches too many sockets.
    fn wait(&mut self) -> io::Result<()>
        ensures { self.new.stream ≡ self.old.stream }
    {
        if !self.watched {
            let descriptor = self.stream.as_raw_fd();
            self.patience.watch(descriptor, Interest::WRITABLE)?;
            self.watched = true;
        }
        self.patience.wait()
    }
}

impl<'a, S: Write + AsRawFd + Drop, C: Clock> Write for ConnectionWriter<'a, S, C> {
    ghost contents = { λ w. S.contents w.stream };

    /// Waits until there is room. Gives `WouldBlock` if the alarm was rung before, and `TimedOut` if the second is over.
    #[tactic(auto, using(crate::proofs::Passing::keeps_same, crate::proofs::Passing::keeps_on, crate::proofs::Passing::writes_after))]
    fn write(&mut self, buf: &[u8]) -> io::Result<usize> {
        for _ in 0..u64::MAX {
            match self.stream.write(buf) {
                Err(error) if error.kind() == ErrorKind::WouldBlock => self.wait()?,
                written => return written,
            }
        }
        Err(io::Error::from(ErrorKind::TimedOut))
    }

    fn flush(&mut self) -> io::Result<()> {
        self.stream.flush()
    }
}
