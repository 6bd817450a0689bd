//! Sockets for control connections. **What the system does can't be proved: [`ListeningSocket::accept`],
//! [`IncomingStream::read`] and [`OutgoingStream::write`] are to be read and believed.**
//!
//! Each makes one call of the system with what it was given. The streams note what they asked for and what was answered, and give
//! that answer. All that is proved of control connections rests on these notes.

ghost use Rattle.std.specs.Prelude.{◌≡◌, ◌++◌, ◌∷◌, []};
ghost use Rattle.swim_net.specs.Moves.{moved_in};

use crate::control_stream::{ControlListener, ControlStream};
use std::io::{self, Read, Write};
use std::os::fd::{AsRawFd, RawFd};
use swim_trace::{Pairs, Trace};

/// A socket at which connections come in. It never waits.
#[derive(Drop)]
pub(crate) struct ListeningSocket {
    listener: ControlListener,
}

/// The end of a connection from which is read. It never waits.
#[derive(Drop)]
pub(crate) struct IncomingStream {
    stream: ControlStream,
    /// What the buffer held after each read, and what was answered.
    pub(crate) answers: Pairs<Trace<u8>, io::Result<usize>>,
}

/// The end of a connection to which is written. It never waits.
#[derive(Drop)]
pub struct OutgoingStream {
    stream: ControlStream,
    /// What was to go out by each write, and what was answered.
    pub(crate) answers: Pairs<Trace<u8>, io::Result<usize>>,
}

impl ListeningSocket {
    /// The socket of this listener, which does not wait any more. An error is the system's.
    pub(crate) fn new(listener: ControlListener) -> io::Result<ListeningSocket> {
        listener.stop_waiting()?;
        Ok(ListeningSocket { listener })
    }

    /// The next connection that has come, which does not wait either. An error is that none has, or the system's.
    pub(crate) fn accept(&self) -> io::Result<ControlStream> {
        let stream = self.listener.accept()?;
        stream.stop_waiting()?;
        Ok(stream)
    }
}

impl AsRawFd for ListeningSocket {
    fn as_raw_fd(&self) -> RawFd {
        self.listener.as_raw_fd()
    }
}

impl IncomingStream {
    pub(crate) fn new(stream: ControlStream) -> IncomingStream
        ensures { result.answers.items ≡ [] }
    {
        IncomingStream {
            stream,
            answers: Pairs::new(),
        }
    }
}

impl Read for IncomingStream {
    ghost use Rattle.std.specs.Prelude.{◌≡◌};
    ghost use Rattle.std.specs.Io.{ReadsAtMost};

    fn read(&mut self, buf: &mut [u8]) -> io::Result<usize>
        ensures bound { ReadsAtMost result buf.new }
        ensures told { self.new.answers.items
            ≡ self.old.answers.items ++ (buf.new, result) ∷ [] }
    {
        let answer = self.stream.read(buf);
        self.answers = self.answers.and(&Trace::of(buf), &answer);
        answer
    }
}

impl OutgoingStream {
    pub(crate) fn new(stream: ControlStream) -> OutgoingStream
        ensures { result.answers.items ≡ [] }
    {
        OutgoingStream {
            stream,
            answers: Pairs::new(),
        }
    }
}

impl Write for OutgoingStream {
    ghost use Rattle.std.specs.Prelude.{Some};

    ghost contents = { λ s. Some (moved_in s.answers.items) };

    #[tactic(auto, using(crate::proofs::Moving::moved_more))]
    fn write(&mut self, buf: &[u8]) -> io::Result<usize> {
        let answer = self.stream.write(buf);
        self.answers = self.answers.and(&Trace::of(buf), &answer);
        answer
    }

    /// The system holds nothing back.
    fn flush(&mut self) -> io::Result<()> {
        Ok(())
    }
}

impl AsRawFd for OutgoingStream {
    fn as_raw_fd(&self) -> RawFd {
        self.stream.as_raw_fd()
    }
}
