//! Control connections.

use crate::connection::{ConnectionReader, ConnectionWriter, Patience};
use crate::control_socket::{IncomingStream, ListeningSocket, OutgoingStream};
use crate::control_stream::{ControlListener, ControlStream};
use crate::waits::Waits;
use mio::Interest;
use mio::unix::SourceFd;
use std::io;
use std::os::fd::AsRawFd;
use std::time::{Clock, Duration, Instant};
use swim_shell::Doors;

/// Control connections, which come in at a TCP port or at a path.
#[derive(Drop)]
pub struct ControlDoors<'a, C: Clock> {
    listener: ListeningSocket,
    waits: &'a Waits,
    clock: &'a C,
    wait: Duration,
}

/// Both ends of a connection.
type Ends<'a, C> = (
    ConnectionReader<'a, C>,
    ConnectionWriter<'a, OutgoingStream, C>,
);

impl<'a, C: Clock> ControlDoors<'a, C> {
    /// Doors over a bound listener, which wait as long as `wait` at most; an open connection whose second is over is found so
    /// soon after it. The waits are those of the thread that calls them, and it waits in none beside them. An error is the
    /// system's: it watches too many sockets.
    pub fn new(
        listener: ControlListener,
        waits: &'a Waits,
        clock: &'a C,
        wait: Duration,
    ) -> io::Result<ControlDoors<'a, C>> {
        let listener = ListeningSocket::new(listener)?;
        let descriptor = listener.as_raw_fd();
        waits.watch(&mut SourceFd(&descriptor), Interest::READABLE)?;
        Ok(ControlDoors {
            listener,
            waits,
            clock,
            wait,
        })
    }

    /// What a connection waits by that began then.
    fn patience(&self, began: Instant) -> Patience<'a, C> {
        Patience {
            waits: self.waits,
            clock: self.clock,
            began,
        }
    }

    /// Both ends of a connection that begins now.
    fn ends_of(&self, stream: ControlStream) -> io::Result<Ends<'a, C>> {
        let began = Instant::now(self.clock)?;
        let other = stream.try_clone()?;
        let descriptor = stream.as_raw_fd();
        self.waits
            .watch(&mut SourceFd(&descriptor), Interest::READABLE)?;
        Ok((
            ConnectionReader::new(IncomingStream::new(stream), self.patience(began)),
            ConnectionWriter::new(OutgoingStream::new(other), self.patience(began)),
        ))
    }
}

impl<'a, C: Clock> Doors for ControlDoors<'a, C> {
    type Reader = ConnectionReader<'a, C>;

    type Writer = ConnectionWriter<'a, OutgoingStream, C>;

    fn next(&mut self) -> Option<Ends<'a, C>> {
        let stream = self.listener.accept().ok()?;
        self.ends_of(stream).ok()
    }

    /// One that the system refused to give is asked for again after the wait.
    fn wait(&mut self, most: Duration) {
        self.waits.wait(self.clock, self.wait.min(most));
    }
}
