//! Waits that another thread can end.

use mio::event::Source;
use mio::{Events, Interest, Poll, Registry, Token, Waker};
use std::alloc::Global;
use std::net::Net;
use std::sync::Mutex;
use std::time::{Clock, Duration};
use std::{io, thread};
use swim_shell::Alarm;

/// What an alarm is told by, and what each socket is: a wait tells no socket from another.
const ALARM: Token = Token(0);

const SOCKET: Token = Token(1);

/// How many changes one wait takes note of. Those beyond end the next one.
const CHANGES_MAX: usize = 8;

/// How long what the system refuses is left alone before it is tried again, in milliseconds.
const PAUSE_MILLIS: u64 = 1;

/// Leaves what the system refuses alone for a while.
pub(crate) fn pause<C: Clock>(clock: &C) {
    thread::sleep(clock, Duration::from_millis(PAUSE_MILLIS));
}

/// Ends the waits of a thread from any other.
#[derive(Drop)]
pub struct SocketAlarm {
    waker: Waker,
}

impl Alarm for SocketAlarm {
    /// Where the system refuses it, the wait ends with its time.
    fn ring(&self) {
        let _ = self.waker.wake();
    }
}

/// What waits, with the changes of the last wait.
#[derive(Drop)]
struct Polling {
    poll: Poll,
    changes: Events<Global>,
}

impl Polling {
    /// One wait, as [`Waits::wait`] says.
    fn wait<C: Clock>(&mut self, clock: &C, time: Duration) -> bool {
        if self.poll.poll(&mut self.changes, Some(time)).is_err() {
            pause(clock);
        }
        self.changes.iter().any(|change| change.token() == ALARM)
    }
}

/// The waits of one thread, for all its sockets. A change that comes while nobody waits ends the next wait.
#[derive(Drop)]
pub struct Waits {
    registry: Registry,
    polling: Mutex<Polling>,
}

impl Waits {
    /// Waits with no socket, and what ends them. An error is the system's: there are too many descriptors, or no memory.
    pub fn new<R: Net>(net: &R, alloc: Global) -> io::Result<(Waits, SocketAlarm)> {
        let poll = Poll::new(net)?;
        let changes = Events::with_capacity(alloc, CHANGES_MAX)?;
        let registry = poll.registry().try_clone()?;
        let waker = Waker::new(&registry, ALARM)?;
        let polling = Mutex::new(Polling { poll, changes });
        Ok((Waits { registry, polling }, SocketAlarm { waker }))
    }

    /// Has waits end when these become possible at a socket that never waits itself. A socket that is closed is forgotten.
    /// An error is the system's: it watches too many, or this one already.
    pub(crate) fn watch<S: Source>(&self, socket: &mut S, interests: Interest) -> io::Result<()>
        ensures kept { S.keeps socket.old socket.new }
    {
        self.registry.register(socket, SOCKET, interests)
    }

    /// Waits until a watched socket changed, the alarm was rung, or the time is over, and says whether the alarm was rung. It
    /// may end for no reason. One that the system refuses, or that begins during another, is a pause.
    pub(crate) fn wait<C: Clock>(&self, clock: &C, time: Duration) -> bool {
        match self.polling.try_lock() {
            Some(mut polling) => polling.wait(clock, time),
            None => {
                pause(clock);
                false
            }
        }
    }
}
