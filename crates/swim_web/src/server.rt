//! All connections, on one thread.

ghost use Rattle.std.specs.Prelude.{◌≡◌, ◌+◌, ◌<◌};

use crate::known::SharedKnown;
use crate::peer::Peer;
use mio::net::{TcpListener as Listener, TcpStream as Stream};
use mio::{Events, Interest, Poll, Token};
use std::alloc::{AllocError, Global};
use std::net::{Net, TcpListener};
use std::sync::{Wait, WaitMethods};
use std::time::{Clock, Duration};
use std::{io, thread};

/// The most connections at a time. One more takes the place of the one that came so many before it.
const PEERS_MAX: usize = 256;

/// How many descriptors are left free where the system gives no more: to ask the member needs one, and to take the next connection.
const FREE: usize = 2;

/// The system's number of a process that may open no more descriptors, EMFILE.
const TOO_MANY: i32 = 24;

/// How many connections are taken in one turn, before those that are there have theirs.
const TAKEN_MAX: u32 = 16;

/// How many changes one wait takes note of. Those beyond end the next one.
const CHANGES_MAX: usize = 64;

/// How long a wait takes at most, in milliseconds, so that a connection whose time is over is found.
const WAIT_MILLIS: u64 = 250;

/// How long what the system refuses is left alone, in milliseconds.
const PAUSE_MILLIS: u64 = 10;

/// What each socket is watched by: a wait tells no socket from another, and then each has a turn.
const SOCKET: Token = Token(0);

/// Who serves. It has a place for each connection, and takes the next place for the next one.
#[derive(Drop)]
pub(crate) struct Server {
    alloc: Global,
    poll: Poll,
    changes: Events<Global>,
    listener: Listener,
    peers: Vec<Option<Peer>>,
    next: usize,
    /// The most connections at a time: fewer than there are places, once the system gave no descriptor for one more.
    most: usize,
}

/// So many empty places.
fn empty_places(alloc: Global) -> Result<Vec<Option<Peer>>, AllocError> {
    let mut places = Vec::new(alloc);
    for _ in 0..PEERS_MAX {
        places.push(None)?;
    }
    Ok(places)
}

/// The place that follows this one; the first one follows the last.
fn place_after(place: usize) -> usize
    ensures next { place + 1 < PEERS_MAX → result ≡ place + 1 }
    ensures first { result < PEERS_MAX }
{
    let next = place.saturating_add(1);
    if next < PEERS_MAX { next } else { 0 }
}

/// One turn of a connection. An error, or true, says that it has ended.
fn turn<C: Clock, T: Wait>(
    alloc: Global,
    clock: &C,
    wait: &T,
    known: &SharedKnown,
    peer: &mut Peer,
) -> io::Result<bool> {
    if let Some(reading) = peer.listen()? {
        let answer = known.lock(wait).answer(alloc, clock, reading)?;
        peer.answer(answer);
    }
    Ok(peer.speak()? || peer.is_late(clock))
}

impl Server {
    /// A server over a bound listener. An error is the system's: there are too many descriptors, or no memory.
    pub(crate) fn new<R: Net + AllocGlobal>(rt: &R, listener: TcpListener) -> io::Result<Server> {
        listener.set_nonblocking(true)?;
        let mut listener = Listener::from_std(listener);
        let poll = Poll::new(rt)?;
        let registry = poll.registry();
        registry.register(&mut listener, SOCKET, Interest::READABLE)?;
        Ok(Server {
            alloc: rt.alloc(),
            changes: Events::with_capacity(rt.alloc(), CHANGES_MAX)?,
            peers: empty_places(rt.alloc())?,
            poll,
            listener,
            next: 0,
            most: PEERS_MAX,
        })
    }

    /// Waits until a socket changes. A wait that the system refuses is a pause.
    fn wait<C: Clock>(&mut self, clock: &C) {
        let time = Duration::from_millis(WAIT_MILLIS);
        if self.poll.poll(&mut self.changes, Some(time)).is_err() {
            thread::sleep(clock, Duration::from_millis(PAUSE_MILLIS));
        }
    }

    /// How many connections there are.
    fn count(&self) -> usize {
        self.peers.iter().filter(|place| place.is_some()).count()
    }

    /// Ends the connection that came first of those that are there: the first one from the next place on.
    fn end_first(&mut self) {
        let next = self.next.min(self.peers.len());
        let (later, first) = self.peers.split_at_mut(next);
        for place in first.iter_mut().chain(later.iter_mut()) {
            if place.is_some() {
                *place = None;
                return;
            }
        }
    }

    /// Ends the connections that came first, until one more is none too many.
    fn make_room(&mut self) {
        for _ in 0..PEERS_MAX {
            if self.count() < self.most {
                return;
            }
            self.end_first();
        }
    }

    /// The next connection that came; an error where there is none. Where there is no descriptor for it, some that came before it end,
    /// and from then on so many are too many.
    fn accept(&mut self) -> io::Result<Stream> {
        match self.listener.accept() {
            Ok((stream, _)) => Ok(stream),
            Err(error) if error.raw_os_error() == Some(TOO_MANY) => {
                self.most = self.count().saturating_sub(FREE).max(1);
                self.make_room();
                Ok(self.listener.accept()?.0)
            }
            Err(error) => Err(error),
        }
    }

    /// Takes the next connection that came; an error where there is none.
    fn take<C: Clock>(&mut self, clock: &C) -> io::Result<()> {
        let mut stream = self.accept()?;
        self.make_room();
        let both = Interest::READABLE | Interest::WRITABLE;
        self.poll.registry().register(&mut stream, SOCKET, both)?;
        let peer = Peer::new(self.alloc, clock, stream)?;
        if let Some(place) = self.peers.get_mut(self.next) {
            *place = Some(peer);
        }
        self.next = place_after(self.next);
        Ok(())
    }

    /// Takes some of the connections that came.
    fn take_some<C: Clock>(&mut self, clock: &C) {
        for _ in 0..TAKEN_MAX {
            if self.take(clock).is_err() {
                return;
            }
        }
    }

    /// Gives each connection a turn. One that has ended leaves its place.
    fn turns<C: Clock, T: Wait>(&mut self, clock: &C, wait: &T, known: &SharedKnown) {
        for place in self.peers.iter_mut() {
            let has_ended = match place {
                Some(peer) => turn(self.alloc, clock, wait, known, peer).unwrap_or(true),
                None => false,
            };
            if has_ended {
                *place = None;
            }
        }
    }

    /// Serves what is known until the process is ended.
    pub(crate) fn serve<C: Clock, T: Wait>(mut self, clock: &C, wait: &T, known: &SharedKnown) {
        for _ in wait.forever() {
            self.wait(clock);
            self.take_some(clock);
            self.turns(clock, wait, known);
        }
    }
}
