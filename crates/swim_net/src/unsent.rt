//! What the log says of datagrams that the system did not send: to whom and why, once in a minute.

use crate::udp::address_of;
use log::{Log, warn};
use std::io::{self, ErrorKind};
use std::time::Clock;
use swim_wire::Endpoint;

/// The seconds in which one line is written.
const WINDOW_SECONDS: u64 = 60;

/// When a line was last written.
#[derive(Clone, Copy, Debug)]
pub(crate) struct Unsent {
    /// The window of time, counted from the clock's beginning.
    window: Option<u64>,
}

/// Whether the system refused so to send from a socket on loopback to another machine.
fn is_from_loopback(error: &io::Error, to: Endpoint) -> bool {
    error.kind() == ErrorKind::InvalidInput && !address_of(to).ip().is_loopback()
}

impl Unsent {
    /// Nothing was written yet.
    pub(crate) const fn new() -> Unsent {
        Unsent { window: None }
    }

    /// Writes to whom a datagram was not sent, and what the system said, unless a line was written in this window or the clock
    /// cannot be read.
    pub(crate) fn tell<W: Log + Clock>(&mut self, rt: &W, to: Endpoint, said: &io::Result<usize>) {
        let Ok(now) = rt.monotonic() else {
            return;
        };
        let window = Some(now.as_secs() / WINDOW_SECONDS);
        if self.window == window {
            return;
        }
        self.window = window;
        match said {
            Ok(length) => warn!(rt; "a datagram to {to} was cut to {length} bytes, and is lost"),
            Err(error) if is_from_loopback(error, to) =>
                warn!(rt; "no datagram was sent to {to}: {error}; `me` is on loopback (127.0.0.0/8), from where nothing leaves this machine: give `me` an address of this machine that the others reach (once a minute)"),
            Err(error) =>
                warn!(rt; "no datagram was sent to {to}: {error}; look at its address and at the route to it (once a minute)"),
        }
    }
}
