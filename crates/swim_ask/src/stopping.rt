//! How a member ends that was told to stop.

ghost use Rattle.std.specs.Prelude.{◌≡◌, ◌⊎◌, ◌↔◌, IsTrue};
ghost use Rattle.std.specs.declared.io.ErrorKind.TheVariants as kinds;

use crate::asking::{left_of, now};
use crate::connecting::connect;
use std::io::{self, ErrorKind, Read};
use std::net::{Net, TcpStream};
use std::rt::Clock;
use std::thread;
use std::time::{Duration, Instant};
use swim_exit::{Exit, Failure};
use swim_settings::{ControlPlace, NamedControl};

/// How many milliseconds a member may take to end.
const END_MILLIS: u64 = 60_000;

/// How long it is left alone after a connection that it ended, in milliseconds.
const PAUSE_MILLIS: u64 = 20;

/// The most looks: the time is over by then.
const LOOKS_MAX: u64 = END_MILLIS / PAUSE_MILLIS;

/// Whether what ended a connection says that nobody listens any more: it was refused, or its path is gone, or it was never taken, and
/// is not to be.
fn is_gone(kind: ErrorKind) -> bool
    ensures { IsTrue result ↔ ((kind ≡ kinds.ConnectionRefused)
        ⊎ (kind ≡ kinds.ConnectionReset) ⊎ (kind ≡ kinds.NotFound)) }
{
    matches!(
        kind,
        ErrorKind::ConnectionRefused | ErrorKind::ConnectionReset | ErrorKind::NotFound
    )
}

/// Connects, and waits until the connection ends. An error says what ended it, or that the time is over.
fn wait_on_connection<R: Net<Stream = TcpStream> + Clock>(
    rt: &R,
    start: &Instant,
    at: &ControlPlace,
) -> io::Result<()> {
    let left = left_of(rt, start, END_MILLIS)?;
    let mut stream = connect(rt, at, left)?;
    stream.set_read_timeout(left_of(rt, start, END_MILLIS)?)?;
    let mut byte = [0u8; 1];
    stream.read(&mut byte)?;
    Ok(())
}

/// Waits until a member has ended that was told to stop: it closes its control socket last, once its state file is free and all of its
/// eras are recorded. An error says that this took more than a minute.
pub fn await_end<R: Net<Stream = TcpStream> + Clock + AllocGlobal>(
    rt: &R,
    at: &ControlPlace,
) -> Result<(), Failure> {
    let start = now(rt)?;
    for _ in 0..LOOKS_MAX {
        match wait_on_connection(rt, &start, at) {
            Err(error) if is_gone(error.kind()) => return Ok(()),
            _ => {}
        }
        if left_of(rt, &start, END_MILLIS).is_err() {
            break;
        }
        thread::sleep(rt, Duration::from_millis(PAUSE_MILLIS));
    }
    let at = NamedControl(*at);
    let open = format_args!("{at}: it is still open");
    Err(Failure::about(rt.alloc(), Exit::NotEnded, open))
}
