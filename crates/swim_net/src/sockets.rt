//! All sockets of a member that runs.

ghost use Rattle.std.specs.Prelude.{◌≡◌, ◌*◌, min};
ghost use Rattle.std.specs.Duration.{as_nanos};

use crate::control_stream::ControlListener;
use crate::doors::ControlDoors;
use crate::udp::{UdpInbound, UdpLink};
use crate::waits::{SocketAlarm, Waits};
use log::Log;
use std::io;
use std::time::{Clock, Duration};

/// No socket waits longer, in milliseconds.
const WAIT_MAX_MILLIS: u64 = 1000;

/// How long a member's sockets wait at most, whose tick is so long: one tick, or a second if that is less.
pub fn wait_of(tick_millis: u64) -> Duration
    ensures { as_nanos result ≡ min tick_millis WAIT_MAX_MILLIS * 1000000 }
{
    Duration::from_millis(tick_millis.min(WAIT_MAX_MILLIS))
}

/// The control socket waits no longer, in milliseconds, so that a connection whose second is over ends soon.
const DOORS_WAIT_MAX_MILLIS: u64 = 250;

/// How long the control socket waits at most, where the others wait so long.
fn doors_wait_of(wait: Duration) -> Duration
    ensures { as_nanos result ≡ min (as_nanos wait) (DOORS_WAIT_MAX_MILLIS * 1000000) }
{
    wait.min(Duration::from_millis(DOORS_WAIT_MAX_MILLIS))
}

/// What `bind_datagrams` gives: what receives, what sends, and what ends a wait of the first.
pub type BoundDatagrams<'a, C> = (UdpInbound<'a, C>, UdpLink<'a, C>, SocketAlarm);

/// The sockets of a member: what receives datagrams, what sends them, the control socket, and what ends the waits of the first
/// and the last.
#[derive(Drop)]
pub struct Sockets<'a, C: Clock + Log> {
    /// What receives datagrams.
    pub inbound: UdpInbound<'a, C>,
    /// What sends them.
    pub link: UdpLink<'a, C>,
    /// Where control connections come in.
    pub doors: ControlDoors<'a, C>,
    /// What ends a wait for datagrams, and one for control.
    pub alarms: [SocketAlarm; 2],
}

impl<'a, C: Clock + Log> Sockets<'a, C> {
    /// Those of a member whose socket for datagrams is bound, over a bound listener for control. The thread of control has these
    /// waits, which that alarm ends, and waits as long as `wait` at most, or a quarter of a second if that is less. An error is the
    /// system's: it watches too many sockets.
    pub fn new(
        datagrams: BoundDatagrams<'a, C>,
        control: ControlListener,
        clock: &'a C,
        waits: &'a Waits,
        connections: SocketAlarm,
        wait: Duration,
    ) -> io::Result<Sockets<'a, C>> {
        let doors = ControlDoors::new(control, waits, clock, doors_wait_of(wait))?;
        let (inbound, link, alarm) = datagrams;
        Ok(Sockets {
            inbound,
            link,
            doors,
            alarms: [alarm, connections],
        })
    }
}
