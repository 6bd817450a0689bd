//! What the tests share.

use log::Log;
use std::net::{Ipv4Addr, Net, SocketAddrV4};
use std::process::Abort;
use std::thread::{self, Threads};
use std::time::{Clock, Duration};
use swim_net::SocketAlarm;
use swim_shell::Alarm;

/// What a test runs on.
pub(super) trait TestRuntime: Threads + Abort + Clock + Log + Net + Sync {}

impl<R: Threads + Abort + Clock + Log + Net + Sync> TestRuntime for R {}

/// A waiting time that no test waits for.
pub(super) fn long() -> Duration {
    Duration::from_secs(20)
}

/// What a wait takes at most that something ends, in milliseconds: far more than it takes, and far less than the long one.
pub(super) const ENDED_MILLIS: u128 = 900;

/// An address of this machine.
pub(super) fn address(port: u16) -> SocketAddrV4 {
    SocketAddrV4::new(Ipv4Addr::new(127, 0, 0, 1), port)
}

/// Sleeps so many milliseconds.
pub(super) fn sleep<C: Clock>(clock: &C, millis: u64) {
    thread::sleep(clock, Duration::from_millis(millis));
}

/// Rings after 30 milliseconds, when the other thread waits.
pub(super) fn ring_later<C: Clock>(clock: &C, alarm: &SocketAlarm) {
    sleep(clock, 30);
    alarm.ring();
}
