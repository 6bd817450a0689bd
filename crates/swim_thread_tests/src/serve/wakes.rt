//! The end of an era, wherever its workers wait.

use super::fakes::{Idle, Nobody, Socket, SocketWaiter, ends_third};
use crate::same::holds;
use std::sync::Wait;
use std::test::Fail;
use std::thread::Threads;
use std::time::{Clock, Duration, Instant};
use swim_handle::{Crew, Notifying, Pace, Resting};
use swim_serve::{Job, Pacing, Shutdown, TickTimer, serve};

/// How often each test tries.
const ROUNDS: u32 = 20;

/// The most that an end may take until all are through, in milliseconds: less than any of the waits lasts by itself.
const END_MILLIS: u64 = 50;

/// A tick that no test lives to see, in seconds.
const TICK_SECS: u64 = 5;

/// When control ended beside three workers that wait: for a datagram, a tick, and something to send.
fn ended_by_control<'x, T: Threads + Wait + Clock + Sync>(
    rt: &'x T,
    pace: &'x Pace,
    shutdown: &'x Shutdown<'x, Socket>,
    socket: &'x Socket,
    pause: Duration,
) -> Option<Instant> {
    let mut timer = TickTimer::new(Duration::from_secs(TICK_SECS), u64::MAX);
    let receiver = Job {
        rt,
        worker: SocketWaiter { rt, socket },
        caller: Nobody::new(),
        gate: Notifying::new(pace),
        shutdown,
    };
    let ticker = Job {
        rt,
        worker: Idle,
        caller: Nobody::new(),
        gate: Pacing::new(rt, pace, &mut timer),
        shutdown,
    };
    let sender = Job {
        rt,
        worker: Idle,
        caller: Nobody::new(),
        gate: Resting::new(rt, pace),
        shutdown,
    };
    let control = Job {
        rt,
        worker: ends_third(rt, pause),
        caller: Nobody::new(),
        gate: Notifying::new(pace),
        shutdown,
    };
    let crew = Crew {
        receiver,
        ticker,
        sender,
        control,
    };
    serve(rt, shutdown, crew).crew.control.worker.at
}

/// When control ended in an era of its own.
fn ended_at<T: Threads + Wait + Clock + Sync>(rt: &T, pause: Duration) -> Option<Instant> {
    let pace = Pace::new();
    let sockets = [Socket::new()];
    let shutdown = Shutdown::new(&pace, &sockets);
    ended_by_control(rt, &pace, &shutdown, &sockets[0], pause)
}

/// Each round's end takes less than the limit.
fn all_end_in_time<T: Threads + Wait + Clock + Sync>(rt: &T, pause: Duration) -> bool {
    let limit = Duration::from_millis(END_MILLIS);
    (0..ROUNDS).all(|_| match ended_at(rt, pause) {
        Some(at) => matches!(at.elapsed(rt), Ok(time) if time < limit),
        None => false,
    })
}

/// Workers that wait are woken by the end of another one.
#[test]
fn waits_end(rt: HostRuntime) -> Result<(), Fail> {
    holds(&rt, all_end_in_time(&rt, Duration::from_millis(5)));
    Ok(())
}

/// Workers that begin to wait while another one ends don't miss it.
#[test]
fn waits_that_begin_at_the_end(rt: HostRuntime) -> Result<(), Fail> {
    holds(&rt, all_end_in_time(&rt, Duration::ZERO));
    Ok(())
}
