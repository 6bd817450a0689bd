//! Datagrams between two sockets.

use super::scene::{ENDED_MILLIS, TestRuntime, address, long, ring_later, sleep};
use crate::same::{given, holds, same};
use arrayvec::ArrayVec;
use log::Log;
use std::alloc::Global;
use std::io;
use std::net::{Net, UdpSocket};
use std::sync::atomic::{AtomicU32, Ordering};
use std::test::Fail;
use std::thread::join;
use std::time::{Clock, Duration, Instant};
use swim_net::{SocketAlarm, UdpInbound, UdpLink, bind_datagrams};
use swim_node::Link;
use swim_shell::{Alarm, Inbound};
use swim_wire::Endpoint;

/// How many datagrams are sent one after the other.
const SENT: u32 = 3000;

/// What receives and what sends at a port, and what ends its waits.
fn bound<'a, R: Net + Clock + Log>(
    rt: &'a R,
    alloc: Global,
    port: u16,
    wait: Duration,
) -> io::Result<(UdpInbound<'a, R>, UdpLink<'a, R>, SocketAlarm)> {
    bind_datagrams(rt, rt, alloc, address(port), wait)
}

/// The endpoint of this machine with this port.
fn endpoint<R: TestRuntime>(rt: &R, port: u16) -> Endpoint {
    Endpoint::new(0x7f00_0001, port).expect(rt, "a port")
}

/// A receive that nothing comes for ends by its waiting time.
#[test]
fn waiting_time(rt: HostRuntime) -> Result<(), Fail> {
    let (mut inbound, _, _) = given(&rt, bound(&rt, rt.alloc(), 0, Duration::from_millis(20)));
    let mut into = ArrayVec::new();
    let start = given(&rt, Instant::now(&rt));
    same(&rt, inbound.receive(&mut into), Ok(None));
    let took = given(&rt, start.elapsed(&rt)).as_millis();
    holds(&rt, 15 < took && took < ENDED_MILLIS);
    Ok(())
}

/// An alarm from another thread ends a receive.
#[test]
fn alarm_ends_receive(rt: HostRuntime) -> Result<(), Fail> {
    let (mut inbound, _, alarm) = given(&rt, bound(&rt, rt.alloc(), 0, long()));
    let mut into = ArrayVec::new();
    let start = given(&rt, Instant::now(&rt));
    let (_, received) = join(
        &rt,
        || ring_later(&rt, &alarm),
        || inbound.receive(&mut into),
    );
    same(&rt, received, Ok(None));
    let took = given(&rt, start.elapsed(&rt)).as_millis();
    holds(&rt, 15 < took && took < ENDED_MILLIS);
    Ok(())
}

/// Rings before a receive end it at once, and the one after it waits.
#[test]
fn ring_before_wait(rt: HostRuntime) -> Result<(), Fail> {
    let (mut inbound, _, alarm) = given(&rt, bound(&rt, rt.alloc(), 0, Duration::from_millis(950)));
    let mut into = ArrayVec::new();
    alarm.ring();
    alarm.ring();
    let start = given(&rt, Instant::now(&rt));
    same(&rt, inbound.receive(&mut into), Ok(None));
    holds(
        &rt,
        given(&rt, start.elapsed(&rt)).as_millis() < ENDED_MILLIS,
    );
    same(&rt, inbound.receive(&mut into), Ok(None));
    holds(
        &rt,
        given(&rt, start.elapsed(&rt)).as_millis() >= ENDED_MILLIS,
    );
    Ok(())
}

/// A datagram that comes in the wait ends it, and is what the receive gives.
#[test]
fn datagram_ends_receive(rt: HostRuntime) -> Result<(), Fail> {
    let (mut inbound, _, _) = given(&rt, bound(&rt, rt.alloc(), 7111, long()));
    let (_, mut link, _) = given(&rt, bound(&rt, rt.alloc(), 7112, long()));
    let to = endpoint(&rt, 7111);
    let mut into = ArrayVec::new();
    let start = given(&rt, Instant::now(&rt));
    let (sent, received) = join(
        &rt,
        || {
            sleep(&rt, 30);
            link.send(to, b"late")
        },
        || inbound.receive(&mut into),
    );
    holds(&rt, sent.is_ok());
    same(&rt, received, Ok(Some(endpoint(&rt, 7112))));
    same(&rt, into.as_slice(), b"late".as_slice());
    holds(
        &rt,
        given(&rt, start.elapsed(&rt)).as_millis() < ENDED_MILLIS,
    );
    Ok(())
}

/// Waits until so many were received.
fn catch_up<R: TestRuntime>(rt: &R, received: &AtomicU32, wanted: u32) {
    for _ in 0..20_000 {
        if received.load(Ordering::SeqCst) >= wanted {
            return;
        }
        sleep(rt, 1);
    }
}

/// Sends numbers in order, a few at a time: then the other side has them all, and has come to wait again.
fn send_numbers<R: TestRuntime>(
    rt: &R,
    link: &mut UdpLink<'_, R>,
    to: Endpoint,
    received: &AtomicU32,
) -> bool {
    for number in 0..SENT {
        if number % 50 == 0 {
            catch_up(rt, received, number);
        }
        if link.send(to, &number.to_be_bytes()).is_err() {
            return false;
        }
    }
    true
}

/// Receives numbers, up to the first that is not the next one.
fn receive_numbers<R: TestRuntime>(
    inbound: &mut UdpInbound<'_, R>,
    from: Endpoint,
    received: &AtomicU32,
) {
    let mut into = ArrayVec::new();
    for number in 0..SENT {
        received.store(number, Ordering::SeqCst);
        let answer = inbound.receive(&mut into);
        if answer != Ok(Some(from)) || into.as_slice() != number.to_be_bytes().as_slice() {
            return;
        }
    }
    received.store(SENT, Ordering::SeqCst);
}

/// Each datagram is given once and in order, whether it comes before a wait or in one.
#[test]
fn in_order(rt: HostRuntime) -> Result<(), Fail> {
    let (mut inbound, _, _) = given(&rt, bound(&rt, rt.alloc(), 7113, long()));
    let (_, mut link, _) = given(&rt, bound(&rt, rt.alloc(), 7114, long()));
    let (to, from) = (endpoint(&rt, 7113), endpoint(&rt, 7114));
    let received = AtomicU32::new(0);
    let (_, sent) = join(
        &rt,
        || receive_numbers(&mut inbound, from, &received),
        || send_numbers(&rt, &mut link, to, &received),
    );
    holds(&rt, sent);
    same(&rt, received.load(Ordering::SeqCst), SENT);
    Ok(())
}

/// Datagrams that came before the first receive are all given without a wait, the same change or not.
#[test]
fn before_wait(rt: HostRuntime) -> Result<(), Fail> {
    let (mut inbound, _, _) = given(&rt, bound(&rt, rt.alloc(), 7115, long()));
    let (_, mut link, _) = given(&rt, bound(&rt, rt.alloc(), 7116, long()));
    let to = endpoint(&rt, 7115);
    let mut into = ArrayVec::new();
    let start = given(&rt, Instant::now(&rt));
    for round in 0..20u8 {
        for number in 0..10u8 {
            holds(&rt, link.send(to, &[round, number]).is_ok());
        }
        for number in 0..10u8 {
            same(
                &rt,
                inbound.receive(&mut into),
                Ok(Some(endpoint(&rt, 7116))),
            );
            same(&rt, into.as_slice(), [round, number].as_slice());
        }
    }
    holds(
        &rt,
        given(&rt, start.elapsed(&rt)).as_millis() < ENDED_MILLIS,
    );
    Ok(())
}

/// What a member keeps of a datagram that is too long, and what a stranger sends.
#[test]
fn long_and_strange(rt: HostRuntime) -> Result<(), Fail> {
    let (mut inbound, _, _) = given(&rt, bound(&rt, rt.alloc(), 7117, long()));
    let sender = given(&rt, UdpSocket::bind(&rt, address(7118)));
    given(&rt, sender.send_to(&[9u8; 600], address(7117)));
    let mut into = ArrayVec::new();
    same(
        &rt,
        inbound.receive(&mut into),
        Ok(Some(endpoint(&rt, 7118))),
    );
    same(&rt, into.as_slice(), [9u8; 513].as_slice());
    Ok(())
}
