//! Control connections.

use super::scene::{ENDED_MILLIS, TestRuntime, address, long, ring_later, sleep};
use crate::same::{given, holds, same};
use std::io::{ErrorKind, Read, Write};
use std::net::{TcpListener, TcpStream, UdpSocket};
use std::os::fd::{AsRawFd, RawFd};
use std::test::Fail;
use std::thread::join;
use std::time::{Duration, Instant};
use swim_net::{ControlDoors, ControlListener, SocketAlarm, Waits};
use swim_shell::{Alarm, Doors};

/// How many connections come one after the other.
const CONNECTIONS: u32 = 200;

/// How many turns a reader has at most that reads until its connection is over.
const TURNS: u32 = 100_000;

/// A wait that a test waits for again and again.
fn short() -> Duration {
    Duration::from_millis(50)
}

/// An alarm from another thread ends a wait.
#[test]
fn alarm_ends_wait(rt: HostRuntime) -> Result<(), Fail> {
    let listener = given(&rt, TcpListener::bind(&rt, address(0)));
    let (waits, alarm) = given(&rt, Waits::new(&rt, rt.alloc()));
    let mut doors = given(
        &rt,
        ControlDoors::new(ControlListener::Tcp(listener), &waits, &rt, long()),
    );
    let start = given(&rt, Instant::now(&rt));
    holds(&rt, doors.next().is_none());
    let _ = join(&rt, || doors.wait(long()), || ring_later(&rt, &alarm));
    let took = given(&rt, start.elapsed(&rt)).as_millis();
    holds(&rt, 15 < took && took < ENDED_MILLIS);
    Ok(())
}

/// A connection that comes in the wait ends it.
#[test]
fn connection_ends_wait(rt: HostRuntime) -> Result<(), Fail> {
    let listener = given(&rt, TcpListener::bind(&rt, address(0)));
    let port = given(&rt, listener.local_addr()).port();
    let (waits, _) = given(&rt, Waits::new(&rt, rt.alloc()));
    let mut doors = given(
        &rt,
        ControlDoors::new(ControlListener::Tcp(listener), &waits, &rt, long()),
    );
    let start = given(&rt, Instant::now(&rt));
    let (made, _) = join(
        &rt,
        || {
            sleep(&rt, 30);
            TcpStream::connect(&rt, address(port)).is_ok()
        },
        || doors.wait(long()),
    );
    holds(&rt, made && doors.next().is_some());
    holds(
        &rt,
        given(&rt, start.elapsed(&rt)).as_millis() < ENDED_MILLIS,
    );
    Ok(())
}

/// How a read for one byte fails.
fn failed<R: Read>(reader: &mut R) -> Option<ErrorKind> {
    let mut one = [0u8; 1];
    reader.read(&mut one).err().map(|error| error.kind())
}

/// A read of a connection that says nothing does not wait; what it says later ends a wait.
#[test]
fn read_of_nothing(rt: HostRuntime) -> Result<(), Fail> {
    let listener = given(&rt, TcpListener::bind(&rt, address(0)));
    let mut silent = given(
        &rt,
        TcpStream::connect(&rt, given(&rt, listener.local_addr())),
    );
    let (waits, _) = given(&rt, Waits::new(&rt, rt.alloc()));
    let mut doors = given(
        &rt,
        ControlDoors::new(ControlListener::Tcp(listener), &waits, &rt, long()),
    );
    let (mut reader, _) = doors.next().expect(&rt, "a connection");
    let start = given(&rt, Instant::now(&rt));
    same(&rt, failed(&mut reader), Some(ErrorKind::WouldBlock));
    let (said, _) = join(
        &rt,
        || {
            sleep(&rt, 30);
            silent.write_all(b"1").is_ok()
        },
        || read_whole(&mut doors, &mut reader, &mut [0u8; 1]),
    );
    holds(
        &rt,
        said && given(&rt, start.elapsed(&rt)).as_millis() < ENDED_MILLIS,
    );
    Ok(())
}

/// Reads byte after byte until a read fails otherwise than by `WouldBlock`, after which it waits.
fn last_failure<D: Doors, R: Read>(doors: &mut D, reader: &mut R) -> Option<ErrorKind> {
    for _ in 0..TURNS {
        match failed(reader) {
            None => {}
            Some(ErrorKind::WouldBlock) => doors.wait(long()),
            other => return other,
        }
    }
    None
}

/// Says one byte after the other of a line that does not end, until the connection is ended.
fn drip<R: TestRuntime>(rt: &R, mut stream: TcpStream) {
    for _ in 0..80 {
        if stream.write_all(b"x").is_err() {
            return;
        }
        sleep(rt, 50);
    }
}

/// A connection whose line does not end ends after a second.
#[test]
fn endless_line(rt: HostRuntime) -> Result<(), Fail> {
    let listener = given(&rt, TcpListener::bind(&rt, address(0)));
    let dripping = given(
        &rt,
        TcpStream::connect(&rt, given(&rt, listener.local_addr())),
    );
    let (waits, _) = given(&rt, Waits::new(&rt, rt.alloc()));
    let mut doors = given(
        &rt,
        ControlDoors::new(ControlListener::Tcp(listener), &waits, &rt, short()),
    );
    let (mut reader, writer) = doors.next().expect(&rt, "a connection");
    let start = given(&rt, Instant::now(&rt));
    let (_, took) = join(
        &rt,
        || drip(&rt, dripping),
        || {
            let kind = last_failure(&mut doors, &mut reader);
            drop(reader);
            drop(writer);
            (kind, start.elapsed(&rt).map_or(0, |took| took.as_millis()))
        },
    );
    same(&rt, took.0, Some(ErrorKind::TimedOut));
    holds(&rt, 900 < took.1 && took.1 < 5000);
    Ok(())
}

/// A connection that says nothing holds up no other, and ends after a second.
#[test]
fn stalled_connection(rt: HostRuntime) -> Result<(), Fail> {
    let listener = given(&rt, TcpListener::bind(&rt, address(0)));
    let at = given(&rt, listener.local_addr());
    let silent = given(&rt, TcpStream::connect(&rt, at));
    let (waits, _) = given(&rt, Waits::new(&rt, rt.alloc()));
    let mut doors = given(
        &rt,
        ControlDoors::new(ControlListener::Tcp(listener), &waits, &rt, short()),
    );
    let (mut reader, _) = doors.next().expect(&rt, "a connection");
    let start = given(&rt, Instant::now(&rt));
    let mut second = given(&rt, TcpStream::connect(&rt, at));
    given(&rt, second.write_all(b"2"));
    let (mut other, _) = doors.next().expect(&rt, "the second connection");
    let mut said = [0u8; 1];
    holds(&rt, read_whole(&mut doors, &mut other, &mut said).is_some());
    holds(
        &rt,
        said == *b"2" && given(&rt, start.elapsed(&rt)).as_millis() < ENDED_MILLIS,
    );
    same(
        &rt,
        last_failure(&mut doors, &mut reader),
        Some(ErrorKind::TimedOut),
    );
    let took = given(&rt, start.elapsed(&rt)).as_millis();
    holds(&rt, 900 < took && took < 5000);
    let _ = silent;
    Ok(())
}

/// Reads so many bytes, turn after turn, and says in how many turns; none if they do not come. It waits where nothing has come.
fn read_whole<D: Doors, R: Read>(doors: &mut D, reader: &mut R, bytes: &mut [u8]) -> Option<u32> {
    let mut kept = 0;
    for turns in 0..TURNS {
        if kept >= bytes.len() {
            return Some(turns);
        }
        match reader.read(&mut bytes[kept..kept + 1]) {
            Ok(1) => kept += 1,
            Err(error) if error.kind() == ErrorKind::WouldBlock => doors.wait(long()),
            _ => return None,
        }
    }
    None
}

/// Says a line in two parts, and rings between them.
fn say_slowly<R: TestRuntime>(rt: &R, stream: &mut TcpStream, alarm: &SocketAlarm) -> bool {
    let first = stream.write_all(b"sta").is_ok();
    sleep(rt, 30);
    alarm.ring();
    sleep(rt, 30);
    first && stream.write_all(b"tus\n").is_ok()
}

/// A line that comes in two parts comes whole, also when an alarm is rung between them; and its answer goes out.
#[test]
fn slow_line(rt: HostRuntime) -> Result<(), Fail> {
    let listener = given(&rt, TcpListener::bind(&rt, address(0)));
    let mut stream = given(
        &rt,
        TcpStream::connect(&rt, given(&rt, listener.local_addr())),
    );
    let (waits, alarm) = given(&rt, Waits::new(&rt, rt.alloc()));
    let mut doors = given(
        &rt,
        ControlDoors::new(ControlListener::Tcp(listener), &waits, &rt, long()),
    );
    let (mut reader, mut writer) = doors.next().expect(&rt, "a connection");
    let mut line = [0u8; 7];
    let (said, turns) = join(
        &rt,
        || say_slowly(&rt, &mut stream, &alarm),
        || read_whole(&mut doors, &mut reader, &mut line),
    );
    holds(&rt, said && turns.is_some_and(|turns| turns > 7));
    holds(&rt, line == *b"status\n");
    given(&rt, writer.write_all(b"ok\n"));
    let mut answer = [0u8; 3];
    given(&rt, stream.read_exact(&mut answer));
    holds(&rt, answer == *b"ok\n");
    Ok(())
}

/// Writes until a write fails, and says how.
fn fill<W: Write>(writer: &mut W) -> Option<ErrorKind> {
    for _ in 0..TURNS {
        if let Err(error) = writer.write(&[0u8; 10_000]) {
            return Some(error.kind());
        }
    }
    None
}

/// A write to a peer that reads nothing ends by an alarm, and after it with the second.
#[test]
fn full_writer(rt: HostRuntime) -> Result<(), Fail> {
    let listener = given(&rt, TcpListener::bind(&rt, address(0)));
    let stream = given(
        &rt,
        TcpStream::connect(&rt, given(&rt, listener.local_addr())),
    );
    let (waits, alarm) = given(&rt, Waits::new(&rt, rt.alloc()));
    let mut doors = given(
        &rt,
        ControlDoors::new(ControlListener::Tcp(listener), &waits, &rt, long()),
    );
    let (_, mut writer) = doors.next().expect(&rt, "a connection");
    let start = given(&rt, Instant::now(&rt));
    let (kind, _) = join(&rt, || fill(&mut writer), || ring_later(&rt, &alarm));
    same(&rt, kind, Some(ErrorKind::WouldBlock));
    holds(
        &rt,
        given(&rt, start.elapsed(&rt)).as_millis() < ENDED_MILLIS,
    );
    same(&rt, fill(&mut writer), Some(ErrorKind::TimedOut));
    let took = given(&rt, start.elapsed(&rt)).as_millis();
    holds(&rt, 900 < took && took < 5000);
    let _ = stream;
    Ok(())
}

/// Writes a million bytes, and says whether all went out.
fn write_much<W: Write>(writer: &mut W) -> bool {
    for _ in 0..1000 {
        if writer.write_all(&[5u8; 1000]).is_err() {
            return false;
        }
    }
    true
}

/// How many bytes come until the end.
fn count_bytes<R: TestRuntime>(rt: &R, stream: &mut TcpStream) -> usize {
    let mut count = 0usize;
    let mut bytes = [0u8; 5000];
    sleep(rt, 30);
    for _ in 0..TURNS {
        match stream.read(&mut bytes) {
            Ok(0) => return count,
            Ok(read) if count < 1_000_000 => count += read,
            _ => return 0,
        }
    }
    0
}

/// A write waits for a peer that reads late.
#[test]
fn late_peer(rt: HostRuntime) -> Result<(), Fail> {
    let listener = given(&rt, TcpListener::bind(&rt, address(0)));
    let mut stream = given(
        &rt,
        TcpStream::connect(&rt, given(&rt, listener.local_addr())),
    );
    let (waits, _) = given(&rt, Waits::new(&rt, rt.alloc()));
    let mut doors = given(
        &rt,
        ControlDoors::new(ControlListener::Tcp(listener), &waits, &rt, long()),
    );
    let (reader, mut writer) = doors.next().expect(&rt, "a connection");
    let (count, whole) = join(
        &rt,
        || count_bytes(&rt, &mut stream),
        || {
            let whole = write_much(&mut writer);
            drop(reader);
            drop(writer);
            whole
        },
    );
    holds(&rt, whole);
    same(&rt, count, 1_000_000);
    Ok(())
}

/// The number that the system gives the next descriptor.
fn next_descriptor<R: TestRuntime>(rt: &R) -> RawFd {
    let socket = UdpSocket::bind(rt, address(0)).ok().expect(rt, "a socket");
    socket.as_raw_fd()
}

/// Connections that come one after the other leave no descriptor behind.
#[test]
fn descriptors(rt: HostRuntime) -> Result<(), Fail> {
    let listener = given(&rt, TcpListener::bind(&rt, address(0)));
    let at = given(&rt, listener.local_addr());
    let (waits, _) = given(&rt, Waits::new(&rt, rt.alloc()));
    let mut doors = given(
        &rt,
        ControlDoors::new(ControlListener::Tcp(listener), &waits, &rt, long()),
    );
    let before = next_descriptor(&rt);
    for number in 0..CONNECTIONS {
        let mut stream = given(&rt, TcpStream::connect(&rt, at));
        given(&rt, stream.write_all(&number.to_be_bytes()));
        let (mut reader, mut writer) = doors.next().expect(&rt, "a connection");
        let mut said = [0u8; 4];
        holds(
            &rt,
            read_whole(&mut doors, &mut reader, &mut said).is_some(),
        );
        holds(&rt, said == number.to_be_bytes());
        given(&rt, writer.write_all(&said));
        given(&rt, stream.read_exact(&mut said));
    }
    same(&rt, next_descriptor(&rt), before);
    Ok(())
}
