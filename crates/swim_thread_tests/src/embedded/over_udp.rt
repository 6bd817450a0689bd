//! A member that runs over UDP.

use log::Log;
use rollerblack::{
    Disk, Endpoint, FileDisk, MemDisk, MemberEnd, Node, OpenFault, OverUdp, Owner, RecoverFault,
    Settings, StartFault, endpoint_of, init, open_locked, run_over_udp,
};
use std::io::{Read, Write};
use std::net::{Ipv4Addr, SocketAddrV4, TcpListener, TcpStream, UdpSocket};
use std::sync::Wait;
use std::test::Fail;
use std::thread::Threads;
use std::time::Clock;

/// Runs a member of group 7 on its state file. An error is what was refused.
fn run<T: Threads + Wait + Log + Clock + Send + Sync + Copy + Drop>(
    rt: &HostRuntime,
    logged: &T,
    file: &str,
    me: Endpoint,
    control: TcpListener,
) -> Result<(), &'static str> {
    let file = open_locked(rt, file, false).map_err(|_| "a state file")?;
    let disk = FileDisk::load(rt.alloc(), file.into_file()).map_err(|_| "a state file")?;
    // by the rules that `swim up` gives a group
    let settings = Settings {
        rules: 2,
        ..Settings::usual(7, me)
    };
    let member = OverUdp::usual(settings);
    let ended = run_over_udp(rt, logged, disk, control, member).map_err(|_| "a start")?;
    ended.how.map_err(|_| "a worker")?;
    Ok(())
}

/// An address of this machine with a port that is free.
fn free_address() -> SocketAddrV4 {
    SocketAddrV4::new(Ipv4Addr::new(127, 0, 0, 1), 0)
}

/// An endpoint of this machine whose port is free.
fn free_endpoint(rt: &HostRuntime) -> Result<Endpoint, Fail> {
    let socket = UdpSocket::bind(rt, free_address())?;
    Ok(endpoint_of(socket.local_addr()?).ok_or("an endpoint")?)
}

/// A member shows itself over the control connection, and ends. The next life on its disk begins above its numbers.
#[test]
fn runs_until_stopped(rt: HostRuntime) -> Result<(), Fail> {
    let me = free_endpoint(&rt)?;
    let settings = Settings::usual(7, me);
    let mut disk = MemDisk::new(rt.alloc(), 1, Vec::new(rt.alloc()));
    init(&mut disk, Owner { group: 7, me }, 0).map_err(|_| "a state file")?;
    let control = TcpListener::bind(&rt, free_address())?;
    let mut asks = TcpStream::connect(&rt, control.local_addr()?)?;
    asks.write_all(b"members\nstop\n")?;
    let ended = run_over_udp(&rt, &rt, disk, control, OverUdp::usual(settings));
    let ended = ended.map_err(|_| "a start")?;
    assert_eq!(&rt; ended.how, Ok(MemberEnd::Stopped));
    let mut answer = Vec::new(rt.alloc());
    asks.read_to_end(&mut answer)?;
    let want = format!(in rt.alloc(); "ok 1\nalive {me} 1\nok stopping\n")?;
    assert_eq!(&rt; answer.as_slice(), want.as_bytes());
    let next = Node::open(rt.alloc(), ended.node.into_disk(), settings, 1).map_err(|_| "a life")?;
    assert_eq!(&rt; next.first(), 2);
    Ok(())
}

/// What is left of a start on a disk without a state file, and why it was refused.
fn refused<T: Threads + Wait + Log + Clock + Send + Sync + Copy + Drop>(
    rt: &HostRuntime,
    logged: &T,
    me: Endpoint,
) -> Result<(MemDisk, StartFault), Fail> {
    let disk = MemDisk::new(rt.alloc(), 5, Vec::new(rt.alloc()));
    let control = TcpListener::bind(rt, free_address())?;
    let member = OverUdp::usual(Settings::usual(7, me));
    let started = run_over_udp(rt, logged, disk, control, member);
    Ok(started.err().ok_or("a life without a state file")?)
}

/// A start that is refused gives the disk back.
#[test]
fn a_refused_start_gives_the_disk_back(rt: HostRuntime) -> Result<(), Fail> {
    let (disk, why) = refused(&rt, &rt, free_endpoint(&rt)?)?;
    let is_refused = matches!(
        &why,
        StartFault::Open(OpenFault::Refused(RecoverFault::NotState))
    );
    assert!(&rt; is_refused, "{why:?}");
    assert!(&rt; disk.bytes()?.is_empty());
    Ok(())
}

/// A broadcast reaches no member, so none starts there.
#[test]
fn no_member_starts_at_a_broadcast(rt: HostRuntime) -> Result<(), Fail> {
    let me = Endpoint::new(u32::MAX, 7000).ok_or("an endpoint")?;
    let (_, why) = refused(&rt, &rt, me)?;
    assert!(&rt; matches!(&why, StartFault::Address), "{why:?}");
    Ok(())
}

/// A member on a file runs and ends, and its next life begins above that one's numbers.
#[test]
fn runs_on_a_file(rt: HostRuntime) -> Result<(), Fail> {
    let me = free_endpoint(&rt)?;
    let owner = Owner { group: 7, me };
    let mut disk = FileDisk::create(rt.alloc(), &rt, "member.state").map_err(|_| "a file")?;
    init(&mut disk, owner, 0).map_err(|_| "a state file")?;
    for number in ["1", "2"] {
        let control = TcpListener::bind(&rt, free_address())?;
        let mut asks = TcpStream::connect(&rt, control.local_addr()?)?;
        asks.write_all(b"members\nstop\n")?;
        run(&rt, &rt, "member.state", me, control)?;
        let mut answer = Vec::new(rt.alloc());
        asks.read_to_end(&mut answer)?;
        let want = format!(in rt.alloc(); "ok 1\nalive {me} {number}\nok stopping\n")?;
        assert_eq!(&rt; answer.as_slice(), want.as_bytes());
    }
    Ok(())
}
