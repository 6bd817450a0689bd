//! What becomes of what the system answers to a receive.

use crate::same::{holds, same};
use arrayvec::ArrayVec;
use std::io::{self, ErrorKind};
use std::net::{Ipv4Addr, Ipv6Addr, SocketAddr, SocketAddrV4, SocketAddrV6};
use std::test::Fail;
use swim_net::take;
use swim_shell::ReceiveFault;
use swim_wire::Endpoint;

/// The address 10.0.0.2 with this port.
fn from_port(port: u16) -> SocketAddr {
    SocketAddr::V4(SocketAddrV4::new(Ipv4Addr::new(10, 0, 0, 2), port))
}

/// Three bytes come in from an endpoint alone: from port 0, and from no IPv4 address, nothing comes, and nothing is kept
/// of what came before.
#[test]
fn datagrams(rt: HostRuntime) -> Result<(), Fail> {
    let six = SocketAddr::V6(SocketAddrV6::new(Ipv6Addr::LOCALHOST, 7000, 0, 0));
    for (from, want, kept) in [
        (
            from_port(7000),
            Endpoint::new(0x0a00_0002, 7000),
            b"abc".as_slice(),
        ),
        (from_port(1), Endpoint::new(0x0a00_0002, 1), b"abc"),
        (from_port(0), None, b""),
        (six, None, b""),
    ] {
        let mut into = ArrayVec::new();
        into.push(7);
        let taken = take(Ok((3, from)), b"abcd", &mut into);
        same(&rt, taken, Ok(want));
        same(&rt, into.as_slice(), kept);
    }
    Ok(())
}

/// The waiting time that is over, a signal, and what the system tells of an earlier send are no failed receives.
#[test]
fn errors(rt: HostRuntime) -> Result<(), Fail> {
    for (kind, want) in [
        (ErrorKind::WouldBlock, Ok(None)),
        (ErrorKind::TimedOut, Ok(None)),
        (ErrorKind::Interrupted, Ok(None)),
        (ErrorKind::ConnectionRefused, Ok(None)),
        (ErrorKind::HostUnreachable, Ok(None)),
        (ErrorKind::NetworkUnreachable, Ok(None)),
        (ErrorKind::NetworkDown, Err(ReceiveFault)),
        (ErrorKind::OutOfMemory, Err(ReceiveFault)),
        (ErrorKind::Uncategorized, Err(ReceiveFault)),
    ] {
        let mut into = ArrayVec::new();
        into.push(7);
        let taken = take(Err(io::Error::from(kind)), b"", &mut into);
        same(&rt, taken, want);
        holds(&rt, into.is_empty());
    }
    Ok(())
}
