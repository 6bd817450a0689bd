//! Hosts by their names.

use crate::udp::endpoint_of;
use std::io;
use std::net::{Net, ToSocketAddrs};
use swim_wire::Endpoint;

/// The first IPv4 address that the system gives of a host now, with this port; none where it knows none. It may take long. An error is
/// the system's.
pub fn first_address<R: Net>(rt: &R, host: &str, port: u16) -> io::Result<Option<Endpoint>> {
    for address in (host, port).to_socket_addrs(rt)? {
        if let Some(endpoint) = endpoint_of(address) {
            return Ok(Some(endpoint));
        }
    }
    Ok(None)
}
