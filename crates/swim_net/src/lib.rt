//! Sockets whose waits another thread can end: UDP for datagrams, TCP or a path for control connections. Each call is tried first, and
//! waits only where it finds nothing, so that under load nothing waits.
//! Nothing is claimed of what the system does; what a socket answered is what its worker is given.
#![tactic(auto)]

mod connection;
mod control_socket;
mod control_stream;
mod doors;
mod guard;
mod hosts;
mod socket;
mod sockets;
mod udp;
mod unsent;
mod waits;

pub use connection::{ConnectionReader, ConnectionWriter};
pub use control_socket::OutgoingStream;
pub use control_stream::{ControlListener, ControlStream};
pub use doors::ControlDoors;
pub use hosts::first_address;
pub use sockets::{BoundDatagrams, Sockets, wait_of};
pub use udp::{UdpInbound, UdpLink, address_of, bind_datagrams, endpoint_of, take};
pub use waits::{SocketAlarm, Waits};
