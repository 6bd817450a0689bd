//! A connection to the control socket of a member.

use mio::net::UnixStream;
use std::io;
use std::net::{Net, TcpStream};
use std::os::unix::net;
use std::time::Duration;
use swim_net::{ControlStream, address_of};
use swim_settings::ControlPlace;

/// Connects to a socket at a path. Where too many connections wait there already, the system says so at once.
fn connect_to_path(net: &impl Net, path: &str) -> io::Result<ControlStream> {
    let stream = net::UnixStream::from(UnixStream::connect(net, path)?);
    stream.set_nonblocking(false)?;
    Ok(ControlStream::Unix(stream))
}

/// Connects to a control socket, which takes no longer than so. An error is the system's.
pub(crate) fn connect<R: Net<Stream = TcpStream>>(
    rt: &R,
    to: &ControlPlace,
    most: Duration,
) -> io::Result<ControlStream> {
    match to {
        ControlPlace::Tcp(endpoint) => {
            let stream = TcpStream::connect_timeout(rt, &address_of(*endpoint), most)?;
            Ok(ControlStream::Tcp(stream))
        }
        ControlPlace::Unix(path) => connect_to_path(rt, path.as_str()),
    }
}
