//! Binds the sockets of a running member.

use crate::socket_file::{SocketFile, refuse_taken};
use log::Log;
use std::alloc::Global;
use std::fs::File;
use std::io;
use std::net::{Net, SocketAddr, TcpListener, TcpStream, UdpSocket};
use std::rt::Files;
use std::time::Clock;
use swim_exit::{Exit, Failure};
use swim_net::{ControlListener, SocketAlarm, Sockets, Waits, address_of, bind_datagrams, wait_of};
use swim_settings::{ControlPlace, NamedControl, RunSettings};
use swim_wire::{Endpoint, is_no_members};

/// The address that the others reach this member by.
fn own_address(alloc: Global, me: Endpoint) -> Result<SocketAddr, Failure> {
    if is_no_members(me.address()) {
        let about = format_args!("UDP {me} (me): it is the address of no machine");
        return Err(Failure::about(alloc, Exit::Socket, about));
    }
    Ok(address_of(me))
}

/// The exit where the system refuses the socket of datagrams.
fn without_datagrams(alloc: Global, me: Endpoint, error: &io::Error) -> Failure {
    let exit = Exit::of(error, Exit::Socket);
    Failure::about(alloc, exit, format_args!("UDP {me} (me): {error}"))
}

/// The exit where the system refuses the control socket.
fn without_doors(alloc: Global, control: &ControlPlace, error: &io::Error) -> Failure {
    let exit = Exit::of(error, Exit::Socket);
    let control = NamedControl(*control);
    Failure::about(alloc, exit, format_args!("{control}: {error}"))
}

/// The system's error where it binds no control socket at this place now, as one that is taken. What is bound is let go.
fn try_control<R>(rt: &R, control: &ControlPlace) -> io::Result<()>
where
    R: Net<Listener = TcpListener, Stream = TcpStream> + Files<File = File>,
{
    match control {
        ControlPlace::Tcp(endpoint) => {
            TcpListener::bind(rt, address_of(*endpoint))?;
            Ok(())
        }
        ControlPlace::Unix(path) => refuse_taken(rt, path.as_str()),
    }
}

/// The control socket of a member, which is open at least as long as this is held.
#[derive(Drop)]
pub(crate) struct HeldControl {
    /// Only held.
    _listener: ControlListener,
    file: Option<SocketFile>,
}

impl HeldControl {
    /// The control socket at this place, and what holds it.
    fn bind<R>(rt: &R, control: &ControlPlace) -> io::Result<(ControlListener, HeldControl)>
    where
        R: Net<Listener = TcpListener, Stream = TcpStream> + Files<File = File> + AllocGlobal,
    {
        let (listener, file) = match control {
            ControlPlace::Tcp(endpoint) => {
                let listener = TcpListener::bind(rt, address_of(*endpoint))?;
                (ControlListener::Tcp(listener), None)
            }
            ControlPlace::Unix(path) => {
                let (listener, file) = SocketFile::bind(rt, *path)?;
                (ControlListener::Unix(listener), Some(file))
            }
        };
        let held = HeldControl {
            _listener: listener.try_clone()?,
            file,
        };
        Ok((listener, held))
    }

    /// Takes the file of the socket away, if it has one, and then closes the socket: so nobody takes its path over before that is free.
    pub(crate) fn close<R: Files<File = File>>(self, rt: &R) {
        if let Some(file) = &self.file {
            file.remove(rt);
        }
    }
}

/// Refuses settings with an address at which the system binds no socket now, as one that is taken. What is bound is let go.
pub fn try_addresses<R>(rt: &R, told: &RunSettings) -> Result<(), Failure>
where
    R: Net<Listener = TcpListener, Stream = TcpStream> + Files<File = File> + AllocGlobal,
{
    let (me, alloc) = (told.settings.me, rt.alloc());
    let at = own_address(alloc, me)?;
    if let Err(error) = UdpSocket::bind(rt, at) {
        return Err(without_datagrams(alloc, me, &error));
    }
    if let Err(error) = try_control(rt, &told.control) {
        return Err(without_doors(alloc, &told.control, &error));
    }
    Ok(())
}

/// The waits of the control socket's thread, and what ends them.
pub(crate) fn waits<R: Net>(rt: &R, alloc: Global) -> Result<(Waits, SocketAlarm), Failure> {
    let unmade = |error: io::Error| {
        let exit = Exit::of(&error, Exit::Socket);
        Failure::about(alloc, exit, format_args!("poll: {error}"))
    };
    Waits::new(rt, alloc).map_err(unmade)
}

/// Binds the sockets of a member as its settings say. The control socket's thread has these waits, which that alarm ends. The
/// control socket is open as long as what is given beside them.
pub(crate) fn bind<'a, R, C: Clock + Log>(
    rt: &R,
    clock: &'a C,
    waits: &'a Waits,
    connections: SocketAlarm,
    told: &RunSettings,
) -> Result<(Sockets<'a, C>, HeldControl), Failure>
where
    R: Net<Listener = TcpListener, Stream = TcpStream> + Files<File = File> + AllocGlobal,
{
    let me = told.settings.me;
    let (wait, alloc) = (wait_of(told.tick_ms), rt.alloc());
    let at = own_address(alloc, me)?;
    let datagrams = bind_datagrams(rt, clock, alloc, at, wait);
    let datagrams = datagrams.map_err(|error: io::Error| without_datagrams(alloc, me, &error))?;
    let refused = |error: io::Error| without_doors(alloc, &told.control, &error);
    let (listener, held) = HeldControl::bind(rt, &told.control).map_err(&refused)?;
    let sockets = Sockets::new(datagrams, listener, clock, waits, connections, wait);
    Ok((sockets.map_err(&refused)?, held))
}
