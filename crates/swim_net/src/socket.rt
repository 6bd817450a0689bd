//! Sockets for datagrams. **What the system does can't be proved: [`ReceivingSocket::receive`] and [`SendingSocket::send`]
//! are to be read and believed.**
//!
//! Each makes one call of the system with what it was given. It notes what it asked for and what was answered, and gives
//! that answer. All that is proved of datagrams rests on these notes.

ghost use Rattle.std.specs.Prelude.{◌≡◌, ◌≤◌, ◌++◌, ◌∷◌, [], length, IfOk};

use std::io;
use std::net::{SocketAddr, UdpSocket};
use swim_trace::{Pairs, Trace};

/// A socket that receives datagrams and never waits.
#[derive(Drop)]
pub(crate) struct ReceivingSocket {
    socket: mio::net::UdpSocket,
    /// What the buffer held after each receive, and what was answered.
    pub(crate) answers: Pairs<Trace<u8>, io::Result<(usize, SocketAddr)>>,
}

/// A datagram that was to go out.
#[derive(Drop)]
pub(crate) struct OutgoingDatagram {
    to: SocketAddr,
    bytes: Trace<u8>,
}

/// A socket that sends datagrams and never waits.
#[derive(Drop)]
pub(crate) struct SendingSocket {
    socket: UdpSocket,
    /// What was to go out by each send, and what was answered.
    pub(crate) answers: Pairs<OutgoingDatagram, io::Result<usize>>,
}

impl ReceivingSocket {
    pub(crate) fn new(socket: mio::net::UdpSocket) -> ReceivingSocket {
        ReceivingSocket {
            socket,
            answers: Pairs::new(),
        }
    }

    /// What has come: how many bytes of it the buffer has, and whence. The system cuts what is longer than the buffer.
    pub(crate) fn receive(&mut self, buffer: &mut [u8]) -> io::Result<(usize, SocketAddr)>
        ensures size { length buffer.new ≡ length buffer.old }
        ensures count { IfOk result (λ got. got.0 ≤ length buffer.old) }
        ensures told { self.new.answers.items
            ≡ self.old.answers.items ++ (buffer.new, result) ∷ [] }
    {
        let answer = self.socket.recv_from(buffer);
        self.answers = self.answers.and(&Trace::of(buffer), &answer);
        answer
    }
}

impl SendingSocket {
    pub(crate) fn new(socket: UdpSocket) -> SendingSocket {
        SendingSocket {
            socket,
            answers: Pairs::new(),
        }
    }

    /// Sends these bytes as one datagram, and says how many of them went out.
    pub(crate) fn send(&mut self, bytes: &[u8], to: SocketAddr) -> io::Result<usize>
        ensures told { self.new.answers.items ≡ self.old.answers.items
            ++ (record { to = to; bytes = bytes.now }, result) ∷ [] }
    {
        let answer = self.socket.send_to(bytes, to);
        let bytes = Trace::of(bytes);
        self.answers = self.answers.and(&OutgoingDatagram { to, bytes }, &answer);
        answer
    }
}
