//! Datagrams over UDP.

ghost use Rattle.std.specs.Prelude.{◌≡◌, ◌≢◌, ◌≤◌, ◌↔◌, ◌++◌, ◌∷◌, [], length, take as first, false, IfErr, IfNone, IfOk, IfSome, IsErr, IsOk, None, OnErr, OnOk, Some};
ghost use Rattle.std.specs.IoError.{error_kind};
ghost use Rattle.std.specs.declared.io.ErrorKind.TheVariants.{Interrupted};
ghost use Rattle.swim_shell.specs.Inbounds.{came_of};
ghost use Rattle.swim_net.specs.Datagrams.{IsEndpointAt, brings_nothing, came_in, went_by};

use crate::socket::{ReceivingSocket, SendingSocket};
use crate::unsent::Unsent;
use crate::waits::{SocketAlarm, Waits, pause};
use arrayvec::ArrayVec;
use log::Log;
use mio::Interest;
use std::alloc::Global;
use std::io::{self, ErrorKind};
use std::net::{Ipv4Addr, Net, SocketAddr, SocketAddrV4, ToSocketAddrs, UdpSocket};
use std::time::{Clock, Duration};
use swim_member::RECEIVED_MAX;
use swim_node::{Link, LinkFault};
use swim_shell::{Alarmed, Inbound, ReceiveFault};
use swim_trace::Trace;
use swim_wire::Endpoint;

/// How often a send is tried that a signal cuts short or that finds no room.
const SENDS_MAX: u32 = 16;

/// The socket address of an endpoint.
pub fn address_of(endpoint: Endpoint) -> SocketAddr
    ensures { IsEndpointAt result (Some endpoint) }
{
    let address = Ipv4Addr::from_bits(endpoint.address());
    SocketAddr::V4(SocketAddrV4::new(address, endpoint.port()))
}

/// The endpoint that a socket address is; none for IPv6 and for port 0.
pub fn endpoint_of(from: SocketAddr) -> Option<Endpoint>
    ensures { IsEndpointAt from result }
{
    match from {
        SocketAddr::V4(from) => Endpoint::new(u32::from(*from.ip()), from.port()),
        SocketAddr::V6(_) => None,
    }
}

/// Datagrams that go out over UDP, one a send. A short send is a failure. It does not tell what it took: what a socket
/// takes is not known here. To whom the system refused to send one, and why, is logged at level warn, once a minute.
#[derive(Drop)]
pub struct UdpLink<'a, C: Clock + Log> {
    socket: SendingSocket,
    clock: &'a C,
    unsent: Unsent,
    failures: Trace<()>,
}

/// What became of a datagram that a socket was to send.
#[derive(Clone, Copy, Debug, PartialEq, Eq)]
enum Went {
    /// All of it went out.
    Whole,
    /// It did not go out, or was cut short.
    Lost,
    /// A signal interrupted the send: it may be tried again at once.
    Interrupted,
    /// The system had no room: it may be tried again after a pause.
    NoRoom,
}

/// What became of a datagram of so many bytes, where the socket answered so.
fn went_by(answer: &io::Result<usize>, length: usize) -> Went
    ensures { result ≡ went_by answer.now length }
{
    match answer {
        Ok(sent) if *sent == length => Went::Whole,
        Ok(_) => Went::Lost,
        Err(error) => match error.kind() {
            ErrorKind::Interrupted => Went::Interrupted,
            ErrorKind::WouldBlock => Went::NoRoom,
            _ => Went::Lost,
        },
    }
}

impl<'a, C: Clock + Log> UdpLink<'a, C> {
    /// A link over a bound socket that never waits.
    fn new(socket: UdpSocket, clock: &'a C) -> UdpLink<'a, C> {
        UdpLink {
            socket: SendingSocket::new(socket),
            clock,
            unsent: Unsent::new(),
            failures: Trace::new(),
        }
    }
}

impl<'a, C: Clock + Log> Link for UdpLink<'a, C> {
    ghost use Rattle.std.specs.Prelude.{◌≡◌, ◌+◌, [], length, is_ok, IsErr, MatchResult};
    ghost use Rattle.swim_node.specs.Link.{link_number};
    ghost use Rattle.swim_shell.specs.Tries.{Tried};
    ghost use Rattle.swim_net.specs.Udp.{EndsAs, SendsAgain, sends_of};

    ghost name = { λ _. link_number 0 };

    ghost tells = { ⊥ };

    ghost took = { λ _. [] };

    ghost failures = { λ l. length l.failures };

    fn send(&mut self, to: Endpoint, bytes: &[u8]) -> Result<(), LinkFault>
        ensures failures { MatchResult result
            (λ _. length self.new.failures ≡ length self.old.failures)
            (λ _. length self.new.failures ≡ length self.old.failures + 1) }

        // A send that may be tried again is, some times.
        ensures tried { Tried (SendsAgain to bytes.now) (EndsAs to bytes.now (is_ok result))
            SENDS_MAX (IsErr result) (sends_of self.old) (sends_of self.new) }
    {
        for _ in 0..SENDS_MAX {
            let answer = self.socket.send(bytes, address_of(to));
            match went_by(&answer, bytes.len()) {
                Went::Whole => return Ok(()),
                Went::Lost => {
                    self.unsent.tell(self.clock, to, &answer);
                    break;
                }
                Went::Interrupted => {}
                Went::NoRoom => pause(self.clock),
            }
        }
        self.failures = self.failures.and(&());
        Err(LinkFault)
    }
}

/// One answer of a socket, which only proofs read: each of its traces has one entry.
#[derive(Drop)]
struct ReceiveAnswer {
    from: Trace<Result<Option<Endpoint>, ReceiveFault>>,
    bytes: Trace<ArrayVec<u8, RECEIVED_MAX>>,
}

/// Datagrams that come in over UDP, within a waiting time. A datagram from no endpoint is nothing that came. It tells what
/// it answered.
#[derive(Drop)]
pub struct UdpInbound<'a, C: Clock> {
    socket: ReceivingSocket,
    waits: Waits,
    clock: &'a C,
    wait: Duration,
    answers: Trace<ReceiveAnswer>,
}

/// Whether a receive that ended so brought nothing, and did not fail: nothing had come in the waiting time, a signal cut it
/// short, or the system told of an earlier send that it did not arrive.
pub(crate) fn brings_nothing(kind: ErrorKind) -> bool
    ensures { result ≡ brings_nothing kind }
{
    matches!(
        kind,
        ErrorKind::WouldBlock
            | ErrorKind::TimedOut
            | ErrorKind::Interrupted
            | ErrorKind::ConnectionRefused
            | ErrorKind::HostUnreachable
            | ErrorKind::NetworkUnreachable
    )
}

/// What a receive of the system says, whose bytes are kept if they come from an endpoint. Whoever can send a datagram can
/// send one from port 0, so that is no failed receive, and neither is one that a signal cut short.
pub fn take(
    received: io::Result<(usize, SocketAddr)>,
    bytes: &[u8],
    into: &mut ArrayVec<u8, RECEIVED_MAX>,
) -> Result<Option<Endpoint>, ReceiveFault>
    requires { IfOk received (λ r. r.0 ≤ length bytes.now) }
    ensures came { OnOk received (IsOk result) }
    ensures failed { OnErr result (IfErr received (λ e. error_kind e ≢ Interrupted)) }
    ensures fault { IfErr received (λ e. IsErr result ↔ (brings_nothing (error_kind e) ≡ false)) }
    ensures none { IfErr received (λ _. IfOk result (λ from. from ≡ None)) }
    ensures nothing { IfOk result (λ from. IfNone from (into.new.items ≡ [])) }
    ensures whence { IfOk received (λ r. IfOk result (λ from. IsEndpointAt r.1 from)) }
    ensures whole { IfOk received (λ r. r.0 ≤ RECEIVED_MAX → IfOk result
        (λ from. IfSome from (λ _. into.new.items ≡ first r.0 bytes.now))) }
{
    into.clear();
    match received {
        Ok((length, from)) => match endpoint_of(from) {
            Some(from) => {
                let _ = into.try_extend_from_slice(&bytes[..length]);
                Ok(Some(from))
            }
            None => Ok(None),
        },
        Err(error) if brings_nothing(error.kind()) => Ok(None),
        Err(_) => Err(ReceiveFault),
    }
}

impl<'a, C: Clock> UdpInbound<'a, C> {
    ghost use Rattle.swim_net.specs.Udp.{IsBrought, receives_of};

    /// Takes an answer of the system.
    #[tactic(auto, using(crate::proofs::Answering::answers_more))]
    fn answer(
        &mut self,
        received: io::Result<(usize, SocketAddr)>,
        bytes: &[u8],
        into: &mut ArrayVec<u8, RECEIVED_MAX>,
    ) -> Result<Option<Endpoint>, ReceiveFault>
        requires count { IfOk received (λ r. r.0 ≤ length bytes.now) }
        requires few { length bytes.now ≤ RECEIVED_MAX }
        ensures told { came_in self.new.answers ≡ came_in self.old.answers
            ++ came_of result into.new.items ∷ [] }
        ensures brought { IsBrought (bytes.now, received) (came_of result into.new.items) }
        ensures socket { receives_of self.new ≡ receives_of self.old }
    {
        let taken = take(received, bytes, into);
        self.answers = self.answers.and(&ReceiveAnswer {
            from: Trace::new().and(&taken),
            bytes: Trace::new().and(into),
        });
        taken
    }
}

impl<'a, C: Clock> Alarmed for UdpInbound<'a, C> {
    type Alarm = SocketAlarm;
}

impl<'a, C: Clock> Inbound for UdpInbound<'a, C> {
    ghost use Rattle.std.specs.Prelude.{⊤};
    ghost use Rattle.swim_shell.specs.Inbounds.{failures_in, Took};
    ghost use Rattle.swim_net.specs.Udp.{BringsLast, receives_of};
    ghost use Rattle.swim_net.specs.Datagrams.{came_in};

    ghost tells = { ⊤ };

    ghost came = { λ i. came_in i.answers };

    ghost failures = { λ i. failures_in (came_in i.answers) };

    #[tactic(auto, using(crate::proofs::Answering::took_one))]
    fn receive(
        &mut self,
        into: &mut ArrayVec<u8, RECEIVED_MAX>,
    ) -> Result<Option<Endpoint>, ReceiveFault>
        ensures took { Took ⊤ (came_in self.old.answers) (came_in self.new.answers)
            (failures_in (came_in self.old.answers)) (failures_in (came_in self.new.answers))
            (came_of result into.new.items ∷ []) }

        // What it gives is what the socket answered last. A receive before it, which is not waited for, found nothing.
        ensures brought { BringsLast (receives_of self.old) (receives_of self.new)
            (came_of result into.new.items) }
    {
        // The system cuts a datagram that is longer than a member keeps.
        let mut bytes = [0u8; RECEIVED_MAX];
        match self.socket.receive(&mut bytes) {
            Err(error) if error.kind() == ErrorKind::WouldBlock => {
                self.waits.wait(self.clock, self.wait);
                let received = self.socket.receive(&mut bytes);
                self.answer(received, &bytes, into)
            }
            received => self.answer(received, &bytes, into),
        }
    }
}

/// Binds a socket for datagrams, and gives what receives from it, what sends through it, and what ends a wait of the
/// first. A receive waits as long as `wait` at most. An error is the system's: the address is taken or not this machine's,
/// or there are too many sockets, or no memory.
pub fn bind_datagrams<'a, R: Net, C: Clock + Log, A: ToSocketAddrs>(
    net: &R,
    clock: &'a C,
    alloc: Global,
    at: A,
    wait: Duration,
) -> io::Result<(UdpInbound<'a, C>, UdpLink<'a, C>, SocketAlarm)> {
    let socket = UdpSocket::bind(net, at)?;
    socket.set_nonblocking(true)?;
    let link = UdpLink::new(socket.try_clone()?, clock);
    let mut socket = mio::net::UdpSocket::from_std(socket);
    let (waits, alarm) = Waits::new(net, alloc)?;
    waits.watch(&mut socket, Interest::READABLE)?;
    let inbound = UdpInbound {
        socket: ReceivingSocket::new(socket),
        waits,
        clock,
        wait,
        answers: Trace::new(),
    };
    Ok((inbound, link, alarm))
}
