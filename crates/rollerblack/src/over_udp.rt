//! A member over UDP, in one call.

ghost use Rattle.std.specs.Prelude.{◌≡◌, ◌≤◌, [], IfErr, IfOk, OnOk};
ghost use Rattle.rollerblack.specs.OverUdp.{IsOfSystem, LivesOverUdp, RefusesStart};
ghost use Rattle.rollerblack.specs.declared.over_udp.StartFault.TheVariants as why;
ghost use Rattle.swim_member.specs.Checks.{AreSound};
ghost use Rattle.swim_node.specs.Lives.{BeginsAbove, IsLiving, life_of};
ghost use Rattle.swim_wire.specs.Numbers.{address_in, IsNoMembers};

use arrayvec::ArrayVec;
use log::Log;
use std::alloc::{AllocGlobal, Global};
use std::io;
use std::net::{Net, TcpListener, TcpStream};
use std::random::RandomSource;
use std::sync::Wait;
use std::thread::Threads;
use std::time::{Clock, Duration};
use swim_disk::Disk;
use swim_join::{Intervals, LIST_MAX};
use swim_member::{Settings, SettingsFault};
use swim_net::{ControlListener, SocketAlarm, Sockets, Waits, address_of, bind_datagrams, wait_of};
use swim_node::{Node, OpenFault};
use swim_serve::{DoorsAndChores, EndedMember, Joins, LifeSetup, NoChores, Outside, run_member};
use swim_wire::{Endpoint, is_no_members};

/// How many entries an era has at most, if nothing else is said.
const USUAL_LIMIT: u32 = 256;

/// How long a tick lasts in milliseconds, if nothing else is said.
const USUAL_TICK_MILLIS: u64 = 100;

/// To how many others a member introduces itself, if nothing else is said.
const USUAL_INTRODUCE: u32 = 64;

/// After how many ticks a member joins one that it draws, if nothing else is said.
const USUAL_REJOIN: u64 = 300;

/// What a member over UDP begins with.
#[derive(Drop)]
pub struct OverUdp {
    /// Its settings. Its datagrams come in at `settings.me`, which the others know it by.
    pub settings: Settings,
    /// How many entries an era has at most: 1 to `LIMIT_MAX`.
    pub limit: u32,
    /// How long a tick lasts, in milliseconds: 60,000 at most.
    pub tick_ms: u64,
    /// Whom it joins, in this order.
    pub join: ArrayVec<Endpoint, LIST_MAX>,
    /// After how many ticks it joins a member that it draws: 1,000,000 at most; 0 for never.
    pub rejoin: u64,
    /// To how many others it introduces itself at most, once somebody has answered it.
    pub introduce: u32,
}

impl OverUdp {
    /// A member with these settings that joins nobody yet: eras of 256 entries, ticks of 100 milliseconds, and a join of a drawn member
    /// each half minute.
    pub fn usual(settings: Settings) -> OverUdp
        ensures settings { result.settings ≡ settings }
        ensures tick { result.tick_ms ≡ USUAL_TICK_MILLIS }
        ensures rejoin { result.rejoin ≡ USUAL_REJOIN }
        ensures introduce { result.introduce ≡ USUAL_INTRODUCE }
        ensures limit { result.limit ≡ USUAL_LIMIT }
        ensures join { result.join.items ≡ [] }
    {
        OverUdp {
            settings,
            limit: USUAL_LIMIT,
            tick_ms: USUAL_TICK_MILLIS,
            join: ArrayVec::new(),
            rejoin: USUAL_REJOIN,
            introduce: USUAL_INTRODUCE,
        }
    }
}

/// Why a member over UDP did not start.
#[derive(Debug, Drop)]
pub enum StartFault {
    /// Its settings are refused.
    Settings(SettingsFault),
    /// No member is reached at `settings.me`: it is 0.0.0.0, 255.255.255.255 or an address of multicast.
    Address,
    /// The system refused the socket for datagrams at `settings.me`: the address is taken, or not this machine's.
    Datagrams(io::Error),
    /// The system refused to watch the control socket.
    Control(io::Error),
    /// The system gave no random numbers.
    Random(io::Error),
    /// The member was not opened on its state file.
    Open(OpenFault),
    /// There was no memory for its workers.
    Memory,
}

/// Binds the sockets of a member, and draws the key of its generators. Its control has these waits, which that alarm ends.
fn bind<'a, R, T>(
    rt: &R,
    logged: &'a T,
    waits: &'a Waits,
    connections: SocketAlarm,
    control: TcpListener,
    member: &OverUdp,
) -> Result<(Sockets<'a, T>, [u8; 32]), StartFault>
where
    R: Net + RandomSource + AllocGlobal,
    T: Clock + Log,
    ensures { IfErr result IsOfSystem }
{
    let wait = wait_of(member.tick_ms);
    let at = address_of(member.settings.me);
    let datagrams = match bind_datagrams(rt, logged, rt.alloc(), at, wait) {
        Ok(datagrams) => datagrams,
        Err(error) => return Err(StartFault::Datagrams(error)),
    };
    let sockets = match Sockets::new(
        datagrams,
        ControlListener::Tcp(control),
        logged,
        waits,
        connections,
        wait,
    ) {
        Ok(sockets) => sockets,
        Err(error) => return Err(StartFault::Control(error)),
    };
    let mut key = [0; 32];
    match rt.fill_bytes(&mut key) {
        Ok(()) => Ok((sockets, key)),
        Err(error) => Err(StartFault::Random(error)),
    }
}

/// Runs an open member over its sockets.
fn live<'a, D, T>(
    logged: &'a T,
    alloc: Global,
    node: Node<D>,
    member: OverUdp,
    sockets: Sockets<'a, T>,
    key: [u8; 32],
) -> Result<EndedMember<D>, (D, StartFault)>
where
    D: Disk + Send + Drop,
    T: Threads + Wait + Log + Clock + Send + Sync + Copy + Drop,
    requires sound { AreSound member.settings }
    requires tick { member.tick_ms ≤ 60000 }
    requires rejoin { member.rejoin ≤ 1000000 }
    requires entries { node.entries ≡ [] }
    ensures lived { (opened : D)
        → (D.keeps_model → BeginsAbove D.state node.owner opened node.first)
        → (D.keeps_model → IsLiving D.state node.owner
        (life_of member.settings member.limit opened [] node))
        → IfOk result (λ ended. LivesOverUdp D.keeps_model D.state member.settings member.limit
        member.join.items opened ended.how ended.node) }
    ensures left { IfErr result (λ refused. (refused.0 ≡ node.disk)
        × (refused.1 ≡ why.Memory)) }
{
    let OverUdp {
        settings,
        tick_ms,
        join,
        rejoin,
        introduce,
        ..
    } = member;
    let setup = LifeSetup {
        settings,
        number: node.first(),
        tick: Duration::from_millis(tick_ms),
        joins: Joins {
            peers: join,
            intervals: Intervals::of(&settings, introduce, rejoin, tick_ms),
        },
        key,
        expelled_ends: None,
    };
    let Sockets {
        inbound,
        link,
        doors,
        alarms,
    } = sockets;
    let doors = DoorsAndChores::new(doors, NoChores);
    match Outside::new(alloc, *logged, setup, inbound, link, doors) {
        Ok(outside) => Ok(run_member(logged, alloc, node, outside, &alarms)),
        Err(_) => Err((node.into_disk(), StartFault::Memory)),
    }
}

/// Runs a member over UDP on its state file, in threads of its own, until a control connection at this listener says `stop` or a fault
/// ends it. It begins with a number above all that it may have sent before. What it answers at the control
/// socket, and what it logs, is what `swim run` does. An error is why it did not start; a start without sockets spends no number.
/// The disk is left in any case: in the node, or beside the error.
pub fn run_over_udp<D, R, T>(
    rt: &R,
    logged: &T,
    disk: D,
    control: TcpListener,
    member: OverUdp,
) -> Result<EndedMember<D>, (D, StartFault)>
where
    D: Disk + Send + Drop,
    R: Net<Listener = TcpListener, Stream = TcpStream> + RandomSource + AllocGlobal,
    T: Threads + Wait + Log + Clock + Send + Sync + Copy + Drop,
    requires tick { member.tick_ms ≤ 60000 }
    requires rejoin { member.rejoin ≤ 1000000 }
    ensures lived { IfOk result (λ ended. LivesOverUdp D.keeps_model D.state member.settings
        member.limit member.join.items disk ended.how ended.node) }
    ensures address { OnOk result (¬ IsNoMembers (address_in member.settings.me)) }
    ensures refused { IfErr result (λ refused. RefusesStart D.keeps_model D.state member.settings
        member.limit disk refused.0 refused.1) }
{
    let settings = member.settings;
    if let Err(fault) = settings.check() {
        return Err((disk, StartFault::Settings(fault)));
    }
    if is_no_members(settings.me.address()) {
        return Err((disk, StartFault::Address));
    }
    let alloc = rt.alloc();
    let (waits, connections) = match Waits::new(rt, alloc) {
        Ok(made) => made,
        Err(error) => return Err((disk, StartFault::Control(error))),
    };
    let (sockets, key) = match bind(rt, logged, &waits, connections, control, &member) {
        Ok(made) => made,
        Err(why) => return Err((disk, why)),
    };
    match Node::open(alloc, disk, settings, member.limit) {
        Ok(node) => live(logged, alloc, node, member, sockets, key),
        Err((disk, why)) => Err((disk, StartFault::Open(why))),
    }
}
