//! A member of a SWIM group that no restart harms, for programs that embed one: every name that such a program needs, from the
//! crates that have them. Their contracts say what is promised; docs/reference/NODE.md has the rules of a call, of eras and of lives.
//!
//! The code below stands in `crates/swim_thread_tests/src/embedded`, where it is compiled and run, but for the last program.
//!
//! # Driven by hand
//!
//! A member is a value. It is on a state file, takes one event a call, and hands what it sends to a link. Here the file is on a
//! disk in memory, the link keeps what it takes, and another member suspects this one. So it takes a number that is in the file
//! before it is sent, and the next life, as after a crash, begins above that.
//!
//! ```text
//! /// A ping by which a member tells another one that it is suspected with this number; none if there is no such number.
//! fn suspicion(from: Endpoint, to: Endpoint, number: u64) -> Option<Event> {
//!     let mut updates = ArrayVec::new();
//!     updates.push(Update {
//!         kind: UpdateKind::Suspect,
//!         who: to,
//!         number,
//!     });
//!     let ping = Datagram {
//!         version: Rules::One,
//!         kind: Kind::Ping,
//!         group: 7,
//!         seq: 1,
//!         sender: from,
//!         subject: Cursor::at(to),
//!         updates,
//!     };
//!     if !ping.is_encodable() {
//!         return None;
//!     }
//!     let mut bytes: ArrayVec<u8, RECEIVED_MAX> = ArrayVec::new();
//!     let _ = bytes.try_extend_from_slice(&encode(&ping));
//!     Some(Event::Datagram { from, bytes })
//! }
//!
//! /// The next call of the one caller.
//! fn call<L: Link>(
//!     node: &mut Node<MemDisk>,
//!     link: &mut L,
//!     event: Event,
//! ) -> Result<Reply, ApplyFault> {
//!     let tag = node.next_tag(0);
//!     node.apply(link, tag, event)
//! }
//!
//! /// What is left of a life.
//! #[derive(Drop)]
//! struct Lived {
//!     disk: MemDisk,
//!     first: u64,
//!     last: u64,
//! }
//!
//! /// A life of the member: it ticks, another member suspects it, and it refutes that by a number that is in its state file.
//! fn live(alloc: Global, disk: MemDisk, me: Endpoint, peer: Endpoint) -> Result<Lived, &'static str> {
//!     let opened = Node::open(alloc, disk, Settings::usual(7, me), LIMIT);
//!     let mut node = opened.map_err(|_| "an opening")?;
//!     let mut link = MemoryLink::new(alloc, 1);
//!     let tick = Event::Tick {
//!         deal: Deal::from_first(0),
//!     };
//!     call(&mut node, &mut link, tick).map_err(|_| "a tick")?;
//!     let suspected = suspicion(peer, me, node.first()).ok_or("a number")?;
//!     let reply = call(&mut node, &mut link, suspected).map_err(|_| "a datagram")?;
//!     Ok(Lived {
//!         first: node.first(),
//!         last: reply.status.number,
//!         disk: node.into_disk(),
//!     })
//! }
//!
//! /// Each life begins above the numbers of the one before.
//! fn lives_by_hand(rt: HostRuntime) -> Result<(), Fail> {
//!     let alloc = rt.alloc();
//!     let me = Endpoint::new(0x0a00_0001, 7000).ok_or("an endpoint")?;
//!     let peer = Endpoint::new(0x0a00_0002, 7000).ok_or("an endpoint")?;
//!     let mut disk = MemDisk::new(alloc, 1, Vec::new(alloc));
//!     init(&mut disk, Owner { group: 7, me }, 0).map_err(|_| "a state file")?;
//!     let one = live(alloc, disk, me, peer)?;
//!     assert_eq!(&rt; (one.first, one.last), (1, 2));
//!     let two = live(alloc, one.disk, me, peer)?;
//!     assert_eq!(&rt; (two.first, two.last), (3, 4));
//!     Ok(())
//! }
//! ```
//!
//! A call that is refused as `EraFull` wants `Node::rebase` first, which begins the next era: a journal grows no further than its
//! limit. Threads of one's own call a member by `Shared`; `two-callers` of `crates/swim_under_lock` is such a program.
//!
//! # Over UDP
//!
//! `run_over_udp` gives a member workers on threads of their own: one takes datagrams, one ticks, one sends, and one answers control
//! lines and joins other members. It ends by the control line `stop` or by a fault. The state file is one that `swim init` or `init` has made; `open_locked` keeps other processes from it.
//!
//! ```text
//! /// Runs a member of group 7 on its state file. An error is what was refused.
//! fn run<T: Threads + Wait + Log + Clock + Send + Sync + Copy + Drop>(
//!     rt: &HostRuntime,
//!     logged: &T,
//!     file: &str,
//!     me: Endpoint,
//!     control: TcpListener,
//! ) -> Result<(), &'static str> {
//!     let file = open_locked(rt, file, false).map_err(|_| "a state file")?;
//!     let disk = FileDisk::load(rt.alloc(), file.into_file()).map_err(|_| "a state file")?;
//!     // by the rules that `swim up` gives a group
//!     let settings = Settings {
//!         rules: 2,
//!         ..Settings::usual(7, me)
//!     };
//!     let member = OverUdp::usual(settings);
//!     let ended = run_over_udp(rt, logged, disk, control, member).map_err(|_| "a start")?;
//!     ended.how.map_err(|_| "a worker")?;
//!     Ok(())
//! }
//! ```
//!
//! A program that runs one:
//!
//! ```text
//! /// Runs the member 127.0.0.1:7000. An error is what was refused.
//! fn start<T: Threads + Wait + Log + Clock + Send + Sync + Copy + Drop>(
//!     rt: &HostRuntime,
//!     logged: &T,
//! ) -> Result<(), &'static str> {
//!     let me = Endpoint::new(0x7f00_0001, 7000).ok_or("an endpoint")?;
//!     let control = TcpListener::bind(rt, "127.0.0.1:7001").map_err(|_| "a control socket")?;
//!     run(rt, logged, "member.state", me, control)
//! }
//!
//! fn main(rt: HostRuntime) -> ExitCode {
//!     let logged = Logged::new(rt, LevelFilter::Warn, Console(rt));
//!     match start(&rt, &logged) {
//!         Ok(()) => ExitCode::SUCCESS,
//!         Err(refused) => {
//!             let _ = eprintln!(rt; "refused: {refused}");
//!             ExitCode::FAILURE
//!         }
//!     }
//! }
//! ```
//!
//! Over other sockets a program calls `run_member` by an `Outside` of its own: an `Inbound` that is `Alarmed` gives datagrams, a `Link`
//! takes them, `Doors` give control connections, and `Chores` are what else has to be seen to. A check asks that the disk, the inbound and the link
//! may go to another thread, and finds by itself that a `FileDisk` and these sockets may.
//!
//! A program names this crate in its line of `crates.txt`, and no other for what stands here.
#![tactic(auto)]

mod over_udp;

// A member over UDP, in one call.
pub use over_udp::{OverUdp, StartFault, run_over_udp};

// Whom a datagram names, and what it says of them.
pub use swim_wire::{
    Cursor, Datagram, Endpoint, Kind, NUMBER_MAX, Rules, Update, UpdateKind, WireFault, decode,
    encode,
};

// What happens to a member, and what it answers.
pub use swim_member::{Deal, Event, Note, Phase, RECEIVED_MAX, Settings, SettingsFault};

// Where its state file is, and how it is made.
pub use swim_disk::{Choice, Disk, DiskFault, FileDisk, MOST_BYTES, MemDisk};
pub use swim_state::{InitFault, Owner, PEERS_MAX, Peers, RecoverFault, SaveFault, init};

// The member on its state file, one call at a time.
pub use swim_node::{
    ApplyFault, Entry, Era, LIMIT_MAX, Link, LinkFault, MemoryLink, Node, OpenFault, Outcome,
    Reply, Save, Status, Tag, Taken,
};

// The member behind a lock, for threads of one's own.
pub use swim_shared::{CallFault, Closed, ClosedSent, Name, Outbox, Parts, Pass, Shared, Watch};

// The workers of a member that runs, and what they ask of their surroundings.
pub use swim_join::{Intervals, LIST_MAX};
pub use swim_serve::{
    Chores, DoorsAndChores, EndedMember, Fault, Joins, LifeSetup, MemberEnd, NoChores, Outside,
    run_member,
};
pub use swim_shell::{
    Alarm, Alarmed, COUNTERS, Caller, ControlEnd, Counter, Counters, Doors, Inbound, Observer,
    ReceiveFault, Refusal, WorkerEnd,
};

// The sockets that it usually has.
pub use swim_net::{
    ControlDoors, ControlListener, SocketAlarm, Sockets, UdpInbound, UdpLink, Waits, address_of,
    bind_datagrams, endpoint_of,
};

// A state file that no other process has.
pub use swim_start::{LockedFile, open_locked};

// What some of these are made of.
pub use arrayvec::ArrayVec;
