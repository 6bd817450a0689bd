//! One era of a running member: its workers over one shared node, from its beginning to its end.

ghost use Rattle.std.specs.Prelude.{◌≡◌, ◌∷◌, [], IfErr, IfOk, IfSome};
ghost use Rattle.swim_handle.specs.Views.{new_caller};
ghost use Rattle.swim_node.specs.History.{IsLegal};
ghost use Rattle.swim_shared.specs.Moments.{CoversEra};
ghost use Rattle.swim_shared.specs.Passes.{new_pass, new_passes};
ghost use Rattle.swim_shell.specs.Calls.{NewCalls};
ghost use Rattle.swim_serve.specs.Desks.{Tended};
ghost use Rattle.swim_serve.specs.Eras.{ByPass, NamesParts, SendsBy, Serves, StaysIn, owed_first};
ghost use Rattle.swim_serve.specs.Works.{Received, Ticked};

use crate::attending::{Attended, attend};
use crate::chores::Chores;
use crate::desk::Desk;
use crate::era_counts::EraCounts;
use crate::job::{Job, Left, Manned};
use crate::outgoing::RingLink;
use crate::outside::{CallLogs, Outside};
use crate::shutdown::Shutdown;
use crate::tick_timer::TickTimer;
use log::Log;
use std::alloc::Global;
use std::sync::Wait;
use std::thread::Threads;
use std::time::Clock;
use swim_disk::Disk;
use swim_handle::{CallerParts, Crew, Handle, Notifying, Pace, SharedCounters, StatusCaller};
use swim_member::Event;
use swim_node::{Link, Node};
use swim_shared::{Name, Outbox, Parts, Pass, Sender as Ring, Shared, Watch};
use swim_shell::{Alarmed, Caller, ControlEnd, Doors, Inbound, Refusal, SendWorker, WorkerEnd};

/// The workers of an era, each with a pass of its own.
pub const CALLERS: u8 = 4;

/// One watch, for control and the joiner.
pub const WATCHES: u8 = 1;

/// A caller of a shared member whose outbox is a ring.
type Share<'x, N, D, R> = Handle<'x, N, D, Outbox, R, R>;

/// One that is shown the status.
type ShownCaller<'x, N, D, R> = StatusCaller<'x, N, D, Outbox, R, R>;

/// What the workers of a shared member call by.
type Callers<'x, N, D, R> = Crew<
    Share<'x, N, D, R>,
    Share<'x, N, D, R>,
    Share<'x, N, D, R>,
    ShownCaller<'x, N, D, R>,
>;

/// The passes of an era's workers.
type Passes<N> = Crew<Pass<N>, Pass<N>, Pass<N>, Pass<N>>;

/// How the workers of an era ended themselves; none for one that its gate stopped.
pub type EraEnds = Crew<Option<WorkerEnd>, Option<Refusal>, Option<Refusal>, Option<ControlEnd>>;

/// What comes back of the workers of a shared member, and of control.
type Came<N, I, M, R, O> = Attended<
    CallerParts<N>,
    I,
    RingLink<N, M>,
    Left<Desk<R, O>, CallerParts<N>, ControlEnd>,
>;

/// The new passes, out of their list; none where it has too few.
fn passes_of<N: Name>(list: &mut Vec<Pass<N>>) -> Option<Passes<N>>
    requires { list.old.items ≡ new_passes CALLERS }
    ensures passes { IfSome result (λ passes. passes ≡ record {
      receiver = new_pass 0;
      ticker = new_pass 1;
      sender = new_pass 2;
      control = new_pass 3;
    }) }
    ensures all { IfSome result (λ _. list.new.items ≡ []) }
{
    let control = list.pop()?;
    let sender = list.pop()?;
    let ticker = list.pop()?;
    let receiver = list.pop()?;
    Some(Crew {
        receiver,
        ticker,
        sender,
        control,
    })
}

/// The passes in this list, which is empty; none where it cannot take them.
fn list_of<N: Name>(passes: Passes<N>, mut room: Vec<Pass<N>>) -> Option<Vec<Pass<N>>>
    requires { room.items ≡ [] }
    ensures { IfSome result (λ all. all.items
        ≡ passes.receiver ∷ passes.ticker ∷ passes.sender ∷ passes.control ∷ []) }
{
    let Crew {
        receiver,
        ticker,
        sender,
        control,
    } = passes;
    room.push(receiver).ok()?;
    room.push(ticker).ok()?;
    room.push(sender).ok()?;
    room.push(control).ok()?;
    Some(room)
}

/// What the workers of a shared node hold.
#[derive(Drop)]
struct Held<N: Name> {
    /// One for each worker; an empty list once they have them.
    passes: Vec<Pass<N>>,
    /// One for control.
    watches: Vec<Watch<N>>,
    /// What empties the outbox.
    ring: Ring,
}

/// Gives each worker what it calls by; none where there are too few passes or watches.
fn callers_of<'x, N: Name, D: Disk, R: Wait + Log + Clock + Drop>(
    rt: &'x R,
    shared: &'x Shared<N, D, Outbox, R>,
    pace: &'x Pace,
    held: &mut Held<N>,
    logs: CallLogs,
    board: &'x SharedCounters,
) -> Option<Callers<'x, N, D, R>>
    requires { held.old.passes.items ≡ new_passes CALLERS }
    ensures receiver { IfSome result (λ c. c.receiver ≡ record {
      known = new_caller 0;
      log = logs.receiver;
    }) }
    ensures ticker { IfSome result (λ c. c.ticker ≡ record {
      known = new_caller 1;
      log = logs.ticker;
    }) }
    ensures sender { IfSome result (λ c. c.sender ≡ record {
      known = new_caller 2;
      log = logs.sender;
    }) }
    ensures control { IfSome result (λ c. c.control.handle ≡ record {
      known = new_caller 3;
      log = logs.control;
    }) }
    ensures all { IfSome result (λ _. (held.new.passes.items ≡ [])
        × (held.new.ring ≡ held.old.ring)) }
{
    let passes = passes_of(&mut held.passes)?;
    let watch = held.watches.pop()?;
    let rows = board.rows();
    let control = Handle::new(
        rt,
        shared,
        pace,
        passes.control,
        &rows.control,
        logs.control,
    );
    Some(Crew {
        receiver: Handle::new(
            rt,
            shared,
            pace,
            passes.receiver,
            &rows.receiver,
            logs.receiver,
        ),
        ticker: Handle::new(rt, shared, pace, passes.ticker, &rows.ticker, logs.ticker),
        sender: Handle::new(rt, shared, pace, passes.sender, &rows.sender, logs.sender),
        control: StatusCaller::new(control, watch, board),
    })
}

/// Tells what the era before lost and told in no call.
fn tell<C: Caller>(caller: &mut C, count: u32) -> Result<(), Refusal>
    ensures { IfOk result (λ _. NewCalls (C.known caller.old) (C.known caller.new)
        (owed_first count)) }
{
    if count > 0 {
        caller.call(Event::SendFailed { count })?;
    }
    Ok(())
}

/// What comes back of an era's workers.
#[derive(Drop)]
struct Returned<
    N: Name,
    I: Inbound + Drop,
    M: Link + Drop,
    R: Log + Clock + Drop,
    O: Doors + Chores + Drop,
> {
    passes: Passes<N>,
    /// An empty list, in which the passes were.
    room: Vec<Pass<N>>,
    ring: Ring,
    outside: Outside<I, M, R, O>,
    ends: EraEnds,
    /// Whether the system had a thread for each worker.
    had_threads: bool,
}

/// Takes apart what came back of each worker.
fn take_apart<
    N: Name,
    R: Log + Clock + Drop,
    I: Inbound + Drop,
    M: Link + Drop,
    O: Doors + Chores + Drop,
>(
    back: Came<N, I, M, R, O>,
    room: Vec<Pass<N>>,
    eras: EraCounts,
    timer: TickTimer,
    expelled_ends: Option<u64>,
) -> Returned<N, I, M, R, O>
    ensures receiver { (result.outside.receiver ≡ back.crew.receiver.worker)
        × (result.passes.receiver ≡ back.crew.receiver.parts.pass)
        × (result.ends.receiver ≡ back.crew.receiver.end) }
    ensures ticker { (result.outside.ticker ≡ back.crew.ticker.worker)
        × (result.passes.ticker ≡ back.crew.ticker.parts.pass)
        × (result.ends.ticker ≡ back.crew.ticker.end) }
    ensures sender { (result.outside.link ≡ back.crew.sender.worker.outgoing.link)
        × (result.passes.sender ≡ back.crew.sender.parts.pass)
        × (result.ends.sender ≡ back.crew.sender.end) }
    ensures control { (result.outside.desk ≡ back.crew.control.worker)
        × (result.passes.control ≡ back.crew.control.parts.pass)
        × (result.ends.control ≡ back.crew.control.end) }
    ensures ring { (result.ring ≡ back.crew.sender.worker.outgoing.ring)
        × (N.link ≡ result.ring.ring) }
    ensures rest { (result.room ≡ room) × (result.had_threads ≡ back.had_threads)
        × (result.outside.eras ≡ eras) }
{
    let Crew {
        receiver,
        ticker,
        sender,
        control,
    } = back.crew;
    let (ring, link) = sender.worker.outgoing.into_parts();
    let outside = Outside {
        receiver: receiver.worker,
        ticker: ticker.worker,
        desk: control.worker,
        link,
        logs: Crew {
            receiver: receiver.parts.log,
            ticker: ticker.parts.log,
            sender: sender.parts.log,
            control: control.parts.log,
        },
        eras,
        owed: 0,
        timer,
        expelled_ends,
    };
    Returned {
        passes: Crew {
            receiver: receiver.parts.pass,
            ticker: ticker.parts.pass,
            sender: sender.parts.pass,
            control: control.parts.pass,
        },
        room,
        ring,
        outside,
        ends: Crew {
            receiver: receiver.end,
            ticker: ticker.end,
            sender: sender.end,
            control: control.end,
        },
        had_threads: back.had_threads,
    }
}

/// Runs the workers of a shared member until one of them ends. An error is that there are too few passes, or that the call for
/// what is owed was refused so.
fn work<
    'x,
    N: Name + Send + Sync,
    D: Disk + Send,
    R: Threads + Wait + Log + Clock + Send + Sync + Copy + Drop,
    I: Alarmed<Alarm: Sync> + Send + Drop,
    M: Link + Send + Drop,
    O: Doors + Chores + Drop,
>(
    rt: &'x R,
    shared: &'x Shared<N, D, Outbox, R>,
    mut held: Held<N>,
    outside: Outside<I, M, R, O>,
    board: &'x SharedCounters,
    shutdown: &'x Shutdown<'x, I::Alarm>,
) -> Result<Returned<N, I, M, R, O>, Refusal>
    requires passes { held.passes.items ≡ new_passes CALLERS }
    requires ring { N.link ≡ held.ring.ring }
    ensures receiver { IfOk result (λ back. ByPass (Received I.tells N.base.limit) N.base
        outside.receiver (new_caller 0) back.outside.receiver back.passes.receiver
        back.ends.receiver) }
    ensures ticker { IfOk result (λ back. ByPass (Ticked N.base.limit) N.base outside.ticker
        (new_caller 1) back.outside.ticker back.passes.ticker back.ends.ticker) }
    ensures sender { IfOk result (λ back. SendsBy M.tells N.base outside.owed held.ring
        outside.link back.ring back.outside.link back.passes.sender back.ends.sender) }
    ensures control { IfOk result (λ back. ByPass (Tended N.base.limit) N.base outside.desk
        (new_caller 3) back.outside.desk back.passes.control back.ends.control) }
    ensures same { IfOk result (λ back. N.link ≡ back.ring.ring) }
    ensures room { IfOk result (λ back. back.room.items ≡ []) }
    ensures eras { IfOk result (λ back. back.outside.eras ≡ outside.eras) }
{
    let Outside {
        receiver,
        ticker,
        desk,
        link,
        logs,
        eras,
        owed,
        mut timer,
        expelled_ends,
    } = outside;
    let pace = shutdown.pace();
    let Some(mut callers) = callers_of(rt, shared, pace, &mut held, logs, board) else {
        return Err(Refusal::Memory);
    };
    tell(&mut callers.sender, owed)?;
    let workers = Crew {
        receiver: Manned {
            worker: receiver,
            caller: callers.receiver,
        },
        ticker: Manned {
            worker: ticker,
            caller: callers.ticker,
        },
        sender: Manned {
            worker: SendWorker {
                outgoing: RingLink::new(held.ring, link),
            },
            caller: callers.sender,
        },
        control: Job {
            rt,
            worker: desk,
            caller: callers.control,
            gate: Notifying::new(pace),
            shutdown,
        },
    };
    let back = attend(rt, shutdown, &mut timer, workers);
    Ok(take_apart(back, held.passes, eras, timer, expelled_ends))
}

/// What is left of an era.
#[derive(Drop)]
pub struct EraEnd<
    D: Disk,
    I: Inbound + Drop,
    M: Link + Drop,
    R: Log + Clock + Drop,
    O: Doors + Chores + Drop,
> {
    /// The node with the era's journal.
    pub node: Node<D>,
    /// What the next era works with.
    pub outside: Outside<I, M, R, O>,
    /// How the workers ended.
    pub ends: EraEnds,
    /// Whether the system had a thread for each worker. If not, the era ended before any turn.
    pub had_threads: bool,
}

/// Why there was no whole era.
#[derive(Clone, Copy, Debug, PartialEq, Eq)]
pub enum EraFault {
    /// There was no memory, or the call was refused that was to tell what the era before owed.
    Refused(Refusal),
    /// The journal does not have the calls of a worker as that one knows them, so it cannot be told who did what.
    Odd,
}

/// What is left of an era that was cut short.
#[derive(Drop)]
pub struct CutEra<D: Disk, F: Drop> {
    /// The node with all calls of the era so far.
    pub node: Node<D>,
    /// Why it was cut short.
    pub why: F,
}

/// A node that is shared, with what its workers hold.
type Sharing<N, D, R> = (Shared<N, D, Outbox, R>, Held<N>);

/// Shares a node with the workers of an era. Where there is no memory the parts come back as they are.
fn share<N: Name, D: Disk + Drop, R: Wait + Copy + Drop>(
    rt: &R,
    alloc: Global,
    parts: Parts<D, Outbox>,
    ring: Ring,
) -> Result<Sharing<N, D, R>, Parts<D, Outbox>>
    requires { NamesParts D.state N.book N.base N.disk N.clock N.owner N.first N.link N.start
        parts ring }
    ensures passes { IfOk result (λ made. made.1.passes.items ≡ new_passes CALLERS) }
    ensures ring { IfOk result (λ made. made.1.ring ≡ ring) }
    ensures parts { IfErr result (λ left. (left ≡ parts) × (left.node.entries ≡ [])) }
{
    let (shared, passes, watches) = Shared::<N, D, Outbox, R>::new(alloc, *rt, parts)?;
    let held = Held {
        passes,
        watches,
        ring,
    };
    Ok((shared, held))
}

/// Ends an era whose passes are lost.
fn cut_short<N: Name, D: Disk, R: Wait + Drop>(
    alloc: Global,
    shared: Shared<N, D, Outbox, R>,
    why: Refusal,
) -> CutEra<D, EraFault>
    ensures legal { IsLegal N.base result.node.entries }
    ensures base { result.node.base ≡ N.base }
    ensures disk { (D.state result.node.disk).name ≡ N.disk }
    ensures owner { result.node.owner ≡ N.owner }
    ensures first { result.node.first ≡ N.first }
    ensures covers { D.keeps_model
        → CoversEra (D.state result.node.disk) N.owner N.base N.clock result.node.entries }
{
    let closed = shared.close(Vec::new(alloc), Vec::new(alloc));
    CutEra {
        node: closed.node,
        why: EraFault::Refused(why),
    }
}

/// One era of a shared node, from its beginning to its end: its workers, which one of these alarms wakes where they wait at
/// sockets. An error is why there was no whole era, with the node: where the journal does not have the calls of each worker, it is
/// refused.
pub fn run_era<
    N: Name + Send + Sync,
    D: Disk + Send + Drop,
    R: Threads + Wait + Log + Clock + Send + Sync + Copy + Drop,
    I: Alarmed<Alarm: Sync> + Send + Drop,
    M: Link + Send + Drop,
    O: Doors + Chores + Drop,
>(
    rt: &R,
    alloc: Global,
    parts: Parts<D, Outbox>,
    ring: Ring,
    outside: Outside<I, M, R, O>,
    alarms: &[I::Alarm],
) -> Result<EraEnd<D, I, M, R, O>, CutEra<D, EraFault>>
    requires { NamesParts D.state N.book N.base N.disk N.clock N.owner N.first N.link N.start
        parts ring }
    ensures node { IfOk result (λ end. StaysIn D.keeps_model D.state parts.node end.node) }
    ensures cut { IfErr result (λ cut. StaysIn D.keeps_model D.state parts.node cut.node) }
    ensures serves { IfOk result (λ end. Serves I.tells M.tells N.base.limit ring outside
        end.outside end.ends end.node.entries) }
    ensures eras { IfOk result (λ end. end.outside.eras ≡ outside.eras) }
{
    let (shared, held) = match share::<N, D, R>(rt, alloc, parts, ring) {
        Ok(made) => made,
        Err(parts) => {
            let (node, _) = parts.into_inner();
            node.numbers_are_covered();
            let why = EraFault::Refused(Refusal::Memory);
            return Err(CutEra { node, why });
        }
    };
    let pace = Pace::new();
    let shutdown = Shutdown::new(&pace, alarms);
    let desk = &outside.desk;
    let board = SharedCounters::new(
        outside.eras.counts(),
        &outside.logs,
        desk.identity(),
        desk.listed(),
    );
    let back = match work(rt, &shared, held, outside, &board, &shutdown) {
        Ok(back) => back,
        Err(why) => return Err(cut_short(alloc, shared, why)),
    };
    let Returned {
        passes,
        room,
        ring,
        mut outside,
        ends,
        had_threads,
    } = back;
    let Some(passes) = list_of(passes, room) else {
        return Err(cut_short(alloc, shared, Refusal::Memory));
    };
    let closed = shared.close_sent(passes, Vec::new(alloc), ring, &mut outside.link);
    let node = closed.node;
    if closed.odd != 0 {
        let why = EraFault::Odd;
        return Err(CutEra { node, why });
    }
    outside.owed = closed.owed;
    Ok(EraEnd {
        node,
        outside,
        ends,
        had_threads,
    })
}
