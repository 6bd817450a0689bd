//! The workers of one era, whoever they call by.

ghost use Rattle.swim_serve.specs.Works.{LeftBy, Received, Sent, Ticked};

use crate::job::{Job, Left, Manned};
use crate::shutdown::Shutdown;
use crate::threads::{Back, Work, serve};
use crate::tick_timer::{Pacing, TickTimer};
use log::Log;
use std::sync::Wait;
use std::thread::Threads;
use std::time::Clock;
use swim_handle::{Crew, IntoParts, Notifying, Resting};
use swim_shell::{Alarm, Inbound, Outgoing, Receiver, Refusal, SendWorker, Ticker, WorkerEnd};

/// The workers of an era, each with its caller, and control.
pub type Workers<C, I, O, J> = Crew<
    Manned<C, Receiver<I>>,
    Manned<C, Ticker>,
    Manned<C, SendWorker<O>>,
    J,
>;

/// What comes back of the workers of an era, with these parts of their callers, and of control.
pub type Attended<P, I, O, E> = Back<
    Left<Receiver<I>, P, WorkerEnd>,
    Left<Ticker, P, Refusal>,
    Left<SendWorker<O>, P, Refusal>,
    E,
>;

/// Runs the workers, each with its caller and its gate, beside control, until one of them ends.
#[tactic(auto, using(crate::proofs::Working::left_seen))]
pub fn attend<
    'x,
    T: Threads + Wait + Log + Clock + Sync,
    A: Alarm + Sync,
    C: IntoParts<Parts: Send + Drop> + Send + Drop,
    I: Inbound + Send + Drop,
    O: Outgoing + Send + Drop,
    J: Work<Done: Drop> + Drop,
>(
    rt: &'x T,
    shutdown: &'x Shutdown<'x, A>,
    timer: &mut TickTimer,
    workers: Workers<C, I, O, J>,
) -> Attended<C::Parts, I, O, J::Done>
    ensures receiver { LeftBy (Received I.tells C.limit) C.parted workers.receiver.worker
        (C.known workers.receiver.caller) result.crew.receiver.worker
        result.crew.receiver.parts result.crew.receiver.end }
    ensures ticker { LeftBy (Ticked C.limit) C.parted workers.ticker.worker
        (C.known workers.ticker.caller) result.crew.ticker.worker
        result.crew.ticker.parts result.crew.ticker.end }
    ensures sender { LeftBy (Sent O.tells C.limit) C.parted
        (O.handed workers.sender.worker.outgoing) (C.known workers.sender.caller)
        (O.handed result.crew.sender.worker.outgoing) result.crew.sender.parts
        result.crew.sender.end }
    ensures control { J.does workers.control result.crew.control }
{
    let pace = shutdown.pace();
    let Crew {
        receiver,
        ticker,
        sender,
        control,
    } = workers;
    let crew = Crew {
        receiver: Job {
            rt,
            worker: receiver.worker,
            caller: receiver.caller,
            gate: Notifying::new(pace),
            shutdown,
        },
        ticker: Job {
            rt,
            worker: ticker.worker,
            caller: ticker.caller,
            gate: Pacing::new(rt, pace, timer),
            shutdown,
        },
        sender: Job {
            rt,
            worker: sender.worker,
            caller: sender.caller,
            gate: Resting::new(rt, pace),
            shutdown,
        },
        control,
    };
    serve(rt, shutdown, crew)
}
