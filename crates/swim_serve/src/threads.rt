//! All workers at once.

ghost use Rattle.std.specs.Prelude.{◌≡◌, IfNone, IfSome, IsSome, IsSomeAnd};

use crate::shutdown::Shutdown;
use std::snapshot::Snapshot;
use std::sync::Wait;
use std::thread::{self, Promise, PromisedHandle, Scope, Threads};
use swim_handle::Crew;
use swim_shell::Alarm;

/// What is done from a beginning to an end.
pub trait Work {
    /// What comes back from it.
    type Done;

    /// What it has done if this came back.
    ghost does: { Self → Self.Done → Type 0 };

    /// Does it.
    fn work(self) -> Self::Done
        ensures { does self result };
}

/// The promise that a thread did the work that it was given.
#[derive(Drop)]
struct Does<K: Work> {
    work: Snapshot<K>,
}

impl<K: Work> Promise<K::Done> for Does<K> {
    ghost kept_by = { λ promise done. K.does promise.work.value done };
}

/// What came back of the workers of an era.
#[derive(Drop)]
pub struct Back<R: Drop, T: Drop, S: Drop, C: Drop> {
    /// What came back of each.
    pub crew: Crew<R, T, S, C>,
    /// Whether the system had a thread for each that was to get one.
    pub had_threads: bool,
}

/// A thread that does some work.
type Thread<K> = PromisedHandle<<K as Work>::Done, Does<K>>;

/// Starts some work in a thread of its own. If the system has none, all workers are to end, and the work is done at once, which stops
/// before its first turn: so what it works with comes back, to stand here.
fn start<'s, X, K: Work<Done: Send + Drop + 's> + Send + Drop + 's, M: Alarm>(
    scope: &Scope<'s, X>,
    shutdown: &Shutdown<M>,
    spare: &mut Option<K::Done>,
    work: K,
) -> Option<Thread<K>>
    ensures thread { IfSome result (λ thread. thread.promise.work.value ≡ work) }
    ensures done { IfNone result (IsSomeAnd spare.new (K.does work)) }
{
    let promise = Does {
        work: Snapshot::of(&work),
    };
    match scope.spawn_with(promise, move || work.work()) {
        Ok(thread) => Some(thread),
        Err(refused) => {
            shutdown.end();
            *spare = Some((refused.value)());
            None
        }
    }
}

/// What comes of some work, once its thread has ended, if it got one; else what stands here.
fn done_of<T: Threads, K: Work<Done: Send + Drop> + Drop>(
    rt: &T,
    thread: Option<Thread<K>>,
    spare: &mut Option<K::Done>,
) -> K::Done
    requires { IfNone thread (IsSome spare.old) }
    ensures { (work : K) → IfSome thread (λ thread. thread.promise.work.value ≡ work)
        → IfNone thread (IsSomeAnd spare.old (K.does work)) → K.does work result }
{
    match thread {
        Some(thread) => thread.join(rt),
        None => spare.take().unwrap(),
    }
}

/// Runs a crew until one of its workers has ended and the others have stopped: three in threads of their own, and control in the
/// caller's. Each ends all by this `shutdown`.
pub fn serve<
    T: Threads + Wait + Sync,
    M: Alarm,
    A: Work<Done: Send + Drop> + Send + Drop,
    B: Work<Done: Send + Drop> + Send + Drop,
    S: Work<Done: Send + Drop> + Send + Drop,
    C: Work<Done: Drop> + Drop,
>(
    rt: &T,
    shutdown: &Shutdown<M>,
    crew: Crew<A, B, S, C>,
) -> Back<A::Done, B::Done, S::Done, C::Done>
    ensures receiver { A.does crew.receiver result.crew.receiver }
    ensures ticker { B.does crew.ticker result.crew.ticker }
    ensures sender { S.does crew.sender result.crew.sender }
    ensures control { C.does crew.control result.crew.control }
{
    let Crew {
        receiver,
        ticker,
        sender,
        control,
    } = crew;
    thread::scope(
        thread::scope_env(),
        rt,
        move |scope| -> Back<A::Done, B::Done, S::Done, C::Done>
            ensures receiver { A.does receiver result.crew.receiver }
            ensures ticker { B.does ticker result.crew.ticker }
            ensures sender { S.does sender result.crew.sender }
            ensures control { C.does control result.crew.control }
        {
            let mut spare = (None, None, None);
            let receiver = start(scope, shutdown, &mut spare.0, receiver);
            let ticker = start(scope, shutdown, &mut spare.1, ticker);
            let sender = start(scope, shutdown, &mut spare.2, sender);
            let had_threads = receiver.is_some() && ticker.is_some() && sender.is_some();
            let control = control.work();
            let crew = Crew {
                receiver: done_of(rt, receiver, &mut spare.0),
                ticker: done_of(rt, ticker, &mut spare.1),
                sender: done_of(rt, sender, &mut spare.2),
                control,
            };
            Back { crew, had_threads }
        },
    )
}
