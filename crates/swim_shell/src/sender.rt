//! The worker that sends.

ghost use Rattle.std.specs.Prelude.{◌≡◌};
ghost use Rattle.swim_shell.specs.Losses.{HandsOn, with_owed, owed_after};

use crate::caller::{Caller, Refusal};
use crate::worker::Worker;
use swim_member::Event;

/// An outbox with the link that its datagrams go to. It owes the losses that no call has told.
pub trait Outgoing {
    ghost use Rattle.swim_shell.specs.Losses.{OutgoingView};

    /// Whether the link tells what it took.
    ghost tells: { Type 0 };

    /// What it has handed on, and what it owes.
    ghost handed: { Self → OutgoingView };

    /// Hands on some of what waits, in order. What the link refuses is lost, and owed.
    fn hand_on(&mut self)
        ensures { HandsOn tells (handed self.old) (handed self.new) };

    /// How many losses it owes, at most 2^32 - 1.
    fn losses(&self) -> u32
        ensures { result ≡ (handed self.now).owed };

    /// The losses were told.
    fn settle(&mut self)
        ensures { handed self.new ≡ with_owed 0 (handed self.old) };
}

/// Hands on what waits, and enters what was lost as one `SendFailed`. What is owed and was not told stays owed, unless a call
/// ended with `Unread`: it may stand in the history, and is not told again.
#[derive(Drop)]
pub struct SendWorker<O: Outgoing> {
    /// What hands datagrams on.
    pub outgoing: O,
}

impl<O: Outgoing> SendWorker<O> {
    /// After a call that was to tell what is owed was refused so.
    fn settle_unread(&mut self, why: Refusal)
        ensures { O.handed self.new.outgoing ≡ with_owed (owed_after why
            (O.handed self.old.outgoing).owed) (O.handed self.old.outgoing) }
    {
        if why == Refusal::Unread {
            self.outgoing.settle();
        }
    }
}

impl<C: Caller, O: Outgoing> Worker<C> for SendWorker<O> {
    ghost use Rattle.swim_shell.specs.Work.{LastOf};
    ghost use Rattle.swim_shell.specs.Losses.{Sending, TellsInVain};

    type End = Refusal;

    ghost worked = { λ a p b q n. Sending O.tells (O.handed a.outgoing) p (O.handed b.outgoing)
        q n };

    ghost ended = { λ why a p b q n. LastOf (Sending O.tells) (TellsInVain O.tells C.limit why)
        (O.handed a.outgoing) p (O.handed b.outgoing) q n };

    #[tactic(auto, using(crate::proofs::Losing::sending_start))]
    fn begin(&mut self) {}

    #[tactic(auto, using(crate::proofs::Losing::sending_nothing, crate::proofs::Losing::sending_more, crate::proofs::Losing::tells_in_vain))]
    fn turn(&mut self, caller: &mut C) -> Option<Refusal> {
        self.outgoing.hand_on();
        let count = self.outgoing.losses();
        if count == 0 {
            return None;
        }
        match caller.call(Event::SendFailed { count }) {
            Ok(_) => {
                self.outgoing.settle();
                None
            }
            Err(why) => {
                self.settle_unread(why);
                Some(why)
            }
        }
    }
}
