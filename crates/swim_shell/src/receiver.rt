//! The worker that receives.

ghost use Rattle.std.specs.Prelude.{◌≡◌, None};
ghost use Rattle.swim_shell.specs.Inbounds.{Takes, kept_after, receiver_of};

use crate::caller::{Caller, Refusal};
use crate::inbound::Inbound;
use crate::worker::{Worker, WorkerEnd};
use arrayvec::ArrayVec;
use std::marker::Model;
use swim_member::Event;

/// A receiver ends after so many failed receives in a row.
pub const FAILURES_MAX: u8 = 16;

/// Enters each datagram of an inbound by one call, and each failure of it by one. What finds the era full is kept, and is
/// the first that it enters in the next one.
#[derive(Drop)]
pub struct Receiver<I: Inbound> {
    inbound: I,
    /// How many receives in a row have failed, counted up to 16.
    failed: u8,
    /// What came and found the era full.
    kept: Option<Event>,
}

impl<I: Inbound> Model for Receiver<I> {
    ghost use Rattle.swim_shell.specs.Inbounds.{ReceiverView, receiver_of};

    ghost Value = { ReceiverView };

    ghost view = { λ r. receiver_of (I.came r.inbound) (I.failures r.inbound) r.failed r.kept };
}

/// What waits for the next era after a call for this was refused so.
fn kept_after(why: Refusal, event: Event) -> Option<Event>
    ensures { result ≡ kept_after why event }
{
    match why {
        Refusal::EraFull => Some(event),
        Refusal::Memory | Refusal::Unread => None,
    }
}

impl<I: Inbound> Receiver<I> {
    /// A receiver of what comes.
    pub fn new(inbound: I) -> Receiver<I>
        ensures { result ≡ receiver_of (I.came inbound) (I.failures inbound) 0 None }
    {
        Receiver {
            inbound,
            failed: 0,
            kept: None,
        }
    }

    /// What is entered next: what waits, or else what the inbound gives; none where nothing came.
    #[tactic(auto, using(crate::proofs::Receiving::takes_answer, crate::proofs::Receiving::takes_kept))]
    fn receive(&mut self) -> Option<Event>
        ensures takes { Takes I.tells self.old self.new result }
        ensures kept { self.new.kept ≡ None }
    {
        if let Some(event) = self.kept.take() {
            return Some(event);
        }
        let mut bytes = ArrayVec::new();
        match self.inbound.receive(&mut bytes) {
            Ok(Some(from)) => {
                self.failed = 0;
                Some(Event::Datagram { from, bytes })
            }
            Ok(None) => {
                self.failed = 0;
                None
            }
            Err(_) => {
                self.failed = self.failed.saturating_add(1).min(FAILURES_MAX);
                Some(Event::ReceiveFailed)
            }
        }
    }
}

impl<C: Caller, I: Inbound> Worker<C> for Receiver<I> {
    ghost use Rattle.swim_shell.specs.Work.{LastOf};
    ghost use Rattle.swim_shell.specs.Inbounds.{Receiving, ReceivesLast};

    type End = WorkerEnd;

    ghost worked = { λ a p b q n. Receiving I.tells a p b q n };

    ghost ended = { λ end a p b q n. LastOf (Receiving I.tells) (ReceivesLast I.tells C.limit end)
        a p b q n };

    #[tactic(auto, using(crate::proofs::Receiving::receiving_start))]
    fn begin(&mut self) {}

    #[tactic(auto, using(crate::proofs::Receiving::receiving_nothing, crate::proofs::Receiving::receiving_turn))]
    fn turn(&mut self, caller: &mut C) -> Option<WorkerEnd> {
        let taken = self.receive()?;
        match caller.call(taken.copy()) {
            Ok(_) if self.failed >= FAILURES_MAX => Some(WorkerEnd::Fault),
            Ok(_) => None,
            Err(refusal) => {
                self.kept = kept_after(refusal, taken);
                Some(WorkerEnd::Refused(refusal))
            }
        }
    }
}
