//! The worker that answers control lines and joins members.

ghost use Rattle.std.specs.Prelude.{◌≡◌, ◌<◌, ◌≤◌, [], ◌∷◌, ◌++◌, None, Some, IfNone, IfSome, IfOk, IfErr};
ghost use Rattle.std.specs.Prelude.{OnErr, OnOk, IsSome, IsTrue, true, false, not, ◌+◌, length, min, if◌then◌else◌};
ghost use Rattle.swim_serve.specs.declared.connection_queue.TheConstants.{OPEN_MAX};
ghost use Rattle.swim_join.specs.Joins.{IsRelisted};
ghost use Rattle.swim_join.specs.Turns.{Turned, TurnedInVain};
ghost use Rattle.swim_shell.specs.declared.conversation.ControlEnd.TheVariants as ends;
ghost use Rattle.swim_shell.specs.Calls.{CallerView};
ghost use Rattle.swim_shell.specs.Control.{Converses};
ghost use Rattle.swim_serve.specs.Desks.{HasAnswer, OfConnection, OfMember, Opens};

use crate::chores::Chores;
use crate::connection_queue::{ConnectionQueue, OPEN_MAX};
use arrayvec::ArrayVec;
use log::Log;
use std::alloc::{AllocError, Global};
use std::marker::Model;
use std::time::Clock;
use swim_handle::{ChangeLog, Identity};
use swim_join::{Intervals, Joiner, LIST_MAX};
use swim_shell::{AnswerText, ControlEnd, Conversation, Doors, Observer, Refusal, Worker};
use swim_wire::Endpoint;

/// Serves control connections, a line a turn: the one that has the turns keeps them until its answer is written, and then stands
/// aside for the next. Between two of them what is due beside them is seen to, which may end the era, and the joiner has a turn. It
/// waits only when none of them has anything to say.
/// Connections that are open at the end of an era stay so, and go on in the next one.
#[derive(Drop)]
pub struct Desk<W: Log + Clock + Drop, O: Doors + Chores + Drop> {
    /// To which the joiner logs what changes of members.
    log: ChangeLog<W>,
    /// Who the member is.
    identity: Identity,
    joiner: Joiner,
    doors: O,
    /// The connection that has the turns.
    conversation: Option<Conversation<O::Reader, O::Writer>>,
    /// Those that are open beside it, the next one first.
    others: ConnectionQueue<Conversation<O::Reader, O::Writer>>,
    /// To how many of them in a row nothing had come, since the last wait.
    silent: usize,
    /// Whether what the line `reload` of one of them asks for is being made ready.
    is_preparing: bool,
}

impl<W: Log + Clock + Drop, O: Doors + Chores + Drop> Model for Desk<W, O> {
    ghost use Rattle.std.specs.Prelude.{◌≤◌, ◌+◌, length, option_to_list};
    ghost use Rattle.swim_serve.specs.declared.connection_queue.TheConstants.{OPEN_MAX};
    ghost use Rattle.swim_serve.specs.Desks.{DeskView};

    ghost Value = { DeskView };

    ghost view = { λ d. record {
      joiner = d.joiner;
      conversation = d.conversation;
      others = d.others;
      silent = d.silent;
      preparing = d.is_preparing;
    } };

    ghost invariant = { λ d. length (option_to_list d.conversation) + length d.others ≤ OPEN_MAX };
}

/// Whether only the connection ends so.
fn is_of_connection(end: ControlEnd) -> bool
    ensures yes { IsTrue result → OfConnection end }
    ensures no { result ≡ false → OfMember end }
{
    matches!(
        end,
        ControlEnd::Closed | ControlEnd::ReadFault | ControlEnd::WriteFault
    )
}

/// To how many connections in a row nothing has come, after one more.
fn silent_after(silent: usize, is_silent: bool) -> usize
    ensures { result ≡ (if is_silent then min (silent + 1) usize.MAX else 0) }
{
    if is_silent {
        silent.saturating_add(1)
    } else {
        0
    }
}

impl<W: Log + Clock + Drop, O: Doors + Chores + Drop> Desk<W, O> {
    /// A desk of this member at these doors, with no connection open.
    pub fn new(
        alloc: Global,
        rt: W,
        identity: Identity,
        joiner: Joiner,
        doors: O,
    ) -> Result<Desk<W, O>, AllocError>
        ensures joiner { IfOk result (λ desk. desk.joiner ≡ joiner) }
        ensures nobody { IfOk result (λ desk. desk.conversation ≡ None) }
        ensures none { IfOk result (λ desk. desk.others ≡ []) }
    {
        let others = ConnectionQueue::new(alloc)?;
        Ok(Desk {
            log: ChangeLog::new(rt),
            identity,
            joiner,
            doors,
            conversation: None,
            others,
            silent: 0,
            is_preparing: false,
        })
    }

    /// Who the member is.
    pub(crate) fn identity(&self) -> Identity {
        self.identity
    }

    /// How many others the member has to join.
    pub(crate) fn listed(&self) -> usize
        ensures { result ≡ length self.now.joiner.peers.list }
    {
        self.joiner.listed()
    }

    /// Has the joiner join these peers from now on, by these intervals.
    pub(crate) fn relist(&mut self, peers: ArrayVec<Endpoint, LIST_MAX>, intervals: Intervals)
        ensures joiner { IsRelisted peers.items intervals self.old.joiner self.new.joiner }
        ensures same { (self.new.conversation ≡ self.old.conversation)
            × (self.new.others ≡ self.old.others) }
    {
        self.joiner.relist(peers, intervals);
    }

    /// Gives the conversation that has the turns the answer to its line `reload`.
    pub(crate) fn answer(&mut self, answer: AnswerText)
        ensures told { HasAnswer self.old.conversation self.new.conversation }
        ensures same { (self.new.joiner ≡ self.old.joiner)
            × (self.new.others ≡ self.old.others) }
    {
        if let Some(conversation) = &mut self.conversation {
            conversation.answer(answer);
        }
    }

    /// Has the conversation stand aside, behind all others.
    fn set_aside(&mut self, conversation: Conversation<O::Reader, O::Writer>)
        requires nobody { self.old.conversation ≡ None }
        requires room { length self.old.others < OPEN_MAX }
        ensures last { self.new.others ≡ self.old.others ++ conversation ∷ [] }
        ensures same { (self.new.conversation ≡ self.old.conversation)
            × (self.new.joiner ≡ self.old.joiner) }
        ensures silent { self.new.silent ≡ (if conversation.silent
            then min (self.old.silent + 1) usize.MAX else 0) }
    {
        self.silent = silent_after(self.silent, conversation.is_silent());
        self.others.push(conversation);
    }

    /// The first of the others, which has the turns next. None where none of them has anything to say, after a wait.
    fn resumed(&mut self) -> Option<Conversation<O::Reader, O::Writer>>
        requires { self.old.conversation ≡ None }
        ensures next { IfSome result (λ next. self.old.others
            ≡ next ∷ self.new.others) }
        ensures none { IfNone result (self.new.others ≡ self.old.others) }
        ensures room { IfSome result (λ _. length self.new.others < OPEN_MAX) }
        ensures silent { IfNone result (length self.old.others ≤ self.old.silent) }
        ensures some { IfSome result (λ _. self.old.silent < length self.old.others) }
        ensures same { (self.new.conversation ≡ self.old.conversation)
            × (self.new.joiner ≡ self.old.joiner) }
    {
        if self.silent >= self.others.len() {
            self.doors.wait(self.joiner.idle_rest());
            self.silent = 0;
            return None;
        }
        self.others.next()
    }

    /// Gives the turns to a conversation.
    fn begin_turns<C: Observer>(&mut self, mut conversation: Conversation<O::Reader, O::Writer>)
        requires { length self.old.others < OPEN_MAX }
        ensures begun { IfSome self.new.conversation (λ begun. (p : CallerView)
            → Converses C.limit conversation p begun p 0) }
        ensures some { IsSome self.new.conversation }
        ensures same { (self.new.others ≡ self.old.others)
            × (self.new.joiner ≡ self.old.joiner) }
    {
        Worker::<C>::begin(&mut conversation);
        self.conversation = Some(conversation);
    }

    /// Whether a line `reload` of this conversation may be seen to: it is for one at a time, so that none is answered by what was
    /// made ready before it was heard.
    fn may_prepare_for(&self, conversation: &Conversation<O::Reader, O::Writer>) -> bool
        ensures { result ≡ (if self.now.preparing then conversation.now.prepared else true) }
    {
        !self.is_preparing || conversation.is_prepared_for()
    }

    /// Whether what the line `reload` asks for is ready.
    fn is_reload_ready(&mut self) -> bool
        ensures joiner { self.new.joiner ≡ self.old.joiner }
        ensures conversation { self.new.conversation ≡ self.old.conversation }
        ensures others { self.new.others ≡ self.old.others }
        ensures next { self.new.preparing ≡ not result }
    {
        let is_ready = self.doors.prepare_reload();
        self.is_preparing = !is_ready;
        is_ready
    }

    /// Whether a turn heard `reload`, and what it asks for may not be seen to, or is not ready yet.
    fn must_hold(&mut self, turn: Option<ControlEnd>, may_prepare: bool) -> bool
        ensures reloading { IsTrue result → turn ≡ Some ends.Reloading }
        ensures busy { turn ≡ Some ends.Reloading → may_prepare ≡ false → result ≡ true }
        ensures joiner { self.new.joiner ≡ self.old.joiner }
        ensures conversation { self.new.conversation ≡ self.old.conversation }
        ensures others { self.new.others ≡ self.old.others }
    {
        match turn {
            Some(ControlEnd::Reloading) => !may_prepare || !self.is_reload_ready(),
            _ => false,
        }
    }

    /// Lets the joiner ask, and gives the turns to the next conversation, if there is one.
    fn stand_by<C: Observer>(&mut self, caller: &mut C) -> Result<(), Refusal>
        requires { self.old.conversation ≡ None }
        ensures turned { IfOk result (λ _. Turned self.old.joiner (C.known caller.old)
            self.new.joiner (C.known caller.new)) }
        ensures opens { IfOk result (λ _. Opens C.limit (C.known caller.new) self.old.others
            self.new.conversation self.new.others) }
        ensures in_vain { IfErr result (λ why. TurnedInVain C.limit why self.old.joiner
            (C.known caller.old) self.new.joiner (C.known caller.new)) }
        ensures nobody { OnErr result ((self.new.conversation ≡ None)
            × (self.new.others ≡ self.old.others)) }

        // Nobody gets the turns only where nothing had come to any of the others.
        ensures silent { OnOk result (self.new.conversation ≡ None
            → length self.old.others ≤ self.old.silent) }
    {
        self.log.tell_left_out();
        self.joiner.turn(&self.log, caller)?;
        if self.others.len() < OPEN_MAX {
            if let Some((reader, writer)) = self.doors.next() {
                self.silent = 0;
                self.begin_turns::<C>(Conversation::new(reader, writer));
                return Ok(());
            }
        }
        if let Some(conversation) = self.resumed() {
            self.begin_turns::<C>(conversation);
        }
        Ok(())
    }
}

impl<C: Observer, W: Log + Clock + Drop, O: Doors + Chores + Drop> Worker<C> for Desk<W, O> {
    ghost use Rattle.swim_serve.specs.Desks.{TendedBy, Tending};

    type End = ControlEnd;

    ghost worked = { λ a p b q n. Tending C.limit a p b q n };

    ghost ended = { λ end a p b q n. TendedBy C.limit end a p b q n };

    #[tactic(auto, using(crate::proofs::Tending::tending_none, crate::proofs::Tending::tending_begun))]
    fn begin(&mut self) {
        let Some(mut conversation) = self.conversation.take() else {
            return;
        };
        Worker::<C>::begin(&mut conversation);
        self.conversation = Some(conversation);
    }

    #[tactic(auto, using(crate::proofs::Tending::tending_joined, crate::proofs::Tending::tending_refused, crate::proofs::Tending::tending_asked))]
    fn turn(&mut self, caller: &mut C) -> Option<ControlEnd> {
        let Some(mut conversation) = self.conversation.take() else {
            if self.doors.see_to() {
                return Some(ControlEnd::EraAsked);
            }
            return match self.stand_by(caller) {
                Ok(()) => None,
                Err(refusal) => Some(ControlEnd::Refused(refusal)),
            };
        };
        let turn = conversation.turn(caller);
        let may_prepare = self.may_prepare_for(&conversation);
        if self.must_hold(turn, may_prepare) {
            conversation.hold(may_prepare);
            self.set_aside(conversation);
            return None;
        }
        match turn {
            Some(end) if is_of_connection(end) => None,
            None if !conversation.is_waiting() => {
                self.set_aside(conversation);
                None
            }
            end => {
                self.conversation = Some(conversation);
                end
            }
        }
    }
}
