//! Callers of a shared member, one of which is shown its status.

ghost use Rattle.std.specs.Prelude.{◌≡◌, [], false};
ghost use Rattle.swim_node.specs.History.{IsLegal};
ghost use Rattle.swim_handle.specs.Identities.{Tells};
ghost use Rattle.swim_handle.specs.Views.{view_of};

use crate::board::{CounterRow, SharedCounters};
use crate::call_log::{CallLog, is_expulsion};
use crate::pace::Pace;
use crate::parts::{CallerParts, IntoParts};
use log::Log;
use std::marker::Model;
use std::sync::Wait;
use std::time::Clock;
use swim_disk::Disk;
use swim_member::Event;
use swim_node::{Link, Reply, Status};
use swim_shared::{CallFault, Name, Pass, Shared, Watch};
use swim_shell::{Caller, Counters, Observer, Refusal, Who};
use swim_trace::Trace;

/// Calls a shared member by a pass of its own. It logs the notes of each reply and what each datagram shows of the own number, counts
/// and shows each answered call, and ends the era in which a call expels the member.
#[derive(Drop)]
pub struct Handle<'a, N: Name, D: Disk, L: Link, R: Wait + Drop, W: Wait + Log + Clock> {
    rt: &'a W,
    shared: &'a Shared<N, D, L, R>,
    /// By which the era is ended.
    pace: &'a Pace,
    pass: Pass<N>,
    /// Where it shows what it counts.
    row: &'a CounterRow,
    log: CallLog,
    /// Whether a call could not be read back, or found the pass behind the journal. Each later call is refused.
    is_spent: bool,
    /// The events that it was to enter.
    asked: Trace<Event>,
}

impl<'a, N: Name, D: Disk, L: Link, R: Wait + Drop, W: Wait + Log + Clock> Model
    for Handle<'a, N, D, L, R, W> {
    ghost use Rattle.swim_handle.specs.Views.{HandleView, view_of};

    ghost Value = { HandleView };

    ghost view = { λ h. record { known = view_of h.pass h.is_spent h.asked; log = h.log } };
}

impl<'a, N: Name, D: Disk, L: Link, R: Wait + Drop, W: Wait + Log + Clock> Handle<
    'a,
    N,
    D,
    L,
    R,
    W,
> {
    /// Calls by this pass in the era of this pace, goes on with what was logged and counted, and shows that in this row.
    pub fn new(
        rt: &'a W,
        shared: &'a Shared<N, D, L, R>,
        pace: &'a Pace,
        pass: Pass<N>,
        row: &'a CounterRow,
        log: CallLog,
    ) -> Self
        ensures { result ≡ record { known = view_of pass false []; log = log } }
    {
        Handle {
            rt,
            shared,
            pace,
            pass,
            row,
            log,
            is_spent: false,
            asked: Trace::new(),
        }
    }

    /// What was seen is a legal history of the shared member.
    pub fn history_is_legal(&self)
        ensures { IsLegal N.base self.now.known.seen }
    {
        self.pass.list_is_legal();
    }
}

impl<'a, N: Name, D: Disk, L: Link, R: Wait + Drop, W: Wait + Log + Clock> IntoParts
    for Handle<'a, N, D, L, R, W> {
    ghost use Rattle.std.specs.Prelude.{◌≡◌};
    ghost use Rattle.swim_handle.specs.Views.{HasParts};

    type Parts = CallerParts<N>;

    ghost parted = { λ known parts. HasParts N.base known parts.pass };

    fn into_parts(self) -> CallerParts<N>
        ensures parted { HasParts N.base self.entry.known result.pass }
        // beside what every caller does
        ensures log { result.log ≡ self.entry.log }
    {
        self.pass.list_is_legal();
        let Handle {
            rt: _,
            shared: _,
            pace: _,
            pass,
            row: _,
            log,
            is_spent: _,
            asked: _,
        } = self;
        CallerParts { pass, log }
    }
}

impl<'a, N: Name, D: Disk, L: Link, R: Wait + Drop, W: Wait + Log + Clock> Caller
    for Handle<'a, N, D, L, R, W> {
    ghost use Rattle.std.specs.Prelude.{◌≡◌, IfErr, IfOk, MatchOption, OnErr};
    ghost use Rattle.swim_shell.specs.Calls.{NewCall, Refuses};
    ghost use Rattle.swim_shell.specs.CallCounts.{counts_after, event_kind};
    ghost use Rattle.swim_handle.specs.Companies.{holds_nobody};
    ghost use Rattle.swim_handle.specs.Numbers.{Minds, said_in};

    ghost known = { λ h. h.known };

    ghost limit = { N.base.limit };

    #[tactic(auto, using(crate::proofs::Passing::called_new, crate::proofs::Passing::refused_memory, crate::proofs::Passing::refused_full, crate::proofs::Passing::refused_turn, crate::proofs::Passing::refused_unread, crate::proofs::Passing::refused_spent))]
    fn call(&mut self, event: Event) -> Result<Reply, Refusal>
        ensures ok { IfOk result (λ reply. NewCall self.old.known self.new.known event reply) }
        ensures err { IfErr result (λ why. Refuses N.base.limit why self.old.known
            self.new.known event) }
        // beside what every caller does: an answered call is counted, and a refused one is not
        ensures counted { IfOk result (λ reply. self.new.log.counts
            ≡ counts_after (event_kind event) reply self.old.log.counts) }
        ensures uncounted { OnErr result (self.new.log ≡ self.old.log) }
        // and what its datagram says of the member is minded; another event says nothing
        ensures minded { IfOk result (λ reply. MatchOption (said_in self.old.log.me event)
            (self.new.log.numbers ≡ self.old.log.numbers)
            (λ said. Minds self.old.log.counts.number said reply self.old.log.numbers
            self.new.log.numbers)) }
        ensures company { IfOk result (λ reply. self.new.log.company.is_alone
            ≡ holds_nobody reply.status) }
        ensures me { self.new.log.me ≡ self.old.log.me }
    {
        self.asked = self.asked.and(&event);
        if self.is_spent {
            return Err(Refusal::Unread);
        }
        let heard = self.log.hear(&event);
        match self.shared.call(self.rt, &mut self.pass, event) {
            Ok(reply) => {
                self.log.take(self.rt, &heard, &reply);
                self.row.show(self.log.counts(), !reply.notes.is_empty());
                if is_expulsion(&reply) {
                    self.pace.end();
                }
                Ok(reply)
            }
            Err(CallFault::NoMemory) => Err(Refusal::Memory),
            Err(CallFault::EraFull) => Err(Refusal::EraFull),
            Err(CallFault::OutOfTurn | CallFault::Unread) => {
                self.is_spent = true;
                Err(Refusal::Unread)
            }
        }
    }
}

/// Calls a shared member, lets a watch know of each call that is answered, and reads what all callers have counted.
#[derive(Drop)]
pub struct StatusCaller<'a, N: Name, D: Disk, L: Link, R: Wait + Drop, W: Wait + Log + Clock> {
    handle: Handle<'a, N, D, L, R, W>,
    watch: Watch<N>,
    board: &'a SharedCounters,
}

impl<'a, N: Name, D: Disk, L: Link, R: Wait + Drop, W: Wait + Log + Clock> StatusCaller<
    'a,
    N,
    D,
    L,
    R,
    W,
> {
    /// Calls as this caller does, and reads by this watch and from this board.
    pub fn new(
        handle: Handle<'a, N, D, L, R, W>,
        watch: Watch<N>,
        board: &'a SharedCounters,
    ) -> Self
        ensures handle { result.handle ≡ handle.entry }
    {
        StatusCaller {
            handle,
            watch,
            board,
        }
    }
}

impl<'a, N: Name, D: Disk, L: Link, R: Wait + Drop, W: Wait + Log + Clock> IntoParts
    for StatusCaller<'a, N, D, L, R, W> {
    ghost use Rattle.swim_handle.specs.Views.{HasParts};

    type Parts = CallerParts<N>;

    ghost parted = { λ known parts. HasParts N.base known parts.pass };

    fn into_parts(self) -> CallerParts<N>
        ensures parted { HasParts N.base self.entry.handle.known result.pass }
        ensures log { result.log ≡ self.entry.handle.log }
    {
        let StatusCaller {
            handle,
            watch: _,
            board: _,
        } = self;
        handle.into_parts()
    }
}

impl<'a, N: Name, D: Disk, L: Link, R: Wait + Drop, W: Wait + Log + Clock> Caller
    for StatusCaller<'a, N, D, L, R, W> {
    ghost known = { λ o. o.handle.known };

    ghost limit = { N.base.limit };

    fn call(&mut self, event: Event) -> Result<Reply, Refusal> {
        match self.handle.call(event) {
            Ok(reply) => {
                let handle = &mut self.handle;
                // its worker may wait before the turn ends that notifies: what it sends does not wait with it
                if reply.sent > 0 {
                    handle.pace.notify();
                }
                let _ = handle
                    .shared
                    .show(handle.rt, &mut handle.pass, &mut self.watch);
                Ok(reply)
            }
            Err(refusal) => Err(refusal),
        }
    }
}

impl<'a, N: Name, D: Disk, L: Link, R: Wait + Drop, W: Wait + Log + Clock> Observer
    for StatusCaller<'a, N, D, L, R, W> {
    fn status(&mut self) -> Option<Status> {
        self.watch.read()
    }

    fn who(&mut self) -> Who
        ensures known { self.new.handle.known ≡ self.old.handle.known }
        ensures who { Tells self.old.board.now.identity self.old.board.now.listed result }
    {
        self.board.tell(self.handle.rt)
    }

    fn counters(&mut self) -> Counters {
        self.board.read()
    }
}
