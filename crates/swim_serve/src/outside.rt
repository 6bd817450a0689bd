//! What a member works with from one era to the next.

ghost use Rattle.std.specs.Prelude.{◌≡◌, [], None, IfOk};
ghost use Rattle.rand_chacha.specs.ChaCha.{of_seed};
ghost use Rattle.swim_shell.specs.Inbounds.{receiver_of};
ghost use Rattle.swim_serve.specs.EraCounts.{with_era};
ghost use Rattle.swim_serve.specs.Views.{link_of};

use crate::chores::Chores;
use crate::desk::Desk;
use crate::era_counts::EraCounts;
use crate::era_saves::EraSaves;
use crate::host::Joins;
use crate::tick_timer::TickTimer;
use log::Log;
use rand_chacha::ChaCha20Rng;
use rand_core::SeedableRng;
use std::alloc::{AllocError, Global};
use std::marker::Model;
use std::time::{Clock, Duration};
use swim_handle::{CallLog, Crew, Identity};
use swim_join::Joiner;
use swim_member::Settings;
use swim_node::Link;
use swim_shell::{Doors, Inbound, Receiver, Ticker};
use swim_wire::{Endpoint, Rules};

/// The stream of the generator that draws the members to join.
const DRAWS: u64 = 1;

/// After how many periods of a life its first era ends at the latest. The peers that the member has met by then are kept.
const FIRST_ERA_PERIODS: u64 = 2;

/// What each worker has logged and counted.
pub(crate) type CallLogs = Crew<CallLog, CallLog, CallLog, CallLog>;

/// What a member works with from one era to the next.
#[derive(Drop)]
pub struct Outside<
    I: Inbound + Drop,
    M: Link + Drop,
    R: Log + Clock + Drop,
    O: Doors + Chores + Drop,
> {
    /// The worker that hands datagrams in.
    pub(crate) receiver: Receiver<I>,
    /// The worker that counts the ticks.
    pub(crate) ticker: Ticker,
    /// The worker that answers control lines and joins members.
    pub(crate) desk: Desk<R, O>,
    /// Where datagrams go.
    pub(crate) link: M,
    /// What each worker has logged and counted.
    pub(crate) logs: CallLogs,
    /// What became of the eras.
    pub(crate) eras: EraCounts,
    /// The losses that no call has told.
    pub(crate) owed: u32,
    /// When ticks are due.
    pub(crate) timer: TickTimer,
    /// For how many ticks the member waits before it ends once it is expelled; none if it is to stay.
    pub(crate) expelled_ends: Option<u64>,
}

impl<I: Inbound + Drop, M: Link + Drop, R: Log + Clock + Drop, O: Doors + Chores + Drop> Model
    for Outside<I, M, R, O> {
    ghost use Rattle.swim_serve.specs.Eras.{OutsideView};
    ghost use Rattle.swim_serve.specs.Views.{link_of};

    ghost Value = { OutsideView };

    ghost view = { λ o. record {
      receiver = o.receiver;
      ticker = o.ticker;
      desk = o.desk;
      link = link_of (M.took o.link) (M.failures o.link);
      owed = o.owed;
      eras = o.eras;
      expelled_ends = o.expelled_ends;
    } };
}

/// Nothing was logged or counted yet of this member, which lives by these rules, and whose life begins with this number.
fn new_logs(me: Endpoint, rules: Rules, number: u64) -> CallLogs {
    Crew {
        receiver: CallLog::new(me, rules, number),
        ticker: CallLog::new(me, rules, number),
        sender: CallLog::new(me, rules, number),
        control: CallLog::new(me, rules, number),
    }
}

/// By what a life of a member goes that begins.
#[derive(Drop)]
pub struct LifeSetup {
    /// The settings by which it was opened.
    pub settings: Settings,
    /// The number with which the life begins: that of `Node::first`.
    pub number: u64,
    /// How long a tick lasts.
    pub tick: Duration,
    /// Whom the member joins, and how often it does what.
    pub joins: Joins,
    /// The key of the generators that give its ticks their deals, and that draw the members to join: two streams of it. Who knows it
    /// can tell whom the member probes.
    pub key: [u8; 32],
    /// For how many ticks the member waits before it ends once it is expelled; none if it is to stay.
    pub expelled_ends: Option<u64>,
}

impl<I: Inbound + Drop, M: Link + Drop, R: Log + Clock + Drop, O: Doors + Chores + Drop> Outside<
    I,
    M,
    R,
    O,
> {
    /// For how many ticks the member waits before it ends once it is expelled; none if it is to stay.
    pub(crate) fn expelled_ends(&self) -> Option<u64>
        ensures { result ≡ self.now.expelled_ends }
    {
        self.expelled_ends
    }

    /// An era ended, in which this was saved. A tick that found it full is due again.
    pub(crate) fn end_era(&mut self, saves: EraSaves, was_full: bool)
        ensures { self.new ≡ record self.old { eras = with_era saves self.old.eras } }
    {
        self.eras.add(saves);
        self.timer.repeat_if(was_full);
    }

    /// What such a life begins with: datagrams come from the inbound and go to the link, and control connections come in at the doors.
    /// An error is that there was no memory for the desk.
    pub fn new(
        alloc: Global,
        rt: R,
        setup: LifeSetup,
        inbound: I,
        link: M,
        doors: O,
    ) -> Result<Outside<I, M, R, O>, AllocError>
        ensures receiver { IfOk result (λ o. o.receiver
            ≡ receiver_of (I.came inbound) (I.failures inbound) 0 None) }
        ensures ticker { IfOk result (λ o. o.ticker ≡ of_seed setup.key) }
        ensures member { IfOk result (λ o. o.desk.joiner.me ≡ setup.settings.me) }
        ensures list { IfOk result (λ o. o.desk.joiner.peers.list ≡ setup.joins.peers.items) }
        ensures intervals { IfOk result (λ o. o.desk.joiner.intervals ≡ setup.joins.intervals) }
        ensures draws { IfOk result (λ o. o.desk.joiner.rng
            ≡ record (of_seed setup.key) { stream = DRAWS }) }
        ensures nobody { IfOk result (λ o. (o.desk.conversation ≡ None)
            × (o.desk.others ≡ [])) }
        ensures link { IfOk result (λ o. o.link ≡ link_of (M.took link) (M.failures link)) }
        ensures owed { IfOk result (λ o. o.owed ≡ 0) }
        ensures expelled { IfOk result (λ o. o.expelled_ends ≡ setup.expelled_ends) }
    {
        let LifeSetup {
            settings,
            number,
            tick,
            joins,
            key,
            expelled_ends,
        } = setup;
        let me = settings.me;
        let identity = Identity::new(&rt, &settings);
        let mut draws = ChaCha20Rng::from_seed(key);
        draws.set_stream(DRAWS);
        let rules = settings.rules_of();
        let joiner = Joiner::new(me, rules, joins.peers, joins.intervals, draws);
        let desk = Desk::new(alloc, rt, identity, joiner, doors)?;
        let first_end = settings.period.saturating_mul(FIRST_ERA_PERIODS);
        Ok(Outside {
            receiver: Receiver::new(inbound),
            ticker: Ticker::new(ChaCha20Rng::from_seed(key)),
            desk,
            link,
            logs: new_logs(me, rules, number),
            eras: EraCounts::new(),
            owed: 0,
            timer: TickTimer::new(tick, first_end),
            expelled_ends,
        })
    }
}
