//! Whom a member joins, and when. Its joiner says so, which is that of `swim run`: it asks for the rows that the member has, by the
//! member's own clock.

ghost use Rattle.std.specs.Prelude.{◌≡◌, None, [], length};
ghost use Rattle.swim_node.specs.History.{calls_by};
ghost use Rattle.swim_simulate.specs.Joining.{HasTurn, joined_after, last_joined};

use crate::place::endpoint_of;
use crate::views::GroupViews;
use arrayvec::{ArrayString, ArrayVec};
use rand_chacha::ChaCha20Rng;
use swim_join::{Intervals, Joiner, LIST_MAX};
use swim_member::{Event, Outs, Settings};
use swim_node::{Entry, Reply, Save, Status, Tag};
use swim_plan::{Plan, PlanKey};
use swim_shell::{COUNTERS, Caller, Counters, Observer, QuietClock, Refusal, Who};
use swim_trace::Trace;
use swim_wire::{Endpoint, Rules, UPDATES_MAX, Update};

/// Whom a member is to join once it is asked this too.
fn joined_after(peer: Option<Endpoint>, event: &Event) -> Option<Endpoint>
    ensures { result ≡ joined_after peer event.now }
{
    match event {
        Event::Join { peer } => Some(*peer),
        _ => peer,
    }
}

/// A member that its joiner asks: it shows its rows, and whom it is to join is kept.
#[derive(Drop)]
pub(crate) struct AskedMember<'a> {
    who: usize,
    status: Status,
    views: &'a GroupViews,
    /// Whom it is to join.
    peer: Option<Endpoint>,
    /// What it was asked, for proofs.
    asked: Trace<Event>,
    /// With what it answered, for proofs.
    entries: Trace<Entry>,
    ghost last: { peer ≡ last_joined asked },
    ghost answered: { length (calls_by 0 entries) ≡ length asked },
}

impl AskedMember<'_> {
    /// The member with this place, which shows this status, before it is asked.
    pub(crate) fn new(who: usize, status: Status, views: &GroupViews) -> AskedMember<'_>
        ensures { result.asked ≡ [] }
    {
        AskedMember {
            who,
            status,
            views,
            peer: None,
            asked: Trace::new(),
            entries: Trace::new(),
        }
    }

    /// What it shows.
    fn page_for(&self, event: &Event) -> ArrayVec<Update, UPDATES_MAX> {
        match event {
            Event::Members { after } => self.views.page(self.who, *after),
            _ => ArrayVec::new(),
        }
    }
}

impl Caller for AskedMember<'_> {
    ghost use Rattle.std.specs.Prelude.{ℕ, false};

    ghost known = { λ a. record { caller = 0; seen = a.entries; spent = false; asked = a.asked } };

    ghost limit = { 1 };

    #[tactic(auto, using(crate::proofs::Asking::joined_more, crate::proofs::Asking::answered_more))]
    fn call(&mut self, event: Event) -> Result<Reply, Refusal> {
        let page = self.page_for(&event);
        self.peer = joined_after(self.peer, &event);
        self.asked = self.asked.and(&event);
        let entry = Entry {
            tag: Tag { caller: 0, turn: 1 },
            event,
            granted: 0,
            save: Save::Kept,
            outs: Outs::new(),
            outcomes: ArrayVec::new(),
            reply: Reply {
                status: self.status,
                notes: ArrayVec::new(),
                page,
                sent: 0,
                lost: 0,
            },
        };
        self.entries = self.entries.and(&entry);
        Ok(entry.reply)
    }
}

impl Observer for AskedMember<'_> {
    fn status(&mut self) -> Option<Status> {
        Some(self.status)
    }

    fn who(&mut self) -> Who {
        Who {
            me: endpoint_of(self.who.min(LIST_MAX)),
            group: 1,
            rules: Rules::Two,
            version: ArrayString::new(),
            uptime: 0,
            listed: 0,
        }
    }

    fn counters(&mut self) -> Counters {
        Counters {
            values: [0; COUNTERS],
        }
    }
}

/// A turn of a joiner, in which it asks a member, which refuses nothing. Gives whom that one is to join now, if anybody.
#[tactic(auto, using(crate::proofs::Asking::no_refusal))]
pub(crate) fn turn(
    joiner: &mut Joiner,
    clock: &QuietClock,
    mut asked: AskedMember<'_>,
) -> Option<Endpoint>
    requires { asked.asked ≡ [] }
    ensures { HasTurn joiner.old joiner.new result }
{
    let Ok(()) = joiner.turn(clock, &mut asked) else {
        unreachable!();
    };
    asked.peer
}

/// The members that are on the list of the one with this place: the first ones, without itself.
fn listed_by(plan: &Plan, who: usize) -> ArrayVec<Endpoint, LIST_MAX> {
    let mut peers = ArrayVec::new();
    let listed = plan.get(PlanKey::Listed).min(plan.get(PlanKey::Members));
    for place in 0..listed as usize {
        if place != who {
            let _ = peers.try_push(endpoint_of(place));
        }
    }
    peers
}

/// The joiner of the member with this place and these settings; none where these are not sound.
pub(crate) fn joiner_of(
    plan: &Plan,
    who: usize,
    settings: &Settings,
    rng: ChaCha20Rng,
) -> Option<Joiner> {
    settings.check().ok()?;
    let introduce = plan.get(PlanKey::Introduce) as u32;
    let intervals = Intervals::of(
        settings,
        introduce,
        plan.get(PlanKey::Rejoin),
        plan.get(PlanKey::TickMs),
    );
    Some(Joiner::new(
        settings.me,
        settings.rules_of(),
        listed_by(plan, who),
        intervals,
        rng,
    ))
}
