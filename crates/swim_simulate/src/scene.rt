//! What there is of a run beside its nodes: the plan, what is drawn, the network, and what is known of the members.

ghost use Rattle.std.specs.Prelude.{◌≡◌, ◌≤◌, slice_get};
ghost use Rattle.swim_simulate.specs.Running.{beats_of, comes, hears, rate_of};

use crate::dice::Dice;
use crate::fault::SimulateFault;
use crate::flight::Flight;
use crate::joining::{AskedMember, joiner_of, turn};
use crate::measures::{Awaited, Measures, count};
use crate::network::{fate_by, is_cut, size_of_datagram};
use crate::place::{MemberPlace, place_of};
use crate::script::Script;
use crate::shadow::{Lapse, Shadow};
use crate::views::{GroupViews, View};
use std::alloc::Global;
use swim_charts::Tally;
use swim_disk::Choice;
use swim_group::Seat;
use swim_join::Joiner;
use swim_member::{Deal, Out};
use swim_node::{Save, Status};
use swim_plan::{Plan, PlanKey};
use swim_shell::QuietClock;
use swim_wire::{Endpoint, MEMBERS_MAX, Update};

/// A member that does what the node does that sits there, in a group of so many.
fn shadow_of(alloc: Global, seat: &Seat, members: usize) -> Result<Option<Shadow>, SimulateFault> {
    match &seat.node {
        Some(node) => Shadow::new(alloc, &seat.settings, node.first(), members),
        None => Ok(None),
    }
}

/// A member for each node that does what it does.
pub(crate) fn shadows_of(
    alloc: Global,
    seats: &[Seat],
) -> Result<Vec<Option<Shadow>>, SimulateFault> {
    let mut shadows = Vec::new(alloc);
    for seat in seats {
        shadows.push(shadow_of(alloc, seat, seats.len())?)?;
    }
    Ok(shadows)
}

/// A joiner for each node, which knows nobody.
pub(crate) fn joiners_of(
    alloc: Global,
    plan: &Plan,
    dice: &mut Dice,
    seats: &[Seat],
) -> Result<Vec<Option<Joiner>>, SimulateFault> {
    let mut joiners = Vec::new(alloc);
    for (who, seat) in seats.iter().enumerate() {
        joiners.push(joiner_of(plan, who, &seat.settings, dice.generator()))?;
    }
    Ok(joiners)
}

/// What there is of a run beside its nodes.
#[derive(Drop)]
pub(crate) struct Scene {
    pub(crate) plan: Plan,
    pub(crate) dice: Dice,
    pub(crate) flights: Vec<Flight>,
    pub(crate) places: Vec<MemberPlace>,
    pub(crate) shadows: Vec<Option<Shadow>>,
    pub(crate) joiners: Vec<Option<Joiner>>,
    pub(crate) views: GroupViews,
    pub(crate) measures: Measures,
    pub(crate) history: Vec<Tally>,
    pub(crate) script: Script,
    pub(crate) kills: u64,
    pub(crate) pauses: u64,
}

impl Scene {
    /// Whether a member runs.
    pub(crate) fn is_up(&self, who: usize) -> bool {
        matches!(self.places.get(who), Some(place) if place.is_up)
    }

    /// Whether a member hears what comes to it now.
    pub(crate) fn hears(&self, who: usize, now: u64) -> bool
        ensures { result ≡ hears now (slice_get self.now.places.items who) }
    {
        match self.places.get(who) {
            Some(place) => place.is_awake(now),
            None => false,
        }
    }

    /// Whether the datagram of this flight comes now: it is due, it is not lost, and whom it goes to hears it.
    pub(crate) fn comes(&self, flight: &Flight, now: u64) -> bool
        ensures { result ≡ comes now self.now.places.items flight.now }
    {
        flight.due <= now && !flight.is_lost && self.hears(flight.to, now)
    }

    /// The flight of the datagram that is kept in this place.
    pub(crate) fn flight_at(&self, index: usize) -> Option<Flight>
        ensures { result ≡ slice_get self.now.flights.items index }
    {
        match self.flights.get(index) {
            Some(flight) => Some(*flight),
            None => None,
        }
    }

    /// Which second it is.
    fn second(&self, now: u64) -> u64 {
        now.saturating_mul(self.plan.get(PlanKey::TickMs)) / 1000
    }

    /// The way of a datagram that is sent now from this member to that one.
    fn flight(&mut self, now: u64, from: usize, to: usize) -> Flight {
        let is_cut = is_cut(&self.plan, self.second(now), from, to);
        let draw = self.dice.draw();
        Flight::by(fate_by(&self.plan, is_cut, draw), now, to)
    }

    /// What this member sent goes its ways: all that is kept and has no flight yet.
    pub(crate) fn send(
        &mut self,
        now: u64,
        from: usize,
        kept: &[Out],
    ) -> Result<(), SimulateFault> {
        for index in self.flights.len()..kept.len() {
            let out = &kept[index];
            self.script.send(from, out)?;
            let flight = self.flight(now, from, place_of(out.to));
            let size = size_of_datagram(&out.datagram);
            self.measures.counts.send(size, flight.is_lost);
            self.flights.push(flight)?;
        }
        Ok(())
    }

    /// The datagram that is kept in this place comes once more.
    pub(crate) fn repeat(&mut self, now: u64, index: usize, delay: u64) {
        if let Some(flight) = self.flights.get_mut(index) {
            flight.due = now.saturating_add(delay);
            flight.again = None;
        }
    }

    /// The datagram that is kept in this place is kept no more, and the last one takes its place.
    pub(crate) fn forget(&mut self, index: usize) {
        if index < self.flights.len() {
            let _ = self.flights.swap_remove(index);
        }
    }

    /// Whether the next save of a member fails, as it is drawn if the plan has saves that fail.
    pub(crate) fn draws_failure(&mut self) -> bool {
        let failing = self.plan.get(PlanKey::FailingSyncs);
        failing > 0 && u64::from(self.dice.word() % 100) < failing
    }

    /// A save is counted. Whether there was one.
    pub(crate) fn count_save(&mut self, save: Save) -> bool {
        let counter = match save {
            Save::Kept => return false,
            Save::Done => &mut self.measures.counts.saves,
            Save::Failed => &mut self.measures.counts.failed_saves,
        };
        count(counter);
        true
    }

    /// How the member that sits there broke the law of detection by what it did last, if it did.
    pub(crate) fn follow(
        &mut self,
        who: usize,
        seat: &Seat,
    ) -> Result<Option<(Update, Lapse)>, SimulateFault> {
        let (Some(node), Some(Some(shadow))) = (&seat.node, self.shadows.get_mut(who)) else {
            return Ok(None);
        };
        if node.len() == 0 {
            return Ok(None);
        }
        shadow.follow(node.last())
    }

    /// A member that runs held something else of another before.
    fn mark(&mut self, now: u64, observer: usize, who: usize, view: View) {
        let was = self.views.set(observer, who, view);
        if was == view || observer == who {
            return;
        }
        if self.measures.whole.is_none() && self.views.are_whole() {
            self.measures.whole = Some(now);
        }
        self.measures.see(who, view, now);
        self.compare(now, who);
    }

    /// Whether each other member that runs holds what is awaited of this one, and at least one does run.
    fn do_agree(&self, who: usize, awaited: Awaited) -> bool {
        let mut others = 0usize;
        for observer in 0..self.places.len() {
            if observer == who || !self.is_up(observer) {
                continue;
            }
            let is_held = match (awaited, self.views.get(observer, who)) {
                (Awaited::Nothing, _) => true,
                (Awaited::Failure, view) => view == View::Confirm || view == View::Unknown,
                (Awaited::Life, view) => view == View::Alive,
            };
            if !is_held {
                return false;
            }
            others = others.saturating_add(1);
        }
        others > 0
    }

    /// Notes if all others agree on a member by now.
    fn compare(&mut self, now: u64, who: usize) {
        let awaited = self.measures.awaited(who);
        if awaited != Awaited::Nothing && self.do_agree(who, awaited) {
            self.measures.agree(who, now);
        }
    }

    /// Notes on whom all agree now that other members run than before.
    fn compare_all(&mut self, now: u64) {
        for who in 0..self.places.len() {
            self.compare(now, who);
        }
    }

    /// What the others hold of a member now.
    fn tally(&self, who: usize) -> Tally {
        let mut tally = Tally::none(self.is_up(who));
        for observer in 0..self.places.len() {
            if observer != who && self.is_up(observer) {
                match self.views.get(observer, who) {
                    View::Alive => count(&mut tally.alive),
                    View::Suspect => count(&mut tally.suspected),
                    View::Confirm => count(&mut tally.failed),
                    View::Unknown => {}
                }
                count(&mut tally.others);
            }
        }
        tally
    }

    /// Keeps what is held of each member now.
    pub(crate) fn sample(&mut self) -> Result<(), SimulateFault> {
        for who in 0..self.places.len() {
            let tally = self.tally(who);
            self.history.push(tally)?;
        }
        Ok(())
    }

    /// A member holds this of another, and nothing of those from a place up to it. Gives the place after it.
    pub(crate) fn see(&mut self, now: u64, observer: usize, from: usize, update: &Update) -> usize {
        let who = place_of(update.who);
        self.miss(now, observer, from, who.min(MEMBERS_MAX));
        self.mark(now, observer, who, View::from(update.kind));
        who.saturating_add(1)
    }

    /// A member holds nothing of those from this place to that one.
    pub(crate) fn miss(&mut self, now: u64, observer: usize, from: usize, to: usize) {
        for other in from..to {
            self.mark(now, observer, other, View::Unknown);
        }
    }

    /// A member that runs takes no part any more. Whether it ran.
    pub(crate) fn expel(&mut self, now: u64, who: usize) -> bool {
        match self.places.get_mut(who) {
            Some(place) if place.is_up => place.is_up = false,
            _ => return false,
        }
        count(&mut self.measures.counts.expelled);
        self.compare_all(now);
        true
    }

    /// Whether the counts of a member's rows are other ones than before.
    pub(crate) fn count_rows(&mut self, who: usize, rows: [usize; 3]) -> bool {
        let Some(place) = self.places.get_mut(who) else {
            return false;
        };
        let is_new = place.rows != rows;
        place.rows = rows;
        is_new
    }

    /// Whether a datagram says several things that a member does not hold: then its rows may change, and their counts not.
    pub(crate) fn may_hide(&self, out: &Out, to: usize) -> bool {
        let mut news = 0u32;
        for update in out.datagram.updates.as_slice() {
            if self.views.get(to, place_of(update.who)) != View::from(update.kind) {
                news = news.saturating_add(1);
            }
        }
        news > 1
    }

    /// What the clock of a member reads.
    fn clock(&self, who: usize) -> QuietClock {
        let ticks = self.places.get(who).map_or(0, |place| place.ticks);
        QuietClock {
            millis: ticks.saturating_mul(self.plan.get(PlanKey::TickMs)),
        }
    }

    /// Whom a member with this status joins now: its joiner has a turn.
    pub(crate) fn peer(&mut self, who: usize, status: &Status) -> Option<Endpoint> {
        let clock = self.clock(who);
        let asked = AskedMember::new(who, *status, &self.views);
        match self.joiners.get_mut(who) {
            Some(Some(joiner)) => turn(joiner, &clock, asked),
            _ => None,
        }
    }

    /// The order of a member's next turn list, which is drawn once in a period.
    pub(crate) fn deal_of(&mut self, who: usize) -> Deal {
        let Some(place) = self.places.get_mut(who) else {
            return Deal::from_first(0);
        };
        if place.until_deal == 0 {
            place.deal = self.dice.deal();
            place.until_deal = self.plan.get(PlanKey::Period);
        }
        place.until_deal -= 1;
        place.ticks = place.ticks.saturating_add(1);
        place.deal
    }

    /// How many hundredths of a tick the clock of a member goes on in a tick.
    fn rate(&self, who: usize) -> u64
        ensures value { result ≡ rate_of self.now.plan who }
        ensures high { result ≤ 1000 }
    {
        let odd = self.plan.get(PlanKey::OddClocks);
        let even = self.plan.get(PlanKey::Members).saturating_sub(odd);
        if even <= who as u64 {
            return self.plan.get(PlanKey::ClockRate);
        }
        100
    }

    /// How many ticks a member's clock makes now.
    pub(crate) fn beats(&mut self, who: usize, now: u64) -> u64
        ensures { result ≡ beats_of self.old.plan now who (slice_get self.old.places.items who) }
    {
        let rate = self.rate(who);
        match self.places.get_mut(who) {
            Some(place) if place.is_awake(now) => {
                let clock = place.clock as u64 + rate;
                place.clock = (clock % 100) as u32;
                clock / 100
            }
            _ => 0,
        }
    }

    /// What a crash leaves of what was not synced.
    pub(crate) fn choice(&mut self) -> Choice {
        let chance = u64::from(self.dice.word() % 100);
        let dropped = self.plan.get(PlanKey::Dropped);
        if chance < dropped {
            Choice::Drop
        } else if chance < dropped + self.plan.get(PlanKey::Filled) {
            Choice::Fill((self.dice.word() % 256) as u8)
        } else {
            Choice::Keep
        }
    }

    /// A member that is opened again has a new joiner.
    fn join_again(&mut self, who: usize, seat: &Seat) {
        let rng = self.dice.generator();
        if let Some(joiner) = self.joiners.get_mut(who) {
            *joiner = joiner_of(&self.plan, who, &seat.settings, rng);
        }
    }

    /// What a member does from its new beginning on is held against the law of detection.
    fn shadow_again(&mut self, who: usize, seat: &Seat) -> Result<(), SimulateFault> {
        let members = self.places.len();
        if let Some(shadow) = self.shadows.get_mut(who) {
            *shadow = shadow_of(*self.places.allocator(), seat, members)?;
        }
        Ok(())
    }

    /// A member that was killed is opened again. It knows nobody.
    pub(crate) fn open_again(
        &mut self,
        now: u64,
        who: usize,
        seat: &Seat,
    ) -> Result<(), SimulateFault> {
        self.measures.restart(who, now);
        for other in 0..self.places.len() {
            let _ = self.views.set(who, other, View::Unknown);
        }
        self.shadow_again(who, seat)?;
        self.join_again(who, seat);
        if let Some(place) = self.places.get_mut(who) {
            *place = MemberPlace::new(0);
            place.begins = None;
            place.is_up = true;
        }
        self.compare_all(now);
        Ok(())
    }

    /// A member begins, if it is time: whether it was killed before. One that was does not run yet.
    pub(crate) fn begin(&mut self, now: u64, who: usize) -> Option<bool> {
        let was_killed = self.measures.was_killed(who);
        match self.places.get_mut(who) {
            Some(place) if place.begins == Some(now) => {
                place.begins = None;
                place.is_up = !was_killed;
                Some(was_killed)
            }
            _ => None,
        }
    }

    /// One of the members that run, if there is any.
    fn drawn_up(&mut self) -> Option<usize> {
        let up = self.places.iter().filter(|place| place.is_up).count();
        if up == 0 {
            return None;
        }
        let mut left = self.dice.below(up);
        for (who, place) in self.places.iter().enumerate() {
            if place.is_up {
                if left == 0 {
                    return Some(who);
                }
                left -= 1;
            }
        }
        None
    }

    /// A member that runs is killed, if it is time. It is opened again later, if the plan says so.
    pub(crate) fn kill(&mut self, now: u64) -> Result<(), SimulateFault> {
        if self.kills >= self.plan.get(PlanKey::Kills) || now < self.plan.kill_tick(self.kills) {
            return Ok(());
        }
        self.kills += 1;
        let after = self.plan.get(PlanKey::RestartAfter);
        let Some(who) = self.drawn_up() else {
            return Ok(());
        };
        if let Some(place) = self.places.get_mut(who) {
            place.is_up = false;
            place.begins = match after {
                0 => None,
                _ => Some(now.saturating_add(after)),
            };
        }
        let held = self.tally(who);
        self.measures.kill(who, now, &held)?;
        self.compare_all(now);
        Ok(())
    }

    /// A member that runs is paused, if it is time.
    pub(crate) fn pause(&mut self, now: u64) {
        if self.pauses >= self.plan.get(PlanKey::Pauses)
            || now < self.plan.pause_tick(self.pauses)
        {
            return;
        }
        self.pauses += 1;
        let until = now.saturating_add(self.plan.get(PlanKey::PauseFor));
        if let Some(who) = self.drawn_up() {
            count(&mut self.measures.counts.pauses);
            if let Some(place) = self.places.get_mut(who) {
                place.sleeps_until = until;
            }
        }
    }
}
