//! A run: a group of real nodes, a clock in ticks, and the network between them.

ghost use Rattle.std.specs.Prelude.{◌≡◌, ◌+◌, ◌-◌, ◌<◌, ◌^◌, ◌++◌, ◌∷◌, [], None, slice_get, IfOk, OnOk};
ghost use Rattle.swim_group.specs.RealNodes.{HasSoundNodeRun};
ghost use Rattle.swim_plan.specs.declared.key.PlanKey.TheVariants.{Members};
ghost use Rattle.swim_simulate.specs.declared.handed.Handed.TheVariants.{Tick, Datagram};
ghost use Rattle.swim_simulate.specs.Laws.{IsLawful};
ghost use Rattle.swim_plan.specs.Plan.{number_at, tick_count};
ghost use Rattle.swim_simulate.specs.Running.{HandsNothing, arrival_at, arrival_by, beats_of, round, rounds, ticks_to};

use crate::dice::Dice;
use crate::fault::SimulateFault;
use crate::flight::Flight;
use crate::handed::{Clock, Handed};
use crate::law::LawBreak;
use crate::measures::{Measures, count};
use crate::place::{MemberPlace, place_of, settings_of};
use crate::scene::{Scene, joiners_of, shadows_of};
use crate::script::{Given, Script};
use crate::views::GroupViews;
use crate::watched::WatchedNodes;
use std::alloc::Global;
use swim_charts::Tally;
use swim_group::{Failure, Nodes, NodesFault};
use swim_member::{Event, Phase};
use swim_node::{Save, Status};
use swim_plan::{Plan, PlanKey};
use swim_trace::Trace;
use swim_wire::{Cursor, Endpoint, UPDATES_MAX, Update};

/// The most pages of rows that a member has.
const PAGES_MAX: usize = 10;

/// A run: its nodes, and what there is beside them.
#[derive(Drop)]
pub(crate) struct Run {
    watched: WatchedNodes,
    scene: Scene,
}

impl Run {
    /// A group that did nothing yet.
    pub(crate) fn new(alloc: Global, plan: &Plan, seed: u64) -> Result<Run, SimulateFault>
        ensures now { IfOk result (λ run. run.watched.tick ≡ 0) }
        ensures clocks { IfOk result (λ run. run.watched.clocks ≡ []) }
    {
        let members = plan.get(PlanKey::Members) as usize;
        let mut dice = Dice::new(seed);
        let mut settings = Vec::new(alloc);
        let mut places = Vec::new(alloc);
        for place in 0..members {
            settings.push(settings_of(plan, place))?;
            let begins = dice.below(plan.get(PlanKey::BeginWithin) as usize);
            places.push(MemberPlace::new(begins as u64))?;
        }
        let limit = plan.get(PlanKey::Limit) as u32;
        let watched = WatchedNodes::new(alloc, settings.as_slice(), limit)?;
        let shadows = shadows_of(alloc, watched.nodes().seats())?;
        let joiners = joiners_of(alloc, plan, &mut dice, watched.nodes().seats())?;
        let scene = Scene {
            plan: *plan,
            dice,
            flights: Vec::new(alloc),
            places,
            shadows,
            joiners,
            views: GroupViews::new(alloc, members)?,
            measures: Measures::new(alloc),
            history: Vec::new(alloc),
            script: Script::none(alloc),
            kills: 0,
            pauses: 0,
        };
        Ok(Run { watched, scene })
    }

    /// What is left of the run.
    fn done(self) -> Done
        ensures run { HasSoundNodeRun result.nodes }
        ensures lawful { IsLawful result.stop }
        ensures stop { result.stop ≡ self.watched.law.stop }
        ensures ticks { result.ticks ≡ self.watched.tick }
        ensures clocks { result.clocks ≡ self.watched.clocks }
        ensures handed { result.handed ≡ self.watched.handed }
    {
        let ticks = self.watched.now();
        let stop = self.watched.stop();
        let (mut nodes, clocks, handed) = self.watched.done();
        // there is no such datagram, so nothing changes
        let _ = nodes.lose(usize::MAX);
        let scene = self.scene;
        Done {
            nodes,
            measures: scene.measures,
            history: scene.history,
            stop,
            ticks,
            clocks,
            handed,
        }
    }

    /// What became of a member's ceiling at its last event.
    fn last_save(&self, who: usize) -> Save {
        match self.watched.nodes().seats().get(who) {
            Some(seat) => match &seat.node {
                Some(node) if node.len() > 0 => node.last().save,
                _ => Save::Kept,
            },
            None => Save::Kept,
        }
    }

    /// Draws whether the next save of a member fails.
    fn draw_save(&mut self, who: usize) -> Result<(), SimulateFault>
        ensures { OnOk result (HandsNothing self.old.watched self.new.watched) }
    {
        if !self.scene.draws_failure() {
            return Ok(());
        }
        self.watched.plan_failure(who, Failure::Sync(1))?;
        self.scene.script.note(who, Given::FailingSync)?;
        Ok(())
    }

    /// A save of a member is counted, if there was one.
    fn note_save(&mut self, who: usize) -> Result<(), SimulateFault>
        ensures { OnOk result (HandsNothing self.old.watched self.new.watched) }
    {
        let save = self.last_save(who);
        if !self.scene.count_save(save) {
            return Ok(());
        }
        self.draw_save(who)
    }

    /// What a member did last is held against the law of detection.
    fn follow(&mut self, who: usize) -> Result<(), SimulateFault>
        ensures { OnOk result (HandsNothing self.old.watched self.new.watched) }
    {
        let Some(seat) = self.watched.nodes().seats().get(who) else {
            return Ok(());
        };
        let sender = seat.settings.me;
        let Some((update, lapse)) = self.scene.follow(who, seat)? else {
            return Ok(());
        };
        self.watched.note(sender, update, lapse);
        Ok(())
    }

    /// The era of a member ends where it is full.
    fn end_full(&mut self, who: usize, status: &Status) -> Result<(), SimulateFault>
        ensures { OnOk result (HandsNothing self.old.watched self.new.watched) }
    {
        if (status.length as u64) < self.scene.plan.get(PlanKey::Limit) {
            return Ok(());
        }
        self.watched.end_era(who)?;
        self.scene.script.note(who, Given::Era)?;
        Ok(())
    }

    /// What a member did goes into the network and the counts.
    fn settle(&mut self, who: usize, status: &Status) -> Result<(), SimulateFault>
        ensures { OnOk result (HandsNothing self.old.watched self.new.watched) }
    {
        self.follow(who)?;
        self.note_save(who)?;
        let now = self.watched.now();
        self.scene.send(now, who, self.watched.nodes().kept())?;
        self.end_full(who, status)
    }

    /// The rows of a page are seen. Gives the place after the last, which is that in the first argument if there is none.
    fn see(&mut self, observer: usize, from: usize, page: &[Update]) -> usize
        ensures { self.new.watched ≡ self.old.watched }
    {
        let now = self.watched.now();
        let mut next = from;
        for update in page {
            next = self.scene.see(now, observer, next, update);
        }
        next
    }

    /// A member shows all its rows.
    fn read_rows(&mut self, observer: usize) -> Result<(), SimulateFault>
        ensures { OnOk result (HandsNothing self.old.watched self.new.watched) }
    {
        let mut after = Cursor::zero();
        let mut next = 0;
        for _ in 0..PAGES_MAX {
            let reply = self.watched.rows(observer, after)?;
            self.settle(observer, &reply.status)?;
            next = self.see(observer, next, reply.page.as_slice());
            match reply.page.last() {
                Some(last) if reply.page.len() == UPDATES_MAX => after = Cursor::at(last.who),
                _ => break,
            }
        }
        let members = self.scene.places.len();
        self.scene.miss(self.watched.now(), observer, next, members);
        Ok(())
    }

    /// What changed of a member's rows is seen.
    fn look(&mut self, who: usize, status: &Status, is_hidden: bool) -> Result<(), SimulateFault>
        ensures { OnOk result (HandsNothing self.old.watched self.new.watched) }
    {
        let now = self.watched.now();
        if status.phase != Phase::Running && self.scene.expel(now, who) {
            return Ok(());
        }
        let rows = [status.alive, status.suspect, status.confirmed];
        if !self.scene.count_rows(who, rows) && !is_hidden {
            return Ok(());
        }
        self.read_rows(who)
    }

    /// The datagram that is kept in this place comes to a member that hears it.
    fn receive(&mut self, index: usize, to: usize) -> Result<(), SimulateFault>
        ensures now { OnOk result (self.new.watched.tick ≡ self.old.watched.tick) }
        ensures clocks { OnOk result (self.new.watched.clocks ≡ self.old.watched.clocks) }
        ensures handed { OnOk result (self.new.watched.handed ≡ self.old.watched.handed
            ++ Datagram self.old.watched.tick to index ∷ []) }
    {
        count(&mut self.scene.measures.counts.came);
        let mut is_hidden = false;
        if let Some(out) = self.watched.nodes().kept().get(index) {
            self.scene.script.note(to, Given::Datagram(&out.datagram))?;
            is_hidden = self.scene.may_hide(out, to);
        }
        let reply = self.watched.deliver(to, index)?;
        self.settle(to, &reply.status)?;
        self.look(to, &reply.status, is_hidden)
    }

    /// The datagram that is kept in this place is over once it is due, or comes once more.
    fn clear(&mut self, index: usize, flight: &Flight) -> Result<(), SimulateFault>
        ensures { OnOk result (HandsNothing self.old.watched self.new.watched) }
    {
        let now = self.watched.now();
        if now < flight.due {
            return Ok(());
        }
        if let Some(delay) = flight.again {
            self.scene.repeat(now, index, delay);
            return Ok(());
        }
        self.watched.lose(index)?;
        self.scene.forget(index);
        Ok(())
    }

    /// The datagram that is kept in this place comes, if its flight says so.
    fn arrive_by(&mut self, index: usize, flight: &Flight) -> Result<(), SimulateFault>
        ensures now { OnOk result (self.new.watched.tick ≡ self.old.watched.tick) }
        ensures clocks { OnOk result (self.new.watched.clocks ≡ self.old.watched.clocks) }
        ensures handed { OnOk result (self.new.watched.handed ≡ self.old.watched.handed
            ++ arrival_by self.old.watched.tick index self.old.scene.places.items flight.now) }
    {
        if !self.scene.comes(flight, self.watched.now()) {
            return self.clear(index, flight);
        }
        self.receive(index, flight.to)?;
        self.clear(index, flight)
    }

    /// What is due of the datagram that is kept in this place.
    fn arrive(&mut self, index: usize) -> Result<(), SimulateFault>
        ensures now { OnOk result (self.new.watched.tick ≡ self.old.watched.tick) }
        ensures clocks { OnOk result (self.new.watched.clocks ≡ self.old.watched.clocks) }
        // it comes to the member of its flight, if that is due and not lost
        ensures handed { OnOk result (self.new.watched.handed ≡ self.old.watched.handed
            ++ arrival_at self.old.watched.tick index self.old.scene.places.items
            (slice_get self.old.scene.flights.items index)) }
    {
        match self.scene.flight_at(index) {
            Some(flight) => self.arrive_by(index, &flight),
            None => Ok(()),
        }
    }

    /// A member with this status joins another, if it is time.
    fn join(&mut self, who: usize, status: &Status) -> Result<(), SimulateFault>
        ensures { OnOk result (HandsNothing self.old.watched self.new.watched) }
    {
        let Some(peer) = self.scene.peer(who, status) else {
            return Ok(());
        };
        self.scene
            .script
            .note(who, Given::Event(&Event::Join { peer }))?;
        let reply = self.watched.join(who, peer)?;
        self.settle(who, &reply.status)?;
        self.look(who, &reply.status, false)
    }

    /// A tick of a member's own clock.
    fn tick(&mut self, who: usize) -> Result<(), SimulateFault>
        ensures now { OnOk result (self.new.watched.tick ≡ self.old.watched.tick) }
        ensures clocks { OnOk result (self.new.watched.clocks ≡ self.old.watched.clocks) }
        ensures handed { OnOk result (self.new.watched.handed ≡ self.old.watched.handed
            ++ Tick self.old.watched.tick who ∷ []) }
    {
        let deal = self.scene.deal_of(who);
        count(&mut self.scene.measures.counts.ticks);
        self.scene
            .script
            .note(who, Given::Event(&Event::Tick { deal }))?;
        let reply = self.watched.tick(who, deal)?;
        self.settle(who, &reply.status)?;
        self.look(who, &reply.status, false)?;
        self.join(who, &reply.status)
    }

    /// A member that was killed is opened again. It knows nobody.
    fn restart(&mut self, who: usize) -> Result<(), SimulateFault>
        ensures { OnOk result (HandsNothing self.old.watched self.new.watched) }
    {
        let choice = self.scene.choice();
        self.scene.script.note(who, Given::Crash(choice))?;
        match self.watched.crash(who, choice) {
            Ok(()) => {}
            Err(NodesFault::NotOpened(_)) => {
                count(&mut self.scene.measures.counts.gone);
                return Ok(());
            }
            Err(fault) => return Err(SimulateFault::from(fault)),
        }
        let now = self.watched.now();
        match self.watched.nodes().seats().get(who) {
            Some(seat) => self.scene.open_again(now, who, seat),
            None => Ok(()),
        }
    }

    /// A member begins for the first time, or again.
    fn begin_now(&mut self, who: usize, was_killed: bool) -> Result<(), SimulateFault>
        ensures { OnOk result (HandsNothing self.old.watched self.new.watched) }
    {
        if was_killed {
            return self.restart(who);
        }
        Ok(())
    }

    /// A member begins, if it is time.
    fn begin(&mut self, who: usize) -> Result<(), SimulateFault>
        ensures { OnOk result (HandsNothing self.old.watched self.new.watched) }
    {
        let Some(was_killed) = self.scene.begin(self.watched.now(), who) else {
            return Ok(());
        };
        self.begin_now(who, was_killed)?;
        if self.scene.is_up(who) {
            return self.draw_save(who);
        }
        Ok(())
    }

    /// The clock of a member goes on, and makes as many ticks as are due.
    fn beat(&mut self, who: usize) -> Result<(), SimulateFault>
        ensures now { OnOk result (self.new.watched.tick ≡ self.old.watched.tick) }
        ensures clocks { OnOk result (self.new.watched.clocks ≡ self.old.watched.clocks
            ++ record { tick = self.old.watched.tick; who = who } ∷ []) }
        ensures handed { OnOk result (self.new.watched.handed ≡ self.old.watched.handed
            ++ ticks_to self.old.watched.tick who
            (beats_of self.old.scene.plan self.old.watched.tick who
            (slice_get self.old.scene.places.items who))) }
    {
        self.watched.go_on(who);
        for _ in 0..self.scene.beats(who, self.watched.now()) {
            self.tick(who)?;
        }
        Ok(())
    }

    /// The datagrams that are due come.
    fn arrive_all(&mut self) -> Result<(), SimulateFault>
        ensures now { OnOk result (self.new.watched.tick ≡ self.old.watched.tick) }
        ensures clocks { OnOk result (self.new.watched.clocks ≡ self.old.watched.clocks) }
    {
        for index in (0..self.scene.flights.len()).rev() {
            self.arrive(index)?;
        }
        Ok(())
    }

    /// The clocks of so many members go on. Who is to begin begins.
    fn beat_all(&mut self, members: usize) -> Result<(), SimulateFault>
        ensures now { OnOk result (self.new.watched.tick ≡ self.old.watched.tick) }
        ensures clocks { OnOk result (self.new.watched.clocks
            ≡ self.old.watched.clocks ++ round self.old.watched.tick members) }
    {
        for who in 0..members {
            self.begin(who)?;
            self.beat(who)?;
        }
        Ok(())
    }

    /// A tick of a group of so many members.
    fn turn(&mut self, members: usize) -> Result<(), SimulateFault>
        requires { self.old.watched.tick < 2 ^ 64 - 1 }
        ensures now { OnOk result (self.new.watched.tick ≡ self.old.watched.tick + 1) }
        ensures clocks { OnOk result (self.new.watched.clocks
            ≡ self.old.watched.clocks ++ round self.old.watched.tick members) }
    {
        let now = self.watched.now();
        self.scene.kill(now)?;
        self.scene.pause(now);
        self.arrive_all()?;
        self.beat_all(members)?;
        self.watched.pass();
        Ok(())
    }
}

/// What is left of a run.
#[derive(Drop)]
pub struct Done {
    /// The nodes.
    pub nodes: Nodes,
    /// What was measured.
    pub measures: Measures,
    /// What was held of each member, moment by moment, and of each moment member by member.
    pub history: Vec<Tally>,
    /// Where the run broke the law of detection, if it did: then it went no further.
    pub stop: Option<LawBreak>,
    /// How many ticks of the group were simulated.
    pub ticks: u64,
    /// Which clocks went on in which tick.
    pub clocks: Trace<Clock>,
    /// What came to which node in which tick.
    pub handed: Trace<Handed>,
}

/// Whether a moment ends with this tick: so many moments part the ticks evenly.
fn ends_moment(tick: u64, ticks: u64, moments: u64) -> bool {
    let before = tick.saturating_mul(moments).checked_div(ticks);
    let after = tick
        .saturating_add(1)
        .saturating_mul(moments)
        .checked_div(ticks);
    before != after
}

/// Runs a group by a plan and a seed. What is held of each member is kept at so many moments.
pub fn simulate(alloc: Global, plan: &Plan, seed: u64, moments: u64) -> Result<Done, SimulateFault>
    // the nodes are those of a run in which nothing is invented and no number is passed
    ensures run { IfOk result (λ done. HasSoundNodeRun done.nodes) }
    // no datagram that they sent broke the law of a group
    ensures lawful { IfOk result (λ done. IsLawful done.stop) }
    // as many ticks were simulated as the plan says, if no law was broken
    ensures ticks { IfOk result (λ done. done.stop ≡ None → done.ticks ≡ tick_count plan.now) }
    // and in each of them the clock of each member went on
    ensures clocks { IfOk result (λ done.
        done.clocks ≡ rounds (number_at Members plan.now) done.ticks) }
{
    let mut run = Run::new(alloc, plan, seed)?;
    let members = plan.get(PlanKey::Members) as usize;
    let ticks = plan.ticks();
    for tick in 0..ticks {
        run.turn(members)?;
        if run.watched.stop().is_some() {
            break;
        }
        if ends_moment(tick, ticks, moments) {
            run.scene.sample()?;
        }
    }
    Ok(run.done())
}

/// What a member was given in the run by a plan and a seed, to the end of a tick, as a script of `swim play`, and what it
/// sent.
pub fn script_of(
    alloc: Global,
    plan: &Plan,
    seed: u64,
    member: Endpoint,
    tick: u64,
) -> Result<Script, SimulateFault> {
    let mut run = Run::new(alloc, plan, seed)?;
    run.scene.script = Script::begin(alloc, plan, place_of(member))?;
    let members = plan.get(PlanKey::Members) as usize;
    for _ in 0..plan.ticks().min(tick.saturating_add(1)) {
        run.turn(members)?;
    }
    let scene = run.scene;
    Ok(scene.script)
}
