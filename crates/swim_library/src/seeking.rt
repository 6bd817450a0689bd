//! Who looks for the members of the group: the joiner that `swim run` has, by the program's clock.

ghost use Rattle.std.specs.Prelude.{◌≡◌, ◌≢◌, [], None, Some, false, true, map, IfOk, IfErr, IsOk, OnErr, OnOk};
ghost use Rattle.std.specs.Duration.{as_nanos};
ghost use Rattle.swim_library.specs.Codes.{CLOSED, OK, code_of_fault};
ghost use Rattle.swim_library.specs.Holding.{HandleBecomes, held};
ghost use Rattle.swim_library.specs.Outbox.{waiting_in};
ghost use Rattle.swim_library.specs.Seeking.{HasJoiner, IsMoment, DoesTask, HasNoTurn, IsTimeAfter, LacksForTask, Seeks, SeeksInVain, SeeksPeers, SeesRows, TakesSeeds, TakesTurn, TurnsInVain, ms_after, next_turn, seeds_fault};
ghost use Rattle.swim_library.specs.Shapes.{number_of_endpoint};
ghost use Rattle.swim_library.specs.declared.refusal.Refusal.TheVariants as why;
ghost use Rattle.swim_member.specs.Checks.{AreSound};
ghost use Rattle.swim_join.specs.Turns.{due_in, joined_drawn, joined_listed, turning};
ghost use Rattle.swim_join.specs.declared.joiner.Due.TheVariants.{Drawn, Listed, Look, Nothing};

use crate::handle::{SwimMember, put, take};
use crate::pacing::TICK_MS;
use crate::refusal::{Refusal, code};
use crate::running::Running;
use crate::shapes::SwimEndpoint;
use arrayvec::ArrayVec;
use rand_chacha::ChaCha20Rng;
use rand_core::SeedableRng;
use std::time::{Duration, Instant};
use swim_join::{Due, Intervals, Joiner, LIST_MAX, Moment};
use swim_member::{Event, Settings};
use swim_news::Rows;
use swim_shell::{QuietClock, is_alone};
use swim_start::peers_of;
use swim_state::PEERS_MAX;
use swim_wire::{Endpoint, Rules};

/// To how many others a member introduces itself, as `swim run` does by default.
const INTRODUCE: u32 = 64;

/// From one join of a drawn member to the next, in ticks, as `swim run` has it by default.
const REJOIN: u64 = 300;

/// The joiner tells nobody. The program's clock is told with each call.
const QUIET: QuietClock = QuietClock { millis: 0 };

/// Who looks for the members of the group.
#[derive(Drop)]
pub(crate) struct Seeking {
    pub(crate) me: Endpoint,
    rules: Rules,
    intervals: Intervals,
    /// When the program's clock, of which each call is told the milliseconds, was 0.
    began: Option<Instant>,
    /// Whom the member joins and when; none before it was told of seeds.
    joiner: Option<Joiner>,
}

/// The time so many milliseconds after this one.
fn time_after(began: Option<Instant>, ms: u64) -> Option<Instant>
    ensures { IsTimeAfter began ms result }
{
    match began {
        None => None,
        Some(began) => began.checked_add(Duration::from_millis(ms)),
    }
}

/// The first millisecond at which so much time has passed.
fn ms_after(now: u64, rest: Duration) -> u64
    ensures { result ≡ ms_after now (as_nanos rest) }
{
    match u64::try_from(rest.as_millis()) {
        Ok(ms) => now.saturating_add(ms).saturating_add(1),
        Err(_) => u64::MAX,
    }
}

impl Seeking {
    /// That of a member with these settings, which was told of no seeds.
    pub(crate) fn of(settings: &Settings) -> Seeking
        requires { AreSound settings.now }
        ensures { result.joiner ≡ None }
    {
        Seeking {
            me: settings.me,
            rules: settings.rules_of(),
            intervals: Intervals::of(settings, INTRODUCE, REJOIN, TICK_MS),
            began: Instant::now(&QUIET).ok(),
            joiner: None,
        }
    }

    /// These are the peers to be joined from now on. The first time the word begins what draws others.
    pub(crate) fn join_from_now_on(&mut self, peers: ArrayVec<Endpoint, LIST_MAX>, random: u64)
        ensures { SeeksPeers peers.items random self.old self.new }
    {
        match &mut self.joiner {
            Some(joiner) => joiner.relist(peers, self.intervals),
            None => {
                let rng = ChaCha20Rng::seed_from_u64(random);
                self.joiner = Some(Joiner::new(self.me, self.rules, peers, self.intervals, rng));
            }
        }
    }

    /// A turn of the joiner begins. Gives what it is to do.
    fn begin_turn(&mut self, at: Moment) -> Due
        ensures due { (j : _) → self.old.joiner ≡ Some j → result ≡ due_in j at }
        ensures then { (j : _) → self.old.joiner ≡ Some j
            → self.new ≡ record self.old { joiner = Some (turning j at) } }
        ensures none { self.old.joiner ≡ None → self.new ≡ self.old }
    {
        match &mut self.joiner {
            Some(joiner) => joiner.begin_turn(at),
            None => Due::Nothing,
        }
    }

    /// The peer of the list was joined.
    fn note_listed(&mut self, at: Moment)
        ensures { (j : _) → self.old.joiner ≡ Some j
            → self.new ≡ record self.old { joiner = Some (joined_listed at.now j) } }
    {
        if let Some(joiner) = &mut self.joiner {
            joiner.note_listed(&QUIET, at.now);
        }
    }

    /// The drawn member was joined.
    fn note_drawn(&mut self, at: Moment)
        ensures { (j : _) → self.old.joiner ≡ Some j
            → self.new ≡ record self.old { joiner = Some (joined_drawn at.now j) } }
    {
        if let Some(joiner) = &mut self.joiner {
            joiner.note_drawn(at.now);
        }
    }

    /// These are all rows.
    fn see(&mut self, at: Moment, rows: Rows)
        ensures { (j : _) → self.old.joiner ≡ Some j
            → SeesRows at rows j self.old self.new }
    {
        if let Some(joiner) = &mut self.joiner {
            joiner.see(&QUIET, at, rows);
        }
    }

    /// Whether the program named seeds.
    fn has_seeds(&self) -> bool
        ensures none { result ≡ false → self.now.joiner ≡ None }
        ensures some { result ≡ true → self.now.joiner ≢ None }
    {
        match &self.joiner {
            None => false,
            Some(_) => true,
        }
    }

    /// When the joiner wants its next turn, if the next tick is due then.
    fn next_turn(&self, now: u64, due: u64) -> u64
        ensures wanted { (j : _) → self.now.joiner ≡ Some j → result ≡ next_turn j now due }
        ensures none { self.now.joiner ≡ None → result ≡ due }
    {
        match &self.joiner {
            None => due,
            Some(joiner) if joiner.is_join_due() => now,
            Some(joiner) => due.min(ms_after(now, joiner.idle_rest())),
        }
    }
}

/// The members at these endpoints.
fn named_by(seeds: &[SwimEndpoint]) -> Result<ArrayVec<Endpoint, PEERS_MAX>, Refusal>
    ensures all { IfOk result (λ peers. peers.items ≡ map number_of_endpoint seeds.now) }
    ensures sound { OnOk result (seeds_fault seeds.now ≡ None) }
    ensures refused { IfErr result (λ refusal. seeds_fault seeds.now ≡ Some refusal) }
{
    if seeds.len() > PEERS_MAX {
        return Err(Refusal::TooMany);
    }
    let mut peers = ArrayVec::new();
    for seed in seeds {
        match seed.endpoint() {
            None => return Err(Refusal::NoEndpoint),
            Some(peer) => peers.push(peer),
        }
    }
    Ok(peers)
}

impl Running {
    /// Whom the program was told of: its joiner joins them, and those that the state file stored, from now on.
    fn take_seeds(&mut self, seeds: &[SwimEndpoint], random: u64) -> Result<(), Refusal>
        ensures sound { OnOk result (seeds_fault seeds.now ≡ None) }
        ensures taken { OnOk result (TakesSeeds seeds.now random self.old self.new) }
        ensures refused { IfErr result (λ refusal. seeds_fault seeds.now ≡ Some refusal) }
        ensures same { OnErr result (self.new ≡ self.old) }
    {
        let seeds = named_by(seeds)?;
        let stored = self.node.peers();
        let peers = peers_of(self.seeking.me, seeds.as_slice(), stored.as_slice());
        self.seeking.join_from_now_on(peers, random);
        Ok(())
    }

    /// What a turn of its joiner goes by.
    fn moment(&self, now: u64) -> Moment
        ensures { IsMoment self.now now result }
    {
        Moment {
            now: time_after(self.seeking.began, now),
            is_alone: is_alone(Some(self.node.status())),
            failed: self.node.status().confirmed,
            is_shown: false,
        }
    }

    /// Joins the peer of the list.
    fn join_listed(&mut self, at: Moment, peer: Endpoint) -> Result<(), Refusal>
        requires { waiting_in self.old.outbox ≡ [] }
        ensures does { OnOk result ((j : _) → self.old.seeking.joiner ≡ Some j
            → DoesTask (Listed peer) j at self.old self.new) }
        ensures refused { IfErr result (λ refusal. refusal ≡ why.NoMemory) }
        ensures lacks { OnErr result (LacksForTask self.old self.new) }
    {
        match self.enter(Some(&Event::Join { peer })) {
            Ok(()) => {
                self.seeking.note_listed(at);
                Ok(())
            }
            Err(refusal) => Err(refusal),
        }
    }

    /// Joins the drawn member.
    fn join_drawn(&mut self, at: Moment, peer: Endpoint) -> Result<(), Refusal>
        requires { waiting_in self.old.outbox ≡ [] }
        ensures does { OnOk result ((j : _) → self.old.seeking.joiner ≡ Some j
            → DoesTask (Drawn peer) j at self.old self.new) }
        ensures refused { IfErr result (λ refusal. refusal ≡ why.NoMemory) }
        ensures lacks { OnErr result (LacksForTask self.old self.new) }
    {
        match self.enter(Some(&Event::Join { peer })) {
            Ok(()) => {
                self.seeking.note_drawn(at);
                Ok(())
            }
            Err(refusal) => Err(refusal),
        }
    }

    /// Reads all rows, and has a member drawn from them, if that is due.
    fn look_round(&mut self, at: Moment) -> Result<(), Refusal>
        ensures does { OnOk result ((j : _) → self.old.seeking.joiner ≡ Some j
            → DoesTask Look j at self.old self.new) }
        ensures refused { IfErr result (λ refusal. refusal ≡ why.NoMemory) }
        ensures lacks { OnErr result (LacksForTask self.old self.new) }
    {
        let rows = self.read_rows()?;
        self.seeking.see(at, rows);
        Ok(())
    }

    /// Nothing is due.
    fn do_nothing(&mut self, at: Moment)
        ensures { (j : _) → self.old.seeking.joiner ≡ Some j
            → DoesTask Nothing j at self.old self.new }
    {
        let _ = at;
    }

    /// A turn of its joiner begins. Gives what it is to do.
    fn begin_turn(&mut self, at: Moment) -> Due
        ensures due { (j : _) → self.old.seeking.joiner ≡ Some j → result ≡ due_in j at }
        ensures begins { (j : _) → self.old.seeking.joiner ≡ Some j
            → HasJoiner self.old self.new (turning j at) }
        ensures outbox { self.new.outbox ≡ self.old.outbox }
    {
        self.seeking.begin_turn(at)
    }

    /// Does what is due in a turn of its joiner. Where memory is short for it, it is due at the next turn too.
    fn do_due(&mut self, at: Moment, due: Due) -> Result<(), Refusal>
        requires { waiting_in self.old.outbox ≡ [] }
        ensures does { OnOk result ((j : _) → self.old.seeking.joiner ≡ Some j
            → DoesTask due j at self.old self.new) }
        ensures refused { IfErr result (λ refusal. refusal ≡ why.NoMemory) }
        ensures lacks { OnErr result (LacksForTask self.old self.new) }
    {
        match due {
            Due::Listed(peer) => self.join_listed(at, peer),
            Due::Drawn(peer) => self.join_drawn(at, peer),
            Due::Look => self.look_round(at),
            Due::Nothing => {
                self.do_nothing(at);
                Ok(())
            }
        }
    }

    /// Its joiner has a turn. Gives when the program is to call again, if the next tick is due then.
    fn take_turn(&mut self, now: u64, due: u64) -> Result<u64, Refusal>
        requires { waiting_in self.old.outbox ≡ [] }
        ensures turns { IfOk result (λ next. (j : _) → self.old.seeking.joiner ≡ Some j
            → TakesTurn j self.old self.new now due next) }
        ensures refused { IfErr result (λ refusal. refusal ≡ why.NoMemory) }
        ensures in_vain { OnErr result ((j : _) → self.old.seeking.joiner ≡ Some j
            → TurnsInVain j self.old self.new now) }
    {
        let at = self.moment(now);
        let task = self.begin_turn(at);
        match self.do_due(at, task) {
            Ok(()) => Ok(self.seeking.next_turn(now, due)),
            Err(refusal) => Err(refusal),
        }
    }

    /// Its joiner has a turn, once nothing waits. Gives when the program is to call again, if the next tick is due then.
    #[tactic(auto, using(crate::proofs::Turning::had_turn, crate::proofs::Turning::had_turn_in_vain))]
    pub(crate) fn seek(&mut self, now: u64, due: u64) -> Result<u64, Refusal>
        ensures seeks { IfOk result (Seeks self.old self.new now due) }
        ensures refused { IfErr result (λ refusal. refusal ≡ why.NoMemory) }
        ensures in_vain { OnErr result (SeeksInVain self.old self.new now) }
        ensures none { HasNoTurn self.old → IsOk result }
    {
        if !self.seeking.has_seeds() {
            return Ok(due);
        }
        if !self.outbox.is_empty() {
            return Ok(now);
        }
        self.take_turn(now, due)
    }
}

/// Whom the program was told of: the member joins them, and those that the state file stored, from now on.
#[unsafe(no_mangle)]
pub extern "C" fn swim_library_seeds(
    member: &mut SwimMember,
    seeds: &[SwimEndpoint],
    random: u64,
) -> u32
    ensures taken { result ≡ OK → HandleBecomes member.old member.new
        (λ before after. TakesSeeds seeds.now random before after) }
    ensures refused { result ≢ OK → held member.new ≡ held member.old }
    ensures says { held member.old ≢ None → result ≡ code_of_fault (seeds_fault seeds.now) }
    ensures closed { held member.old ≡ None → result ≡ CLOSED }
{
    match take(member) {
        None => code(Err(Refusal::Closed)),
        Some(mut running) => {
            let done = running.take_seeds(seeds, random);
            put(member, running);
            code(done)
        }
    }
}
