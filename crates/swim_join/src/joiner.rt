//! The worker that joins, and logs the news of members.

ghost use Rattle.std.specs.Prelude.{◌≡◌, ◌⊎◌, ◌↔◌, [], ℕ, Some, None, true, false};
ghost use Rattle.std.specs.Prelude.{is_some, IsTrue, IfSome, IfOk, IfErr, OnOk, OnErr, length};
ghost use Rattle.std.specs.Duration.{as_nanos};
ghost use Rattle.std.specs.Option.{option_map};
ghost use Rattle.swim_member.specs.declared.event.Event.TheVariants.{Join};
ghost use Rattle.swim_shell.specs.Calls.{Refuses};
ghost use Rattle.swim_join.specs.Introductions.{introductions_of};
ghost use Rattle.swim_join.specs.Joins.{Asks, AsksInVain, IsDrawnFrom, IsFindable, IsNext, IsRelisted, LooksAll, LooksInVain, chosen, may_ask, next_draw};
ghost use Rattle.swim_join.specs.Silences.{heard_nobody};
ghost use Rattle.swim_join.specs.Turns.{DoesTurn, DoesTurnInVain, JoinsPeer, LooksRound, LooksRoundInVain, TellsDue, Turned, TurnedInVain, after_draw, after_look, are_news_due, awaits_answer, draw_rest, drawn_for, drawn_now, drawn_sought, due_in, due_peer, due_rest, idle_rest, introduced, is_draw_due, is_introducing, is_look_due, is_one_back, is_searching, joined_drawn, joined_listed, list_turn, told_missing, turning, with_answer, with_draw, with_introduction, with_one, with_search, with_start};
ghost use Rattle.swim_join.specs.declared.joiner.Due.TheVariants.{Listed, Drawn};

use crate::draw::{draw, next_draw};
use crate::intervals::{EARLY_JOINS, Intervals, Moment, failed_shown, has_passed};
use crate::introductions::Introductions;
use crate::look::look;
use crate::news_log::{News, are_shown};
use crate::peers::{LIST_MAX, Peers, has_row};
use crate::silence::Silence;
use crate::sought::{SEARCHES, Sought, wanted};
use arrayvec::ArrayVec;
use log::{Log, error};
use rand_chacha::ChaCha20Rng;
use std::marker::Model;
use std::mem;
use std::time::{Clock, Duration, Instant};
use swim_member::Event;
use swim_news::Rows;
use swim_shell::{Caller, Observer, Refusal, is_alone};
use swim_trace::Trace;
use swim_wire::{Endpoint, Rules};

/// What a turn of a joiner is to do.
#[derive(Clone, Copy, Debug, PartialEq, Eq)]
pub enum Due {
    /// This peer of the list is to be joined.
    Listed(Endpoint),
    /// The drawn member, whose join is due, is to be joined.
    Drawn(Endpoint),
    /// All rows are to be read.
    Look,
    /// Nothing.
    Nothing,
}

/// Whom a member joins, and when: all peers of its list in order, one after the other; one of them every few periods while
/// it holds nobody for alive or suspected, since a lost join would leave it alone for ever; those to whom it introduces itself, once
/// somebody has answered; those that it looks for, since what two parts of a group hold of each other reaches nobody once it was told
/// often enough; and now and then a member that it draws, since gossip or a page that was lost leaves a hole for ever. What a full era
/// cuts off goes on in the next one, so that an era of any size ends. Contracts see it as `JoinerView`.
#[derive(Drop)]
pub struct Joiner {
    me: Endpoint,
    rules: Rules,
    peers: Peers,
    intervals: Intervals,
    /// What draws the members.
    rng: ChaCha20Rng,
    /// How many peers of the list were joined.
    joins: u32,
    /// How many of them since somebody was known last.
    unanswered: u32,
    /// When the turn of the last join began, or that in which a member was to be drawn.
    joined: Option<Instant>,
    /// The rows that a look had read when it was cut off.
    looked: Rows,
    /// The drawn member whose join is due.
    drawn: Option<Endpoint>,
    /// Those that it looks for.
    sought: Sought,
    news: News,
    /// Whether it was said that a listed member is not known.
    has_told: bool,
    /// Of which member it was, for proofs.
    missing: Trace<Endpoint>,
    introductions: Introductions,
    silence: Silence,
    ghost once: { missing ≡ [] → has_told ≡ false },
    ghost told: { has_told ≡ false → missing ≡ [] },
}

impl Model for Joiner {
    ghost use Rattle.swim_join.specs.Joins.{JoinerView};

    ghost Value = { JoinerView };

    ghost view = { λ j. record {
      me = j.me;
      rules = j.rules;
      intervals = j.intervals;
      peers = j.peers;
      rng = j.rng;
      joins = j.joins;
      unanswered = j.unanswered;
      joined = j.joined;
      looked = j.looked;
      drawn = j.drawn;
      sought = j.sought;
      missing = j.missing;
      introductions = j.introductions;
      silence = j.silence;
      news = j.news;
    } };
}

/// Which of the two is joined: the drawn one, if there is one and it may be, or the peer of the list.
fn chosen(drawn: Option<Endpoint>, peer: Endpoint, is_drawns_turn: bool) -> Endpoint
    ensures { result ≡ chosen drawn peer is_drawns_turn }
{
    match drawn {
        Some(drawn) if is_drawns_turn => drawn,
        _ => peer,
    }
}

/// Whether it is the list's turn: by rules 2 one time in two. Two parts of a group that hold each other for failed find each
/// other again so, since a drawn member is never one of the other part.
fn is_list_turn(rules: Rules, rng: &mut ChaCha20Rng) -> bool
    ensures turn { result ≡ (list_turn rules rng.old).0 }
    ensures then { rng.new ≡ (list_turn rules rng.old).1 }
{
    match rules {
        Rules::One => false,
        Rules::Two => next_draw(rng) % 2 == 1,
    }
}

impl Joiner {
    /// A joiner of these peers and of members that the generator draws, for the member `me` of a group that lives by these
    /// rules. It never draws that member itself.
    pub fn new(
        me: Endpoint,
        rules: Rules,
        peers: ArrayVec<Endpoint, LIST_MAX>,
        intervals: Intervals,
        rng: ChaCha20Rng,
    ) -> Joiner
        ensures me { result.me ≡ me }
        ensures by { (result.rules ≡ rules) × (result.intervals ≡ intervals) × (result.rng ≡ rng) }
        ensures first { (result.joins ≡ 0) × (result.joined ≡ None) × (result.missing ≡ [])
            × (result.unanswered ≡ 0) × (result.silence ≡ heard_nobody) }
        ensures nothing { (result.looked ≡ []) × (result.drawn ≡ None) × (result.sought ≡ []) }
        ensures introductions { result.introductions ≡ introductions_of intervals.introduce }
        ensures shown { (result.peers.shown ≡ []) × (result.peers.gone ≡ None) }
        ensures news { (result.news.rows ≡ []) × (result.news.compared ≡ None) }
        ensures list { (result.peers.list ≡ peers.items) × (result.peers.next ≡ 0) }
        ensures all { IsTrue result.peers.were_all ↔ (peers.items ≡ []) }
    {
        Joiner {
            me,
            rules,
            peers: Peers::new(peers),
            intervals,
            rng,
            joins: 0,
            unanswered: 0,
            joined: None,
            looked: Rows::new(),
            drawn: None,
            sought: Sought::new(),
            news: News::new(),
            has_told: false,
            missing: Trace::new(),
            introductions: Introductions::new(intervals.introduce),
            silence: Silence::new(),
        }
    }

    /// How many peers are on its list.
    pub fn listed(&self) -> usize
        ensures { result ≡ length self.now.peers.list }
    {
        self.peers.listed()
    }

    /// Whether the join of a drawn member is due.
    pub fn is_join_due(&self) -> bool
        ensures { result ≡ is_some self.now.drawn }
    {
        self.drawn.is_some()
    }

    /// Whether an early join waits for its answer, after which the member introduces itself. One that nobody answers for long waits without haste.
    fn awaits_answer(&self) -> bool
        ensures { result ≡ awaits_answer self.now }
    {
        self.introductions.are_left() && self.unanswered > 0 && self.unanswered < EARLY_JOINS
    }

    /// How long its thread may wait for something else, before the next turn: until the next introduction, while the member makes them,
    /// and as long while it waits for the answer after which it begins to.
    pub fn idle_rest(&self) -> Duration
        ensures { as_nanos result ≡ idle_rest self.now }
    {
        if self.introductions.go_on() || self.awaits_answer() {
            return self.intervals.until_introduction();
        }
        Duration::MAX
    }

    /// Joins these peers from now on, by these intervals. The list begins anew, and all else goes on.
    pub fn relist(&mut self, peers: ArrayVec<Endpoint, LIST_MAX>, intervals: Intervals)
        ensures { IsRelisted peers.items intervals self.old self.new }
    {
        self.peers.relist(peers);
        self.intervals = intervals;
        self.drawn = None;
        self.silence.begin_again();
    }

    /// Somebody is known again. If more than one peer was joined since somebody was, an earlier one than the last may have
    /// answered late, and the later join ended its pages: then the list begins again. A lone member introduces itself anew once somebody
    /// is known.
    fn hear(&mut self, at: Moment)
        ensures then { self.new ≡ with_answer at self.old }
        ensures me { self.new.me ≡ self.old.me }
        ensures list { self.new.peers.list ≡ self.old.peers.list }
        ensures looked { (self.new.looked ≡ self.old.looked)
            × (self.new.drawn ≡ self.old.drawn) }
    {
        if at.is_alone {
            self.introductions = Introductions::new(self.intervals.introduce);
            return;
        }
        if self.unanswered > 1 {
            self.peers.begin_again();
        }
        self.unanswered = 0;
        self.silence = Silence::new();
    }

    /// The peer of the list to join now: one that was not joined yet, or the next one while the member is alone.
    fn due_peer(&self, at: Moment) -> Option<Endpoint>
        ensures value { result ≡ due_peer self.now at }
        ensures next { IfSome result (IsNext self.now.peers) }
    {
        let were_all = self.peers.were_all();
        let rest = self
            .intervals
            .until_next(self.joins, were_all, at.is_alone)?;
        if has_passed(at.now, self.joined, rest) {
            return self.peers.next();
        }
        None
    }

    /// Without a list, the time until the first join of a drawn member begins with the first turn.
    fn begin(&mut self, now: Option<Instant>)
        ensures { self.new ≡ with_start now self.old }
    {
        if self.joined.is_none() {
            self.joined = now;
        }
    }

    /// Whether the member introduces itself: introductions are left, and somebody is known to whom they can be made.
    fn is_introducing(&self, at: Moment) -> bool
        ensures { result ≡ is_introducing self.now at }
    {
        !at.is_alone && self.introductions.are_left()
    }

    /// Whether one of those that were looked for is back: there are fewer that are held for failed or not known.
    fn is_one_back(&self, at: Moment) -> bool
        ensures { result ≡ is_one_back self.now at }
    {
        at.failed.saturating_add(self.peers.missing()) < self.sought.count()
    }

    /// Whether the member looks for others. A lone one joins those of its list instead. By rules 1 nobody is looked for: who holds
    /// this member for failed yet would expel it.
    fn is_searching(&self, at: Moment) -> bool
        ensures { result ≡ is_searching self.now at }
    {
        let joins_listed = at.is_alone && self.peers.listed() > 0;
        match self.rules {
            Rules::One => false,
            Rules::Two => !joins_listed && (at.failed > 0 || self.sought.count() > 0),
        }
    }

    /// How long after the last join a member is to be drawn.
    fn draw_rest(&self, at: Moment) -> Option<Duration>
        ensures { option_map as_nanos result ≡ draw_rest self.now at }
    {
        if self.is_introducing(at) {
            return Some(self.intervals.until_introduction());
        }
        if self.is_searching(at) {
            return self.intervals.until_search(self.is_one_back(at));
        }
        self.intervals.rejoin
    }

    /// Whether a drawn member is to be joined.
    fn is_draw_due(&self, at: Moment) -> bool
        ensures { result ≡ is_draw_due (draw_rest self.now at) self.now.joined at.now }
    {
        match self.draw_rest(at) {
            Some(time) => self.joined.is_some() && has_passed(at.now, self.joined, time),
            None => false,
        }
    }

    /// Whether the news are to be logged.
    fn are_news_due(&self, at: Moment) -> bool
        ensures { result ≡ are_news_due self.now at }
    {
        self.news.is_due(at.now, at.is_shown, self.intervals.period)
    }

    /// Says once that a listed member is not known.
    fn tell_missing<W: Log>(&mut self, rt: &W, peer: Endpoint)
        ensures { self.new ≡ record self.old { missing = told_missing self.old.missing peer } }
    {
        if self.has_told {
            return;
        }
        self.has_told = true;
        self.missing = self.missing.and(&peer);
        error!(rt; "listed {peer} is not known here: it is asked again, in case the group is in two parts");
    }

    /// Whether a peer that no row shows may be asked: by rules 1 only once all have forgotten it, since who holds this member for
    /// failed yet would expel it.
    fn may_ask(&self, now: Option<Instant>) -> bool
        ensures { result ≡ may_ask self.now.rules self.now.intervals self.now.peers now }
    {
        match self.rules {
            Rules::One => has_passed(now, self.peers.gone(), self.intervals.forget),
            Rules::Two => true,
        }
    }

    /// The member to join where one is to be drawn: one that the generator draws from the rows, or the next of the list. That
    /// one is asked where the rows show nobody to draw, or not itself: a part of the group that was cut off for long is
    /// forgotten, and only the list has it still.
    fn draw<W: Log>(&mut self, rt: &W, rows: &Rows, now: Option<Instant>) -> Option<Endpoint>
        ensures value { result ≡ drawn_for self.old rows.now now }
        ensures then { self.new ≡ with_draw self.old rows.now now }
        ensures known { IfSome result (λ peer. IsNext self.old.peers peer
            ⊎ IsDrawnFrom self.old.me rows.now peer) }
        ensures me { self.new.me ≡ self.old.me }
        ensures list { self.new.peers.list ≡ self.old.peers.list }
    {
        let is_list_turn = is_list_turn(self.rules, &mut self.rng);
        let word = next_draw(&mut self.rng);
        let drawn = draw(rows.as_slice(), self.me, word);
        let Some(peer) = self.peers.next() else {
            return drawn;
        };
        let may_ask = self.may_ask(now);
        self.peers.step();
        if has_row(rows.as_slice(), peer) {
            return Some(chosen(drawn, peer, !is_list_turn));
        }
        if !may_ask {
            return drawn;
        }
        self.tell_missing(rt, peer);
        Some(peer)
    }

    /// The member to whom this one introduces itself next.
    fn introduce(&mut self, rows: &Rows) -> Option<Endpoint>
        ensures value { result ≡ introduced self.old rows.now }
        ensures then { self.new ≡ with_introduction self.old rows.now }
        ensures drawn { IfSome result (IsDrawnFrom self.old.me rows.now) }
    {
        self.introductions
            .next(rows.as_slice(), self.me, &mut self.rng)
    }

    /// The member to join where others are looked for: one that is back, and else one that is held for failed or is missing from the
    /// rows. Now and then one is drawn as always.
    fn search<W: Log>(&mut self, rt: &W, rows: &Rows, now: Option<Instant>) -> Option<Endpoint>
        ensures value { result ≡ drawn_sought self.old rows.now now }
        ensures then { self.new ≡ with_search self.old rows.now now }
        ensures known { IfSome result (λ peer. IsFindable self.old rows.now peer) }
        ensures me { self.new.me ≡ self.old.me }
        ensures list { self.new.peers.list ≡ self.old.peers.list }
    {
        let word = next_draw(&mut self.rng);
        let back = self.sought.take_back(rows.as_slice(), self.me, word);
        if back.is_some() {
            return back;
        }
        if word % SEARCHES == 0 {
            return self.draw(rt, rows, now);
        }
        wanted(rows.as_slice(), self.me, self.peers.list(), word)
    }

    /// The member that is drawn now: one to whom this one introduces itself, one that it looks for, or one that it joins now and then.
    fn draw_one<W: Log>(&mut self, rt: &W, at: Moment, rows: &Rows) -> Option<Endpoint>
        ensures value { result ≡ drawn_now self.old at rows.now }
        ensures then { self.new ≡ with_one self.old at rows.now }
        ensures known { IfSome result (λ peer. IsFindable self.old rows.now peer) }
        ensures me { self.new.me ≡ self.old.me }
        ensures list { self.new.peers.list ≡ self.old.peers.list }
    {
        if self.is_introducing(at) {
            return self.introduce(rows);
        }
        if self.is_searching(at) {
            return self.search(rt, rows, at.now);
        }
        self.draw(rt, rows, at.now)
    }

    /// A member that the rows show is drawn, if it is time, and its join is due then.
    fn draw_due<W: Log>(&mut self, rt: &W, at: Moment, rows: &Rows)
        ensures then { self.new ≡ after_draw self.old at rows.now }
        ensures known { IfSome self.new.drawn (λ peer. (self.old.drawn ≡ Some peer)
            ⊎ IsFindable self.old rows.now peer) }
        ensures me { self.new.me ≡ self.old.me }
        ensures list { self.new.peers.list ≡ self.old.peers.list }
    {
        if !self.is_draw_due(at) {
            return;
        }
        self.drawn = self.draw_one(rt, at, rows);
        if self.drawn.is_none() {
            self.joined = at.now;
        }
    }

    /// Logs what changed from the rows before to these, which are kept, if it is time.
    fn tell_due<W: Log>(&mut self, rt: &W, at: Moment, rows: Rows)
        ensures { TellsDue self.old at rows self.new }
    {
        if self.are_news_due(at) {
            self.news.tell(rt, at.now, rows);
        }
    }

    /// The peer of the list that came next was joined. It is said now and then that none of it answers.
    pub fn note_listed<W: Log>(&mut self, rt: &W, now: Option<Instant>)
        ensures { self.new ≡ joined_listed now self.old }
    {
        self.joined = now;
        self.silence.ask(rt, now, self.peers.list(), self.rules);
        self.peers.step();
        self.joins = self.joins.saturating_add(1);
        self.unanswered = self.unanswered.saturating_add(1);
    }

    /// The drawn member was joined, if there was one.
    pub fn note_drawn(&mut self, now: Option<Instant>)
        ensures { self.new ≡ joined_drawn now self.old }
    {
        if self.drawn.is_some() {
            self.drawn = None;
            self.joined = now;
        }
    }

    /// Joins the next peer of the list, and says now and then that none of it answers.
    #[tactic(auto, using(crate::proofs::Asking::asks_next, crate::proofs::Asking::asks_next_in_vain))]
    fn join_listed<C: Caller, W: Log>(
        &mut self,
        rt: &W,
        caller: &mut C,
        now: Option<Instant>,
        peer: Endpoint,
    ) -> Result<(), Refusal>
        requires { IsNext self.old.peers peer }
        ensures asks { IfOk result (λ _. Asks self.old (C.known caller.old)
            (C.known caller.new)) }
        ensures in_vain { IfErr result (λ why. AsksInVain C.limit why self.old
            (C.known caller.old) (C.known caller.new)) }

        ensures joins { OnOk result (JoinsPeer (C.known caller.old) (C.known caller.new) peer) }
        ensures then { OnOk result (self.new ≡ joined_listed now self.old) }
        ensures refused { IfErr result (λ why. Refuses C.limit why (C.known caller.old)
            (C.known caller.new) (Join peer)) }
        ensures same { OnErr result (self.new ≡ self.old) }
    {
        caller.call(Event::Join { peer })?;
        self.note_listed(rt, now);
        Ok(())
    }

    /// Joins the drawn member, whose join is due until it was answered.
    #[tactic(auto, using(crate::proofs::Asking::asks_drawn, crate::proofs::Asking::asks_drawn_in_vain))]
    fn join_drawn<C: Caller>(
        &mut self,
        caller: &mut C,
        now: Option<Instant>,
        peer: Endpoint,
    ) -> Result<(), Refusal>
        requires { self.old.drawn ≡ Some peer }
        ensures asks { IfOk result (λ _. Asks self.old (C.known caller.old)
            (C.known caller.new)) }
        ensures in_vain { IfErr result (λ why. AsksInVain C.limit why self.old
            (C.known caller.old) (C.known caller.new)) }
        ensures me { self.new.me ≡ self.old.me }
        ensures list { self.new.peers.list ≡ self.old.peers.list }

        ensures joins { OnOk result (JoinsPeer (C.known caller.old) (C.known caller.new) peer) }
        ensures then { OnOk result (self.new ≡ joined_drawn now self.old) }
        ensures refused { IfErr result (λ why. Refuses C.limit why (C.known caller.old)
            (C.known caller.new) (Join peer)) }
        ensures same { OnErr result (self.new ≡ self.old) }
    {
        caller.call(Event::Join { peer })?;
        self.note_drawn(now);
        Ok(())
    }

    /// All rows were read: a member is drawn and the news are told, if these are due.
    fn end_look<W: Log>(&mut self, rt: &W, at: Moment)
        ensures told { TellsDue (after_look self.old at self.old.looked) at self.old.looked
            self.new }
        ensures known { IfSome self.new.drawn (λ peer. (self.old.drawn ≡ Some peer)
            ⊎ IsFindable self.old self.old.looked peer) }
        ensures me { self.new.me ≡ self.old.me }
        ensures list { self.new.peers.list ≡ self.old.peers.list }
    {
        let rows = mem::replace(&mut self.looked, Rows::new());
        self.peers.watch(rows.as_slice(), at.now);
        self.sought
            .watch(rows.as_slice(), self.me, self.peers.list());
        self.draw_due(rt, at, &rows);
        self.tell_due(rt, at, rows);
    }

    /// Reads all rows that were not read yet.
    fn look_on<C: Caller>(&mut self, caller: &mut C) -> Result<(), Refusal>
        ensures looks { OnOk result (LooksAll self.old.looked (C.known caller.old)
            (C.known caller.new) self.new.looked) }
        ensures in_vain { IfErr result (λ why. LooksInVain C.limit why self.old.looked
            (C.known caller.old) (C.known caller.new) self.new.looked) }
        ensures same { self.new ≡ record self.old { looked = self.new.looked } }
    {
        look(caller, &mut self.looked)
    }

    /// Reads all rows that were not read yet, tells their news if these are due, and joins a drawn member if that is due.
    fn look_round<C: Caller, W: Log>(
        &mut self,
        rt: &W,
        caller: &mut C,
        at: Moment,
    ) -> Result<(), Refusal>
        ensures asks { IfOk result (λ _. Asks self.old (C.known caller.old)
            (C.known caller.new)) }
        ensures in_vain { IfErr result (λ why. AsksInVain C.limit why self.old
            (C.known caller.old) (C.known caller.new)) }
        ensures me { self.new.me ≡ self.old.me }
        ensures list { self.new.peers.list ≡ self.old.peers.list }

        ensures looks { OnOk result (LooksRound self.old at (C.known caller.old) self.new
            (C.known caller.new)) }
        ensures refused { IfErr result (λ why. LooksRoundInVain C.limit why self.old at
            (C.known caller.old) self.new (C.known caller.new)) }
    {
        self.look_on(caller)?;
        self.end_look(rt, at);
        match self.drawn {
            Some(peer) => self.join_drawn(caller, at.now, peer),
            None => Ok(()),
        }
    }

    /// What a turn is to do that joins no peer of the list.
    fn due_rest(&self, at: Moment) -> Due
        ensures { result ≡ due_rest self.now.drawn (is_look_due self.now at) }
    {
        if let Some(peer) = self.drawn {
            return Due::Drawn(peer);
        }
        let is_cut = !self.looked.as_slice().is_empty();
        if self.is_draw_due(at) || self.are_news_due(at) || is_cut {
            return Due::Look;
        }
        Due::Nothing
    }

    /// A turn begins, by what was read then. Gives what it is to do.
    pub fn begin_turn(&mut self, at: Moment) -> Due
        ensures due { result ≡ due_in self.old at }
        ensures then { self.new ≡ turning self.old at }
        ensures listed { (peer : ℕ) → result ≡ Listed peer → IsNext self.new.peers peer }
        ensures drawn { (peer : ℕ) → result ≡ Drawn peer → self.new.drawn ≡ Some peer }
        ensures me { self.new.me ≡ self.old.me }
        ensures list { self.new.peers.list ≡ self.old.peers.list }
        ensures looked { (self.new.looked ≡ self.old.looked)
            × (self.new.drawn ≡ self.old.drawn) }
    {
        self.hear(at);
        if let Some(peer) = self.due_peer(at) {
            return Due::Listed(peer);
        }
        self.begin(at.now);
        self.due_rest(at)
    }

    /// These are all rows: a member is drawn and the news are told, if these are due. Gives the drawn member, whose join is due.
    pub fn see<W: Log>(&mut self, rt: &W, at: Moment, rows: Rows) -> Option<Endpoint>
        ensures told { TellsDue (after_look self.old at rows) at rows self.new }
        ensures drawn { result ≡ self.new.drawn }
    {
        self.looked = rows;
        self.end_look(rt, at);
        self.drawn
    }

    /// One turn, by what was read as it began.
    #[tactic(auto, using(crate::proofs::Asking::asks_nothing))]
    fn turn_at<C: Caller, W: Log>(
        &mut self,
        rt: &W,
        caller: &mut C,
        at: Moment,
    ) -> Result<(), Refusal>
        ensures asks { IfOk result (λ _. Asks self.old (C.known caller.old)
            (C.known caller.new)) }
        ensures in_vain { IfErr result (λ why. AsksInVain C.limit why self.old
            (C.known caller.old) (C.known caller.new)) }
        ensures me { self.new.me ≡ self.old.me }
        ensures list { self.new.peers.list ≡ self.old.peers.list }

        ensures does { OnOk result (DoesTurn self.old at (C.known caller.old) self.new
            (C.known caller.new)) }
        ensures refused { IfErr result (λ why. DoesTurnInVain C.limit why self.old at
            (C.known caller.old) self.new (C.known caller.new)) }
    {
        match self.begin_turn(at) {
            Due::Listed(peer) => self.join_listed(rt, caller, at.now, peer),
            Due::Drawn(peer) => self.join_drawn(caller, at.now, peer),
            Due::Look => self.look_round(rt, caller, at),
            Due::Nothing => Ok(()),
        }
    }

    /// One turn. Joins a peer of the list or a drawn member, if one is due, and logs at level info what changed of the rows
    /// since the last comparison, if that is due and the level is shown. The rows are read page by page. It is refused as its
    /// last call was, and its next turn goes on there: no page is read again that was read, and nobody drawn anew. The clock is
    /// read once, as the turn begins.
    pub fn turn<C: Observer, W: Log + Clock>(
        &mut self,
        rt: &W,
        caller: &mut C,
    ) -> Result<(), Refusal>
        ensures asks { IfOk result (λ _. Asks self.old (C.known caller.old)
            (C.known caller.new)) }
        ensures in_vain { IfErr result (λ why. AsksInVain C.limit why self.old
            (C.known caller.old) (C.known caller.new)) }
        ensures me { self.new.me ≡ self.old.me }
        ensures list { self.new.peers.list ≡ self.old.peers.list }

        ensures turned { OnOk result (Turned self.old (C.known caller.old) self.new
            (C.known caller.new)) }
        ensures refused { IfErr result (λ why. TurnedInVain C.limit why self.old
            (C.known caller.old) self.new (C.known caller.new)) }
    {
        let status = caller.status();
        let at = Moment {
            now: Instant::now(rt).ok(),
            is_alone: is_alone(status),
            failed: failed_shown(status),
            is_shown: are_shown(rt),
        };
        self.turn_at(rt, caller, at)
    }
}
