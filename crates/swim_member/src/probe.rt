//! The probe (SWIM, section 3.1): its target is pinged, others are asked about one that does not answer, and
//! at the end of the period it is suspected (SWIM, section 4.2).

ghost use Rattle.std.specs.Prelude.{◌≡◌, ◌<◌, ◌≤◌, ◌+◌, ◌++◌, nat_lt, map, take, length, [], true};
ghost use Rattle.std.specs.List.{filter};
ghost use Rattle.swim_rules.specs.Rows.{is_eligible};
ghost use Rattle.swim_member.specs.declared.answer.TheConstants.{OUTS_MAX};
ghost use Rattle.swim_member.specs.Member.{row_name};
ghost use Rattle.swim_member.specs.Probe.{suspect_of, is_at, blame};
ghost use Rattle.swim_member.specs.Turn.{look};
ghost use Rattle.swim_member.specs.Events.{Ask, each_from, outs, notes};
ghost use Rattle.swim_member.specs.Machinery.Steps.{apply_all, after, outs_by, is_helper, after_asks, outs_of_asks, open_probe};
ghost use Rattle.swim_member.specs.Machinery.Adding.{Adds, HasRoom};

use crate::answer::Answer;
use crate::member::Member;
use crate::settings::HELPERS_MAX;
use crate::state::Probe;
use arrayvec::ArrayVec;
use swim_rules::{Deal, Row};
use swim_wire::{Endpoint, Kind, Update, UpdateKind};

/// The Suspect about the member of an Alive row.
fn suspect_of(row: &Row) -> Update
    ensures { result ≡ suspect_of row.now }
{
    Update {
        kind: UpdateKind::Suspect,
        who: row.update.who,
        number: row.update.number,
    }
}

/// Whether a row is Alive or Suspect and stands after the target, or else before it.
fn is_helper(row: &Row, target: Endpoint, later: bool) -> bool
    ensures { result ≡ is_helper target later row.now }
{
    let who = row.who().number();
    let beside = if later {
        target.number() < who
    } else {
        who < target.number()
    };
    row.is_eligible() && beside
}

/// Adds the members of the rows after the target, or else of those before it, until there are `most`.
fn add_helpers(
    helpers: &mut ArrayVec<Endpoint, HELPERS_MAX>,
    rows: &[Row],
    target: Endpoint,
    later: bool,
    most: usize,
)
    requires most { most ≤ HELPERS_MAX }
    requires room { length helpers.old.items ≤ most }
    ensures items { helpers.new.items
        ≡ take most (helpers.old.items ++ map row_name (filter (is_helper target later) rows.now)) }
    ensures room { length helpers.new.items ≤ most }
{
    for row in rows {
        if helpers.len() < most && is_helper(row, target, later) {
            helpers.push(row.who());
        }
    }
}

/// The members to ask about a target, at most `most`: the eligible ones after it, and then those
/// before it.
fn helpers_about(rows: &[Row], target: Endpoint, most: usize) -> ArrayVec<Endpoint, HELPERS_MAX>
    requires { most ≤ HELPERS_MAX }
    ensures helpers { result.items
        ≡ take most (map row_name (filter (λ r. nat_lt target (row_name r))
        (filter is_eligible rows.now)
        ++ filter (λ r. nat_lt (row_name r) target) (filter is_eligible rows.now))) }
    ensures room { length result.items ≤ most }
{
    let mut helpers = ArrayVec::new();
    add_helpers(&mut helpers, rows, target, true, most);
    add_helpers(&mut helpers, rows, target, false, most);
    helpers
}

impl Member {
    /// At the end of a period, suspects the target of a probe that was not answered, if its row is Alive.
    #[inline(never)]
    pub(crate) fn blame(&mut self, answer: &mut Answer)
        requires { HasRoom answer.old }
        ensures state { self.new ≡ apply_all (blame self.old self.old.probe) self.old }
        ensures answer { Adds self.old self.new answer.old answer.new [] 0
            (notes (blame self.old self.old.probe)) }
    {
        let Some(probe) = self.probe else {
            return;
        };
        if probe.answered {
            return;
        }
        if let Some(row) = self.table.get(probe.target) {
            if row.update.kind == UpdateKind::Alive {
                self.hear_other(&suspect_of(&row), answer);
            }
        }
    }

    /// At the end of a period, begins a probe of the member to which the turn comes, by a ping.
    #[inline(never)]
    pub(crate) fn probe_next(&mut self, deal: &Deal, answer: &mut Answer)
        requires { length answer.old.outs.items < OUTS_MAX }
        ensures state { self.new ≡ apply_all (look self.old deal.now) self.old }
        ensures answer { Adds self.old self.new answer.old answer.new
            (outs (look self.old deal.now)) 1 [] }
    {
        let Some(target) = self.take_turn(deal) else {
            self.probe = None;
            return;
        };
        let seq = self.take_seq();
        self.probe = Some(Probe {
            target,
            seq,
            answered: false,
        });
        self.send(target, Kind::Ping, seq, target, answer);
    }

    /// The probe, where it is not answered and its target is Alive or Suspect.
    fn open_probe(&self) -> Option<Probe>
        ensures { result ≡ open_probe self.now self.now.probe }
    {
        match self.probe {
            Some(probe) if !probe.answered && self.is_eligible(probe.target) => Some(probe),
            _ => None,
        }
    }

    /// Asks each of these members to ping the target of a probe.
    fn ask_each(&mut self, probe: &Probe, helpers: &[Endpoint], answer: &mut Answer)
        requires { length answer.old.outs.items + length helpers.now ≤ OUTS_MAX }
        ensures state { self.new ≡ after_asks self.old probe.now helpers.now }
        ensures answer { Adds self.old self.new answer.old answer.new
            (outs_of_asks self.old probe.now helpers.now) (length helpers.now) [] }
    {
        for helper in helpers {
            self.send(*helper, Kind::PingReq, probe.seq, probe.target, answer);
        }
    }

    /// `direct` ticks into a period, asks other members to ping a target that did not answer.
    #[inline(never)]
    pub(crate) fn ask_all(&mut self, answer: &mut Answer)
        requires moment { is_at self.old self.old.settings.direct ≡ true }
        requires room { length answer.old.outs.items ≤ 2 }
        ensures state { self.new ≡ after self.old (each_from 0 HELPERS_MAX (λ k. Ask k)) }
        ensures answer { Adds self.old self.new answer.old answer.new
            (outs_by self.old (each_from 0 HELPERS_MAX (λ k. Ask k))) self.old.settings.helpers [] }
    {
        if let Some(probe) = self.open_probe() {
            let helpers = helpers_about(self.table.rows(), probe.target, self.settings.helpers);
            self.ask_each(&probe, &helpers, answer);
        }
    }
}
