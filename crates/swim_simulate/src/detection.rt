//! What the law of detection says of a member at a moment: why it may come to hold another for suspected or failed, and until
//! when it may go on holding one for alive.

ghost use Rattle.std.specs.Prelude.{◌≡◌, ◌≤◌, ◌<◌, ◌*◌, ◌^◌, ◌↔◌, ℕ, drop, length, false, List, Some, IsTrue, IfSome, IfNone};
ghost use Rattle.swim_rules.specs.declared.table.TheConstants.{ROWS_MAX};
ghost use Rattle.swim_rules.specs.Rows.{is_eligible};
ghost use Rattle.swim_rules.specs.declared.table.Row.{Row as Rows};
ghost use Rattle.swim_member.specs.Checks.{AreSound};
ghost use Rattle.swim_member.specs.Events.{Step};
ghost use Rattle.swim_member.specs.State.{State};
ghost use Rattle.swim_detect.specs.Finding.{is_waited_for, looks_to, ticks_to_suspect, ticks_alive, ticks_with};
ghost use Rattle.swim_simulate.specs.Detection.{IsDeadline, IsLow, IsHeldBriefly, cause_at_tick, TicksHaveCauses, CausesAreNamed};
ghost use Rattle.swim_simulate.specs.declared.detection.Deadline.{Deadline as Deadlines};

use swim_member::{MemberState, Probe};
use swim_rules::{ROWS_MAX, Row};
use swim_wire::{Endpoint, Update, UpdateKind};

/// Whether the open probe is one of this member, and no ack came for it.
fn is_waited_for(who: Endpoint, probe: &Option<Probe>) -> bool
    ensures { result ≡ is_waited_for who probe.now }
{
    match probe {
        Some(probe) => probe.target == who && !probe.answered,
        None => false,
    }
}

/// How many looks for a target there are, at most, up to the one that finds this member, from this place of the turn list on,
/// where the next list has at most `most` members.
fn looks_to(who: Endpoint, listed: &[Endpoint], place: usize, most: usize) -> u64
    requires few { length listed.now ≤ ROWS_MAX }
    requires most { most ≤ ROWS_MAX }
    ensures looks { result ≡ looks_to most who (drop place listed.now) }
    ensures few { result ≤ 2 * ROWS_MAX }
{
    let mut looks = 0;
    for index in place..listed.len() {
        looks += 1;
        if listed[index] == who {
            return looks;
        }
    }
    looks + most as u64
}

/// The ticks after which this member is suspected, if it is Alive and nothing spares it.
fn ticks_to_suspect(state: &MemberState, who: Endpoint, most: usize) -> u64
    requires sound { AreSound state.now.settings }
    requires most { most ≤ ROWS_MAX }
    ensures ticks { result ≡ ticks_to_suspect most who state.now }
    ensures few { result ≤ 1000000 }
{
    let period = state.settings.period;
    let rest = period - state.time % period;
    if is_waited_for(who, &state.probe) {
        return rest;
    }
    rest + looks_to(who, state.listed.as_slice(), state.place, most) * period
}

/// The ticks that a row has left, as the law of detection counts them.
fn ticks_left(state: &MemberState, row: &Row, most: usize) -> u128
    requires sound { AreSound state.now.settings }
    requires most { most ≤ ROWS_MAX }
    ensures ticks { result ≡ ticks_with (ticks_alive most row.now.update.who state.now)
        state.now.settings.suspect state.now.time (Some row.now) }
    ensures few { result < 2 ^ 65 }
{
    let suspect = u128::from(state.settings.suspect);
    match row.update.kind {
        UpdateKind::Alive => u128::from(ticks_to_suspect(state, row.who(), most)) + suspect,
        UpdateKind::Suspect => {
            let end = u128::from(row.since) + suspect;
            1_u128.max(end.saturating_sub(u128::from(state.time)))
        }
        UpdateKind::Confirm => 0,
    }
}

/// Until when one member may hold another for alive or suspected, if nobody vouches for that one.
#[derive(Clone, Copy, Debug, PartialEq, Eq)]
pub struct Deadline {
    /// What has a greater number vouches for it.
    pub number: u64,
    /// The tick of the first member at which it holds the other for that no longer.
    pub due: u128,
}

impl Deadline {
    /// The deadline of the member of this row, if the row is Alive or Suspect, where each turn list has at most `most` members.
    pub fn of(state: &MemberState, row: &Row, most: usize) -> Option<Deadline>
        requires sound { AreSound state.now.settings }
        requires most { most ≤ ROWS_MAX }
        ensures some { IfSome result (λ deadline. IsDeadline most row.now state.now deadline) }
        ensures none { IfNone result (is_eligible row.now ≡ false) }
    {
        if !row.is_eligible() {
            return None;
        }
        Some(Deadline {
            number: row.update.number,
            due: u128::from(state.time) + ticks_left(state, row, most),
        })
    }

    /// Whether an update about that member does not vouch for it.
    pub fn is_low(&self, update: &Update) -> bool
        ensures { IsTrue result ↔ IsLow self.now.number update.now }
    {
        update.kind == UpdateKind::Confirm || update.number <= self.number
    }
}

/// What the next tick makes of a row, if it does: a Suspect of an Alive one whose probe ends unanswered, and a Confirm of one
/// that was Suspect for long enough.
pub fn cause_at_tick(state: &MemberState, row: &Row) -> Option<Update>
    requires sound { AreSound state.now.settings }
    ensures { result ≡ cause_at_tick state.now row.now }
{
    let next = u128::from(state.time) + 1;
    let kind = match row.update.kind {
        UpdateKind::Alive => {
            let ends = next % u128::from(state.settings.period) == 0;
            if !ends || !is_waited_for(row.who(), &state.probe) {
                return None;
            }
            UpdateKind::Suspect
        }
        UpdateKind::Suspect => {
            let stood = next.saturating_sub(u128::from(row.since));
            if stood < u128::from(state.settings.suspect) {
                return None;
            }
            UpdateKind::Confirm
        }
        UpdateKind::Confirm => return None,
    };
    Some(Update { kind, ..row.update })
}

/// That a run looks for what the law says. It does nothing: its contract is what counts.
pub fn looks_keep_the_law()
    // a member that nobody vouches for is held for alive or suspected for less than up to its deadline
    ensures brief { (most : ℕ) → (row : Rows) → (deadline : Deadlines) → (base : State)
        → (before stretch : List Step)
        → IsHeldBriefly most row deadline base before stretch }
    // what a tick makes of a row has a cause
    ensures sound { (base : State) → (before : List Step) → (e : Step)
        → CausesAreNamed base before e }
    // and each update about another that a tick hears is what it makes of a row
    ensures all { (base : State) → (before : List Step) → (e : Step)
        → TicksHaveCauses base before e }
{}
