//! The keys of a plan. The value of each is a number.

ghost use Rattle.std.specs.Prelude.{◌≡◌, ◌≢◌, ◌<◌, All, IfSome, IfNone};
ghost use Rattle.swim_plan.specs.Keys.{plan_keys, plan_key, rank_of, range_of};

use std::fmt;
use swim_words::{Word, named};

/// How many keys there are.
pub const KEYS: usize = 34;

/// A key of a plan.
#[derive(Clone, Copy, Debug, PartialEq, Eq)]
pub enum PlanKey {
    /// How many members the group has.
    Members,
    /// Minutes that are simulated.
    Minutes,
    /// Milliseconds of a tick.
    TickMs,
    /// Sends of an update, times the binary digits of the count of members.
    Lambda,
    /// Ticks from one probe to the next.
    Period,
    /// Ticks until others are asked about a target.
    Direct,
    /// Ticks until a Suspect becomes Confirm.
    Suspect,
    /// Ticks until a Confirm is forgotten.
    Forget,
    /// Members that are asked about a target.
    Helpers,
    /// Entries in an era.
    Limit,
    /// Numbers that one save reserves.
    Block,
    /// By which rules the group lives.
    Rules,
    /// Members that each member's list names, the first ones.
    Listed,
    /// Ticks from one join of a drawn member to the next; 0 for never.
    Rejoin,
    /// Members to whom each introduces itself at most, once somebody has answered it.
    Introduce,
    /// Ticks in which all members begin.
    BeginWithin,
    /// Of 100 datagrams, how many are lost.
    Loss,
    /// Of 100 datagrams, how many come twice.
    Repeats,
    /// Ticks that a datagram takes at least.
    Delay,
    /// Ticks that it may take longer.
    Jitter,
    /// Members that are killed, one after the other.
    Kills,
    /// Ticks after which a killed member is opened again; 0 for never.
    RestartAfter,
    /// Of 100 crashes, how many leave nothing of what was not synced.
    Dropped,
    /// Of 100 crashes, how many leave other bytes in its place.
    Filled,
    /// Members whose clock goes at another rate, the last ones.
    OddClocks,
    /// That rate, in ticks of the member for each 100.
    ClockRate,
    /// Members that are cut off from the rest, the first ones.
    CutMembers,
    /// The second in which the cut begins.
    CutAt,
    /// Seconds that it lasts.
    CutFor,
    /// Members that hear nobody while the cut lasts, the first ones.
    Deaf,
    /// Members that nobody hears while the cut lasts, the first ones.
    Mute,
    /// Members that are paused, one after the other.
    Pauses,
    /// Ticks that a pause lasts.
    PauseFor,
    /// Of 100 saves, how many have a sync that fails.
    FailingSyncs,
}

/// Which numbers a key takes.
#[derive(Clone, Copy, Debug, PartialEq, Eq)]
pub struct Range {
    /// The number where a plan hasn't the key.
    pub default: u64,
    /// The least.
    pub least: u64,
    /// The greatest.
    pub most: u64,
}

/// A range.
const fn within(default: u64, least: u64, most: u64) -> Range
    ensures { result ≡ record { default = default; least = least; most = most } }
{
    Range {
        default,
        least,
        most,
    }
}

impl PlanKey {
    /// All keys, in the order in which a refused one is looked for.
    pub const ALL: [PlanKey; KEYS] = [
        PlanKey::Members,
        PlanKey::Minutes,
        PlanKey::TickMs,
        PlanKey::Lambda,
        PlanKey::Period,
        PlanKey::Direct,
        PlanKey::Suspect,
        PlanKey::Forget,
        PlanKey::Helpers,
        PlanKey::Limit,
        PlanKey::Block,
        PlanKey::Rules,
        PlanKey::Listed,
        PlanKey::Rejoin,
        PlanKey::Introduce,
        PlanKey::BeginWithin,
        PlanKey::Loss,
        PlanKey::Repeats,
        PlanKey::Delay,
        PlanKey::Jitter,
        PlanKey::Kills,
        PlanKey::RestartAfter,
        PlanKey::Dropped,
        PlanKey::Filled,
        PlanKey::OddClocks,
        PlanKey::ClockRate,
        PlanKey::CutMembers,
        PlanKey::CutAt,
        PlanKey::CutFor,
        PlanKey::Deaf,
        PlanKey::Mute,
        PlanKey::Pauses,
        PlanKey::PauseFor,
        PlanKey::FailingSyncs,
    ];

    /// The numbers that the key takes.
    pub fn range(self) -> Range
        ensures { result ≡ range_of self }
    {
        match self {
            PlanKey::Members => within(50, 1, 257),
            PlanKey::Minutes => within(10, 1, 1440),
            PlanKey::TickMs => within(100, 1, 60_000),
            PlanKey::Lambda => within(3, 1, 16),
            PlanKey::Period => within(10, 2, 1000),
            PlanKey::Direct => within(3, 1, 999),
            PlanKey::Suspect => within(50, 1, 100_000),
            PlanKey::Forget => within(6000, 1, 1_000_000),
            PlanKey::Helpers => within(3, 0, 8),
            PlanKey::Limit => within(64, 1, 65_536),
            PlanKey::Block => within(1, 1, 1024),
            PlanKey::Rules => within(1, 1, 2),
            PlanKey::Listed => within(3, 1, 8),
            PlanKey::Rejoin => within(300, 0, 1_000_000),
            PlanKey::Introduce => within(64, 0, 256),
            PlanKey::BeginWithin => within(10, 1, 1_000_000),
            PlanKey::Loss => within(2, 0, 100),
            PlanKey::Repeats => within(0, 0, 100),
            PlanKey::Delay => within(1, 1, 1000),
            PlanKey::Jitter => within(0, 0, 1000),
            PlanKey::Kills => within(3, 0, 100),
            PlanKey::RestartAfter => within(0, 0, 1_000_000),
            PlanKey::Dropped => within(0, 0, 100),
            PlanKey::Filled => within(0, 0, 100),
            PlanKey::OddClocks => within(0, 0, 257),
            PlanKey::ClockRate => within(100, 10, 1000),
            PlanKey::CutMembers => within(0, 0, 257),
            PlanKey::CutAt => within(60, 0, 86_400),
            PlanKey::CutFor => within(60, 0, 86_400),
            PlanKey::Deaf => within(0, 0, 257),
            PlanKey::Mute => within(0, 0, 257),
            PlanKey::Pauses => within(0, 0, 100),
            PlanKey::PauseFor => within(40, 0, 1_000_000),
            PlanKey::FailingSyncs => within(0, 0, 100),
        }
    }

    /// How many keys come before it.
    pub fn place(self) -> usize
        ensures value { result ≡ rank_of self }
        ensures below { result < KEYS }
    {
        match self {
            PlanKey::Members => 0,
            PlanKey::Minutes => 1,
            PlanKey::TickMs => 2,
            PlanKey::Lambda => 3,
            PlanKey::Period => 4,
            PlanKey::Direct => 5,
            PlanKey::Suspect => 6,
            PlanKey::Forget => 7,
            PlanKey::Helpers => 8,
            PlanKey::Limit => 9,
            PlanKey::Block => 10,
            PlanKey::Rules => 11,
            PlanKey::Listed => 12,
            PlanKey::Rejoin => 13,
            PlanKey::Introduce => 14,
            PlanKey::BeginWithin => 15,
            PlanKey::Loss => 16,
            PlanKey::Repeats => 17,
            PlanKey::Delay => 18,
            PlanKey::Jitter => 19,
            PlanKey::Kills => 20,
            PlanKey::RestartAfter => 21,
            PlanKey::Dropped => 22,
            PlanKey::Filled => 23,
            PlanKey::OddClocks => 24,
            PlanKey::ClockRate => 25,
            PlanKey::CutMembers => 26,
            PlanKey::CutAt => 27,
            PlanKey::CutFor => 28,
            PlanKey::Deaf => 29,
            PlanKey::Mute => 30,
            PlanKey::Pauses => 31,
            PlanKey::PauseFor => 32,
            PlanKey::FailingSyncs => 33,
        }
    }

    /// The key with this text, if there is one.
    pub fn of(text: &[u8]) -> Option<PlanKey>
        ensures key { IfSome result (λ key. text.now ≡ plan_key key) }
        ensures none { IfNone result (All (λ key. text.now ≢ plan_key key) plan_keys) }
    {
        named(&PlanKey::ALL, text)
    }
}

/// The key as a plan has it.
impl Word for PlanKey {
    ghost text_of = { plan_key };

    fn text(self) -> &'static str {
        match self {
            PlanKey::Members => "members",
            PlanKey::Minutes => "minutes",
            PlanKey::TickMs => "tick_ms",
            PlanKey::Lambda => "lambda",
            PlanKey::Period => "period",
            PlanKey::Direct => "direct",
            PlanKey::Suspect => "suspect",
            PlanKey::Forget => "forget",
            PlanKey::Helpers => "helpers",
            PlanKey::Limit => "limit",
            PlanKey::Block => "block",
            PlanKey::Rules => "rules",
            PlanKey::Listed => "listed",
            PlanKey::Rejoin => "rejoin",
            PlanKey::Introduce => "introduce",
            PlanKey::BeginWithin => "begin_within",
            PlanKey::Loss => "loss",
            PlanKey::Repeats => "repeats",
            PlanKey::Delay => "delay",
            PlanKey::Jitter => "jitter",
            PlanKey::Kills => "kills",
            PlanKey::RestartAfter => "restart_after",
            PlanKey::Dropped => "dropped",
            PlanKey::Filled => "filled",
            PlanKey::OddClocks => "odd_clocks",
            PlanKey::ClockRate => "clock_rate",
            PlanKey::CutMembers => "cut_members",
            PlanKey::CutAt => "cut_at",
            PlanKey::CutFor => "cut_for",
            PlanKey::Deaf => "deaf",
            PlanKey::Mute => "mute",
            PlanKey::Pauses => "pauses",
            PlanKey::PauseFor => "pause_for",
            PlanKey::FailingSyncs => "failing_syncs",
        }
    }
}

impl fmt::Display for PlanKey {
    ghost use Rattle.std.specs.Prelude.{Some};

    ghost output = { λ key. Some (plan_key key) };

    fn fmt<W: fmt::Write>(&self, f: &mut fmt::Formatter<W>) -> fmt::Result {
        let text = self.text();
        write!(f, "{text}")
    }
}
