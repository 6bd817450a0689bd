//! The network: what becomes of a datagram, by the plan and by what is drawn for it.

ghost use Rattle.std.specs.Prelude.{◌≡◌, ◌+◌, ◌*◌, ◌↔◌, length, IsTrue};
ghost use Rattle.swim_simulate.specs.Network.{IsApart, IsCutOff, IsNoWay, delay_of, fate_of};

use swim_plan::{Plan, PlanKey};
use swim_wire::Datagram;

/// What becomes of a datagram.
#[derive(Clone, Copy, Debug, PartialEq, Eq)]
pub enum Fate {
    /// It never comes.
    Lost,
    /// It comes after so many ticks.
    Comes(u64),
    /// It comes after so many ticks, and once more so many ticks after that.
    ComesTwice(u64, u64),
}

/// What is drawn for a datagram.
#[derive(Clone, Copy, Debug)]
pub struct Draw {
    /// Whether it is lost.
    pub loss: u32,
    /// Whether it comes twice.
    pub repeat: u32,
    /// How long it takes.
    pub delay: u32,
    /// How long it takes the second time.
    pub second: u32,
}

/// How many bytes a datagram has.
pub(crate) fn size_of_datagram(datagram: &Datagram) -> u64
    ensures { result ≡ 32 + 16 * length datagram.now.updates.items }
{
    32 + 16 * datagram.updates.len() as u64
}

/// Whether one of the two is among the first so many, and the other is not.
fn is_apart(count: u64, m: u64, n: u64) -> bool
    ensures { IsTrue result ↔ IsApart count m n }
{
    (m < count && count <= n) || (n < count && count <= m)
}

/// Whether nothing comes from the one to the other while the cut lasts: they are in two parts, that one hears nobody, or nobody
/// hears this one.
fn is_no_way(plan: &Plan, from: u64, to: u64) -> bool
    ensures { IsTrue result ↔ IsNoWay plan.now from to }
{
    is_apart(plan.get(PlanKey::CutMembers), from, to)
        || to < plan.get(PlanKey::Deaf)
        || from < plan.get(PlanKey::Mute)
}

/// Whether in this second nothing comes from the one to the other, by the cut of the plan.
pub fn is_cut(plan: &Plan, second: u64, from: usize, to: usize) -> bool
    ensures { IsTrue result ↔ IsCutOff plan.now second from to }
{
    let begin = plan.get(PlanKey::CutAt);
    begin <= second
        && second < begin + plan.get(PlanKey::CutFor)
        && is_no_way(plan, from as u64, to as u64)
}

/// How many ticks a datagram takes.
fn delay(plan: &Plan, word: u32) -> u64
    ensures { result ≡ delay_of plan.now word }
{
    plan.get(PlanKey::Delay) + u64::from(word) % (plan.get(PlanKey::Jitter) + 1)
}

/// What becomes of a datagram. One that is cut off never comes.
pub fn fate_by(plan: &Plan, is_cut: bool, draw: Draw) -> Fate
    ensures { result ≡ fate_of plan.now is_cut draw }
{
    if is_cut || u64::from(draw.loss % 100) < plan.get(PlanKey::Loss) {
        return Fate::Lost;
    }
    let first = delay(plan, draw.delay);
    if u64::from(draw.repeat % 100) < plan.get(PlanKey::Repeats) {
        return Fate::ComesTwice(first, delay(plan, draw.second));
    }
    Fate::Comes(first)
}
