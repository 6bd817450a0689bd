//! The names of the members, and what is known of each beside its node.

ghost use Rattle.std.specs.Prelude.{◌≡◌, ◌+◌, ◌*◌, ◌<◌};
ghost use Rattle.swim_simulate.specs.Network.{endpoint_of};
ghost use Rattle.swim_simulate.specs.Running.{is_awake};

use swim_member::{Deal, Settings};
use swim_plan::{Plan, PlanKey};
use swim_wire::Endpoint;

/// The address of the first member, 10.0.0.1.
const FIRST: u32 = 0x0a00_0001;

/// The port of each member.
const PORT: u16 = 7000;

/// The endpoint of the member with this place.
pub fn endpoint_of(place: usize) -> Endpoint
    requires { place < 1000 }
    ensures { result ≡ endpoint_of place }
{
    match Endpoint::new(FIRST + place as u32, PORT) {
        Some(endpoint) => endpoint,
        None => unreachable!(),
    }
}

/// The place of the member with this endpoint. It is that of no member if it is not below their count.
pub(crate) fn place_of(endpoint: Endpoint) -> usize {
    endpoint.address().wrapping_sub(FIRST) as usize
}

/// The settings of the member with this place.
pub(crate) fn settings_of(plan: &Plan, place: usize) -> Settings
    requires { place < 1000 }
{
    Settings {
        group: 1,
        me: endpoint_of(place),
        lambda: plan.get(PlanKey::Lambda) as u32,
        period: plan.get(PlanKey::Period),
        direct: plan.get(PlanKey::Direct),
        suspect: plan.get(PlanKey::Suspect),
        forget: plan.get(PlanKey::Forget),
        helpers: plan.get(PlanKey::Helpers) as usize,
        block: plan.get(PlanKey::Block),
        rules: plan.get(PlanKey::Rules) as u32,
    }
}

/// What is known of a member beside its node.
#[derive(Clone, Copy, Drop)]
pub(crate) struct MemberPlace {
    /// Whether it runs.
    pub(crate) is_up: bool,
    /// When it begins, or begins again if it was killed; none if it does not.
    pub(crate) begins: Option<u64>,
    /// The tick until which it is paused.
    pub(crate) sleeps_until: u64,
    /// How far its clock is to the next tick, in hundredths.
    pub(crate) clock: u32,
    /// How many of its ticks are left until it draws a new order.
    pub(crate) until_deal: u64,
    /// The order for the next turn list.
    pub(crate) deal: Deal,
    /// How many ticks its clock has made since it began.
    pub(crate) ticks: u64,
    /// How many rows of each kind it has: alive, suspected, and the rest.
    pub(crate) rows: [usize; 3],
}

impl MemberPlace {
    /// A member that does not run yet.
    pub(crate) fn new(begins: u64) -> MemberPlace {
        MemberPlace {
            is_up: false,
            begins: Some(begins),
            sleeps_until: 0,
            clock: 0,
            until_deal: 0,
            deal: Deal::from_first(0),
            ticks: 0,
            rows: [0; 3],
        }
    }

    /// Whether it hears what comes to it in this tick: it runs, and is not paused.
    pub(crate) fn is_awake(&self, now: u64) -> bool
        ensures { result ≡ is_awake now self.now }
    {
        self.is_up && self.sleeps_until <= now
    }
}
