//! Where an era begins.

ghost use Rattle.std.specs.Prelude.{◌≡◌, [], None};
ghost use Rattle.swim_member.specs.Events.{state_of};
ghost use Rattle.swim_member.specs.Resuming.{resume_fault};
ghost use Rattle.swim_node.specs.Node.{base_of};

use std::snapshot::Snapshot;
use swim_member::Member;

/// Where an era begins. The state has no bytes: it is known to proofs alone.
#[derive(Drop)]
pub struct Base {
    /// The member's state.
    pub state: Snapshot<Member>,
    /// The granted ceiling.
    pub granted: u64,
    /// The greatest own number in datagrams of earlier eras.
    pub past: Option<u64>,
    /// How many entries the era has at most.
    pub limit: u32,
}

/// The member as it stands now, as the base of an era.
pub(crate) fn base_at(member: &Member, granted: u64, past: Option<u64>, limit: u32) -> Base
    ensures base { base_of result
        ≡ record { state = member.now; granted = granted; past = past; limit = limit } }
    ensures reads { state_of member.now [] ≡ member.now }
    ensures resumes { resume_fault member.now ≡ None }
{
    member.state_resumes();
    Base {
        state: member.base(),
        granted,
        past,
        limit,
    }
}
