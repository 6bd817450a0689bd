//! What was read of a member.

ghost use Rattle.std.specs.Prelude.{◌≡◌};
ghost use Rattle.swim_http.specs.Answers.{is_alone_in, phase_in};
ghost use Rattle.swim_http.specs.Members.{group_told};

use arrayvec::ArrayVec;
use swim_member::Phase;
use swim_news::Rows;
use swim_node::Status;
use swim_shell::{About, Counters};
use swim_wire::{Endpoint, MEMBERS_MAX};

/// Members of a group, each once.
pub type Members = ArrayVec<Endpoint, MEMBERS_MAX>;

/// What was read of a member over its control socket.
#[derive(Drop)]
pub struct Seen {
    /// Its status; none where it does not answer.
    pub status: Option<Status>,
    /// All rows, itself among them, as it showed them last.
    pub rows: Rows,
    /// Those of the rows that are failed and may have left: nobody was seen to suspect them before.
    pub leavers: Members,
    /// What it has done since it began; none where it does not tell.
    pub counters: Option<Counters>,
    /// Who it is; none where it does not tell. It stays where the member does not answer any more.
    pub about: Option<About>,
    /// Since when it runs, in seconds since 1970; none where it does not tell, or where the clock fails.
    pub since: Option<u64>,
    /// For how many whole seconds nothing of it changed.
    pub quiet: u64,
}

impl Seen {
    /// Its phase; none where it does not answer.
    pub(crate) fn phase(&self) -> Option<Phase>
        ensures { result ≡ phase_in self.now.status }
    {
        match self.status {
            Some(status) => Some(status.phase),
            None => None,
        }
    }

    /// The number of its group; none where it did not tell that.
    pub(crate) fn group(&self) -> Option<u64>
        ensures { result ≡ group_told self.now.about }
    {
        match &self.about {
            Some(about) => Some(about.who.group),
            None => None,
        }
    }

    /// Whether it answers, and tells that it is alone.
    pub(crate) fn is_alone(&self) -> bool
        ensures { result ≡ is_alone_in self.now.status self.now.about }
    {
        match (&self.status, &self.about) {
            (Some(_), Some(about)) => about.is_alone,
            _ => false,
        }
    }
}
