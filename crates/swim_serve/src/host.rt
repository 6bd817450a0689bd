//! Who is asked between two eras.

ghost use Rattle.std.specs.Prelude.{◌≡◌};
ghost use Rattle.swim_serve.specs.Desks.{IsHosted};

use crate::chores::Chores;
use crate::outside::Outside;
use arrayvec::ArrayVec;
use log::Log;
use std::time::Clock;
use swim_join::{Intervals, LIST_MAX};
use swim_node::Link;
use swim_record::{Keeper, Unkept};
use swim_shell::{AnswerText, ControlEnd, Doors, Inbound, SETTINGS_REFUSED, answer_of};
use swim_state::Peers;
use swim_wire::Endpoint;

/// What a joiner goes by.
#[derive(Drop)]
pub struct Joins {
    /// Whom the member joins.
    pub peers: ArrayVec<Endpoint, LIST_MAX>,
    /// How often it does what.
    pub intervals: Intervals,
}

/// Who keeps the eras of a member that ended, reads its settings again where a line asks for that, and says then whom it joins.
pub trait Host: Keeper {
    ghost use Rattle.std.specs.Prelude.{◌≡◌, IfSome};

    /// Whether it ever changes whom the member joins.
    ghost relists: { Type 0 };

    /// Reads the settings again, and gives the answer to the line that asked for it.
    fn reload(&mut self) -> AnswerText
        ensures { Self.given self.new ≡ Self.given self.old };

    /// Whom the member joins from now on, and how often it does what, where that is to change. These peers stand in its state file.
    fn joins(&mut self, stored: &Peers) -> Option<Joins>
        ensures given { Self.given self.new ≡ Self.given self.old }
        ensures relists { IfSome result (λ _. relists) };
}

impl Host for Unkept {
    ghost use Rattle.std.specs.Prelude.{◌≡◌};

    ghost relists = { ⊥ };

    fn reload(&mut self) -> AnswerText {
        answer_of(SETTINGS_REFUSED)
    }

    fn joins(&mut self, _stored: &Peers) -> Option<Joins> {
        None
    }
}

/// Asks the host of a member after an era whose control ended so. The line `reload` gets its answer.
pub(crate) fn ask_host<
    I: Inbound + Drop,
    M: Link + Drop,
    R: Log + Clock + Drop,
    O: Doors + Chores + Drop,
    H: Host,
>(outside: &mut Outside<I, M, R, O>, control: Option<ControlEnd>, stored: &Peers, host: &mut H)
    ensures given { H.given host.new ≡ H.given host.old }
    ensures hosted { IsHosted H.relists control outside.old.desk outside.new.desk }
    ensures rest { outside.new ≡ record outside.old { desk = outside.new.desk } }
{
    if control == Some(ControlEnd::Reloading) {
        outside.desk.answer(host.reload());
    }
    if let Some(joins) = host.joins(stored) {
        outside.desk.relist(joins.peers, joins.intervals);
    }
}
