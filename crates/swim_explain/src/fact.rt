//! What is told of a member, as plain data.

ghost use Rattle.std.specs.Option.{option_to_list};
ghost use Rattle.std.specs.Prelude.{◌≡◌, ◌++◌, OnOk};

use std::alloc::AllocError;
use swim_node::Outcome;
use swim_rules::{Heard, Row};
use swim_wire::{Endpoint, Kind, Update};

/// For what a ping was sent.
#[derive(Clone, Copy, Debug, PartialEq, Eq)]
pub enum Purpose {
    /// It began a probe.
    Probe,
    /// This member had asked for it.
    Relay(Endpoint),
    /// The member said that it left.
    Leave,
}

/// What a call says of the member that the story is about, here "it".
#[derive(Clone, Copy, Debug, PartialEq, Eq)]
pub enum Fact {
    /// What was held of it where the era began.
    Began {
        /// Its row, if it had one.
        row: Option<Row>,
    },
    /// A datagram came from it.
    Came {
        /// What the datagram asked or told.
        kind: Kind,
        /// The sequence of the datagram.
        seq: u32,
    },
    /// An update about it was heard.
    Told {
        /// Who told it.
        by: Endpoint,
        /// What was told.
        update: Update,
        /// Its row before, if it had one.
        was: Option<Row>,
        /// What became of the update.
        became: Heard,
    },
    /// An update about the member whose era this is was heard.
    ToldItself {
        /// Who told it.
        by: Endpoint,
        /// What was told.
        update: Update,
    },
    /// The probe of it was answered.
    Answered {
        /// Whose ack that was: its own, or that of a member that was asked to ping it.
        by: Endpoint,
        /// The sequence of the probe.
        seq: u32,
    },
    /// Its suspicion had stood too long, and became a Confirm.
    Confirmed {
        /// The number of both.
        number: u64,
        /// The tick since which it was suspected.
        since: u64,
    },
    /// Its Confirm had stood too long, and it was forgotten.
    Forgotten {
        /// The tick since which it was confirmed.
        since: u64,
    },
    /// The period of a probe of it ended, and nobody had answered.
    Unanswered {
        /// The sequence of the probe.
        seq: u32,
    },
    /// It was alive, and is suspected since nobody answered the probe.
    Suspected {
        /// The number of the suspicion.
        number: u64,
        /// The sequence of the probe.
        seq: u32,
    },
    /// The own number of the member whose era this is changed.
    Renumbered {
        /// The number before.
        from: u64,
        /// The number now.
        to: u64,
    },
    /// The member whose era this is left.
    Left,
    /// The member whose era this is was expelled.
    Expelled,
    /// A ping was sent to it.
    Pinged {
        /// For what.
        purpose: Purpose,
        /// The sequence of the ping.
        seq: u32,
        /// What became of the datagram.
        outcome: Outcome,
    },
    /// A member was asked to ping it.
    Asked {
        /// Who was asked.
        helper: Endpoint,
        /// The sequence of the probe.
        seq: u32,
        /// What became of the datagram.
        outcome: Outcome,
    },
    /// It was asked for all that it knows.
    Joined {
        /// The sequence of the join.
        seq: u32,
        /// What became of the datagram.
        outcome: Outcome,
    },
}

/// A fact, and when it came about.
#[derive(Clone, Copy, Debug, PartialEq, Eq)]
pub struct Happening {
    /// The call, counted from 1; 0 is where the era began.
    pub call: usize,
    /// The ticks that counted in the member's life, after the call.
    pub tick: u64,
    /// What is told.
    pub fact: Fact,
}

/// Adds a fact, if there is one.
pub(crate) fn add(facts: &mut Vec<Fact>, fact: &Option<Fact>) -> Result<(), AllocError>
    ensures { OnOk result (facts.new.items ≡ facts.old.items ++ option_to_list fact.now) }
{
    match fact {
        Some(fact) => facts.extend_from_slice(&[*fact]),
        None => Ok(()),
    }
}
