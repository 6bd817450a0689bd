//! Where an era begins, as plain data, which another run can begin with again.

ghost use Rattle.std.specs.Prelude.{◌≡◌, ◌≤◌, [], false, None, Some, All, IfErr, OnOk};
ghost use Rattle.swim_member.specs.Checks.{AreSound};
ghost use Rattle.swim_node.specs.declared.opening.TheConstants.{LIMIT_MAX};
ghost use Rattle.swim_node.specs.History.{IsLegal};
ghost use Rattle.swim_node.specs.Node.{HasCaller, next_base};
ghost use Rattle.swim_node.specs.Replaying.{begin_fault, bounds_fault, is_above};

use crate::{LIMIT_MAX, Node};
use std::marker::Model;
use std::{error, fmt};
use swim_disk::Disk;
use swim_member::{MemberState, ResumeFault};

/// Where an era begins, as plain data.
#[derive(Drop)]
pub struct Beginning {
    /// The member's state.
    pub state: MemberState,
    /// The granted ceiling.
    pub granted: u64,
    /// The greatest own number in datagrams of earlier eras.
    pub past: Option<u64>,
    /// How many entries the era has at most.
    pub limit: u32,
}

impl Model for Beginning {
    ghost use Rattle.swim_node.specs.History.{Base};

    ghost Value = { Base };

    ghost view = { λ b. record {
      state = b.state;
      granted = b.granted;
      past = b.past;
      limit = b.limit;
    } };
}

impl Beginning {
    /// The same once more. It takes no memory.
    pub fn copy(&self) -> Beginning
        ensures { result ≡ self.now }
    {
        Beginning {
            state: self.state.copy(),
            granted: self.granted,
            past: self.past,
            limit: self.limit,
        }
    }
}

/// Why no era begins so: the first that holds, in the order Limit, Ceiling, Past, State. It prints its number and name.
#[derive(Clone, Copy, Debug, PartialEq, Eq)]
pub enum BeginFault {
    /// No member goes on from the state: 1 to 9 and 14, as the fault says.
    State(ResumeFault),
    /// The limit of an era is 0 or above `LIMIT_MAX`.
    Limit,
    /// The own number is above the granted ceiling.
    Ceiling,
    /// An own number of earlier eras is above the granted ceiling.
    Past,
    /// There was no memory for the journal.
    NoMemory,
}

impl From<ResumeFault> for BeginFault {
    ghost use Rattle.std.specs.Prelude.{◌≡◌};
    ghost use Rattle.swim_node.specs.declared.beginning.BeginFault.TheVariants.{State};

    ghost from_gives = { λ fault e. e ≡ State fault };

    fn from(fault: ResumeFault) -> BeginFault {
        BeginFault::State(fault)
    }
}

impl BeginFault {
    ghost use Rattle.std.specs.Prelude.{◌≡◌};
    ghost use Rattle.swim_node.specs.Replaying.{begin_number, begin_name};

    /// The number of the fault, by which programs name it.
    pub fn number(self) -> u8
        ensures { result ≡ begin_number self }
    {
        match self {
            BeginFault::State(fault) => fault.number(),
            BeginFault::Limit => 10,
            BeginFault::Ceiling => 11,
            BeginFault::Past => 12,
            BeginFault::NoMemory => 13,
        }
    }

    /// The name of the fault.
    pub fn name(self) -> &'static str
        ensures { result.now ≡ begin_name self }
    {
        match self {
            BeginFault::State(fault) => fault.name(),
            BeginFault::Limit => "Limit",
            BeginFault::Ceiling => "Ceiling",
            BeginFault::Past => "Past",
            BeginFault::NoMemory => "NoMemory",
        }
    }
}

impl fmt::Display for BeginFault {
    ghost use Rattle.std.specs.Prelude.{Some};
    ghost use Rattle.swim_node.specs.Replaying.{begin_text};

    ghost output = { λ f. Some (begin_text f) };

    fn fmt<W: fmt::Write>(&self, f: &mut fmt::Formatter<W>) -> fmt::Result {
        let number = self.number();
        let name = self.name();
        write!(f, "{number} {name}")
    }
}

impl error::Error for BeginFault {}

/// Whether there is such a number, and it is above the ceiling.
fn is_above(ceiling: u64, number: Option<u64>) -> bool
    ensures { result ≡ is_above ceiling number }
{
    match number {
        Some(number) => number > ceiling,
        None => false,
    }
}

/// Judges the limit of an era, and the numbers that its ceiling is to cover.
pub(crate) fn check_bounds(
    limit: u32,
    number: u64,
    granted: u64,
    past: Option<u64>,
) -> Result<(), BeginFault>
    ensures ok { OnOk result (bounds_fault limit number granted past ≡ None) }
    ensures limit { OnOk result (limit ≤ LIMIT_MAX) }
    ensures ceiling { OnOk result (number ≤ granted) }
    ensures past { OnOk result (is_above granted past ≡ false) }
    ensures err { IfErr result (λ fault. bounds_fault limit number granted past ≡ Some fault) }
{
    if limit == 0 || limit > LIMIT_MAX {
        return Err(BeginFault::Limit);
    }
    if number > granted {
        return Err(BeginFault::Ceiling);
    }
    if is_above(granted, past) {
        return Err(BeginFault::Past);
    }
    Ok(())
}

impl<D: Disk> Node<D> {
    /// Where an era would begin now: what a `rebase` makes the base.
    pub fn beginning(&self) -> Beginning
        ensures base { result ≡ next_base self.now.base self.now.entries }
        ensures sound { AreSound self.now.base.state.settings }
        ensures begins { begin_fault (next_base self.now.base self.now.entries) ≡ None }
    {
        Beginning {
            state: self.member.state(),
            granted: self.store.ceiling(),
            past: self.most,
            limit: self.base.limit,
        }
    }

    /// What holds of the era of a node: it began where an era can begin, and each of its callers is below 16. It does
    /// nothing: its contract is what counts.
    pub fn era_begins(&self)
        ensures sound { AreSound self.now.base.state.settings }
        ensures begins { begin_fault self.now.base ≡ None }
        // where it began, as plain data, is its base
        ensures reads { next_base self.now.base [] ≡ self.now.base }
        ensures legal { IsLegal self.now.base self.now.entries }
        ensures callers { All HasCaller self.now.entries }
    {
        self.member.state_resumes();
    }
}
