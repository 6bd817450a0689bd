//! What one member of a group was given, as a script of `swim play`, and what it sent.

use crate::place::endpoint_of;
use std::alloc::{AllocError, Global};
use std::fmt::Write;
use swim_disk::Choice;
use swim_member::{Deal, Event, Out};
use swim_plan::{Plan, PlanKey};
use swim_wire::{Datagram, MEMBERS_MAX, encode};

/// The keys that are settings of a script too, by the same names.
const SETTINGS: [PlanKey; 9] = [
    PlanKey::Lambda,
    PlanKey::Period,
    PlanKey::Direct,
    PlanKey::Suspect,
    PlanKey::Forget,
    PlanKey::Helpers,
    PlanKey::Limit,
    PlanKey::Block,
    PlanKey::Rules,
];

/// What a member is given.
#[derive(Clone, Copy)]
pub(crate) enum Given<'a> {
    /// A tick, or a join.
    Event(&'a Event),
    /// A datagram.
    Datagram(&'a Datagram),
    /// The next sync of its disk is to fail.
    FailingSync,
    /// It crashes, and is opened again on what is left of its disk.
    Crash(Choice),
    /// The next era.
    Era,
}

/// What one member was given, and what it sent. Nothing, where no member is watched.
#[derive(Drop)]
pub struct Script {
    /// The lines of the script.
    pub lines: String,
    /// The lines of its datagrams, as the transcript of the script has them.
    pub sent: String,
    alloc: Global,
    /// The member that is watched.
    who: Option<usize>,
    /// How many others there are.
    others: usize,
}

/// The number with which a script deals so many members as this deal does. A script deals them cyclically, so it is sure to
/// do that for at most two.
fn first_of(deal: &Deal, others: usize) -> u8 {
    for number in deal.numbers() {
        if (*number as usize) < others {
            return *number;
        }
    }
    0
}

/// The bytes of a datagram as hex digits. One that has no text, which no member sends, has none.
fn digits_of(alloc: Global, datagram: &Datagram) -> Result<String, AllocError> {
    if !datagram.is_encodable() {
        return Ok(String::new(alloc));
    }
    hex::encode(alloc, encode(datagram).as_slice())
}

impl Script {
    /// No member is watched.
    pub(crate) fn none(alloc: Global) -> Script {
        Script {
            lines: String::new(alloc),
            sent: String::new(alloc),
            alloc,
            who: None,
            others: 0,
        }
    }

    /// This member is watched, from its first opening on.
    pub(crate) fn begin(alloc: Global, plan: &Plan, who: usize) -> Result<Script, AllocError> {
        let mut script = Script::none(alloc);
        if who >= MEMBERS_MAX {
            return Ok(script);
        }
        script.who = Some(who);
        script.others = (plan.get(PlanKey::Members) - 1) as usize;
        let me = endpoint_of(who);
        writeln!(script.lines, "group 1\nme {me}")?;
        for key in SETTINGS {
            let number = plan.get(key);
            writeln!(script.lines, "set {key} {number}")?;
        }
        writeln!(script.lines, "start 1")?;
        Ok(script)
    }

    /// The line of an event that changes a member. To read its rows does not.
    fn note_event(&mut self, event: &Event) -> Result<(), AllocError> {
        match event {
            Event::Tick { deal } => {
                let first = first_of(deal, self.others);
                writeln!(self.lines, "tick {first}")
            }
            Event::Join { peer } => writeln!(self.lines, "join {peer}"),
            _ => Ok(()),
        }
    }

    /// The line of a datagram that comes.
    fn note_datagram(&mut self, datagram: &Datagram) -> Result<(), AllocError> {
        let digits = digits_of(self.alloc, datagram)?;
        let from = datagram.sender;
        writeln!(self.lines, "recv {from} {digits}")
    }

    /// The lines of a crash and the opening after it.
    fn note_crash(&mut self, choice: Choice) -> Result<(), AllocError> {
        match choice {
            Choice::Keep => writeln!(self.lines, "crash keep\nopen"),
            Choice::Drop => writeln!(self.lines, "crash drop\nopen"),
            Choice::Fill(byte) => writeln!(self.lines, "crash fill {byte:02x}\nopen"),
        }
    }

    /// A member is given this.
    pub(crate) fn note(&mut self, who: usize, given: Given<'_>) -> Result<(), AllocError> {
        if self.who != Some(who) {
            return Ok(());
        }
        match given {
            Given::Event(event) => self.note_event(event),
            Given::Datagram(datagram) => self.note_datagram(datagram),
            Given::FailingSync => writeln!(self.lines, "fail sync 1"),
            Given::Crash(choice) => self.note_crash(choice),
            Given::Era => writeln!(self.lines, "rebase"),
        }
    }

    /// A member sends this.
    pub(crate) fn send(&mut self, who: usize, out: &Out) -> Result<(), AllocError> {
        if self.who != Some(who) {
            return Ok(());
        }
        let digits = digits_of(self.alloc, &out.datagram)?;
        let to = out.to;
        writeln!(self.sent, "send {to} taken {digits}")
    }
}
