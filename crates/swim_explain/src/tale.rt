//! What one recording tells of a member.

ghost use Rattle.std.specs.Prelude.{◌≡◌, None, IfErr, IfOk};
ghost use Rattle.swim_member.specs.Checks.{AreSound};
ghost use Rattle.swim_node.specs.declared.beginning.BeginFault.TheVariants.{NoMemory};
ghost use Rattle.swim_node.specs.Replaying.{begin_fault};
ghost use Rattle.swim_explain.specs.Story.{story};

use crate::fact::{Fact, Happening};
use crate::moments::moment;
use crate::telling::story;
use std::alloc::Global;
use swim_member::{Event, Settings};
use swim_node::{BeginFault, Beginning, Entry, Replay};
use swim_record::EraTime;
use swim_rules::Heard;
use swim_wire::{Endpoint, Update, UpdateKind};

/// What one recording tells of a member.
#[derive(Drop)]
pub struct Tale {
    /// The path of the recording.
    pub path: String,
    /// The settings of the member that tells it.
    pub settings: Settings,
    /// When its era was, if the recording says so.
    pub time: Option<EraTime>,
    /// The ticks that had counted where the era began.
    pub first_tick: u64,
    /// How many ticks it has.
    pub ticks: u64,
    /// What it tells, in order.
    pub story: Vec<Happening>,
}

/// What is held of a member after a fact, if that says so: what an update says, or nothing.
fn held_after(fact: &Fact, who: Endpoint) -> Option<Option<Update>> {
    let kind_and_number = match fact {
        Fact::Began { row } => return Some(row.map(|row| row.update)),
        Fact::Forgotten { .. } => return Some(None),
        Fact::Told {
            update,
            became: Heard::Accepted,
            ..
        } => (update.kind, update.number),
        Fact::Suspected { number, .. } => (UpdateKind::Suspect, *number),
        Fact::Confirmed { number, .. } => (UpdateKind::Confirm, *number),
        _ => return None,
    };
    let (kind, number) = kind_and_number;
    Some(Some(Update { kind, who, number }))
}

/// How many of these entries are ticks.
fn ticks_of(entries: &[Entry]) -> u64 {
    let ticks = entries
        .iter()
        .filter(|entry| matches!(entry.event, Event::Tick { .. }));
    ticks.count() as u64
}

impl Tale {
    /// Who tells it.
    pub fn teller(&self) -> Endpoint {
        self.settings.me
    }

    /// When it was that the happening came about, in milliseconds since the beginning of 1970.
    pub(crate) fn moment_of(&self, happening: &Happening) -> Option<u64> {
        moment(self.time?, happening.tick.saturating_sub(self.first_tick))
    }

    /// What is held of the member where the story begins.
    pub(crate) fn held_first(&self, who: Endpoint) -> Option<Update> {
        held_after(&self.story.first()?.fact, who)?
    }

    /// What is held of the member where it ends.
    pub(crate) fn held_last(&self, who: Endpoint) -> Option<Update> {
        let mut held = None;
        for happening in &self.story {
            if let Some(then) = held_after(&happening.fact, who) {
                held = then;
            }
        }
        held
    }
}

/// The settings of the member, and the ticks that had counted, where an era began.
fn start_of(beginning: &Beginning) -> (Settings, u64) {
    (beginning.state.settings, beginning.state.time)
}

/// What an era tells of a member: an era that began so, whose recording has this path and says that it was then. Err: no era
/// begins so, or there was no memory.
pub fn tale_of(
    alloc: Global,
    path: String,
    time: Option<EraTime>,
    beginning: Beginning,
    era: &Replay,
    who: Endpoint,
) -> Result<Tale, BeginFault>
    requires sound { AreSound beginning.state.settings }
    requires base { era.now.base ≡ beginning }
    ensures story { IfOk result (λ tale. tale.story.items
        ≡ story beginning.state who era.now.entries) }
    ensures time { IfOk result (λ tale. tale.time ≡ time) }
    // where an era may begin so, only memory can lack
    ensures refused { begin_fault beginning ≡ None → IfErr result (λ fault. fault ≡ NoMemory) }
{
    let (settings, first_tick) = start_of(&beginning);
    let ticks = ticks_of(era.journal());
    let story = story(alloc, beginning, era, who)?;
    Ok(Tale {
        path,
        settings,
        time,
        first_tick,
        ticks,
        story,
    })
}
