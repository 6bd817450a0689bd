//! What is logged of notes.

use crate::same::{given, holds, same};
use arrayvec::ArrayVec;
use log::kv::Source;
use log::sink::Memory;
use log::span::Spans;
use log::{Log, Metadata, Record};
use std::fmt::Display;
use std::io;
use std::test::Fail;
use std::time::{Clock, Duration};
use swim_handle::{LOGGED_MAX, NoteLog};
use swim_member::{Note, Phase};
use swim_node::{Reply, Status};
use swim_scenes::endpoint;
use swim_wire::{Rules, WireFault};

/// A clock that stands, beside a log in memory.
#[derive(Drop)]
pub(super) struct StandingClock {
    pub(super) second: u64,
    pub(super) lines: Memory,
}

impl Clock for StandingClock {
    fn monotonic(&self) -> io::Result<Duration> {
        Ok(Duration::from_secs(self.second))
    }

    fn since_1970(&self) -> io::Result<Duration> {
        Ok(Duration::from_secs(self.second))
    }
}

impl Log for StandingClock {
    fn enabled(&self, metadata: &Metadata<'_>) -> bool {
        self.lines.enabled(metadata)
    }

    fn log<D: Display, K: Source, S: Spans>(&self, record: &Record<'_, D, K, S>) {
        self.lines.log(record);
    }

    fn flush(&self) {}

    fn target(&self) -> &str {
        ""
    }
}

/// A reply with this note.
fn noted(note: Note) -> Reply {
    replied(Some(note), Phase::Running, 1)
}

/// A reply with this note or none, after which the member has this phase and number.
pub(super) fn replied(note: Option<Note>, phase: Phase, number: u64) -> Reply {
    let mut notes = ArrayVec::new();
    if let Some(note) = note {
        notes.push(note);
    }
    Reply {
        status: Status {
            phase,
            number,
            alive: 0,
            suspect: 0,
            confirmed: 0,
            length: 1,
        },
        notes,
        page: ArrayVec::new(),
        sent: 0,
        lost: 0,
    }
}

/// Of seven notes of one kind in a minute five are logged; that two were not is said in a later one. A note of another
/// kind is logged at once.
#[test]
fn left_out_notes(rt: HostRuntime) -> Result<(), Fail> {
    let mut clock = StandingClock {
        second: 5,
        lines: Memory::new(rt.alloc()),
    };
    let mut notes = NoteLog::new(Rules::Two);
    let from = endpoint(2);
    for _ in 0..LOGGED_MAX + 2 {
        notes.log(&clock, &noted(Note::OtherGroup), &from);
    }
    notes.log(&clock, &noted(Note::SendFailed(3)), &None);
    clock.second = 60;
    notes.log(&clock, &noted(Note::OtherGroup), &from);
    let lines = clock.lines.into_lines();
    let other =
        "10.0.0.2:7000 is of another group: it is ignored; look at its `group` and its `join` (note 2 OtherGroup)";
    let want = [
        other,
        other,
        other,
        other,
        other,
        "this member could not send 3 datagrams: look at the network; later probes and joins send them again (note 16 SendFailed 3)",
        "2 more of this kind in the same minute (note 2 OtherGroup)",
        other,
    ];
    same(&rt, lines.len(), want.len());
    for (line, want) in lines.as_slice().iter().zip(want) {
        holds(&rt, line.as_str().ends_with(want));
    }
    Ok(())
}

/// All notes, each as the only one of its kind.
const NOTES: [Note; 18] = [
    Note::BadDatagram(WireFault::TooLong),
    Note::OtherGroup,
    Note::NotSender,
    Note::FromSelf,
    Note::Leap,
    Note::NoNumberLeft,
    Note::TableFull,
    Note::Misdirected,
    Note::RelaysFull,
    Note::UnknownTarget,
    Note::Unasked,
    Note::SaveFailed,
    Note::Expelled,
    Note::Stopped,
    Note::ReceiveFailed,
    Note::SendFailed(3),
    Note::TimeOver,
    Note::OtherVersion,
];

/// The notes that a healthy group makes too.
const USUAL: [Note; 4] = [
    Note::Misdirected,
    Note::UnknownTarget,
    Note::Unasked,
    Note::Stopped,
];

/// Each note is one line at level warn, or at level debug if a healthy group makes it too. It begins with who did it, and ends with
/// the number and the name.
#[test]
fn every_note(rt: HostRuntime) -> Result<(), Fail> {
    for from in [None, endpoint(2)] {
        let clock = StandingClock {
            second: 5,
            lines: Memory::new(rt.alloc()),
        };
        let mut notes = NoteLog::new(Rules::Two);
        for note in NOTES {
            notes.log(&clock, &noted(note), &from);
        }
        let lines = clock.lines.into_lines();
        same(&rt, lines.len(), NOTES.len());
        for (line, note) in lines.as_slice().iter().zip(NOTES) {
            let end = given(&rt, format!(in rt.alloc(); " (note {note})"));
            holds(&rt, line.as_str().ends_with(end.as_str()));
            let level = if USUAL.contains(&note) {
                "[DEBUG"
            } else {
                "[WARN"
            };
            holds(&rt, line.as_str().starts_with(level));
            let is_own = from.is_none() || matches!(note, Note::SendFailed(_));
            let who = if is_own {
                "this member "
            } else {
                "10.0.0.2:7000 "
            };
            holds(&rt, line.as_str().contains(who));
        }
    }
    Ok(())
}

/// A member of the other rules is told with both, whatever the own ones are.
#[test]
fn other_rules(rt: HostRuntime) -> Result<(), Fail> {
    let rows = [
        (
            Rules::One,
            "has rules 2, this member 1: it is ignored; give both the same `rules` (note 18 OtherVersion)",
        ),
        (
            Rules::Two,
            "has rules 1, this member 2: it is ignored; give both the same `rules` (note 18 OtherVersion)",
        ),
    ];
    for (rules, want) in rows {
        let clock = StandingClock {
            second: 5,
            lines: Memory::new(rt.alloc()),
        };
        let mut notes = NoteLog::new(rules);
        notes.log(&clock, &noted(Note::OtherVersion), &endpoint(2));
        let lines = clock.lines.into_lines();
        same(&rt, lines.len(), 1);
        for line in lines.as_slice() {
            holds(&rt, line.as_str().ends_with(want));
        }
    }
    Ok(())
}

/// One note that was left out is said too, at a later turn that has no note of its own.
#[test]
fn one_left_out_note(rt: HostRuntime) -> Result<(), Fail> {
    let mut clock = StandingClock {
        second: 5,
        lines: Memory::new(rt.alloc()),
    };
    let mut notes = NoteLog::new(Rules::Two);
    for _ in 0..LOGGED_MAX + 1 {
        notes.log(&clock, &noted(Note::NotSender), &None);
    }
    clock.second = 60;
    notes.log(&clock, &replied(None, Phase::Running, 1), &None);
    let lines = clock.lines.into_lines();
    same(&rt, lines.len(), usize::from(LOGGED_MAX) + 1);
    let last = lines.as_slice().last().expect(&rt, "a line");
    holds(
        &rt,
        last.as_str().ends_with("1 more of this kind in the same minute (note 3 NotSender)"),
    );
    Ok(())
}

/// A member that takes no part any more notes it at each tick; that is logged once, in whatever minute.
#[test]
fn stopped_once(rt: HostRuntime) -> Result<(), Fail> {
    let mut clock = StandingClock {
        second: 5,
        lines: Memory::new(rt.alloc()),
    };
    let mut notes = NoteLog::new(Rules::Two);
    for minute in 5..8 {
        clock.second = minute * 60;
        notes.log(&clock, &noted(Note::Stopped), &None);
    }
    let lines = clock.lines.into_lines();
    same(&rt, lines.len(), 1);
    for line in lines.as_slice() {
        holds(&rt, line.as_str().ends_with("(note 14 Stopped)"));
    }
    Ok(())
}
