//! What is logged of the own number.

use super::notes::{StandingClock, replied};
use crate::same::{holds, same};
use log::sink::Memory;
use std::test::Fail;
use swim_handle::NumberLog;
use swim_member::{Note, Phase};

/// A call: which number its datagram said of the member, what was replied to it, and how the line ends that is logged,
/// if any is.
#[derive(Clone, Copy)]
struct Call {
    said: u64,
    note: Option<Note>,
    phase: Phase,
    number: u64,
    logged: Option<&'static str>,
}

/// A call of a running member.
fn called(said: u64, note: Option<Note>, number: u64, logged: Option<&'static str>) -> Call {
    Call {
        said,
        note,
        phase: Phase::Running,
        number,
        logged,
    }
}

const KEEPS_1: &str =
    "ERROR swim_handle::call_log] the group knows this member by incarnation 4, above its own 1, and it keeps its own: the state file is older than a life of this member, or a second member has its address, or the datagram is forged; see \"Backups and copies\" in OPERATIONS.md";

const RAISED_TO_6: &str =
    "by incarnation 5, above its own 1, and it goes on with a greater one: the state file is older than a life of this member, or a second member has its address, or the datagram is forged; see \"Backups and copies\" in OPERATIONS.md";

const EXPELLED: &str =
    "by incarnation 9, above its own 6, and it takes no part any more: the state file is older than a life of this member, or a second member has its address, or the datagram is forged; see \"Backups and copies\" in OPERATIONS.md";

const FAILING_6: &str =
    "ERROR swim_handle::call_log] the state file cannot be written: this member goes on with incarnation 6, and can refute no suspicion until it can be; look at the disk";

const FAILING_7: &str =
    "this member goes on with incarnation 7, and can refute no suspicion until it can be; look at the disk";

/// The calls of one life that begins with number 1. A number of another life is told once, and not where its datagram was
/// not taken. A failed save is told once until a number is taken again.
fn calls() -> [Call; 15] {
    let expelled = Call {
        said: 9,
        note: Some(Note::Expelled),
        phase: Phase::Expelled,
        number: 7,
        logged: None,
    };
    [
        called(0, None, 1, None),
        called(1, None, 1, None),
        called(4, Some(Note::OtherGroup), 1, None),
        called(4, Some(Note::NotSender), 1, None),
        called(4, Some(Note::FromSelf), 1, None),
        called(4, Some(Note::OtherVersion), 1, None),
        called(4, None, 1, Some(KEEPS_1)),
        called(4, None, 1, None),
        called(5, None, 6, Some(RAISED_TO_6)),
        called(6, Some(Note::SaveFailed), 6, Some(FAILING_6)),
        called(6, Some(Note::SaveFailed), 6, None),
        Call {
            logged: Some(EXPELLED),
            number: 6,
            ..expelled
        },
        called(6, None, 7, None),
        called(7, Some(Note::SaveFailed), 7, Some(FAILING_7)),
        expelled,
    ]
}

/// Each call logs the line that is wanted of it, or none.
#[test]
fn number_lines(rt: HostRuntime) -> Result<(), Fail> {
    let clock = StandingClock {
        second: 5,
        lines: Memory::new(rt.alloc()),
    };
    let mut numbers = NumberLog::new();
    let all = calls();
    let mut own = 1;
    for call in &all {
        let reply = replied(call.note, call.phase, call.number);
        numbers.log(&clock, own, call.said, &reply);
        own = call.number;
    }
    let lines = clock.lines.into_lines();
    let mut lines = lines.as_slice().iter();
    for want in all.iter().filter_map(|call| call.logged) {
        let line = lines.next().expect(&rt, "a line");
        holds(&rt, line.as_str().ends_with(want));
    }
    holds(&rt, lines.next().is_none());
    Ok(())
}

/// Of seven greater and greater numbers of other lives, which a stranger may have made up, five are logged.
#[test]
fn numbers_without_end(rt: HostRuntime) -> Result<(), Fail> {
    let clock = StandingClock {
        second: 5,
        lines: Memory::new(rt.alloc()),
    };
    let mut numbers = NumberLog::new();
    for said in 2..9 {
        numbers.log(&clock, 1, said, &replied(None, Phase::Running, 1));
    }
    same(&rt, clock.lines.into_lines().len(), 5);
    Ok(())
}
