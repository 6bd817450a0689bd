//! Captures that were written by hand.

use crate::same::{same, same_at};
use std::alloc::{AllocError, Global};
use std::process::Abort;
use swim_check::{CaptureStop, LineFault, check};
use swim_group::Breach;
use swim_wire::{Endpoint, Update, UpdateKind, WireFault};

/// 10.0.0.1:7000 pings 10.0.0.2:7000, and says Alive of itself with the number 3.
const TELLS: &str =
    "10.0.0.1:7000 5357494d010101000000000000000007000000010a0000011b580a0000021b5801000a0000011b580000000000000003\n";

/// 10.0.0.2:7000 pings 10.0.0.1:7000, and says Suspect of it with the number 3.
const REPEATS: &str =
    "10.0.0.2:7000 5357494d010101000000000000000007000000010a0000021b580a0000011b5802000a0000011b580000000000000003\n";

/// The same with the number 4.
const PASSES: &str =
    "10.0.0.2:7000 5357494d010101000000000000000007000000010a0000021b580a0000011b5802000a0000011b580000000000000004\n";

/// These lines, one after another.
fn text(alloc: Global, lines: &[&str]) -> Result<Vec<u8>, AllocError> {
    let mut text = Vec::new(alloc);
    for line in lines {
        text.extend_from_slice(line.as_bytes())?;
    }
    Ok(text)
}

/// What the check of these lines says, if there is memory for them.
fn says(alloc: Global, lines: &[&str]) -> Option<Result<usize, CaptureStop>> {
    let text = text(alloc, lines).ok()?;
    Some(check(alloc, &text))
}

#[test]
fn keeps_or_breaks_the_law(rt: HostRuntime) {
    let passed = Update {
        kind: UpdateKind::Suspect,
        who: Endpoint::new(0x0a00_0001, 7000).unwrap(),
        number: 4,
    };
    let repeated = Update {
        number: 3,
        ..passed
    };
    same(&rt, says(rt.alloc(), &[]), Some(Ok(0)));
    same(&rt, says(rt.alloc(), &[TELLS, REPEATS, TELLS]), Some(Ok(3)));
    let broken = CaptureStop::Broken(3, passed, Breach::Passed);
    same(
        &rt,
        says(rt.alloc(), &[TELLS, REPEATS, PASSES]),
        Some(Err(broken)),
    );
    let early = CaptureStop::Broken(1, repeated, Breach::Passed);
    same(&rt, says(rt.alloc(), &[REPEATS, TELLS]), Some(Err(early)));
}

#[test]
fn refuses_lines(rt: HostRuntime) {
    let rows = [
        ("10.0.0.1:7000", LineFault::Cut),
        ("10.0.0.1:7000\n", LineFault::Words),
        ("10.0.0.1 00\n", LineFault::Endpoint),
        ("10.0.0.1:7000 0\n", LineFault::Hex),
        (
            "10.0.0.1:7000 00\n",
            LineFault::Datagram(WireFault::TooShort),
        ),
    ];
    for (line, fault) in rows {
        same_at(
            &rt,
            &line,
            says(rt.alloc(), &[TELLS, line]),
            Some(Err(CaptureStop::Line(2, fault))),
        );
    }
    // its datagram is by 10.0.0.1:7000
    let other =
        "10.0.0.3:7000 5357494d010101000000000000000007000000010a0000011b580a0000021b5801000a0000011b580000000000000003\n";
    let sender = CaptureStop::Line(1, LineFault::Sender);
    same(&rt, says(rt.alloc(), &[other]), Some(Err(sender)));
}
