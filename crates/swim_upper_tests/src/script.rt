//! The faults of scripts, and the deals of their ticks.

use crate::same::{given, same, same_at};
use std::alloc::Global;
use std::test::Fail;
use swim_member::Event;
use swim_script::{Command, FaultKind, read_script};

/// The line and the kind of the script's fault.
fn fault_of(alloc: Global, script: &str) -> Option<(usize, FaultKind)> {
    match read_script(alloc, script.as_bytes()) {
        Ok(_) => None,
        Err(fault) => Some((fault.line, fault.kind)),
    }
}

#[test]
fn faulty_lines(rt: HostRuntime) {
    // Each has its fault in its first line.
    let table = [
        ("start\t1", FaultKind::Text),
        ("# a bell \x07", FaultKind::Text),
        ("stop", FaultKind::Command),
        (" start 1", FaultKind::Command),
        ("start", FaultKind::Argument),
        ("start 0", FaultKind::Argument),
        ("start 01", FaultKind::Argument),
        ("start +1", FaultKind::Argument),
        ("start 1 ", FaultKind::Argument),
        ("start 1 2", FaultKind::Argument),
        ("start 4611686018427387905", FaultKind::Argument),
        ("group 18446744073709551616", FaultKind::Argument),
        ("set lambda 1000001", FaultKind::Argument),
        ("set blocks 1", FaultKind::Argument),
        ("tick 4294967296", FaultKind::Argument),
        ("leave now", FaultKind::Argument),
        ("init 18446744073709551616", FaultKind::Argument),
        ("open 1", FaultKind::Argument),
        ("fail read 0", FaultKind::Argument),
        ("fail read 1000001", FaultKind::Argument),
        ("fail link 1", FaultKind::Argument),
        ("tear sync 1", FaultKind::Argument),
        ("halt", FaultKind::Argument),
        ("crash", FaultKind::Argument),
        ("crash twice", FaultKind::Argument),
        ("crash fill", FaultKind::Argument),
        ("crash fill a", FaultKind::Argument),
        ("crash fill a5a5", FaultKind::Argument),
        ("crash fill -", FaultKind::Argument),
        ("disk 65536 00", FaultKind::Argument),
        ("disk 0", FaultKind::Argument),
        ("disk 0 0", FaultKind::Argument),
        ("slots a", FaultKind::Argument),
    ];
    for (script, kind) in table {
        same_at(&rt, &script, fault_of(rt.alloc(), script), Some((1, kind)));
    }
}

#[test]
fn faulty_endpoints_and_hex(rt: HostRuntime) {
    let table = [
        "me 10.0.0.1",
        "me 10.0.0.1:0",
        "me 10.0.0.1:65536",
        "me 10.0.0.256:1",
        "me 10.0.0.01:1",
        "me 10.0.0:1",
        "recv 10.0.0.1:1",
        "recv 10.0.0.1:1 ",
        "recv 10.0.0.1:1 0",
        "recv 10.0.0.1:1 0g",
    ];
    for script in table {
        same_at(
            &rt,
            &script,
            fault_of(rt.alloc(), script),
            Some((1, FaultKind::Argument)),
        );
    }
}

#[test]
fn first_faulty_line(rt: HostRuntime) {
    let script = "start 1\n\n# frob\nfrob\nstart 0\n";
    same(
        &rt,
        fault_of(rt.alloc(), script),
        Some((4, FaultKind::Command)),
    );
    same(&rt, fault_of(rt.alloc(), ""), None);
}

/// A tick's deal begins with its number, and goes up cyclically.
#[test]
fn deals_of_ticks(rt: HostRuntime) -> Result<(), Fail> {
    let table = [
        ("tick 0", 0, 255),
        ("tick 2", 2, 1),
        ("tick 255", 255, 254),
        ("tick 256", 0, 255),
        ("tick 4294967295", 255, 254),
    ];
    for (script, first, last) in table {
        let commands = given(
            &rt,
            read_script(rt.alloc(), script.as_bytes()).map_err(|_| "a fault"),
        );
        let Some(Command::Happen(Event::Tick { deal })) = commands.first() else {
            return Err("a tick".into());
        };
        same_at(&rt, &script, deal.numbers().first(), Some(&first));
        same_at(&rt, &script, deal.numbers().last(), Some(&last));
    }
    Ok(())
}
