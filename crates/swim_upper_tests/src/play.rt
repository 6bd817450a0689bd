//! Whole transcripts. The other worked rows are scripts with their transcripts in `examples/scripts`.

use crate::same::{holds, same, same_at};
use std::alloc::Global;
use swim_play::play;

/// Whether the script has this transcript.
fn plays(alloc: Global, script: &str, transcript: &str) -> bool {
    match play(alloc, script.as_bytes()) {
        Ok(played) => played.text.as_str() == transcript,
        Err(_) => false,
    }
}

/// How many runs the script has, and how many lives, ended eras and entries they have in all.
fn counts_of(alloc: Global, script: &str) -> (usize, usize, usize, usize) {
    let Ok(played) = play(alloc, script.as_bytes()) else {
        return (0, 0, 0, 0);
    };
    let mut counts: (usize, usize, usize, usize) = (played.lives.len(), 0, 0, 0);
    for run in &played.lives {
        for life in &run.lives {
            counts.1 = counts.1.saturating_add(1);
            counts.2 = counts.2.saturating_add(life.eras().len());
            counts.3 = counts.3.saturating_add(life.last().journal().len());
            for era in life.eras() {
                counts.3 = counts.3.saturating_add(era.journal().len());
            }
        }
    }
    counts
}

#[test]
fn first_ping(rt: HostRuntime) {
    let script =
        "start 1\nrecv 10.0.0.2:7000 5357494d010100000000000000000007000000010a0000021b580a0000011b58\n";
    let transcript =
        "start ok number 1\nevent 1 save none number 1 phase running\nsend 10.0.0.2:7000 taken 5357494d010301000000000000000007000000010a0000011b580a0000011b5801000a0000011b580000000000000001\n";
    holds(&rt, plays(rt.alloc(), script, transcript));
}

#[test]
fn bad_senders(rt: HostRuntime) {
    let script =
        "start 1\nrecv 10.0.0.2:7000 -\nrecv 10.0.0.3:7000 5357494d010100000000000000000007000000010a0000021b580a0000011b58\n";
    let transcript =
        "start ok number 1\nevent 1 save none number 1 phase running\nnote 1 BadDatagram 1 TooShort\nevent 2 save none number 1 phase running\nnote 3 NotSender\n";
    holds(&rt, plays(rt.alloc(), script, transcript));
    same(&rt, counts_of(rt.alloc(), script), (1, 1, 0, 2));
}

/// Lines that make or overwrite a disk or name an owner part the lives; kills, crashes and refused openings do not.
#[test]
fn runs_of_lives(rt: HostRuntime) {
    let table = [
        ("", (0, 0, 0, 0)),
        ("tick 0\nopen\n", (0, 0, 0, 0)),
        (
            "init 0\nopen\ntick 0\nkill\nopen\ncrash keep\nhalt 1\nopen\ncrash drop\nopen\n",
            (1, 3, 0, 1),
        ),
        ("start 1\nkill\ninit 4\nopen\n", (2, 2, 0, 0)),
        (
            "start 1\ndisk 0 00\nkill\nopen\nkill\ndisk 1024 00\nopen\n",
            (2, 3, 0, 0),
        ),
        (
            "start 1\ngroup 7\nkill\nopen\nkill\nme 10.0.0.1:7000\nopen\n",
            (3, 3, 0, 0),
        ),
        (
            "set limit 2\nstart 1\ntick 0\ntick 0\ntick 0\nrebase\ntick 0\nrebase\n",
            (1, 1, 2, 3),
        ),
    ];
    for (script, counts) in table {
        same_at(&rt, &script, counts_of(rt.alloc(), script), counts);
    }
}
