//! What is logged of changes of members.

use crate::same::{holds, same};
use log::kv::Source;
use log::sink::Memory;
use log::span::Spans;
use log::{Log, Metadata, Record, info, warn};
use std::cell::Cell;
use std::fmt::Display;
use std::io;
use std::test::Fail;
use std::time::{Clock, Duration};
use swim_handle::{CHANGES_MAX, ChangeLog};

/// A clock that is set while others have it, beside a log in memory.
#[derive(Drop)]
struct TurnedClock {
    second: Cell<u64>,
    lines: Memory,
}

impl Clock for TurnedClock {
    fn monotonic(&self) -> io::Result<Duration> {
        Ok(Duration::from_secs(self.second.get()))
    }

    fn since_1970(&self) -> io::Result<Duration> {
        self.monotonic()
    }
}

impl Log for TurnedClock {
    fn enabled(&self, metadata: &Metadata<'_>) -> bool {
        self.lines.enabled(metadata)
    }

    fn log<D: Display, K: Source, S: Spans>(&self, record: &Record<'_, D, K, S>) {
        self.lines.log(record);
    }

    fn flush(&self) {}

    fn target(&self) -> &str {
        ""
    }
}

/// Two changes more than a minute takes, and a warning; another change in the next minute.
fn tell(clock: &TurnedClock) {
    let log = ChangeLog::new(clock);
    for change in 0..CHANGES_MAX + 2 {
        info!(log; "change {change}");
    }
    warn!(log; "a warning");
    log.tell_left_out();
    clock.second.set(120);
    log.tell_left_out();
    log.tell_left_out();
    info!(log; "another change");
}

/// So many changes are told in a minute, and a warning beside them; those that were left out are counted, once.
#[test]
fn bounded(rt: HostRuntime) -> Result<(), Fail> {
    let clock = TurnedClock {
        second: Cell::new(60),
        lines: Memory::new(rt.alloc()),
    };
    tell(&clock);
    let lines = clock.lines.into_lines();
    let told = lines.as_slice();
    same(&rt, told.len(), CHANGES_MAX as usize + 3);
    let last = told
        .get(CHANGES_MAX as usize..)
        .expect(&rt, "the last lines");
    let wanted = [
        "a warning",
        "2 more changes of members in the same minute; `swim members` shows all rows",
        "another change",
    ];
    for (line, wanted) in last.iter().zip(wanted) {
        holds(&rt, line.as_str().ends_with(wanted));
    }
    Ok(())
}
