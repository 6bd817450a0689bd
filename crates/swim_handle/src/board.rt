//! What the workers of an era show of what they count, for the one that answers control lines.

ghost use Rattle.std.specs.Prelude.{◌≡◌};
ghost use Rattle.swim_handle.specs.Identities.{Tells};

use crate::call_log::CallLog;
use crate::crew::Crew;
use crate::identity::Identity;
use std::sync::atomic::{AtomicU64, Ordering};
use std::time::Clock;
use swim_shell::{
    CALL_COUNTS, COUNTERS, CallCounts, Counters, ERA_COUNTS, NOTE_KINDS, NOTES_FROM, Who,
};

/// What one worker shows. It alone writes here, and nobody waits for another.
#[derive(Drop)]
pub struct CounterRow {
    calls: [AtomicU64; CALL_COUNTS],
    notes: [AtomicU64; NOTE_KINDS],
}

/// Shows these counts. One that is shown already is only read, which costs less than a write.
fn show_all(cells: &[AtomicU64], counts: &[u64]) {
    for (cell, count) in cells.iter().zip(counts) {
        if cell.load(Ordering::SeqCst) != *count {
            cell.store(*count, Ordering::SeqCst);
        }
    }
}

/// Adds what is shown.
fn add_all(counts: &mut [u64], cells: &[AtomicU64]) {
    for (count, cell) in counts.iter_mut().zip(cells) {
        *count = count.saturating_add(cell.load(Ordering::SeqCst));
    }
}

impl CounterRow {
    /// Shows these counts at first.
    fn new(counts: &CallCounts) -> CounterRow {
        CounterRow {
            calls: counts.calls().map(|count| AtomicU64::new(count)),
            notes: counts.notes.map(|count| AtomicU64::new(count)),
        }
    }

    /// Shows the counts after a call, which may have had notes.
    pub(crate) fn show(&self, counts: &CallCounts, has_notes: bool) {
        show_all(&self.calls, &counts.calls());
        if has_notes {
            show_all(&self.notes, &counts.notes);
        }
    }

    /// Adds what is shown.
    fn add_to(&self, values: &mut [u64; COUNTERS]) {
        add_all(&mut values[ERA_COUNTS..NOTES_FROM], &self.calls);
        add_all(&mut values[NOTES_FROM..], &self.notes);
    }
}

/// What all workers of an era show. No contract can say what the others have shown: what is read here is what each of them
/// counted up to one of its last calls, and it never falls.
#[derive(Drop)]
pub struct SharedCounters {
    /// What became of the eras before.
    eras: [u64; ERA_COUNTS],
    /// Who the member is.
    identity: Identity,
    /// How many others it has to join.
    listed: usize,
    rows: Crew<CounterRow, CounterRow, CounterRow, CounterRow>,
}

impl SharedCounters {
    /// Of an era of this member that begins, after so many others, and after those calls of its workers; it has so many others to join.
    pub fn new(
        eras: [u64; ERA_COUNTS],
        logs: &Crew<CallLog, CallLog, CallLog, CallLog>,
        identity: Identity,
        listed: usize,
    ) -> SharedCounters
        ensures { (result.identity ≡ identity) × (result.listed ≡ listed) }
    {
        SharedCounters {
            eras,
            identity,
            listed,
            rows: Crew {
                receiver: CounterRow::new(logs.receiver.counts()),
                ticker: CounterRow::new(logs.ticker.counts()),
                sender: CounterRow::new(logs.sender.counts()),
                control: CounterRow::new(logs.control.counts()),
            },
        }
    }

    /// Where each worker shows what it counts.
    pub fn rows(&self) -> &Crew<CounterRow, CounterRow, CounterRow, CounterRow> {
        &self.rows
    }

    /// What the member tells of itself.
    pub(crate) fn tell<R: Clock>(&self, rt: &R) -> Who
        ensures { Tells self.now.identity self.now.listed result }
    {
        self.identity.tell(rt, self.listed)
    }

    /// What the member has done since it began.
    pub(crate) fn read(&self) -> Counters {
        let mut values = [0; COUNTERS];
        values[..ERA_COUNTS].copy_from_slice(&self.eras);
        self.rows.receiver.add_to(&mut values);
        self.rows.ticker.add_to(&mut values);
        self.rows.sender.add_to(&mut values);
        self.rows.control.add_to(&mut values);
        Counters { values }
    }
}
