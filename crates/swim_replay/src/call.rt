//! A call of a recording.

ghost use Rattle.std.specs.Prelude.{◌≡◌, ◌<◌, ◌++◌, ℕ, List, length, IfOk, MatchResult};
ghost use Rattle.swim_node.specs.declared.entry.Entry.{Entry as Entries};
ghost use Rattle.swim_record.specs.Recording.{call_text};
ghost use Rattle.swim_replay.specs.Machinery.Calls.{IsMet};
ghost use Rattle.swim_replay.specs.Recorded.{IsRecordedCall};
ghost use Rattle.swim_replay.specs.declared.fault.RecordingReason.TheVariants.{NoMemory};

use crate::fault::RecordingReason;
use crate::met::{Met, read_met};
use std::alloc::Global;
use swim_member::Event;
use swim_record::{read_event, read_lines};
use swim_words::split_at_byte;

/// A call as it was read.
#[derive(Drop)]
pub(crate) struct Call<'a> {
    /// What it met.
    pub(crate) met: Met,
    /// What happened.
    pub(crate) event: Event,
    /// How many lines stand before that of the event.
    pub(crate) before: usize,
    /// What follows.
    pub(crate) rest: &'a [u8],
}

/// Reads a call after this ceiling from the front of a text. A fault has the place of its line.
pub(crate) fn read_call(
    alloc: Global,
    granted: u64,
    text: &[u8],
) -> Result<Call<'_>, (usize, RecordingReason)>
    ensures caller { IfOk result (λ call. call.met.caller < 16) }
    ensures shorter { IfOk result (λ call. length call.rest.now < length text.now) }
    ensures back { (e : Entries) (after : List ℕ) → IsRecordedCall e
        → text.now ≡ call_text granted e ++ after
        → MatchResult result
        (λ call. IsMet e call.met × (call.event ≡ e.event) × (call.rest.now ≡ after))
        (λ fault. fault.1 ≡ NoMemory) }
{
    let (lines, after) = match read_lines(alloc, text) {
        Ok(read) => read,
        Err(_) => return Err((0, RecordingReason::NoMemory)),
    };
    let met = match read_met(granted, &lines) {
        Ok(met) => met,
        Err(place) => return Err((place, RecordingReason::NotMet)),
    };
    let before = lines.len();
    let Some((word, rest)) = split_at_byte(after, b'\n') else {
        return Err((before, RecordingReason::Cut));
    };
    match read_event(alloc, word) {
        Ok(event) => Ok(Call {
            met,
            event,
            before,
            rest,
        }),
        Err(fault) => Err((before, RecordingReason::from(fault))),
    }
}
