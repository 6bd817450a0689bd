//! Plays a recording, and tells what happened as of a script.

ghost use Rattle.std.specs.Prelude.{◌≡◌, List, All, Option, IfSome, IfOk, MatchResult};
ghost use Rattle.swim_node.specs.declared.entry.Entry.{Entry as Entries};
ghost use Rattle.swim_node.specs.History.{Base as Bases, IsLegal};
ghost use Rattle.swim_node.specs.Sending.{HasTexts};
ghost use Rattle.swim_record.specs.EraTimes.{IsEraTime};
ghost use Rattle.swim_record.specs.Recording.{recording_text};
ghost use Rattle.swim_record.specs.declared.time.EraTime.{EraTime as EraTimes};
ghost use Rattle.swim_replay.specs.Recorded.{IsRecorded};
ghost use Rattle.swim_replay.specs.declared.fault.RecordingReason.TheVariants.{NoMemory};

use crate::transcript::write_entry;
use std::alloc::{AllocError, Global};
use swim_node::{Entry, Replay};
use swim_replay::{RecordingFault, RecordingReason, play_recording};

/// What a recording did.
#[derive(Drop)]
pub struct Recorded {
    /// A line for each thing that happened, as for the events of a script.
    pub text: String,
    /// The era that it is of.
    pub era: Replay,
}

/// The lines of entries, in order.
fn write_entries(alloc: Global, entries: &[Entry]) -> Result<String, AllocError>
    requires { All HasTexts entries.now }
{
    let mut text = String::new(alloc);
    for entry in entries {
        write_entry(alloc, &mut text, entry)?;
    }
    Ok(text)
}

/// Plays a recording. What was played is the era of which the text is the recording, and its lines tell all that is in
/// its journal.
pub fn play_recorded(alloc: Global, text: &[u8]) -> Result<Recorded, RecordingFault>
    ensures legal { IfOk result (λ r. IsLegal r.era.base r.era.entries) }
    ensures exact { IfOk result (λ r. (time : Option EraTimes)
        × (text.now ≡ recording_text time r.era.base r.era.entries)) }
    // a text that was written as the recording of an era is played as that era, unless there was no memory
    ensures back { (time : Option EraTimes) (b : Bases) (entries : List Entries)
        → IfSome time IsEraTime → IsRecorded b entries
        → text.now ≡ recording_text time b entries
        → MatchResult result
        (λ r. (r.era.base ≡ b) × (r.era.entries ≡ entries))
        (λ fault. fault.reason ≡ NoMemory) }
{
    let era = match play_recording(alloc, text) {
        Ok(era) => era,
        Err(fault) => return Err(fault),
    };
    match write_entries(alloc, era.journal()) {
        Ok(text) => Ok(Recorded { text, era }),
        Err(_) => Err(RecordingFault {
            line: 1,
            reason: RecordingReason::NoMemory,
        }),
    }
}
