//! Recordings that are played. What is refused, and at which line, is in `tests/replayed`.

use crate::record::RECORDING;
use crate::same::{holds, holds_at, same};
use swim_explain::stories_name_causes;
use swim_member::Event;
use swim_node::Outcome;
use swim_replay::{RecordingReason, play_recording};

#[test]
fn a_recording_is_played(rt: HostRuntime) {
    let era = play_recording(rt.alloc(), RECORDING.as_bytes())
        .ok()
        .expect(&rt, "an era");
    let entries = era.journal();
    same(&rt, entries.len(), 4);
    for (place, caller, turn, granted) in [(0, 0, 1, 1), (1, 0, 2, 2), (2, 3, 1, 2), (3, 3, 2, 2)] {
        let entry = entries.get(place).expect(&rt, "an entry");
        same(&rt, entry.tag.caller, caller);
        same(&rt, entry.tag.turn, turn);
        same(&rt, entry.granted, granted);
    }
    let leave = entries.get(3).expect(&rt, "an entry");
    holds(&rt, matches!(leave.event, Event::Leave));
    same(
        &rt,
        leave.outcomes.as_slice().first().copied(),
        Some(Outcome::Lost),
    );
}

#[test]
fn a_text_without_the_first_lines_is_no_recording(rt: HostRuntime) {
    for (text, line, reason) in [
        ("", 1, RecordingReason::NoRecording),
        ("recording 1", 1, RecordingReason::NoRecording),
        ("recording 3\n", 1, RecordingReason::NoRecording),
        (
            "recording 2\nmember 7 10.0.0.1:7000 3 1\n",
            2,
            RecordingReason::NoTime,
        ),
        (
            "recording 2\nclock 1 2 100\nmember 7 10.0.0.1:7000 3 1\n",
            4,
            RecordingReason::NoSettings,
        ),
    ] {
        let is_refused = match play_recording(rt.alloc(), text.as_bytes()) {
            Ok(_) => false,
            Err(fault) => fault.line == line && fault.reason == reason,
        };
        holds_at(&rt, &text, is_refused);
    }
}

#[test]
fn the_law_of_stories_holds() {
    stories_name_causes();
}
