//! A recording that is played.

ghost use Rattle.std.specs.Prelude.{◌≡◌, ◌≢◌, ◌⊎◌, ◌+◌, ◌^◌, ◌<◌, ◌≤◌, ◌∷◌, [], ◌++◌, ℕ, List, length, Option, IfSome, OnOk, IfOk, IfErr, IsSomeAnd, MatchResult};
ghost use Rattle.swim_member.specs.Checks.{AreSound};
ghost use Rattle.swim_node.specs.declared.entry.Entry.{Entry as Entries};
ghost use Rattle.swim_node.specs.History.{Base as Bases, IsLegal, IsNext, calls_by};
ghost use Rattle.swim_record.specs.declared.line.Line.{Line as Lines};
ghost use Rattle.swim_record.specs.Blocks.{AreFit};
ghost use Rattle.swim_record.specs.EraTimes.{IsEraTime};
ghost use Rattle.swim_record.specs.declared.time.EraTime.{EraTime as EraTimes};
ghost use Rattle.swim_record.specs.Recording.{calls_text, lines_text, recording_text};
ghost use Rattle.swim_replay.specs.Machinery.Calls.{IsMet, IsToCome};
ghost use Rattle.swim_replay.specs.Recorded.{IsPlayed, IsRecorded, IsWord, base_lines};
ghost use Rattle.swim_replay.specs.declared.fault.RecordingReason.TheVariants.{NoMemory};

use crate::beginning::read_beginning;
use crate::call::{Call, read_call};
use crate::fault::{RecordingFault, RecordingReason};
use crate::heading::read_head;
use crate::met::Met;
use std::alloc::Global;
use swim_member::Event;
use swim_node::{Beginning, Cause, Entry, Replay, Tag};
use swim_record::{EraTime, read_lines, recording};
use swim_words::split_at_byte;

/// What follows so many lines.
fn after_lines(text: &[u8], count: usize) -> Option<&[u8]>
    ensures { (lines : List Lines) (rest : List ℕ) → AreFit lines → length lines ≡ count
        → text.now ≡ lines_text lines ++ rest
        → IsSomeAnd result (λ r. r.now ≡ rest) }
{
    let mut rest = text;
    for _ in 0..count {
        let (_, after) = split_at_byte(rest, b'\n')?;
        rest = after;
    }
    Some(rest)
}

/// The turn of a caller's next call.
fn next_turn(era: &Replay, caller: u8) -> u32
    requires { caller < 16 }
    ensures { IsWord (length (calls_by caller era.now.entries) + 1)
        → result ≡ length (calls_by caller era.now.entries) + 1 }
{
    era.turns(caller).saturating_add(1)
}

/// Enters a call as the next one of its caller.
fn enter(era: &mut Replay, met: &Met, event: Event) -> Result<(), RecordingReason>
    requires { met.now.caller < 16 }
    ensures base { era.new.base ≡ era.old.base }
    ensures back { (e : Entries) → IsMet e met.now → event ≡ e.event
        → IsNext era.old.base era.old.entries e
        → length era.old.entries < era.old.base.limit
        → IsWord era.old.base.limit
        → MatchResult result
        (λ _. era.new.entries ≡ era.old.entries ++ e ∷ [])
        (λ reason. reason ≡ NoMemory) }
{
    let tag = Tag {
        caller: met.caller,
        turn: next_turn(era, met.caller),
    };
    let cause = Cause {
        tag,
        event,
        granted: met.granted,
        outcomes: met.outcomes(),
    };
    match era.enter(cause) {
        Ok(()) => Ok(()),
        Err(fault) => Err(RecordingReason::from(fault)),
    }
}

/// What is to be read next: the text that is left, the ceiling that stood last, and the number of the next line.
#[derive(Clone, Copy)]
struct LeftText<'a> {
    text: &'a [u8],
    granted: u64,
    line: usize,
}

/// Enters the first call that is left.
fn enter_next<'a>(
    alloc: Global,
    era: &mut Replay,
    left: LeftText<'a>,
) -> Result<LeftText<'a>, RecordingFault>
    ensures base { era.new.base ≡ era.old.base }
    ensures shorter { IfOk result (λ next.
        length next.text.now < length left.entry.text.now) }
    ensures back { (e : Entries) (others : List Entries)
        → IsToCome era.old left.entry.text.now left.entry.granted (e ∷ others)
        → MatchResult result
        (λ next. IsToCome era.new next.text.now next.granted others
        × (era.new.entries ≡ era.old.entries ++ e ∷ []))
        (λ fault. fault.reason ≡ NoMemory) }
{
    let call = match read_call(alloc, left.granted, left.text) {
        Ok(call) => call,
        Err((place, reason)) => {
            let line = left.line.saturating_add(place);
            return Err(RecordingFault { line, reason });
        }
    };
    let Call {
        met,
        event,
        before,
        rest,
    } = call;
    let line = left.line.saturating_add(before);
    match enter(era, &met, event) {
        Ok(()) => Ok(LeftText {
            text: rest,
            granted: met.granted,
            line: line.saturating_add(1),
        }),
        Err(reason) => Err(RecordingFault { line, reason }),
    }
}

/// Enters the calls that are left.
fn enter_calls(alloc: Global, era: &mut Replay, first: LeftText<'_>) -> Result<(), RecordingFault>
    ensures base { era.new.base ≡ era.old.base }
    ensures back { (entries : List Entries)
        → IsToCome era.old first.entry.text.now first.entry.granted entries
        → MatchResult result
        (λ _. era.new.entries ≡ era.old.entries ++ entries)
        (λ fault. fault.reason ≡ NoMemory) }
{
    let mut left = first;
    while !left.text.is_empty() {
        left = enter_next(alloc, era, left)?;
    }
    Ok(())
}

/// An era that began, where it began, and its calls that are left.
#[derive(Drop)]
struct OpenedEra<'a> {
    beginning: Beginning,
    era: Replay,
    left: LeftText<'a>,
}

/// The front of a recording: where the era begins, the number of the last line that says it, and what follows.
#[derive(Drop)]
struct RecordingFront<'a> {
    beginning: Beginning,
    line: usize,
    rest: &'a [u8],
}

/// Reads the front of a recording after its first line.
fn read_front(alloc: Global, text: &[u8]) -> Result<RecordingFront<'_>, RecordingFault>
    ensures sound { IfOk result (λ front. AreSound front.beginning.state.settings) }
    ensures back { (b : Bases) (entries : List Entries) → IsRecorded b entries
        → text.now ≡ lines_text (base_lines b) ++ calls_text b.granted entries
        → MatchResult result
        (λ front. (front.beginning ≡ b) × (front.rest.now ≡ calls_text b.granted entries))
        (λ fault. fault.reason ≡ NoMemory) }
{
    let lines = match read_lines(alloc, text) {
        Ok((lines, _)) => lines,
        Err(_) => return Err(RecordingFault {
            line: 2,
            reason: RecordingReason::NoMemory,
        }),
    };
    let begun = read_beginning(&lines)?;
    let line = begun.lines.saturating_add(1);
    match after_lines(text, begun.lines) {
        Some(rest) => Ok(RecordingFront {
            beginning: begun.beginning,
            line,
            rest,
        }),
        None => Err(RecordingFault {
            line,
            reason: RecordingReason::Cut,
        }),
    }
}

/// Begins an era with what stands after the first line of its recording.
fn open(alloc: Global, text: &[u8]) -> Result<OpenedEra<'_>, RecordingFault>
    ensures base { IfOk result (λ opened. opened.era.base ≡ opened.beginning) }
    ensures sound { IfOk result (λ opened. AreSound opened.beginning.state.settings) }
    ensures back { (b : Bases) (entries : List Entries) → IsRecorded b entries
        → text.now ≡ lines_text (base_lines b) ++ calls_text b.granted entries
        → MatchResult result
        (λ opened. (opened.beginning ≡ b) × (opened.era.entries ≡ [])
        × IsToCome opened.era opened.left.text.now opened.left.granted entries)
        (λ fault. fault.reason ≡ NoMemory) }
{
    let RecordingFront {
        beginning,
        line,
        rest,
    } = read_front(alloc, text)?;
    let left = LeftText {
        text: rest,
        granted: beginning.granted,
        line: line.saturating_add(1),
    };
    match Replay::begin(alloc, beginning.copy()) {
        Ok(era) => Ok(OpenedEra {
            beginning,
            era,
            left,
        }),
        Err(fault) => Err(RecordingFault {
            line,
            reason: RecordingReason::from(fault),
        }),
    }
}

/// The number of the line, counted from 1, at which two texts differ first.
fn differing_line(one: &[u8], other: &[u8]) -> usize {
    let mut line: usize = 1;
    for (a, b) in one.iter().zip(other) {
        if *a != *b {
            return line;
        }
        if *a == b'\n' {
            line = line.saturating_add(1);
        }
    }
    line
}

/// Judges whether a text is the recording of an era that was at this time, began so and had these entries.
fn check_text(
    alloc: Global,
    time: Option<EraTime>,
    beginning: &Beginning,
    entries: &[Entry],
    text: &[u8],
) -> Result<(), RecordingFault>
    ensures ok { OnOk result (text.now ≡ recording_text time beginning.now entries.now) }
    ensures refused { IfErr result (λ fault. (fault.reason ≡ NoMemory)
        ⊎ (text.now ≢ recording_text time beginning.now entries.now)) }
{
    let written = match recording(alloc, time, beginning, entries) {
        Ok(written) => written,
        Err(_) => return Err(RecordingFault {
            line: 1,
            reason: RecordingReason::NoMemory,
        }),
    };
    let written = written.as_bytes();
    if written == text {
        return Ok(());
    }
    Err(RecordingFault {
        line: differing_line(written, text),
        reason: RecordingReason::Differs,
    })
}

/// An era that was played: when it was, if its recording says so, and where it began.
#[derive(Drop)]
pub struct Played {
    /// When it was. Recordings of the first version do not say it.
    pub time: Option<EraTime>,
    /// Where it began.
    pub beginning: Beginning,
    /// The era.
    pub era: Replay,
}

/// Where an era began, and the era, which was played.
#[derive(Drop)]
struct Body {
    beginning: Beginning,
    era: Replay,
}

/// Plays what stands after the first lines of a recording. An error counts the lines as if there were one of those.
fn play_body(alloc: Global, body: &[u8]) -> Result<Body, RecordingFault>
    ensures base { IfOk result (λ played. played.era.base ≡ played.beginning) }
    ensures sound { IfOk result (λ played. AreSound played.beginning.state.settings) }
    ensures back { (b : Bases) (entries : List Entries) → IsRecorded b entries
        → body.now ≡ lines_text (base_lines b) ++ calls_text b.granted entries
        → MatchResult result
        (λ played. (played.beginning ≡ b) × (played.era.entries ≡ entries))
        (λ fault. fault.reason ≡ NoMemory) }
{
    let OpenedEra {
        beginning,
        mut era,
        left,
    } = open(alloc, body)?;
    enter_calls(alloc, &mut era, left)?;
    Ok(Body { beginning, era })
}

/// The era of which a text is the recording, played again, with when it was and where it began. It plays what the lines say and
/// writes the recording of that, which is to be the same text: so it needs memory for another one.
pub fn play_from(alloc: Global, text: &[u8]) -> Result<Played, RecordingFault>
    ensures base { IfOk result (λ played. played.era.base ≡ played.beginning) }
    ensures sound { IfOk result (λ played. AreSound played.beginning.state.settings) }
    ensures legal { IfOk result (λ played. IsLegal played.era.base played.era.entries) }
    ensures exact { IfOk result (λ played. text.now
        ≡ recording_text played.time played.era.base played.era.entries) }
    ensures back { (time : Option EraTimes) (b : Bases) (entries : List Entries)
        → IfSome time IsEraTime → IsRecorded b entries
        → text.now ≡ recording_text time b entries
        → MatchResult result
        (λ played. (played.time ≡ time)
        × (played.era.base ≡ b) × (played.era.entries ≡ entries))
        (λ fault. fault.reason ≡ NoMemory) }
{
    let head = read_head(text)?;
    let Body { beginning, era } = match play_body(alloc, head.body) {
        Ok(played) => played,
        Err(fault) => return Err(fault.below(head.time_lines)),
    };
    check_text(alloc, head.time, &beginning, era.journal(), text)?;
    Ok(Played {
        time: head.time,
        beginning,
        era,
    })
}

/// The era of which a text is the recording, played again.
pub fn play_recording(alloc: Global, text: &[u8]) -> Result<Replay, RecordingFault>
    ensures legal { IfOk result (λ era. IsLegal era.base era.entries) }
    ensures exact { IfOk result (λ era. (time : Option EraTimes)
        × (text.now ≡ recording_text time era.base era.entries)) }
    ensures back { (time : Option EraTimes) (b : Bases) (entries : List Entries)
        → IfSome time IsEraTime → IsRecorded b entries
        → text.now ≡ recording_text time b entries
        → IsPlayed b entries result }
{
    Ok(play_from(alloc, text)?.era)
}
