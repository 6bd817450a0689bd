//! The first lines of a recording: its version, and when its era was.

ghost use Rattle.std.specs.Prelude.{◌≡◌, ◌++◌, ◌∷◌, ℕ, List, Option, Some, IfSome, IfNone, IsSomeAnd, IsOkAnd};
ghost use Rattle.swim_words.specs.Words.{No};
ghost use Rattle.swim_record.specs.EraTimes.{IsEraTime, time_text};
ghost use Rattle.swim_record.specs.Recording.{recording_head};
ghost use Rattle.swim_record.specs.declared.time.EraTime.{EraTime as EraTimes};
ghost use Rattle.swim_replay.specs.Versions.{version_text};
ghost use Rattle.swim_replay.specs.declared.heading.TextVersion.{TextVersion as Versions};

use crate::fault::{RecordingFault, RecordingReason};
use swim_record::{EraTime, read_time};
use swim_words::{Word, named, split_at_byte};

/// The version of a recording's text, which its first line says.
#[derive(Clone, Copy, Debug, PartialEq, Eq)]
pub enum TextVersion {
    /// It does not say when the era was.
    First,
    /// Its second line says when the era was.
    Second,
}

impl TextVersion {
    /// All of them.
    const ALL: [TextVersion; 2] = [TextVersion::First, TextVersion::Second];

    /// The version that the line is.
    fn of(line: &[u8]) -> Option<TextVersion>
        ensures version { IfSome result (λ v. line.now ≡ version_text v) }
        ensures none { IfNone result (No (λ v. line.now ≡ version_text v)) }
    {
        named(&TextVersion::ALL, line)
    }
}

impl Word for TextVersion {
    ghost text_of = { version_text };

    fn text(self) -> &'static str {
        match self {
            TextVersion::First => "recording 1",
            TextVersion::Second => "recording 2",
        }
    }
}

/// The version of a recording, by its first line, and what follows that.
pub fn after_first_line(text: &[u8]) -> Option<(TextVersion, &[u8])>
    ensures { (v : Versions) (rest : List ℕ) → text.now ≡ version_text v ++ 10 ∷ rest
        → IsSomeAnd result (λ r. (r.0 ≡ v) × (r.1.now ≡ rest)) }
{
    let (first, rest) = split_at_byte(text, b'\n')?;
    let version = TextVersion::of(first)?;
    Some((version, rest))
}

/// When an era was, if its recording says so, by how many lines, and what follows them.
#[derive(Clone, Copy)]
pub(crate) struct Headed<'a> {
    pub(crate) time: Option<EraTime>,
    pub(crate) time_lines: usize,
    pub(crate) body: &'a [u8],
}

/// Reads the line of a time, and what follows it.
fn read_second(text: &[u8]) -> Result<Headed<'_>, RecordingFault>
    ensures { (t : EraTimes) (body : List ℕ) → IsEraTime t
        → text.now ≡ time_text t ++ 10 ∷ body
        → IsOkAnd result (λ h. (h.time ≡ Some t) × (h.body.now ≡ body)) }
{
    let Some((time, body)) = read_time(text) else {
        return Err(RecordingFault {
            line: 2,
            reason: RecordingReason::NoTime,
        });
    };
    Ok(Headed {
        time: Some(time),
        time_lines: 1,
        body,
    })
}

/// Reads the first lines of a recording.
pub(crate) fn read_head(text: &[u8]) -> Result<Headed<'_>, RecordingFault>
    ensures { (time : Option EraTimes) (body : List ℕ) → IfSome time IsEraTime
        → text.now ≡ recording_head time ++ body
        → IsOkAnd result (λ h. (h.time ≡ time) × (h.body.now ≡ body)) }
{
    let Some((version, rest)) = after_first_line(text) else {
        return Err(RecordingFault {
            line: 1,
            reason: RecordingReason::NoRecording,
        });
    };
    match version {
        TextVersion::First => Ok(Headed {
            time: None,
            time_lines: 0,
            body: rest,
        }),
        TextVersion::Second => read_second(rest),
    }
}
