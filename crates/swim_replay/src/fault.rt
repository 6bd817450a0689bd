//! Why no recording was played.

ghost use Rattle.std.specs.Prelude.{◌≡◌};

use swim_member::SettingsFault;
use swim_node::{ApplyFault, BeginFault};
use swim_record::EventFault;
use thiserror::Error;

/// What is wrong with a recording.
#[derive(Clone, Copy, Debug, PartialEq, Eq, Error)]
pub enum RecordingReason {
    /// The text does not begin with the first line of a recording.
    #[error("no recording")]
    NoRecording,
    /// The second line does not say when the era was.
    #[error("no time of the era")]
    NoTime,
    /// The line, one of the two after the first ones, is not that of the settings that stand there.
    #[error("no settings")]
    NoSettings,
    /// No member has this setting.
    #[error("settings refused {0}")]
    Settings(SettingsFault),
    /// The line says nothing of where an era begins, or more than a member has room for.
    #[error("no line of a beginning")]
    NotTold,
    /// No line says that the era begins.
    #[error("no era begins")]
    NoBegin,
    /// No era begins so.
    #[error("beginning refused {0}")]
    Beginning(BeginFault),
    /// The line says nothing of a call.
    #[error("no line of a call")]
    NotMet,
    /// The line has no end, or no event follows what was said of the next call.
    #[error("the last line has no end")]
    Cut,
    /// The call was not entered.
    #[error("call refused {0}")]
    Call(ApplyFault),
    /// The recording of what was played has another line here.
    #[error("another line is recorded here")]
    Differs,
    /// There was no memory.
    #[error("there is no memory")]
    NoMemory,
}

/// Why no recording was played.
#[derive(Clone, Copy, Debug, PartialEq, Eq, Error)]
#[error("line {line}: {reason}")]
pub struct RecordingFault {
    /// The line, counted from 1.
    pub line: usize,
    /// What is wrong with it.
    pub reason: RecordingReason,
}

impl RecordingFault {
    /// The same, so many lines further down.
    pub(crate) fn below(self, lines: usize) -> RecordingFault
        ensures { result.reason ≡ self.reason }
    {
        let line = self.line.saturating_add(lines);
        RecordingFault { line, ..self }
    }
}

impl From<EventFault> for RecordingReason {
    ghost use Rattle.std.specs.Prelude.{◌≡◌};
    ghost use Rattle.swim_record.specs.declared.event.EventFault.TheVariants as event;
    ghost use Rattle.swim_replay.specs.declared.fault.RecordingReason.TheVariants.{NoMemory};

    ghost from_gives = { λ fault reason. fault ≡ event.NoMemory → reason ≡ NoMemory };

    fn from(fault: EventFault) -> RecordingReason {
        match fault {
            EventFault::Unknown => RecordingReason::NotMet,
            EventFault::NoMemory => RecordingReason::NoMemory,
        }
    }
}

impl From<BeginFault> for RecordingReason {
    ghost use Rattle.std.specs.Prelude.{◌≡◌};
    ghost use Rattle.swim_node.specs.declared.beginning.BeginFault.TheVariants as begin;
    ghost use Rattle.swim_replay.specs.declared.fault.RecordingReason.TheVariants.{NoMemory};

    ghost from_gives = { λ fault reason. fault ≡ begin.NoMemory → reason ≡ NoMemory };

    fn from(fault: BeginFault) -> RecordingReason {
        match fault {
            BeginFault::NoMemory => RecordingReason::NoMemory,
            _ => RecordingReason::Beginning(fault),
        }
    }
}

impl From<ApplyFault> for RecordingReason {
    ghost use Rattle.std.specs.Prelude.{◌≡◌};
    ghost use Rattle.swim_node.specs.declared.fault.ApplyFault.TheVariants as apply;
    ghost use Rattle.swim_replay.specs.declared.fault.RecordingReason.TheVariants.{NoMemory};

    ghost from_gives = { λ fault reason. fault ≡ apply.NoMemory → reason ≡ NoMemory };

    fn from(fault: ApplyFault) -> RecordingReason {
        match fault {
            ApplyFault::NoMemory => RecordingReason::NoMemory,
            _ => RecordingReason::Call(fault),
        }
    }
}
