//! Where an era begins, by the lines of a recording.

ghost use Rattle.std.specs.Prelude.{◌≡◌, ◌++◌, ◌∷◌, ◌≤◌, ℕ, List, length, IfSome, IfNone, IsSomeAnd, IsOkAnd, IfOk};
ghost use Rattle.swim_member.specs.Checks.{AreSound};
ghost use Rattle.swim_member.specs.declared.settings.Settings.{Settings as AllSettings};
ghost use Rattle.swim_node.specs.History.{Base as Bases};
ghost use Rattle.swim_record.specs.Recording.{member_line, times_line};
ghost use Rattle.swim_record.specs.declared.line.Line.{Line as Lines};
ghost use Rattle.swim_replay.specs.Machinery.Told.{started};
ghost use Rattle.swim_replay.specs.Recorded.{IsRecordedState, IsWord, base_lines};

use crate::fault::{RecordingFault, RecordingReason};
use crate::told::{add_told, blank, narrow};
use swim_member::{MemberState, Settings, SettingsFault};
use swim_node::Beginning;
use swim_record::{Line, Start};

/// The number of the line after the settings.
const TOLD_LINE: usize = 4;

/// Where an era begins, and how many lines say it.
#[derive(Drop)]
pub(crate) struct Begun {
    pub(crate) beginning: Beginning,
    pub(crate) lines: usize,
}

/// The settings that two lines say, and the limit of an era.
fn settings_of(member: Line, times: Line) -> Option<(Settings, u32)>
    ensures { (s : AllSettings) (limit : ℕ) → IsWord s.lambda → IsWord s.rules → IsWord limit
        → member ≡ member_line s → times ≡ times_line s limit
        → IsSomeAnd result (λ r. (r.0 ≡ s) × (r.1 ≡ limit)) }
{
    let Line::Member(group, me, lambda, rules) = member else {
        return None;
    };
    let Line::Times(times) = times else {
        return None;
    };
    let settings = Settings {
        group,
        me,
        lambda: narrow(lambda)?,
        period: times.period,
        direct: times.direct,
        suspect: times.suspect,
        forget: times.forget,
        helpers: times.helpers as usize,
        block: times.block,
        rules: narrow(rules)?,
    };
    Some((settings, narrow(times.limit)?))
}

/// The sound settings that the first two lines say, the limit of an era, and the other lines.
fn read_settings(lines: &[Line]) -> Result<(Settings, u32, &[Line]), RecordingReason>
    ensures sound { IfOk result (λ r. AreSound r.0) }
    ensures few { IfOk result (λ r. length r.2.now ≤ length lines.now) }
    ensures back { (s : AllSettings) (limit : ℕ) (told : List Lines)
        → AreSound s → IsWord s.lambda → IsWord s.rules → IsWord limit
        → lines.now ≡ member_line s ∷ times_line s limit ∷ told
        → IsOkAnd result (λ r. (r.0 ≡ s) × (r.1 ≡ limit) × (r.2.now ≡ told)) }
{
    let Some((member, others)) = lines.split_first() else {
        return Err(RecordingReason::NoSettings);
    };
    let Some((times, told)) = others.split_first() else {
        return Err(RecordingReason::NoSettings);
    };
    let Some((settings, limit)) = settings_of(*member, *times) else {
        return Err(RecordingReason::NoSettings);
    };
    match settings.check() {
        Ok(()) => Ok((settings, limit, told)),
        Err(fault) => Err(RecordingReason::Settings(fault)),
    }
}

/// The number of the line for which the settings are refused: the second or the third.
fn settings_line(lines: &[Line], reason: RecordingReason) -> usize {
    if let RecordingReason::Settings(fault) = reason {
        return match fault {
            SettingsFault::Lambda | SettingsFault::Rules => 2,
            _ => 3,
        };
    }
    match lines.first() {
        Some(Line::Member(_, _, lambda, rules))
            if narrow(*lambda).is_some() && narrow(*rules).is_some() => { 3 }
        _ => 2,
    }
}

/// Tells a member with what its era begins.
fn start_with(state: &mut MemberState, start: &Start) -> Option<()>
    ensures settings { state.new.settings ≡ state.old.settings }
    ensures some { IfSome result (λ _. state.new ≡ started state.old start.now) }
    ensures none { IfNone result (¬ (IsWord start.now.seq)) }
{
    state.seq = narrow(start.seq)?;
    state.number = start.number;
    state.phase = start.phase;
    state.time = start.time;
    state.place = start.place as usize;
    Some(())
}

/// Where an era begins, by the lines after the first one of its recording. Others may follow.
pub(crate) fn read_beginning(lines: &[Line]) -> Result<Begun, RecordingFault>
    ensures sound { IfOk result (λ begun. AreSound begun.beginning.state.settings) }
    ensures back { (b : Bases) (after : List Lines)
        → AreSound b.state.settings → IsRecordedState b.state → IsWord b.limit
        → lines.now ≡ base_lines b ++ after
        → IsOkAnd result (λ begun. (begun.beginning ≡ b)
        × (begun.lines ≡ length (base_lines b))) }
{
    let (settings, limit, told) = match read_settings(lines) {
        Ok(read) => read,
        Err(reason) => {
            let line = settings_line(lines, reason);
            return Err(RecordingFault { line, reason });
        }
    };
    let mut state = blank(settings);
    let (start, after) = match add_told(&mut state, told) {
        Ok(read) => read,
        Err((place, reason)) => {
            let line = place.saturating_add(TOLD_LINE);
            return Err(RecordingFault { line, reason });
        }
    };
    let count = lines.len() - after.len();
    let Some(()) = start_with(&mut state, &start) else {
        return Err(RecordingFault {
            line: count.saturating_add(1),
            reason: RecordingReason::NotTold,
        });
    };
    Ok(Begun {
        beginning: Beginning {
            state,
            granted: start.granted,
            past: start.past,
            limit,
        },
        lines: count,
    })
}
