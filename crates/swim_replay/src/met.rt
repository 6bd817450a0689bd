//! What the lines before an event say of its call.

ghost use Rattle.std.specs.Prelude.{◌≡◌, ◌<◌, ◌≤◌, replicate, IfSome, IfNone, IfOk, IsOkAnd};
ghost use Rattle.swim_member.specs.declared.answer.TheConstants.{OUTS_MAX};
ghost use Rattle.swim_node.specs.declared.entry.Entry.{Entry as Entries};
ghost use Rattle.swim_node.specs.declared.entry.Outcome.TheVariants.{Taken};
ghost use Rattle.swim_record.specs.Recording.{met_lines};
ghost use Rattle.swim_record.specs.declared.line.Line.TheVariants as line;
ghost use Rattle.swim_replay.specs.Machinery.Calls.{IsMet, MayMeet, met_with};
ghost use Rattle.swim_replay.specs.Recorded.{IsRecordedCall};

use arrayvec::ArrayVec;
use swim_member::OUTS_MAX;
use swim_node::Outcome;
use swim_record::Line;

/// Callers are below this.
const CALLERS: u64 = 16;

/// What a call met: its caller, the ceiling that stood, and what became of each datagram, as many as there can be.
#[derive(Clone, Copy)]
pub(crate) struct Met {
    pub(crate) caller: u8,
    pub(crate) granted: u64,
    outcomes: [Outcome; OUTS_MAX],
}

impl Met {
    /// What a call met after this ceiling, of which nothing is said.
    fn nothing(granted: u64) -> Met
        ensures { result ≡ record {
          caller = 0;
          granted = granted;
          outcomes = replicate OUTS_MAX Taken;
        } }
    {
        Met {
            caller: 0,
            granted,
            outcomes: [Outcome::Taken; OUTS_MAX],
        }
    }

    /// The datagram at this place, from 1, was lost.
    fn lose(&mut self, place: u64) -> Option<()>
        ensures caller { self.new.caller ≡ self.old.caller }
        ensures some { IfSome result (λ _. self.new ≡ met_with self.old (line.Lost place)) }
        ensures none { IfNone result (¬ (MayMeet (line.Lost place))) }
    {
        if place == 0 || place > OUTS_MAX as u64 {
            return None;
        }
        self.outcomes[place as usize - 1] = Outcome::Lost;
        Some(())
    }

    /// Adds what a line says.
    fn add(&mut self, line: Line) -> Option<()>
        ensures caller { self.old.caller < 16 → self.new.caller < 16 }
        ensures some { IfSome result (λ _. self.new ≡ met_with self.old line) }
        ensures none { IfNone result (¬ (MayMeet line)) }
    {
        match line {
            Line::Caller(caller) => {
                if caller >= CALLERS {
                    return None;
                }
                self.caller = caller as u8;
                Some(())
            }
            Line::Granted(granted) => {
                self.granted = granted;
                Some(())
            }
            Line::Lost(place) => self.lose(place),
            _ => None,
        }
    }

    /// What became of the datagrams.
    pub(crate) fn outcomes(&self) -> ArrayVec<Outcome, OUTS_MAX>
        ensures { result.items ≡ self.now.outcomes }
    {
        ArrayVec::from(self.outcomes)
    }
}

/// What the lines say of a call that came after this ceiling. Err: the place of the first line that says nothing of a call.
pub(crate) fn read_met(granted: u64, lines: &[Line]) -> Result<Met, usize>
    ensures caller { IfOk result (λ met. met.caller < 16) }
    ensures back { (e : Entries) → IsRecordedCall e → lines.now ≡ met_lines granted e
        → IsOkAnd result (λ met. IsMet e met) }
{
    let mut met = Met::nothing(granted);
    for (place, line) in lines.iter().enumerate() {
        let Some(()) = met.add(*line) else {
            return Err(place);
        };
    }
    Ok(met)
}
