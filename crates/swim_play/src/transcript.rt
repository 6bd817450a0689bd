//! The text of a transcript.

ghost use Rattle.std.specs.Prelude.{◌≡◌, All};
ghost use Rattle.swim_wire.specs.Spelling.{HasText};
ghost use Rattle.swim_node.specs.Sending.{HasTexts};
ghost use Rattle.swim_play.specs.Text.{outcome_word, save_word};

use crate::session::OpeningOutcome;
use std::alloc::{AllocError, Global};
use std::fmt;
use std::fmt::Write;
use swim_member::{Note, Out};
use swim_node::{Entry, Outcome, Save, Status};
use swim_state::{Peers, Reading, slots_in};
use swim_wire::{Update, encode};

/// The name of what became of the ceiling.
fn save_name(save: Save) -> &'static str
    ensures { result.now ≡ save_word save }
{
    match save {
        Save::Kept => "none",
        Save::Done => "done",
        Save::Failed => "failed",
    }
}

/// The name of what became of a datagram.
fn outcome_name(outcome: Outcome) -> &'static str
    ensures { result.now ≡ outcome_word outcome }
{
    match outcome {
        Outcome::Taken => "taken",
        Outcome::Lost => "lost",
    }
}

/// The first line of an event.
#[derive(Clone, Copy)]
struct EventLine {
    status: Status,
    save: Save,
}

impl fmt::Display for EventLine {
    ghost use Rattle.std.specs.Prelude.{Some};
    ghost use Rattle.swim_play.specs.Text.{event_text};

    ghost output = { λ line. Some (event_text line.status line.save) };

    fn fmt<W: fmt::Write>(&self, f: &mut fmt::Formatter<W>) -> fmt::Result {
        let length = self.status.length;
        let number = self.status.number;
        let save = save_name(self.save);
        let phase = self.status.phase.name();
        write!(
            f,
            "event {length} save {save} number {number} phase {phase}"
        )
    }
}

fn write_status(text: &mut String, status: Status, save: Save) -> Result<(), AllocError> {
    let line = EventLine { status, save };
    writeln!(text, "{line}")
}

fn write_note(text: &mut String, note: Note) -> Result<(), AllocError> {
    writeln!(text, "note {note}")
}

fn write_row(text: &mut String, update: &Update) -> Result<(), AllocError> {
    let kind = update.kind.name();
    let who = update.who;
    let number = update.number;
    writeln!(text, "row {kind} {who} {number}")
}

fn write_send(
    alloc: Global,
    text: &mut String,
    out: &Out,
    outcome: Outcome,
) -> Result<(), AllocError>
    requires { HasText out.now.datagram }
{
    let bytes = encode(&out.datagram);
    let hex = hex::encode(alloc, bytes.as_slice())?;
    let to = out.to;
    let outcome = outcome_name(outcome);
    writeln!(text, "send {to} {outcome} {hex}")
}

/// The lines of an entry: the event, its notes, its page, its datagrams.
pub(crate) fn write_entry(alloc: Global, text: &mut String, entry: &Entry) -> Result<(), AllocError>
    requires { HasTexts entry.now }
{
    write_status(text, entry.reply.status, entry.save)?;
    for note in entry.reply.notes.as_slice() {
        write_note(text, *note)?;
    }
    for update in entry.reply.page.as_slice() {
        write_row(text, update)?;
    }
    for (out, outcome) in entry.outs.as_slice().iter().zip(entry.outcomes.as_slice()) {
        write_send(alloc, text, out, *outcome)?;
    }
    Ok(())
}

/// The line of what came of an opening, that of the line with this word.
pub(crate) fn write_opening(
    text: &mut String,
    word: &str,
    opening: OpeningOutcome,
) -> Result<(), AllocError> {
    match opening {
        OpeningOutcome::Begun(number) => writeln!(text, "{word} ok number {number}"),
        OpeningOutcome::Refused(refusal) => writeln!(text, "{refusal}"),
    }
}

fn write_slot(text: &mut String, reading: Reading) -> Result<(), AllocError> {
    match reading {
        Reading::Shut => write!(text, "closed"),
        Reading::Holds(saved) => {
            let ceiling = saved.ceiling;
            write!(text, "open {ceiling}")
        }
        Reading::Damaged => write!(text, "damaged"),
    }
}

/// The line of the slots of a state file, or of a disk that is missing.
pub(crate) fn write_slots(text: &mut String, image: Option<Vec<u8>>) -> Result<(), AllocError> {
    let Some(image) = image else {
        return writeln!(text, "no disk");
    };
    let slots = slots_in(&image);
    write!(text, "slots a ")?;
    write_slot(text, slots.a)?;
    write!(text, " b ")?;
    write_slot(text, slots.b)?;
    writeln!(text)
}

/// The line of the peers that the state file of the open member keeps, or of a member that is missing.
pub(crate) fn write_peers(text: &mut String, peers: Option<Peers>) -> Result<(), AllocError> {
    let Some(peers) = peers else {
        return writeln!(text, "no member");
    };
    write!(text, "peers")?;
    if peers.as_slice().is_empty() {
        write!(text, " none")?;
    }
    for peer in peers.as_slice() {
        write!(text, " {peer}")?;
    }
    writeln!(text)
}
