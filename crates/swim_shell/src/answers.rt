//! What control answers.

ghost use Rattle.std.specs.Prelude.{◌≡◌, ◌+◌, ◌≤◌, ◌++◌, [], length, codes};
ghost use Rattle.std.specs.Fmt.{decimal};
ghost use Rattle.std.specs.List.{list_any};
ghost use Rattle.swim_shell.specs.Answers.{Replies, is_misdirected, is_stopped, joined_text, left_text, members_text, refusal_text, row_text, status_head, status_text};

use crate::caller::Refusal;
use crate::printer::{ANSWER_MAX, AnswerText, add_counted, add_endpoint, add_text};
use crate::request::Request;
use arrayvec::{ArrayString, ArrayVec};
use swim_member::{NOTES_MAX, Note};
use swim_node::{Reply, Status};
use swim_wire::{UPDATES_MAX, Update};

/// The answer to the line `reload` where the settings cannot be read again.
pub const SETTINGS_REFUSED: &str = "error 8 settings\n";

/// The most bytes of the line of a member.
const ROW_MAX: usize = 51;

/// A text as an answer, where it fits.
pub fn answer_of(text: &str) -> AnswerText
    ensures { length text.now ≤ ANSWER_MAX → result.bytes ≡ text.now }
{
    let mut answer = ArrayString::new();
    add_text(&mut answer, text);
    answer
}

/// Adds the line of a status up to the members that are held for alive.
fn add_head(answer: &mut AnswerText, status: &Status)
    requires { answer.old.bytes ≡ [] }
    ensures text { answer.new.bytes ≡ status_head status.now }
    ensures most { length answer.new.bytes ≤ 100 }
{
    add_text(answer, "ok ");
    add_text(answer, status.phase.name());
    add_counted(answer, " number ", status.number);
    add_counted(answer, " alive ", status.alive as u64);
}

/// Writes the line of a status.
pub(crate) fn add_status(answer: &mut AnswerText, status: &Status)
    requires { answer.old.bytes ≡ [] }
    ensures { answer.new.bytes ≡ status_text status.now }
{
    add_head(answer, status);
    add_counted(answer, " suspect ", status.suspect as u64);
    add_counted(answer, " confirmed ", status.confirmed as u64);
    add_counted(answer, " length ", status.length as u64);
    add_text(answer, "\n");
}

/// Adds the line of a member, where it fits.
fn add_row(answer: &mut AnswerText, row: &Update)
    ensures fits { length answer.old.bytes + ROW_MAX ≤ ANSWER_MAX
        → answer.new.bytes ≡ answer.old.bytes ++ row_text row.now }
    ensures most { length answer.new.bytes ≤ length answer.old.bytes + ROW_MAX }
{
    add_text(answer, row.kind.name());
    add_text(answer, " ");
    add_endpoint(answer, row.who);
    add_counted(answer, " ", row.number);
    add_text(answer, "\n");
}

/// Writes how many lines follow.
pub(crate) fn add_count(answer: &mut AnswerText, lines: usize)
    requires { answer.old.bytes ≡ [] }
    ensures text { answer.new.bytes ≡ codes "ok " ++ (decimal lines ++ codes "\n") }
    ensures most { length answer.new.bytes ≤ 24 }
{
    add_counted(answer, "ok ", lines as u64);
    add_text(answer, "\n");
}

/// Writes how many members a page has, and their lines.
fn add_members(answer: &mut AnswerText, page: &[Update])
    requires empty { answer.old.bytes ≡ [] }
    requires few { length page.now ≤ UPDATES_MAX }
    ensures { answer.new.bytes ≡ members_text page.now }
{
    add_count(answer, page.len());
    for row in page {
        add_row(answer, row);
    }
}

/// Whether the member takes no part.
fn has_stopped(notes: &ArrayVec<Note, NOTES_MAX>) -> bool
    ensures { result ≡ list_any is_stopped notes.now.items }
{
    notes
        .as_slice()
        .iter()
        .any(|note| matches!(note, Note::Stopped))
}

/// Whether the member was told to join itself.
fn is_to_itself(notes: &ArrayVec<Note, NOTES_MAX>) -> bool
    ensures { result ≡ list_any is_misdirected notes.now.items }
{
    notes
        .as_slice()
        .iter()
        .any(|note| matches!(note, Note::Misdirected))
}

/// Writes the answer to `join`.
fn add_joined(answer: &mut AnswerText, reply: &Reply)
    requires { answer.old.bytes ≡ [] }
    ensures { answer.new.bytes ≡ joined_text reply.now }
{
    if has_stopped(&reply.notes) {
        add_text(answer, "ok stopped\n");
    } else if is_to_itself(&reply.notes) {
        add_text(answer, "error 7 self\n");
    } else if reply.lost > 0 {
        add_text(answer, "ok lost\n");
    } else {
        add_text(answer, "ok sent\n");
    }
}

/// Writes the answer to `leave`.
fn add_left(answer: &mut AnswerText, reply: &Reply)
    requires { answer.old.bytes ≡ [] }
    ensures { answer.new.bytes ≡ left_text reply.now }
{
    if has_stopped(&reply.notes) {
        add_text(answer, "ok stopped\n");
    } else {
        add_text(answer, "ok left\n");
    }
}

/// Writes what the call of a request was answered. One that makes no call has no answer here.
pub(crate) fn add_reply(answer: &mut AnswerText, asked: Request, reply: &Reply)
    requires { answer.old.bytes ≡ [] }
    ensures { Replies asked reply.now answer.new.bytes }
{
    match asked {
        Request::Members(_) => add_members(answer, reply.page.as_slice()),
        Request::Join(_) => add_joined(answer, reply),
        Request::Leave => add_left(answer, reply),
        _ => {}
    }
}

/// Writes that a call was refused.
pub(crate) fn add_refusal(answer: &mut AnswerText, why: Refusal)
    requires { answer.old.bytes ≡ [] }
    ensures { answer.new.bytes ≡ refusal_text why }
{
    let text = match why {
        Refusal::Memory => "error 4 memory\n",
        Refusal::EraFull => "error 5 era full\n",
        Refusal::Unread => "error 6 unread\n",
    };
    add_text(answer, text);
}
