//! A control connection.

ghost use Rattle.std.specs.Prelude.{◌≡◌, ◌≤◌, [], None, length};
ghost use Rattle.swim_shell.specs.Answers.{Answers, ShowsAbout, ShowsCounters, ShowsStatus, end_of};
ghost use Rattle.swim_shell.specs.Control.{carried};

use crate::about::add_about;
use crate::answer_writer::{AnswerWriter, WriteOutcome};
use crate::answers::{add_refusal, add_reply, add_status};
use crate::caller::{Observer, Refusal};
use crate::counters::add_counters;
use crate::lines::{LineReader, NoLine};
use crate::printer::{ANSWER_MAX, AnswerText, add_text};
use crate::request::{Request, understand};
use crate::worker::Worker;
use arrayvec::ArrayString;
use std::io::{Read, Write};
use std::marker::Model;
use swim_member::Event;
use thiserror::Error;

/// How a conversation ended itself.
#[derive(Clone, Copy, Debug, PartialEq, Eq, Error)]
pub enum ControlEnd {
    /// Its input ended.
    #[error("Closed")]
    Closed,
    /// The line `stop` was answered.
    #[error("Asked")]
    Asked,
    /// The line `record` was answered: the era is to end, and the connection goes on in the next one.
    #[error("EraAsked")]
    EraAsked,
    /// The line `reload` was heard: the era is to end, and the connection gets its answer in the next one.
    #[error("Reloading")]
    Reloading,
    /// A read failed.
    #[error("ReadFault")]
    ReadFault,
    /// An answer was not written.
    #[error("WriteFault")]
    WriteFault,
    /// The call of its last line was refused, or there was no status to show.
    #[error("{0}")]
    Refused(Refusal),
}

/// How a line ends a conversation, once it is answered.
#[derive(Clone, Copy, Debug, PartialEq, Eq)]
enum LineEnd {
    /// It is `stop`.
    Asked,
    /// It is `record`.
    EraAsked,
    /// It is `reload`.
    Reloading,
    /// Its call was refused, or there was no status to show.
    Refused(Refusal),
}

/// Answers the control lines of one connection, at most one a turn. A line that the end of input cuts is not answered.
///
/// The reader and the writer may answer `WouldBlock`: the turn ends then, and later turns go on with the part of a line
/// that was read, and with what is left of an answer. So a conversation may also be run again, with another caller, after
/// its gate stopped it or a call was refused. An end comes once all answers are written; one that is due for a refused call
/// is forgotten where another caller comes first.
#[derive(Drop)]
pub struct Conversation<Rd: Read + Drop, Wr: Write + Drop> {
    lines: LineReader<Rd>,
    answers: AnswerWriter<Wr>,
    /// How the last line ends it.
    due: Option<LineEnd>,
    /// Whether nothing had come in its last turn.
    is_silent: bool,
    /// Whether what its line `reload` asks for is being made ready.
    is_prepared_for: bool,
}

impl<Rd: Read + Drop, Wr: Write + Drop> Model for Conversation<Rd, Wr> {
    ghost use Rattle.swim_shell.specs.Views.{ConversationView, is_out, kept_of, left_of};

    ghost Value = { ConversationView };

    ghost view = { λ c. record {
      comes = Rd.remaining c.lines.input.reader;
      kept = kept_of c.lines;
      gone = Wr.contents c.answers.writer;
      left = left_of c.answers;
      out = is_out c.answers;
      due = c.due;
      silent = c.is_silent;
      prepared = c.is_prepared_for;
    } };
}

/// Writes the status. Says why it could not, if there is no reading of it.
fn show_status<C: Observer>(caller: &mut C, answer: &mut AnswerText) -> Option<Refusal>
    requires { answer.old.bytes ≡ [] }
    ensures { ShowsStatus (C.known caller.old) (C.known caller.new) result answer.new.bytes }
{
    match caller.status() {
        Some(status) => {
            add_status(answer, &status);
            None
        }
        None => {
            add_refusal(answer, Refusal::Unread);
            Some(Refusal::Unread)
        }
    }
}

/// Writes who the member is, and whether it is alone. Says why it could not, if there is no reading of its status.
fn show_about<C: Observer>(caller: &mut C, answer: &mut AnswerText) -> Option<Refusal>
    requires { answer.old.bytes ≡ [] }
    ensures { ShowsAbout (C.known caller.old) (C.known caller.new) result answer.new.bytes }
{
    match caller.status() {
        Some(status) => {
            add_about(answer, &caller.who().with(&status));
            None
        }
        None => {
            add_refusal(answer, Refusal::Unread);
            Some(Refusal::Unread)
        }
    }
}

/// Writes what the member has done, for which no call is made, and so none is refused.
fn show_counters<C: Observer>(caller: &mut C, answer: &mut AnswerText) -> Option<Refusal>
    requires { answer.old.bytes ≡ [] }
    ensures { ShowsCounters (C.known caller.old) (C.known caller.new) result answer.new.bytes }
{
    add_counters(answer, &caller.counters());
    None
}

/// Writes a text for which no call is made, and so none is refused.
fn say(answer: &mut AnswerText, text: &str) -> Option<Refusal>
    requires { answer.old.bytes ≡ [] }
    ensures none { result ≡ None }
    ensures text { length text.now ≤ ANSWER_MAX → answer.new.bytes ≡ text.now }
{
    add_text(answer, text);
    None
}

/// Does what is asked, and writes the answer. Says why its call was refused, if it was.
fn respond<C: Observer>(caller: &mut C, answer: &mut AnswerText, asked: Request) -> Option<Refusal>
    requires { answer.old.bytes ≡ [] }
    ensures { Answers C.limit asked (C.known caller.old) (C.known caller.new) result
        answer.new.bytes }
{
    let event = match asked {
        Request::Status => return show_status(caller, answer),
        Request::Members(after) => Event::Members { after },
        Request::Join(peer) => Event::Join { peer },
        Request::Leave => Event::Leave,
        Request::Stop => return say(answer, "ok stopping\n"),
        Request::Record => return say(answer, "ok era ends\n"),
        Request::Counters => return show_counters(caller, answer),
        Request::Reload => return say(answer, ""),
        Request::About => return show_about(caller, answer),
        Request::Unknown => return say(answer, "error 1 unknown\n"),
        Request::Address => return say(answer, "error 2 address\n"),
        Request::TooLong => return say(answer, "error 3 too long\n"),
    };
    match caller.call(event) {
        Ok(reply) => {
            add_reply(answer, asked, &reply);
            None
        }
        Err(why) => {
            add_refusal(answer, why);
            Some(why)
        }
    }
}

/// How a line ends a conversation, if it does.
fn end_of(refused: Option<Refusal>, asked: &Request) -> Option<LineEnd>
    ensures { result ≡ end_of refused asked.now }
{
    match (refused, asked) {
        (Some(Refusal::Memory), _) => None,
        (Some(why), _) => Some(LineEnd::Refused(why)),
        (None, Request::Stop) => Some(LineEnd::Asked),
        (None, Request::Record) => Some(LineEnd::EraAsked),
        (None, Request::Reload) => Some(LineEnd::Reloading),
        (None, _) => None,
    }
}

/// The end that stays due with another caller. That for a call which the former one refused does not, nor that of its era; one by
/// `reload` does, since nothing was read again yet.
fn carried(due: Option<LineEnd>) -> Option<LineEnd>
    ensures { result ≡ carried due }
{
    match due {
        Some(LineEnd::Refused(_) | LineEnd::EraAsked) => None,
        _ => due,
    }
}

impl<Rd: Read + Drop, Wr: Write + Drop> Conversation<Rd, Wr> {
    ghost use Rattle.std.specs.Prelude.{◌≡◌, ◌≢◌, true, false, [], None, OnOk, OnErr, IfErr};
    ghost use Rattle.swim_shell.specs.Control.{HearsLine, HearsNone, IsPutOff, IsTold, Sends};
    ghost use Rattle.swim_shell.specs.Control.{is_not_yet};
    ghost use Rattle.swim_shell.specs.Views.{waits};

    /// The conversation of a new connection, of which nothing was read or written.
    pub fn new(reader: Rd, writer: Wr) -> Conversation<Rd, Wr>
        ensures { result ≡ record {
          comes = Rd.remaining reader;
          kept = [];
          gone = Wr.contents writer;
          left = [];
          out = true;
          due = None;
          silent = false;
          prepared = false;
        } }
    {
        Conversation {
            lines: LineReader::new(reader),
            answers: AnswerWriter::new(writer),
            due: None,
            is_silent: false,
            is_prepared_for: false,
        }
    }

    /// Whether nothing had come in its last turn, neither a whole line nor its end.
    pub fn is_silent(&self) -> bool
        ensures { result ≡ self.now.silent }
    {
        self.is_silent
    }

    /// Whether an answer is on its way.
    pub fn is_waiting(&self) -> bool
        ensures value { result ≡ waits self.now }
        ensures left { result ≡ false → self.now.left ≡ [] }
        ensures due { result ≡ false → self.now.due ≡ None }
    {
        self.due.is_some() || !self.answers.is_out()
    }

    /// Has the answer to the line `reload` to write, unless an answer is left to write.
    pub fn answer(&mut self, answer: AnswerText)
        ensures told { self.old.left ≡ [] → IsTold answer.bytes self.old self.new }
        ensures busy { self.old.left ≢ [] → self.new ≡ self.old }
    {
        if self.answers.has_written() {
            self.answers.put(answer);
            self.is_prepared_for = false;
        }
    }

    /// Whether what its line `reload` asks for is being made ready, as `hold` was told. Its answer ends that.
    pub fn is_prepared_for(&self) -> bool
        ensures { result ≡ self.now.prepared }
    {
        self.is_prepared_for
    }

    /// It has ended by the line `reload`, for which nothing is ready yet: it ends so again in a later turn, and is silent until then.
    /// Whether that is being made ready, or waits for what another conversation asked for, is kept beside it.
    pub fn hold(&mut self, is_prepared_for: bool)
        ensures { IsPutOff is_prepared_for self.old self.new }
    {
        self.due = Some(LineEnd::Reloading);
        self.is_silent = true;
        self.is_prepared_for = is_prepared_for;
    }

    /// Hears the next line, and has its answer to write.
    fn hear<C: Observer>(&mut self, caller: &mut C) -> Result<(), NoLine>
        requires { self.old.left ≡ [] }
        ensures line { OnOk result (HearsLine C.limit self.old (C.known caller.old)
            self.new (C.known caller.new)) }
        ensures none { IfErr result (HearsNone self.old self.new) }
        ensures same { OnErr result (C.known caller.new ≡ C.known caller.old) }
        ensures silent { IfErr result (λ why. self.new.silent ≡ is_not_yet why) }
    {
        let heard = self.lines.next_line();
        self.is_silent = matches!(heard, Err(NoLine::NotYet));
        let line = heard?;
        let mut answer = ArrayString::new();
        let asked = understand(&line);
        let refused = respond(caller, &mut answer, asked);
        self.due = end_of(refused, &asked);
        self.answers.put(answer);
        Ok(())
    }

    /// Writes what is left, and then ends the conversation if that is due.
    fn send(&mut self) -> Option<ControlEnd>
        ensures sends { Sends self.old self.new result }
        ensures heard { self.new.silent ≡ false }
    {
        self.is_silent = false;
        match self.answers.send() {
            WriteOutcome::Out => match self.due.take()? {
                LineEnd::Asked => Some(ControlEnd::Asked),
                LineEnd::EraAsked => Some(ControlEnd::EraAsked),
                LineEnd::Reloading => Some(ControlEnd::Reloading),
                LineEnd::Refused(why) => Some(ControlEnd::Refused(why)),
            },
            WriteOutcome::NotYet => None,
            WriteOutcome::Failed => Some(ControlEnd::WriteFault),
        }
    }
}

impl<C: Observer, Rd: Read + Drop, Wr: Write + Drop> Worker<C> for Conversation<Rd, Wr> {
    ghost use Rattle.swim_shell.specs.Control.{Converses, ConversedBy};

    type End = ControlEnd;

    ghost worked = { λ a p b q n. Converses C.limit a p b q n };

    ghost ended = { λ end a p b q n. ConversedBy end C.limit a p b q n };

    #[tactic(auto, using(crate::proofs::Talking::converses_start))]
    fn begin(&mut self) {
        self.due = carried(self.due);
    }

    fn turn(&mut self, caller: &mut C) -> Option<ControlEnd> {
        if self.is_waiting() {
            return self.send();
        }
        match self.hear(caller) {
            Ok(()) => self.send(),
            Err(NoLine::NotYet) => None,
            Err(NoLine::Ended) => Some(ControlEnd::Closed),
            Err(NoLine::Failed) => Some(ControlEnd::ReadFault),
        }
    }
}
