//! Answers that wait until they are written.

ghost use Rattle.std.specs.Prelude.{◌≡◌, ◌≢◌, ◌≤◌, ◌++◌, ◌∷◌, true, false, [], length, IfOk, IsTrue, OnOk, ◌<◌};
ghost use Rattle.swim_shell.specs.Writes.{sent_by};

use crate::printer::AnswerText;
use arrayvec::ArrayString;
use std::io::{self, ErrorKind, Write};
use swim_trace::Trace;

/// The most writes at a time, so that no writer holds anybody up.
const WRITES_MAX: u32 = 4096;

/// What came of writing an answer.
#[derive(Clone, Copy, Debug, PartialEq, Eq)]
pub(crate) enum WriteOutcome {
    /// All is written and flushed.
    Out,
    /// The writer takes no more just now.
    NotYet,
    /// A write or a flush failed.
    Failed,
}

/// What came of writing after a write or a flush that failed so; none if it is tried again.
fn sent_by(kind: ErrorKind) -> Option<WriteOutcome>
    ensures { result ≡ sent_by kind }
{
    match kind {
        ErrorKind::Interrupted => None,
        ErrorKind::WouldBlock => Some(WriteOutcome::NotYet),
        _ => Some(WriteOutcome::Failed),
    }
}

/// Writes answers, and keeps what its writer has not taken yet.
#[derive(Drop)]
pub(crate) struct AnswerWriter<Wr: Write + Drop> {
    writer: Wr,
    /// The last answer.
    answer: AnswerText,
    /// How many bytes of it are written.
    written: usize,
    /// Whether they are flushed.
    is_flushed: bool,
    /// How much each write took since the last flush, for proofs.
    unflushed: Trace<usize>,
    /// What came of each write and flush, and whether all was out then, for proofs.
    steps: Trace<io::Result<bool>>,
}

impl<Wr: Write + Drop> AnswerWriter<Wr> {
    ghost use Rattle.swim_shell.specs.Answers.{Gives};
    ghost use Rattle.swim_shell.specs.Tries.{Tried};
    ghost use Rattle.swim_shell.specs.Views.{IsFlushed, is_out, left_of};
    ghost use Rattle.swim_shell.specs.Writes.{EndsWith, WritesOn};

    /// One that has no answer to write.
    pub(crate) fn new(writer: Wr) -> AnswerWriter<Wr>
        ensures writer { result.writer ≡ writer }
        ensures empty { left_of result ≡ [] }
        ensures out { is_out result ≡ true }
    {
        AnswerWriter {
            writer,
            answer: ArrayString::new(),
            written: 0,
            is_flushed: true,
            unflushed: Trace::new(),
            steps: Trace::new(),
        }
    }

    /// Whether the last answer is written and flushed.
    pub(crate) fn is_out(&self) -> bool
        ensures value { result ≡ is_out self.now }
        ensures none { IsTrue result → left_of self.now ≡ [] }
    {
        self.is_flushed && self.written >= self.answer.len()
    }

    /// Whether the last answer is written, flushed or not.
    pub(crate) fn has_written(&self) -> bool
        ensures yes { IsTrue result → left_of self.now ≡ [] }
        ensures no { result ≡ false → left_of self.now ≢ [] }
    {
        self.written >= self.answer.len()
    }

    /// Takes the next answer, once the last one is written.
    pub(crate) fn put(&mut self, answer: AnswerText)
        requires { left_of self.old ≡ [] }
        ensures writer { self.new.writer ≡ self.old.writer }
        ensures left { left_of self.new ≡ answer.bytes }
        ensures out { is_out self.new ≡ false }
    {
        self.answer = answer;
        self.written = 0;
        self.is_flushed = false;
    }

    /// Flushes what is written, once all is. Says that all is out then.
    fn flush(&mut self) -> io::Result<bool>
        requires { length self.old.answer.bytes ≤ self.old.written }
        ensures gives { Gives (Wr.contents self.old.writer) (Wr.contents self.new.writer)
            (left_of self.old) (left_of self.new) [] }
        ensures done { IfOk result (λ done. done ≡ true) }
        ensures out { OnOk result (left_of self.new ≡ []) }
        ensures flushed { OnOk result (IsFlushed self.new) }
        ensures steps { self.new.steps ≡ self.old.steps }
    {
        self.writer.flush()?;
        self.unflushed = Trace::new();
        self.is_flushed = true;
        Ok(true)
    }

    /// Writes some of what is left. Says that not all is out then.
    fn write(&mut self) -> io::Result<bool>
        requires { self.old.written < length self.old.answer.bytes }
        ensures gives { Gives (Wr.contents self.old.writer) (Wr.contents self.new.writer)
            (left_of self.old) (left_of self.new) [] }
        ensures done { IfOk result (λ done. done ≡ false) }
        ensures out { OnOk result (is_out self.new ≡ false) }
        ensures steps { self.new.steps ≡ self.old.steps }
    {
        let left = &self.answer.as_str().as_bytes()[self.written..];
        let count = self.writer.write(left)?;
        if count == 0 {
            return Err(io::Error::from(ErrorKind::WriteZero));
        }
        self.is_flushed = false;
        self.unflushed = self.unflushed.and(&count);
        self.written += count;
        Ok(false)
    }

    /// Writes what is left, as far as the writer takes it. A write that a signal interrupts is tried again.
    #[tactic(auto, using(crate::proofs::Writing::gives_nothing, crate::proofs::Writing::gives_on, crate::proofs::Trying::trying_none))]
    pub(crate) fn send(&mut self) -> WriteOutcome
        ensures gives { Gives (Wr.contents self.old.writer) (Wr.contents self.new.writer)
            (left_of self.old) (left_of self.new) [] }
        ensures out { result ≡ WriteOutcome.Out → left_of self.new ≡ [] }
        ensures flushed { result ≡ WriteOutcome.Out → IsFlushed self.new }
        ensures why { Tried WritesOn (EndsWith result) WRITES_MAX (result ≡ WriteOutcome.NotYet)
            self.old.steps self.new.steps }
    {
        for _ in 0..WRITES_MAX {
            let step = if self.written < self.answer.len() {
                self.write()
            } else {
                self.flush()
            };
            self.steps = self.steps.and(&step);
            match step {
                Ok(true) => return WriteOutcome::Out,
                Ok(false) => {}
                Err(error) => {
                    if let Some(sent) = sent_by(error.kind()) {
                        return sent;
                    }
                }
            }
        }
        WriteOutcome::NotYet
    }
}
