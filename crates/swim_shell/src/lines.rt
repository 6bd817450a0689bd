//! Lines of at most 64 bytes, and the bytes that they are read from.

ghost use Rattle.std.specs.Prelude.{◌≡◌, ◌≢◌, ◌++◌, ◌∷◌, [], IfSome, IfNone, IfOk, IfErr, OnOk, OnErr};
ghost use Rattle.std.specs.Io.KnownBytes.{IsAtEnd};
ghost use Rattle.swim_words.specs.Words.{Lacks};
ghost use Rattle.swim_shell.specs.Lines.{IsLine, IsPart, fault_at};

use arrayvec::ArrayVec;
use std::io::{self, ErrorKind, Read};
use std::mem::replace;
use swim_trace::Trace;

/// The most bytes of a control line, its end aside.
pub const LINE_MAX: usize = 64;

/// The most bytes that are taken for a line at a time, so that one without an end holds nobody up.
const BYTES_MAX: u32 = 4096;

/// The most bytes of one read.
const READ_MAX: usize = 512;

/// A line without its end.
#[derive(Drop)]
pub enum LineText {
    /// Its bytes.
    Text(ArrayVec<u8, LINE_MAX>),
    /// It has more than 64 bytes.
    Long,
}

/// Why no line came.
#[derive(Clone, Copy, Debug, PartialEq, Eq)]
pub(crate) enum NoLine {
    /// The rest of it is not there yet.
    NotYet,
    /// The input ended before it did.
    Ended,
    /// A read failed.
    Failed,
}

/// Why no line comes after a read that failed so; none if it is tried again.
fn fault_at(kind: ErrorKind) -> Option<NoLine>
    ensures { result ≡ fault_at kind }
{
    match kind {
        ErrorKind::Interrupted => None,
        ErrorKind::WouldBlock => Some(NoLine::NotYet),
        _ => Some(NoLine::Failed),
    }
}

/// The part of a line that was read.
#[derive(Drop)]
struct Part {
    /// Its first bytes.
    text: ArrayVec<u8, LINE_MAX>,
    /// Whether it has more than these.
    is_long: bool,
    /// All its bytes, for proofs.
    bytes: Trace<u8>,
    ghost part: { IsPart is_long text.items bytes },
}

impl Part {
    /// That of a line of which no byte was read.
    fn new() -> Part
        ensures { result.bytes ≡ [] }
    {
        Part {
            text: ArrayVec::new(),
            is_long: false,
            bytes: Trace::new(),
        }
    }

    /// Keeps one more byte of the line, if there is room for it.
    fn add(&mut self, byte: u8)
        requires { byte ≢ 10 }
        ensures { self.new.bytes ≡ self.old.bytes ++ byte ∷ [] }
    {
        if self.is_long || self.text.is_full() {
            self.is_long = true;
        } else {
            self.text.push(byte);
        }
        self.bytes = self.bytes.and(&byte);
    }

    /// The line, once its end was read. What is left is the part of the next.
    fn finish(&mut self) -> LineText
        ensures lacks { Lacks 10 self.old.bytes }
        ensures line { IsLine self.old.bytes result }
        ensures empty { self.new.bytes ≡ [] }
    {
        let part = replace(self, Part::new());
        if part.is_long {
            LineText::Long
        } else {
            LineText::Text(part.text)
        }
    }
}

/// Gives the bytes of a reader.
#[derive(Drop)]
pub(crate) struct ByteReader<Rd: Read + Drop> {
    reader: Rd,
    /// What the last read gave.
    ahead: ArrayVec<u8, READ_MAX>,
    /// How many bytes of it were given.
    next: usize,
    /// What it answered, for proofs.
    answers: Trace<io::Result<Option<u8>>>,
}

impl<Rd: Read + Drop> ByteReader<Rd> {
    ghost use Rattle.swim_shell.specs.Lines.{ReadsByte, Takes};
    ghost use Rattle.swim_shell.specs.Views.{ahead_of};

    /// One of which no byte was read.
    pub(crate) fn new(reader: Rd) -> ByteReader<Rd>
        ensures reader { result.reader ≡ reader }
        ensures empty { ahead_of result ≡ [] }
    {
        ByteReader {
            reader,
            ahead: ArrayVec::new(),
            next: 0,
            answers: Trace::new(),
        }
    }

    /// The next of the bytes that were read.
    fn give(&mut self) -> Option<u8>
        ensures reader { self.new.reader ≡ self.old.reader }
        ensures some { IfSome result (λ byte. ahead_of self.old ≡ byte ∷ ahead_of self.new) }
        ensures none { IfNone result ((ahead_of self.old ≡ []) × (ahead_of self.new ≡ [])) }
        ensures answers { self.new.answers ≡ self.old.answers }
    {
        let byte = *self.ahead.get(self.next)?;
        self.next += 1;
        Some(byte)
    }

    /// Gives this answer, which is told to proofs.
    fn tell(&mut self, answer: io::Result<Option<u8>>) -> io::Result<Option<u8>>
        ensures answer { result ≡ answer }
        ensures reader { self.new.reader ≡ self.old.reader }
        ensures ahead { ahead_of self.new ≡ ahead_of self.old }
        ensures told { self.new.answers ≡ self.old.answers ++ answer ∷ [] }
    {
        self.answers = self.answers.and(&answer);
        answer
    }

    /// The next byte; none at the end of input. After an error the same byte is next.
    pub(crate) fn next_byte(&mut self) -> io::Result<Option<u8>>
        ensures byte { ReadsByte (Rd.remaining self.old.reader) (Rd.remaining self.new.reader)
            (ahead_of self.old) (ahead_of self.new) result }
        ensures told { self.new.answers ≡ self.old.answers ++ result ∷ [] }
    {
        if let Some(byte) = self.give() {
            return self.tell(Ok(Some(byte)));
        }
        let mut ahead = ArrayVec::from([0; READ_MAX]);
        match self.reader.read(ahead.as_mut_slice()) {
            Ok(count) => {
                ahead.truncate(count);
                self.ahead = ahead;
                self.next = 0;
                let byte = self.give();
                self.tell(Ok(byte))
            }
            Err(error) => self.tell(Err(error)),
        }
    }
}

/// Reads lines, and keeps what was read of one that is not whole.
#[derive(Drop)]
pub(crate) struct LineReader<Rd: Read + Drop> {
    input: ByteReader<Rd>,
    part: Part,
}

impl<Rd: Read + Drop> LineReader<Rd> {
    ghost use Rattle.swim_shell.specs.Lines.{TakesLine, TakesNoLine, ReadsOn, EndsFor};
    ghost use Rattle.swim_shell.specs.Tries.{Tried};
    ghost use Rattle.swim_shell.specs.Views.{kept_of};

    /// One of which nothing was read.
    pub(crate) fn new(reader: Rd) -> LineReader<Rd>
        ensures reader { result.input.reader ≡ reader }
        ensures empty { kept_of result ≡ [] }
    {
        LineReader {
            input: ByteReader::new(reader),
            part: Part::new(),
        }
    }

    /// The next line. A read that a signal interrupts is tried again.
    ///
    /// # Errors
    ///
    /// `NotYet` where the reader has no more just now (`WouldBlock`), or after 4096 bytes of a line; what was read of it
    /// is kept, and the next call goes on with it. `Ended` where the input ends before the line does. `Failed` where a
    /// read fails.
    #[tactic(auto, using(crate::proofs::Reading::takes_nothing, crate::proofs::Reading::part_more, crate::proofs::Reading::part_same, crate::proofs::Reading::part_whole, crate::proofs::Reading::part_alone, crate::proofs::Reading::not_yet, crate::proofs::Trying::trying_none))]
    pub(crate) fn next_line(&mut self) -> Result<LineText, NoLine>
        ensures line { IfOk result (TakesLine (Rd.remaining self.old.input.reader)
            (Rd.remaining self.new.input.reader) (kept_of self.old) (kept_of self.new)) }
        ensures none { IfErr result (TakesNoLine (Rd.remaining self.old.input.reader)
            (Rd.remaining self.new.input.reader) (kept_of self.old) (kept_of self.new)) }
        ensures why { IfErr result (λ why. Tried ReadsOn (EndsFor why) BYTES_MAX
            (why ≡ NoLine.NotYet) self.old.input.answers self.new.input.answers) }
    {
        for _ in 0..BYTES_MAX {
            match self.input.next_byte() {
                Ok(Some(b'\n')) => return Ok(self.part.finish()),
                Ok(Some(byte)) => self.part.add(byte),
                Ok(None) => return Err(NoLine::Ended),
                Err(error) => {
                    if let Some(why) = fault_at(error.kind()) {
                        return Err(why);
                    }
                }
            }
        }
        Err(NoLine::NotYet)
    }
}
