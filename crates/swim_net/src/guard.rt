//! Which bytes of a control connection are let through.

ghost use Rattle.std.specs.Prelude.{◌≡◌, ◌<◌, ◌≤◌, ◌++◌, ◌∷◌, [], length, take, true, false};
ghost use Rattle.swim_shell.specs.Lines.{IsLine};
ghost use Rattle.swim_net.specs.Guard.{Ends, StaysOpen, IsHead, Judges, begins_as_http, is_no_line};

use arrayvec::ArrayVec;
use std::mem::replace;
use swim_shell::{LINE_MAX, LineText, Request, understand};
use swim_trace::Trace;

/// What a line is to its connection.
#[derive(Clone, Copy, Debug, PartialEq, Eq)]
pub(crate) enum Verdict {
    /// It is one of the lines of a control connection.
    Known,
    /// It is none of them, or is too long.
    Refused,
    /// It begins as a line of HTTP does.
    Http,
}

/// Whether a line begins as one of an HTTP request does. A browser writes the first two to whatever listens at a port, with a stranger's
/// lines behind them.
fn begins_as_http(head: &[u8]) -> bool
    ensures { result ≡ begins_as_http head.now }
{
    head.starts_with(b"GET ")
        || head.starts_with(b"POST ")
        || head.starts_with(b"PUT ")
        || head.starts_with(b"HEAD ")
        || head.starts_with(b"DELETE ")
        || head.starts_with(b"OPTIONS ")
        || head.starts_with(b"PATCH ")
        || head.starts_with(b"CONNECT ")
        || head.starts_with(b"TRACE ")
        || head.starts_with(b"Host:")
}

/// Whether this is asked for by what is no line of a control connection: it is unknown, or too long.
fn is_no_line(request: &Request) -> bool
    ensures { result ≡ is_no_line request.now }
{
    matches!(request, Request::Unknown | Request::TooLong)
}

/// The part of a line that has come.
#[derive(Drop)]
struct Part {
    /// Its first bytes.
    head: ArrayVec<u8, LINE_MAX>,
    /// Whether it has more than these.
    is_long: bool,
    /// All its bytes, for proofs.
    bytes: Trace<u8>,
    ghost part: { IsHead is_long head.items bytes },
}

impl Part {
    /// That of a line of which no byte has come.
    fn new() -> Part
        ensures { result.bytes ≡ [] }
    {
        Part {
            head: ArrayVec::new(),
            is_long: false,
            bytes: Trace::new(),
        }
    }

    /// Keeps one more byte of the line, if there is room for it.
    #[tactic(auto, using(crate::proofs::Guarding::head_full, crate::proofs::Guarding::head_room))]
    fn add(&mut self, byte: u8)
        ensures { self.new.bytes ≡ self.old.bytes ++ byte ∷ [] }
    {
        self.bytes = self.bytes.and(&byte);
        if self.head.is_full() {
            self.is_long = true;
            return;
        }
        self.head.push(byte);
    }

    /// The line, which has no more bytes.
    #[tactic(auto, using(crate::proofs::Guarding::head_whole))]
    fn line(self) -> LineText
        ensures { IsLine self.bytes result }
    {
        if self.is_long {
            LineText::Long
        } else {
            LineText::Text(self.head)
        }
    }

    /// What the line is, which has no more bytes.
    fn verdict(self) -> Verdict
        ensures { Judges self.bytes result }
    {
        if begins_as_http(self.head.as_slice()) {
            return Verdict::Http;
        }
        if is_no_line(&understand(&self.line())) {
            return Verdict::Refused;
        }
        Verdict::Known
    }

    /// What the line is, once its end has come. What is left is the part of the next.
    fn judge(&mut self) -> Verdict
        ensures judged { Judges self.old.bytes result }
        ensures empty { self.new.bytes ≡ [] }
    {
        replace(self, Part::new()).verdict()
    }
}

/// Lets the bytes of a control connection through, up to the line that ends it and with that line. So whatever a stranger has another
/// program send is answered by one error or two, and none of the lines behind them is obeyed.
#[derive(Drop)]
pub(crate) struct LineGuard {
    part: Part,
    /// Whether a line was refused.
    has_refused: bool,
    /// Whether a line has ended it.
    pub(crate) has_ended: bool,
    /// All bytes that were let through, for proofs.
    pub(crate) passed: Trace<u8>,
    ghost on: { has_ended ≡ false → ∥ StaysOpen passed part.bytes has_refused ∥₁ },
    ghost ended: { has_ended ≡ true → ∥ Ends passed ∥₁ },
}

impl LineGuard {
    /// One through which no byte has gone.
    #[tactic(auto, using(crate::proofs::Guarding::begins_on))]
    pub(crate) fn new() -> LineGuard
        ensures passed { result.passed ≡ [] }
        ensures on { result.has_ended ≡ false }
    {
        LineGuard {
            part: Part::new(),
            has_refused: false,
            has_ended: false,
            passed: Trace::new(),
        }
    }

    /// Lets one more byte through.
    #[tactic(auto, using(crate::proofs::Guarding::on_more, crate::proofs::Guarding::on_known, crate::proofs::Guarding::on_first, crate::proofs::Guarding::ends_http, crate::proofs::Guarding::ends_second))]
    fn pass(&mut self, byte: u8)
        requires { self.old.has_ended ≡ false }
        ensures { self.new.passed ≡ self.old.passed ++ byte ∷ [] }
    {
        self.passed = self.passed.and(&byte);
        if byte != b'\n' {
            self.part.add(byte);
            return;
        }
        match self.part.judge() {
            Verdict::Known => {}
            Verdict::Refused if !self.has_refused => self.has_refused = true,
            _ => self.has_ended = true,
        }
    }

    /// How many of these bytes are let through, behind those before them.
    pub(crate) fn let_through(&mut self, bytes: &[u8]) -> usize
        ensures within { result ≤ length bytes.now }
        ensures passed { self.new.passed ≡ self.old.passed ++ take result bytes.now }
        ensures whole { result < length bytes.now → self.new.has_ended ≡ true }
    {
        for (count, byte) in bytes.iter().enumerate() {
            if self.has_ended {
                return count;
            }
            self.pass(*byte);
        }
        bytes.len()
    }
}
