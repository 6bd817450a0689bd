//! A capture as a whole.

ghost use Rattle.std.specs.Prelude.{◌≡◌, ◌<◌, [], List, length, IfOk, IfErr};
ghost use Rattle.swim_wire.specs.declared.datagram.Datagram.{Datagram as Datagrams};
ghost use Rattle.swim_group.specs.Checking.{KeepTheLaw, as_sent};
ghost use Rattle.swim_check.specs.Captures.{IsCapture, IsFirstRefused, IsStop};

use crate::line::{LineFault, read_line};
use std::alloc::Global;
use std::fmt;
use swim_group::{Breach, CheckFault, check_all};
use swim_wire::{Datagram, Update};
use swim_words::split_at_byte;

/// Why a capture is not found to keep the law. Lines are counted from 1.
#[derive(Clone, Copy, Debug, PartialEq, Eq)]
pub enum CaptureStop {
    /// This line is no line of a capture.
    Line(usize, LineFault),
    /// The datagram of this line is the first that breaks the law, by this update.
    Broken(usize, Update, Breach),
    /// There was no memory.
    NoMemory,
}

impl fmt::Display for CaptureStop {
    fn fmt<W: fmt::Write>(&self, f: &mut fmt::Formatter<W>) -> fmt::Result {
        match self {
            CaptureStop::Line(line, fault) => write!(f, "line {line}: {fault}"),
            CaptureStop::Broken(line, update, breach) => {
                let kind = update.kind.name();
                let who = update.who;
                let number = update.number;
                write!(f, "line {line}: {kind} {who} {number}: {breach}")
            }
            CaptureStop::NoMemory => write!(f, "there is no memory"),
        }
    }
}

/// The datagrams of a capture, in order. Err: the first line that is none, from 1.
pub fn read_capture(alloc: Global, text: &[u8]) -> Result<Vec<Datagram>, (usize, LineFault)>
    ensures said { IfOk result (λ datagrams. IsCapture text.now datagrams.items) }
    ensures refused { IfErr result (λ refused. IsFirstRefused text.now refused.0 refused.1) }
{
    let mut datagrams = Vec::new(alloc);
    let mut rest = text;
    while !rest.is_empty() {
        let number = datagrams.len() + 1;
        let Some((line, more)) = split_at_byte(rest, b'\n') else {
            return Err((number, LineFault::Cut));
        };
        let datagram = match read_line(alloc, line) {
            Ok(datagram) => datagram,
            Err(fault) => return Err((number, fault)),
        };
        if datagrams.reserve(1).is_err() {
            return Err((number, LineFault::NoMemory));
        }
        datagrams.push_reserved(datagram);
        rest = more;
    }
    Ok(datagrams)
}

/// How many datagrams the capture has, if they keep the law.
pub fn check(alloc: Global, text: &[u8]) -> Result<usize, CaptureStop>
    ensures ok { IfOk result (λ count. (datagrams : List Datagrams)
        × IsCapture text.now datagrams
        × KeepTheLaw [] (as_sent datagrams)
        × (length datagrams ≡ count)) }
    ensures broken { IfErr result (λ stop. IsStop text.now stop) }
{
    let datagrams = match read_capture(alloc, text) {
        Ok(datagrams) => datagrams,
        Err((line, fault)) => return Err(CaptureStop::Line(line, fault)),
    };
    match check_all(alloc, &datagrams) {
        Ok(()) => Ok(datagrams.len()),
        Err((_, CheckFault::NoMemory)) => Err(CaptureStop::NoMemory),
        Err((place, CheckFault::Broken(update, breach))) => {
            Err(CaptureStop::Broken(place + 1, update, breach))
        }
    }
}
