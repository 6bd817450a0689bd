//! What a conversation stands on: a gate, a caller that tells what its script says, and a connection that comes in parts.

ghost use Rattle.std.specs.Prelude.{◌≡◌, ◌≤◌, length};

use arrayvec::{ArrayString, ArrayVec};
use std::io::{self, ErrorKind, Read, Write};
use swim_member::{Event, Note, Outs, Phase};
use swim_node::{Entry, Reply, Save, Status, Tag};
use swim_scenes::endpoint;
use swim_shell::{COUNTERS, Caller, Counters, Gate, Observer, Refusal, Turn, VERSION, Who};
use swim_trace::Trace;
use swim_wire::{Endpoint, Rules, Update, UpdateKind};

/// A gate that answers Go so many times, and then Stop.
#[derive(Drop)]
pub(super) struct Goes {
    pub(super) left: u32,
}

impl Gate for Goes {
    ghost use Rattle.std.specs.Prelude.{[]};

    ghost tells = { ⊥ };

    ghost turns = { λ _. [] };

    fn turn(&mut self) -> Turn {
        if self.left == 0 {
            return Turn::Stop;
        }
        self.left -= 1;
        Turn::Go
    }
}

/// What a call tells.
#[derive(Clone, Copy, Debug, PartialEq, Eq)]
pub(super) enum Said {
    /// Nothing of note.
    Done,
    /// A datagram was lost.
    Lost,
    /// The member was told to join itself.
    ToItself,
    /// The member takes no part.
    Stopped,
    /// A page of one member, alive with this number.
    Member(u64),
    /// There was no memory for it.
    NoMemory,
    /// It could not be read back.
    Unread,
}

/// What the status of a scripted member is, but for its calls, and how many others it has to join.
#[derive(Clone, Copy, Debug, PartialEq, Eq)]
pub(super) struct ShownStatus {
    pub(super) phase: Phase,
    pub(super) alive: usize,
    pub(super) suspect: usize,
    pub(super) listed: usize,
}

/// 10.0.0.1:7000 of group 7, which lives by rules 2, with so many others to join.
pub(super) fn who(listed: usize) -> Who {
    Who {
        me: Endpoint::new(0x0a00_0001, 7000).unwrap(),
        group: 7,
        rules: Rules::Two,
        version: ArrayString::from(VERSION).unwrap_or(ArrayString::new()),
        uptime: 3661,
        listed,
    }
}

/// A caller of an era of `LIMIT` calls, which tells what its script says, and then nothing of note.
#[derive(Drop)]
pub(super) struct Scripted<const LIMIT: usize> {
    script: &'static [Said],
    seen: Trace<Entry>,
    asked: Trace<Event>,
    /// How many calls were answered.
    count: usize,
    is_spent: bool,
    shows: ShownStatus,
    ghost counted: { length seen ≡ count },
    ghost fits: { count ≤ LIMIT },
}

/// The reply to a call.
fn reply(status: Status, said: Said) -> Reply {
    let mut reply = Reply {
        status,
        notes: ArrayVec::new(),
        page: ArrayVec::new(),
        sent: 0,
        lost: 0,
    };
    match said {
        Said::Lost => reply.lost = 1,
        Said::ToItself => reply.notes.push(Note::Misdirected),
        Said::Stopped => reply.notes.push(Note::Stopped),
        Said::Member(number) => reply.page.push(Update {
            kind: UpdateKind::Alive,
            who: endpoint(3).unwrap_or_default(),
            number,
        }),
        _ => {}
    }
    reply
}

impl<const LIMIT: usize> Scripted<LIMIT> {
    /// One of an era in which nothing happened.
    pub(super) fn new(script: &'static [Said]) -> Scripted<LIMIT> {
        Scripted {
            script,
            seen: Trace::new(),
            asked: Trace::new(),
            count: 0,
            is_spent: false,
            shows: ShownStatus {
                phase: Phase::Running,
                alive: 3,
                suspect: 1,
                listed: 2,
            },
        }
    }

    /// Such a caller of a member that shows this.
    pub(super) fn showing(shows: ShownStatus) -> Self {
        let mut caller = Scripted::new(&[]);
        caller.shows = shows;
        caller
    }

    /// How many calls were answered.
    pub(super) fn calls(&self) -> usize {
        self.count
    }

    /// The status after the last call.
    fn shown(&self) -> Status {
        Status {
            phase: self.shows.phase,
            number: 1,
            alive: self.shows.alive,
            suspect: self.shows.suspect,
            confirmed: 2,
            length: self.count,
        }
    }

    /// What the script says next.
    fn next_said(&mut self) -> Said
        ensures same { self.new.count ≡ self.old.count }
        ensures seen { self.new.seen ≡ self.old.seen }
        ensures asked { self.new.asked ≡ self.old.asked }
        ensures spent { self.new.is_spent ≡ self.old.is_spent }
    {
        match self.script.split_first() {
            Some((said, rest)) => {
                let said = *said;
                self.script = rest;
                said
            }
            None => Said::Done,
        }
    }
}

impl<const LIMIT: usize> Caller for Scripted<LIMIT> {
    ghost known = { λ c. record {
      caller = 1;
      seen = c.seen;
      spent = c.is_spent;
      asked = c.asked;
    } };

    ghost limit = { LIMIT };

    #[tactic(auto, using(crate::proofs::Scripted::untold))]
    fn call(&mut self, event: Event) -> Result<Reply, Refusal> {
        self.asked = self.asked.and(&event);
        if self.is_spent {
            return Err(Refusal::Unread);
        }
        if self.count == LIMIT {
            return Err(Refusal::EraFull);
        }
        let said = self.next_said();
        match said {
            Said::NoMemory => return Err(Refusal::Memory),
            Said::Unread => {
                self.is_spent = true;
                return Err(Refusal::Unread);
            }
            _ => {}
        }
        let entry = Entry {
            tag: Tag { caller: 1, turn: 0 },
            event,
            granted: 0,
            save: Save::Kept,
            outs: Outs::new(),
            outcomes: ArrayVec::new(),
            reply: reply(self.shown(), said),
        };
        self.seen = self.seen.and(&entry);
        self.count += 1;
        Ok(entry.reply)
    }
}

impl<const LIMIT: usize> Observer for Scripted<LIMIT> {
    fn status(&mut self) -> Option<Status> {
        if self.is_spent {
            return None;
        }
        Some(self.shown())
    }

    fn who(&mut self) -> Who {
        who(self.shows.listed)
    }

    fn counters(&mut self) -> Counters {
        Counters {
            values: [u64::MAX; COUNTERS],
        }
    }
}

/// What a connection does before each read, write and flush: the kinds of errors in turn, and then it goes on.
#[derive(Drop)]
struct Pauses {
    kinds: &'static [ErrorKind],
    next: usize,
}

impl Pauses {
    fn step(&mut self) -> io::Result<()> {
        match self.kinds.get(self.next) {
            Some(kind) => {
                self.next += 1;
                Err(io::Error::from(*kind))
            }
            None => {
                self.next = 0;
                Ok(())
            }
        }
    }
}

/// Input that comes in pieces of at most so many bytes, and then ends, or fails.
#[derive(Drop)]
pub(super) struct Pieces {
    left: &'static [u8],
    size: usize,
    pauses: Pauses,
    fails: bool,
}

impl Pieces {
    /// Input in pieces of at most so many bytes, with these errors before each read.
    pub(super) fn new(input: &'static [u8], size: usize, kinds: &'static [ErrorKind]) -> Pieces {
        Pieces {
            left: input,
            size,
            pauses: Pauses { kinds, next: 0 },
            fails: false,
        }
    }

    /// Whether it fails at its end.
    pub(super) fn fail_at_end(&mut self, fails: bool) {
        self.fails = fails;
    }
}

impl Read for Pieces {
    fn read(&mut self, into: &mut [u8]) -> io::Result<usize> {
        self.pauses.step()?;
        if self.left.is_empty() && self.fails {
            return Err(io::Error::from(ErrorKind::ConnectionReset));
        }
        let count = self.size.min(self.left.len()).min(into.len());
        let (first, rest) = self.left.split_at(count);
        into[..count].copy_from_slice(first);
        self.left = rest;
        Ok(count)
    }
}

/// The most bytes that a [`Slow`] takes.
pub(super) const MOST: usize = 2048;

/// A writer that takes at most so many bytes at a time, and so many in all before it fails.
#[derive(Drop)]
pub(super) struct Slow {
    size: usize,
    room: usize,
    pauses: Pauses,
    taken: ArrayVec<u8, MOST>,
    flushed: usize,
}

impl Slow {
    /// A writer with room for so many bytes, which takes so many at a time, with these errors before each write.
    pub(super) fn new(room: usize, size: usize, kinds: &'static [ErrorKind]) -> Slow {
        Slow {
            size,
            room,
            pauses: Pauses { kinds, next: 0 },
            taken: ArrayVec::new(),
            flushed: 0,
        }
    }

    /// What was written and flushed.
    pub(super) fn out(&self) -> &[u8] {
        self.taken.as_slice().get(..self.flushed).unwrap_or(&[])
    }

    /// What was written.
    pub(super) fn taken(&self) -> &[u8] {
        self.taken.as_slice()
    }
}

impl Write for Slow {
    fn write(&mut self, bytes: &[u8]) -> io::Result<usize> {
        self.pauses.step()?;
        let count = self.size.min(self.room).min(bytes.len());
        let (first, _) = bytes.split_at(count);
        if first.is_empty() || self.taken.try_extend_from_slice(first).is_err() {
            return Err(io::Error::from(ErrorKind::ConnectionReset));
        }
        self.room -= count;
        Ok(count)
    }

    fn flush(&mut self) -> io::Result<()> {
        self.pauses.step()?;
        self.flushed = self.taken.len();
        Ok(())
    }
}
