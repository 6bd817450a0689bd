//! What the workers write to the log: the notes of their calls, and how many they left out.

ghost use Rattle.std.specs.Prelude.{◌≡◌, ◌<◌, ◌+◌, ◌↔◌, min, IsTrue, false};

use crate::note_words::{NoteLine, note_level};
use crate::quota::{Quota, minute_of};
use log::{Log, log};
use std::time::Clock;
use swim_member::Note;
use swim_node::Reply;
use swim_shell::NOTE_KINDS;
use swim_wire::{Endpoint, Rules};

/// The most notes of one kind that a worker logs in one minute.
pub const LOGGED_MAX: u8 = 5;

/// What became of the notes of one kind in the minute that goes on.
#[derive(Clone, Copy, Debug, PartialEq, Eq)]
struct Kind {
    /// The last one that was left out.
    note: Note,
    quota: Quota,
}

impl Kind {
    /// Whether one more note of the kind is written in this minute. One that is not is counted.
    fn takes(&mut self, note: Note) -> bool
        ensures yes { IsTrue result ↔ (self.old.quota.written < LOGGED_MAX) }
        ensures written { IsTrue result → self.new ≡ record self.old {
          quota = record self.old.quota { written = self.old.quota.written + 1 };
        } }
        ensures left_out { result ≡ false → self.new ≡ record {
          note = note;
          quota = record self.old.quota {
            left_out = min (self.old.quota.left_out + 1) u32.MAX;
          };
        } }
    {
        let takes = self.quota.takes(u32::from(LOGGED_MAX));
        if !takes {
            self.note = note;
        }
        takes
    }
}

const NOTHING: Kind = Kind {
    note: Note::Stopped,
    quota: Quota::WHOLE,
};

/// Which notes were logged in the minute that goes on, and how many were not. A member that takes no part any more notes so at
/// each tick and each datagram, which is logged once.
#[derive(Clone, Copy, Debug, PartialEq, Eq)]
pub struct NoteLog {
    /// By which rules the member lives.
    rules: Rules,
    minute: u64,
    has_left_out: bool,
    has_stopped: bool,
    kinds: [Kind; NOTE_KINDS],
}

impl NoteLog {
    /// Nothing was logged yet of a member that lives by these rules.
    pub fn new(rules: Rules) -> NoteLog {
        NoteLog {
            rules,
            minute: 0,
            has_left_out: false,
            has_stopped: false,
            kinds: [NOTHING; NOTE_KINDS],
        }
    }

    /// Says how many notes of each kind were left out, and begins another minute.
    fn begin<W: Log>(&mut self, rt: &W, minute: u64) {
        for kind in self.kinds {
            let count = kind.quota.left_out();
            if count > 0 {
                let note = kind.note;
                log!(rt; note_level(note), "{count} more of this kind in the same minute (note {note})");
            }
        }
        self.kinds = [NOTHING; NOTE_KINDS];
        self.has_left_out = false;
        self.minute = minute;
    }

    #[tactic(auto, using(crate::proofs::Notes::number_range))]
    /// Writes a note, with whence the datagram came that it is about, or counts it where too many of its kind were written in this
    /// minute.
    fn add<W: Log>(&mut self, rt: &W, note: Note, from: &Option<Endpoint>) {
        let place = usize::from(note.number()) - 1;
        let mut kind = self.kinds[place];
        if kind.takes(note) {
            let line = NoteLine {
                note,
                from: *from,
                rules: self.rules,
            };
            log!(rt; note_level(note), "{line}");
        } else {
            self.has_left_out = true;
        }
        self.kinds[place] = kind;
    }

    /// Logs the notes of a reply. A clock that cannot be read begins no minute.
    pub fn log<W: Log + Clock>(&mut self, rt: &W, reply: &Reply, from: &Option<Endpoint>) {
        if reply.notes.is_empty() && !self.has_left_out {
            return;
        }
        if let Ok(now) = rt.monotonic() {
            let minute = minute_of(now);
            if minute != self.minute {
                self.begin(rt, minute);
            }
        }
        for note in reply.notes.as_slice() {
            if *note != Note::Stopped {
                self.add(rt, *note, from);
            } else if !self.has_stopped {
                self.has_stopped = true;
                self.add(rt, *note, from);
            }
        }
    }
}
