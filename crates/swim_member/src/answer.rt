//! What a step answers. It is lent downwards: whoever has something to say says it there.

ghost use Rattle.std.specs.Prelude.{◌≡◌, ◌<◌, [], ◌∷◌, ◌++◌, length};
ghost use Rattle.swim_member.specs.Events.{no_answer};

use crate::note::Note;
use crate::send::Outs;
use crate::settings::HELPERS_MAX;
use arrayvec::ArrayVec;
use swim_wire::{Datagram, Endpoint, Kind, Rules, UPDATES_MAX, Update};

/// The most datagrams that a step sends: `helpers + 2`, at the most helpers.
pub const OUTS_MAX: usize = HELPERS_MAX + 2;

/// The most notes that a step takes: one for each update of a datagram, and two more.
pub const NOTES_MAX: usize = UPDATES_MAX + 2;

/// A datagram and where it goes.
#[derive(Debug, Drop)]
pub struct Out {
    /// Where it goes.
    pub to: Endpoint,
    /// What is sent.
    pub datagram: Datagram,
}

/// What fills the unused places of a list.
impl Default for Out {
    fn default() -> Out
        ensures { result ≡ record {
          to = 1;
          datagram = record {
            version = Rules.One;
            kind = Kind.Ping;
            group = 0;
            seq = 0;
            sender = 1;
            subject = 0;
            updates = record { items = [] };
          };
        } }
    {
        Out {
            to: Endpoint::default(),
            datagram: Datagram::default(),
        }
    }
}

/// What a step gives.
#[derive(Drop)]
pub struct Answer {
    /// What is sent, in order.
    pub outs: Outs,
    /// What is taken note of, in order.
    pub notes: ArrayVec<Note, NOTES_MAX>,
    /// The updates that are shown, in the order of their members.
    pub page: ArrayVec<Update, UPDATES_MAX>,
}

impl Answer {
    /// An answer that has nothing to say yet.
    pub fn nothing() -> Answer
        ensures { result ≡ no_answer }
    {
        Answer {
            outs: Outs::new(),
            notes: ArrayVec::new(),
            page: ArrayVec::new(),
        }
    }

    /// Takes back all that was said. The places stay as they are.
    pub fn clear(&mut self)
        ensures { self.new ≡ no_answer }
    {
        self.outs.clear();
        self.notes.clear();
        self.page.clear();
    }

    /// Sends a datagram, after those before it.
    pub(crate) fn send(&mut self, out: &Out)
        requires { length self.old.outs.items < OUTS_MAX }
        ensures outs { self.new.outs.items ≡ self.old.outs.items ++ out.now ∷ [] }
        ensures notes { self.new.notes ≡ self.old.notes }
        ensures page { self.new.page ≡ self.old.page }
    {
        self.outs.push(out);
    }

    /// Takes a note, after those before it.
    pub(crate) fn note(&mut self, note: Note)
        requires { length self.old.notes.items < NOTES_MAX }
        ensures outs { self.new.outs ≡ self.old.outs }
        ensures notes { self.new.notes.items ≡ self.old.notes.items ++ note ∷ [] }
        ensures page { self.new.page ≡ self.old.page }
    {
        self.notes.push(note);
    }
}
