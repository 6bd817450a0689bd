//! The entries of an era, and how many each caller has. Entries are large and stay where they are: an era that begins
//! in the block of one before fills its places anew. A function that gave an entry back would move it once more.

ghost use Rattle.std.specs.Prelude.{◌≡◌, ◌+◌, ◌<◌, ◌≤◌, ◌++◌, ◌∷◌, [], length, OnOk};
ghost use Rattle.swim_member.specs.declared.answer.TheConstants.{OUTS_MAX};
ghost use Rattle.swim_node.specs.declared.opening.TheConstants.{LIMIT_MAX};
ghost use Rattle.swim_node.specs.History.{calls_by, lost_in, taken_in};
ghost use Rattle.swim_node.specs.Node.{entry_with, reply_with};

use crate::entering::Done;
use crate::{Entry, Outcome, Reply, Save, Status, Tag};
use arrayvec::ArrayVec;
use std::alloc::{AllocError, Global};
use std::marker::Model;
use std::mem;
use swim_member::{Answer, Event, OUTS_MAX, Outs, Phase};

fn count_taken(outcomes: &[Outcome]) -> usize
    requires { length outcomes.now ≤ OUTS_MAX }
    ensures { result ≡ taken_in outcomes.now }
{
    let mut count = 0;
    for outcome in outcomes {
        if *outcome == Outcome::Taken {
            count += 1;
        }
    }
    count
}

fn count_lost(outcomes: &[Outcome]) -> usize
    requires { length outcomes.now ≤ OUTS_MAX }
    ensures { result ≡ lost_in outcomes.now }
{
    let mut count = 0;
    for outcome in outcomes {
        if *outcome == Outcome::Lost {
            count += 1;
        }
    }
    count
}

/// Fills in what the caller is told.
fn fill_reply(reply: &mut Reply, done: &Done, answer: &Answer, status: Status)
    requires { length done.now.outcomes.items ≤ OUTS_MAX }
    ensures { reply.new ≡ reply_with done.now answer.now status }
{
    reply.status = status;
    reply.notes.clear();
    let _ = reply.notes.try_extend_from_slice(&answer.notes);
    reply.page.clear();
    let _ = reply.page.try_extend_from_slice(&answer.page);
    reply.sent = count_taken(&done.outcomes);
    reply.lost = count_lost(&done.outcomes);
}

/// Makes a place hold the same event. A tick moves no more than its deal there, and a datagram its bytes; else it moves as many
/// bytes as the largest event has.
fn copy_event(event: &Event, place: &mut Event)
    ensures { place.new ≡ event.now }
{
    if let Event::Tick { deal } = event {
        if let Event::Tick { deal: there } = place {
            *there = *deal;
            return;
        }
    }
    if let Event::Datagram { from, bytes } = event {
        if let Event::Datagram {
            from: sender,
            bytes: there,
        } = place
        {
            *sender = *from;
            there.clear();
            let _ = there.try_extend_from_slice(bytes);
            return;
        }
    }
    *place = event.copy();
}

/// Fills in the entry of a call, with the status after it.
fn fill(entry: &mut Entry, tag: Tag, event: &Event, done: Done, answer: &Answer, status: Status)
    ensures { entry.new ≡ entry_with tag event.now done answer.now status }
{
    fill_reply(&mut entry.reply, &done, answer, status);
    entry.tag = tag;
    copy_event(event, &mut entry.event);
    entry.granted = done.granted;
    entry.save = done.save;
    entry.outcomes = done.outcomes;
    entry.outs.copy_from(&answer.outs);
}

/// The entries of an era.
#[derive(Drop)]
pub(crate) struct Journal {
    /// The places that were ever filled, of this era and of those before it.
    places: Vec<Entry>,
    /// How many of them this era has filled.
    len: usize,
    turns: [u32; 16],
}

impl Model for Journal {
    ghost use Rattle.swim_node.specs.Machinery.Turns.{JournalView, journal_of, AreTurns};
    ghost use Rattle.std.specs.Prelude.{◌≤◌, length, take};

    ghost Value = { JournalView };

    ghost view = { λ j. journal_of j.len j.places.items };

    ghost invariant = { λ j. (j.len ≤ length j.places.items)
        × AreTurns j.turns (take j.len j.places.items) };
}

impl Journal {
    pub(crate) fn new(alloc: Global) -> Journal
        ensures { result.entries ≡ [] }
    {
        Journal {
            places: Vec::new(alloc),
            len: 0,
            turns: [0; 16],
        }
    }

    /// Takes a place for one more entry, if the one after the last was never filled. A full block grows to twice its
    /// room, by a `realloc`, which moves the pages of a large block and copies none of its entries: an era of 65,536
    /// has 589 MiB.
    pub(crate) fn reserve(&mut self) -> Result<(), AllocError>
        ensures entries { self.new.entries ≡ self.old.entries }
        ensures ok { OnOk result (length self.new.entries < self.new.room) }
    {
        if self.len == self.places.len() {
            self.places.reserve(1)?;
            // written where it is made: a function that gave it back would move it twice more
            self.places.push_reserved(Entry {
                tag: Tag { caller: 0, turn: 0 },
                event: Event::Leave,
                granted: 0,
                save: Save::Kept,
                outs: Outs::new(),
                outcomes: ArrayVec::new(),
                reply: Reply {
                    status: Status {
                        phase: Phase::Running,
                        number: 0,
                        alive: 0,
                        suspect: 0,
                        confirmed: 0,
                        length: 0,
                    },
                    notes: ArrayVec::new(),
                    page: ArrayVec::new(),
                    sent: 0,
                    lost: 0,
                },
            });
        }
        Ok(())
    }

    /// Adds the entry of a call, with the status after it, in a place that was taken before.
    pub(crate) fn add(
        &mut self,
        tag: Tag,
        event: &Event,
        done: Done,
        answer: &Answer,
        status: Status,
    )
        requires room { length self.old.entries < self.old.room }
        requires few { length self.old.entries < LIMIT_MAX }
        requires caller { tag.caller < 16 }
        ensures { self.new.entries
            ≡ self.old.entries ++ entry_with tag event.now done answer.now status ∷ [] }
    {
        self.turns[tag.caller as usize] += 1;
        fill(&mut self.places[self.len], tag, event, done, answer, status);
        self.len += 1;
    }

    /// How many entries a caller has.
    #[tactic(auto, using(crate::proofs::Lists::few_calls_by))]
    pub(crate) fn turns(&self, caller: u8) -> u32
        requires { caller < 16 }
        ensures value { result ≡ length (calls_by caller self.now.entries) }
        ensures bound { result ≤ length self.now.entries }
    {
        self.turns[caller as usize]
    }

    /// The entries, in order.
    pub(crate) fn entries(&self) -> &[Entry]
        ensures { result.now ≡ self.now.entries }
    {
        &self.places[..self.len]
    }

    /// Gives all entries away, with their block. It takes no memory.
    pub(crate) fn take(&mut self) -> Vec<Entry>
        ensures entries { result.items ≡ self.old.entries }
        ensures empty { self.new.entries ≡ [] }
    {
        let alloc = *self.places.allocator();
        self.places.truncate(self.len);
        self.len = 0;
        self.turns = [0; 16];
        mem::replace(&mut self.places, Vec::new(alloc))
    }

    /// Fills the places of this room from now on, of which it has those that an era before filled.
    pub(crate) fn furnish(&mut self, room: Vec<Entry>)
        requires { self.old.entries ≡ [] }
        ensures { self.new.entries ≡ [] }
    {
        self.clear();
        self.places = room;
    }

    /// Removes all entries. Their places stay.
    pub(crate) fn clear(&mut self)
        ensures { self.new.entries ≡ [] }
    {
        self.len = 0;
        self.turns = [0; 16];
    }
}
