//! An era played again: a member that goes on from where the era began, and is told what happened, what the state file
//! granted and what became of the datagrams. It has no disk and no link, so nothing that it says goes anywhere.

ghost use Rattle.std.specs.Prelude.{◌≡◌, ◌≢◌, ◌<◌, ◌≤◌, ◌++◌, ◌∷◌, [], length, take, slice_get, All, Err, IfErr, IfOk, OnOk, OnErr, None, Some};
ghost use Rattle.swim_wire.specs.Spelling.{HasText};
ghost use Rattle.swim_member.specs.Checks.{AreSound};
ghost use Rattle.swim_member.specs.Judge.{wanted, HasDeal};
ghost use Rattle.swim_member.specs.declared.answer.TheConstants.{OUTS_MAX};
ghost use Rattle.swim_node.specs.History.{calls_by, IsLegal, IsNext, Saves};
ghost use Rattle.swim_node.specs.Machinery.Entering.{Steps};
ghost use Rattle.swim_node.specs.Node.{IsTurn, Refused};
ghost use Rattle.swim_node.specs.Replaying.{begin_fault, cause_of, IsTold};
ghost use Rattle.swim_node.specs.Sending.{HasTexts};
ghost use Rattle.swim_node.specs.declared.beginning.BeginFault.TheVariants.{NoMemory};
ghost use Rattle.swim_node.specs.declared.entry.Entry.{Entry as Entries};
ghost use Rattle.swim_node.specs.declared.entry.Save.{Save as Saved};

use crate::base::Base;
use crate::beginning::check_bounds;
use crate::entering::Done;
use crate::journal::Journal;
use crate::node::{greatest_own, status_now};
use crate::{ApplyFault, BeginFault, Beginning, Entry, Outcome, Save, Tag};
use arrayvec::ArrayVec;
use std::alloc::Global;
use std::marker::Model;
use swim_member::{Answer, Event, Member, OUTS_MAX};
use swim_wire::{Datagram, copied};

/// Of an entry all that the member did not make.
#[derive(Drop)]
pub struct Cause {
    /// Who called.
    pub tag: Tag,
    /// What happened.
    pub event: Event,
    /// The ceiling that stood for the step.
    pub granted: u64,
    /// What became of each datagram, in order.
    pub outcomes: ArrayVec<Outcome, OUTS_MAX>,
}

impl Cause {
    /// What made this entry.
    pub fn of(entry: &Entry) -> Cause
        ensures { result ≡ cause_of entry.now }
    {
        Cause {
            tag: entry.tag,
            event: entry.event.copy(),
            granted: entry.granted,
            outcomes: copied(&entry.outcomes),
        }
    }
}

/// An era that is played again.
#[derive(Drop)]
pub struct Replay {
    base: Base,
    journal: Journal,
    member: Member,
    granted: u64,
    most: Option<u64>,
    /// The datagram of the next call, where it is one. It stays where it is, as it is large.
    read: Datagram,
    /// What the member says at the next call. It stays where it is, as it is large.
    answer: Answer,
}

impl Model for Replay {
    ghost use Rattle.swim_node.specs.Lives.{Era};
    ghost use Rattle.swim_node.specs.Node.{IsNode, base_of};

    ghost Value = { Era };

    ghost view = { λ r. record { base = base_of r.base; entries = r.journal.entries } };

    // no number is asked of the life's beginning
    ghost invariant = { λ r.
        IsNode (base_of r.base) r.journal.entries 0 r.member r.granted r.most };
}

/// What became of the ceiling, where so much was granted in the end, and that ceiling: at least the one before.
fn settled(wanted: Option<u64>, ceiling: u64, granted: u64) -> (Save, u64)
    ensures saves { Saves wanted ceiling result.0 result.1 }
    ensures grows { ceiling ≤ result.1 }
    ensures again { (save : Saved) → Saves wanted ceiling save granted
        → (result.0 ≡ save) × (result.1 ≡ granted) }
{
    match wanted {
        None => (Save::Kept, ceiling),
        Some(number) => {
            if number <= ceiling {
                return (Save::Kept, ceiling);
            }
            let stands = granted.max(ceiling);
            if stands < number {
                (Save::Failed, stands)
            } else {
                (Save::Done, stands)
            }
        }
    }
}

/// What became of the datagram at this place: as it was told, or it was taken.
fn fate(told: &[Outcome], place: usize) -> Outcome
    ensures { place < length told.now → slice_get told.now place ≡ Some result }
{
    match told.get(place) {
        Some(outcome) => *outcome,
        None => Outcome::Taken,
    }
}

/// What becomes of so many datagrams: as it was told, and each of which nothing was told is taken.
fn fates(told: &[Outcome], count: usize) -> ArrayVec<Outcome, OUTS_MAX>
    requires { count ≤ OUTS_MAX }
    ensures each { length result.items ≡ count }
    ensures again { count ≤ length told.now → result.items ≡ take count told.now }
{
    let mut outcomes = ArrayVec::new();
    for place in 0..count {
        outcomes.push(fate(told, place));
    }
    outcomes
}

/// Judges an event and acts with the ceiling that stood. A datagram is read into the place that is lent for it. The answer
/// is what the member says, and nothing of what stood there before.
fn enter_again(
    member: &mut Member,
    ceiling: u64,
    cause: &Cause,
    read: &mut Datagram,
    answer: &mut Answer,
) -> Done
    requires low { member.old.number ≤ ceiling }
    ensures saves { Saves (wanted member.old cause.now.event) ceiling result.save result.granted }
    ensures grows { ceiling ≤ result.granted }
    ensures steps { Steps member.old member.new cause.now.event result.granted answer.new }
    ensures deal { HasDeal cause.now.event }
    ensures texts { All (λ out. HasText out.datagram) answer.new.outs.items }
    ensures each { length result.outcomes.items ≡ length answer.new.outs.items }
    ensures granted { (save : Saved)
        → Saves (wanted member.old cause.now.event) ceiling save cause.now.granted
        → (result.save ≡ save) × (result.granted ≡ cause.now.granted) }
    ensures outcomes { length answer.new.outs.items ≤ length cause.now.outcomes.items
        → result.outcomes.items
        ≡ take (length answer.new.outs.items) cause.now.outcomes.items }
{
    answer.clear();
    let judged = member.judge(&cause.event, read);
    let (save, granted) = settled(judged.wanted(), ceiling, cause.granted);
    member.act(&cause.event, judged, read, granted, answer);
    let outcomes = fates(&cause.outcomes, answer.outs.len());
    Done {
        granted,
        save,
        outcomes,
    }
}

impl Replay {
    /// An era that begins so, with no entry yet. The fault is the first that holds, and nothing was begun; where there
    /// is no memory for a place in the journal it is `NoMemory`.
    pub fn begin(alloc: Global, beginning: Beginning) -> Result<Replay, BeginFault>
        requires sound { AreSound beginning.state.settings }
        ensures base { IfOk result (λ era. era.base ≡ beginning) }
        ensures entries { IfOk result (λ era. era.entries ≡ []) }
        ensures none { OnOk result (begin_fault beginning ≡ None) }
        ensures fault { IfErr result (λ fault.
            fault ≢ NoMemory → begin_fault beginning ≡ Some fault) }
    {
        let Beginning {
            state,
            granted,
            past,
            limit,
        } = beginning;
        check_bounds(limit, state.number, granted, past)?;
        let member = Member::resume(state)?;
        let mut journal = Journal::new(alloc);
        if journal.reserve().is_err() {
            return Err(BeginFault::NoMemory);
        }
        Ok(Replay {
            base: Base {
                state: member.base(),
                granted,
                past,
                limit,
            },
            journal,
            member,
            granted,
            most: past,
            read: Datagram::default(),
            answer: Answer::nothing(),
        })
    }

    /// The entries, in order.
    pub fn journal(&self) -> &[Entry]
        ensures entries { result.now ≡ self.now.entries }
        ensures legal { IsLegal self.now.base self.now.entries }
        ensures texts { All HasTexts self.now.entries }
    {
        self.journal.entries()
    }

    /// How many entries a caller, below 16, has.
    pub fn turns(&self, caller: u8) -> u32
        requires { caller < 16 }
        ensures { result ≡ length (calls_by caller self.now.entries) }
    {
        self.journal.turns(caller)
    }

    /// Whether a call may be entered: in turn, and while the era has room.
    fn admit(&self, tag: Tag) -> Result<(), ApplyFault>
        requires { tag.caller < 16 }
        ensures ok { OnOk result (IsTurn self.now.entries tag
            × (length self.now.entries < self.now.base.limit)) }
        ensures refused { IfErr result (λ fault. Refused self.now.base self.now.entries tag fault) }
        ensures memory { result ≢ Err ApplyFault.NoMemory }
    {
        let turns = self.journal.turns(tag.caller);
        if tag.turn == 0 || tag.turn - 1 != turns {
            return Err(ApplyFault::OutOfTurn);
        }
        if self.journal.entries().len() >= self.base.limit as usize {
            return Err(ApplyFault::EraFull);
        }
        Ok(())
    }

    /// Enters one call of a caller below 16 with what was told of it. Of a ceiling counts what is above the one before,
    /// and only where the event wants more than that one; a datagram of which nothing was told is taken, and what was
    /// told of more datagrams than there are counts for nothing. The refusals are those of `Node::apply`, in their
    /// order, and change nothing.
    ///
    /// Whatever entry could stand there of which this was told, it is that one: so from where an era began the causes of
    /// its entries make those entries again.
    pub fn enter(&mut self, cause: Cause) -> Result<(), ApplyFault>
        requires caller { cause.tag.caller < 16 }
        ensures base { self.new.base ≡ self.old.base }
        ensures ok { OnOk result ((e : Entries)
            × (self.new.entries ≡ self.old.entries ++ e ∷ [])
            × IsNext self.old.base self.old.entries e
            × (e.tag ≡ cause.tag)
            × (e.event ≡ cause.event)) }
        ensures again { OnOk result ((e : Entries) → IsNext self.old.base self.old.entries e
            → IsTold cause e
            → self.new.entries ≡ self.old.entries ++ e ∷ []) }
        ensures err { OnErr result (self.new ≡ self.old) }
        ensures refused { IfErr result (λ fault.
            Refused self.old.base self.old.entries cause.tag fault) }
    {
        self.admit(cause.tag)?;
        if self.journal.reserve().is_err() {
            return Err(ApplyFault::NoMemory);
        }
        let done = enter_again(
            &mut self.member,
            self.granted,
            &cause,
            &mut self.read,
            &mut self.answer,
        );
        self.granted = done.granted;
        self.most = greatest_own(
            self.answer.outs.as_slice(),
            self.member.settings().me,
            self.most,
        );
        let status = status_now(&self.member, self.journal.entries().len() + 1);
        self.journal
            .add(cause.tag, &cause.event, done, &self.answer, status);
        Ok(())
    }
}
