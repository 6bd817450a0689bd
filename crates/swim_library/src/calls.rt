//! What a member that runs is asked for.

ghost use Rattle.std.specs.Prelude.{◌≡◌, ◌≢◌, ◌⊎◌, ◌↔◌, ◌<◌, ◌≤◌, ◌∷◌, [], ℕ, List, length, map, take, true, Err, IfErr, IfOk, IsErrOf, IsOk, MatchOption, OnErr, OnOk};
ghost use Rattle.swim_library.specs.Deal.{undealt_tick};
ghost use Rattle.swim_library.specs.Outbox.{waiting_in};
ghost use Rattle.swim_disk.specs.File.{file_state};
ghost use Rattle.swim_library.specs.Running.{AddsTo, CallsNode, EntersEvent, EntersTick, GoesOnOpen, Hands, MayEndEra, RefusesPeers, SavesPeers, ShowsRows};
ghost use Rattle.swim_library.specs.Shapes.{endpoint_as, note_as, row_as, status_as};
ghost use Rattle.swim_library.specs.declared.refusal.Refusal.TheVariants as why;
ghost use Rattle.swim_member.specs.declared.answer.TheConstants.{NOTES_MAX};
ghost use Rattle.swim_member.specs.declared.event.Event.TheVariants.{Members};
ghost use Rattle.swim_member.specs.Probe.{ends_period};
ghost use Rattle.swim_node.specs.History.{IsLegal, granted_of, state_after, status_of};
ghost use Rattle.swim_node.specs.Lives.{MayEnd};
ghost use Rattle.swim_node.specs.declared.entry.Reply.{Reply};
ghost use Rattle.swim_state.specs.declared.peers.TheConstants.{PEERS_MAX};
ghost use Rattle.swim_wire.specs.declared.datagram.TheConstants.{UPDATES_MAX};

use crate::deal::deal_of;
use crate::outbox::{Outbox, Waiting};
use crate::refusal::Refusal;
use crate::running::Running;
use crate::shapes::{SwimEndpoint, SwimRow, SwimStatus};
use arrayvec::ArrayVec;
use swim_disk::FileDisk;
use swim_member::{Event, NOTES_MAX, Note};
use swim_node::{ApplyFault, Node};
use swim_state::PEERS_MAX;
use swim_wire::{Cursor, Endpoint, UPDATES_MAX, Update, copied};

/// Writes a datagram with its length and its destination, where there is room.
fn hand_out(
    first: &Waiting,
    to: &mut SwimEndpoint,
    bytes: &mut [u8],
    count: &mut usize,
) -> Result<(), Refusal>
    ensures room { length bytes.new ≡ length bytes.old }
    ensures bytes { OnOk result (take count.new bytes.new ≡ first.now.bytes.items) }
    ensures count { OnOk result (count.new ≡ length first.now.bytes.items) }
    ensures to { OnOk result (to.new ≡ endpoint_as first.now.to) }
    ensures short { IfErr result (λ refusal. refusal ≡ why.Short) }
    ensures room_is { IsErrOf result why.Short ↔ (length bytes.old < length first.now.bytes.items) }
    ensures unwritten { OnErr result ((bytes.new ≡ bytes.old) × (count.new ≡ count.old)
        × (to.new ≡ to.old)) }
{
    let len = first.bytes.len();
    if bytes.len() < len {
        return Err(Refusal::Short);
    }
    bytes[..len].copy_from_slice(&first.bytes);
    *to = SwimEndpoint::of(first.to);
    *count = len;
    Ok(())
}

/// Makes one call of the node. The event stays where it is, and what the call tells stands in its last entry: both are large, and each
/// function that hands one on moves it. It is the one caller of `Node::apply_in_place`, which the compiler inlines here as long as
/// there is no second one.
#[inline(never)]
fn call(node: &mut Node<FileDisk>, outbox: &mut Outbox, event: &Event) -> Result<(), Refusal>
    requires { length node.old.entries < node.old.base.limit }
    ensures called { OnOk result
        (CallsNode node.old node.new (waiting_in outbox.old) (waiting_in outbox.new) event.now) }
    ensures refused { IfErr result (λ refusal. refusal ≡ why.NoMemory) }
    ensures same { OnErr result ((node.new ≡ node.old) × (outbox.new ≡ outbox.old)) }
{
    let tag = node.next_tag(0);
    match node.apply_in_place(outbox, tag, event) {
        Ok(()) => Ok(()),
        Err(ApplyFault::NoMemory) => Err(Refusal::NoMemory),
        Err(_) => unreachable!(),
    }
}

/// Ends the era if it has so many entries, and begins the next one.
fn end_era_of(node: &mut Node<FileDisk>, limit: u32)
    ensures era { MayEndEra node.old node.new }
    ensures room { 0 < limit → length node.new.entries < limit }
    ensures empty { limit ≡ 1 → node.new.entries ≡ [] }
    ensures limit { node.new.base.limit ≡ node.old.base.limit }
    ensures owner { node.new.owner ≡ node.old.owner }
    ensures first { node.new.first ≡ node.old.first }
    ensures disk { node.new.disk ≡ node.old.disk }
    ensures granted { granted_of node.new.base node.new.entries
        ≡ granted_of node.old.base node.old.entries }
    ensures legal { IsLegal node.old.base node.old.entries }
    ensures ends { MayEnd file_state node.new }
{
    node.journal_is_legal();
    if node.len() >= limit as usize {
        node.rebase();
    }
    node.life_may_end();
}

/// Takes over the notes of a reply, in place.
fn take_notes(from: &ArrayVec<Note, NOTES_MAX>, notes: &mut ArrayVec<Note, NOTES_MAX>)
    ensures { notes.new ≡ from.now }
{
    notes.clear();
    let _ = notes.try_extend_from_slice(from);
}

/// Writes the rows of a page.
fn write_rows(page: &[Update], rows: &mut [SwimRow])
    requires { length page.now ≤ length rows.old }
    ensures rows { take (length page.now) rows.new ≡ map row_as page.now }
    ensures room { length rows.new ≡ length rows.old }
{
    for place in 0..page.len() {
        rows[place] = SwimRow::of(&page[place]);
    }
}

/// Writes the numbers of notes.
fn write_notes(noted: &[Note], notes: &mut [u8])
    requires { length noted.now ≤ length notes.old }
    ensures notes { take (length noted.now) notes.new ≡ map note_as noted.now }
    ensures room { length notes.new ≡ length notes.old }
{
    for place in 0..noted.len() {
        notes[place] = noted[place].number();
    }
}

/// Writes endpoints.
fn write_endpoints(endpoints: &[Endpoint], out: &mut [SwimEndpoint])
    requires { length endpoints.now ≤ length out.old }
    ensures endpoints { take (length endpoints.now) out.new ≡ map endpoint_as endpoints.now }
    ensures room { length out.new ≡ length out.old }
{
    for place in 0..endpoints.len() {
        out[place] = SwimEndpoint::of(endpoints[place]);
    }
}

impl Running {
    /// Enters an event, or, where none is given, the tick that reads no deal. While datagrams of an earlier one wait, nothing happens.
    pub(crate) fn enter(&mut self, event: Option<&Event>) -> Result<(), Refusal>
        ensures entered { OnOk result (MatchOption event.entry
            (EntersEvent self.old self.new undealt_tick)
            (λ given. EntersEvent self.old self.new given.now)) }
        ensures waits { IsErrOf result why.Waiting ↔ (waiting_in self.old.outbox ≢ []) }
        ensures refused { IfErr result (λ refusal. refusal ≢ why.Waiting
            → refusal ≡ why.NoMemory) }
        ensures same { OnErr result (self.new ≡ self.old) }
    {
        if !self.outbox.is_empty() {
            return Err(Refusal::Waiting);
        }
        let event = event.unwrap_or(&self.undealt);
        call(&mut self.node, &mut self.outbox, event)?;
        take_notes(&self.node.last().reply.notes, &mut self.notes);
        end_era_of(&mut self.node, self.limit);
        Ok(())
    }

    /// The page of rows after a cursor, by one call of the node.
    pub(crate) fn page_after(
        &mut self,
        after: Cursor,
    ) -> Result<ArrayVec<Update, UPDATES_MAX>, Refusal>
        ensures added { IfOk result (λ page. (reply : Reply)
            × AddsTo self.old self.new (Members after) reply × (page ≡ reply.page)) }
        ensures notes { self.new.notes ≡ self.old.notes }
        ensures refused { IfErr result (λ refusal. refusal ≡ why.NoMemory) }
        ensures same { OnErr result (self.new ≡ self.old) }
    {
        call(&mut self.node, &mut self.outbox, &Event::Members { after })?;
        let page = copied(&self.node.last().reply.page);
        end_era_of(&mut self.node, self.limit);
        Ok(page)
    }

    /// Time goes on by a tick that ends a period, so that it may begin a turn list, whose order is drawn by this word. It is not
    /// inlined: the compiled code clears its event where a function begins, and most ticks have none.
    #[inline(never)]
    fn drawn_tick(&mut self, random: u64) -> Result<(), Refusal>
        requires { ends_period (state_after self.old.node.base self.old.node.entries) ≡ true }
        ensures entered { OnOk result ((numbers : List ℕ) × EntersTick self.old self.new numbers) }
        ensures waits { IsErrOf result why.Waiting ↔ (waiting_in self.old.outbox ≢ []) }
        ensures refused { IfErr result (λ refusal. refusal ≢ why.Waiting
            → refusal ≡ why.NoMemory) }
        ensures same { OnErr result (self.new ≡ self.old) }
    {
        let event = Event::Tick {
            deal: deal_of(random),
        };
        self.enter(Some(&event))
    }

    /// Time goes on by one tick. Where it ends no period the member reads no order, and is given the order that takes no drawing.
    pub(crate) fn tick(&mut self, random: u64) -> Result<(), Refusal>
        ensures entered { OnOk result ((numbers : List ℕ) × EntersTick self.old self.new numbers) }
        ensures waits { IsErrOf result why.Waiting ↔ (waiting_in self.old.outbox ≢ []) }
        ensures refused { IfErr result (λ refusal. refusal ≢ why.Waiting
            → refusal ≡ why.NoMemory) }
        ensures same { OnErr result (self.new ≡ self.old) }
    {
        if self.node.ends_period() {
            return self.drawn_tick(random);
        }
        self.enter(None)
    }

    /// Hands out the next datagram that waits, which then waits no more.
    pub(crate) fn next_datagram(
        &mut self,
        to: &mut SwimEndpoint,
        bytes: &mut [u8],
        count: &mut usize,
    ) -> Result<(), Refusal>
        ensures handed { OnOk result
            (Hands self.old self.new to.new (take count.new bytes.new)) }
        ensures nothing { IsErrOf result why.Nothing ↔ (waiting_in self.old.outbox ≡ []) }
        ensures short { IfErr result (λ refusal. refusal ≢ why.Nothing → refusal ≡ why.Short) }
        ensures same { OnErr result (self.new ≡ self.old) }
        ensures unwritten { OnErr result ((bytes.new ≡ bytes.old) × (count.new ≡ count.old)
            × (to.new ≡ to.old)) }
        ensures room { length bytes.new ≡ length bytes.old }
    {
        if self.outbox.is_empty() {
            return Err(Refusal::Nothing);
        }
        hand_out(self.outbox.first(), to, bytes, count)?;
        self.outbox.remove_first();
        Ok(())
    }

    /// Writes the rows after a cursor, at most 30, and how many they are.
    pub(crate) fn rows_after(
        &mut self,
        after: Cursor,
        rows: &mut [SwimRow],
        count: &mut usize,
    ) -> Result<(), Refusal>
        ensures shown { OnOk result (ShowsRows self.old self.new (Members after)
            (take count.new rows.new)) }
        ensures same { OnErr result (self.new ≡ self.old) }
        ensures room { length rows.new ≡ length rows.old }
        ensures notes { self.new.notes ≡ self.old.notes }
        ensures short { IsErrOf result why.Short → length rows.old < UPDATES_MAX }
        ensures refused { IfErr result (λ refusal. refusal ≢ why.Short
            → refusal ≡ why.NoMemory) }
    {
        if rows.len() < UPDATES_MAX {
            return Err(Refusal::Short);
        }
        let page = self.page_after(after)?;
        write_rows(&page, rows);
        *count = page.len();
        Ok(())
    }

    /// What a status page shows.
    pub(crate) fn status(&self) -> SwimStatus
        ensures { result ≡ status_as (status_of self.now.node.base self.now.node.entries)
            self.now.node.first }
    {
        SwimStatus::of(&self.node.status(), self.node.first())
    }

    /// Writes the numbers of the last event's notes, and how many they are.
    pub(crate) fn write_notes(&self, notes: &mut [u8], count: &mut usize) -> Result<(), Refusal>
        ensures notes { OnOk result (take count.new notes.new ≡ map note_as self.now.notes.items) }
        ensures room { length notes.new ≡ length notes.old }
        ensures short { IfErr result (λ refusal. refusal ≡ why.Short) }
        ensures enough { NOTES_MAX ≤ length notes.old → IsOk result }
    {
        if notes.len() < NOTES_MAX {
            return Err(Refusal::Short);
        }
        write_notes(&self.notes, notes);
        *count = self.notes.len();
        Ok(())
    }

    /// Writes the peers that stand in the state file, and how many they are.
    pub(crate) fn write_peers(
        &self,
        peers: &mut [SwimEndpoint],
        count: &mut usize,
    ) -> Result<(), Refusal>
        ensures peers { OnOk result
            (take count.new peers.new ≡ map endpoint_as self.now.node.peers) }
        ensures room { length peers.new ≡ length peers.old }
        ensures short { IfErr result (λ refusal. refusal ≡ why.Short) }
        ensures enough { PEERS_MAX ≤ length peers.old → IsOk result }
    {
        if peers.len() < PEERS_MAX {
            return Err(Refusal::Short);
        }
        let stored = self.node.peers();
        write_endpoints(stored.as_slice(), peers);
        *count = stored.as_slice().len();
        Ok(())
    }

    /// Saves whom the member knows, the first eight that are Alive or Suspect.
    pub(crate) fn keep_peers(&mut self) -> Result<(), Refusal>
        ensures kept { OnOk result (SavesPeers self.new.node) }
        ensures goes_on { GoesOnOpen self.old self.new }
        ensures refused { IfErr result
            (λ refusal. RefusesPeers self.old.node self.new.node refusal) }
    {
        end_era_of(&mut self.node, 1);
        let kept = self.node.keep_peers();
        self.node.life_may_end();
        match kept {
            Ok(()) => Ok(()),
            Err(fault) => Err(Refusal::Keeping(fault)),
        }
    }
}
