//! What happens to a member of a group: an event, or a datagram that is delivered.

ghost use Rattle.std.specs.Prelude.{◌≡◌, ◌+◌, ◌≤◌, ◌<◌, ◌↔◌, ◌++◌, length, take, vec_len, IsTrue, IfErr, Some, Err, OnOk, OnErr};
ghost use Rattle.std.specs.Vec.{vec_capacity};
ghost use Rattle.swim_wire.specs.Spelling.{HasText};
ghost use Rattle.swim_member.specs.declared.answer.TheConstants.{OUTS_MAX};
ghost use Rattle.swim_group.specs.declared.fault.GroupFault.TheVariants as fault;
ghost use Rattle.swim_group.specs.Network.{IsNotInvented};
ghost use Rattle.swim_group.specs.Real.{HasRun, HasSoundRun, IsReadable, IsNoEvent, IsNoArrival, Arrives, Delivers, after_event};

use crate::fault::GroupFault;
use crate::group::Group;
use arrayvec::ArrayVec;
use swim_member::{Event, Member, OUTS_MAX, Out, Outs};
use swim_wire::{Datagram, decode, encode};

/// A copy of a datagram with its destination.
fn copy(out: &Out) -> Out
    ensures { result ≡ out.now }
{
    let datagram = &out.datagram;
    let mut updates = ArrayVec::new();
    let _ = updates.try_extend_from_slice(datagram.updates.as_slice());
    Out {
        to: out.to,
        datagram: Datagram {
            version: datagram.version,
            kind: datagram.kind,
            group: datagram.group,
            seq: datagram.seq,
            sender: datagram.sender,
            subject: datagram.subject,
            updates,
        },
    }
}

/// Keeps copies of datagrams as far as there is room. The rest is lost.
pub(crate) fn keep(kept: &mut Vec<Out>, room: usize, outs: &Outs)
    requires within { length kept.old.items ≤ room }
    requires memory { vec_len kept.old + OUTS_MAX ≤ vec_capacity kept.old }
    ensures kept { kept.new.items ≡ take room (kept.old.items ++ outs.now.items) }
    ensures within { length kept.new.items ≤ room }
{
    let count = outs.len().min(room - kept.len());
    for out in &outs.as_slice()[..count] {
        kept.push_reserved(copy(out));
    }
}

/// An event comes to a member, with the ceiling that is granted, or with its own number if that is above.
fn happen(
    members: &mut Vec<Member>,
    kept: &mut Vec<Out>,
    room: usize,
    member: usize,
    event: &Event,
    granted: u64,
)
    requires there { member < length members.old.items }
    requires sent { IsNotInvented kept.old.items event.now }
    requires within { length kept.old.items ≤ room }
    requires memory { vec_len kept.old + OUTS_MAX ≤ vec_capacity kept.old }
    ensures run { HasRun members.old.items kept.old.items
        → HasRun members.new.items kept.new.items }
    ensures event { after_event
        record { members = members.old.items; kept = kept.old.items; room = room }
        member event.now granted
        ≡ Some (record { members = members.new.items; kept = kept.new.items; room = room }) }
    ensures within { length kept.new.items ≤ room }
{
    let ceiling = granted.max(members[member].number());
    members[member].history_may_go_on();
    let answer = members[member].step(event, ceiling);
    keep(kept, room, &answer.outs);
}

/// Whether what comes is a datagram.
pub(crate) fn is_readable(event: &Event) -> bool
    ensures { IsTrue result ↔ IsReadable event.now }
{
    match event {
        Event::Datagram { bytes, .. } => decode(bytes.as_slice()).is_ok(),
        _ => false,
    }
}

/// A datagram as it arrives: its text, from its sender.
pub(crate) fn arrival(out: &Out) -> Event
    requires { HasText out.now.datagram }
    ensures { Arrives out.now result }
{
    let text = encode(&out.datagram);
    let mut bytes = ArrayVec::new();
    if bytes.try_extend_from_slice(text.as_slice()).is_err() {
        unreachable!()
    }
    Event::Datagram {
        from: out.datagram.sender,
        bytes,
    }
}

impl Group {
    /// Whether there is such a member. Whatever is answered, the group has its run.
    pub(crate) fn find(&self, member: usize) -> Result<(), GroupFault>
        ensures ok { OnOk result (member < length self.now.members) }
        ensures missing { (result ≡ Err fault.NoMember) ↔ (length self.now.members ≤ member) }
        ensures err { IfErr result (λ refused. refused ≡ fault.NoMember) }
        ensures run { HasSoundRun self.now }
    {
        if self.members.len() <= member {
            return Err(GroupFault::NoMember);
        }
        Ok(())
    }

    /// An event that the network did not invent comes to a member, if there is memory for what it may send.
    fn bring(&mut self, member: usize, event: &Event, granted: u64) -> Result<(), GroupFault>
        requires there { member < length self.old.members }
        requires sent { IsNotInvented self.old.kept event.now }
        ensures ok { OnOk result (after_event self.old member event.now granted ≡ Some self.new) }
        ensures memory { IfErr result (λ refused. refused ≡ fault.NoMemory) }
        ensures err { OnErr result (self.new ≡ self.old) }
        ensures run { HasSoundRun self.new }
    {
        if self.kept.reserve(OUTS_MAX).is_err() {
            return Err(GroupFault::NoMemory);
        }
        happen(
            &mut self.members,
            &mut self.kept,
            self.room,
            member,
            event,
            granted,
        );
        Ok(())
    }

    /// An event comes to a member, with the ceiling `granted`, or with its own number if that is above: any event but a
    /// datagram that can be read, which `deliver` brings. What the member sends is kept as far as there is room.
    pub fn step(&mut self, member: usize, event: &Event, granted: u64) -> Result<(), GroupFault>
        // the member goes on by this event, no other changes, and nothing but what it sends is kept
        ensures ok { OnOk result (after_event self.old member event.now granted ≡ Some self.new) }
        ensures unforged { OnOk result (IsReadable event.now → ⊥) }
        ensures missing { (result ≡ Err fault.NoMember) ↔ (length self.old.members ≤ member) }
        // no such member, a datagram, or no memory
        ensures refused { IfErr result (λ why. IsNoEvent self.old member event.now why) }
        ensures err { OnErr result (self.new ≡ self.old) }
        // these are the members and datagrams of a run in which nothing is invented and no number is passed
        ensures run { HasSoundRun self.new }
    {
        self.find(member)?;
        if is_readable(event) {
            return Err(GroupFault::Readable);
        }
        self.bring(member, event, granted)
    }

    /// A datagram that is kept comes to a member, whomever it was sent to, with the ceiling `granted`, or with the
    /// member's own number if that is above. It stays, and may come again.
    pub fn deliver(
        &mut self,
        member: usize,
        datagram: usize,
        granted: u64,
    ) -> Result<(), GroupFault>
        ensures ok { OnOk result (Delivers self.old self.new member datagram granted) }
        ensures missing { (result ≡ Err fault.NoMember) ↔ (length self.old.members ≤ member) }
        // no such member, no such datagram, or no memory
        ensures refused { IfErr result (λ why. IsNoArrival self.old member datagram why) }
        ensures err { OnErr result (self.new ≡ self.old) }
        ensures run { HasSoundRun self.new }
    {
        self.find(member)?;
        if self.kept.len() <= datagram {
            return Err(GroupFault::NoDatagram);
        }
        let event = arrival(&self.kept[datagram]);
        self.bring(member, &event, granted)
    }
}
