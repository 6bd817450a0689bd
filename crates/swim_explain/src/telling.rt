//! The story of one member in an era: the member whose era it is does all again, and each call tells what it says.

ghost use Rattle.std.specs.Prelude.{◌≡◌, ◌≢◌, ◌≤◌, ◌++◌, ◌∷◌, [], List, None, map, OnOk, IfOk, IfErr};
ghost use Rattle.std.specs.Option.{option_to_list};
ghost use Rattle.swim_member.specs.Checks.{AreSound};
ghost use Rattle.swim_member.specs.Events.{Step, state_of};
ghost use Rattle.swim_member.specs.Judged.{judged_as};
ghost use Rattle.swim_member.specs.State.{State};
ghost use Rattle.swim_member.specs.declared.event.Event.{Event as Events};
ghost use Rattle.swim_node.specs.declared.beginning.BeginFault.TheVariants.{NoMemory};
ghost use Rattle.swim_node.specs.History.{step_of};
ghost use Rattle.swim_node.specs.Replaying.{begin_fault};
ghost use Rattle.swim_explain.specs.Facts.{ended, facts, itself, met, renumbered};
ghost use Rattle.swim_explain.specs.Story.{stamped, story, told_at};
ghost use Rattle.swim_explain.specs.Machinery.Covering.{AreCovered};

use crate::datagrams::tell_datagram;
use crate::fact::{Fact, Happening, add};
use crate::sends::{purpose_of, tell_sent};
use crate::ticks::tell_tick;
use crate::view::View;
use std::alloc::{AllocError, Global};
use swim_member::{Answer, Judgement, Member, Phase, Settings};
use swim_node::{BeginFault, Beginning, Entry, Replay};
use swim_wire::{Datagram, Endpoint};

/// What the call was told, and what time did.
fn tell_met(
    facts: &mut Vec<Fact>,
    settings: &Settings,
    who: Endpoint,
    before: &View,
    after: &View,
    judged: &Judgement,
    read: &Datagram,
) -> Result<(), AllocError>
    requires { settings.now.period ≢ 0 }
    ensures { OnOk result ((event : Events) → facts.new.items ≡ facts.old.items
        ++ met settings.now who before.now after.now (judged_as event read.now judged.now)) }
{
    match judged {
        Judgement::Datagram { own: _ } => {
            tell_datagram(facts, settings, who, before, after, read)
        }
        Judgement::Tick => tell_tick(facts, settings, who, before, after),
        _ => Ok(()),
    }
}

/// That the own number changed, if it did.
fn renumbered(from: u64, to: u64) -> Option<Fact>
    ensures { option_to_list result ≡ renumbered from to }
{
    if from == to {
        return None;
    }
    Some(Fact::Renumbered { from, to })
}

/// That the member takes part no more, if it did before.
fn ended(before: Phase, after: Phase) -> Option<Fact>
    ensures { option_to_list result ≡ ended before after }
{
    match (before, after) {
        (Phase::Running, Phase::Left) => Some(Fact::Left),
        (Phase::Running, Phase::Expelled) => Some(Fact::Expelled),
        _ => None,
    }
}

/// What became of the member itself.
fn tell_own(
    facts: &mut Vec<Fact>,
    who: Endpoint,
    me: Endpoint,
    before: &View,
    after: &View,
) -> Result<(), AllocError>
    ensures { OnOk result (facts.new.items
        ≡ facts.old.items ++ itself who me before.now after.now) }
{
    if who != me {
        return Ok(());
    }
    add(facts, &renumbered(before.number, after.number))?;
    add(facts, &ended(before.phase, after.phase))
}

/// All that a call says of the member, between these views.
fn facts_of(
    alloc: Global,
    settings: &Settings,
    who: Endpoint,
    judged: &Judgement,
    read: &Datagram,
    before: &View,
    after: &View,
    entry: &Entry,
) -> Result<Vec<Fact>, AllocError>
    requires { settings.now.period ≢ 0 }
    ensures { IfOk result (λ told. told.items ≡ facts settings.now who
        (judged_as entry.now.event read.now judged.now) before.now after.now entry.now) }
{
    let mut facts = Vec::new(alloc);
    tell_met(&mut facts, settings, who, before, after, judged, read)?;
    tell_own(&mut facts, who, settings.me, before, after)?;
    let purpose = purpose_of(judged, read);
    let (outs, outcomes) = (entry.outs.as_slice(), entry.outcomes.as_slice());
    tell_sent(&mut facts, who, &purpose, outs, outcomes)?;
    Ok(facts)
}

/// Adds facts that came about at this call and this tick.
fn stamp(
    told: &mut Vec<Happening>,
    call: usize,
    tick: u64,
    facts: &[Fact],
) -> Result<(), AllocError>
    ensures { OnOk result (told.new.items ≡ told.old.items ++ map (stamped call tick) facts.now) }
{
    for fact in facts {
        told.push(Happening {
            call,
            tick,
            fact: *fact,
        })?;
    }
    Ok(())
}

/// Does a call again, and tells what it says.
fn tell_call(
    told: &mut Vec<Happening>,
    alloc: Global,
    member: &mut Member,
    who: Endpoint,
    call: usize,
    entry: &Entry,
) -> Result<(), AllocError>
    requires sound { AreSound member.old.settings }
    requires low { member.old.number ≤ entry.now.granted }
    // whatever steps this member's state is that of, with this call they go on
    ensures state { OnOk result ((base : State) (before : List Step)
        → state_of base before ≡ member.old
        → state_of base (before ++ step_of entry.now ∷ []) ≡ member.new) }
    ensures told { OnOk result (told.new.items
        ≡ told.old.items ++ told_at member.old member.new call who entry.now) }
    ensures low { OnOk result (member.new.number ≤ entry.now.granted) }
    ensures settings { OnOk result (member.new.settings ≡ member.old.settings) }
{
    let mut read = Datagram::default();
    let judged = member.judge(&entry.event, &mut read);
    let before = View::of(member, who);
    let mut said = Answer::nothing();
    member.act(&entry.event, judged, &read, entry.granted, &mut said);
    let after = View::of(member, who);
    let settings = member.settings();
    let facts = facts_of(
        alloc, &settings, who, &judged, &read, &before, &after, entry,
    )?;
    stamp(told, call, after.time, &facts)
}

/// The story of a member in the entries that followed upon where this one stood.
fn tell_all(
    alloc: Global,
    begun: Member,
    entries: &[Entry],
    who: Endpoint,
) -> Result<Vec<Happening>, AllocError>
    requires sound { AreSound begun.settings }
    requires reads { state_of begun [] ≡ begun }
    requires covered { AreCovered begun.number entries.now }
    ensures { IfOk result (λ told. told.items ≡ story begun who entries.now) }
{
    let mut told = Vec::new(alloc);
    let mut member = begun;
    let View { time, row, .. } = View::of(&member, who);
    stamp(&mut told, 0, time, &[Fact::Began { row }])?;
    for (index, entry) in entries.iter().enumerate() {
        tell_call(&mut told, alloc, &mut member, who, index + 1, entry)?;
    }
    Ok(told)
}

/// Does an era again that began with this member, and tells the story of another or of itself.
fn tell_era(
    alloc: Global,
    begun: Member,
    era: &Replay,
    who: Endpoint,
) -> Result<Vec<Happening>, AllocError>
    requires sound { AreSound begun.settings }
    requires base { era.now.base.state ≡ begun }
    requires reads { state_of begun [] ≡ begun }
    requires low { begun.number ≤ era.now.base.granted }
    ensures { IfOk result (λ told. told.items ≡ story begun who era.now.entries) }
{
    tell_all(alloc, begun, era.journal(), who)
}

/// The story of one member in an era that began so: what was held of it there, and then what each call says of it, in
/// order. Err: no era begins so, or there was no memory.
pub fn story(
    alloc: Global,
    beginning: Beginning,
    era: &Replay,
    who: Endpoint,
) -> Result<Vec<Happening>, BeginFault>
    requires sound { AreSound beginning.state.settings }
    requires base { era.now.base ≡ beginning }
    ensures story { IfOk result (λ told. told.items
        ≡ story beginning.state who era.now.entries) }
    // where an era may begin so, only memory can lack
    ensures refused { begin_fault beginning ≡ None → IfErr result (λ fault. fault ≡ NoMemory) }
{
    let Beginning { state, granted, .. } = beginning;
    if state.number > granted {
        return Err(BeginFault::Ceiling);
    }
    let begun = Member::resume(state)?;
    tell_era(alloc, begun, era, who).map_err(|_| BeginFault::NoMemory)
}
