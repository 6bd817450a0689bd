//! What the datagrams of a call say of a member.

ghost use Rattle.std.specs.Prelude.{◌≡◌, ◌++◌, OnOk};
ghost use Rattle.std.specs.Option.{option_to_list};
ghost use Rattle.swim_member.specs.Judged.{judged_as};
ghost use Rattle.swim_member.specs.declared.event.Event.{Event as Events};
ghost use Rattle.swim_explain.specs.Facts.{purpose_of, sent, sent_about};

use crate::fact::{Fact, Purpose, add};
use std::alloc::AllocError;
use swim_member::{Judgement, Out};
use swim_node::Outcome;
use swim_wire::{Datagram, Endpoint, Kind};

/// For what a call pings that was so judged, and whose datagram was read.
pub(crate) fn purpose_of(judged: &Judgement, read: &Datagram) -> Purpose
    ensures { (event : Events) → result ≡ purpose_of (judged_as event read.now judged.now) }
{
    match judged {
        Judgement::Datagram { own: _ } => Purpose::Relay(read.sender),
        Judgement::Leave => Purpose::Leave,
        _ => Purpose::Probe,
    }
}

/// What a datagram to or about the member says.
fn sent_about(who: Endpoint, purpose: &Purpose, out: &Out, outcome: Outcome) -> Option<Fact>
    ensures { option_to_list result
        ≡ sent_about who purpose.now out.now.datagram.kind out.now outcome }
{
    let seq = out.datagram.seq;
    let is_about = out.datagram.subject.number() == who.number();
    match out.datagram.kind {
        Kind::Ping if is_about => Some(Fact::Pinged {
            purpose: *purpose,
            seq,
            outcome,
        }),
        Kind::PingReq if is_about => Some(Fact::Asked {
            helper: out.to,
            seq,
            outcome,
        }),
        Kind::Join if out.to == who => Some(Fact::Joined { seq, outcome }),
        _ => None,
    }
}

/// What the datagrams to or about the member say, with what became of them.
pub(crate) fn tell_sent(
    facts: &mut Vec<Fact>,
    who: Endpoint,
    purpose: &Purpose,
    outs: &[Out],
    outcomes: &[Outcome],
) -> Result<(), AllocError>
    ensures { OnOk result (facts.new.items
        ≡ facts.old.items ++ sent who purpose.now outs.now outcomes.now) }
{
    for (place, out) in outs.iter().enumerate() {
        if let Some(outcome) = outcomes.get(place) {
            add(facts, &sent_about(who, purpose, out, *outcome))?;
        }
    }
    Ok(())
}
