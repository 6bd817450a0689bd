//! The events of a member, and what it is to send.

ghost use Rattle.std.specs.Prelude.{◌≡◌, ◌≢◌, ◌<◌, ◌≤◌, [], List, ℕ, length, take as first, Some, None};
ghost use Rattle.swim_library.specs.Codes.{CLOSED, IsDoneOrLacks, NO_ENDPOINT, NO_MEMORY, NOTHING, OK, WAITING};
ghost use Rattle.swim_library.specs.Holding.{TriesToEnter, HandleBecomes, held};
ghost use Rattle.swim_library.specs.Outbox.{waiting_in};
ghost use Rattle.swim_library.specs.Pacing.{FollowsClock, FollowsInVain, tick_due};
ghost use Rattle.swim_library.specs.Running.{EntersEvent, EntersTick, Hands};
ghost use Rattle.swim_library.specs.Seeking.{HasNoTurn};
ghost use Rattle.swim_library.specs.Shapes.{number_of_endpoint};
ghost use Rattle.swim_library.specs.declared.running.Running.{Running};
ghost use Rattle.swim_member.specs.declared.event.Event.TheVariants.{Datagram, Join, Leave, ReceiveFailed, SendFailed};
ghost use Rattle.swim_member.specs.declared.event.TheConstants.{RECEIVED_MAX};

use crate::handle::{SwimMember, put, take};
use crate::refusal::{Refusal, code};
use crate::shapes::SwimEndpoint;
use arrayvec::ArrayVec;
use swim_member::{Event, RECEIVED_MAX};

/// Puts the bytes of a datagram that a member looks at into its event, which has none yet. They are put where they stay: an event that
/// is made around them moves as many as it has room for.
#[inline(always)]
fn put_bytes(event: &mut Event, bytes: &[u8])
    ensures { (from : ℕ) → event.old ≡ Datagram from (record { items = [] })
        → event.new ≡ Datagram from (record { items = first RECEIVED_MAX bytes.now }) }
{
    if let Event::Datagram { bytes: kept, .. } = event {
        let _ = kept.try_extend_from_slice(&bytes[..RECEIVED_MAX.min(bytes.len())]);
    }
}

/// Enters an event in the member that a handle leads to.
fn enter(member: &mut SwimMember, event: &Event) -> u32
    ensures { TriesToEnter member.old member.new result
        (λ before after. EntersEvent before after event.now) }
{
    match take(member) {
        None => code(Err(Refusal::Closed)),
        Some(mut running) => {
            let done = running.enter(Some(event));
            put(member, running);
            code(done)
        }
    }
}

/// Time goes on by one tick.
#[unsafe(no_mangle)]
pub extern "C" fn swim_library_tick(member: &mut SwimMember, random: u64) -> u32
    ensures { TriesToEnter member.old member.new result
        (λ before after. (numbers : List ℕ) × EntersTick before after numbers) }
{
    match take(member) {
        None => code(Err(Refusal::Closed)),
        Some(mut running) => {
            let done = running.tick(random);
            put(member, running);
            code(done)
        }
    }
}

/// Time is what the clock says: one tick goes by if one is due, however late it is. Then the member joins whom its joiner has it join.
/// Where memory is short for that, the tick was made, and the join is due at the next call too.
#[unsafe(no_mangle)]
pub extern "C" fn swim_library_advance(
    member: &mut SwimMember,
    now: u64,
    random: u64,
    next: &mut u64,
) -> u32
    ensures advanced { result ≡ OK → HandleBecomes member.old member.new
        (λ before after. FollowsClock before after now next.new) }
    ensures lacks { result ≡ NO_MEMORY → HandleBecomes member.old member.new
        (λ before after. FollowsInVain before after now) }
    ensures refused { result ≢ OK → result ≢ NO_MEMORY → held member.new ≡ held member.old }
    ensures unwritten { result ≢ OK → next.new ≡ next.old }
    ensures closed { held member.old ≡ None → result ≡ CLOSED }
    ensures early { (running : Running) → held member.old ≡ Some running
        → now < tick_due running now
        → HasNoTurn running
        → result ≡ OK }
    ensures waits { (running : Running) → held member.old ≡ Some running
        → tick_due running now ≤ now
        → waiting_in running.outbox ≢ []
        → result ≡ WAITING }
    ensures open { (running : Running) → held member.old ≡ Some running
        → waiting_in running.outbox ≡ []
        → IsDoneOrLacks result }
{
    match take(member) {
        None => code(Err(Refusal::Closed)),
        Some(mut running) => {
            let done = running.follow_clock(now, random);
            put(member, running);
            match done {
                Ok(due) => {
                    *next = due;
                    code(Ok(()))
                }
                Err(refusal) => code(Err(refusal)),
            }
        }
    }
}

/// Bytes came. What passes 513 of them is cut off. Whoever can send a datagram can send one from port 0; nobody can be
/// answered there, so such a one is left aside, and nothing is entered.
#[unsafe(no_mangle)]
pub extern "C" fn swim_library_receive(
    member: &mut SwimMember,
    from: &SwimEndpoint,
    bytes: &[u8],
) -> u32
    ensures somebody { from.now.port ≢ 0 → TriesToEnter member.old member.new result
        (λ before after. EntersEvent before after (Datagram (number_of_endpoint from.now)
        (record { items = first RECEIVED_MAX bytes.now }))) }
    ensures nobody { from.now.port ≡ 0 → held member.new ≡ held member.old }
    ensures aside { from.now.port ≡ 0 → held member.old ≢ None → result ≡ OK }
    ensures closed { held member.old ≡ None → result ≡ CLOSED }
{
    match from.endpoint() {
        None if member.is_open() => code(Ok(())),
        None => code(Err(Refusal::Closed)),
        Some(from) => {
            let mut event = Event::Datagram {
                from,
                bytes: ArrayVec::new(),
            };
            put_bytes(&mut event, bytes);
            enter(member, &event)
        }
    }
}

/// A receive failed.
#[unsafe(no_mangle)]
pub extern "C" fn swim_library_receive_failed(member: &mut SwimMember) -> u32
    ensures { TriesToEnter member.old member.new result
        (λ before after. EntersEvent before after ReceiveFailed) }
{
    enter(member, &Event::ReceiveFailed)
}

/// So many datagrams were not sent.
#[unsafe(no_mangle)]
pub extern "C" fn swim_library_send_failed(member: &mut SwimMember, count: u32) -> u32
    ensures { TriesToEnter member.old member.new result
        (λ before after. EntersEvent before after (SendFailed count)) }
{
    enter(member, &Event::SendFailed { count })
}

/// The member asks another for all that it knows.
#[unsafe(no_mangle)]
pub extern "C" fn swim_library_join(member: &mut SwimMember, peer: &SwimEndpoint) -> u32
    ensures peer { peer.now.port ≢ 0 → TriesToEnter member.old member.new result
        (λ before after. EntersEvent before after (Join (number_of_endpoint peer.now))) }
    ensures endpoint { peer.now.port ≡ 0 → result ≡ NO_ENDPOINT }
    ensures same { peer.now.port ≡ 0 → held member.new ≡ held member.old }
{
    match peer.endpoint() {
        None => code(Err(Refusal::NoEndpoint)),
        Some(peer) => enter(member, &Event::Join { peer }),
    }
}

/// The member leaves the group.
#[unsafe(no_mangle)]
pub extern "C" fn swim_library_leave(member: &mut SwimMember) -> u32
    ensures { TriesToEnter member.old member.new result
        (λ before after. EntersEvent before after Leave) }
{
    enter(member, &Event::Leave)
}

/// Hands out the next datagram that waits.
#[unsafe(no_mangle)]
pub extern "C" fn swim_library_next_datagram(
    member: &mut SwimMember,
    to: &mut SwimEndpoint,
    bytes: &mut [u8],
    count: &mut usize,
) -> u32
    ensures handed { result ≡ OK → HandleBecomes member.old member.new
        (λ before after. Hands before after to.new (first count.new bytes.new)) }
    ensures refused { result ≢ OK → held member.new ≡ held member.old }
    ensures closed { held member.old ≡ None → result ≡ CLOSED }
    ensures nothing { (running : Running) → held member.old ≡ Some running
        → waiting_in running.outbox ≡ []
        → result ≡ NOTHING }
    ensures some { (running : Running) → held member.old ≡ Some running
        → waiting_in running.outbox ≢ []
        → result ≢ NOTHING }
    ensures unwritten { result ≢ OK → (bytes.new ≡ bytes.old) × (count.new ≡ count.old)
        × (to.new ≡ to.old) }
    ensures room { length bytes.new ≡ length bytes.old }
{
    match take(member) {
        None => code(Err(Refusal::Closed)),
        Some(mut running) => {
            let done = running.next_datagram(to, bytes, count);
            put(member, running);
            code(done)
        }
    }
}
