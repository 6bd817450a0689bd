//! What a member shows and keeps.

ghost use Rattle.std.specs.Prelude.{◌≡◌, ◌≢◌, ◌≤◌, ◌⊎◌, length, map, take as first, Some, None};
ghost use Rattle.swim_library.specs.Changes.{HasNothingToTell, ReadsInVain, TellsChange};
ghost use Rattle.swim_library.specs.Codes.{CLOSED, IsDoneOrLacks, NOTHING, NO_MEMORY, OK, code_of};
ghost use Rattle.swim_library.specs.Holding.{HandleBecomes, held};
ghost use Rattle.swim_library.specs.Running.{GoesOnOpen, RefusesPeers, SavesPeers, ShowsRows};
ghost use Rattle.swim_library.specs.Shapes.{cursor_of, endpoint_as, note_as, status_as};
ghost use Rattle.swim_library.specs.declared.refusal.Refusal.{Refusal as Refusals};
ghost use Rattle.swim_library.specs.declared.running.Running.{Running};
ghost use Rattle.swim_member.specs.declared.answer.TheConstants.{NOTES_MAX};
ghost use Rattle.swim_member.specs.declared.event.Event.TheVariants.{Members};
ghost use Rattle.swim_node.specs.History.{status_of};
ghost use Rattle.swim_state.specs.declared.peers.TheConstants.{PEERS_MAX};
ghost use Rattle.swim_wire.specs.declared.datagram.TheConstants.{UPDATES_MAX};

use crate::handle::{SwimMember, put, take};
use crate::refusal::{Refusal, code};
use crate::shapes::{SwimEndpoint, SwimRow, SwimStatus};

/// The rows after an endpoint, at most 30, for which there has to be room; from the begin where its port is 0.
#[unsafe(no_mangle)]
pub extern "C" fn swim_library_members(
    member: &mut SwimMember,
    after: &SwimEndpoint,
    rows: &mut [SwimRow],
    count: &mut usize,
) -> u32
    ensures shown { result ≡ OK → HandleBecomes member.old member.new
        (λ before later. ShowsRows before later (Members (cursor_of after.now))
        (first count.new rows.new)) }
    ensures refused { result ≢ OK → held member.new ≡ held member.old }
    ensures closed { held member.old ≡ None → result ≡ CLOSED }
    ensures open { held member.old ≢ None → UPDATES_MAX ≤ length rows.old
        → IsDoneOrLacks result }
    ensures room { length rows.new ≡ length rows.old }
{
    match take(member) {
        None => code(Err(Refusal::Closed)),
        Some(mut running) => {
            let done = running.rows_after(after.cursor(), rows, count);
            put(member, running);
            code(done)
        }
    }
}

/// Tells the next change of a member's row: the row that it is, and the row that it was. The kind is 0 where there is none.
#[unsafe(no_mangle)]
pub extern "C" fn swim_library_next_change(
    member: &mut SwimMember,
    row: &mut SwimRow,
    was: &mut SwimRow,
) -> u32
    ensures told { result ≡ OK → HandleBecomes member.old member.new
        (λ before after. TellsChange before after row.new was.new) }
    ensures nothing { result ≡ NOTHING → HandleBecomes member.old member.new HasNothingToTell }
    ensures in_vain { result ≡ NO_MEMORY → HandleBecomes member.old member.new ReadsInVain }
    ensures closed { held member.old ≡ None → (result ≡ CLOSED) × (held member.new ≡ None) }
    ensures open { held member.old ≢ None → IsDoneOrLacks result ⊎ (result ≡ NOTHING) }
    ensures unwritten { result ≢ OK → (row.new ≡ row.old) × (was.new ≡ was.old) }
{
    match take(member) {
        None => code(Err(Refusal::Closed)),
        Some(mut running) => {
            let done = running.next_change(row, was);
            put(member, running);
            code(done)
        }
    }
}

/// What a status page shows.
#[unsafe(no_mangle)]
pub extern "C" fn swim_library_status(member: &mut SwimMember, status: &mut SwimStatus) -> u32
    ensures same { held member.new ≡ held member.old }
    ensures status { (running : Running) → held member.old ≡ Some running
        → status.new ≡ status_as (status_of running.node.base running.node.entries)
        running.node.first }
    ensures closed { held member.old ≡ None → result ≡ CLOSED }
    ensures open { held member.old ≢ None → result ≡ OK }
{
    match take(member) {
        None => code(Err(Refusal::Closed)),
        Some(running) => {
            *status = running.status();
            put(member, running);
            code(Ok(()))
        }
    }
}

/// The numbers of the last event's notes, and how many they are. There has to be room for 32.
#[unsafe(no_mangle)]
pub extern "C" fn swim_library_notes(
    member: &mut SwimMember,
    notes: &mut [u8],
    count: &mut usize,
) -> u32
    ensures same { held member.new ≡ held member.old }
    ensures notes { result ≡ OK → (running : Running) → held member.old ≡ Some running
        → first count.new notes.new ≡ map note_as running.notes.items }
    ensures closed { held member.old ≡ None → result ≡ CLOSED }
    ensures open { held member.old ≢ None → NOTES_MAX ≤ length notes.old → result ≡ OK }
    ensures room { length notes.new ≡ length notes.old }
{
    match take(member) {
        None => code(Err(Refusal::Closed)),
        Some(running) => {
            let done = running.write_notes(notes, count);
            put(member, running);
            code(done)
        }
    }
}

/// The peers that stand in the state file, and how many they are. There has to be room for eight.
#[unsafe(no_mangle)]
pub extern "C" fn swim_library_stored_peers(
    member: &mut SwimMember,
    peers: &mut [SwimEndpoint],
    count: &mut usize,
) -> u32
    ensures same { held member.new ≡ held member.old }
    ensures peers { result ≡ OK → (running : Running) → held member.old ≡ Some running
        → first count.new peers.new ≡ map endpoint_as running.node.peers }
    ensures closed { held member.old ≡ None → result ≡ CLOSED }
    ensures open { held member.old ≢ None → PEERS_MAX ≤ length peers.old → result ≡ OK }
    ensures room { length peers.new ≡ length peers.old }
{
    match take(member) {
        None => code(Err(Refusal::Closed)),
        Some(running) => {
            let done = running.write_peers(peers, count);
            put(member, running);
            code(done)
        }
    }
}

/// Saves whom the member knows in the state file.
#[unsafe(no_mangle)]
pub extern "C" fn swim_library_keep_peers(member: &mut SwimMember) -> u32
    ensures kept { result ≡ OK → HandleBecomes member.old member.new
        (λ before after. SavesPeers after.node) }
    // also if they were not saved
    ensures goes_on { held member.old ≢ None
        → HandleBecomes member.old member.new GoesOnOpen }
    ensures refused { held member.old ≢ None → result ≢ OK
        → HandleBecomes member.old member.new (λ before after. (refusal : Refusals)
        × (result ≡ code_of refusal) × RefusesPeers before.node after.node refusal) }
    ensures closed { held member.old ≡ None → result ≡ CLOSED }
{
    match take(member) {
        None => code(Err(Refusal::Closed)),
        Some(mut running) => {
            let done = running.keep_peers();
            put(member, running);
            code(done)
        }
    }
}
