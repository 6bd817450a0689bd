//! What a call does beside the journal: its event is judged, the number that it wants is saved, the member acts, and what it says is sent.

ghost use Rattle.std.specs.Prelude.{◌≡◌, ◌≤◌, ◌^◌, ◌+◌, ◌++◌, ◌∷◌, [], length, All, IfSome};
ghost use Rattle.swim_member.specs.Events.{no_answer};
ghost use Rattle.swim_member.specs.Judge.{wanted, HasDeal};
ghost use Rattle.swim_node.specs.History.{lost_in};
ghost use Rattle.swim_node.specs.Machinery.Entering.{Steps};
ghost use Rattle.swim_node.specs.Peers.{known_peers};
ghost use Rattle.swim_node.specs.Saving.{Saved};
ghost use Rattle.swim_node.specs.Sending.{Sends, taken_by};
ghost use Rattle.swim_wire.specs.Spelling.{HasText};
ghost use Rattle.swim_wire.specs.declared.update.TheConstants.{NUMBER_MAX};

use crate::peers::known_peers;
use crate::{Link, Outcome, Save};
use arrayvec::ArrayVec;
use swim_disk::Disk;
use swim_member::{Answer, Event, Member, OUTS_MAX, Out};
use swim_state::Store;
use swim_wire::{DATAGRAM_MAX, Datagram, encode_into};

/// What a call did, beside what the member answered.
#[derive(Drop)]
pub(crate) struct Done {
    pub granted: u64,
    pub save: Save,
    pub outcomes: ArrayVec<Outcome, OUTS_MAX>,
}

/// Raises the ceiling where the wanted number is above it, to the last of a block of so many numbers
/// that begins with the wanted one, and keeps the peers that the member knows before the event.
fn save<D: Disk>(store: &mut Store<D>, member: &Member, wanted: Option<u64>) -> Save
    requires wanted { IfSome wanted (λ n. n ≤ NUMBER_MAX) }
    ensures { Saved D.keeps_model D.state member.now.settings.block (known_peers member.now) wanted
        result store.old store.new }
{
    let ceiling = store.ceiling();
    match wanted {
        None => Save::Kept,
        Some(number) => {
            if number <= ceiling {
                return Save::Kept;
            }
            let spare = member.block() - 1;
            match store.raise(number, spare, known_peers(member).as_slice()) {
                Ok(()) => Save::Done,
                Err(_) => Save::Failed,
            }
        }
    }
}

/// Sends one datagram.
fn send_one<L: Link>(link: &mut L, out: &Out) -> Outcome
    requires { HasText out.now.datagram }
    ensures name { L.name link.new ≡ L.name link.old }
    ensures took { L.tells
        → L.took link.new ≡ L.took link.old ++ taken_by (out.now ∷ []) (result ∷ []) }
    ensures failures { L.failures link.new ≡ L.failures link.old + lost_in (result ∷ []) }
{
    let mut room = [0; DATAGRAM_MAX];
    let len = encode_into(&out.datagram, &mut room);
    match link.send(out.to, &room[..len]) {
        Ok(()) => Outcome::Taken,
        Err(_) => Outcome::Lost,
    }
}

/// Sends each datagram in order, whatever became of the one before.
fn send_all<L: Link>(link: &mut L, outs: &[Out]) -> ArrayVec<Outcome, OUTS_MAX>
    requires room { length outs.now ≤ OUTS_MAX }
    requires texts { All (λ out. HasText out.datagram) outs.now }
    ensures name { L.name link.new ≡ L.name link.old }
    ensures sends { Sends L.tells (L.took link.old) (L.took link.new) (L.failures link.old)
        (L.failures link.new) outs.now result.items }
{
    let mut outcomes = ArrayVec::new();
    for out in outs {
        outcomes.push(send_one(link, out));
    }
    outcomes
}

/// Judges an event, saves what it wants, acts with the ceiling that stands, and sends. A datagram is read into the place
/// that is lent for it. The answer is what the member says, and nothing of what stood there before.
pub(crate) fn enter<D: Disk, L: Link>(
    member: &mut Member,
    store: &mut Store<D>,
    link: &mut L,
    event: &Event,
    read: &mut Datagram,
    answer: &mut Answer,
) -> Done
    requires low { member.old.number ≤ store.old.ceiling }
    ensures saved { Saved D.keeps_model D.state member.old.settings.block
        (known_peers member.old) (wanted member.old event.now) result.save store.old store.new }
    ensures granted { result.granted ≡ store.new.ceiling }
    ensures steps { Steps member.old member.new event.now result.granted answer.new }
    ensures deal { HasDeal event.now }
    ensures texts { All (λ out. HasText out.datagram) answer.new.outs.items }
    ensures name { L.name link.new ≡ L.name link.old }
    ensures sends { Sends L.tells (L.took link.old) (L.took link.new) (L.failures link.old)
        (L.failures link.new) answer.new.outs.items result.outcomes.items }
{
    answer.clear();
    let judged = member.judge(event, read);
    let save = save(store, member, judged.wanted());
    member.act(event, judged, read, store.ceiling(), answer);
    let outcomes = send_all(link, answer.outs.as_slice());
    Done {
        granted: store.ceiling(),
        save,
        outcomes,
    }
}
