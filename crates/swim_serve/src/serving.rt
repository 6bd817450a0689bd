//! A member from one era to the next.

ghost use Rattle.std.specs.Prelude.{◌≡◌, ◌∷◌, [], ◌++◌, None, false, IfErr, IfNone, IfOk, IfSome};
ghost use Rattle.swim_node.specs.History.{granted_of};
ghost use Rattle.swim_node.specs.Lives.{EndsEra, Era, GoesOn, IsRaised};
ghost use Rattle.swim_node.specs.Node.{next_base};
ghost use Rattle.swim_record.specs.Handing.{begun_at, recorded};
ghost use Rattle.swim_state.specs.Held.{Covers, Through};
ghost use Rattle.swim_serve.specs.EraCounts.{number_saves};
ghost use Rattle.swim_serve.specs.Faults.{fault_of};
ghost use Rattle.swim_serve.specs.Eras.{StaysIn};
ghost use Rattle.swim_serve.specs.Members.{CutsEra, Lived, LivedBy, ServesEra, member_of};
ghost use Rattle.swim_serve.specs.Peers.{BecameOf, BeginsKept, HasKnown, KeepsPeers, next_era};

use crate::chores::Chores;
use crate::era::{CALLERS, CutEra, EraEnd, WATCHES, run_era};
use crate::era_saves::{EraSaves, PeersSave, number_saves};
use crate::fault::{Fault, fault_by, fault_of};
use crate::grace::{Grace, MemberEnd};
use crate::host::{Host, ask_host};
use crate::outside::Outside;
use log::{Log, warn};
use std::alloc::Global;
use std::marker::Brand;
use std::sync::{Wait, WaitMethods};
use std::thread::Threads;
use std::time::Clock;
use swim_disk::Disk;
use swim_node::{Link, Node};
use swim_record::{BegunEra, Keeper, Unkept, begin, hand_over};
use swim_shared::{Outbox, Parts, Sender as Ring};
use swim_shell::{Alarmed, Doors, Inbound, Refusal};

/// How many datagrams wait at most until the sender takes them.
const OUTBOX_PLACES: usize = 256;

/// A member that has ended.
#[derive(Drop)]
pub struct EndedMember<D: Disk> {
    /// Its node, which no datagram comes to any more.
    pub node: Node<D>,
    /// How it ended. An error is the fault that ended it.
    pub how: Result<MemberEnd, Fault>,
}

/// Keeps the peers that the member knows, if they are others than those that stand in the state file, and tells what became of
/// them. A fault is logged only: the member goes on, and its next save keeps the peers that it knows by then.
#[tactic(auto, using(crate::proofs::Keeping::keeps_peers, crate::proofs::Keeping::begins_kept))]
fn keep_peers<D: Disk, T: Log>(rt: &T, node: &mut Node<D>) -> PeersSave
    requires { node.old.entries ≡ [] }
    ensures entries { node.new.entries ≡ [] }
    ensures base { IsRaised node.old.base node.new.base }
    ensures owner { node.new.owner ≡ node.old.owner }
    ensures first { node.new.first ≡ node.old.first }
    ensures disk { (D.state node.new.disk).name ≡ (D.state node.old.disk).name }
    ensures living { GoesOn D.state node.old node.new }
    ensures moments { D.keeps_model → Through (Covers node.old.owner node.old.base.granted)
        (D.state node.old.disk) (D.state node.new.disk) }
    ensures kept { (HasKnown node.old → ⊥)
        → KeepsPeers D.keeps_model D.state node.old node.new }
    ensures spared { HasKnown node.old → node.new ≡ node.old }
    ensures begins { BeginsKept node.new }
    ensures told { BecameOf D.keeps_model D.state node.old node.new result }
{
    if !node.has_other_peers() {
        return PeersSave::Spared;
    }
    match node.keep_peers() {
        Ok(()) => PeersSave::Done,
        Err(fault) => {
            warn!(rt; "keep refused {fault}");
            PeersSave::Failed
        }
    }
}

/// Ends an era of a node, and keeps the peers that the member knows then. The era is handed to its keeper, if that asked for its
/// beginning. It tells what was saved, and what became of the peers.
fn end_era<D: Disk, T: Log, K: Keeper>(
    rt: &T,
    node: &mut Node<D>,
    beginning: Option<BegunEra>,
    keeper: &mut K,
) -> EraSaves
    requires { IfSome beginning (λ beginning. beginning ≡ begun_at node.old.base) }
    ensures given { IfSome beginning (λ _. K.given keeper.new
        ≡ K.given keeper.old ++ recorded node.old.base node.old.entries ∷ []) }
    ensures none { IfNone beginning (keeper.new ≡ keeper.old) }
    ensures entries { node.new.entries ≡ [] }
    ensures base { IsRaised (next_base node.old.base node.old.entries) node.new.base }
    ensures owner { node.new.owner ≡ node.old.owner }
    ensures first { node.new.first ≡ node.old.first }
    ensures disk { (D.state node.new.disk).name ≡ (D.state node.old.disk).name }
    ensures living { EndsEra D.state node.old node.new }
    ensures moments { D.keeps_model
        → Through (Covers node.old.owner (granted_of node.old.base node.old.entries))
        (D.state node.old.disk) (D.state node.new.disk) }
    ensures kept { (HasKnown (next_era node.old) → ⊥)
        → KeepsPeers D.keeps_model D.state (next_era node.old) node.new }
    ensures spared { HasKnown (next_era node.old) → node.new ≡ next_era node.old }
    ensures begins { BeginsKept node.new }
    ensures numbers { result.numbers ≡ number_saves node.old.entries }
    ensures told { BecameOf D.keeps_model D.state (next_era node.old) node.new result.peers }
{
    let numbers = number_saves(node.journal()) as u64;
    hand_over(node, beginning, keeper);
    let peers = keep_peers(rt, node);
    EraSaves { numbers, peers }
}

/// An outbox with its ring, in which nothing waits; none where there is no memory.
fn outbox_of(alloc: Global) -> Option<(Outbox, Ring)>
    ensures ring { IfSome result (λ made. made.0.ring ≡ made.1.ring) }
    ensures put { IfSome result (λ made. made.0.put ≡ []) }
    ensures got { IfSome result (λ made. made.1.got ≡ []) }
{
    Outbox::new(alloc, OUTBOX_PLACES).ok()
}

/// One era of a node, and what the next one begins with. A tick that found the era full is due again. Where a worker's fault ends the
/// member, no peers are kept any more, and its keeper is not given the era.
fn one_era<
    D: Disk + Send + Drop,
    R: Threads + Wait + Log + Clock + Send + Sync + Copy + Drop,
    I: Alarmed<Alarm: Sync> + Send + Drop,
    M: Link + Send + Drop,
    O: Doors + Chores + Drop,
    K: Keeper,
>(
    rt: &R,
    alloc: Global,
    node: Node<D>,
    outside: Outside<I, M, R, O>,
    alarms: &[I::Alarm],
    keeper: &mut K,
) -> Result<EraEnd<D, I, M, R, O>, CutEra<D, Fault>>
    requires { node.entries ≡ [] }
    ensures entries { IfOk result (λ end. end.node.entries ≡ []) }
    ensures kept { IfOk result (λ end. fault_of end.ends ≡ None → BeginsKept end.node) }
    ensures let_go { K.keeps keeper.old ≡ false → keeper.new ≡ keeper.old }
    ensures era { IfOk result (λ end. (era : Era)
        × ServesEra D.keeps_model D.state I.tells M.tells
        (member_of node outside (K.keeps keeper.old) (K.given keeper.old))
        (member_of end.node end.outside (K.keeps keeper.new) (K.given keeper.new)) end.ends era) }
    ensures cut { IfErr result (λ cut. CutsEra cut.why
        × StaysIn D.keeps_model D.state node cut.node) }
    ensures not_given { IfErr result (λ _. keeper.new ≡ keeper.old) }
{
    let (outbox, ring) = match outbox_of(alloc) {
        Some(made) => made,
        None => {
            node.numbers_are_covered();
            let why = Fault::Memory;
            return Err(CutEra { node, why });
        }
    };
    let beginning = begin(rt, &node, keeper);
    let parts = Parts::new(node, outbox, CALLERS, WATCHES);
    let ended = run_era::<Brand, _, _, _, _, _>(rt, alloc, parts, ring, outside, alarms);
    let mut end = match ended {
        Ok(end) => end,
        Err(cut) => {
            let why = fault_by(cut.why);
            return Err(CutEra {
                node: cut.node,
                why,
            });
        }
    };
    if fault_of(&end.ends).is_some() {
        end.node.rebase();
        return Ok(end);
    }
    let saves = end_era(rt, &mut end.node, beginning, keeper);
    let was_full = end.ends.ticker == Some(Refusal::EraFull);
    end.outside.end_era(saves, was_full);
    Ok(end)
}

/// Runs a member era after era, until the line `stop` is answered, or a worker ends otherwise than by a full era, or, if it is to
/// end then, until its wait after it was expelled is over. The alarms end the waits of its sockets. Nobody keeps its eras. Whatever
/// ends it, its node is left: what `Node::into_disk` says of a life that ended holds of it.
pub fn run_member<
    D: Disk + Send + Drop,
    R: Threads + Wait + Log + Clock + Send + Sync + Copy + Drop,
    I: Alarmed<Alarm: Sync> + Send + Drop,
    M: Link + Send + Drop,
    O: Doors + Chores + Drop,
>(
    rt: &R,
    alloc: Global,
    node: Node<D>,
    outside: Outside<I, M, R, O>,
    alarms: &[I::Alarm],
) -> EndedMember<D>
    requires { node.entries ≡ [] }
    ensures { Lived D.keeps_model D.state I.tells M.tells node outside result.how result.node }
{
    let mut keeper = Unkept::new();
    run_kept(rt, alloc, node, outside, alarms, &mut keeper)
}

/// Runs a member as `run_member` does, and hands each era that ended to its host. After each of them it asks the host, which reads
/// the settings again where the line `reload` ended the era, and may change whom the member joins.
pub fn run_kept<
    D: Disk + Send + Drop,
    R: Threads + Wait + Log + Clock + Send + Sync + Copy + Drop,
    I: Alarmed<Alarm: Sync> + Send + Drop,
    M: Link + Send + Drop,
    O: Doors + Chores + Drop,
    H: Host,
>(
    rt: &R,
    alloc: Global,
    node: Node<D>,
    outside: Outside<I, M, R, O>,
    alarms: &[I::Alarm],
    host: &mut H,
) -> EndedMember<D>
    requires { node.entries ≡ [] }
    ensures { LivedBy D.keeps_model D.state I.tells M.tells H.relists
        (member_of node outside (H.keeps host.old) (H.given host.old)) result.how result.node
        (H.given host.new) }
{
    let mut grace = Grace::new(outside.expelled_ends());
    let mut left = (node, outside);
    for _ in rt.forever() {
        let era = match one_era(rt, alloc, left.0, left.1, alarms, host) {
            Ok(era) => era,
            Err(CutEra { node, why }) => return EndedMember {
                node,
                how: Err(why),
            },
        };
        let EraEnd {
            node,
            mut outside,
            ends,
            had_threads,
        } = era;
        let phase = node.status().phase;
        if let Some(how) = grace.end_after(rt, ends, had_threads, phase, &mut outside) {
            return EndedMember { node, how };
        }
        let stored = node.peers();
        ask_host(&mut outside, ends.control, &stored, host);
        left = (node, outside);
    }
    unreachable!()
}
