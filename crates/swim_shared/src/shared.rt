//! The lock, and what is handed out.

ghost use Rattle.std.specs.Prelude.{◌≡◌, ◌<◌, ◌^◌, ◌++◌, IfOk, IfErr, IsTrue, false, vec_len};
ghost use Rattle.swim_node.specs.History.{IsLegal};
ghost use Rattle.swim_shared.specs.Moments.{CoversEra};
ghost use Rattle.swim_shared.specs.Taken.{taken_of};
ghost use Rattle.swim_shared.specs.Passes.{Called, FullFor, Unseen, new_passes, new_watches};
ghost use Rattle.swim_shared.specs.Published.{KnowsOf};
ghost use Rattle.swim_shared.specs.Odd.{odd_of, AllBegin, AllWatchesBegin};

use crate::CallFault;
use crate::front::Opened;
use crate::locked::Locked;
use crate::name::Name;
use crate::parts::Parts;
use crate::pass::Pass;
use crate::set_up::set_up;
use crate::watch::Watch;
use std::alloc::Global;
use std::sync::{Mutex, Wait};
use swim_disk::Disk;
use swim_member::Event;
use swim_node::{Link, Node, Reply};

/// A node behind its lock, which any number of threads share by a `&`. `N` names it, its passes and
/// its watches; `R` is the handle by which it waits for a watch's reading to end.
#[derive(Drop)]
pub struct Shared<N: Name, D: Disk, L: Link, R: Wait + Drop> {
    lock: Mutex<Locked<N, D, L, R>>,
}

/// What `close` gives back.
#[derive(Drop)]
pub struct Closed<D: Disk, L: Link> {
    /// The node with its journal.
    pub node: Node<D>,
    /// Its link.
    pub link: L,
    /// How many passes and watches do not fit the journal.
    pub odd: u32,
}

impl<N: Name, D: Disk, L: Link, R: Wait + Drop> Shared<N, D, L, R> {
    /// One lock round the parts, with a pass for each caller, in order from caller 0, and the
    /// watches. `N` is to name these parts. The parts come back as they are where there is no
    /// memory.
    pub fn new(
        alloc: Global,
        rt: R,
        parts: Parts<D, L>,
    ) -> Result<(Shared<N, D, L, R>, Vec<Pass<N>>, Vec<Watch<N>>), Parts<D, L>>
        requires book { parts.book ≡ N.book }
        requires base { parts.node.base ≡ N.base }
        requires disk { (D.state parts.node.disk).name ≡ N.disk }
        requires clock { (D.state parts.node.disk).clock ≡ N.clock }
        requires owner { parts.node.owner ≡ N.owner }
        requires first { parts.node.first ≡ N.first }
        requires link { L.name parts.link ≡ N.link }
        requires start { L.tells → L.took parts.link ≡ N.start }
        ensures passes { IfOk result (λ t. t.1.items ≡ new_passes parts.callers) }
        ensures watches { IfOk result (λ t. t.2.items ≡ new_watches parts.watches) }
        ensures err { IfErr result (λ p. p ≡ parts) }
    {
        let Parts {
            node,
            link,
            callers,
            watches,
            opened,
        } = parts;
        match set_up::<N, D, R>(alloc, rt, &node, &opened.front, callers, watches) {
            Ok((publisher, passes, views)) => {
                let Opened { head, front } = opened;
                node.numbers_are_covered();
                let locked = Locked::new(node, link, head, front, publisher);
                let lock = Mutex::new(locked);
                Ok((Shared { lock }, passes, views))
            }
            Err(_) => Err(Parts {
                node,
                link,
                callers,
                watches,
                opened,
            }),
        }
    }

    /// Enters an event as the next call of the pass, and reads it back: from Ok on the pass's list
    /// is a legal history that goes on from what it was and ends with this call and its reply. It
    /// waits for the lock.
    ///
    /// `NoMemory`: there is no place in the journal, and nothing changed. `EraFull`: nothing was
    /// entered, and the pass has read the whole era. `OutOfTurn`: the pass does not fit the
    /// journal, and nothing changed. `Unread`: the call was entered or not, but could not be read
    /// back; the pass is spent, answers this from now on, and enters nothing more.
    pub fn call<W: Wait>(
        &self,
        rt: &W,
        pass: &mut Pass<N>,
        event: Event,
    ) -> Result<Reply, CallFault>
        ensures ok { IfOk result (λ r. Called N.base pass.old event r pass.new) }
        ensures memory { result ≡ Err CallFault.NoMemory → pass.new ≡ pass.old }
        ensures full { result ≡ Err CallFault.EraFull → FullFor N.base pass.old pass.new }
        ensures turn { result ≡ Err CallFault.OutOfTurn → pass.new ≡ pass.old }
        ensures unread { result ≡ Err CallFault.Unread → Unseen pass.old pass.new }
        ensures spent { IsTrue pass.old.spent → result ≡ Err CallFault.Unread }
        ensures spent_stays { IsTrue pass.old.spent → pass.new ≡ pass.old }
    {
        self.lock.lock(rt).call(pass, event)
    }

    /// Lets the watch know all that the pass has read back, and says whether it does from now on.
    /// It does not where what is shown is shorter than what one of the two has seen. It waits for
    /// the lock.
    pub fn show<W: Wait>(&self, rt: &W, pass: &mut Pass<N>, watch: &mut Watch<N>) -> bool
        ensures shown { IsTrue result → KnowsOf pass.old.seen watch.old watch.new }
        ensures same { result ≡ false → watch.new ≡ watch.old }
        ensures pass { pass.new ≡ pass.old }
    {
        self.lock.lock(rt).show(pass, watch)
    }

    /// Ends what is shared, and counts the passes and watches handed in that do not fit the
    /// journal; what each of the others has seen is a beginning of it. No moment of the era left
    /// less on the disk, after a crash, than had been sent by then (`covers`); what
    /// `Node::into_disk` says of crashes holds of the node that comes back.
    pub fn close(self, passes: Vec<Pass<N>>, watches: Vec<Watch<N>>) -> Closed<D, L>
        requires few { (vec_len passes < 2 ^ 16) × (vec_len watches < 2 ^ 16) }
        ensures legal { IsLegal N.base result.node.entries }
        ensures base { result.node.base ≡ N.base }
        ensures disk { (D.state result.node.disk).name ≡ N.disk }
        ensures covers { D.keeps_model
            → CoversEra (D.state result.node.disk) N.owner N.base N.clock result.node.entries }
        ensures owner { result.node.owner ≡ N.owner }
        ensures first { result.node.first ≡ N.first }
        ensures link { L.name result.link ≡ N.link }
        ensures took { L.tells → L.took result.link ≡ N.start ++ taken_of result.node.entries }
        ensures odd { result.odd ≡ odd_of result.node.entries passes.items watches.items }
        ensures passes { AllBegin result.node.entries passes.items }
        ensures watches { AllWatchesBegin result.node.entries watches.items }
    {
        let Shared { lock } = self;
        let locked = lock.into_inner();
        let odd = locked.odd_passes(passes.as_slice()) + locked.odd_watches(watches.as_slice());
        let (node, link) = locked.into_parts();
        Closed { node, link, odd }
    }
}
