//! The end of an era, at which it is handed to who keeps it.

ghost use Rattle.std.specs.Prelude.{◌≡◌, ◌∷◌, [], ◌++◌, IfSome, IfNone, is_some};
ghost use Rattle.swim_node.specs.Lives.{EndsEra};
ghost use Rattle.swim_node.specs.Node.{next_base};
ghost use Rattle.swim_record.specs.Handing.{begun_at, recorded};

use crate::begun::BegunEra;
use crate::finished::Finished;
use std::time::Clock;
use swim_disk::Disk;
use swim_node::{Node, Room};
use swim_trace::Trace;

/// Who keeps the eras of a member that ended.
pub trait Keeper {
    ghost use Rattle.std.specs.Prelude.{◌≡◌, ◌++◌, ◌∷◌, [], Bool, List};
    ghost use Rattle.swim_node.specs.Lives.{Era};

    /// The eras that it was given, in order.
    ghost given: { Self → List Era };

    /// Whether it keeps eras now.
    ghost keeps: { Self → Bool };

    /// Whether it keeps eras. What it is given else is let go.
    fn is_on(&self) -> bool
        ensures { result ≡ keeps self.now };

    /// Takes an era that ended, of the life that began with this number. It may not hold the member up. It may give the room of
    /// one back that it needs no longer, and the next era fills that.
    fn keep(&mut self, life: u64, era: Finished) -> Option<Room>
        ensures { given self.new ≡ given self.old ++ era ∷ [] };
}

/// Where an era of a node that has no entry yet begins, which it does now, for a keeper that keeps eras.
pub fn begin<R: Clock, D: Disk, K: Keeper>(rt: &R, node: &Node<D>, keeper: &K) -> Option<BegunEra>
    requires { node.now.entries ≡ [] }
    ensures at { IfSome result (λ beginning. beginning ≡ begun_at node.now.base) }
    ensures asked { is_some result ≡ K.keeps keeper.now }
{
    if keeper.is_on() {
        Some(BegunEra::new(rt, node.beginning()))
    } else {
        None
    }
}

/// Ends the era of a node, which began so, and hands it to its keeper. Where its beginning was not asked for, it is let go.
pub fn hand_over<D: Disk, K: Keeper>(
    node: &mut Node<D>,
    beginning: Option<BegunEra>,
    keeper: &mut K,
)
    requires { IfSome beginning (λ beginning. beginning ≡ begun_at node.old.base) }
    ensures given { IfSome beginning (λ _. K.given keeper.new
        ≡ K.given keeper.old ++ recorded node.old.base node.old.entries ∷ []) }
    ensures none { IfNone beginning (keeper.new ≡ keeper.old) }
    ensures base { node.new.base ≡ next_base node.old.base node.old.entries }
    ensures entries { node.new.entries ≡ [] }
    ensures disk { node.new.disk ≡ node.old.disk }
    ensures owner { node.new.owner ≡ node.old.owner }
    ensures first { node.new.first ≡ node.old.first }
    ensures peers { node.new.peers ≡ node.old.peers }
    ensures broken { node.new.broken ≡ node.old.broken }
    ensures living { EndsEra D.state node.old node.new }
{
    match beginning {
        Some(beginning) => {
            let era = node.end_era();
            if let Some(room) = keeper.keep(node.first(), Finished::new(beginning, era)) {
                node.furnish(room);
            }
        }
        None => node.rebase(),
    }
}

/// One who keeps no era.
#[derive(Drop)]
pub struct Unkept {
    given: Trace<Finished>,
}

impl Unkept {
    /// It was given none yet.
    pub fn new() -> Unkept {
        Unkept {
            given: Trace::new(),
        }
    }
}

impl Keeper for Unkept {
    ghost use Rattle.std.specs.Prelude.{◌≡◌, ◌++◌, ◌∷◌, [], false};

    ghost given = { λ u. u.given };

    ghost keeps = { λ _. false };

    fn is_on(&self) -> bool {
        false
    }

    fn keep(&mut self, _life: u64, era: Finished) -> Option<Room> {
        self.given = self.given.and(&era);
        Some(era.into_room())
    }
}
