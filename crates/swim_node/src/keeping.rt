//! Saving the peers of a member between two eras, where no event wants a number.

ghost use Rattle.swim_node.specs.Keeping.{KeepsGiven, RaisesByOne};
ghost use Rattle.swim_state.specs.Second.{ArePeers};

use swim_disk::Disk;
use swim_state::{Peers, SaveFault, Store};
use swim_wire::NUMBER_MAX;

/// Raises the ceiling by one, with these peers. `Exhausted` comes where there is no number above it,
/// and changes nothing.
fn raise_by_one<D: Disk>(store: &mut Store<D>, peers: &Peers) -> Result<(), SaveFault>
    requires peers { ArePeers peers.now }
    ensures { RaisesByOne D.keeps_model D.state peers.now result store.old store.new }
{
    let ceiling = store.ceiling();
    if ceiling == NUMBER_MAX {
        return Err(SaveFault::Exhausted);
    }
    store.raise(ceiling + 1, 0, peers.as_slice())
}

/// Saves these peers, and raises the ceiling by one to do so. A broken store may find that an earlier
/// save was done after all: where that had other peers, there is one more raise.
///
/// `Device` and `Changed` come as with a raise. `Exhausted` comes where the ceiling is the greatest
/// number, or the floor is that a broken store reads with other peers: then nothing is written.
pub(crate) fn keep<D: Disk>(store: &mut Store<D>, peers: &Peers) -> Result<(), SaveFault>
    requires peers { ArePeers peers.now }
    ensures { KeepsGiven D.keeps_model D.state peers.now result store.old store.new }
{
    raise_by_one(store, peers)?;
    if store.peers().as_slice() == peers.as_slice() {
        return Ok(());
    }
    raise_by_one(store, peers)
}
