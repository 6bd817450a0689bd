//! Where datagrams come from.

ghost use Rattle.std.specs.Prelude.{◌∷◌, []};
ghost use Rattle.swim_shell.specs.Inbounds.{came_of, Took};

use arrayvec::ArrayVec;
use swim_member::RECEIVED_MAX;
use swim_wire::Endpoint;

/// A receive failed.
#[derive(Clone, Copy, Debug, PartialEq, Eq)]
pub struct ReceiveFault;

/// What receives datagrams, one at a time.
pub trait Inbound {
    ghost use Rattle.std.specs.Prelude.{ℕ, List};
    ghost use Rattle.swim_shell.specs.Inbounds.{Came};

    /// Whether it tells what it answered.
    ghost tells: { Type 0 };

    /// What it answered, in order.
    ghost came: { Self → List Came };

    /// How many receives have failed, without a bound.
    ghost failures: { Self → ℕ };

    /// The next datagram, cut to 513 bytes, with whence it came; none where nothing came in the waiting time.
    fn receive(
        &mut self,
        into: &mut ArrayVec<u8, RECEIVED_MAX>,
    ) -> Result<Option<Endpoint>, ReceiveFault>
        ensures { Took tells (came self.old) (came self.new) (failures self.old) (failures self.new)
            (came_of result into.new.items ∷ []) };
}
