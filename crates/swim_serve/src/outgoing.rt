//! The ring of an outbox, and the link that it goes to.

ghost use Rattle.std.specs.Prelude.{◌≡◌};
ghost use Rattle.swim_serve.specs.Views.{link_of};

use std::marker::{Model, PhantomData};
use swim_node::Link;
use swim_shared::{Name, Sender};
use swim_shell::Outgoing;
use swim_trace::Trace;

/// Hands what waits in the ring that `N` names to a link. So who lends the ring's sender to the workers knows whose comes back, and
/// can end the shared member by `close_sent`.
#[derive(Drop)]
pub struct RingLink<N: Name, M: Link + Drop> {
    ring: Sender,
    link: M,
    /// How often it handed on.
    turns: Trace<()>,
    of: PhantomData<N>,
}

impl<N: Name, M: Link + Drop> Model for RingLink<N, M> {
    ghost use Rattle.std.specs.Prelude.{◌≡◌, length};
    ghost use Rattle.swim_serve.specs.Views.{RingView, link_of};

    ghost Value = { RingView };

    ghost view = { λ r. record {
      turns = length r.turns;
      ring = r.ring;
      link = link_of (M.took r.link) (M.failures r.link);
    } };

    ghost invariant = { λ r. N.link ≡ r.ring.ring };
}

impl<N: Name, M: Link + Drop> RingLink<N, M> {
    /// From the ring that `N` names to this link.
    pub fn new(ring: Sender, link: M) -> RingLink<N, M>
        requires { N.link ≡ ring.ring }
        ensures { result ≡ record {
          turns = 0;
          ring = ring;
          link = link_of (M.took link) (M.failures link);
        } }
    {
        RingLink {
            ring,
            link,
            turns: Trace::new(),
            of: PhantomData,
        }
    }

    /// The sender, which is still that of the same ring, and the link.
    pub fn into_parts(self) -> (Sender, M)
        ensures sender { result.0 ≡ self.ring }
        ensures link { link_of (M.took result.1) (M.failures result.1) ≡ self.link }
        ensures same { N.link ≡ result.0.ring }
    {
        let RingLink {
            ring,
            link,
            turns: _,
            of: _,
        } = self;
        (ring, link)
    }
}

impl<N: Name, M: Link + Drop> Outgoing for RingLink<N, M> {
    ghost use Rattle.swim_serve.specs.Eras.{handed_by};

    ghost tells = { M.tells };

    ghost handed = { λ o. handed_by o };

    #[tactic(auto, using(crate::proofs::Handing::hands_on))]
    fn hand_on(&mut self) {
        self.ring.turn(&mut self.link);
        self.turns = self.turns.and(&());
    }

    fn losses(&self) -> u32 {
        self.ring.owed()
    }

    fn settle(&mut self) {
        self.ring.settle();
    }
}
