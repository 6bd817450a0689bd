//! A link that loses.

use swim_node::{Link, LinkFault};
use swim_trace::Trace;
use swim_wire::Endpoint;

/// A link that loses every third datagram.
#[derive(Drop)]
pub(super) struct Thirds {
    sends: u8,
    failures: Trace<()>,
}

impl Link for Thirds {
    ghost use Rattle.std.specs.Prelude.{[], length};
    ghost use Rattle.swim_node.specs.Link.{link_number};

    ghost name = { λ _. link_number 0 };

    ghost tells = { ⊥ };

    ghost took = { λ _. [] };

    ghost failures = { λ l. length l.failures };

    fn send(&mut self, to: Endpoint, bytes: &[u8]) -> Result<(), LinkFault> {
        let _ = to;
        let _ = bytes.len();
        if self.sends == 2 {
            self.sends = 0;
            self.failures = self.failures.and(&());
            return Err(LinkFault);
        }
        self.sends = self.sends.wrapping_add(1);
        Ok(())
    }
}

/// A link that has sent nothing.
pub(super) fn every_third() -> Thirds {
    Thirds {
        sends: 0,
        failures: Trace::new(),
    }
}
