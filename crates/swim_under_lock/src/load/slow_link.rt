//! A link that takes a while for each send.

use std::thread;
use std::time::{Clock, Duration};
use swim_node::{Link, LinkFault};
use swim_wire::Endpoint;

/// The milliseconds that a send takes.
const SEND_MILLIS: u64 = 1;

/// A link that takes a millisecond for each send.
#[derive(Drop)]
pub(crate) struct SlowLink<'a, C: Clock> {
    clock: &'a C,
}

impl<'a, C: Clock> SlowLink<'a, C> {
    /// A link over nothing.
    pub(crate) fn new(clock: &'a C) -> SlowLink<'a, C> {
        SlowLink { clock }
    }
}

impl<'a, C: Clock> Link for SlowLink<'a, C> {
    ghost use Rattle.std.specs.Prelude.{[]};
    ghost use Rattle.swim_node.specs.Link.{link_number};

    ghost name = { λ _. link_number 0 };

    ghost tells = { ⊥ };

    ghost took = { λ _. [] };

    ghost failures = { λ _. 0 };

    fn send(&mut self, to: Endpoint, bytes: &[u8]) -> Result<(), LinkFault> {
        let _ = to;
        let _ = bytes.len();
        thread::sleep(self.clock, Duration::from_millis(SEND_MILLIS));
        Ok(())
    }
}
