//! What a receiver stands on: an inbound that gives a list, and fails where a test wants it.

use arrayvec::ArrayVec;
use swim_member::RECEIVED_MAX;
use swim_scenes::{endpoint, text, update};
use swim_shell::{Inbound, ReceiveFault};
use swim_trace::Trace;
use swim_wire::{Cursor, Endpoint, Kind, UpdateKind};

/// The text of a ping of this number, which says that 10.0.0.3:7000 is alive with number 1.
fn ping_text(number: u32) -> Option<ArrayVec<u8, RECEIVED_MAX>> {
    let subject = Cursor::at(endpoint(1)?);
    let updates = [update(UpdateKind::Alive, 3, 1)?];
    text(Kind::Ping, number, subject, &updates)
}

/// The text of a ping that says of 10.0.0.3:7000 to 10.0.0.6:7000 that they are alive with number 1.
fn group_text() -> Option<ArrayVec<u8, RECEIVED_MAX>> {
    let subject = Cursor::at(endpoint(1)?);
    let mut updates = [update(UpdateKind::Alive, 3, 1)?; 4];
    for (row, last) in updates.iter_mut().zip(3u8..) {
        *row = update(UpdateKind::Alive, last, 1)?;
    }
    text(Kind::Ping, 1, subject, &updates)
}

/// What a receive gives.
#[derive(Clone, Copy, Debug, PartialEq, Eq)]
pub(super) enum Given {
    /// A ping of this number from the peer.
    Ping(u32),
    /// A ping that tells of four members.
    Group,
    Nothing,
    Failed,
}

/// An inbound that gives a list, and then nothing.
#[derive(Drop)]
pub(super) struct Listed<'a> {
    given: &'a [Given],
    next: usize,
    failures: Trace<()>,
}

impl<'a> Listed<'a> {
    /// An inbound that has given nothing of this list.
    pub(super) fn new(given: &'a [Given]) -> Listed<'a> {
        Listed {
            given,
            next: 0,
            failures: Trace::new(),
        }
    }
}

impl<'a> Inbound for Listed<'a> {
    ghost use Rattle.std.specs.Prelude.{[], length};

    ghost tells = { ⊥ };

    ghost came = { λ _. [] };

    ghost failures = { λ i. length i.failures };

    fn receive(
        &mut self,
        into: &mut ArrayVec<u8, RECEIVED_MAX>,
    ) -> Result<Option<Endpoint>, ReceiveFault> {
        let given = self.given.get(self.next).copied().unwrap_or(Given::Nothing);
        self.next = self.next.wrapping_add(1);
        match given {
            Given::Ping(number) => {
                into.clear();
                if let Some(bytes) = ping_text(number) {
                    *into = bytes;
                }
                Ok(endpoint(2))
            }
            Given::Group => {
                into.clear();
                if let Some(bytes) = group_text() {
                    *into = bytes;
                }
                Ok(endpoint(2))
            }
            Given::Nothing => Ok(None),
            Given::Failed => {
                self.failures = self.failures.and(&());
                Err(ReceiveFault)
            }
        }
    }
}
