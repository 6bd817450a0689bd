//! How the ends of an era's workers end the member.

ghost use Rattle.std.specs.Prelude.{◌≡◌};
ghost use Rattle.std.specs.Option.{option_map};
ghost use Rattle.swim_shell.specs.declared.worker.WorkerEnd.TheVariants as worker;
ghost use Rattle.swim_serve.specs.Faults.{fault_by, fault_by_end, fault_of, refused_desk};

use crate::era::{EraEnds, EraFault};
use swim_shell::{ControlEnd, Refusal, WorkerEnd};

/// Why a member ends that was not told to.
#[derive(Clone, Copy, Debug, PartialEq, Eq)]
pub enum Fault {
    /// There was no memory for an era.
    Memory,
    /// The system had no thread for a worker, for some seconds.
    Threads,
    /// An era's journal did not have the calls of a worker as that one knew them.
    Odd,
    /// A worker ended so.
    Worker(WorkerEnd),
}

/// What it comes to that there was no whole era.
pub(crate) fn fault_by(why: EraFault) -> Fault
    ensures { result ≡ fault_by why }
{
    match why {
        EraFault::Refused(Refusal::Memory) => Fault::Memory,
        EraFault::Refused(why) => Fault::Worker(WorkerEnd::Refused(why)),
        EraFault::Odd => Fault::Odd,
    }
}

/// How a worker's own end ends the member, if it does: a full era does not.
fn fault_by_end(end: Option<WorkerEnd>) -> Option<Fault>
    ensures { result ≡ fault_by_end end }
{
    match end {
        None | Some(WorkerEnd::Refused(Refusal::EraFull)) => None,
        Some(end) => Some(Fault::Worker(end)),
    }
}

/// How the desk ended itself, if it did: neither a line nor its gate is an end of its own.
fn refused_desk(end: Option<ControlEnd>) -> Option<WorkerEnd>
    ensures { result ≡ refused_desk end }
{
    match end {
        Some(ControlEnd::Refused(why)) => Some(WorkerEnd::Refused(why)),
        _ => None,
    }
}

/// How a worker that makes only calls ended itself, if it did.
fn refused(end: Option<Refusal>) -> Option<WorkerEnd>
    ensures { result ≡ option_map worker.Refused end }
{
    match end {
        Some(why) => Some(WorkerEnd::Refused(why)),
        None => None,
    }
}

/// The fault that ends the member, if one does: the first in the order of the workers.
pub(crate) fn fault_of(ends: &EraEnds) -> Option<Fault>
    ensures { result ≡ fault_of ends.now }
{
    let ticker = fault_by_end(refused(ends.ticker));
    let sender = fault_by_end(refused(ends.sender));
    let desk = fault_by_end(refused_desk(ends.control));
    fault_by_end(ends.receiver).or(ticker.or(sender.or(desk)))
}
