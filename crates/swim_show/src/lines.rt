//! What a state file says, as lines for a person.

use crate::departing::Departure;
use crate::shown::{FileReport, Opening, SlotShown};
use std::fmt;
use swim_state::{Owner, Peers, Reading, RecoverFault, Saved, Slot, Version};

/// All that is said of a file.
#[derive(Clone, Copy)]
pub(crate) struct Said<'a> {
    /// How many bytes it has.
    pub(crate) size: u64,
    /// What it says.
    pub(crate) shown: FileReport,
    /// Where it departs from the format.
    pub(crate) departures: &'a [Departure],
}

/// The number of a version.
pub(crate) fn number_of(version: Version) -> u8 {
    match version {
        Version::One => 1,
        Version::Two => 2,
    }
}

/// Why an opening is refused, and what to do.
fn reason_of(fault: RecoverFault) -> &'static str {
    match fault {
        RecoverFault::Device => "it cannot be read",
        RecoverFault::NotState =>
            "it is no state file, or only what an interrupted `swim init` left",
        RecoverFault::WrongOwner => "its head names nobody",
        RecoverFault::NoSlot => "both gates are shut, as an interrupted `swim init` leaves them",
        RecoverFault::Damaged =>
            "an open slot has a body that no save writes. Keep the file, and see INCIDENTS.md",
        RecoverFault::Exhausted => "its greatest ceiling is 2^62, and no incarnation is above it",
    }
}

/// Peers, as `peers 10.0.0.2:7000 10.0.0.3:7000`.
#[derive(Clone, Copy)]
struct PeersSaid(Peers);

impl fmt::Display for PeersSaid {
    fn fmt<W: fmt::Write>(&self, f: &mut fmt::Formatter<W>) -> fmt::Result {
        let peers = self.0.as_slice();
        if peers.is_empty() {
            return write!(f, "no peers");
        }
        write!(f, "peers")?;
        for peer in peers {
            write!(f, " {peer}")?;
        }
        Ok(())
    }
}

/// What a slot says.
#[derive(Clone, Copy)]
struct ReadingSaid(Reading);

impl fmt::Display for ReadingSaid {
    fn fmt<W: fmt::Write>(&self, f: &mut fmt::Formatter<W>) -> fmt::Result {
        match self.0 {
            Reading::Shut => write!(f, "shut"),
            Reading::Damaged => write!(f, "open, and damaged"),
            Reading::Holds(Saved { ceiling, peers }) => {
                let peers = PeersSaid(peers);
                write!(f, "open, ceiling {ceiling}, {peers}")
            }
        }
    }
}

/// A line about a slot.
#[derive(Clone, Copy)]
struct SlotLine(SlotShown);

impl fmt::Display for SlotLine {
    fn fmt<W: fmt::Write>(&self, f: &mut fmt::Formatter<W>) -> fmt::Result {
        let SlotShown {
            letter,
            body,
            gate,
            reading,
        } = self.0;
        let reading = ReadingSaid(reading);
        write!(
            f,
            "slot {letter}   body at {body}, gate at {gate}: {reading}\n"
        )
    }
}

/// A line about an opening.
#[derive(Clone, Copy)]
struct OpeningLine(Opening);

impl fmt::Display for OpeningLine {
    fn fmt<W: fmt::Write>(&self, f: &mut fmt::Formatter<W>) -> fmt::Result {
        match self.0 {
            Opening::Begins { number, peers } => {
                let peers = PeersSaid(peers);
                write!(
                    f,
                    "opening  the next run would have incarnation {number}, one above the greatest ceiling of an open slot, and {peers}\n"
                )
            }
            Opening::Refused(fault) => {
                let why = reason_of(fault);
                write!(f, "opening  would be refused, {fault}: {why}\n")
            }
        }
    }
}

impl fmt::Display for Departure {
    fn fmt<W: fmt::Write>(&self, f: &mut fmt::Formatter<W>) -> fmt::Result {
        match *self {
            Departure::Short { is, wanted } => write!(
                f,
                "the file ends after {is} bytes, and has to have {wanted}"
            ),
            Departure::Byte { at, is, wanted } => {
                write!(f, "byte {at} is {is:02x}, and has to be {wanted:02x}")
            }
            Departure::Ceiling { at, number } => {
                write!(f, "the ceiling at {at} is {number}, above 2^62")
            }
            Departure::Count { at, count } => write!(
                f,
                "the count at {at} is {count} peers, above 8"
            ),
            Departure::Port { at } => write!(f, "the endpoint at {at} has port 0"),
            Departure::Order { at } => write!(f, "the peer at {at} is not above the one before it"),
        }
    }
}

/// The line about the owner.
#[derive(Clone, Copy)]
struct OwnerLine(Option<Owner>);

impl fmt::Display for OwnerLine {
    fn fmt<W: fmt::Write>(&self, f: &mut fmt::Formatter<W>) -> fmt::Result {
        match self.0 {
            Some(owner) => {
                let (me, group) = (owner.me, owner.group);
                write!(f, "owner    {me} of group {group}\n")
            }
            None => write!(f, "owner    nobody\n"),
        }
    }
}

/// A line a departure.
#[derive(Clone, Copy)]
struct DepartureLines<'a>(&'a [Departure]);

impl fmt::Display for DepartureLines<'_> {
    fn fmt<W: fmt::Write>(&self, f: &mut fmt::Formatter<W>) -> fmt::Result {
        for departure in self.0 {
            write!(f, "departs  {departure}\n")?;
        }
        Ok(())
    }
}

/// A line a fact: whose file it is, its size and version, its slots, what an opening would do, and where it departs from the
/// format.
#[derive(Clone, Copy)]
pub(crate) struct Lines<'a>(pub(crate) Said<'a>);

impl fmt::Display for Lines<'_> {
    fn fmt<W: fmt::Write>(&self, f: &mut fmt::Formatter<W>) -> fmt::Result {
        let Said {
            size,
            shown,
            departures,
        } = self.0;
        let (owner, version) = (OwnerLine(shown.owner), number_of(shown.version));
        let (a, b) = (SlotLine(shown.slot(Slot::A)), SlotLine(shown.slot(Slot::B)));
        let opening = OpeningLine(shown.opening);
        let departures = DepartureLines(departures);
        write!(
            f,
            "{owner}file     {size} bytes, version {version}\n{a}{b}{opening}{departures}"
        )
    }
}
