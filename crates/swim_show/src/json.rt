//! What a state file says, as a JSON object on one line.

use crate::departing::Departure;
use crate::lines::{Said, number_of};
use crate::shown::{Opening, SlotShown};
use std::fmt;
use swim_state::{Owner, Peers, Reading, Saved, Slot};

/// Whose file it is, or `null`.
#[derive(Clone, Copy)]
struct OwnerJson(Option<Owner>);

impl fmt::Display for OwnerJson {
    fn fmt<W: fmt::Write>(&self, f: &mut fmt::Formatter<W>) -> fmt::Result {
        match self.0 {
            Some(owner) => {
                let (me, group) = (owner.me, owner.group);
                write!(f, "{{\"group\":{group},\"member\":\"{me}\"}}")
            }
            None => write!(f, "null"),
        }
    }
}

/// Peers, as an array of strings.
#[derive(Clone, Copy)]
struct PeersJson(Peers);

impl fmt::Display for PeersJson {
    fn fmt<W: fmt::Write>(&self, f: &mut fmt::Formatter<W>) -> fmt::Result {
        let mut comma = "";
        write!(f, "[")?;
        for peer in self.0.as_slice() {
            write!(f, "{comma}\"{peer}\"")?;
            comma = ",";
        }
        write!(f, "]")
    }
}

/// What a slot says.
#[derive(Clone, Copy)]
struct ReadingJson(Reading);

impl fmt::Display for ReadingJson {
    fn fmt<W: fmt::Write>(&self, f: &mut fmt::Formatter<W>) -> fmt::Result {
        match self.0 {
            Reading::Shut => write!(f, "\"state\":\"shut\""),
            Reading::Damaged => write!(f, "\"state\":\"damaged\""),
            Reading::Holds(Saved { ceiling, peers }) => {
                let peers = PeersJson(peers);
                write!(
                    f,
                    "\"state\":\"open\",\"ceiling\":{ceiling},\"peers\":{peers}"
                )
            }
        }
    }
}

/// A slot, with the offsets of its body and its gate.
#[derive(Clone, Copy)]
struct SlotJson(SlotShown);

impl fmt::Display for SlotJson {
    fn fmt<W: fmt::Write>(&self, f: &mut fmt::Formatter<W>) -> fmt::Result {
        let SlotShown {
            letter,
            body,
            gate,
            reading,
        } = self.0;
        let reading = ReadingJson(reading);
        write!(
            f,
            "{{\"slot\":\"{letter}\",\"body_at\":{body},\"gate_at\":{gate},{reading}}}"
        )
    }
}

/// What an opening would do.
#[derive(Clone, Copy)]
struct OpeningJson(Opening);

impl fmt::Display for OpeningJson {
    fn fmt<W: fmt::Write>(&self, f: &mut fmt::Formatter<W>) -> fmt::Result {
        match self.0 {
            Opening::Begins { number, peers } => {
                let peers = PeersJson(peers);
                write!(f, "{{\"begins\":{number},\"peers\":{peers}}}")
            }
            Opening::Refused(fault) => {
                let (number, name) = (fault.number(), fault.name());
                write!(f, "{{\"refused\":{number},\"name\":\"{name}\"}}")
            }
        }
    }
}

/// A departure, with what it says as a text.
#[derive(Clone, Copy)]
struct DepartureJson(Departure);

impl fmt::Display for DepartureJson {
    fn fmt<W: fmt::Write>(&self, f: &mut fmt::Formatter<W>) -> fmt::Result {
        let text = self.0;
        let at = text.offset();
        write!(f, "{{\"at\":{at},\"text\":\"{text}\"}}")
    }
}

/// Departures, as an array.
#[derive(Clone, Copy)]
struct DeparturesJson<'a>(&'a [Departure]);

impl fmt::Display for DeparturesJson<'_> {
    fn fmt<W: fmt::Write>(&self, f: &mut fmt::Formatter<W>) -> fmt::Result {
        let mut comma = "";
        write!(f, "[")?;
        for departure in self.0 {
            let departure = DepartureJson(*departure);
            write!(f, "{comma}{departure}")?;
            comma = ",";
        }
        write!(f, "]")
    }
}

/// All of it, as one object.
#[derive(Clone, Copy)]
pub(crate) struct Json<'a>(pub(crate) Said<'a>);

impl fmt::Display for Json<'_> {
    fn fmt<W: fmt::Write>(&self, f: &mut fmt::Formatter<W>) -> fmt::Result {
        let Said {
            size,
            shown,
            departures,
        } = self.0;
        let (owner, version) = (OwnerJson(shown.owner), number_of(shown.version));
        let (a, b) = (SlotJson(shown.slot(Slot::A)), SlotJson(shown.slot(Slot::B)));
        let opening = OpeningJson(shown.opening);
        let departures = DeparturesJson(departures);
        write!(
            f,
            "{{\"owner\":{owner},\"bytes\":{size},\"version\":{version},\"slots\":[{a},{b}],"
        )?;
        write!(f, "\"opening\":{opening},\"departures\":{departures}}}")
    }
}
