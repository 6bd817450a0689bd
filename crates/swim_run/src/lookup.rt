//! Lookups of hosts, beside the member.

use crate::errand::{Beside, Errand};
use crate::listing::{PlaceAddresses, Places};
use arrayvec::ArrayVec;
use std::thread::Threads;
use swim_net::first_address;
use swim_settings::Place;
use swim_wire::Endpoint;

/// The places that were asked for, and the address that was found of each.
#[derive(Drop)]
pub(crate) struct Found {
    pub(crate) places: Places,
    pub(crate) addresses: PlaceAddresses,
}

/// Places to be looked up.
#[derive(Drop)]
struct Asking {
    rt: HostRuntime,
    places: Places,
}

/// The address of a place now, if it is found.
fn address_now(rt: &HostRuntime, place: &Place) -> Option<Endpoint> {
    match place {
        Place::Member(endpoint) => Some(*endpoint),
        Place::Host(name, port) => match first_address(rt, name.as_str(), *port) {
            Ok(found) => found,
            Err(_) => None,
        },
    }
}

impl Beside for Asking {
    type Outcome = Found;

    fn run(self) -> Found {
        let Asking { rt, places } = self;
        let mut addresses = ArrayVec::new();
        for place in places.as_slice() {
            let _ = addresses.try_push(address_now(&rt, place));
        }
        Found { places, addresses }
    }
}

/// Starts a thread that looks these places up; none where there is no memory or no thread for it.
pub(crate) fn start_lookup<T: Threads>(
    threads: &T,
    rt: HostRuntime,
    places: Places,
) -> Option<Errand<Found>> {
    Errand::start(threads, rt.alloc(), Asking { rt, places })
}
