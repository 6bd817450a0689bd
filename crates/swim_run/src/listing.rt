//! Whom the settings file of a running member names to join.

ghost use Rattle.std.specs.Prelude.{◌≡◌, false};

use arrayvec::ArrayVec;
use swim_settings::{JOIN_MAX, Place};
use swim_wire::{Endpoint, copied};

/// The places that a file names.
pub(crate) type Places = ArrayVec<Place, JOIN_MAX>;

/// The address of each place, in their order; none of a host that was not found.
pub(crate) type PlaceAddresses = ArrayVec<Option<Endpoint>, JOIN_MAX>;

/// The places that a file names, with the addresses that are known of them. The member's host and its doors share it.
#[derive(Drop)]
pub(crate) struct JoinList {
    places: Places,
    addresses: PlaceAddresses,
    /// Whether the joiner does not know them yet.
    is_new: bool,
    /// Whether a host is among them, which is to be looked up.
    has_host: bool,
    /// Whether they were not looked up yet.
    is_unasked: bool,
}

/// The address of a place without a lookup.
fn own_address(place: &Place) -> Option<Endpoint> {
    match place {
        Place::Member(endpoint) => Some(*endpoint),
        Place::Host(_, _) => None,
    }
}

/// Whether the place is to be looked up.
fn is_host(place: &Place) -> bool {
    own_address(place).is_none()
}

impl JoinList {
    /// Of these places, of whose hosts no address is known.
    pub(crate) fn new(places: &Places) -> JoinList {
        let mut listing = JoinList {
            places: ArrayVec::new(),
            addresses: ArrayVec::new(),
            is_new: false,
            has_host: false,
            is_unasked: true,
        };
        listing.name(places);
        listing.is_new = false;
        listing
    }

    /// The address that is known of a place.
    fn address_of(&self, place: &Place) -> Option<Endpoint> {
        let known = found_of(self.places.as_slice(), self.addresses.as_slice(), place);
        known.or(own_address(place))
    }

    /// The file names these places from now on. What is known of them stays known.
    pub(crate) fn name(&mut self, places: &Places) {
        let mut addresses = ArrayVec::new();
        for place in places.as_slice() {
            let _ = addresses.try_push(self.address_of(place));
        }
        self.places = copied(places);
        self.addresses = addresses;
        self.is_new = true;
        self.has_host = places.iter().any(is_host);
        self.is_unasked = true;
    }

    /// Whether a host is among the places, which is to be looked up.
    pub(crate) fn has_host(&self) -> bool
        ensures { result ≡ self.now.has_host }
    {
        self.has_host
    }

    /// Whether the places were not looked up yet.
    pub(crate) fn is_unasked(&self) -> bool
        ensures { result ≡ self.now.is_unasked }
    {
        self.is_unasked
    }

    /// The places, which are looked up now.
    pub(crate) fn ask(&mut self) -> Places
        ensures places { result.items ≡ self.old.places.items }
        ensures asked { self.new ≡ record self.old { is_unasked = false } }
    {
        self.is_unasked = false;
        copied(&self.places)
    }

    /// These addresses were found of these places; a host that was not found keeps the address that it had. Says whether an address is
    /// another one now.
    pub(crate) fn learn(&mut self, places: &[Place], found: &[Option<Endpoint>]) -> bool {
        let mut addresses = ArrayVec::new();
        for place in self.places.as_slice() {
            let known = self.address_of(place);
            let _ = addresses.try_push(found_of(places, found, place).or(known));
        }
        if addresses.as_slice() == self.addresses.as_slice() {
            return false;
        }
        self.addresses = addresses;
        self.is_new = true;
        true
    }

    /// Whether the joiner does not know the addresses yet. It is told them now.
    pub(crate) fn take_new(&mut self) -> bool
        ensures new { result ≡ self.old.is_new }
        ensures told { self.new ≡ record self.old { is_new = false } }
    {
        let is_new = self.is_new;
        self.is_new = false;
        is_new
    }

    /// The addresses that are known, in the order of the file.
    pub(crate) fn endpoints(&self) -> ArrayVec<Endpoint, JOIN_MAX> {
        let mut endpoints = ArrayVec::new();
        for address in self.addresses.as_slice() {
            if let Some(endpoint) = address {
                let _ = endpoints.try_push(*endpoint);
            }
        }
        endpoints
    }
}

/// What was found of a place among these.
fn found_of(places: &[Place], found: &[Option<Endpoint>], place: &Place) -> Option<Endpoint> {
    for (asked, address) in places.iter().zip(found) {
        if asked == place {
            return *address;
        }
    }
    None
}
