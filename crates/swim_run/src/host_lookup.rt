//! Looking up the hosts of the join list now and then.

ghost use Rattle.std.specs.Prelude.{◌≡◌, ◌*◌, ◌-◌, ◌≤◌, ◌↔◌, IfSome, IsTrue, None};
ghost use Rattle.std.specs.Time.{instant_nanos};

use crate::errand::{Errand, outcome_of};
use crate::listing::{JoinList, Places};
use crate::lookup::{Found, start_lookup};
use arrayvec::ArrayVec;
use log::{Log, warn};
use std::sync::{Mutex, Wait};
use std::thread::Threads;
use std::time::{Clock, Duration, Instant};
use swim_settings::Place;

/// From the beginning of one lookup to the next one at least, in seconds.
const LOOKUP_SECONDS: u64 = 10;

/// Whether it is time for the next lookup, where the last one began then. The first one is due at once.
fn is_due(began: Option<Instant>, now: Instant) -> bool
    ensures first { began ≡ None → IsTrue result }
    ensures next { IfSome began (λ began. IsTrue result
        ↔ (LOOKUP_SECONDS * 1000000000 ≤ instant_nanos now - instant_nanos began)) }
{
    match began {
        Some(began) => {
            let rest = Duration::from_secs(LOOKUP_SECONDS);
            rest.as_nanos() <= now.duration_since(began).as_nanos()
        }
        None => true,
    }
}

/// Has the hosts which the settings file names looked up now and then, in a thread of its own. Where other addresses are found, the
/// era is to end, so that the joiner gets them. A host that is not found is told once in the log, until it is found.
#[derive(Drop)]
pub(crate) struct HostLookup<'a, T> {
    rt: HostRuntime,
    logged: &'a T,
    listing: &'a Mutex<JoinList>,
    lookup: Option<Errand<Found>>,
    /// When the last lookup began.
    began: Option<Instant>,
    /// The hosts that were told.
    told: Places,
}

impl<'a, T: Threads + Wait + Log + Clock> HostLookup<'a, T> {
    /// A lookup of the hosts of this list, none of which was looked up yet.
    pub(crate) fn new(
        rt: HostRuntime,
        logged: &'a T,
        listing: &'a Mutex<JoinList>,
    ) -> HostLookup<'a, T> {
        HostLookup {
            rt,
            logged,
            listing,
            lookup: None,
            began: None,
            told: ArrayVec::new(),
        }
    }

    /// The places that are to be looked up, if a host is named and it is time: at once where they were not looked up yet.
    fn next_places(&mut self) -> Option<Places> {
        let mut listing = self.listing.lock(self.logged);
        if !listing.has_host() {
            return None;
        }
        let now = Instant::now(self.logged).ok()?;
        if !listing.is_unasked() && !is_due(self.began, now) {
            return None;
        }
        self.began = Some(now);
        Some(listing.ask())
    }

    /// Starts the next lookup, if one is due.
    fn start(&mut self) {
        if let Some(places) = self.next_places() {
            self.lookup = start_lookup(self.logged, self.rt, places);
        }
    }

    /// Tells of a host that was not found.
    fn tell(&mut self, place: &Place) {
        if !self.told.contains(place) {
            warn!(self.logged; "host {place} was not found: it is looked up again, and the member goes on without it");
        }
    }

    /// Tells the hosts that were not found and not told yet.
    fn tell_missing(&mut self, found: &Found) {
        let mut missing = ArrayVec::new();
        for (place, address) in found
            .places
            .as_slice()
            .iter()
            .zip(found.addresses.as_slice())
        {
            if address.is_none() {
                self.tell(place);
                let _ = missing.try_push(*place);
            }
        }
        self.told = missing;
    }

    /// Takes what a lookup found. It says whether that is news.
    fn take(&mut self, found: Found) -> bool {
        self.tell_missing(&found);
        let mut listing = self.listing.lock(self.logged);
        listing.learn(found.places.as_slice(), found.addresses.as_slice())
    }

    /// Looks whether a lookup is done, or the next one is due. It says whether other addresses were found than the joiner has.
    pub(crate) fn look(&mut self) -> bool {
        if self.lookup.is_none() {
            self.start();
        }
        match outcome_of(&mut self.lookup, self.logged) {
            Some(found) => self.take(found),
            None => false,
        }
    }
}
