//! Who is asked, and for what.

use crate::known::SharedKnown;
use std::alloc::{AllocError, Global};
use std::net::{Net, TcpStream};
use std::sync::{Wait, WaitMethods};
use std::thread;
use std::time::{Clock, Duration};
use swim_ask::{Addresses, MemberReport, ask_about, find, look};

/// How long the members are left alone after they were asked, in milliseconds.
const EVERY_MILLIS: u64 = 1000;

/// For how many turns those are left alone that were not met, once one of them did not answer: that may take seconds.
const REST_TURNS: u32 = 10;

/// The control sockets of members of one group or of several, and which of them is asked for each group.
#[derive(Drop)]
pub(crate) struct Asking<'a> {
    words: &'a [String],
    /// The group of the member at each of them; none where it was not met.
    places: Vec<Option<u64>>,
    /// The groups of the members that were met, each with the place that is asked for it.
    groups: Vec<(u64, usize)>,
    /// Those of one group, as long as no second one is known.
    of: Addresses<'a>,
    /// From which place on those are met that were not.
    next: usize,
    /// For how many turns they are left alone.
    rest: u32,
}

/// What a member shows: the one that answered last, or else the next one that answers; none where none does.
fn look_at_any<R: Net<Stream = TcpStream> + Clock + AllocGlobal>(
    rt: &R,
    of: &mut Addresses<'_>,
) -> Option<MemberReport> {
    for _ in 0..of.count() {
        match look(rt, of.word()) {
            Some(shown) => return Some(shown),
            None => of.step(),
        }
    }
    None
}

/// The group of the member whose control socket a word names; none where it does not answer, or does not tell that.
fn group_at<R: Net<Stream = TcpStream> + Clock + AllocGlobal>(rt: &R, word: &str) -> Option<u64> {
    let to = find(rt, word).ok()?;
    let about = ask_about(rt, &to).ok()??;
    Some(about.who.group)
}

/// Whether a look is of a member of this group.
fn is_of(shown: &MemberReport, group: u64) -> bool {
    match &shown.about {
        Some(about) => about.who.group == group,
        None => false,
    }
}

impl<'a> Asking<'a> {
    /// Of these addresses, which are judged. An error is that there is no memory.
    pub(crate) fn new(
        alloc: Global,
        words: &'a [String],
        of: Addresses<'a>,
    ) -> Result<Asking<'a>, AllocError> {
        let mut places = Vec::new(alloc);
        for _ in words {
            places.push(None)?;
        }
        Ok(Asking {
            words,
            places,
            groups: Vec::new(alloc),
            of,
            next: 0,
            rest: 0,
        })
    }

    /// Notes that a member of this group was met at a place. Without memory it is met again later.
    fn meet(&mut self, at: usize, group: u64) {
        if !self.groups.iter().any(|known| known.0 == group)
            && self.groups.push((group, at)).is_err()
        {
            return;
        }
        if let Some(place) = self.places.get_mut(at) {
            *place = Some(group);
        }
    }

    /// Asks the members that were not met for their groups, until one does not tell. Then they are left alone for a while.
    fn meet_some<R: Net<Stream = TcpStream> + Clock + AllocGlobal>(&mut self, rt: &R) {
        if self.rest > 0 {
            self.rest = self.rest.saturating_sub(1);
            return;
        }
        for _ in 0..self.words.len() {
            let at = self.next;
            self.next = self.after(at);
            if self.places.get(at).is_none_or(|place| place.is_some()) {
                continue;
            }
            let Some(word) = self.words.get(at) else {
                return;
            };
            match group_at(rt, word.as_str()) {
                Some(group) => self.meet(at, group),
                None => {
                    self.rest = REST_TURNS;
                    return;
                }
            }
        }
    }

    /// The place after this one; the first one follows the last.
    fn after(&self, at: usize) -> usize {
        let next = at.saturating_add(1);
        if next < self.words.len() { next } else { 0 }
    }

    /// The next place of a member of the group.
    fn next_of(&self, group: u64, at: usize) -> usize {
        let mut next = at;
        for _ in 0..self.words.len() {
            next = self.after(next);
            if self.places.get(next) == Some(&Some(group)) {
                return next;
            }
        }
        at
    }

    /// What a member of a group shows that is asked now. Where it does not answer, the next one is asked the next time; where it is of
    /// another group by now, it has to be met again.
    fn look_at<R: Net<Stream = TcpStream> + Clock + AllocGlobal>(
        &mut self,
        rt: &R,
        group: u64,
        at: usize,
    ) -> Option<MemberReport> {
        let shown = look(rt, self.words.get(at)?.as_str())?;
        if is_of(&shown, group) {
            return Some(shown);
        }
        if let Some(place) = self.places.get_mut(at) {
            *place = None;
        }
        None
    }

    /// Asks a member of the group at this place of the groups.
    fn ask_group<R: Net<Stream = TcpStream> + Clock + AllocGlobal, T: Wait>(
        &mut self,
        rt: &R,
        wait: &T,
        place: usize,
        known: &SharedKnown,
    ) {
        let Some((group, at)) = self.groups.get(place).copied() else {
            return;
        };
        let look = self.look_at(rt, group, at);
        if look.is_none() {
            let next = self.next_of(group, at);
            if let Some(asked) = self.groups.get_mut(place) {
                asked.1 = next;
            }
        }
        known.lock(wait).take_of(rt, group, look);
    }

    /// Asks the one member, or one of each group once several are known.
    fn ask_all<R: Net<Stream = TcpStream> + Clock + AllocGlobal, T: Wait>(
        &mut self,
        rt: &R,
        wait: &T,
        known: &SharedKnown,
    ) {
        if self.words.len() > 1 {
            self.meet_some(rt);
        }
        if self.groups.len() < 2 {
            let look = look_at_any(rt, &mut self.of);
            known.lock(wait).take(rt, look);
            return;
        }
        for place in 0..self.groups.len() {
            self.ask_group(rt, wait, place, known);
        }
    }
}

/// Asks the members for all that is shown of them, again and again, until the process is ended.
pub(crate) fn follow<R: Net<Stream = TcpStream> + Clock + AllocGlobal, T: Wait>(
    rt: &R,
    wait: &T,
    mut asking: Asking<'_>,
    known: &SharedKnown,
) {
    for _ in wait.forever() {
        asking.ask_all(rt, wait, known);
        thread::sleep(rt, Duration::from_millis(EVERY_MILLIS));
    }
}
