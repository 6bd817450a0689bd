//! Who reads the status without the lock.

ghost use Rattle.std.specs.Prelude.{◌≡◌, ◌<◌, length, IfSome, IfNone, IsSome};
ghost use Rattle.swim_node.specs.History.{IsLegal};
ghost use Rattle.swim_shared.specs.Published.{IsRight, Told};

use crate::front::Front;
use crate::name::Name;
use crate::shown::{Sees, Shown, ShownReader};
use std::marker::Model;
use swim_node::Status;

/// Who reads the status without the lock. Contracts see it as the history that it has seen.
#[derive(Drop)]
pub struct Watch<N: Name> {
    /// None while it reads.
    reader: Option<ShownReader<N>>,
    /// What it has seen.
    front: Front,
}

impl<N: Name> Model for Watch<N> {
    ghost use Rattle.std.specs.Prelude.{◌≡◌, List, IsSome};
    ghost use Rattle.swim_node.specs.declared.entry.Entry.{Entry};
    ghost use Rattle.swim_node.specs.History.{IsLegal};

    ghost Value = { List Entry };

    ghost view = { λ w. w.front.entries };

    ghost invariant = { λ w. (w.front.book ≡ N.book) × IsLegal N.base w.front.entries
        × IsSome w.reader };
}

impl<N: Name> Watch<N> {
    /// A watch on what is published.
    pub(crate) fn new(reader: ShownReader<N>, front: Front) -> Watch<N>
        requires book { front.book ≡ N.book }
        requires legal { IsLegal N.base front.entries }
        ensures { result ≡ front.entries }
    {
        Watch {
            reader: Some(reader),
            front,
        }
    }

    /// The status that is shown: never an older one than before. It takes no lock and no memory,
    /// and waits for nobody. None where there is no reading just now, and then the watch has seen
    /// nothing new.
    pub fn read(&mut self) -> Option<Status>
        ensures some { IfSome result (Told N.base self.old self.new) }
        ensures none { IfNone result (self.new ≡ self.old) }
    {
        let reader = self.reader.take()?;
        match reader.enter_as::<Sees<N>>() {
            Ok(reading) => {
                let answer = take_in::<N>(&mut self.front, reading.get());
                self.reader = Some(reading.leave());
                answer
            }
            Err(reader) => {
                self.reader = Some(reader);
                None
            }
        }
    }

    /// How many entries it has seen.
    pub fn len(&self) -> u64
        ensures { result ≡ length self.now }
    {
        self.front.len()
    }

    /// The history that it has seen.
    pub(crate) fn front(&self) -> &Front
        ensures entries { result.now.entries ≡ self.now }
        ensures book { result.now.book ≡ N.book }
    {
        &self.front
    }

    /// From now on it has seen this history.
    pub(crate) fn learn(&mut self, front: Front)
        requires book { front.book ≡ N.book }
        requires legal { IsLegal N.base front.entries }
        ensures { self.new ≡ front.entries }
    {
        self.front = front;
    }
}

/// The status that is shown, where its history is no shorter than the one that was seen.
fn take_in<N: Name>(front: &mut Front, shown: &Shown) -> Option<Status>
    requires book { front.old.book ≡ N.book }
    requires right { IsRight N.book N.base shown.now }
    ensures some { IfSome result (Told N.base front.old.entries front.new.entries) }
    ensures none { IfNone result (front.new ≡ front.old) }
    ensures older { IfNone result (length shown.now.front.entries < length front.old.entries) }
    ensures all { IsSome result → front.new ≡ shown.now.front }
    ensures book { front.new.book ≡ N.book }
{
    if shown.front.len() < front.len() {
        return None;
    }
    front.shorter_begins_longer(&shown.front);
    *front = shown.front.again();
    Some(shown.status)
}
