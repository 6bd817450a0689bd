//! The writer of what is published.

ghost use Rattle.std.specs.Prelude.{◌≡◌, ◌+◌, ◌<◌, ◌^◌, IfOk, IfSome, IsSome, IsTrue, false, Some};
ghost use Rattle.swim_node.specs.History.{IsLegal};
ghost use Rattle.swim_shared.specs.Published.{IsRight};

use crate::front::Front;
use crate::name::Name;
use crate::shown::{Sees, Shown, ShownReader, ShownWriter};
use left_right::writer::Writer;
use std::alloc::{AllocError, Global};
use std::marker::Model;
use std::mem;
use std::sync::Wait;

/// The writer, which waits for its readers when it is let go. Contracts see it as the history that
/// its readers are shown.
pub(crate) struct Publisher<N: Name, R: Wait + Drop> {
    /// None while it works.
    writer: Option<ShownWriter<N>>,
    /// What is shown.
    front: Front,
    /// By which it waits.
    rt: R,
}

impl<N: Name, R: Wait + Drop> Model for Publisher<N, R> {
    ghost use Rattle.std.specs.Prelude.{◌≡◌, List, IsSome, IfSome};
    ghost use Rattle.swim_node.specs.declared.entry.Entry.{Entry};
    ghost use Rattle.swim_node.specs.History.{IsLegal};

    ghost Value = { List Entry };

    ghost view = { λ p. p.front.entries };

    ghost invariant = { λ p. (p.front.book ≡ N.book) × IsLegal N.base p.front.entries
        × IsSome p.writer × IfSome p.writer (λ w. w.desk.shown.value.front ≡ p.front) };
}

impl<N: Name, R: Wait + Drop> Drop for Publisher<N, R> {
    fn drop(self) {
        let Self {
            writer,
            front: _,
            rt,
        } = self;
        if let Some(writer) = writer {
            writer.take(&rt);
        }
    }
}

/// Puts a writer back where it was taken from.
fn put_back<N: Name, R: Wait>(place: &mut Option<ShownWriter<N>>, writer: ShownWriter<N>, rt: &R)
    ensures { place.new ≡ Some writer }
{
    if let Some(other) = mem::replace(place, Some(writer)) {
        other.take(rt);
    }
}

impl<N: Name, R: Wait + Drop> Publisher<N, R> {
    /// A publisher that shows this, to so many readers at most.
    pub(crate) fn new(
        alloc: Global,
        rt: R,
        first: Shown,
        readers: usize,
    ) -> Result<Publisher<N, R>, AllocError>
        requires readers { (0 < readers) × (readers < 2 ^ 32) }
        requires right { IsRight N.book N.base first }
        ensures { IfOk result (λ p. p ≡ first.front.entries) }
    {
        let second = first.again();
        let front = first.front.again();
        let writer = Writer::new(alloc, first, second, readers)?;
        Ok(Publisher {
            writer: Some(writer),
            front,
            rt,
        })
    }

    /// One reader more. It answers `AllocError` where there is no memory for it.
    pub(crate) fn reader(&self) -> Result<ShownReader<N>, AllocError> {
        match &self.writer {
            Some(writer) => writer.factory().reader(),
            None => Err(AllocError),
        }
    }

    /// Shows this to the readers, and says whether it did. It does not where there is no memory.
    pub(crate) fn publish(&mut self, next: Shown) -> bool
        requires { IsRight N.book N.base next }
        ensures shown { IsTrue result → self.new ≡ next.front.entries }
        ensures same { result ≡ false → self.new ≡ self.old }
    {
        let Some(mut writer) = self.writer.take() else {
            return false;
        };
        let front = next.front.again();
        let Ok(()) = writer.append(next) else {
            put_back(&mut self.writer, writer, &self.rt);
            return false;
        };
        let (writer, answer) = writer.publish_as::<Sees<N>, R>(&self.rt);
        put_back(&mut self.writer, writer, &self.rt);
        let Ok(()) = answer else {
            return false;
        };
        self.front = front;
        true
    }

    /// What is shown.
    pub(crate) fn published(&self) -> &Front
        ensures book { result.now.book ≡ N.book }
        ensures entries { result.now.entries ≡ self.now }
        ensures legal { IsLegal N.base self.now }
    {
        &self.front
    }
}
