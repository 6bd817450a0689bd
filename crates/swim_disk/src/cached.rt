//! A file and the disk below it: reads of all of it, and writes that reach the disk.
//!
//! The system keeps written bytes in memory, and a sync writes them to the disk. A sync that fails may let them go: the
//! next one answers Ok, and reads still give them. So contracts see by what was done to the file which bytes the disk has.

ghost use Rattle.std.specs.Prelude.{◌≡◌, ◌+◌, ◌-◌, ◌≤◌, ℕ, length, false, min, IfOk, OnOk};
ghost use Rattle.swim_disk.specs.declared.mem.TheConstants.{MOST_BYTES};

use crate::MOST_BYTES;
use crate::backing::BackingFile;
use std::alloc::Global;
use std::io::{self, ErrorKind};

/// How many calls a read or a write may take, with those that a signal cut short.
const TRIES_MAX: u32 = u32::MAX;

/// A range of bytes that was written: the offsets of the first, and of the first after it.
#[derive(Clone, Copy, Drop)]
pub(crate) struct Span {
    pub(crate) from: u64,
    pub(crate) until: u64,
}

/// A file that is read once and whole, and written where the disk may lack something. Another process may have written it
/// before, and may have seen a sync fail.
#[derive(Drop)]
pub(crate) struct CachedFile<B: BackingFile> {
    pub(crate) below: B,
}

impl<B: BackingFile + Drop> CachedFile<B> {
    ghost use Rattle.swim_disk.specs.Cache.{backing_in, AreInside, HasBut, WaitsIn};
    ghost use Rattle.swim_disk.specs.Deeds.{AllWait, ComesAll, KeepsAll, StaysBeside};

    /// Takes the file over, and reads it, at most [`MOST_BYTES`] bytes, as the disk has it: it syncs, drops what the
    /// system holds in memory, and reads.
    pub(crate) fn load(alloc: Global, below: B) -> io::Result<(CachedFile<B>, Vec<u8>)>
        ensures measured { IfOk result (λ made. (n : ℕ)
            × ((backing_in B.deeds made.0).measured n)
            × (length made.1.items ≡ min n MOST_BYTES)) }
        ensures has_all { IfOk result
            (λ made. KeepsAll made.1.items (backing_in B.deeds made.0)) }
    {
        let mut file = CachedFile { below };
        file.below.sync()?;
        file.below.drop_held()?;
        let length = file.below.length()?;
        let mut found = Vec::new(alloc);
        found.resize(length.min(MOST_BYTES) as usize, 0)?;
        file.read_all(&mut found)?;
        Ok((file, found))
    }

    /// Fills the whole buffer with the first bytes of the file.
    fn read_all(&mut self, buffer: &mut [u8]) -> io::Result<()>
        requires dropped { (backing_in B.deeds self.old).dropped }
        requires size { length buffer.old ≤ MOST_BYTES }
        ensures size { length buffer.new ≡ length buffer.old }
        ensures measured { (n : ℕ) → (backing_in B.deeds self.old).measured n
            → (backing_in B.deeds self.new).measured n }
        ensures has_all { OnOk result (KeepsAll buffer.new (backing_in B.deeds self.new)) }
    {
        let mut done = 0;
        for _ in 0..TRIES_MAX {
            if done == buffer.len() {
                return Ok(());
            }
            match self.below.read(done as u64, &mut buffer[done..]) {
                Ok(0) => return Err(io::Error::from(ErrorKind::UnexpectedEof)),
                Ok(count) => done += count,
                Err(error) if error.kind() == ErrorKind::Interrupted => {}
                Err(error) => return Err(error),
            }
        }
        Err(io::Error::from(ErrorKind::Interrupted))
    }

    /// Writes all of these bytes from this offset on. The system may take them in several parts.
    fn write_all(&mut self, at: u64, bytes: &[u8]) -> io::Result<()>
        requires room { at + length bytes.now ≤ MOST_BYTES }
        ensures beside { StaysBeside at (length bytes.now)
            (backing_in B.deeds self.old) (backing_in B.deeds self.new) }
        ensures done { OnOk result (AllWait at bytes.now (backing_in B.deeds self.new)) }
    {
        let mut done = 0;
        for _ in 0..TRIES_MAX {
            if done == bytes.len() {
                return Ok(());
            }
            match self.below.write(at + done as u64, &bytes[done..]) {
                Ok(0) => return Err(io::Error::from(ErrorKind::WriteZero)),
                Ok(count) => done += count,
                Err(error) if error.kind() == ErrorKind::Interrupted => {}
                Err(error) => return Err(error),
            }
        }
        Err(io::Error::from(ErrorKind::Interrupted))
    }

    /// Writes what the content has in this range.
    pub(crate) fn write_span(&mut self, content: &[u8], span: Span) -> io::Result<()>
        requires size { length content.now ≤ MOST_BYTES }
        requires range { span.from ≤ span.until }
        requires within { span.until ≤ length content.now }
        ensures beside { StaysBeside span.from (span.until - span.from)
            (backing_in B.deeds self.old) (backing_in B.deeds self.new) }
        ensures done { OnOk result (WaitsIn span content.now (backing_in B.deeds self.new)) }
    {
        let bytes = &content[span.from as usize..span.until as usize];
        self.write_all(span.from, bytes)
    }

    /// Writes again what the content has in these ranges, in their order. It stops at the first that fails.
    fn write_again(&mut self, content: &[u8], spans: &[Span]) -> io::Result<()>
        requires size { length content.now ≤ MOST_BYTES }
        requires within { AreInside content.now spans.now }
        requires old { HasBut spans.now content.now (backing_in B.deeds self.old) }
        ensures new { HasBut spans.now content.now (backing_in B.deeds self.new) }
        ensures comes { OnOk result (ComesAll content.now (backing_in B.deeds self.new)) }
    {
        for span in spans {
            self.write_span(content, *span)?;
        }
        Ok(())
    }

    /// Syncs a file that the system was given all of. After Ok the disk has all.
    fn sync_all(&mut self, content: &[u8], spans: &[Span]) -> io::Result<()>
        requires old { HasBut spans.now content.now (backing_in B.deeds self.old) }
        requires comes { ComesAll content.now (backing_in B.deeds self.old) }
        ensures new { HasBut spans.now content.now (backing_in B.deeds self.new) }
        ensures has_all { OnOk result (KeepsAll content.now (backing_in B.deeds self.new)) }
    {
        self.below.sync()
    }

    /// Syncs. A stale file, one of whose writes or syncs has failed, first gets again what the content has in these ranges,
    /// which are those of the writes since the last sync that said Ok: the system may have let them go. After Ok the disk
    /// has all.
    pub(crate) fn settle(
        &mut self,
        content: &[u8],
        spans: &[Span],
        is_stale: bool,
    ) -> io::Result<()>
        requires size { length content.now ≤ MOST_BYTES }
        requires within { AreInside content.now spans.now }
        requires old { HasBut spans.now content.now (backing_in B.deeds self.old) }
        requires good { is_stale ≡ false → ComesAll content.now (backing_in B.deeds self.old) }
        ensures new { HasBut spans.now content.now (backing_in B.deeds self.new) }
        ensures has_all { OnOk result (KeepsAll content.now (backing_in B.deeds self.new)) }
    {
        if !is_stale {
            return self.sync_all(content, spans);
        }
        self.write_again(content, spans)?;
        self.sync_all(content, spans)
    }
}
