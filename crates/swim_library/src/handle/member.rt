//! A handle.

ghost use Rattle.std.specs.Prelude.{◌≡◌, ◌≢◌, ◌↔◌, None};
ghost use Rattle.swim_library.specs.declared.handle.member.TheConstants.{MARK};

use super::slot::HandleSlot;
use std::alloc::Global;

/// What an open handle begins with: the letters SWIMOPEN.
pub(super) const MARK: u64 = 0x5357_494d_4f50_454e;

/// A handle, in a block of the caller's. Where all its bytes are 0 it is closed.
#[repr(C)]
#[derive(Drop)]
pub struct SwimMember {
    pub(super) mark: u64,
    /// What gives its memory back. It takes no room.
    pub(super) alloc: Global,
    /// What it leads to.
    pub slot: HandleSlot,
    ghost mark_tells: { (mark ≡ MARK) ↔ (slot.kept ≢ None) },
}
