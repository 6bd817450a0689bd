//! A pointer that C keeps.

ghost use Rattle.std.specs.Prelude.{◌≡◌, ◌≢◌, Option, Some, None};
ghost use Rattle.swim_library.specs.Handle.{kept_coded, slot_owns};
ghost use Rattle.swim_library.specs.declared.running.Running.{Running};

use super::parts::Parts;
use crate::running::Running;
use std::alloc::Global;
use std::marker::Model;
use std::ptr;

/// A pointer to a member that runs, or, where all its bytes are 0, nothing. Dropping one does not free the member.
#[repr(C)]
#[derive(Drop)]
pub struct HandleSlot {
    at: *mut u8,
    alloc: Global,
    /// The member, if it leads to one.
    pub ghost kept: { Option Running } by { kept_coded },
}

impl Model for HandleSlot {
    ghost also_owns = { λ s. slot_owns s.alloc s.at s.kept };
}

// SAFETY: what it leads to may go to another thread, and so may the right to free it.
unsafe impl Send for HandleSlot {}

impl HandleSlot {
    /// The slot of a member.
    pub(super) fn holding(running: Box<Running>) -> HandleSlot
        ensures { result.kept ≡ Some running.value }
    {
        HandleSlot::of_parts(Parts::of(running))
    }

    /// The member that a slot leads to.
    pub(super) fn into_running(self) -> Box<Running>
        requires { self.kept ≢ None }
        ensures { self.kept ≡ Some result.value }
    {
        self.into_parts().into_box()
    }

    /// A slot that leads to nothing.
    pub(super) fn to_nothing(alloc: Global) -> HandleSlot
        ensures { result.kept ≡ None }
    {
        HandleSlot {
            at: ptr::null_mut(),
            alloc,
        }
    }

    fn of_parts(parts: Parts<Running, Global>) -> HandleSlot
        ensures { result.kept ≡ Some parts.value }
    {
        let Parts { at, alloc } = parts;
        HandleSlot {
            at: at as *mut u8,
            alloc,
        }
    }

    fn into_parts(self) -> Parts<Running, Global>
        requires { self.kept ≢ None }
        ensures { self.kept ≡ Some result.value }
    {
        let HandleSlot { at, alloc } = self;
        Parts {
            at: at as *mut Running,
            alloc,
        }
    }
}
