//! The handle that C keeps.

ghost use Rattle.std.specs.Prelude.{◌≡◌, ◌≢◌, IfNone, IfSome, Some, None, true, false};
ghost use Rattle.swim_library.specs.Holding.{held};

mod member;
mod parts;
mod slot;

use crate::running::Running;
use member::MARK;
pub use member::SwimMember;
use slot::HandleSlot;
use std::mem;

/// Takes the member out of an open handle, which then is closed.
pub(crate) fn take(member: &mut SwimMember) -> Option<Box<Running>>
    ensures open { IfSome result (λ running. held member.old ≡ Some running.value) }
    ensures closed { IfNone result (held member.old ≡ None) }
    ensures same { IfNone result (member.new ≡ member.old) }
    ensures shut { IfSome result (λ _. held member.new ≡ None) }
{
    if member.mark != MARK {
        return None;
    }
    let alloc = member.alloc;
    let shut = SwimMember {
        mark: 0,
        alloc,
        slot: HandleSlot::to_nothing(alloc),
    };
    let SwimMember {
        mark: _,
        alloc: _,
        slot,
    } = mem::replace(member, shut);
    Some(slot.into_running())
}

/// Puts a member into a handle.
pub(crate) fn put(member: &mut SwimMember, running: Box<Running>)
    ensures { held member.new ≡ Some running.value }
{
    *member = SwimMember {
        mark: MARK,
        alloc: member.alloc,
        slot: HandleSlot::holding(running),
    };
}

impl SwimMember {
    /// Whether it is open.
    pub(crate) fn is_open(&self) -> bool
        ensures open { result ≡ true → held self.now ≢ None }
        ensures closed { result ≡ false → held self.now ≡ None }
    {
        self.mark == MARK
    }
}
