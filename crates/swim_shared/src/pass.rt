//! What a caller holds.

ghost use Rattle.std.specs.Prelude.{◌≡◌, if◌then◌else◌, ◌+◌, ◌<◌, ◌^◌, [], length, false};
ghost use Rattle.swim_member.specs.declared.event.Event.{Event as Events};
ghost use Rattle.swim_node.specs.declared.entry.Reply.{Reply as Replies};
ghost use Rattle.swim_node.specs.History.{IsLegal};
ghost use Rattle.swim_shared.specs.Passes.{new_pass, Called, FullFor, Unseen};
ghost use Rattle.swim_shared.specs.Passes.{Added, HasAdded, Ahead, IsPass};

use crate::front::Front;
use crate::name::Name;
use std::marker::{Model, PhantomData};

/// A caller, with its calls and the history that it has read back. Contracts see it as `PassView`.
#[derive(Drop)]
pub struct Pass<N: Name> {
    front: Front,
    caller: u8,
    calls: u32,
    spent: bool,
    of: PhantomData<N>,
}

impl<N: Name> Model for Pass<N> {
    ghost use Rattle.swim_shared.specs.Passes.{PassView, pass_of, Reads};

    ghost Value = { PassView };

    ghost view = { λ p. pass_of p.caller p.calls p.front p.spent };

    ghost invariant = { λ p. Reads N.book N.base p.front
        (pass_of p.caller p.calls p.front p.spent) };
}

impl<N: Name> Pass<N> {
    /// A pass that has made no call.
    pub(crate) fn new(front: Front, caller: u8) -> Pass<N>
        requires empty { front.entries ≡ [] }
        requires book { front.book ≡ N.book }
        requires legal { IsLegal N.base front.entries }
        requires low { caller < 16 }
        ensures { result ≡ new_pass caller }
    {
        Pass {
            front,
            caller,
            calls: 0,
            spent: false,
            of: PhantomData,
        }
    }

    /// The history that it has read back.
    pub(crate) fn front(&self) -> &Front
        ensures entries { result.now.entries ≡ self.now.seen }
        ensures book { result.now.book ≡ N.book }
    {
        &self.front
    }

    /// Whether each further call answers Unread.
    pub fn is_spent(&self) -> bool
        ensures { result ≡ self.now.spent }
    {
        self.spent
    }

    /// Which caller it is: a number below 16, which tags its entries.
    pub fn caller(&self) -> u8
        ensures value { result ≡ self.now.caller }
        ensures low { self.now.caller < 16 }
    {
        self.caller
    }

    /// How many calls it has made. Its list is legal, and has of its caller just these, or one less
    /// where it is spent.
    pub fn calls(&self) -> u32
        ensures value { result ≡ self.now.calls }
        ensures pass { IsPass N.base self.now }
    {
        self.calls
    }

    /// That its list is legal. It does nothing: its contract is what counts.
    pub fn list_is_legal(&self)
        ensures { IsPass N.base self.now }
    {
        self.calls();
    }

    /// How many entries it has read back.
    pub fn len(&self) -> u64
        ensures { result ≡ length self.now.seen }
    {
        self.front.len()
    }

    /// The call stands at the end of the history, and is read back.
    pub(crate) fn take_call(&mut self, front: &Front)
        requires spent { self.old.spent ≡ false }
        requires room { self.old.calls + 1 < 2 ^ 32 }
        requires book { front.now.book ≡ N.book }
        requires legal { IsLegal N.base front.now.entries }
        requires added { HasAdded self.old front.now.entries }
        ensures called { (event : Events) → (reply : Replies)
            → Added self.old event reply front.now.entries
            → Called N.base self.old event reply self.new }
        ensures seen { self.new.seen ≡ front.now.entries }
    {
        self.front = front.again();
        self.calls += 1;
    }

    /// The era is full, and its history is read back.
    pub(crate) fn take_full(&mut self, front: &Front)
        requires spent { self.old.spent ≡ false }
        requires book { front.now.book ≡ N.book }
        requires legal { IsLegal N.base front.now.entries }
        requires full { length front.now.entries ≡ N.base.limit }
        requires ahead { Ahead self.old front.now.entries }
        ensures full { FullFor N.base self.old self.new }
        ensures seen { self.new.seen ≡ front.now.entries }
    {
        self.front = front.again();
    }

    /// From now on the pass is of no use. Its last call was entered, or was not.
    pub(crate) fn spend(&mut self, entered: bool)
        requires spent { self.old.spent ≡ false }
        requires room { self.old.calls + 1 < 2 ^ 32 }
        ensures unseen { Unseen self.old self.new }
        ensures calls { self.new.calls ≡ (if entered then self.old.calls + 1 else self.old.calls) }
    {
        self.spent = true;
        if entered {
            self.calls += 1;
        }
    }
}
