//! Connections that stand aside.

ghost use Rattle.std.specs.Prelude.{◌≡◌, ◌<◌, ◌≤◌, [], ◌∷◌, ◌++◌, length, IfNone, IfOk, IfSome};
ghost use Rattle.std.specs.VecDeque.{deque_len, deque_capacity};
ghost use Rattle.swim_serve.specs.declared.connection_queue.TheConstants.{OPEN_MAX};

use std::alloc::{AllocError, Global};
use std::collections::VecDeque;
use std::marker::Model;

/// The most connections that are open at a time. Others wait outside.
pub const OPEN_MAX: usize = 8;

/// Connections that are open while another has the turns, the next one first. Contracts see them as a list.
#[derive(Drop)]
pub struct ConnectionQueue<S: Drop> {
    waiting: VecDeque<S>,
    ghost room: { OPEN_MAX ≤ deque_capacity waiting },
}

impl<S: Drop> Model for ConnectionQueue<S> {
    ghost use Rattle.std.specs.Prelude.{List};

    ghost Value = { List S };

    ghost view = { λ queue. queue.waiting.items };
}

impl<S: Drop> ConnectionQueue<S> {
    /// None yet. An error is that there is no memory for them.
    pub fn new(alloc: Global) -> Result<ConnectionQueue<S>, AllocError>
        ensures { IfOk result (λ none. none ≡ []) }
    {
        let waiting = VecDeque::with_capacity(alloc, OPEN_MAX)?;
        Ok(ConnectionQueue { waiting })
    }

    /// How many they are.
    pub fn len(&self) -> usize
        ensures { result ≡ length self.now }
    {
        self.waiting.len()
    }

    /// Puts one behind all others.
    pub fn push(&mut self, last: S)
        requires { length self.old < OPEN_MAX }
        ensures { self.new ≡ self.old ++ last ∷ [] }
    {
        self.waiting.push_back_reserved(last);
    }

    /// Takes the next one out.
    pub fn next(&mut self) -> Option<S>
        ensures some { IfSome result (λ next. self.old ≡ next ∷ self.new) }
        ensures none { IfNone result ((self.old ≡ []) × (self.new ≡ [])) }
    {
        self.waiting.pop_front()
    }
}
