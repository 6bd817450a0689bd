//! What ends a wait.

use crate::inbound::Inbound;

/// Ends a wait of another thread.
pub trait Alarm {
    /// Ends the wait that is under way. Where nobody waits, the next wait ends at once.
    fn ring(&self);
}

/// What receives datagrams until an alarm ends its wait.
pub trait Alarmed: Inbound {
    /// What ends the wait.
    type Alarm: Alarm;
}
