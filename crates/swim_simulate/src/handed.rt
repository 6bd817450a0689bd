//! What a run hands to its nodes, for contracts alone.

/// In a tick of the group the clock of a member went on.
#[derive(Clone, Copy, Debug, PartialEq, Eq)]
pub struct Clock {
    /// Which tick.
    pub tick: u64,
    /// Which member.
    pub who: usize,
}

/// What came to a node, in which tick of the group.
#[derive(Clone, Copy, Debug, PartialEq, Eq)]
pub enum Handed {
    /// A tick of the member's own clock.
    Tick {
        /// In which tick of the group.
        tick: u64,
        /// To which member.
        who: usize,
    },
    /// A datagram.
    Datagram {
        /// In which tick of the group.
        tick: u64,
        /// To which member.
        who: usize,
        /// In which place it was kept then.
        index: usize,
    },
}
