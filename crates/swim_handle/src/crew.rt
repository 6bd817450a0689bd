//! The four workers of an era.

/// One of each of the four workers of an era, in the order of their passes.
#[derive(Clone, Copy, Debug, Drop, PartialEq, Eq)]
pub struct Crew<R, T, S, C> {
    /// Of the worker that hands datagrams in.
    pub receiver: R,
    /// Of the worker that counts the ticks.
    pub ticker: T,
    /// Of the worker that sends what the outbox took.
    pub sender: S,
    /// Of the worker that answers control lines, and joins members.
    pub control: C,
}
