//! The clock of the statuses.

/// Tells the time.
pub trait Clock {
    /// The time now, in microseconds since 2000-01-01 00:00 UTC. A status carries it, and nothing
    /// else depends on it.
    fn now(&mut self) -> i64;
}
