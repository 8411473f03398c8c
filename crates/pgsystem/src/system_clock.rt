//! The system's clock.

use pgfollow::Clock;
use std::time::{SystemTime, UNIX_EPOCH};

/// The system's clock.
#[derive(Drop)]
pub struct SystemClock<'r> {
    rt: &'r HostRuntime,
}

impl<'r> SystemClock<'r> {
    /// The clock of this system.
    pub fn new(rt: &'r HostRuntime) -> SystemClock<'r> {
        SystemClock { rt }
    }
}

/// 2000-01-01 00:00 UTC, in microseconds since 1970.
const YEAR_2000: i64 = 946_684_800_000_000;

impl Clock for SystemClock<'_> {
    // The year 2000 where the system's clock can't be read.
    fn now(&mut self) -> i64 {
        let Ok(time) = SystemTime::now(self.rt) else {
            return 0;
        };
        let Ok(since) = time.duration_since(UNIX_EPOCH) else {
            return 0;
        };
        let micros = i64::try_from(since.as_micros()).unwrap_or(i64::MAX);
        micros.saturating_sub(YEAR_2000)
    }
}
