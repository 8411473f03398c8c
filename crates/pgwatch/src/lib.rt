//! A server's session, watched: whether what has come of it may be sent by a well-formed server, or
//! which rule is broken, and at which frame.
//!
//! The theorem of the subscriber has a premise: that what comes is a session of some history
//! (`docs/PROTOCOL.md`, "What a well-formed server is"). A watch is told each message that was
//! decoded, and each keepalive, and tests that premise beside the subscriber:
//!
//! ```text
//! let mut watch = Watch::new(alloc, Version::Two, start, 100_000);
//! let message = decode_ref(body, watch.in_block())?;
//! watch.message(frame, &message)?;               // or Err(Breach::BelowKeepalive { cause, .. })
//! watch.keepalive(frame, end)?;
//! ```
//!
//! `crates/pgwatched` proves what its answers mean: Ok after each message exactly where some
//! history has these messages as the front of a session; and a breach exactly at the first message
//! after which no history is left.
#![tactic(auto)]

mod facts;
mod fault;
mod known;
mod nest;
mod noted;
mod streams;
mod watch;

pub use fault::Breach;
pub use watch::Watch;
