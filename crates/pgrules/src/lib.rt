//! Which rules of a well-formed server the session of a recording keeps, and where it breaks one.
//!
//! The bytes of a session are read frame by frame, and what each says is told to a watch:
//!
//! ```text
//! let findings = watch_session(alloc, Version::Two, MAX_FRAME, 1_000_000, bytes);
//! match findings.end {
//!     End::Whole => ..,                                  // no rule is broken
//!     End::Ended(Breach::BelowKeepalive { at, .. }) => ..,
//!     ..
//! }
//! ```
//!
//! The frames before the end are a session of some history, and where a rule is broken no history
//! has a session that begins so. The session may start anywhere: a recording doesn't tell where.
#![tactic(auto)]

mod findings;
mod guarded;
mod hearing;
mod laws;
mod live;
mod rules;
mod seen;
mod session;

pub use findings::{End, Findings};
pub use guarded::{FindingListener, Guarded};
pub use laws::{breach_is_no_session, heard_is_a_session, watched_is_of_histories};
pub use live::LiveWatch;
pub use rules::{Rule, Standing};
pub use seen::Seen;
pub use session::{joined, watch_session};
