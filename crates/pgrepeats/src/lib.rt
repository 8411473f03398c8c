//! Whether the commits that a server sends again are those that it sent before.
//!
//! A subscriber passes over a commit that ends at or below its position: it takes it for one that
//! it has. A server that was set back, as by a backup that was restored, or a standby that took
//! over and lagged behind, may send other commits there. So what came of each commit is noted, and
//! compared when it comes again:
//!
//! ```text
//! let mut past = Past::new(alloc, 65_536);
//! past.begin_session();
//! let mut digest = Digest::of_none();
//! digest.add(Change::of(&body[..1], &body[1..]));         // each change that survives
//! past.hear(Commit { end, lsn, xid, time, digest })?;     // or Err(Trouble::Contradicted(..))
//! ```
//!
//! Commits are the same up to a collision of the digest of their changes. What is noted are the
//! newest commits; of a commit that ends below them nothing is said.
#![tactic(auto)]

mod commit;
mod digest;
mod fault;
mod laws;
mod noted;
mod past;
mod ring;

pub use commit::Commit;
pub use digest::{Change, Digest};
pub use fault::{Contradiction, Part, Trouble};
pub use laws::{answers_keep_the_past, histories_are_not_contradicted, sessions_keep_the_past};
pub use past::{Answer, Past};
