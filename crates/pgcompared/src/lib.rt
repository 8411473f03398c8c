//! Whether the commits of a server's sessions are those that it sent before.
//!
//! The bytes of sessions come in any pieces, one session after the other. What came of each commit
//! is noted (crate `pgrepeats`), and compared when it comes again:
//!
//! ```text
//! let mut compared = Compared::new(alloc, Version::Two, MAX_FRAME, 65_536, past);
//! compared.reach(position);               // that of the store, which may be above all in `past`
//! let mut told = Told::nothing(false);
//! let count = compared.hear_front(piece, &mut told);      // up to the end of one frame
//! match told.found {
//!     Some(Finding::Contradicted { at, contradiction }) => ..,
//!     Some(Finding::Lost { at, why }) => ..,    // the session isn't compared from there on
//!     None => ..,
//! }
//! ```
//!
//! A commit is compared by its changes that survive, in order, each as it is encoded outside stream
//! blocks: so a transaction that is streamed is the same as one that comes whole.
#![tactic(auto)]

mod compared;
mod finding;
mod front;
mod hearing;
mod laws;
mod noting;
mod opened;
mod session;
mod stream;

pub use compared::Compared;
pub use finding::{Finding, Lost};
pub use front::{HEADER_LEN, front_payload};
pub use laws::{
    ended_are_commits, frames_are_not_contradicted, lives_are_heard, lives_are_not_contradicted,
    sessions_are_heard, sessions_are_not_contradicted,
};
pub use noting::Told;
