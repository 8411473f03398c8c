//! What the program reads: recordings, of which it tells how far they are applied, and standard
//! input, which is watched and compared with noted commits where that is asked for. And the file
//! of open transactions beside that.
//!
//! ```text
//! let input = input_of(rt, &task)?;
//! let reporter = reporter_of(rt, &task, &input);
//! let status = follow_server(rt, &task, (version, watch), follower);
//! ```
#![tactic(auto)]

mod recorded;
mod server;
mod spooling;
mod telling;

pub use recorded::{input_of, reporter_of};
pub use server::{Follower, follow_server};
pub use spooling::{make_spool, tell_unspooled};
pub use telling::{tell_counts, tell_notes};
