//! Crash recovery of a subscriber whose store is in two files: what `pgsub_core` says of following,
//! joined with what `pgstore` says of opening.
//!
//! ```text
//! follow_in_files(&mut subscriber, sessions, clock)  // whatever it returns
//! let files = subscriber.into_store().stop();        // the files as a crash finds them
//! let store = Store::open_files(alloc, files, ..)?;  // files with what the disk has after it
//! let mut subscriber = Subscriber::new(alloc, store, spools, version, max_frame);
//! ```
//!
//! The new subscriber holds the rows of the history up to its position, and nothing that was
//! confirmed is lost.
#![tactic(auto)]

mod following;
mod laws;

pub use following::follow_in_files;
pub use laws::{
    crashes_lose_nothing_confirmed, entries_are_transactions, live_runs_are_runs,
    one_fed_life_holds_one_history, one_fed_life_tells_one_history, one_life_holds_one_history,
};
