//! Runs of the program over a store in the files at a path: opens it, runs, and closes it, as one
//! call each.
//!
//! ```text
//! let opening = StoreFile { rt, path: "copy.db", cache, start: Unknown, is_made: false };
//! let (status, left, out) = dump(alloc, opening, out, &mut err);
//! ```
#![tactic(auto)]

mod closing;
mod fed;
mod filed;
mod laws;
mod loaded;
mod opening;
mod telling;

pub use fed::{ApplyPlan, FollowPlan};
pub use filed::{apply, dump, follow};
pub use laws::new_files_are_empty;
pub use opening::{AsLeft, LeftUnopened, Opening, StoreFile, TrustedFile};
