//! What a run takes of the system: its clock, the files that a task names, those that it makes, and
//! what it leaves of those of its store.
//!
//! ```text
//! new_file::make_file(rt, "copy.db")?;               // whole or not at all, and only if it is new
//! let folder = FileFolder::new(rt, "feed");          // of a feed, which `Feed::open` makes
//! let file = open_anew(rt, "open", &["copy.db"])?;   // for the changes of open transactions
//! ```
#![tactic(auto)]

mod feed_plan;
mod file_folder;
mod left;
mod named;
pub mod new_file;
mod spool_file;
mod system_clock;

pub use feed_plan::{FeedOpening, FeedPlan, feed_of};
pub use file_folder::FileFolder;
pub use left::{Closing, Filed, fed_status, status_of};
pub use named::{files_of, length_of, opened};
pub use spool_file::{open_anew, remove_spool};
pub use system_clock::SystemClock;
