//! The program's commands, over any readers, writers and stores: a recording is read, its sessions
//! are followed, and what is stored then is printed.
//!
//! ```text
//! let (status, store) = run_store(alloc, store, Some((version, incoming)), &mut out, &mut err);
//! ```
#![tactic(auto)]

mod buffered;
pub mod dump;
mod dumping;
pub mod fault;
pub mod fault_text;
pub mod files;
pub mod following;
pub mod limits;
mod live_io;
mod missing;
pub mod numbering;
pub mod over;
pub mod printed;
pub mod recorded;
pub mod reported;
pub mod reporting;
pub mod showing;
pub mod storing;
pub mod telling;
mod watched;
pub mod watching;

pub use buffered::{SpoolFile, run_buffered};
pub use dumping::run_dump;
pub use following::run_follow;
pub use live_io::LiveIo;
pub use missing::MissedLines;
pub use pgcommand::{Limits, Task};
pub use reported::Reported;
pub use reporting::run_opened;
pub use storing::{run_store, run_within};
pub use telling::store_path;
pub use watched::{WatchLines, live_watch};
