//! A database that lives as long as its process: two disks in memory, and the SQL connection over
//! them.
//!
//! A disk that may crash has to keep what was last synced beside what was written since. These
//! disks end with their process, so each write is durable at once, and a sync has nothing to do.
//!
//! ```text
//! let conn = open(alloc)?;                           // an empty database
//! let files = stop(conn);                            // its two disks, as a crash leaves them
//! ```
#![tactic(auto)]

mod disk;
mod laws;
mod opening;
mod stopping;

pub use disk::MemoryDisk;
pub use laws::memory_stays_clean;
pub use opening::open;
pub use stopping::stop;
