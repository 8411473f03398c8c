//! Spools that go on in a file, for a follower: whether items come back as they were written is
//! noted beside the store, and what is said of the store is said while they do.
//!
//! ```text
//! let spools = LiveSpools::in_file(alloc, disk, max_bytes, max_in_memory);
//! let store = Spooled::new(store);
//! let mut subscriber = Subscriber::new(alloc, store, spools, Version::Two, 16777216);
//! ```
//!
//! PostgreSQL documentation, Streaming of Large Transactions for Logical Decoding.
#![tactic(auto)]

mod honesty;
mod laws;
mod live_spools;
mod loading;
mod spooled;

pub use honesty::Honesty;
pub use laws::memory_is_honest;
pub use live_spools::LiveSpools;
pub use spooled::Spooled;
