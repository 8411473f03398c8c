//! Spools that go on in a file: the items of transactions that haven't committed, in memory up to a
//! number of bytes, the others in blocks of one file, which all transactions share.
//!
//! PostgreSQL documentation, Streaming of Large Transactions for Logical Decoding, and Logical
//! Streaming Replication Protocol.
//!
//! They are spools as `pgspool` has them, and fail where a write or a read fails:
//!
//! ```text
//! let mut spools = FileSpools::new(alloc, disk, max_bytes, max_in_memory);
//! spools.open(20)?;                                    // the first block of transaction 20
//! spools.push(20, 20, &first)?;                        // an item of its own
//! spools.push(20, 21, &second)?;                       // an item of its subtransaction 21
//! spools.cut(20, 21);                                  // 21 is rolled back, and nothing is read
//! spools.load(20)?;                                    // at the commit: its items are read
//! let item = spools.item(20, 0);                       // the first item
//! let to = spools.load_part(20, 0)?;                   // or part after part, where it is long
//! let item = spools.part_item(20, 0);                  // the first item of the first part
//! spools.drop_xid(20);                                 // its blocks are free for others
//! ```
//!
//! Each item is stored as its subxid, the length of its encoding, and the encoding. Nothing of the
//! file has to outlast a crash, so nothing is synced.
#![tactic(auto)]

mod fault;
mod file_items;
mod file_spools;
mod parts;
mod place;
mod read_items;
mod span;
mod spools;
mod stored;

pub use file_spools::{FileSpools, MOST_OPEN};
