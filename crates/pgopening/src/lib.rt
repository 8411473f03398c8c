//! The trees of a store in two files, without a look at their rows.
//!
//! The SQL library's own opening ends with a check that holds all rows of a table in memory, and
//! nothing of it that is public leaves that check out. The library below it opens files whose
//! schema is given, and here one schema is enough: that of a store. So files that list exactly its
//! tables are opened there, and all others go back to the SQL library as they were found.
//!
//! ```text
//! match open(alloc, files, options)? {
//!     Found::Trees(store) => ..,     // each page was checked, and no row
//!     Found::Others(files) => ..,    // for `Connection::open_files`
//! }
//! ```
#![tactic(auto)]

mod listed;
mod opening;

pub use opening::{Found, open};
