//! COPY's text format, read as rows from pieces that are cut anywhere.
//!
//! ```text
//! let mut reader = CopyReader::new(alloc, columns, max_line);
//! let mut rest = piece;
//! loop {
//!     match reader.feed(rest, &mut rows)? {
//!         Fed::Row(taken) => rest = &rest[taken..],      // `rows` has one tuple more
//!         Fed::Waits => break,                           // the next piece goes on
//!         Fed::Ended(taken) => ..,                       // `\.` has come
//!     }
//! }
//! let (row, len) = pgtuple::decode_ref(&rows)?;          // borrowed
//! ```
#![tactic(auto)]

mod fault;
mod fed;
mod laws;
mod reader;
mod row;
mod sequence;
mod value;

pub use fault::{CopyFault, Reason};
pub use fed::Fed;
pub use laws::{cuts_change_nothing, rows_are_those_of_the_bytes, sent_rows_are_read};
pub use reader::CopyReader;
