//! The first copy of tables, loaded from the text of their COPY: what it means, and how it gets
//! into a store.
//!
//! ```text
//! // frames of CopyData: a Relation message, pieces of its text, its end, .., the point
//! let limits = Limits::new(batch, max_line);
//! let (ended, store) = load_from(alloc, store, limits, max_frame, &mut reader);
//! let point = ended?;                             // the store is there, for a subscriber
//! ```
//!
//! Until then the store's position is at most [`MOST_PARTS`], also after a crash. Of the reader
//! nothing is taken that follows the load. [`Loading`] is the same in any pieces, and [`Load`]
//! without frames.
//!
//! PostgreSQL documentation, COPY, File Formats, Text Format; Logical Decoding Concepts, Exported
//! Snapshots.
#![tactic(auto)]

mod batch;
mod fault;
mod input;
mod laws;
mod limits;
mod load;
mod loading;
mod reading;
mod table;

pub use batch::MOST_PARTS;
pub use fault::{InputFault, LoadFault};
pub use input::{END_TEXT_TAG, POINT_TAG, TEXT_TAG};
pub use laws::{
    changes_come_in_parts, cuts_change_no_load, load_is_a_transaction, loaded_rows_are_the_servers,
    sent_rows_are_loaded,
};
pub use limits::Limits;
pub use load::Load;
pub use loading::{Ended, Loading};
pub use reading::load_from;
