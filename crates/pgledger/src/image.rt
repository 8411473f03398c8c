//! What a change does to one row.

use pglogical::OldKind;
use pgtuple::{Tuple, TupleRef};

/// What a change does to one row of its relation: the row before it and the row after it, both
/// whole. Of rows that are equal it is one copy.
///
/// PostgreSQL documentation, Logical Replication Message Formats, Insert, Update, Delete, Truncate.
#[derive(Debug, Drop)]
pub enum Image<'a> {
    /// A row comes.
    Inserted {
        /// The row.
        row: TupleRef<'a>,
    },
    /// A row replaces another.
    Updated {
        /// The row before the change.
        old: Tuple,
        /// The row after it, with the cells that weren't sent.
        new: Tuple,
    },
    /// A row goes.
    Deleted {
        /// The row.
        row: Tuple,
    },
    /// All rows of the relation go.
    Truncated,
    /// An Update or a Delete found no row, and did nothing. This is what was sent for it.
    Missed {
        /// The old tuple, a key or a whole row, where one was sent.
        old: Option<(OldKind, TupleRef<'a>)>,
        /// The new tuple of an Update, in which cells may be missing.
        new: Option<TupleRef<'a>>,
    },
}
