//! The relation cache, and the identity of rows.
//!
//! PostgreSQL documentation, Logical Replication Message Formats, Relation; ALTER TABLE, REPLICA
//! IDENTITY.
//!
//! A [`Book`] has the last definition of each relation that a Relation message described. Of a
//! definition and the tuples of a change it tells by which cells the row is found, and which checks
//! the tuples fail:
//!
//! ```text
//! book.set(def)?;                              // at a Relation message
//! let def = book.get(oid)?;                    // at a change
//! let identity = search_identity(alloc, def, old, Some(new))?;
//! let whole = resolve(alloc, &new, &old_row)?; // with the old row's cells where none was sent
//! ```
#![tactic(auto)]

mod book;
mod carrying;
mod fault;
mod identity;
mod laws;

pub use book::Book;
pub use carrying::{Carrying, carry};
pub use fault::RelFault;
pub use identity::{
    check_insert, has_unchanged, keyed, resolve, row_identity, same_shape, search_identity,
};
pub use laws::{
    carried_rows_are_whole, keyed_tables_have_key_columns, resolved_rows_are_whole,
    rows_are_carried_by_places, shapes_are_compared_whole,
};
pub use pglogical::{Column, RelationDef};
