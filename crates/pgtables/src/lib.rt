//! The tables of a store of replicated rows as SQL text makes and finds them, over bytes: one
//! function for each SQL statement.
//!
//! `rel` has the definition of each relation by its OID, `held` its rows by OID and the encoding of
//! their identity, and `pos` the position up to which they are complete. A contract sees them as
//! two maps and a list of bytes. What a session changes of them doesn't go through SQL, and is in
//! `pgrows`.
//!
//! ```text
//! let left = find_remains(&conn);
//! let definitions = read_remaining_definitions(&mut conn, left, alloc)?;
//! drop_remains(&mut tx)?;
//! create_tables(&mut tx)?;
//! put_definition(&mut tx, oid, namespace, name, letter, columns)?;
//! put_position(&mut tx, &end.to_be_bytes())?;
//! ```
#![tactic(auto)]

mod found;
mod opened;
mod put;
mod remains;
mod rows;
mod schema;
mod settled;

pub use opened::{FoundPosition, RowCheck};
pub use put::{put_definition, put_position};
pub use remains::{
    Remains, check_remaining_rows, drop_remains, find_remains, read_remaining_definitions,
    read_remaining_position, remains_of,
};
pub use rows::{StoredDefinition, StoredRow};
pub use schema::{create_tables, put_first_position};
pub use settled::see_committed;
