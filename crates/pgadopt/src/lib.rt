//! The tables of a store in a database: made, taken over where a store may have written them, or
//! read from its trees.
//!
//! ```text
//! make_tables(&mut conn)?;                               // where there are none yet
//! let position = adopt_tables(&mut conn, alloc)?;        // those that are there, each row checked
//! let found = read_store(&mut store, alloc)?;            // the same below SQL
//! ```
#![tactic(auto)]

mod adopting;
mod opening;
mod outlined;
mod remaking;

pub use adopting::adopt_tables;
pub use opening::make_tables;
pub use outlined::{read_store, read_trusted};
