//! Whether the trees of a database hold the tables of a store: each entry is read once, and one at
//! a time is in memory.
//!
//! The SQL library's check of a database has all rows of a table in memory. A store knows more of
//! its rows than that check asks, so this one replaces it.
//!
//! ```text
//! if lists_store(&store, alloc)? {                          // the three tables, and no other
//!     let definitions = read_definitions(&mut store, alloc)?;
//!     let is_held = check_rows(&mut store, alloc, &check)?; // each row, and its identity
//!     let position = read_position(&mut store, alloc)?;
//! }
//! ```
#![tactic(auto)]

mod definitions;
mod held;
mod keys;
mod place;
mod rows;
mod verify;
mod walk;

pub use verify::{check_rows, lists_store, read_definitions, read_position};
pub use walk::TreeVisitor;
