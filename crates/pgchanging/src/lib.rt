//! What a change does to the rows of its relation, and what it tells of them.
//!
//! ```text
//! telling.look(rows, alloc, def, op)?;                   // the row before it, where it is wanted
//! let is_missing = change_rows(rows, alloc, def, op)?;
//! ```
#![tactic(auto)]

mod changing;
mod looking;

pub use changing::change_rows;
pub use looking::Telling;
