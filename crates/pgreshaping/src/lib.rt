//! A relation gets the definition of a change, and its rows are carried over to another shape.
//!
//! ```text
//! if !knows(known, def) {
//!     give_definition(rows, alloc, def, op)?;
//!     remember(known, alloc, def);
//! }
//! ```
#![tactic(auto)]

mod carrying;
mod giving;
mod keys;
mod known;
mod parking;
mod rewriting;
mod typed;

pub use giving::give_definition;
pub use known::{knows, remember};
