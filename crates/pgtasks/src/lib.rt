//! Runs of the program that name no store: over recordings alone, and over a store in memory.
//!
//! ```text
//! let task = command_of(alloc, words)?;
//! let status = run(alloc, &task, left, right, &mut out, &mut err);
//! ```
#![tactic(auto)]

mod comparing;
mod in_memory;
mod running;
mod stores;

pub use in_memory::run_in_memory;
pub use running::run;
