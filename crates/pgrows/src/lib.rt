//! The rows of a store by the trees below SQL: the same tables, the same index, the same file.
#![tactic(auto)]

mod change;
mod define;
mod dump;
mod entry;
mod fault;
mod find;
mod gap;
mod guess;
mod insert;
mod relation;
mod rows;
mod search;
mod sink;
mod stored;
mod walk;
mod whole;

pub use fault::ReadFault;
pub use rows::Rows;
pub use sink::RowSink;
