//! All rows of a store's tables, read one by one.
#![tactic(auto)]

mod dumping;

pub use dumping::read_rows;
