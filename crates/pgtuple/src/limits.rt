//! The limits of tuples.
//!
//! PostgreSQL documentation, Appendix K, PostgreSQL Limits (columns per table); Message Data Types
//! (Int32).

/// The most columns that a relation, and so a tuple, has.
pub const MAX_COLUMNS: u16 = 1600;

/// The greatest Int32, which is the most bytes that a cell has.
pub const MAX_INT32: u32 = 2147483647;
