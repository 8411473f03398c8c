//! Tuples, identities and columns as the bytes that a store's tables hold, and back, and why a step
//! on these tables fails.
//!
//! ```text
//! let identity = encode_identity(alloc, def, row)?;
//! let body = encode(alloc, row)?;            // no memory for a row that is as it was received
//! rows.add_row(def.oid, identity.as_slice(), body.as_slice(), 1)?;
//! ```
#![tactic(auto)]

mod cause;
mod columns;
mod encoded;
mod fault;

pub use cause::Cause;
pub use columns::{column_bytes, read_columns};
pub use encoded::{
    Encoded, MOST_COPIES, encode, encode_identity, encode_searched, read_tuple, reborrow_prior,
};
pub use fault::Refusal;
