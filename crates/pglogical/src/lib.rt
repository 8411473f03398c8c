//! Logical messages: the fourteen of protocol versions 1 and 2, read from their bytes and written
//! as them.
//!
//! PostgreSQL documentation, Logical Replication Message Formats.
//!
//! ```text
//! match decode_ref(body, in_block)? {                // borrowed from the body
//!     MessageRef::Begin { final_lsn, xid, .. } => ..,
//!     MessageRef::Item { item, .. } => ..,           // a relation or a change of a transaction
//!     _ => ..,
//! }
//! let message = decode(alloc, body, in_block)?;      // the same, with memory of its own
//! encode(&message, &mut out)?;                       // the body again
//! ```
#![tactic(auto)]

mod column_refs;
mod decoding;
mod encoding;
mod fault;
mod laws;
mod message;
mod message_ref;
mod oid_refs;
mod reader;
mod tags;

pub use column_refs::{ColumnRef, ColumnRefs};
pub use decoding::{decode, decode_columns, decode_ref};
pub use encoding::{encode, encode_columns, encode_item, spelled_len};
pub use fault::{DecodeFault, Reason};
pub use laws::{
    columns_have_one_spelling, messages_have_one_spelling, what_is_read_can_be_written,
};
pub use message::{Column, Item, Message, OldKind, RelationDef};
pub use message_ref::{DefRef, ItemParts, ItemRef, MessageRef};
pub use oid_refs::OidRefs;
