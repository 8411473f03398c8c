//! For programs that embed the subscriber or the decoder: short forms of what they mostly need.
//!
//! ```text
//! let store = Store::open_from(alloc, rt, "copy.db", Unknown)?;  // or Store::on_memory_disks
//! let mut subscriber = subscriber_over(alloc, store, Version::Two);
//! subscriber.feed(chunk, clock)?;                    // pgsub_core has the other calls
//!
//! let line = decode(alloc, payload, in_block)?;      // a payload, as `pgsub show` prints it
//! show(alloc, Version::Two, session, &mut lines)?;   // and all frames of a session
//! ```
//!
//! `pass_line` and `pass_lines` are for callers that aren't Rust: a fault is a number with a text,
//! and bytes go into room that the caller has. `InMemory` is a subscriber for them, whose rows are
//! in memory.
#![tactic(auto)]

mod calls;
mod decoding;
mod dumped;
mod embedded;
mod passing;
mod showing;
mod stored;
mod subscribing;

pub use calls::{append_status, feed_piece, pass_replies, pass_rows};
pub use decoding::decode;
pub use embedded::InMemory;
pub use passing::{
    MEMORY, ROOM, number, pass, pass_fault, pass_line, pass_lines, pass_stream_fault, stream_number,
};
pub use showing::show;
pub use subscribing::{MAX_BUFFERED, MAX_FRAME, subscriber_over};
