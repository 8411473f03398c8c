//! Frames of a replication session, and the messages that a server sends in them.
//!
//! PostgreSQL documentation, Message Formats (CopyData, CopyDone) and Streaming Replication
//! Protocol.
//!
//! ```text
//! let mut deframer = Deframer::new(alloc, 16777216);
//! let mut taken = deframer.feed(chunk)?;             // up to the end of a frame, or of the chunk
//! while let Some(frame) = deframer.whole() {
//!     match frame {
//!         Frame::Data(payload) => handle(decode_server(payload)?),
//!         Frame::Done => ..,                         // the session has ended
//!     }
//!     deframer.release();
//!     taken += deframer.feed(&chunk[taken..])?;
//! }
//! ```
#![tactic(auto)]

mod deframer;
mod fault;
mod frame;
mod header;
mod laws;
mod message;
mod session;
mod status;

pub use deframer::Deframer;
pub use fault::WireFault;
pub use frame::Frame;
pub use laws::{
    cuts_change_nothing, first_bytes_tell_the_frame, first_fault_is_that_of_the_bytes,
    frames_are_those_of_the_bytes, payload_has_one_reading, stream_has_one_fault,
    stream_has_one_reading,
};
pub use message::{ServerMsg, decode_server};
pub use session::Session;
pub use status::{Status, encode_status};
