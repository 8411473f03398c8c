//! The lines of recorded sessions: one for each frame, up to the first fault of the frames, of
//! their messages, or of the messages' order.
//!
//! ```text
//! let mut lines = String::new(alloc);
//! for (number, session) in sessions.iter().enumerate() {
//!     if number > 0 {
//!         lines.push_str("--\n")?;
//!     }
//!     // what comes before the fault is in `lines` then
//!     show_session(alloc, Version::Two, MAX_FRAME, session.pieces.as_slice(), &mut lines)?;
//! }
//! ```
#![tactic(auto)]

mod fault;
mod frames;
mod session;

pub use fault::Fault;
pub use session::show_session;
