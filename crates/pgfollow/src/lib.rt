//! Follows a server as a filter: the bytes of sessions come from a reader, and statuses go to a
//! writer.
//!
//! ```text
//! let mut link = Link::new(rt.stdin(), rt.stdout());
//! follow_live(alloc, &mut link, &mut clock, &mut subscriber)?;
//! ```
//!
//! Whoever carries the bytes starts each session at what the last status has confirmed, and puts a
//! CopyDone after a session that ended without one.
#![tactic(auto)]

mod clock;
mod fault;
mod laws;
mod link;
mod live;

pub use clock::Clock;
pub use fault::FollowFault;
pub use laws::parts_have_what_is_taken;
pub use link::Link;
pub use live::follow_live;
