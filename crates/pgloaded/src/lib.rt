//! The first copy of a server's tables, loaded before its first session is followed.
//!
//! ```text
//! let plan = LoadPlan::new(batch, max_frame);
//! let (unloaded, store) = load_first(alloc, store, Some(plan), &mut reader);
//! ```
#![tactic(auto)]

mod load_plan;
mod loading;
mod session_reader;
mod texts;

pub use load_plan::LoadPlan;
pub use loading::load_first;
pub use session_reader::SessionReader;
pub use texts::{input_line, load_status, stream_fault};
