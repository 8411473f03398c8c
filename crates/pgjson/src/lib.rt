//! Replicated values in JSON: cells, logical messages, and one line for each frame of a session and
//! each row of a dump.
//!
//! ```text
//! let value = cells_json(alloc, &row.cells.borrowed())?;     // ["1",null,{"hex":"00ff"}]
//! let value = message_json(alloc, &message)?;                // ["Begin","0/100",0,10]
//! let line = keepalive_line(alloc, Lsn(0x180), 0, true)?;    // ["keepalive","0/180",0,1] and a line feed
//! ```
#![tactic(auto)]

mod cells;
mod items;
mod lines;
mod messages;
mod parts;
mod rows;

pub use cells::{cell_json, cells_json};
pub use lines::{data_line, done_line, keepalive_line};
pub use messages::message_json;
pub use rows::row_line;
