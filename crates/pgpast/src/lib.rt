//! The file in which the commits of a server are noted, and the reader that compares them.
//!
//! The newest commits stay noted from one run to the next, in a ring of records:
//!
//! ```text
//! let file = PlainFile::open(&rt, path)?;
//! let opened = Notes::open(alloc, file)?;                 // its commits are heard by a `Past`
//! let compared = Compared::new(alloc, Version::Two, MAX_FRAME, limit, opened.past);
//! let lines = RepeatLines::new(alloc, rt.stderr(), path)?;
//! let position = Cell::new(u64::MAX);                     // until the first status is written
//! let writer = FirstStatus::new(rt.stdout(), &position);
//! let (input, notes) = (rt.stdin(), opened.notes);
//! let reader = Comparing::new(alloc, input, lines, &position, compared, notes, stops)?;
//! ```
//!
//! A record has the CRC of the one before it, so records that were written after a lost one aren't
//! taken for the ones behind those before it, whatever a crash of the machine left of the file.
#![tactic(auto)]

mod comparing;
mod fault;
mod file;
mod input;
mod laws;
mod lines;
mod loading;
mod notes;
mod position;
mod record;

pub use comparing::{Comparing, RepeatListener};
pub use fault::NotesFault;
pub use file::{NotesFile, PlainFile};
pub use input::{ComparedInput, compared_input};
pub use laws::records_are_told_apart;
pub use lines::{Counts, RepeatLines, counts_line, notes_line, notes_status};
pub use notes::{Found, Notes, Opened};
pub use position::{FirstStatus, StorePosition};
