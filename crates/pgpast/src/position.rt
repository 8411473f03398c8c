//! Up to where a store has all that came.
//!
//! PostgreSQL documentation, Streaming Replication Protocol, Standby status update.

ghost use Rattle.std.specs.Prelude.{◌≡◌, ◌<◌, ◌^◌, ◌++◌, ⊤, ℕ, List, Some};
ghost use Rattle.pgwire.specs.Statuses.{status_frame};
ghost use Rattle.pgwire.specs.declared.status.Status.{Status};

use crate::record::long;
use std::cell::Cell;
use std::io;
use std::io::Write;

/// How many bytes of a status come before its LSNs: the header of its frame, and its first byte.
const BEFORE_LSNS: usize = 6;

/// Says up to where a store has all that came.
pub trait StorePosition {
    ghost use Rattle.std.specs.Prelude.{ℕ};

    /// That it says so.
    ghost says: { Self → ℕ → Type 0 };

    /// The LSN up to which the store has all commits, as far as that is known, else one above it.
    fn position(&self) -> u64
        ensures { says self.now result };
}

/// What a cell holds isn't known, so no clause is said of it.
impl StorePosition for &Cell<u64> {
    ghost says = { λ _ _. ⊤ };

    fn position(&self) -> u64 {
        self.get()
    }
}

/// A writer of statuses that puts into a cell what the first of them confirms, which is the
/// position of the opened store.
#[derive(Drop)]
pub struct FirstStatus<'c, W: Write + Drop> {
    writer: W,
    position: &'c Cell<u64>,
    is_written: bool,
}

impl<'c, W: Write + Drop> FirstStatus<'c, W> {
    /// One of which nothing is written yet.
    pub fn new(writer: W, position: &'c Cell<u64>) -> FirstStatus<'c, W>
        ensures { result.writer ≡ writer }
    {
        FirstStatus {
            writer,
            position,
            is_written: false,
        }
    }
}

impl<W: Write + Drop> Write for FirstStatus<'_, W> {
    ghost contents = { λ it. W.contents it.writer };

    fn write(&mut self, buf: &[u8]) -> io::Result<usize> {
        if !self.is_written {
            self.is_written = true;
            if let Some(flushed) = flushed_in(buf) {
                self.position.set(flushed);
            }
        }
        self.writer.write(buf)
    }

    fn flush(&mut self) -> io::Result<()> {
        self.writer.flush()
    }
}

// The LSN that a status confirms as flushed, with the frame of which these bytes begin.
fn flushed_in(bytes: &[u8]) -> Option<u64>
    ensures { (status : Status) (more : List ℕ) → status.flushed < 2 ^ 64 →
        bytes.now ≡ status_frame status ++ more → result ≡ Some status.flushed }
{
    let lsns = bytes.get(BEFORE_LSNS..)?;
    let (_, lsns) = long(lsns)?;
    let (flushed, _) = long(lsns)?;
    Some(flushed)
}
