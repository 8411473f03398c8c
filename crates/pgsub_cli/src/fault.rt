//! Why a run stopped, and how it ends otherwise.

use pgsub_core::{Fault, Side};

/// How a run ends that nothing stopped.
#[derive(Clone, Copy, Debug, PartialEq, Eq)]
pub enum Ending {
    /// It did what it was asked for.
    Done,
    /// It compared two recordings, and they differ.
    Differs,
}

/// Why a run stopped. Of the files that a task names, the first is the left one.
#[derive(Clone, Copy, Debug, PartialEq, Eq)]
pub enum RunFault {
    /// The stream was rejected, or memory has run out.
    Stream(Fault),
    /// One of two streams was rejected, or memory has run out while it was applied.
    OfSide(Side, Fault),
    /// The line of the recording with this number is not hexadecimal.
    NotHexadecimal(usize),
    /// The recording is longer than the limit.
    TooLong,
    /// The file on this side can't be opened or read.
    CannotRead(Side),
    /// The output can't be written.
    CannotWrite,
    /// The text is not an LSN.
    NotAnLsn,
}
