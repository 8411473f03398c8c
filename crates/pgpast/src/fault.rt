//! Why a file of noted commits can't be used.

ghost use Rattle.std.specs.Prelude.{Some};
ghost use Rattle.pgpast.specs.Telling.{fault_text};

use std::alloc::AllocError;
use std::error::Error;
use std::io::ErrorKind;
use std::{fmt, io};

/// Why a file of noted commits can't be used.
#[derive(Clone, Copy, Debug, PartialEq, Eq)]
pub enum NotesFault {
    /// The file holds something else.
    Foreign,
    /// It can't be opened, read or written, or another process has it.
    Refused,
    /// Memory has run out.
    Memory,
}

impl fmt::Display for NotesFault {
    ghost output = { λ fault. Some (fault_text fault) };

    fn fmt<W: fmt::Write>(&self, f: &mut fmt::Formatter<W>) -> fmt::Result {
        f.write_str(match self {
            NotesFault::Foreign => "it is no file of noted commits",
            NotesFault::Refused => "it can't be read or written",
            NotesFault::Memory => "memory",
        })
    }
}

impl Error for NotesFault {}

impl From<AllocError> for NotesFault {
    fn from(_: AllocError) -> NotesFault {
        NotesFault::Memory
    }
}

impl From<io::Error> for NotesFault {
    fn from(error: io::Error) -> NotesFault {
        match error.kind() {
            ErrorKind::OutOfMemory => NotesFault::Memory,
            _ => NotesFault::Refused,
        }
    }
}
