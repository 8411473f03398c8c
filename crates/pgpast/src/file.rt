//! Where noted commits are kept.

use crate::fault::NotesFault;
use std::alloc::Global;
use std::fs::{File, OpenOptions};
use std::io;
use std::io::Read;
use std::os::unix::fs::{FileExt, OpenOptionsExt};

/// The mode of a file that is made.
const MODE: u32 = 0o600;

/// Where noted commits are kept: bytes that are written in place.
pub trait NotesFile {
    ghost use Rattle.std.specs.Prelude.{◌≡◌, ◌≤◌, [], ℕ, List, length, IfOk, OnOk};
    ghost use Rattle.pgpast.specs.Records.{written};

    /// It holds these bytes, as far as its answers are true.
    ghost holds: { Self → List ℕ → Type 0 };

    /// All its bytes.
    ///
    /// # Errors
    ///
    /// It can't be read, or memory has run out.
    fn read_all(&mut self, alloc: Global) -> io::Result<Vec<u8>>
        ensures { (bytes : List ℕ) → holds self.old bytes →
            IfOk result (λ found. (found.items ≡ bytes) × holds self.new bytes) };

    /// Writes bytes in place of those that lie there, and behind the last one.
    ///
    /// # Errors
    ///
    /// Some of them couldn't be written.
    fn write_at(&mut self, bytes: &[u8], at: u64) -> io::Result<()>
        ensures { (old : List ℕ) → holds self.old old → at ≤ length old →
            OnOk result (holds self.new (written old at bytes.now)) };

    /// Leaves no bytes.
    ///
    /// # Errors
    ///
    /// Some may be left.
    fn clear(&mut self) -> io::Result<()>
        ensures { (old : List ℕ) → holds self.old old → OnOk result (holds self.new []) };
}

/// A file of the system, locked. Nothing is synced: what a crash of the machine leaves may lack any
/// of the newest bytes.
#[derive(Drop)]
pub struct PlainFile {
    file: File,
}

impl PlainFile {
    /// The file at a path, which is made where it isn't there.
    ///
    /// # Errors
    ///
    /// It can't be opened, another process has it, or memory has run out.
    pub fn open(rt: &HostRuntime, path: &str) -> Result<PlainFile, NotesFault> {
        let file = OpenOptions::new()
            .read(true)
            .write(true)
            .create(true)
            .mode(MODE)
            .open(rt, path)?;
        if file.try_lock().is_err() {
            return Err(NotesFault::Refused);
        }
        Ok(PlainFile { file })
    }
}

/// What a file of the system holds isn't known, so no clause is said of it.
impl NotesFile for PlainFile {
    ghost holds = { λ _ _. ⊥ };

    fn read_all(&mut self, alloc: Global) -> io::Result<Vec<u8>> {
        let mut bytes = Vec::new(alloc);
        self.file.read_to_end(&mut bytes)?;
        Ok(bytes)
    }

    fn write_at(&mut self, bytes: &[u8], at: u64) -> io::Result<()> {
        self.file.write_all_at(bytes, at)
    }

    fn clear(&mut self) -> io::Result<()> {
        self.file.set_len(0)
    }
}
