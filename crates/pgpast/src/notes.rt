//! The commits that are noted in a file.

ghost use Rattle.std.specs.Prelude.{◌≡◌, ◌<◌, ℕ, List, [], IfOk, OnOk, OnErr, Some, true, false};
ghost use Rattle.std.specs.Prelude.{length};
ghost use Rattle.pgpast.specs.Noting.{IsAdded, IsBegun, IsKept, IsLoaded, head};
ghost use Rattle.pgpast.specs.Records.{written};

use crate::fault::NotesFault;
use crate::file::NotesFile;
use crate::loading::{HEAD, Loaded, is_noted, is_unmade, place_of, slot_behind};
use crate::record::{RECORD_LEN, Record};
use pglsn::Lsn;
use pgrepeats::{Commit, Past};
use std::alloc::Global;
use std::fmt;

/// How many commits a file held, up to where, and how many of its records can't be read.
#[derive(Clone, Copy, Debug, PartialEq, Eq)]
pub struct Found {
    pub count: usize,
    pub newest: Lsn,
    pub unreadable: u64,
}

impl fmt::Display for Found {
    fn fmt<W: fmt::Write>(&self, f: &mut fmt::Formatter<W>) -> fmt::Result {
        let (count, newest, unreadable) = (self.count, self.newest, self.unreadable);
        write!(f, "{count} commits are noted, up to {newest}")?;
        if unreadable > 0 {
            write!(f, ", {unreadable} records unreadable")?;
        }
        Ok(())
    }
}

/// A file in which commits are noted, each behind the one before it.
#[derive(Drop)]
pub struct Notes<F: NotesFile + Drop> {
    file: F,
    /// The bytes of the record that was written last.
    bytes: Vec<u8>,
    /// The slot of the next record.
    next: usize,
    /// The CRC of the newest one, 0 of none.
    newest: u32,
    /// Whether commits are still noted.
    is_kept: bool,
    ghost in_ring: { next < 65536 },
}

/// A file of noted commits that was opened.
#[derive(Drop)]
pub struct Opened<F: NotesFile + Drop> {
    pub notes: Notes<F>,
    /// It has heard the commits that the file held.
    pub past: Past,
    /// How many records of the file can't be read.
    pub unreadable: u64,
}

impl<F: NotesFile + Drop> Opened<F> {
    /// What it was found to hold.
    pub fn found(&self) -> Found
        ensures count { result.count ≡ length self.now.past.commits }
        ensures newest { result.newest ≡ self.now.past.newest }
        ensures unreadable { result.unreadable ≡ self.now.unreadable }
    {
        Found {
            count: self.past.len(),
            newest: Lsn(self.past.newest()),
            unreadable: self.unreadable,
        }
    }
}

// Whether a file with these bytes has to be begun: none with a head is.
fn has_to_begin(bytes: &[u8]) -> Result<bool, NotesFault> {
    if is_noted(bytes) {
        Ok(false)
    } else if is_unmade(bytes) {
        Ok(true)
    } else {
        Err(NotesFault::Foreign)
    }
}

impl<F: NotesFile + Drop> Notes<F> {
    /// Opens a file, which is made one of noted commits where it is empty.
    ///
    /// # Errors
    ///
    /// `Foreign` where it holds something else, `Refused` where it can't be read or written, and
    /// `Memory`.
    pub fn open(alloc: Global, mut file: F) -> Result<Opened<F>, NotesFault>
        ensures { (bytes : List ℕ) → F.holds file bytes →
            IfOk result (λ it. IsLoaded bytes it.past it.notes.newest) }
    {
        let bytes = file.read_all(alloc)?;
        let begins = has_to_begin(bytes.as_slice())?;
        let loaded = Loaded::of(alloc, bytes.as_slice())?;
        let past = loaded.past(alloc)?;
        if begins {
            begin(&mut file)?;
        }
        Ok(Opened {
            notes: Notes {
                file,
                bytes: Vec::with_capacity(alloc, RECORD_LEN)?,
                next: loaded.next,
                newest: loaded.newest,
                is_kept: true,
            },
            past,
            unreadable: loaded.unreadable,
        })
    }

    /// The file.
    pub fn into_file(self) -> F
        ensures { result ≡ self.file }
    {
        self.file
    }

    // Leaves no record.
    fn restart(&mut self) -> Result<(), NotesFault>
        ensures ok { OnOk result (IsBegun F.holds self.old.file self.new.file self.new.next
            self.new.newest) }
        ensures kept { self.new.is_kept ≡ self.old.is_kept }
    {
        begin(&mut self.file)?;
        self.next = 0;
        self.newest = 0;
        Ok(())
    }

    // Notes a commit behind the newest one.
    fn note(&mut self, commit: Commit) -> Result<(), NotesFault>
        ensures ok { OnOk result (IsAdded F.holds self.old.file self.old.next self.old.newest
            commit self.new.file self.new.next self.new.newest) }
        ensures kept { self.new.is_kept ≡ self.old.is_kept }
    {
        let record = Record::write(&mut self.bytes, commit, self.newest)?;
        self.file
            .write_at(self.bytes.as_slice(), place_of(self.next))?;
        self.next = slot_behind(self.next);
        self.newest = record.crc;
        Ok(())
    }

    fn write(&mut self, forgot: bool, noted: Option<Commit>) -> Result<(), NotesFault>
        ensures ok { OnOk result (IsKept F.holds self.old.file self.old.next self.old.newest
            forgot noted self.new.file self.new.next self.new.newest) }
        ensures kept { self.new.is_kept ≡ self.old.is_kept }
    {
        if forgot {
            self.restart()?;
        }
        match noted {
            Some(commit) => self.note(commit),
            None => Ok(()),
        }
    }

    /// Forgets all where that is so, and notes a commit if there is one. Once it can't, nothing
    /// more is written.
    ///
    /// # Errors
    ///
    /// It couldn't, for the first time.
    pub fn keep(&mut self, forgot: bool, noted: Option<Commit>) -> Result<(), NotesFault>
        ensures ok { self.old.is_kept ≡ true → OnOk result ((self.new.is_kept ≡ true)
            × IsKept F.holds self.old.file self.old.next self.old.newest
            forgot noted self.new.file self.new.next self.new.newest) }
        ensures err { OnErr result ((self.old.is_kept ≡ true) × (self.new.is_kept ≡ false)) }
        ensures ended { self.old.is_kept ≡ false → self.new ≡ self.old }
    {
        if !self.is_kept {
            return Ok(());
        }
        let Err(fault) = self.write(forgot, noted) else {
            return Ok(());
        };
        self.is_kept = false;
        // (what is left is right without it: it lacks the newest commits)
        let _left = self.file.clear();
        Err(fault)
    }
}

// Leaves no record in a file.
fn begin<F: NotesFile>(file: &mut F) -> Result<(), NotesFault>
    ensures { OnOk result ((bytes : List ℕ) → F.holds file.old bytes →
        F.holds file.new (written [] 0 head)) }
{
    file.clear()?;
    file.write_at(HEAD, 0)?;
    Ok(())
}
