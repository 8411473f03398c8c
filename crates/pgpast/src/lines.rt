//! What is told of noted commits.

ghost use Rattle.std.specs.Prelude.{◌≡◌, ⊤, IfOk, Some, string_bytes};
ghost use Rattle.pgpast.specs.Telling.{counts_line, counts_text, notes_line, status_of_notes};

use crate::comparing::RepeatListener;
use crate::fault::NotesFault;
use pgcompared::Finding;
use std::alloc::{AllocError, Global};
use std::fmt;
use std::io::Write;

/// How many commits came before, of how many nothing was known, and how many were forgotten.
#[derive(Clone, Copy, Debug, PartialEq, Eq)]
pub struct Counts {
    pub equal: u64,
    pub unknown: u64,
    pub forgotten: u64,
}

impl fmt::Display for Counts {
    ghost output = { λ counts. Some (counts_text counts) };

    fn fmt<W: fmt::Write>(&self, f: &mut fmt::Formatter<W>) -> fmt::Result {
        let (equal, unknown, forgotten) = (self.equal, self.unknown, self.forgotten);
        write!(f, "{equal} equal, {unknown} unknown, {forgotten} forgotten")
    }
}

/// The line of how many commits came before.
pub fn counts_line(alloc: Global, counts: Counts) -> Result<String, AllocError>
    ensures { IfOk result (λ line. string_bytes line ≡ counts_line counts) }
{
    format!(in alloc; "pgsub: repeats: {counts}\n")
}

/// The line of why the file of noted commits with this path can't be used.
pub fn notes_line(alloc: Global, path: &str, fault: NotesFault) -> Result<String, AllocError>
    ensures { IfOk result (λ line. string_bytes line ≡ notes_line path.now fault) }
{
    match fault {
        NotesFault::Memory => String::from_str(alloc, "pgsub: memory\n"),
        _ => format!(in alloc; "pgsub: repeats: can't use {path}: {fault}\n"),
    }
}

/// The exit status then: 14 where memory has run out, else 3.
pub fn notes_status(fault: NotesFault) -> u8
    ensures { result ≡ status_of_notes fault }
{
    match fault {
        NotesFault::Memory => 14,
        _ => 3,
    }
}

/// Writes a line for each finding, and one where commits can't be noted any more.
#[derive(Drop)]
pub struct RepeatLines<E: Write + Drop> {
    alloc: Global,
    err: E,
    path: String,
}

impl<E: Write + Drop> RepeatLines<E> {
    /// One that has told of none, of the file with this path.
    ///
    /// # Errors
    ///
    /// Memory has run out.
    pub fn new(alloc: Global, err: E, path: &str) -> Result<RepeatLines<E>, AllocError>
        ensures err { IfOk result (λ it. it.err ≡ err) }
        ensures path { IfOk result (λ it. string_bytes it.path ≡ path.now) }
    {
        let path = String::from_str(alloc, path)?;
        Ok(RepeatLines { alloc, err, path })
    }
}

/// What a writer takes isn't known, so no clause is said of it.
impl<E: Write + Drop> RepeatListener for RepeatLines<E> {
    ghost hears = { λ _ _ _. ⊤ };

    ghost loses = { λ _ _. ⊤ };

    fn hear(&mut self, found: &Finding) {
        let found = *found;
        if let Ok(line) = format!(in self.alloc; "pgsub: repeats: {found}\n") {
            let _ = self.err.write_all(line.as_bytes());
        }
    }

    fn hear_unkept(&mut self) {
        let path = self.path.as_str();
        if let Ok(line) = format!(in self.alloc; "pgsub: repeats: can't write {path}: not kept\n") {
            let _ = self.err.write_all(line.as_bytes());
        }
    }
}
