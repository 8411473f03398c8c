//! Tells of noted commits.

ghost use Rattle.std.specs.Prelude.{◌≡◌, ℕ, List, IfOk, string_bytes};
ghost use Rattle.pginputs.specs.Serving.{TellsLine};
ghost use Rattle.pgpast.specs.Telling.{counts_line, notes_line, status_of_notes};

use pgpast::{Counts, NotesFault, counts_line, notes_line, notes_status};
use pgsub_cli::files::Output;
use std::alloc::{AllocError, Global};

/// Writes a line, or that there is no memory for it. Where standard error can't be written, the
/// status alone tells.
fn write<E: Output>(line: Result<String, AllocError>, err: &mut E)
    ensures { (text : List ℕ) → IfOk line (λ it. string_bytes it ≡ text) →
        TellsLine E.takes E.failed text err.old err.new }
{
    let _ = match line {
        Ok(line) => err.write_lines(line.as_str()),
        Err(AllocError) => err.write_lines("pgsub: memory\n"),
    };
}

/// Tells why a file of noted commits can't be used. Returns the exit status: 14 where memory has
/// run out, else 3.
pub fn tell_notes<E: Output>(alloc: Global, path: &str, fault: NotesFault, err: &mut E) -> u8
    ensures status { result ≡ status_of_notes fault }
    ensures tells { TellsLine E.takes E.failed (notes_line path.now fault) err.old err.new }
{
    write(notes_line(alloc, path, fault), err);
    notes_status(fault)
}

/// Tells how many commits came before.
pub fn tell_counts<E: Output>(alloc: Global, counts: Counts, err: &mut E)
    ensures { TellsLine E.takes E.failed (counts_line counts) err.old err.new }
{
    write(counts_line(alloc, counts), err);
}
