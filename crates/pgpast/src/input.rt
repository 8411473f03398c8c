//! Standard input as the program compares it with the commits that a file has noted.

ghost use Rattle.std.specs.Prelude.{◌≡◌, [], IfOk, None, min, string_bytes};
ghost use Rattle.pgcompared.specs.Live.{IsCompared};
ghost use Rattle.pgpast.specs.Handing.{part_of};
ghost use Rattle.pgrepeats.specs.declared.past.Past.{Past};

use crate::comparing::Comparing;
use crate::fault::NotesFault;
use crate::file::PlainFile;
use crate::lines::RepeatLines;
use crate::notes::Notes;
use pgcompared::Compared;
use pgorder::Version;
use std::cell::Cell;
use std::rt::{Stderr, Stdin};

/// The longest payload of a frame: its length counts four bytes of its own, and fits 31 bits.
const LONGEST_FRAME: u32 = 2_147_483_643;

/// Of how many changes of subtransactions of one streamed transaction it is held whose they are.
const COMPARED_LIMIT: u64 = 1_000_000;

/// Standard input, whose commits are compared with those that are noted in a file. The cell has the
/// store's position, once that is open.
pub type ComparedInput<'p> = Comparing<Stdin, PlainFile, RepeatLines<Stderr>, &'p Cell<u64>>;

/// Opens the file in which commits are noted, and tells how many it holds. What comes is of this
/// version of the protocol, and its payloads have so many bytes at most. With `stops` it ends at a
/// contradiction.
///
/// What the file holds, and what standard error gets, no clause can say: they are the system's.
///
/// # Errors
///
/// The file can't be used, or memory has run out.
pub fn compared_input<'p>(
    rt: &HostRuntime,
    path: &str,
    version: Version,
    max_frame: u32,
    stops: bool,
    position: &'p Cell<u64>,
) -> Result<ComparedInput<'p>, NotesFault>
    ensures compared { IfOk result (λ it. (past : Past)
        × IsCompared version 1000000 (min max_frame 2147483643) past 0 [] it.compared []) }
    ensures unread { IfOk result (λ it. (it.reached ≡ None) × (it.stops ≡ stops)
        × (part_of it.room.items it.from it.len ≡ [])) }
    ensures store { IfOk result (λ it. it.store ≡ position.entry) }
    ensures told { IfOk result (λ it. string_bytes it.listener.path ≡ path.now) }
{
    let alloc = rt.alloc();
    let opened = Notes::open(alloc, PlainFile::open(rt, path)?)?;
    let found = opened.found();
    let _ = eprintln!(rt; "pgsub: repeats: {found}");
    let max_frame = max_frame.min(LONGEST_FRAME);
    let compared = Compared::new(alloc, version, max_frame, COMPARED_LIMIT, opened.past);
    let lines = RepeatLines::new(alloc, rt.stderr(), path)?;
    let notes = opened.notes;
    let input = Comparing::new(alloc, rt.stdin(), lines, position, compared, notes, stops)?;
    Ok(input)
}
