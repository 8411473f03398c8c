//! Tells of changes that found no row, as soon as their commits are stored.

ghost use Rattle.std.specs.Prelude.{◌≡◌, Some};
ghost use Rattle.pgsub_cli.specs.MissedLines.{HearsMissed, TellsMissed, missed_line};

use crate::files::Output;
use crate::reported::{Listener, Settling};
use pgapply::Miss;
use std::alloc::Global;
use std::fmt;

/// So many changes found no row, of which this is the first.
#[derive(Clone, Copy)]
struct MissedLine {
    count: u64,
    first: Miss,
}

impl fmt::Display for MissedLine {
    ghost output = { λ line. Some (missed_line line.count line.first) };

    fn fmt<W: fmt::Write>(&self, f: &mut fmt::Formatter<W>) -> fmt::Result {
        let (count, oid, end) = (self.count, self.first.oid, self.first.end);
        writeln!(
            f,
            "pgsub: rows not found: {count}, first in relation {oid} at {end}"
        )
    }
}

/// Writes a line whenever more changes found no row: how many did since the store was opened, and
/// the relation and the end LSN of the first one's commit.
#[derive(Drop)]
pub struct MissedLines<E: Output + Drop> {
    alloc: Global,
    err: E,
    told: u64,
}

impl<E: Output + Drop> MissedLines<E> {
    /// One that has told of none.
    pub fn new(alloc: Global, err: E) -> MissedLines<E>
        ensures err { result.err ≡ err }
        ensures told { result.told ≡ 0 }
    {
        MissedLines {
            alloc,
            err,
            told: 0,
        }
    }

    /// Writes the line of so many. Where there is no memory for it, or it can't be written, the
    /// next settling tells.
    fn tell(&mut self, count: u64, first: Miss)
        ensures { TellsMissed E.takes E.failed count first self.old.told self.new.told self.old.err
            self.new.err }
    {
        let Ok(line) = format!(in self.alloc; "{}", MissedLine { count, first }) else {
            return;
        };
        if self.err.write_lines(line.as_str()).is_ok() {
            self.told = count;
        }
    }
}

impl<E: Output + Drop> Listener for MissedLines<E> {
    ghost hears = { λ old settling new. HearsMissed E.takes E.failed settling.misses old.told
        new.told old.err new.err };

    fn hear(&mut self, settling: &Settling) {
        let count = settling.misses.count;
        match settling.misses.first {
            Some(first) if count > self.told => self.tell(count, first),
            _ => {}
        }
    }
}
