//! COPY text in any pieces, as rows.

ghost use Rattle.std.specs.Prelude.{◌≡◌, ◌≤◌, ◌↔◌, ◌++◌, ◌∷◌, ◌==◌, ℕ, List, [], Some, length};
ghost use Rattle.std.specs.Prelude.{OnOk, OnErr, IsTrue};
ghost use Rattle.std.specs.List.{position};
ghost use Rattle.pgtuple.specs.Limits.{max_int32, max_columns};
ghost use Rattle.pgcopy.specs.Reading.{newline, Open};
ghost use Rattle.pgcopy.specs.Copied.{fresh, reading_behind, IsFed, IsPartLine, IsOpen, NoNewline};
ghost use Rattle.pgcopy.specs.Read.{IsLineRead};

use crate::fault::{CopyFault, Reason, RowFault};
use crate::fed::Fed;
use crate::row::read_line;
use std::alloc::Global;
use std::marker::Model;

/// Reads the text of one `COPY .. TO STDOUT`, in whatever pieces it comes. Between two calls it
/// holds less than a line.
///
/// PostgreSQL documentation, COPY, File Formats, Text Format.
#[derive(Drop)]
pub struct CopyReader {
    columns: u16,
    max_line: u32,
    // the number of the next line
    number: u64,
    held: Vec<u8>,
    // the end-of-data marker has come
    marked: bool,
    fault: Option<Reason>,
}

impl Model for CopyReader {
    ghost use Rattle.pgcopy.specs.Copied.{Copied};

    ghost Value = { Copied };

    ghost use Rattle.pgcopy.specs.Held.{IsSound};

    ghost view = { λ r. record {
      format = record { columns = r.columns; max_line = r.max_line };
      number = r.number;
      held = r.held.items;
      marked = r.marked;
      fault = r.fault;
    } };

    ghost invariant = { λ r. IsSound r.columns r.max_line r.held.items };
}

impl CopyReader {
    /// A reader of rows of so many columns, in lines of at most `max_line` bytes.
    pub fn new(alloc: Global, columns: u16, max_line: u32) -> CopyReader
        requires columns { columns ≤ max_columns }
        requires max_line { max_line ≤ max_int32 }
        ensures { result ≡ fresh (record { columns = columns; max_line = max_line }) }
    {
        CopyReader {
            columns,
            max_line,
            number: 1,
            held: Vec::new(alloc),
            marked: false,
            fault: None,
        }
    }

    /// Takes bytes from the front of the piece until a row is whole, the end-of-data marker has
    /// come or the piece is used up. The row is added to `rows` in the encoding of TupleData, which
    /// `pgtuple::decode_ref` borrows. What is wrong with a line is returned from then on; out of
    /// memory changes nothing.
    pub fn feed(&mut self, piece: &[u8], rows: &mut Vec<u8>) -> Result<Fed, CopyFault>
        ensures fed { IsFed self.old piece.now rows.old.items result self.new rows.new.items }
        ensures held { IsPartLine self.new.format.max_line self.new.held }
        ensures format { self.new.format ≡ self.old.format }
    {
        if let Some(reason) = self.fault {
            return Err(CopyFault::Line(self.number, reason));
        }
        if self.marked {
            return Ok(Fed::Ended(0));
        }
        match line_end(piece) {
            Some(end) => self.end_line(&piece[..end], rows),
            None => self.hold(piece),
        }
    }

    /// Whether the bytes so far are whole lines, each of them a row.
    pub fn is_whole(&self) -> bool
        ensures { IsTrue result ↔ ((reading_behind self.now []).end ≡ Open []) }
    {
        match self.fault {
            Some(_) => false,
            None => !self.marked && self.held.as_slice().is_empty(),
        }
    }

    // Holds a part of a line.
    fn hold(&mut self, part: &[u8]) -> Result<Fed, CopyFault>
        requires state { IsOpen self.old }
        requires part { NoNewline part.now }
        ensures fed { (rows : List ℕ) → IsFed self.old part.now rows result self.new rows }
        ensures held { IsPartLine self.new.format.max_line self.new.held }
        ensures format { self.new.format ≡ self.old.format }
    {
        if part.len() > self.max_line as usize - self.held.len() {
            return Err(self.refuse(Reason::TooLong));
        }
        self.held.extend_from_slice(part)?;
        Ok(Fed::Waits)
    }

    // Ends a line with the bytes before its newline.
    fn end_line(&mut self, front: &[u8], rows: &mut Vec<u8>) -> Result<Fed, CopyFault>
        requires state { IsOpen self.old }
        requires front { NoNewline front.now }
        ensures fed { (behind : List ℕ) → IsFed self.old (front.now ++ newline ∷ behind)
            rows.old.items result self.new rows.new.items }
        ensures held { IsPartLine self.new.format.max_line self.new.held }
        ensures format { self.new.format ≡ self.old.format }
    {
        if front.len() > self.max_line as usize - self.held.len() {
            return Err(self.refuse(Reason::TooLong));
        }
        match read_behind(&mut self.held, front, self.columns, rows) {
            Ok(true) => {
                self.number = self.number.saturating_add(1);
                Ok(Fed::Row(front.len() + 1))
            }
            Ok(false) => {
                self.marked = true;
                Ok(Fed::Ended(front.len() + 1))
            }
            Err(RowFault::Bad(reason)) => Err(self.refuse(reason)),
            Err(RowFault::Memory) => Err(CopyFault::Memory),
        }
    }

    // Keeps what is wrong with the next line.
    fn refuse(&mut self, reason: Reason) -> CopyFault
        ensures fault { result ≡ CopyFault.Line self.old.number reason }
        ensures kept { self.new ≡ record self.old { fault = Some reason } }
    {
        self.fault = Some(reason);
        CopyFault::Line(self.number, reason)
    }
}

// The place of the first newline.
fn line_end(piece: &[u8]) -> Option<usize>
    ensures { result ≡ position (λ byte. byte == 10) piece.now }
{
    piece.iter().position(|byte| *byte == b'\n')
}

// Reads the line that ends with these bytes behind those that are held, which it forgets then.
fn read_behind(
    held: &mut Vec<u8>,
    front: &[u8],
    columns: u16,
    rows: &mut Vec<u8>,
) -> Result<bool, RowFault>
    requires columns { columns ≤ max_columns }
    requires line { length (held.old.items ++ front.now) ≤ max_int32 }
    ensures read { IsLineRead columns (held.old.items ++ front.now) rows.old.items
        result rows.new.items }
    ensures ok { OnOk result (held.new.items ≡ []) }
    ensures err { OnErr result (held.new.items ≡ held.old.items) }
{
    if held.is_empty() {
        return read_line(rows, columns, front);
    }
    let before = held.len();
    held.extend_from_slice(front)?;
    match read_line(rows, columns, held.as_slice()) {
        Ok(is_row) => {
            held.clear();
            Ok(is_row)
        }
        Err(fault) => {
            held.truncate(before);
            Err(fault)
        }
    }
}
