//! A table whose text is loaded.
//!
//! PostgreSQL documentation, COPY, File Formats, Text Format.

ghost use Rattle.std.specs.Prelude.{◌≡◌, ◌≤◌, ◌<◌, ◌++◌, [], ℕ, List, length, OnOk, IfOk, IfSome};
ghost use Rattle.std.specs.Prelude.{MatchResult};
ghost use Rattle.pgcopy.specs.Copied.{fresh};
ghost use Rattle.pglogical.specs.Spelling.{IsDefinition};
ghost use Rattle.pgapply.specs.Apply.{Change};
ghost use Rattle.pgload.specs.Loads.{TableText, format_of, rows_of, inserts, IsWholeText};
ghost use Rattle.pgload.specs.Faults.{text_fault};
ghost use Rattle.pgload.specs.Loading.{with_text, taken_of, HasTaken, IsLoading, TextStops};

use crate::batch::store_rows;
use crate::fault::LoadFault;
use pgapply::ReplicaStore;
use pgcopy::{CopyFault, CopyReader, Fed};
use pglogical::RelationDef;
use std::alloc::Global;
use std::marker::Model;

/// A table whose text goes on, with the rows that wait to be stored.
#[derive(Drop)]
pub(crate) struct OpenTable {
    definition: RelationDef,
    reader: CopyReader,
    rows: Vec<u8>,
}

impl Model for OpenTable {
    ghost use Rattle.pglogical.specs.Spelling.{IsDefinition};
    ghost use Rattle.pgload.specs.Loading.{Opened};

    ghost Value = { Opened };

    ghost view = { λ t. record {
      definition = t.definition;
      reader = t.reader;
      rows = t.rows.items;
    } };

    ghost invariant = { λ t. IsDefinition t.definition };
}

impl OpenTable {
    /// A table of which no text has come.
    pub fn new(alloc: Global, definition: RelationDef, max_line: u32) -> OpenTable
        requires definition { IsDefinition definition }
        requires max_line { max_line ≤ 2147483647 }
        ensures definition { result.definition ≡ definition }
        ensures reader { result.reader ≡ fresh (format_of max_line definition) }
        ensures rows { result.rows ≡ [] }
    {
        let reader = CopyReader::new(alloc, definition.columns.len() as u16, max_line);
        OpenTable {
            definition,
            reader,
            rows: Vec::new(alloc),
        }
    }

    /// Stores the rows that wait.
    fn store<C: ReplicaStore>(&mut self, alloc: Global, store: &mut C) -> Result<(), LoadFault>
        ensures goes { (max_line : ℕ) (before : List Change) (table : TableText) →
            IsLoading C.holds C.place C.reopens C.serves C.is_honest max_line before table store.old
            self.old → MatchResult result
            (λ _. IsLoading C.holds C.place C.reopens C.serves C.is_honest max_line before table
            store.new self.new)
            (λ fault. (more : List ℕ) → TextStops C.holds C.place C.reopens C.serves C.is_honest
            max_line before (with_text table more) store.new fault) }
        ensures stored { OnOk result (self.new.rows ≡ []) }
        ensures same { self.new.reader ≡ self.old.reader }
        ensures definition { self.new.definition ≡ self.old.definition }
        ensures honest { C.is_honest store.new → C.is_honest store.old }
    {
        store_rows(alloc, store, &self.definition, self.rows.as_slice())?;
        self.rows.clear();
        Ok(())
    }

    /// Reads from the front of a piece to the end of a row, and stores the rows that wait where
    /// they are more than a batch. Returns how many bytes were taken, or None where the piece is
    /// used up.
    fn read_row<C: ReplicaStore>(
        &mut self,
        alloc: Global,
        store: &mut C,
        batch: usize,
        piece: &[u8],
    ) -> Result<Option<usize>, LoadFault>
        ensures goes { (max_line : ℕ) (before : List Change) (table : TableText) →
            IsLoading C.holds C.place C.reopens C.serves C.is_honest max_line before table store.old
            self.old → MatchResult result
            (λ taken. IsLoading C.holds C.place C.reopens C.serves C.is_honest max_line before
            (with_text table (taken_of taken piece.now)) store.new self.new)
            (λ fault. TextStops C.holds C.place C.reopens C.serves C.is_honest max_line before
            (with_text table piece.now) store.new fault) }
        ensures some { IfOk result (λ taken. IfSome taken
            (λ n. (0 < n) × (n ≤ length piece.now))) }
        ensures batch { length self.old.rows ≤ batch → OnOk result
            (length self.new.rows ≤ batch) }
        ensures honest { C.is_honest store.new → C.is_honest store.old }
    {
        match self.reader.feed(piece, &mut self.rows) {
            Ok(Fed::Waits) => Ok(None),
            Ok(Fed::Row(taken)) => {
                if self.rows.as_slice().len() > batch {
                    self.store(alloc, store)?;
                }
                Ok(Some(taken))
            }
            Ok(Fed::Ended(_)) => Err(LoadFault::Marker(self.definition.oid)),
            Err(fault) => Err(text_fault(self.definition.oid, fault)),
        }
    }

    /// Reads a piece of the text, and stores what of its rows is more than a batch.
    pub fn read<C: ReplicaStore>(
        &mut self,
        alloc: Global,
        store: &mut C,
        batch: usize,
        piece: &[u8],
    ) -> Result<(), LoadFault>
        ensures goes { (max_line : ℕ) (before : List Change) (table : TableText) →
            IsLoading C.holds C.place C.reopens C.serves C.is_honest max_line before table store.old
            self.old → MatchResult result
            (λ _. IsLoading C.holds C.place C.reopens C.serves C.is_honest max_line before
            (with_text table piece.now) store.new self.new)
            (λ fault. TextStops C.holds C.place C.reopens C.serves C.is_honest max_line before
            (with_text table piece.now) store.new fault) }
        ensures batch { length self.old.rows ≤ batch → OnOk result
            (length self.new.rows ≤ batch) }
        ensures honest { C.is_honest store.new → C.is_honest store.old }
    {
        let mut read = 0;
        while let Some(taken) = self.read_row(alloc, store, batch, &piece[read..])? {
            read += taken;
        }
        Ok(())
    }

    /// Ends the text, and stores the rows that wait.
    pub fn end<C: ReplicaStore>(mut self, alloc: Global, store: &mut C) -> Result<(), LoadFault>
        ensures goes { (max_line : ℕ) (before : List Change) (table : TableText) →
            IsLoading C.holds C.place C.reopens C.serves C.is_honest max_line before table store.old
            self → MatchResult result
            (λ _. IsWholeText max_line table × HasTaken C.holds C.place C.reopens C.serves
            C.is_honest (before ++ inserts table.definition (rows_of max_line table)) store.new)
            (λ fault. TextStops C.holds C.place C.reopens C.serves C.is_honest max_line before table
            store.new fault) }
        ensures honest { C.is_honest store.new → C.is_honest store.old }
    {
        if !self.reader.is_whole() {
            return Err(LoadFault::CutLine(self.definition.oid));
        }
        if !self.rows.as_slice().is_empty() {
            self.store(alloc, store)?;
        }
        Ok(())
    }
}

// What is wrong with a line of the table with this OID.
fn text_fault(oid: u32, fault: CopyFault) -> LoadFault
    ensures { result ≡ text_fault oid fault }
{
    match fault {
        CopyFault::Line(number, reason) => LoadFault::Line(oid, number, reason),
        CopyFault::Memory => LoadFault::Memory,
    }
}
