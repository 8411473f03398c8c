//! The rows of a store as they are read.
//!
//! PostgreSQL documentation, Logical Replication Message Formats, TupleData; Relation: an empty
//! namespace means `pg_catalog`.

ghost use Rattle.std.specs.Prelude.{◌≡◌, ◌≢◌, List, IsTrue, Ok, Err, OnOk, IfOk, IfErr, IfSome};
ghost use Rattle.std.specs.Prelude.{Some, None, true, false, ◌⊎◌, string_bytes};
ghost use Rattle.sqlite.specs.State.{HasCleanDisk};
ghost use Rattle.sqlite.specs.Order as sql;
ghost use Rattle.sqlite_trees.specs.declared.error.StoreError.{StoreError};
ghost use Rattle.sqlite_value.specs.Value.{owned};
ghost use Rattle.sqlite.specs.declared.types.Value.TheVariants.{Blob};
ghost use Rattle.sqlite.specs.declared.types.FromSqlError.TheVariants.{OutOfMemory};
ghost use Rattle.pgtuple.specs.declared.cell.Cell.{Cell};
ghost use Rattle.pgtuple.specs.Cells.{tuple_spelling};
ghost use Rattle.pgtuple.specs.Limits.{IsWireTuple};
ghost use Rattle.pgapply.specs.Value.{Tables};
ghost use Rattle.pgapply.specs.Stored.{IsOwnFault};
ghost use Rattle.pgapply.specs.Dump.{dump, shown_namespace};
ghost use Rattle.pgrows.specs.Rows.{IfServing, state, tables_of};
ghost use Rattle.pgencoded.specs.Acts.{Goes};
ghost use Rattle.pgencoded.specs.SqlFault.{IsRefusal};
ghost use Rattle.pgdumping.specs.DumpRead.{IsReadFrom, IsWritten, IsLeft};
ghost use Rattle.pgapply.specs.Given.{GivesAll, GivesFront};
ghost use Rattle.pgencoded.specs.Spelled.{IsStored};

use pgapply::{DumpRow, DumpSink, StoreFault};
use pgencoded::{Refusal, read_tuple};
use pgrows::{RowSink, Rows};
use pgtuple::{Text, Tuple};
use sqlite::Alter;
use sqlite::types::{FromSql, FromSqlError, ValueRef};
use sqlite_trees::error::StoreError;
use sqlite_value::row::Row;
use std::alloc::{AllocError, Global};

/// The tuple that a value encodes.
fn read_cells(alloc: Global, value: ValueRef<'_>) -> Result<Tuple, FromSqlError>
    ensures read { IfOk result (λ tuple. (cells : List Cell) → IsWireTuple cells →
        owned value.entry ≡ Blob (tuple_spelling cells) → tuple ≡ cells) }
    ensures memory { (cells : List Cell) → IsWireTuple cells →
        owned value.entry ≡ Blob (tuple_spelling cells) →
        IfErr result (λ error. error ≡ OutOfMemory) }
{
    let ValueRef::Blob(bytes) = value else {
        return Err(FromSqlError::InvalidType);
    };
    let Ok(tuple) = read_tuple(bytes) else {
        return Err(FromSqlError::InvalidType);
    };
    tuple.to_tuple(alloc).map_err(|_| FromSqlError::OutOfMemory)
}

/// The namespace as it is shown.
fn show_namespace(alloc: Global, sent: String) -> Result<Text, AllocError>
    ensures { IfOk result (λ shown. shown ≡ shown_namespace (string_bytes sent)) }
{
    if sent.is_empty() {
        return Ok(Text::from_string(String::from_str(alloc, "pg_catalog")?));
    }
    Ok(Text::from_string(sent))
}

/// The row that is shown. For one that a store writes the one error is out of memory.
fn read_row(alloc: Global, row: &Row) -> Result<DumpRow, FromSqlError>
    ensures read { IfOk result (IsReadFrom row.now) }
    ensures memory { IsWritten row.now → IfErr result (λ error. error ≡ OutOfMemory) }
{
    Ok(DumpRow {
        oid: u32::column_result(alloc, row.get(0))?,
        namespace: show_namespace(alloc, String::column_result(alloc, row.get(1))?)?,
        name: Text::from_string(String::column_result(alloc, row.get(2))?),
        cells: read_cells(alloc, row.get(3))?,
        copies: u32::column_result(alloc, row.get(4))?,
    })
}

/// Reads rows for a sink, and tells why it reads no more.
#[derive(Drop)]
struct Reading<T: DumpSink + Drop> {
    alloc: Global,
    sink: T,
    fault: Option<StoreFault>,
}

impl<T: DumpSink + Drop> Reading<T> {
    /// How reading ended, by what the trees returned: all rows were read, or the sink accepted no
    /// more, or why no more were read. A row that isn't read was out of memory, or is none that a
    /// store writes.
    fn ending(&self, read: Result<bool, StoreError>) -> Result<bool, StoreFault>
        ensures all { result ≡ Ok true → read ≡ Ok true }
        ensures stopped { result ≡ Ok false → (read ≡ Ok false) × (self.now.fault ≡ None) }
        ensures refusal { IfErr result IsRefusal }
        ensures told { IfErr result (λ fault. ((error : StoreError) × (read ≡ Err error)
            × IsOwnFault fault) ⊎ ((read ≡ Ok false) × (self.now.fault ≢ None)
            × (fault ≡ StoreFault.NotAStore → self.now.fault ≡ Some StoreFault.NotAStore))) }
    {
        match (read, self.fault) {
            (Ok(true), _) => Ok(true),
            (Ok(false), None) => Ok(false),
            (Ok(false), Some(StoreFault::NotAStore)) => Err(StoreFault::NotAStore),
            (Ok(false), Some(_)) => Err(StoreFault::Memory),
            (Err(error), _) => Err(StoreFault::from(Refusal::from(error))),
        }
    }

    /// Notes why a row isn't read.
    fn stop(&mut self, error: FromSqlError)
        ensures sink { self.new.sink ≡ self.old.sink }
        ensures left { (shown : sql.Row) → (IsWritten shown → error ≡ OutOfMemory) →
            IfSome self.new.fault (IsLeft shown) }
        ensures some { self.new.fault ≢ None }
    {
        self.fault = match error {
            FromSqlError::OutOfMemory => Some(StoreFault::Memory),
            _ => Some(StoreFault::NotAStore),
        };
    }
}

impl<T: DumpSink + Drop> RowSink for Reading<T> {
    ghost use Rattle.std.specs.Prelude.{◌≡◌, List, MatchOption};
    ghost use Rattle.std.specs.List.{AllZip};
    ghost use Rattle.pgapply.specs.declared.rows.DumpRow.{DumpRow as Read};
    ghost use Rattle.pgdumping.specs.DumpRead.{IsReadFrom, IsLeft};

    ghost has_taken = { λ start reading shown. (rows : List Read) × AllZip IsReadFrom shown rows
        × T.DumpSink.has_taken start.sink reading.sink rows };

    ghost has_left = { λ reading shown. MatchOption reading.fault
        (T.DumpSink.has_stopped reading.sink) (IsLeft shown) };

    fn take(&mut self, row: &Row) -> bool {
        match read_row(self.alloc, row) {
            Ok(read) => {
                self.fault = None;
                self.sink.take(read)
            }
            Err(error) => {
                self.stop(error);
                false
            }
        }
    }
}

/// Gives a sink all rows of the transaction, by OID and then by the bytes of their identity, and
/// gives it back. It returns false where the sink accepted no more. Nothing changes. A row that no
/// store writes is `NotAStore`.
pub fn read_rows<S: Alter, T: DumpSink + Drop>(
    rows: &mut Rows<S>,
    alloc: Global,
    sink: T,
) -> (Result<bool, StoreFault>, T)
    ensures front { HasCleanDisk (state S.Store rows.new) → (v : Tables) →
        IsStored v (tables_of S.Store rows.old) → (start : T) →
        GivesFront (dump v) (T.DumpSink.has_taken start sink)
        (T.DumpSink.has_taken start result.1) }
    ensures all { HasCleanDisk (state S.Store rows.new) → IfOk result.0 (λ all. all ≡ true →
        (v : Tables) → IsStored v (tables_of S.Store rows.old) → (start : T) →
        GivesAll (dump v) (T.DumpSink.has_taken start sink) (T.DumpSink.has_taken start result.1)) }
    ensures stopped { HasCleanDisk (state S.Store rows.new) → IfOk result.0 (λ all.
        all ≡ false → T.DumpSink.has_stopped result.1) }
    ensures serving { HasCleanDisk (state S.Store rows.new) →
        OnOk result.0 (IsTrue (state S.Store rows.new).is_open) }
    ensures goes { Goes S.Store rows.old rows.new }
    ensures err { IfErr result.0 IsRefusal }
    ensures formed { HasCleanDisk (state S.Store rows.new) →
        IfServing S.Store rows.old ((v : Tables) × IsStored v (tables_of S.Store rows.old)) →
        IfErr result.0 IsOwnFault }
{
    let mut reading = Reading {
        alloc,
        sink,
        fault: None,
    };
    let read = rows.each_row(alloc, &mut reading);
    (reading.ending(read), reading.sink)
}
