//! What is stored in a database that was opened, read once and checked: the three tables may hold
//! anything that their columns allow, also what no store has ever written.

ghost use Rattle.std.specs.Prelude.{◌≡◌, ◌≤◌, ℕ, List, Ok, Some, true, false, IsTrue, OnOk, IfOk};
ghost use Rattle.std.specs.Prelude.{IfSome, ◌<◌, ◌<ℤ◌};
ghost use Rattle.std.specs.Int.{w64, to_be_bytes};
ghost use Rattle.sqlite.specs.Held.{state};
ghost use Rattle.sqlite.specs.State.{HasCleanDisk, Survives};
ghost use Rattle.sqlite.specs.View.{doubt};
ghost use Rattle.pgtables.specs.Kept.{AreDefined, AreHeld, IfServing, tables_of};
ghost use Rattle.pgtables.specs.Remains.{IsPresent};
ghost use Rattle.pgtables.specs.Opened.{AreAccepted, AreDefinitionsRead, ArePlacesRead};
ghost use Rattle.pgtables.specs.Opened.{IsDefinitionRead, IsFoundPosition, IsPlaceRead};
ghost use Rattle.pgtables.specs.Opened.{IsRowAccepted, ListsDefinitions};

use crate::rows::StoredDefinition;
use crate::settled::{see_committed, see_sound};
use sqlite::types::ValueRef;
use sqlite::{Alter, Connection, Error, ErrorCode, Row};
use std::alloc::Global;

/// What decides whether a row of `held` is one that a store writes.
pub trait RowCheck {
    ghost use Rattle.pgtables.specs.Kept.{Copies};

    // Whether it agrees with the definition of its relation.
    ghost accepts: { Self → ℕ → List ℕ → Copies → Type 0 };

    /// Whether a row with these bytes may be stored at this OID and identity. An error is one of
    /// the caller's own, as out of memory.
    fn check(&self, oid: u32, ident: &[u8], body: &[u8], copies: u32) -> Result<bool, Error>
        ensures { result ≡ Ok true → accepts self.now oid ident.now
            (record { body = body.now; copies = copies }) };
}

/// What `pos` holds.
#[derive(Clone, Copy, Debug, PartialEq, Eq)]
pub enum FoundPosition {
    /// No row.
    Missing,
    /// One row, of the eight bytes of this number, its greatest byte first.
    At(u64),
    /// Something else.
    Malformed,
}

/// The definitions by rising OID, or `None` where a row of `rel` isn't one of a definition. `rel`
/// is present, and nothing changes.
pub(crate) fn read_stored_definitions<S: Alter>(
    conn: &mut Connection<S>,
    alloc: Global,
) -> Result<Option<Vec<(u32, StoredDefinition)>>, Error>
    requires settled { (state S.Store conn.old).in_transaction ≡ false }
    requires present { IfServing S.Store conn.old
        (IsPresent (λ left. left.has_definitions) (state S.Store conn.old).now.schema) }
    ensures settled { (state S.Store conn.new).in_transaction ≡ false }
    ensures clean { doubt (state S.Store conn.old).is_clean ≤ doubt
        (state S.Store conn.new).is_clean }
    ensures found { HasCleanDisk (state S.Store conn.new) →
        IfOk result (λ found. IfSome found
        (λ all. AreDefined ((state S.Store conn.old).now.trees 0)
        × ListsDefinitions (tables_of S.Store conn.old) all.items)) }
    ensures serving { HasCleanDisk (state S.Store conn.new) →
        OnOk result (IsTrue (state S.Store conn.new).is_open) }
    ensures unchanged { IfServing S.Store conn.new
        (IsTrue (state S.Store conn.old).is_open
        × ((state S.Store conn.new).now ≡ (state S.Store conn.old).now)) }
    ensures crash { Survives (state S.Store conn.old) (state S.Store conn.new) (λ _. ⊥) }
{
    see_committed(conn);
    see_sound(conn);
    let rows = conn.query_all(
        "SELECT oid, nsp, name, letter, cols FROM rel ORDER BY oid",
        &[],
    )?;
    read_rising(alloc, rows.as_slice())
}

/// Whether each row of `held` is accepted. It reads each once, in the memory of one row. The table
/// is present, and nothing changes.
pub(crate) fn check_stored_rows<S: Alter, C: RowCheck>(
    conn: &mut Connection<S>,
    check: &C,
) -> Result<bool, Error>
    requires settled { (state S.Store conn.old).in_transaction ≡ false }
    requires present { IfServing S.Store conn.old
        (IsPresent (λ left. left.has_rows) (state S.Store conn.old).now.schema) }
    ensures settled { (state S.Store conn.new).in_transaction ≡ false }
    ensures clean { doubt (state S.Store conn.old).is_clean ≤ doubt
        (state S.Store conn.new).is_clean }
    ensures held { HasCleanDisk (state S.Store conn.new) → result ≡ Ok true →
        AreHeld ((state S.Store conn.old).now.trees 1)
        × AreAccepted C.RowCheck.accepts check.now (tables_of S.Store conn.old) }
    ensures serving { HasCleanDisk (state S.Store conn.new) →
        OnOk result (IsTrue (state S.Store conn.new).is_open) }
    ensures unchanged { IfServing S.Store conn.new
        (IsTrue (state S.Store conn.old).is_open
        × ((state S.Store conn.new).now ≡ (state S.Store conn.old).now)) }
    ensures crash { Survives (state S.Store conn.old) (state S.Store conn.new) (λ _. ⊥) }
{
    see_committed(conn);
    see_sound(conn);
    let mut last = None;
    let mut rows = conn.query(
        "SELECT rowid, oid, ident, body, copies FROM held ORDER BY rowid",
        &[],
    )?;
    for _ in 0..u64::MAX {
        let Some(row) = rows.next()? else {
            return Ok(true);
        };
        let found = check_row(check, row, last)?;
        if found.is_none() {
            return Ok(false);
        }
        last = found;
    }
    // No memory holds so many rows.
    Err(Error::SqliteFailure(ErrorCode::OutOfMemory))
}

/// What `pos` has. It is present, and nothing changes.
pub(crate) fn read_stored_position<S: Alter>(
    conn: &mut Connection<S>,
) -> Result<FoundPosition, Error>
    requires settled { (state S.Store conn.old).in_transaction ≡ false }
    requires present { IfServing S.Store conn.old
        (IsPresent (λ left. left.has_position) (state S.Store conn.old).now.schema) }
    ensures settled { (state S.Store conn.new).in_transaction ≡ false }
    ensures clean { doubt (state S.Store conn.old).is_clean ≤ doubt
        (state S.Store conn.new).is_clean }
    ensures found { HasCleanDisk (state S.Store conn.new) →
        IfOk result (IsFoundPosition ((state S.Store conn.old).now.trees 3)) }
    ensures serving { HasCleanDisk (state S.Store conn.new) →
        OnOk result (IsTrue (state S.Store conn.new).is_open) }
    ensures unchanged { IfServing S.Store conn.new
        (IsTrue (state S.Store conn.old).is_open
        × ((state S.Store conn.new).now ≡ (state S.Store conn.old).now)) }
    ensures crash { Survives (state S.Store conn.old) (state S.Store conn.new) (λ _. ⊥) }
{
    see_committed(conn);
    see_sound(conn);
    let rows = conn.query_all("SELECT id, lsn FROM pos ORDER BY id", &[])?;
    read_one_place(rows.as_slice())
}

/// What was read, or `None` where the value has another kind or doesn't fit.
fn if_readable<T: Drop>(read: Result<T, Error>) -> Result<Option<T>, Error>
    ensures { IfOk result (λ found. IfSome found (λ value. read ≡ Ok value)) }
{
    match read {
        Ok(value) => Ok(Some(value)),
        Err(Error::SqliteFailure(ErrorCode::OutOfMemory)) => {
            Err(Error::SqliteFailure(ErrorCode::OutOfMemory))
        }
        Err(_) => Ok(None),
    }
}

/// The definitions that the rows show, or `None` where one shows none or its OID isn't above those
/// before.
fn read_rising(alloc: Global, rows: &[Row]) -> Result<Option<Vec<(u32, StoredDefinition)>>, Error>
    ensures { IfOk result (λ found. IfSome found (λ all. AreDefinitionsRead rows.now all.items)) }
{
    let mut all = Vec::new(alloc);
    let mut last = None;
    for row in rows {
        let Some((oid, definition)) = read_definition(row, last)? else {
            return Ok(None);
        };
        last = Some(oid);
        all.push((oid, definition))?;
    }
    Ok(Some(all))
}

/// The definition with its OID that a row shows, or `None` where it shows none or its OID isn't
/// above the last.
fn read_definition(row: &Row, last: Option<u32>) -> Result<Option<(u32, StoredDefinition)>, Error>
    ensures read { IfOk result (λ found. IfSome found (λ it. IsDefinitionRead row.now it.0 it.1)) }
    ensures behind { IfOk result (λ found. IfSome found
        (λ it. IfSome last (λ before. before < it.0))) }
{
    let Some((oid, definition)) = if_readable(StoredDefinition::read_with_oid(row))? else {
        return Ok(None);
    };
    if last.is_some_and(|before| oid <= before) {
        return Ok(None);
    }
    Ok(Some((oid, definition)))
}

/// The rowid of a row of `held` that is accepted and has a higher one than the last.
fn check_row<C: RowCheck>(check: &C, row: &Row, last: Option<i64>) -> Result<Option<i64>, Error>
    ensures accepted { IfOk result (λ found. IfSome found
        (IsRowAccepted C.RowCheck.accepts check.now row.now)) }
    ensures behind { IfOk result (λ found. IfSome found
        (λ id. IfSome last (λ before. before <ℤ id))) }
{
    let (Some(id), Some(oid), Some(copies)) = (
        if_readable(row.get::<i64>(0))?,
        if_readable(row.get::<u32>(1))?,
        if_readable(row.get::<u32>(4))?,
    ) else {
        return Ok(None);
    };
    let (ValueRef::Blob(ident), ValueRef::Blob(body)) = (row.get_ref(2)?, row.get_ref(3)?) else {
        return Ok(None);
    };
    if last.is_some_and(|before| id <= before) || !check.check(oid, ident, body, copies)? {
        return Ok(None);
    }
    Ok(Some(id))
}

/// The position that all rows of `pos` show.
fn read_one_place(rows: &[Row]) -> Result<FoundPosition, Error>
    ensures { IfOk result (ArePlacesRead rows.now) }
{
    match rows {
        [] => Ok(FoundPosition::Missing),
        [row] => read_place(row),
        _ => Ok(FoundPosition::Malformed),
    }
}

/// The position that a row of `pos` shows, which has the number 0 and eight bytes.
fn read_place(row: &Row) -> Result<FoundPosition, Error>
    ensures { IfOk result (IsPlaceRead row.now) }
{
    let (ValueRef::Int(0), ValueRef::Blob(bytes)) = (row.get_ref(0)?, row.get_ref(1)?) else {
        return Ok(FoundPosition::Malformed);
    };
    match number_of(bytes) {
        Some(position) => Ok(FoundPosition::At(position)),
        None => Ok(FoundPosition::Malformed),
    }
}

/// The number of eight bytes, the greatest first.
fn number_of(bytes: &[u8]) -> Option<u64>
    ensures { IfSome result (λ number. to_be_bytes w64 number ≡ bytes.now) }
{
    let [a, b, c, d, e, f, g, h] = bytes else {
        return None;
    };
    Some(u64::from_be_bytes([*a, *b, *c, *d, *e, *f, *g, *h]))
}
