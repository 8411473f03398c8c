//! A store of which some tables were dropped.

ghost use Rattle.std.specs.Prelude.{◌≡◌, ◌≤◌, [], Ok, true, false, IsTrue, IfOk, IfSome, OnOk};
ghost use Rattle.sqlite.specs.Effect.{IsDatabase};
ghost use Rattle.sqlite.specs.Held.{state};
ghost use Rattle.sqlite.specs.State.{HasCleanDisk, Survives};
ghost use Rattle.sqlite.specs.View.{doubt};
ghost use Rattle.pgtables.specs.Schema.{held_table, pos_at, rel};
ghost use Rattle.pgtables.specs.Kept.{AreDefined, AreHeld, Goes, IfServing, IsBare, tables_in};
ghost use Rattle.pgtables.specs.Opened.{AreAccepted, IsFoundPosition, ListsDefinitions};
ghost use Rattle.pgtables.specs.Remains.{AreRemains, IsIndexOfRows, IsOver, listed, remaining};
ghost use Rattle.pgtables.specs.Remains.{schema_of};

use crate::found::{is_held, is_pos, is_rel};
use crate::opened::{
    FoundPosition, RowCheck, check_stored_rows, read_stored_definitions, read_stored_position,
};
use crate::rows::StoredDefinition;
use sqlite::{Alter, Connection, Error, Transaction};
use sqlite_schema::schema::{Index, Schema, Table};
use std::alloc::Global;

/// Which of a store's tables are present.
#[derive(Clone, Copy, Debug, PartialEq, Eq)]
pub struct Remains {
    /// Whether `rel` is, the table of definitions.
    pub has_definitions: bool,
    /// Whether `held` is, the table of rows.
    pub has_rows: bool,
    /// Whether `pos` is, the table of the position.
    pub has_position: bool,
}

/// Which of a store's tables a connection has, or `None` where it has others.
pub fn find_remains<S: Alter>(conn: &Connection<S>) -> Option<Remains>
    ensures remains { IfSome result (λ left. IsTrue (state S.Store conn.now).is_open →
        (state S.Store conn.now).now.schema ≡ schema_of left) }
    ensures sound { IsTrue (state S.Store conn.now).is_open →
        IsDatabase (state S.Store conn.now).now }
{
    remains_of(conn.schema())
}

/// Which of a store's tables these are.
pub fn remains_of(schema: &Schema) -> Option<Remains>
    ensures { IfSome result (AreRemains schema.now) }
{
    if !schema.views.as_slice().is_empty() {
        return None;
    }
    let (has_definitions, rest) = behind_rel(schema.tables.as_slice());
    let (has_rows, rest) = behind_held(rest);
    let (has_position, rest) = behind_pos(rest);
    if !rest.is_empty() || !is_index_of_rows(schema.indexes.as_slice(), has_rows) {
        return None;
    }
    Some(Remains {
        has_definitions,
        has_rows,
        has_position,
    })
}

/// Whether the first table is `rel`, and the tables after it.
fn behind_rel(tables: &[Table]) -> (bool, &[Table])
    ensures { tables.now ≡ listed result.0 rel result.1.now }
{
    match tables {
        [first, rest @ ..] if is_rel(first) => (true, rest),
        _ => (false, tables),
    }
}

/// Whether the first table is `held`, and the tables after it.
fn behind_held(tables: &[Table]) -> (bool, &[Table])
    ensures { tables.now ≡ listed result.0 held_table result.1.now }
{
    match tables {
        [first, rest @ ..] if is_held(first) => (true, rest),
        _ => (false, tables),
    }
}

/// Whether the first table is `pos`, and the tables after it.
fn behind_pos(tables: &[Table]) -> (bool, &[Table])
    ensures { tables.now ≡ listed result.0 pos_at result.1.now }
{
    match tables {
        [first, rest @ ..] if is_pos(first) => (true, rest),
        _ => (false, tables),
    }
}

/// Whether there is just the index that `held` has.
fn is_index_of_rows(indexes: &[Index], has_rows: bool) -> bool
    ensures { IsTrue result → IsIndexOfRows indexes.now has_rows }
{
    match indexes {
        [] => !has_rows,
        [index] => has_rows && index.tree == 2,
        _ => false,
    }
}

/// The definitions that are stored, by rising OID, or `None` where a row of `rel` isn't one of a
/// definition. Nothing changes.
pub fn read_remaining_definitions<S: Alter>(
    conn: &mut Connection<S>,
    left: Remains,
    alloc: Global,
) -> Result<Option<Vec<(u32, StoredDefinition)>>, Error>
    requires settled { (state S.Store conn.old).in_transaction ≡ false }
    requires remains { IfServing S.Store conn.old
        ((state S.Store conn.old).now.schema ≡ schema_of left) }
    ensures settled { (state S.Store conn.new).in_transaction ≡ false }
    ensures clean { doubt (state S.Store conn.old).is_clean ≤ doubt
        (state S.Store conn.new).is_clean }
    ensures found { HasCleanDisk (state S.Store conn.new) →
        IfOk result (λ found. IfSome found
        (λ all. AreDefined ((remaining left (state S.Store conn.old).now.trees) 0)
        × ListsDefinitions (tables_in (remaining left (state S.Store conn.old).now.trees))
        all.items)) }
    ensures serving { HasCleanDisk (state S.Store conn.new) → IsTrue left.has_definitions →
        OnOk result (IsTrue (state S.Store conn.new).is_open) }
    ensures unchanged { IfServing S.Store conn.new
        (IsTrue (state S.Store conn.old).is_open
        × ((state S.Store conn.new).now ≡ (state S.Store conn.old).now)) }
    ensures crash { Survives (state S.Store conn.old) (state S.Store conn.new) (λ _. ⊥) }
{
    if left.has_definitions {
        read_stored_definitions(conn, alloc)
    } else {
        Ok(Some(Vec::new(alloc)))
    }
}

/// Whether each row that is stored is accepted. It reads each once, in the memory of one row.
/// Nothing changes.
pub fn check_remaining_rows<S: Alter, C: RowCheck>(
    conn: &mut Connection<S>,
    left: Remains,
    check: &C,
) -> Result<bool, Error>
    requires settled { (state S.Store conn.old).in_transaction ≡ false }
    requires remains { IfServing S.Store conn.old
        ((state S.Store conn.old).now.schema ≡ schema_of left) }
    ensures settled { (state S.Store conn.new).in_transaction ≡ false }
    ensures clean { doubt (state S.Store conn.old).is_clean ≤ doubt
        (state S.Store conn.new).is_clean }
    ensures held { HasCleanDisk (state S.Store conn.new) → result ≡ Ok true →
        AreHeld ((remaining left (state S.Store conn.old).now.trees) 1)
        × AreAccepted C.RowCheck.accepts check.now
        (tables_in (remaining left (state S.Store conn.old).now.trees)) }
    ensures serving { HasCleanDisk (state S.Store conn.new) → IsTrue left.has_rows →
        OnOk result (IsTrue (state S.Store conn.new).is_open) }
    ensures unchanged { IfServing S.Store conn.new
        (IsTrue (state S.Store conn.old).is_open
        × ((state S.Store conn.new).now ≡ (state S.Store conn.old).now)) }
    ensures crash { Survives (state S.Store conn.old) (state S.Store conn.new) (λ _. ⊥) }
{
    if left.has_rows {
        check_stored_rows(conn, check)
    } else {
        Ok(true)
    }
}

/// What `pos` has, which is nothing where it isn't present. Nothing changes.
pub fn read_remaining_position<S: Alter>(
    conn: &mut Connection<S>,
    left: Remains,
) -> Result<FoundPosition, Error>
    requires settled { (state S.Store conn.old).in_transaction ≡ false }
    requires remains { IfServing S.Store conn.old
        ((state S.Store conn.old).now.schema ≡ schema_of left) }
    ensures settled { (state S.Store conn.new).in_transaction ≡ false }
    ensures clean { doubt (state S.Store conn.old).is_clean ≤ doubt
        (state S.Store conn.new).is_clean }
    ensures found { HasCleanDisk (state S.Store conn.new) →
        IfOk result (IsFoundPosition ((remaining left (state S.Store conn.old).now.trees) 3)) }
    ensures serving { HasCleanDisk (state S.Store conn.new) → IsTrue left.has_position →
        OnOk result (IsTrue (state S.Store conn.new).is_open) }
    ensures unchanged { IfServing S.Store conn.new
        (IsTrue (state S.Store conn.old).is_open
        × ((state S.Store conn.new).now ≡ (state S.Store conn.old).now)) }
    ensures crash { Survives (state S.Store conn.old) (state S.Store conn.new) (λ _. ⊥) }
{
    if left.has_position {
        read_stored_position(conn)
    } else {
        Ok(FoundPosition::Missing)
    }
}

/// Drops those of a store's tables that are present.
pub fn drop_remains<S: Alter>(tx: &mut Transaction<'_, S>) -> Result<(), Error>
    requires { IfServing S.Store tx.old.conn.now (IsOver S.Store tx.old.conn.now) }
    ensures same_reference { tx.new.conn.ghost_name ≡ tx.old.conn.ghost_name }
    ensures made { OnOk result (IfServing S.Store tx.new.conn.now
        (IsBare S.Store tx.new.conn.now)) }
    ensures goes { Goes S.Store tx.old.conn.now tx.new.conn.now }
{
    tx.execute_batch(
        "DROP TABLE IF EXISTS rel; DROP TABLE IF EXISTS held; DROP TABLE IF EXISTS pos",
    )
}
