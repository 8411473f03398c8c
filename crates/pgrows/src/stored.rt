//! The row that has a key and the definition of a relation, as they are stored.

ghost use Rattle.std.specs.Prelude.{◌≡◌, ◌≢◌, ◌∷◌, IfOk, IfErr, IfSome, OnOk};
ghost use Rattle.std.specs.FinMap.{get};
ghost use Rattle.sqlite.specs.State.{HasCleanDisk};
ghost use Rattle.sqlite.specs.declared.types.FromSqlError.TheVariants.{OutOfMemory};
ghost use Rattle.sqlite_trees.specs.View.{IsClean, IsQuiet};
ghost use Rattle.pgtables.specs.Kept.{Copies, Definition};
ghost use Rattle.pgtables.specs.Shown.{FitsCopies, FitsDefinition};
ghost use Rattle.pgrows.specs.declared.fault.ReadFault.TheVariants.{Malformed};
ghost use Rattle.pgrows.specs.Rows.{AreRows, Keeps, Makes, state, tables_of};
ghost use Rattle.pgrows.specs.Stored.{HasCopies, HasDefinition};

use crate::define::look_up;
use crate::fault::{ReadFault, well_formed};
use crate::search::Search;
use crate::whole::read;
use pgtables::{StoredDefinition, StoredRow};
use sqlite::types::{FromSql, FromSqlError};
use sqlite_trees::store::Alter;
use sqlite_value::row::Row;
use std::alloc::Global;

/// What a row of `held` stores. For a row that a store writes the one error is out of memory.
pub(crate) fn read_copies(alloc: Global, row: &Row) -> Result<StoredRow, FromSqlError>
    ensures read { IfOk result (HasCopies row.now) }
    ensures memory { IfErr result (λ error. (k : Copies) → HasCopies row.now k → FitsCopies k →
        error ≡ OutOfMemory) }
{
    let body = <Vec<u8> as FromSql>::column_result(alloc, row.get(3))?;
    let copies = u32::column_result(alloc, row.get(4))?;
    Ok(StoredRow::new(body, copies))
}

/// What a row of `rel` stores. For a row that a store writes the one error is out of memory.
fn read_definition(alloc: Global, row: &Row) -> Result<StoredDefinition, FromSqlError>
    ensures read { IfOk result (HasDefinition row.now) }
    ensures memory { IfErr result (λ error. (d : Definition) → HasDefinition row.now d →
        FitsDefinition d → error ≡ OutOfMemory) }
{
    let namespace = String::column_result(alloc, row.get(2))?;
    let name = String::column_result(alloc, row.get(3))?;
    let letter = u32::column_result(alloc, row.get(4))?;
    let columns = <Vec<u8> as FromSql>::column_result(alloc, row.get(5))?;
    Ok(StoredDefinition::new(namespace, name, letter, columns))
}

/// The row that has the key.
pub(crate) fn find_stored<S: Alter>(
    store: &mut S,
    alloc: Global,
    search: &mut Search,
    last: Option<i64>,
    oid: u32,
    ident: &[u8],
) -> Result<Option<StoredRow>, ReadFault>
    requires { AreRows S.Store store.old last }
    ensures found { IsClean (S.Store.view store.new) →
        IfOk result (λ row. row ≡ get (tables_of S.Store store.old).rows (oid ∷ ident.now)) }
    ensures formed { IsClean (S.Store.view store.new) →
        IfSome (get (tables_of S.Store store.old).rows (oid ∷ ident.now)) FitsCopies →
        IfErr result (λ fault. fault ≢ Malformed) }
    ensures made { IsClean (S.Store.view store.new) → OnOk result
        (Makes S.Store (λ t. t) store.old store.new) }
    ensures rows { OnOk result (AreRows S.Store store.new last) }
    ensures keeps { HasCleanDisk (state S.Store store.new) →
        Keeps S.Store store.old store.new }
    ensures quiet { IsQuiet S.Store.view S.Store.faults S.Store.recovers S.Store.is_shielded
        store.old store.new }
{
    if !read(store, search, last, oid, ident)? {
        return Ok(None);
    }
    let stored = well_formed(read_copies(alloc, &search.row))?;
    Ok(Some(stored))
}

/// The definition that the relation has.
pub(crate) fn find_defined<S: Alter>(
    store: &mut S,
    alloc: Global,
    row: &mut Row,
    last: Option<i64>,
    oid: u32,
) -> Result<Option<StoredDefinition>, ReadFault>
    requires { AreRows S.Store store.old last }
    ensures found { IsClean (S.Store.view store.new) → IfOk result (λ definition.
        definition ≡ get (tables_of S.Store store.old).defined oid) }
    ensures formed { IsClean (S.Store.view store.new) →
        IfSome (get (tables_of S.Store store.old).defined oid) FitsDefinition →
        IfErr result (λ fault. fault ≢ Malformed) }
    ensures made { IsClean (S.Store.view store.new) → OnOk result
        (Makes S.Store (λ t. t) store.old store.new) }
    ensures rows { OnOk result (AreRows S.Store store.new last) }
    ensures keeps { HasCleanDisk (state S.Store store.new) →
        Keeps S.Store store.old store.new }
    ensures quiet { IsQuiet S.Store.view S.Store.faults S.Store.recovers S.Store.is_shielded
        store.old store.new }
{
    if !look_up(store, row, last, oid)? {
        return Ok(None);
    }
    let stored = well_formed(read_definition(alloc, row))?;
    Ok(Some(stored))
}
