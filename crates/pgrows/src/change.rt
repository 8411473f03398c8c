//! Changes and removes the row that has a key, and puts the position.

ghost use Rattle.std.specs.Prelude.{◌≡◌, ℤ, false, Option, Some, IfOk, OnOk, OnErr};
ghost use Rattle.sqlite.specs.State.{HasCleanDisk};
ghost use Rattle.sqlite_trees.specs.View.{IsClean, IsQuiet, OnlyWrites};
ghost use Rattle.pgtables.specs.Kept.{IsKept, is_there, tables_in, with_place, with_row};
ghost use Rattle.pgtables.specs.Kept.{without_row};
ghost use Rattle.pgrows.specs.Rows.{AreBelow, AreRows, IsGood, IsStored, Keeps, Makes};
ghost use Rattle.pgrows.specs.Rows.{TellsVersion, database, state, tables_of, with_row_if_there};

use crate::entry::{write_entry, write_place, write_row};
use crate::find::{INDEX, PLACE, TABLE};
use crate::insert::top_of;
use crate::search::{Search, find};
use sqlite_trees::error::StoreError;
use sqlite_trees::store::Alter;
use sqlite_value::row::Row;

/// The version of the tables' layout, which a file tells as SQLite's user version.
pub(crate) const VERSION: u32 = 1;

/// Removes the row that has this rowid, which has the key, and its entry.
pub(crate) fn take_out<S: Alter>(
    store: &mut S,
    entry: &mut Row,
    id: i64,
    oid: u32,
    ident: &[u8],
) -> Result<(), StoreError>
    requires good { IsClean (S.Store.view store.old) → IsGood (S.Store.view store.old) }
    requires stored { IsClean (S.Store.view store.old) →
        IsStored oid ident.now ((S.Store.view store.old).trees 1) id }
    ensures kept { IsClean (S.Store.view store.new) → OnOk result
        (IsKept (database (S.Store.view store.new).trees)
        × (tables_of S.Store store.new
        ≡ without_row oid ident.now (tables_of S.Store store.old))) }
    ensures below { IsClean (S.Store.view store.new) → OnOk result ((n : ℤ) →
        AreBelow n ((S.Store.view store.old).trees 1) →
        AreBelow n ((S.Store.view store.new).trees 1)) }
    ensures frame { IsClean (S.Store.view store.new) →
        OnOk result (OnlyWrites (S.Store.view store.old) (S.Store.view store.new)) }
    ensures err { IsClean (S.Store.view store.new) →
        OnErr result (Keeps S.Store store.old store.new) }
    ensures quiet { IsQuiet S.Store.view S.Store.faults S.Store.recovers S.Store.is_shielded
        store.old store.new }
{
    write_entry(entry, oid, ident, id)?;
    store.remove(INDEX, entry)?;
    store.delete(TABLE, id)
}

/// Replaces the row with this rowid, which has its key. Its entry stays.
pub(crate) fn put_over<S: Alter>(
    store: &mut S,
    row: &mut Row,
    id: i64,
    oid: u32,
    ident: &[u8],
    body: &[u8],
    copies: u32,
) -> Result<(), StoreError>
    requires good { IsClean (S.Store.view store.old) → IsGood (S.Store.view store.old) }
    requires stored { IsClean (S.Store.view store.old) →
        IsStored oid ident.now ((S.Store.view store.old).trees 1) id }
    ensures kept { IsClean (S.Store.view store.new) → OnOk result
        (IsKept (database (S.Store.view store.new).trees)
        × (tables_of S.Store store.new ≡ with_row oid ident.now
        (record { body = body.now; copies = copies }) (tables_of S.Store store.old))) }
    ensures below { IsClean (S.Store.view store.new) → OnOk result ((n : ℤ) →
        AreBelow n ((S.Store.view store.old).trees 1) →
        AreBelow n ((S.Store.view store.new).trees 1)) }
    ensures frame { IsClean (S.Store.view store.new) →
        OnOk result (OnlyWrites (S.Store.view store.old) (S.Store.view store.new)) }
    ensures err { IsClean (S.Store.view store.new) →
        OnErr result (Keeps S.Store store.old store.new) }
    ensures quiet { IsQuiet S.Store.view S.Store.faults S.Store.recovers S.Store.is_shielded
        store.old store.new }
{
    write_row(row, id, oid, ident, body, copies)?;
    store.put(TABLE, row)
}

/// Removes the row that has the key, and returns whether there was one, and the last rowid.
pub(crate) fn remove<S: Alter>(
    store: &mut S,
    search: &mut Search,
    last: Option<i64>,
    oid: u32,
    ident: &[u8],
) -> Result<(bool, i64), StoreError>
    requires { AreRows S.Store store.old last }
    ensures told { IsClean (S.Store.view store.new) → IfOk result (λ it.
        it.0 ≡ is_there oid ident.now (tables_of S.Store store.old)) }
    ensures made { IsClean (S.Store.view store.new) → OnOk result
        (Makes S.Store (without_row oid ident.now) store.old store.new) }
    ensures rows { IfOk result (λ it. AreRows S.Store store.new (Some it.1)) }
    ensures keeps { HasCleanDisk (state S.Store store.new) →
        Keeps S.Store store.old store.new }
    ensures quiet { IsQuiet S.Store.view S.Store.faults S.Store.recovers S.Store.is_shielded
        store.old store.new }
{
    let top = top_of(store, &mut search.entry, last)?;
    match find(store, search, oid, ident)? {
        None => Ok((false, top)),
        Some(id) => {
            take_out(store, &mut search.key, id, oid, ident)?;
            Ok((true, top))
        }
    }
}

/// Replaces the row that has the new row's key, and returns whether there is one, and the last
/// rowid.
pub(crate) fn set<S: Alter>(
    store: &mut S,
    search: &mut Search,
    last: Option<i64>,
    oid: u32,
    ident: &[u8],
    body: &[u8],
    copies: u32,
) -> Result<(bool, i64), StoreError>
    requires { AreRows S.Store store.old last }
    ensures told { IsClean (S.Store.view store.new) → IfOk result (λ it.
        it.0 ≡ is_there oid ident.now (tables_of S.Store store.old)) }
    ensures made { IsClean (S.Store.view store.new) → OnOk result
        (Makes S.Store (with_row_if_there oid ident.now
        (record { body = body.now; copies = copies })) store.old store.new) }
    ensures rows { IfOk result (λ it. AreRows S.Store store.new (Some it.1)) }
    ensures keeps { HasCleanDisk (state S.Store store.new) →
        Keeps S.Store store.old store.new }
    ensures quiet { IsQuiet S.Store.view S.Store.faults S.Store.recovers S.Store.is_shielded
        store.old store.new }
{
    let top = top_of(store, &mut search.entry, last)?;
    match find(store, search, oid, ident)? {
        None => Ok((false, top)),
        Some(id) => {
            put_over(store, &mut search.row, id, oid, ident, body, copies)?;
            Ok((true, top))
        }
    }
}

/// Puts the row of the position.
fn put_place_row<S: Alter>(
    store: &mut S,
    row: &mut Row,
    _last: Option<i64>,
    position: &[u8],
) -> Result<(), StoreError>
    requires { AreRows S.Store store.old _last }
    ensures made { IsClean (S.Store.view store.new) → OnOk result
        (Makes S.Store (with_place position.now) store.old store.new) }
    ensures rows { OnOk result (AreRows S.Store store.new _last) }
    ensures keeps { HasCleanDisk (state S.Store store.new) →
        Keeps S.Store store.old store.new }
    ensures quiet { IsQuiet S.Store.view S.Store.faults S.Store.recovers S.Store.is_shielded
        store.old store.new }
{
    if store.is_broken() {
        return Err(StoreError::Broken);
    }
    write_place(row, position)?;
    store.put(PLACE, row)
}

/// Sets the version where the file tells another, as one that was just made does.
fn put_version<S: Alter>(store: &mut S, _last: Option<i64>) -> Result<(), StoreError>
    requires { AreRows S.Store store.old _last }
    ensures version { IsClean (S.Store.view store.new) →
        OnOk result (TellsVersion (S.Store.view store.new).trees) }
    ensures made { IsClean (S.Store.view store.new) → OnOk result
        (Makes S.Store (λ t. t) store.old store.new) }
    ensures rows { OnOk result (AreRows S.Store store.new _last) }
    ensures keeps { HasCleanDisk (state S.Store store.new) →
        Keeps S.Store store.old store.new }
    ensures quiet { IsQuiet S.Store.view S.Store.faults S.Store.recovers S.Store.is_shielded
        store.old store.new }
{
    if store.is_broken() {
        return Err(StoreError::Broken);
    }
    if store.version() == VERSION {
        return Ok(());
    }
    store.set_version(VERSION)
}

/// Puts the position, and the version where the file doesn't tell it yet.
pub(crate) fn put_place<S: Alter>(
    store: &mut S,
    row: &mut Row,
    last: Option<i64>,
    position: &[u8],
) -> Result<(), StoreError>
    requires { AreRows S.Store store.old last }
    ensures version { IsClean (S.Store.view store.new) →
        OnOk result (TellsVersion (S.Store.view store.new).trees) }
    ensures made { IsClean (S.Store.view store.new) → OnOk result
        (Makes S.Store (with_place position.now) store.old store.new) }
    ensures rows { OnOk result (AreRows S.Store store.new last) }
    ensures keeps { HasCleanDisk (state S.Store store.new) →
        Keeps S.Store store.old store.new }
    ensures quiet { IsQuiet S.Store.view S.Store.faults S.Store.recovers S.Store.is_shielded
        store.old store.new }
{
    put_place_row(store, row, last, position)?;
    put_version(store, last)
}
