//! The rows of one relation one after the other, by their identities.

ghost use Rattle.std.specs.Prelude.{◌≡◌, ◌≢◌, MatchBool, MatchOption, IfOk, IfErr, OnOk, OnErr};
ghost use Rattle.sqlite.specs.State.{HasCleanDisk};
ghost use Rattle.sqlite_rules.specs.Lists.{Has};
ghost use Rattle.sqlite_trees.specs.View.{IsClean, IsQuiet, StayLive};
ghost use Rattle.sqlite_exec.specs.Calls.{OnlyReads};
ghost use Rattle.pgtables.specs.Kept.{copies_in};
ghost use Rattle.pgtables.specs.Shown.{FitsCopies};
ghost use Rattle.pgrows.specs.Dump.{row_at};
ghost use Rattle.pgrows.specs.declared.fault.ReadFault.TheVariants.{Malformed};
ghost use Rattle.pgrows.specs.Rows.{AreRows, IsGood, Keeps, Makes, state, tables_of};
ghost use Rattle.pgrows.specs.Walk.{EachFits, EndsAt, HasNoRow, HasRow, IsNextEntry, IsNextRow};

use crate::entry::{blob_in, id_of, is_within, write_key};
use crate::fault::{ReadFault, well_formed};
use crate::find::{INDEX, TABLE};
use crate::stored::read_copies;
use pgtables::StoredRow;
use sqlite_trees::error::StoreError;
use sqlite_trees::store::{Alter, Direction};
use sqlite_value::row::Row;
use std::alloc::Global;

/// The row of an entry of the index.
pub(crate) fn read_entry<S: Alter>(
    store: &mut S,
    alloc: Global,
    entry: &Row,
    row: &mut Row,
) -> Result<StoredRow, ReadFault>
    requires good { IsClean (S.Store.view store.old) → IsGood (S.Store.view store.old) }
    requires entry { IsClean (S.Store.view store.old) →
        Has ((S.Store.view store.old).trees 2) entry.now }
    ensures read { IsClean (S.Store.view store.new) → IfOk result (λ k.
        k ≡ copies_in (row_at ((S.Store.view store.old).trees 1) entry.now)) }
    ensures formed { IsClean (S.Store.view store.new) →
        FitsCopies (copies_in (row_at ((S.Store.view store.old).trees 1) entry.now)) →
        IfErr result (λ fault. fault ≢ Malformed) }
    ensures same { IsClean (S.Store.view store.new) →
        OnOk result (S.Store.view store.new ≡ S.Store.view store.old) }
    ensures stay { OnOk result (StayLive (S.Store.view store.old) (S.Store.view store.new)) }
    ensures err { IsClean (S.Store.view store.new) →
        OnErr result (Keeps S.Store store.old store.new) }
    ensures quiet { IsQuiet S.Store.view S.Store.faults S.Store.recovers S.Store.is_shielded
        store.old store.new }
{
    if !store.get(TABLE, id_of(entry), row)? {
        return Err(ReadFault::Store(StoreError::Corrupt));
    }
    let stored = well_formed(read_copies(alloc, row))?;
    Ok(stored)
}

/// Writes the entry of the relation's first row from this identity on over `found`, or returns
/// false where there is none.
fn seek_next<S: Alter>(
    store: &mut S,
    key: &mut Row,
    found: &mut Row,
    oid: u32,
    from: &[u8],
) -> Result<bool, StoreError>
    requires { IsClean (S.Store.view store.old) → IsGood (S.Store.view store.old) }
    ensures found { IsClean (S.Store.view store.new) → IfOk result (λ met. MatchBool met
        (IsNextEntry oid from.now (S.Store.view store.old).trees found.new)
        (EndsAt oid from.now (tables_of S.Store store.old).rows)) }
    ensures same { IsClean (S.Store.view store.new) →
        OnOk result (OnlyReads (S.Store.view store.old) (S.Store.view store.new)) }
    ensures err { IsClean (S.Store.view store.new) →
        OnErr result (Keeps S.Store store.old store.new) }
    ensures quiet { IsQuiet S.Store.view S.Store.faults S.Store.recovers S.Store.is_shielded
        store.old store.new }
{
    write_key(key, oid, from)?;
    store.seek(0, INDEX, key, Direction::Forward)?;
    if !store.next(0, found)? {
        return Ok(false);
    }
    Ok(is_within(found, oid))
}

/// The relation's first row from this identity on, with its identity.
fn read_next<S: Alter>(
    store: &mut S,
    alloc: Global,
    key: &mut Row,
    found: &mut Row,
    row: &mut Row,
    oid: u32,
    from: &[u8],
) -> Result<Option<(Vec<u8>, StoredRow)>, ReadFault>
    requires { IsClean (S.Store.view store.old) → IsGood (S.Store.view store.old) }
    ensures found { IsClean (S.Store.view store.new) → IfOk result (λ next. MatchOption next
        (EndsAt oid from.now (tables_of S.Store store.old).rows)
        (λ it. IsNextRow oid from.now (tables_of S.Store store.old).rows it.0.items it.1)) }
    ensures formed { IsClean (S.Store.view store.new) →
        EachFits oid (tables_of S.Store store.old) → IfErr result (λ fault. fault ≢ Malformed) }
    ensures same { IsClean (S.Store.view store.new) →
        OnOk result (OnlyReads (S.Store.view store.old) (S.Store.view store.new)) }
    ensures err { IsClean (S.Store.view store.new) →
        OnErr result (Keeps S.Store store.old store.new) }
    ensures quiet { IsQuiet S.Store.view S.Store.faults S.Store.recovers S.Store.is_shielded
        store.old store.new }
{
    if !seek_next(store, key, found, oid, from)? {
        return Ok(None);
    }
    let stored = read_entry(store, alloc, found, row)?;
    let ident = Vec::from_slice(alloc, blob_in(found.get(1)))?;
    Ok(Some((ident, stored)))
}

/// The relation's first row from this identity on, with its identity.
pub(crate) fn next_row<S: Alter>(
    store: &mut S,
    alloc: Global,
    key: &mut Row,
    found: &mut Row,
    row: &mut Row,
    _last: Option<i64>,
    oid: u32,
    from: &[u8],
) -> Result<Option<(Vec<u8>, StoredRow)>, ReadFault>
    requires { AreRows S.Store store.old _last }
    ensures found { IsClean (S.Store.view store.new) → IfOk result (λ next. MatchOption next
        (EndsAt oid from.now (tables_of S.Store store.old).rows)
        (λ it. IsNextRow oid from.now (tables_of S.Store store.old).rows it.0.items it.1)) }
    ensures formed { IsClean (S.Store.view store.new) →
        EachFits oid (tables_of S.Store store.old) → IfErr result (λ fault. fault ≢ Malformed) }
    ensures made { IsClean (S.Store.view store.new) → OnOk result
        (Makes S.Store (λ t. t) store.old store.new) }
    ensures rows { OnOk result (AreRows S.Store store.new _last) }
    ensures keeps { HasCleanDisk (state S.Store store.new) →
        Keeps S.Store store.old store.new }
    ensures quiet { IsQuiet S.Store.view S.Store.faults S.Store.recovers S.Store.is_shielded
        store.old store.new }
{
    if store.is_broken() {
        return Err(ReadFault::Store(StoreError::Broken));
    }
    let next = read_next(store, alloc, key, found, row, oid, from)?;
    Ok(next)
}

/// Whether the relation has a row.
pub(crate) fn has_rows<S: Alter>(
    store: &mut S,
    key: &mut Row,
    found: &mut Row,
    _last: Option<i64>,
    oid: u32,
) -> Result<bool, StoreError>
    requires { AreRows S.Store store.old _last }
    ensures told { IsClean (S.Store.view store.new) → IfOk result (λ has. MatchBool has
        (HasRow oid (tables_of S.Store store.old).rows)
        (HasNoRow oid (tables_of S.Store store.old).rows)) }
    ensures made { IsClean (S.Store.view store.new) → OnOk result
        (Makes S.Store (λ t. t) store.old store.new) }
    ensures rows { OnOk result (AreRows S.Store store.new _last) }
    ensures keeps { HasCleanDisk (state S.Store store.new) →
        Keeps S.Store store.old store.new }
    ensures quiet { IsQuiet S.Store.view S.Store.faults S.Store.recovers S.Store.is_shielded
        store.old store.new }
{
    if store.is_broken() {
        return Err(StoreError::Broken);
    }
    let met = seek_next(store, key, found, oid, &[])?;
    Ok(met)
}
