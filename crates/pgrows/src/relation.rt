//! The rows of one relation.

ghost use Rattle.std.specs.Prelude.{◌≡◌, false, MatchOption, Some, IfOk, OnOk, OnErr};
ghost use Rattle.sqlite.specs.State.{HasCleanDisk};
ghost use Rattle.sqlite_trees.specs.View.{IsClean, IsQuiet};
ghost use Rattle.sqlite_exec.specs.Calls.{OnlyReads};
ghost use Rattle.pgtables.specs.Kept.{without_rows};
ghost use Rattle.pgrows.specs.Rows.{AreRows, HasNone, IsFirst, IsGood, IsUnder, Keeps, Makes};
ghost use Rattle.pgrows.specs.Rows.{state, tables_of};

use crate::change::take_out;
use crate::entry::{blob_in, id_within, write_front};
use crate::find::INDEX;
use crate::insert::top_of;
use sqlite_trees::error::StoreError;
use sqlite_trees::store::{Alter, Direction};
use sqlite_value::row::Row;

/// The rowid of the relation's first row, whose entry is in `found` then.
fn first_of<S: Alter>(
    store: &mut S,
    key: &mut Row,
    found: &mut Row,
    oid: u32,
) -> Result<Option<i64>, StoreError>
    requires { IsClean (S.Store.view store.old) → IsGood (S.Store.view store.old) }
    ensures found { IsClean (S.Store.view store.new) → IfOk result (λ id. MatchOption id
        (HasNone oid ((S.Store.view store.old).trees 1))
        (IsFirst oid found.new ((S.Store.view store.old).trees 1))) }
    ensures same { IsClean (S.Store.view store.new) →
        OnOk result (OnlyReads (S.Store.view store.old) (S.Store.view store.new)) }
    ensures err { IsClean (S.Store.view store.new) →
        OnErr result (Keeps S.Store store.old store.new) }
    ensures quiet { IsQuiet S.Store.view S.Store.faults S.Store.recovers S.Store.is_shielded
        store.old store.new }
{
    write_front(key, oid)?;
    store.seek(0, INDEX, key, Direction::Forward)?;
    if !store.next(0, found)? {
        return Ok(None);
    }
    Ok(id_within(found, oid))
}

/// Removes the relation's first row, and returns whether there was one.
fn take_first<S: Alter>(
    store: &mut S,
    key: &mut Row,
    found: &mut Row,
    _top: i64,
    oid: u32,
) -> Result<bool, StoreError>
    requires { IsClean (S.Store.view store.old) → IsUnder (S.Store.view store.old) (Some _top) }
    ensures one { IsClean (S.Store.view store.new) → OnOk result
        (without_rows oid (tables_of S.Store store.new)
        ≡ without_rows oid (tables_of S.Store store.old)) }
    ensures none { IsClean (S.Store.view store.new) → IfOk result (λ more. more ≡ false →
        tables_of S.Store store.new ≡ without_rows oid (tables_of S.Store store.old)) }
    ensures under { IsClean (S.Store.view store.new) →
        OnOk result (IsUnder (S.Store.view store.new) (Some _top)) }
    ensures keeps { HasCleanDisk (state S.Store store.new) →
        Keeps S.Store store.old store.new }
    ensures quiet { IsQuiet S.Store.view S.Store.faults S.Store.recovers S.Store.is_shielded
        store.old store.new }
{
    match first_of(store, key, found, oid)? {
        None => Ok(false),
        Some(id) => {
            take_out(store, key, id, oid, blob_in(found.get(1)))?;
            Ok(true)
        }
    }
}

/// Removes all rows of the relation, and returns the last rowid.
pub(crate) fn clear<S: Alter>(
    store: &mut S,
    key: &mut Row,
    found: &mut Row,
    last: Option<i64>,
    oid: u32,
) -> Result<i64, StoreError>
    requires { AreRows S.Store store.old last }
    ensures made { IsClean (S.Store.view store.new) → OnOk result
        (Makes S.Store (without_rows oid) store.old store.new) }
    ensures rows { IfOk result (λ n. AreRows S.Store store.new (Some n)) }
    ensures keeps { HasCleanDisk (state S.Store store.new) →
        Keeps S.Store store.old store.new }
    ensures quiet { IsQuiet S.Store.view S.Store.faults S.Store.recovers S.Store.is_shielded
        store.old store.new }
{
    let top = top_of(store, found, last)?;
    for _ in 0..u64::MAX {
        if !take_first(store, key, found, top, oid)? {
            return Ok(top);
        }
    }
    // No file holds so many rows.
    Err(StoreError::Full)
}
