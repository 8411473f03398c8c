//! Reads the row that has a key, and puts one whether its key is there or not.

ghost use Rattle.std.specs.Prelude.{◌≡◌, ◌∷◌, Some, None, IfOk, MatchBool, OnOk};
ghost use Rattle.std.specs.FinMap.{get};
ghost use Rattle.sqlite.specs.State.{HasCleanDisk};
ghost use Rattle.sqlite_trees.specs.View.{IsClean, IsQuiet};
ghost use Rattle.pgtables.specs.Kept.{with_row};
ghost use Rattle.pgrows.specs.Rows.{AreRows, Keeps, Makes, state, tables_of};
ghost use Rattle.pgrows.specs.Stored.{IsRowOf};

use crate::change::put_over;
use crate::find::TABLE;
use crate::insert::{append, top_of};
use crate::search::{Search, find, find_guessed, find_listed};
use sqlite_trees::error::StoreError;
use sqlite_trees::store::Alter;
use sqlite_value::row::Row;

/// Replaces the row that has the new row's key, or adds it as a new one, and returns the last
/// rowid.
pub(crate) fn put<S: Alter>(
    store: &mut S,
    search: &mut Search,
    last: Option<i64>,
    oid: u32,
    ident: &[u8],
    body: &[u8],
    copies: u32,
) -> Result<i64, StoreError>
    requires { AreRows S.Store store.old last }
    ensures made { IsClean (S.Store.view store.new) → OnOk result
        (Makes S.Store (with_row oid ident.now (record { body = body.now; copies = copies }))
        store.old store.new) }
    ensures rows { IfOk result (λ n. AreRows S.Store store.new (Some n)) }
    ensures keeps { HasCleanDisk (state S.Store store.new) →
        Keeps S.Store store.old store.new }
    ensures quiet { IsQuiet S.Store.view S.Store.faults S.Store.recovers S.Store.is_shielded
        store.old store.new }
{
    let top = top_of(store, &mut search.entry, last)?;
    match find(store, search, oid, ident)? {
        Some(id) => {
            put_over(store, &mut search.row, id, oid, ident, body, copies)?;
            Ok(top)
        }
        None => {
            let id = append(
                store,
                &mut search.key,
                &mut search.row,
                top,
                oid,
                ident,
                body,
                copies,
            )?;
            Ok(id)
        }
    }
}

/// Writes the row that has the key over the search's, or returns false where none has it.
pub(crate) fn read<S: Alter>(
    store: &mut S,
    search: &mut Search,
    _last: Option<i64>,
    oid: u32,
    ident: &[u8],
) -> Result<bool, StoreError>
    requires { AreRows S.Store store.old _last }
    ensures found { IsClean (S.Store.view store.new) → IfOk result (λ found. MatchBool found
        (IsRowOf oid ident.now (tables_of S.Store store.old) search.new.row)
        (get (tables_of S.Store store.old).rows (oid ∷ ident.now) ≡ None)) }
    ensures made { IsClean (S.Store.view store.new) → OnOk result
        (Makes S.Store (λ t. t) store.old store.new) }
    ensures rows { OnOk result (AreRows S.Store store.new _last) }
    ensures keeps { HasCleanDisk (state S.Store store.new) →
        Keeps S.Store store.old store.new }
    ensures quiet { IsQuiet S.Store.view S.Store.faults S.Store.recovers S.Store.is_shielded
        store.old store.new }
{
    if store.is_broken() {
        return Err(StoreError::Broken);
    }
    let guessed = find_guessed(store, search, oid, ident)?;
    if guessed.is_some() {
        return Ok(true);
    }
    match find_listed(store, search, oid, ident)? {
        Some(id) => store.get(TABLE, id, &mut search.row),
        None => Ok(false),
    }
}
