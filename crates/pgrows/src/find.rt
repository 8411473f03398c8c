//! Finds a row by its key.

ghost use Rattle.std.specs.Prelude.{◌≡◌, false, MatchOption, IfOk, OnOk, OnErr};
ghost use Rattle.sqlite_trees.specs.View.{IsClean, IsQuiet};
ghost use Rattle.sqlite_exec.specs.Calls.{OnlyReads};
ghost use Rattle.pgrows.specs.Gap.{IsNext};
ghost use Rattle.pgrows.specs.Rows.{IsFree, IsGood, IsStored, Keeps, key_of, state, tables_of};

use crate::entry::{id_at, write_key};
use sqlite_trees::error::StoreError;
use sqlite_trees::store::{Alter, Direction};
use sqlite_value::row::Row;

pub(crate) const DEFINED: u32 = 0;

pub(crate) const TABLE: u32 = 1;

pub(crate) const INDEX: u32 = 2;

pub(crate) const PLACE: u32 = 3;

/// The rowid of the row that has the key. `found` is the first entry from the key on then, or empty
/// where there is none.
pub(crate) fn find_entry<S: Alter>(
    store: &mut S,
    key: &mut Row,
    found: &mut Row,
    oid: u32,
    ident: &[u8],
) -> Result<Option<i64>, StoreError>
    requires { IsClean (S.Store.view store.old) → IsGood (S.Store.view store.old) }
    ensures found { IsClean (S.Store.view store.new) → IfOk result (λ id. MatchOption id
        (IsFree oid ident.now ((S.Store.view store.old).trees 1))
        (IsStored oid ident.now ((S.Store.view store.old).trees 1))) }
    ensures next { IsClean (S.Store.view store.new) → OnOk result
        (IsNext oid ident.now found.new (tables_of S.Store store.old).rows) }
    ensures key { OnOk result (key.new ≡ key_of oid ident.now) }
    ensures sound { IsClean (S.Store.view store.new) →
        OnOk result ((S.Store.view store.old).is_broken ≡ false) }
    ensures same { IsClean (S.Store.view store.new) →
        OnOk result (OnlyReads (S.Store.view store.old) (S.Store.view store.new)) }
    ensures err { IsClean (S.Store.view store.new) →
        OnErr result (Keeps S.Store store.old store.new) }
    ensures quiet { IsQuiet S.Store.view S.Store.faults S.Store.recovers S.Store.is_shielded
        store.old store.new }
{
    write_key(key, oid, ident)?;
    store.seek(0, INDEX, key, Direction::Forward)?;
    if !store.next(0, found)? {
        found.clear();
        return Ok(None);
    }
    Ok(id_at(found, oid, ident))
}
