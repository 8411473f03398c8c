//! Looks the definition of a relation up, and puts one.

ghost use Rattle.std.specs.Prelude.{◌≡◌, Some, None, IfOk, MatchBool, OnOk};
ghost use Rattle.std.specs.FinMap.{get};
ghost use Rattle.sqlite.specs.State.{HasCleanDisk};
ghost use Rattle.sqlite_trees.specs.View.{IsClean, IsQuiet};
ghost use Rattle.pgtables.specs.Kept.{Definition, rel_row, with_definition};
ghost use Rattle.pgrows.specs.Rows.{AreRows, Keeps, Makes, state, tables_of};

use crate::entry::write_definition;
use crate::find::DEFINED;
use sqlite_trees::error::StoreError;
use sqlite_trees::store::Alter;
use sqlite_value::row::Row;

/// Writes the row of the relation's definition over `row`, or returns false where it has none.
pub(crate) fn look_up<S: Alter>(
    store: &mut S,
    row: &mut Row,
    _last: Option<i64>,
    oid: u32,
) -> Result<bool, StoreError>
    requires { AreRows S.Store store.old _last }
    ensures found { IsClean (S.Store.view store.new) → IfOk result (λ found. MatchBool found
        ((d : Definition) × (get (tables_of S.Store store.old).defined oid ≡ Some d)
        × (row.new ≡ rel_row oid d))
        (get (tables_of S.Store store.old).defined oid ≡ None)) }
    ensures made { IsClean (S.Store.view store.new) → OnOk result
        (Makes S.Store (λ t. t) store.old store.new) }
    ensures rows { OnOk result (AreRows S.Store store.new _last) }
    ensures keeps { HasCleanDisk (state S.Store store.new) →
        Keeps S.Store store.old store.new }
    ensures quiet { IsQuiet S.Store.view S.Store.faults S.Store.recovers S.Store.is_shielded
        store.old store.new }
{
    if store.is_broken() {
        return Err(StoreError::Broken);
    }
    store.get(DEFINED, i64::from(oid), row)
}

/// Puts a definition in place of the one that the relation has.
pub(crate) fn put_defined<S: Alter>(
    store: &mut S,
    row: &mut Row,
    _last: Option<i64>,
    oid: u32,
    namespace: &str,
    name: &str,
    letter: u32,
    columns: &[u8],
) -> Result<(), StoreError>
    requires { AreRows S.Store store.old _last }
    ensures made { IsClean (S.Store.view store.new) → OnOk result
        (Makes S.Store (with_definition oid
        (record {
          namespace = namespace.now;
          name = name.now;
          letter = letter;
          columns = columns.now;
        })) store.old store.new) }
    ensures rows { OnOk result (AreRows S.Store store.new _last) }
    ensures keeps { HasCleanDisk (state S.Store store.new) →
        Keeps S.Store store.old store.new }
    ensures quiet { IsQuiet S.Store.view S.Store.faults S.Store.recovers S.Store.is_shielded
        store.old store.new }
{
    if store.is_broken() {
        return Err(StoreError::Broken);
    }
    write_definition(row, oid, namespace, name, letter, columns)?;
    store.put(DEFINED, row)
}
