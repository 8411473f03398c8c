//! All rows, in their order, each given as it is read.

ghost use Rattle.std.specs.Prelude.{◌≡◌, ℕ, pos, Some, true, false, IfOk, OnOk, OnErr};
ghost use Rattle.sqlite.specs.State.{HasCleanDisk};
ghost use Rattle.sqlite_rules.specs.Lists.{Has};
ghost use Rattle.sqlite_trees.specs.View.{IsClean, IsQuiet, StayLive};
ghost use Rattle.sqlite_exec.specs.Calls.{OnlyReads};
ghost use Rattle.pgrows.specs.Dump.{Defines, DefinesKnown, GivesAll, GivesFront, LeavesAt};
ghost use Rattle.pgrows.specs.Dump.{shown_by};
ghost use Rattle.pgrows.specs.Rows.{AreRows, IsGood, Keeps, Makes, state, tables_of};

use crate::entry::{id_of, oid_in, write_shown};
use crate::find::{DEFINED, INDEX, TABLE};
use crate::sink::RowSink;
use sqlite_trees::error::StoreError;
use sqlite_trees::store::{Alter, Direction};
use sqlite_value::row::Row;

fn is_known(known: Option<i64>, oid: i64) -> bool
    ensures { result ≡ true → known ≡ Some oid }
{
    match known {
        Some(it) => it == oid,
        None => false,
    }
}

/// Reads the definition of a relation into `definition`, unless it is there already. It returns
/// false where the relation has none.
fn define<S: Alter>(
    store: &mut S,
    definition: &mut Row,
    known: Option<i64>,
    oid: i64,
) -> Result<bool, StoreError>
    requires good { IsClean (S.Store.view store.old) → IsGood (S.Store.view store.old) }
    requires known { IsClean (S.Store.view store.old) →
        DefinesKnown (S.Store.view store.old).trees definition.old known }
    requires number { IsClean (S.Store.view store.old) → (o : ℕ) × (oid ≡ pos o) }
    ensures defines { IsClean (S.Store.view store.new) → IfOk result (λ found. found ≡ true →
        Defines (S.Store.view store.old).trees definition.new oid) }
    ensures same { IsClean (S.Store.view store.new) →
        OnOk result (S.Store.view store.new ≡ S.Store.view store.old) }
    ensures stay { OnOk result (StayLive (S.Store.view store.old) (S.Store.view store.new)) }
    ensures err { IsClean (S.Store.view store.new) →
        OnErr result (Keeps S.Store store.old store.new) }
    ensures quiet { IsQuiet S.Store.view S.Store.faults S.Store.recovers S.Store.is_shielded
        store.old store.new }
{
    if is_known(known, oid) {
        return Ok(true);
    }
    store.get(DEFINED, oid, definition)
}

/// Writes what is shown of an entry's row over `shown`, and returns the OID, whose definition is in
/// `definition` then.
fn show<S: Alter>(
    store: &mut S,
    entry: &Row,
    row: &mut Row,
    definition: &mut Row,
    shown: &mut Row,
    known: Option<i64>,
) -> Result<i64, StoreError>
    requires good { IsClean (S.Store.view store.old) → IsGood (S.Store.view store.old) }
    requires known { IsClean (S.Store.view store.old) →
        DefinesKnown (S.Store.view store.old).trees definition.old known }
    requires entry { IsClean (S.Store.view store.old) →
        Has ((S.Store.view store.old).trees 2) entry.now }
    ensures shown { IsClean (S.Store.view store.new) →
        OnOk result (shown.new ≡ shown_by (S.Store.view store.old).trees entry.now) }
    ensures defines { IsClean (S.Store.view store.new) →
        IfOk result (Defines (S.Store.view store.old).trees definition.new) }
    ensures same { IsClean (S.Store.view store.new) →
        OnOk result (S.Store.view store.new ≡ S.Store.view store.old) }
    ensures stay { OnOk result (StayLive (S.Store.view store.old) (S.Store.view store.new)) }
    ensures err { IsClean (S.Store.view store.new) →
        OnErr result (Keeps S.Store store.old store.new) }
    ensures quiet { IsQuiet S.Store.view S.Store.faults S.Store.recovers S.Store.is_shielded
        store.old store.new }
{
    let oid = oid_in(entry);
    if !define(store, definition, known, oid)? {
        return Err(StoreError::Corrupt);
    }
    if !store.get(TABLE, id_of(entry), row)? {
        return Err(StoreError::Corrupt);
    }
    write_shown(shown, definition, row)?;
    Ok(oid)
}

/// Gives all rows in the order of the index, and returns false where the sink stopped before the
/// end.
pub(crate) fn give_rows<S: Alter, T: RowSink>(
    store: &mut S,
    entry: &mut Row,
    row: &mut Row,
    definition: &mut Row,
    shown: &mut Row,
    sink: &mut T,
) -> Result<bool, StoreError>
    requires { IsClean (S.Store.view store.old) → IsGood (S.Store.view store.old) }
    ensures front { IsClean (S.Store.view store.new) → (start : T) →
        GivesFront (tables_of S.Store store.old) (T.RowSink.has_taken start sink.old)
        (T.RowSink.has_taken start sink.new) }
    ensures all { IsClean (S.Store.view store.new) → IfOk result (λ all. all ≡ true → (start : T) →
        GivesAll (tables_of S.Store store.old) (T.RowSink.has_taken start sink.old)
        (T.RowSink.has_taken start sink.new)) }
    ensures left { IsClean (S.Store.view store.new) → IfOk result (λ all. all ≡ false →
        LeavesAt (tables_of S.Store store.old) (T.RowSink.has_left sink.new)) }
    ensures same { IsClean (S.Store.view store.new) →
        OnOk result (OnlyReads (S.Store.view store.old) (S.Store.view store.new)) }
    ensures err { IsClean (S.Store.view store.new) →
        OnErr result (Keeps S.Store store.old store.new) }
    ensures quiet { IsQuiet S.Store.view S.Store.faults S.Store.recovers S.Store.is_shielded
        store.old store.new }
{
    entry.clear();
    store.seek(0, INDEX, entry, Direction::Forward)?;
    let mut known = None;
    for _ in 0..u64::MAX {
        if !store.next(0, entry)? {
            return Ok(true);
        }
        let oid = show(store, entry, row, definition, shown, known)?;
        known = Some(oid);
        if !sink.take(shown) {
            return Ok(false);
        }
    }
    // No file holds so many rows.
    Err(StoreError::Full)
}

/// Gives all rows of the transaction.
pub(crate) fn give_all<S: Alter, T: RowSink>(
    store: &mut S,
    entry: &mut Row,
    row: &mut Row,
    definition: &mut Row,
    shown: &mut Row,
    sink: &mut T,
    _last: Option<i64>,
) -> Result<bool, StoreError>
    requires { AreRows S.Store store.old _last }
    ensures front { IsClean (S.Store.view store.new) → (start : T) →
        GivesFront (tables_of S.Store store.old) (T.RowSink.has_taken start sink.old)
        (T.RowSink.has_taken start sink.new) }
    ensures all { IsClean (S.Store.view store.new) → IfOk result (λ all. all ≡ true → (start : T) →
        GivesAll (tables_of S.Store store.old) (T.RowSink.has_taken start sink.old)
        (T.RowSink.has_taken start sink.new)) }
    ensures left { IsClean (S.Store.view store.new) → IfOk result (λ all. all ≡ false →
        LeavesAt (tables_of S.Store store.old) (T.RowSink.has_left sink.new)) }
    ensures made { IsClean (S.Store.view store.new) → OnOk result
        (Makes S.Store (λ t. t) store.old store.new) }
    ensures rows { OnOk result (AreRows S.Store store.new _last) }
    ensures keeps { HasCleanDisk (state S.Store store.new) →
        Keeps S.Store store.old store.new }
    ensures quiet { IsQuiet S.Store.view S.Store.faults S.Store.recovers S.Store.is_shielded
        store.old store.new }
{
    if store.is_broken() {
        return Err(StoreError::Broken);
    }
    let all = give_rows(store, entry, row, definition, shown, sink)?;
    Ok(all)
}
