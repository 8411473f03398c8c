//! Puts a row whose key is new.

ghost use Rattle.std.specs.Prelude.{◌≡◌, ◌<ℤ◌, ℤ, true, false, IsSome, Some, None, IfOk, OnOk};
ghost use Rattle.std.specs.Prelude.{OnErr, ◌∷◌};
ghost use Rattle.std.specs.FinMap.{get};
ghost use Rattle.sqlite.specs.State.{HasCleanDisk};
ghost use Rattle.sqlite_trees.specs.View.{IsClean, IsQuiet, OnlyWrites};
ghost use Rattle.sqlite_exec.specs.Calls.{OnlyReads};
ghost use Rattle.pgtables.specs.Kept.{IsKept, tables_in, with_row};
ghost use Rattle.pgrows.specs.Gap.{IsGap, IsNext};
ghost use Rattle.pgrows.specs.Rows.{AreBelow, AreRows, HasGap, IsFree, IsGood, IsUnder, Keeps};
ghost use Rattle.pgrows.specs.Rows.{IsStored, Makes, database, index_row, state, tables_of};

use crate::entry::{write_entry, write_row};
use crate::find::{INDEX, TABLE, find_entry};
use crate::gap::is_between;
use sqlite_exec::write;
use sqlite_rules::edit::id_in;
use sqlite_trees::error::StoreError;
use sqlite_trees::store::Alter;
use sqlite_value::row::Row;

/// The rowid of the last row, or zero.
fn read_top<S: Alter>(store: &mut S, row: &mut Row) -> Result<i64, StoreError>
    requires { IsClean (S.Store.view store.old) → IsGood (S.Store.view store.old) }
    ensures below { IsClean (S.Store.view store.new) →
        IfOk result (λ n. AreBelow n ((S.Store.view store.old).trees 1)) }
    ensures same { IsClean (S.Store.view store.new) →
        OnOk result (OnlyReads (S.Store.view store.old) (S.Store.view store.new)) }
    ensures err { IsClean (S.Store.view store.new) →
        OnErr result (Keeps S.Store store.old store.new) }
    ensures quiet { IsQuiet S.Store.view S.Store.faults S.Store.recovers S.Store.is_shielded
        store.old store.new }
{
    if write::last(store, TABLE, row)? {
        return Ok(id_in(row.get(0)));
    }
    Ok(0)
}

/// A rowid that none is above: the last that was given, or else the table's last. The first call
/// after the opening reads it.
pub(crate) fn top_of<S: Alter>(
    store: &mut S,
    row: &mut Row,
    last: Option<i64>,
) -> Result<i64, StoreError>
    requires { AreRows S.Store store.old last }
    ensures under { IsClean (S.Store.view store.new) →
        IfOk result (λ n. IsUnder (S.Store.view store.old) (Some n)) }
    ensures same { IsClean (S.Store.view store.new) →
        OnOk result (OnlyReads (S.Store.view store.old) (S.Store.view store.new)) }
    ensures err { IsClean (S.Store.view store.new) →
        OnErr result (Keeps S.Store store.old store.new) }
    ensures quiet { IsQuiet S.Store.view S.Store.faults S.Store.recovers S.Store.is_shielded
        store.old store.new }
{
    if store.is_broken() {
        return Err(StoreError::Broken);
    }
    match last {
        Some(last) => Ok(last),
        None => read_top(store, row),
    }
}

/// Puts a row with a rowid that is above all, and its entry.
fn put_new<S: Alter>(
    store: &mut S,
    entry: &mut Row,
    row: &mut Row,
    _last: i64,
    id: i64,
    oid: u32,
    ident: &[u8],
    body: &[u8],
    copies: u32,
) -> Result<(), StoreError>
    requires good { IsClean (S.Store.view store.old) → IsGood (S.Store.view store.old) }
    requires free { IsClean (S.Store.view store.old) →
        IsFree oid ident.now ((S.Store.view store.old).trees 1) }
    requires below { IsClean (S.Store.view store.old) →
        AreBelow _last ((S.Store.view store.old).trees 1) }
    requires above { _last <ℤ id }
    ensures kept { IsClean (S.Store.view store.new) → OnOk result
        (IsKept (database (S.Store.view store.new).trees)
        × (tables_of S.Store store.new ≡ with_row oid ident.now
        (record { body = body.now; copies = copies }) (tables_of S.Store store.old))) }
    ensures below { IsClean (S.Store.view store.new) → OnOk result
        (AreBelow id ((S.Store.view store.new).trees 1)) }
    ensures entry { OnOk result (entry.new ≡ index_row oid ident.now id) }
    ensures frame { IsClean (S.Store.view store.new) →
        OnOk result (OnlyWrites (S.Store.view store.old) (S.Store.view store.new)) }
    ensures err { IsClean (S.Store.view store.new) →
        OnErr result (Keeps S.Store store.old store.new) }
    ensures quiet { IsQuiet S.Store.view S.Store.faults S.Store.recovers S.Store.is_shielded
        store.old store.new }
{
    write_entry(entry, oid, ident, id)?;
    write_row(row, id, oid, ident, body, copies)?;
    store.insert(INDEX, entry)?;
    store.put(TABLE, row)
}

/// Puts a row whose key is missing, and returns its rowid.
pub(crate) fn append<S: Alter>(
    store: &mut S,
    entry: &mut Row,
    row: &mut Row,
    last: i64,
    oid: u32,
    ident: &[u8],
    body: &[u8],
    copies: u32,
) -> Result<i64, StoreError>
    requires good { IsClean (S.Store.view store.old) → IsGood (S.Store.view store.old) }
    requires free { IsClean (S.Store.view store.old) →
        IsFree oid ident.now ((S.Store.view store.old).trees 1) }
    requires below { IsClean (S.Store.view store.old) →
        AreBelow last ((S.Store.view store.old).trees 1) }
    ensures kept { IsClean (S.Store.view store.new) → OnOk result
        (IsKept (database (S.Store.view store.new).trees)
        × (tables_of S.Store store.new ≡ with_row oid ident.now
        (record { body = body.now; copies = copies }) (tables_of S.Store store.old))) }
    ensures below { IsClean (S.Store.view store.new) → IfOk result
        (λ id. AreBelow id ((S.Store.view store.new).trees 1)) }
    ensures above { IfOk result (λ id. last <ℤ id) }
    ensures entry { IfOk result (λ id. entry.new ≡ index_row oid ident.now id) }
    ensures frame { IsClean (S.Store.view store.new) →
        OnOk result (OnlyWrites (S.Store.view store.old) (S.Store.view store.new)) }
    ensures err { IsClean (S.Store.view store.new) →
        OnErr result (Keeps S.Store store.old store.new) }
    ensures quiet { IsQuiet S.Store.view S.Store.faults S.Store.recovers S.Store.is_shielded
        store.old store.new }
{
    let Some(id) = last.checked_add(1) else {
        return Err(StoreError::Full);
    };
    put_new(store, entry, row, last, id, oid, ident, body, copies)?;
    Ok(id)
}

/// Whether no row has the key. One between `low` and `high` needs no search. Then `high` is the
/// first entry after the key.
fn is_missing<S: Alter>(
    store: &mut S,
    low: &mut Row,
    high: &mut Row,
    oid: u32,
    ident: &[u8],
) -> Result<bool, StoreError>
    requires good { IsClean (S.Store.view store.old) → IsGood (S.Store.view store.old) }
    requires gap { IsClean (S.Store.view store.old) →
        IsGap low.old high.old (tables_of S.Store store.old).rows }
    ensures free { IsClean (S.Store.view store.new) → IfOk result (λ missing. missing ≡ true →
        IsFree oid ident.now ((S.Store.view store.old).trees 1)) }
    ensures there { IsClean (S.Store.view store.new) → IfOk result (λ missing. missing ≡ false →
        (id : ℤ) × IsStored oid ident.now ((S.Store.view store.old).trees 1) id) }
    ensures next { IsClean (S.Store.view store.new) → OnOk result
        (IsNext oid ident.now high.new (tables_of S.Store store.old).rows) }
    ensures same { IsClean (S.Store.view store.new) →
        OnOk result (OnlyReads (S.Store.view store.old) (S.Store.view store.new)) }
    ensures err { IsClean (S.Store.view store.new) →
        OnErr result (Keeps S.Store store.old store.new) }
    ensures quiet { IsQuiet S.Store.view S.Store.faults S.Store.recovers S.Store.is_shielded
        store.old store.new }
{
    if is_between(low, high, oid, ident) {
        return Ok(true);
    }
    let found = find_entry(store, low, high, oid, ident)?;
    Ok(found.is_none())
}

/// Puts a row whose key is not there yet, and returns whether it isn't, and the last rowid. Its
/// entry is `low` then, and the one after it is `high`.
pub(crate) fn add<S: Alter>(
    store: &mut S,
    low: &mut Row,
    high: &mut Row,
    row: &mut Row,
    last: Option<i64>,
    oid: u32,
    ident: &[u8],
    body: &[u8],
    copies: u32,
) -> Result<(bool, i64), StoreError>
    requires rows { AreRows S.Store store.old last }
    requires gap { HasGap S.Store store.old low.old high.old }
    ensures added { IsClean (S.Store.view store.new) → IfOk result (λ it. it.0 ≡ true →
        (get (tables_of S.Store store.old).rows (oid ∷ ident.now) ≡ None)
        × Makes S.Store (with_row oid ident.now (record { body = body.now; copies = copies }))
        store.old store.new) }
    ensures there { IsClean (S.Store.view store.new) → IfOk result (λ it. it.0 ≡ false →
        IsSome (get (tables_of S.Store store.old).rows (oid ∷ ident.now))
        × Makes S.Store (λ t. t) store.old store.new) }
    ensures rows { IfOk result (λ it. AreRows S.Store store.new (Some it.1)) }
    ensures gap { OnOk result (HasGap S.Store store.new low.new high.new) }
    ensures keeps { HasCleanDisk (state S.Store store.new) →
        Keeps S.Store store.old store.new }
    ensures quiet { IsQuiet S.Store.view S.Store.faults S.Store.recovers S.Store.is_shielded
        store.old store.new }
{
    let top = top_of(store, row, last)?;
    if !is_missing(store, low, high, oid, ident)? {
        low.clear();
        return Ok((false, top));
    }
    let id = append(store, low, row, top, oid, ident, body, copies)?;
    Ok((true, id))
}
