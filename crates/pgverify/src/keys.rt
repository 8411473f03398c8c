//! The entries of the index beside the rows that they name.

ghost use Rattle.std.specs.Prelude.{◌≡◌, [], ◌∷◌, Ok, true, IsSome, OnOk};
ghost use Rattle.sqlite_trees.specs.declared.store.Shape.TheVariants.{Table};
ghost use Rattle.sqlite_trees.specs.View.{IsClean, IsQuiet, StayLive};
ghost use Rattle.sqlite_exec.specs.Calls.{OnlyReads, ReadsFrom};
ghost use Rattle.sqlite_sql.specs.Catalog.{entry_of};
ghost use Rattle.pgverify.specs.Seen.{AreMatched, HasGiven, IsNamed, IsSameKey};

use crate::held::is_held_row;
use crate::rows::{RowCursor, TABLE};
use pgtables::RowCheck;
use sqlite_trees::error::StoreError;
use sqlite_trees::store::{Direction, Store};
use sqlite_value::order::is_same;
use sqlite_value::row::Row;
use sqlite_value::value::ValueRef;
use std::alloc::Global;

/// The tree of the index.
const INDEX: u32 = 2;

/// Whether two entries have one OID and one identity.
fn is_same_key(entry: &Row, other: &Row) -> bool
    ensures { IsSameKey entry.now other.now → result ≡ true }
{
    is_same(entry.get(0), other.get(0)) && is_same(entry.get(1), other.get(1))
}

/// Whether an entry is that of a row: its OID, its identity and its rowid.
fn is_entry_of(entry: &Row, row: &Row) -> bool
    ensures { result ≡ true → entry.now ≡ entry_of (1 ∷ 2 ∷ []) row.now }
{
    if entry.len() != 3 || !is_same(entry.get(2), row.get(0)) {
        return false;
    }
    is_same(entry.get(0), row.get(1)) && is_same(entry.get(1), row.get(2))
}

/// Whether an entry is that of a row, which the check accepts. The row is the cursor's next, or is
/// read by its rowid into `found`.
fn is_named<S: Store, C: RowCheck>(
    store: &mut S,
    alloc: Global,
    check: &C,
    entry: &Row,
    rows: &mut RowCursor,
    found: &mut Row,
) -> Result<bool, StoreError>
    requires table { IsClean (S.Store.view store.old) → (S.Store.view store.old).shape 1 ≡ Table }
    requires live { IsSome ((S.Store.view store.old).cursors 1) }
    ensures named { IsClean (S.Store.view store.new) → result ≡ Ok true →
        HasGiven (S.Store.view store.old) rows.old.row rows.old.count →
        IsNamed C.RowCheck.accepts check.now ((S.Store.view store.old).trees 1) entry.now }
    ensures given { IsClean (S.Store.view store.new) → OnOk result
        (HasGiven (S.Store.view store.old) rows.old.row rows.old.count →
        HasGiven (S.Store.view store.new) rows.new.row rows.new.count) }
    ensures reads { OnOk result (IsClean (S.Store.view store.new) →
        ReadsFrom 1 (S.Store.view store.old) (S.Store.view store.new)) }
    ensures stay { OnOk result (StayLive (S.Store.view store.old) (S.Store.view store.new)) }
    ensures quiet { IsQuiet S.Store.view S.Store.faults S.Store.recovers S.Store.is_shielded
        store.old store.new }
{
    let ValueRef::Int(id) = entry.get(2) else {
        return Ok(false);
    };
    rows.reach(store, id)?;
    if is_entry_of(entry, &rows.row) {
        return is_held_row(alloc, check, &rows.row);
    }
    if !store.get(TABLE, id, found)? {
        return Ok(false);
    }
    if !is_entry_of(entry, found) {
        return Ok(false);
    }
    is_held_row(alloc, check, found)
}

/// Whether each entry of the index is that of a row, which the check accepts, no two neighbors have
/// one key, and there are as many entries as rows. Nothing changes.
pub(crate) fn are_matched<S: Store, C: RowCheck>(
    store: &mut S,
    alloc: Global,
    check: &C,
) -> Result<bool, StoreError>
    requires { IsClean (S.Store.view store.old) → (S.Store.view store.old).shape 1 ≡ Table }
    ensures matched { IsClean (S.Store.view store.new) → result ≡ Ok true →
        AreMatched C.RowCheck.accepts check.now ((S.Store.view store.old).trees 1)
        ((S.Store.view store.old).trees 2) }
    ensures same { OnOk result (IsClean (S.Store.view store.new) →
        OnlyReads (S.Store.view store.old) (S.Store.view store.new)) }
    ensures quiet { IsQuiet S.Store.view S.Store.faults S.Store.recovers S.Store.is_shielded
        store.old store.new }
{
    let mut rows = RowCursor::begin(store, alloc)?;
    let mut entry = Row::new(alloc);
    let mut last = Row::new(alloc);
    let mut found = Row::new(alloc);
    store.seek(0, INDEX, &entry, Direction::Forward)?;
    'entries: for count in 0..u64::MAX {
        if !store.next(0, &mut entry)? {
            let all = rows.count_all(store)?;
            return Ok(all == count);
        }
        if is_same_key(&last, &entry) {
            return Ok(false);
        }
        if !is_named(store, alloc, check, &entry, &mut rows, &mut found)? {
            return Ok(false);
        }
        last.copy_from(&entry)?;
    }
    // No file holds so many entries.
    Err(StoreError::Full)
}
