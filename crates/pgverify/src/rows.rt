//! The rows of `held` by rising rowid, each given and counted once.

ghost use Rattle.std.specs.Prelude.{◌≡◌, true, false, length, IsSome, IfOk, OnOk};
ghost use Rattle.sqlite_trees.specs.View.{IsClean, IsQuiet, StayLive};
ghost use Rattle.sqlite_exec.specs.Calls.{OnlyReads, ReadsFrom};
ghost use Rattle.pgverify.specs.Seen.{HasGiven};

use sqlite_trees::error::StoreError;
use sqlite_trees::store::{Direction, Store};
use sqlite_value::row::Row;
use sqlite_value::value::ValueRef;
use std::alloc::Global;

/// The tree of `held`.
pub(crate) const TABLE: u32 = 1;

/// The cursor over it.
const CURSOR: u16 = 1;

/// How many rowids the cursor goes on by, row by row, to one that it is to give.
const NEAR: i64 = 1024;

/// A cursor over the rows.
#[derive(Drop)]
pub(crate) struct RowCursor {
    /// The row that it gave last, or nothing at the end.
    pub(crate) row: Row,
    /// How many it gave.
    pub(crate) count: u64,
}

impl RowCursor {
    /// A cursor that gave the first row.
    pub(crate) fn begin<S: Store>(store: &mut S, alloc: Global) -> Result<RowCursor, StoreError>
        ensures given { IsClean (S.Store.view store.new) → IfOk result (λ it.
            HasGiven (S.Store.view store.new) it.row it.count) }
        ensures live { OnOk result (IsSome ((S.Store.view store.new).cursors 1)) }
        ensures same { OnOk result (IsClean (S.Store.view store.new) →
            OnlyReads (S.Store.view store.old) (S.Store.view store.new)) }
        ensures quiet { IsQuiet S.Store.view S.Store.faults S.Store.recovers S.Store.is_shielded
            store.old store.new }
    {
        let row = Row::new(alloc);
        store.seek(CURSOR, TABLE, &row, Direction::Forward)?;
        let mut rows = RowCursor { row, count: 0 };
        rows.step(store)?;
        Ok(rows)
    }

    /// Gives the next row, or nothing at the end, and returns whether there was one.
    fn step<S: Store>(&mut self, store: &mut S) -> Result<bool, StoreError>
        requires { IsSome ((S.Store.view store.old).cursors 1) }
        ensures given { IsClean (S.Store.view store.new) → OnOk result
            (HasGiven (S.Store.view store.old) self.old.row self.old.count →
            HasGiven (S.Store.view store.new) self.new.row self.new.count) }
        ensures ended { IsClean (S.Store.view store.new) → IfOk result (λ found. found ≡ false →
            HasGiven (S.Store.view store.old) self.old.row self.old.count →
            self.new.count ≡ length ((S.Store.view store.old).trees 1)) }
        ensures reads { OnOk result (IsClean (S.Store.view store.new) →
            ReadsFrom 1 (S.Store.view store.old) (S.Store.view store.new)) }
        ensures stay { OnOk result (StayLive (S.Store.view store.old) (S.Store.view store.new)) }
        ensures quiet { IsQuiet S.Store.view S.Store.faults S.Store.recovers S.Store.is_shielded
            store.old store.new }
    {
        if !store.next(CURSOR, &mut self.row)? {
            self.row.clear();
            return Ok(false);
        }
        // No file holds so many rows.
        if self.count == u64::MAX {
            return Err(StoreError::Full);
        }
        self.count += 1;
        Ok(true)
    }

    /// Whether the row that it gave last stands before this rowid, and near it.
    fn is_shortly_before(&self, id: i64) -> bool {
        match self.row.get(0) {
            ValueRef::Int(at) => at < id && id <= at.saturating_add(NEAR),
            _ => false,
        }
    }

    /// Goes on to the row of this rowid, where it comes soon. Where it doesn't, the cursor waits at
    /// its own row, which comes sooner or later where keys rise with the rowids.
    pub(crate) fn reach<S: Store>(&mut self, store: &mut S, id: i64) -> Result<(), StoreError>
        requires { IsSome ((S.Store.view store.old).cursors 1) }
        ensures given { IsClean (S.Store.view store.new) → OnOk result
            (HasGiven (S.Store.view store.old) self.old.row self.old.count →
            HasGiven (S.Store.view store.new) self.new.row self.new.count) }
        ensures reads { OnOk result (IsClean (S.Store.view store.new) →
            ReadsFrom 1 (S.Store.view store.old) (S.Store.view store.new)) }
        ensures stay { OnOk result (StayLive (S.Store.view store.old) (S.Store.view store.new)) }
        ensures quiet { IsQuiet S.Store.view S.Store.faults S.Store.recovers S.Store.is_shielded
            store.old store.new }
    {
        'rows: for _ in 0..NEAR {
            if !self.is_shortly_before(id) {
                return Ok(());
            }
            self.step(store)?;
        }
        Ok(())
    }

    /// How many rows there are. It gives all that are left.
    pub(crate) fn count_all<S: Store>(&mut self, store: &mut S) -> Result<u64, StoreError>
        requires { IsSome ((S.Store.view store.old).cursors 1) }
        ensures count { IsClean (S.Store.view store.new) → IfOk result (λ count.
            HasGiven (S.Store.view store.old) self.old.row self.old.count →
            count ≡ length ((S.Store.view store.old).trees 1)) }
        ensures same { OnOk result (IsClean (S.Store.view store.new) →
            OnlyReads (S.Store.view store.old) (S.Store.view store.new)) }
        ensures quiet { IsQuiet S.Store.view S.Store.faults S.Store.recovers S.Store.is_shielded
            store.old store.new }
    {
        'rows: for _ in 0..u64::MAX {
            if !self.step(store)? {
                return Ok(self.count);
            }
        }
        // No file holds so many rows.
        Err(StoreError::Full)
    }
}
