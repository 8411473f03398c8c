//! Batches of rows, each of which goes into the store in one.
//!
//! PostgreSQL documentation, Logical Replication Message Formats, Insert, TupleData.

ghost use Rattle.std.specs.Prelude.{◌≡◌, ◌≤◌, ◌<◌, ◌⊎◌, ◌++◌, ℕ, List, length, slice_get, Some};
ghost use Rattle.std.specs.Prelude.{OnOk, OnErr, IfOk, IfErr};
ghost use Rattle.pgtuple.specs.declared.cell.Cell.{Cell};
ghost use Rattle.pglogical.specs.declared.message.RelationDef.{RelationDef as Definition};
ghost use Rattle.pglogical.specs.Spelling.{IsDefinition};
ghost use Rattle.pgapply.specs.Value.{Tables};
ghost use Rattle.pgapply.specs.Apply.{fold_changes};
ghost use Rattle.pgapply.specs.Stored.{IsFault};
ghost use Rattle.pgapply.specs.Taken.{Folds};
ghost use Rattle.pgload.specs.Loads.{inserts};
ghost use Rattle.pgload.specs.Loading.{most_parts, AreRowsIn};
ghost use Rattle.pgload.specs.Faults.{IsStoreFault};

use crate::fault::LoadFault;
use pgapply::{Op, ReplicaStore, StoreFault, Work};
use pglogical::RelationDef;
use pglsn::Lsn;
use pgtuple::decode_ref;
use std::alloc::Global;

/// The greatest position of a store whose load hasn't ended. Each LSN of a server is above it: its
/// log begins with the second segment, and a segment has a megabyte at least.
///
/// PostgreSQL documentation, WAL Internals; initdb, `--wal-segsize`.
pub const MOST_PARTS: u64 = 1048575;

// Adds an Insert for each of the rows that these bytes encode.
fn insert_rows<'a>(work: &mut Work<'a>, def: usize, rows: &'a [u8]) -> Result<(), StoreFault>
    requires { def < length work.old.definitions }
    ensures definitions { work.new.definitions ≡ work.old.definitions }
    ensures changes { OnOk result ((cells : List (List Cell)) → AreRowsIn rows.now cells →
        (definition : Definition) → slice_get work.old.definitions def ≡ Some definition →
        work.new.changes ≡ work.old.changes ++ inserts definition cells) }
    ensures memory { IfErr result (λ fault. fault ≡ StoreFault.Memory) }
{
    let mut rest = rows;
    while let Ok((row, len)) = decode_ref(rest) {
        work.change(def, Op::Insert { row })?;
        rest = &rest[len..];
    }
    Ok(())
}

// The end of the next batch: no server's LSN.
fn next_part<C: ReplicaStore>(store: &C) -> Result<Lsn, LoadFault>
    ensures next { IfOk result (λ end. (C.place store.now < end) × (end ≤ most_parts)) }
    ensures fault { IfErr result (λ fault. (fault ≡ LoadFault.TooManyBatches)
        × (most_parts ≤ C.place store.now)) }
{
    let position = store.position();
    if position.0 >= MOST_PARTS {
        return Err(LoadFault::TooManyBatches);
    }
    Ok(Lsn(position.0 + 1))
}

/// Stores an Insert for each of the rows that these bytes encode, as a commit of no history, or
/// none of them.
pub(crate) fn store_rows<C: ReplicaStore>(
    alloc: Global,
    store: &mut C,
    definition: &RelationDef,
    rows: &[u8],
) -> Result<(), LoadFault>
    requires { IsDefinition definition.now }
    ensures stored { C.serves store.new → OnOk result ((cells : List (List Cell)) →
        AreRowsIn rows.now cells →
        Folds C.holds store.old store.new (inserts definition.now cells)) }
    ensures part { OnOk result (C.place store.new ≤ most_parts) }
    ensures kept { OnErr result (C.place store.new ≡ C.place store.old) }
    ensures fault { IfErr result (λ fault. IsStoreFault fault (most_parts ≤ C.place store.old)
        (λ of. (cells : List (List Cell)) →
        AreRowsIn rows.now cells → C.serves store.new → (tables : Tables) →
        C.holds store.old tables →
        IsFault of (fold_changes tables (inserts definition.now cells)))) }
    ensures served { C.serves store.new → C.serves store.old }
    ensures honest { C.is_honest store.new → C.is_honest store.old }
    ensures crash { C.is_honest store.new → (other : C) → C.reopens store.new other →
        C.reopens store.old other ⊎ (C.place other ≤ most_parts) }
{
    let end = next_part(store)?;
    let Ok(definition) = definition.copy(alloc) else {
        return Err(LoadFault::Memory);
    };
    let mut work = Work::new(alloc);
    let number = work.define(definition)?;
    insert_rows(&mut work, number, rows)?;
    store.take(end, &work)?;
    Ok(())
}
