//! Rows that are parked under an OID that no other row has, so that the rows of a table of any size
//! are carried over in the memory of one: under their new identities they could meet those that
//! aren't carried yet.

ghost use Rattle.std.specs.Prelude.{◌≡◌, ◌≢◌, OnOk, IfOk, IfErr};
ghost use Rattle.sqlite.specs.State.{HasCleanDisk};
ghost use Rattle.pgrows.specs.Rows.{Makes, state, tables_of};
ghost use Rattle.pgrows.specs.Walk.{HasNoRow};
ghost use Rattle.pgapply.specs.Stored.{IsOwnFault};
ghost use Rattle.pgencoded.specs.Acts.{Goes};
ghost use Rattle.pgreshaping.specs.Parks.{ParksAll, RefusesToPark, parked_row};

use pgapply::StoreFault;
use pgencoded::Refusal;
use pgrows::Rows;
use pgtables::StoredRow;
use sqlite::Alter;
use std::alloc::Global;

/// An OID that no row has, and not this one. PostgreSQL gives none to OID 0, so the first is free
/// as a rule.
pub(crate) fn free_oid<S: Alter>(rows: &mut Rows<S>, oid: u32) -> Result<u32, Refusal>
    ensures apart { IfOk result (λ park. park ≢ oid) }
    ensures free { HasCleanDisk (state S.Store rows.new) →
        IfOk result (λ park. HasNoRow park (tables_of S.Store rows.old).rows) }
    ensures made { HasCleanDisk (state S.Store rows.new) →
        OnOk result (Makes S.Store (λ t. t) rows.old rows.new) }
    ensures fault { IfErr result IsOwnFault }
    ensures goes { Goes S.Store rows.old rows.new }
{
    for park in 0..u32::MAX {
        if park != oid && !rows.has_rows(park)? {
            return Ok(park);
        }
    }
    // No file holds the rows of so many tables.
    Err(Refusal::new(StoreFault::Refused))
}

/// A row goes to the other OID, with its identity and its copies.
fn park_row<S: Alter>(
    rows: &mut Rows<S>,
    oid: u32,
    park: u32,
    ident: &[u8],
    kept: &StoredRow,
) -> Result<(), Refusal>
    ensures made { HasCleanDisk (state S.Store rows.new) → OnOk result
        (Makes S.Store (parked_row oid park ident.now kept.now) rows.old rows.new) }
    ensures fault { IfErr result IsOwnFault }
    ensures goes { Goes S.Store rows.old rows.new }
{
    rows.put_row(park, ident, kept.body(), kept.copies())?;
    let _was_there = rows.delete_row(oid, ident)?;
    Ok(())
}

/// All rows of the relation go to the other OID, one after the other.
pub(crate) fn park_rows<S: Alter>(
    rows: &mut Rows<S>,
    alloc: Global,
    oid: u32,
    park: u32,
) -> Result<(), Refusal>
    requires { park ≢ oid }
    ensures made { HasCleanDisk (state S.Store rows.new) →
        OnOk result (ParksAll S.Store rows.old rows.new oid park) }
    ensures fault { HasCleanDisk (state S.Store rows.new) →
        IfErr result (RefusesToPark S.Store rows.old oid park) }
    ensures goes { Goes S.Store rows.old rows.new }
{
    for _ in 0..u64::MAX {
        let Some((ident, kept)) = rows.next_row(alloc, oid, &[])? else {
            return Ok(());
        };
        park_row(rows, oid, park, ident.as_slice(), &kept)?;
    }
    // No file holds so many rows.
    Err(Refusal::new(StoreFault::Refused))
}
