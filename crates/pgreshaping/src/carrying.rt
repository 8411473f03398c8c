//! Rows that are carried over where their relation comes with another shape.
//!
//! PostgreSQL documentation, Logical Replication Message Formats, Relation; Logical Replication,
//! Restrictions.

ghost use Rattle.std.specs.Prelude.{◌≡◌, ◌≢◌, ◌&&◌, nat_lt, OnOk, IfErr};
ghost use Rattle.sqlite.specs.State.{HasCleanDisk};
ghost use Rattle.pglogical.specs.Spelling.{IsDefinition};
ghost use Rattle.pgrel.specs.Carried.{places};
ghost use Rattle.pgrel.specs.Identity.{keyed};
ghost use Rattle.pgrows.specs.Rows.{state};
ghost use Rattle.pgencoded.specs.Acts.{Goes};
ghost use Rattle.pgreshaping.specs.Carries.{JoinsCopies, RefusesCopies, Joins, RefusesToJoin};
ghost use Rattle.pgreshaping.specs.Carries.{CarriesAll, CarriesOne, RefusesToCarry};
ghost use Rattle.pgreshaping.specs.Carries.{RefusesToCarryOne};

use pgapply::StoreFault;
use pgencoded::{MOST_COPIES, Refusal, encode, encode_identity, read_tuple};
use pglogical::RelationDef;
use pgrel::{Carrying, keyed};
use pgrows::Rows;
use pgtables::StoredRow;
use sqlite::Alter;
use std::alloc::Global;

/// Copies join those of a row that is stored at their identity, where the table is a bag.
fn join_copies<S: Alter>(
    rows: &mut Rows<S>,
    def: &RelationDef,
    identity: &[u8],
    body: &[u8],
    copies: u32,
    there: &StoredRow,
) -> Result<(), Refusal>
    ensures made { HasCleanDisk (state S.Store rows.new) →
        OnOk result (JoinsCopies S.Store def.now identity.now body.now copies there.now rows.old
        rows.new) }
    ensures fault { IfErr result (RefusesCopies def.now copies there.now) }
    ensures goes { Goes S.Store rows.old rows.new }
{
    if keyed(def) {
        return Err(Refusal::new(StoreFault::Clash));
    }
    let others = there.copies();
    if copies > MOST_COPIES || others > MOST_COPIES - copies {
        return Err(Refusal::new(StoreFault::TooManyCopies));
    }
    rows.put_row(def.oid, identity, body, others + copies)?;
    Ok(())
}

/// Whether so many copies can't be stored under a key.
fn clashes(def: &RelationDef, copies: u32) -> bool
    ensures { result ≡ (keyed def.now && nat_lt 1 copies) }
{
    keyed(def) && copies > 1
}

/// A row comes with its copies: once under a key, and to those that are there in a bag.
fn add_carried<S: Alter>(
    rows: &mut Rows<S>,
    def: &RelationDef,
    identity: &[u8],
    body: &[u8],
    copies: u32,
) -> Result<(), Refusal>
    ensures made { HasCleanDisk (state S.Store rows.new) →
        OnOk result (Joins S.Store rows.old rows.new def.now identity.now body.now
        copies) }
    ensures fault { HasCleanDisk (state S.Store rows.new) →
        IfErr result (RefusesToJoin S.Store rows.old def.now identity.now body.now copies) }
    ensures goes { Goes S.Store rows.old rows.new }
{
    if clashes(def, copies) {
        return Err(Refusal::new(StoreFault::Clash));
    }
    match rows.find_row(def.oid, identity)? {
        None => {
            rows.put_row(def.oid, identity, body, copies)?;
            Ok(())
        }
        Some(there) => join_copies(rows, def, identity, body, copies, &there),
    }
}

/// One row as it is under the new definition, under its new identity. One that no store writes is
/// `NotAStore`.
fn carry_row<S: Alter>(
    rows: &mut Rows<S>,
    alloc: Global,
    old: &RelationDef,
    def: &RelationDef,
    carrying: &Carrying,
    kept: &StoredRow,
) -> Result<(), Refusal>
    requires definition { IsDefinition def.now }
    requires carrying { carrying.now ≡ places old.now.columns def.now.columns }
    ensures made { HasCleanDisk (state S.Store rows.new) →
        OnOk result (CarriesOne S.Store rows.old rows.new old.now def.now kept.now) }
    ensures fault { HasCleanDisk (state S.Store rows.new) →
        IfErr result (RefusesToCarryOne S.Store rows.old old.now def.now kept.now) }
    ensures goes { Goes S.Store rows.old rows.new }
{
    let was = read_tuple(kept.body())?;
    if was.width() != old.columns.len() {
        return Err(Refusal::new(StoreFault::NotAStore));
    }
    let next = carrying.carry(alloc, &was)?;
    let row = next.borrowed();
    let identity = encode_identity(alloc, def, &row)?;
    let body = encode(alloc, &row)?;
    add_carried(
        rows,
        def,
        identity.as_slice(),
        body.as_slice(),
        kept.copies(),
    )
}

/// The rows that are parked, one after the other, up to the first that is rejected.
pub(crate) fn unpark_rows<S: Alter>(
    rows: &mut Rows<S>,
    alloc: Global,
    old: &RelationDef,
    def: &RelationDef,
    park: u32,
) -> Result<(), Refusal>
    requires definition { IsDefinition def.now }
    requires apart { park ≢ def.now.oid }
    ensures made { HasCleanDisk (state S.Store rows.new) → OnOk result
        (CarriesAll S.Store rows.old rows.new old.now def.now park) }
    ensures fault { HasCleanDisk (state S.Store rows.new) →
        IfErr result (RefusesToCarry S.Store rows.old old.now def.now park) }
    ensures goes { Goes S.Store rows.old rows.new }
{
    let carrying = Carrying::new(alloc, old, def)?;
    for _ in 0..u64::MAX {
        let Some((ident, kept)) = rows.next_row(alloc, park, &[])? else {
            return Ok(());
        };
        carry_row(rows, alloc, old, def, &carrying, &kept)?;
        let _was_parked = rows.delete_row(park, ident.as_slice())?;
    }
    // No file holds so many rows.
    Err(Refusal::new(StoreFault::Refused))
}
