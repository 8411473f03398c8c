//! What is done to the rows of one relation.
//!
//! PostgreSQL documentation, Logical Replication; ALTER TABLE, REPLICA IDENTITY.

ghost use Rattle.std.specs.Prelude.{◌≡◌, true, not, List, length, Some, OnOk, IfOk, IfErr, Ok};
ghost use Rattle.sqlite.specs.State.{HasCleanDisk};
ghost use Rattle.pgtuple.specs.declared.cell.Cell.{Cell};
ghost use Rattle.pgtuple.specs.Cells.{tuple_spelling};
ghost use Rattle.pgtuple.specs.Limits.{IsWireTuple};
ghost use Rattle.pgrel.specs.Identity.{searched_identity};
ghost use Rattle.pgtables.specs.Kept.{is_there};
ghost use Rattle.pgrows.specs.Rows.{Makes, state, tables_of, with_row_if_there};
ghost use Rattle.pgapply.specs.declared.op.Op.TheVariants as op;
ghost use Rattle.pgapply.specs.Apply.{with_row, rows_after};
ghost use Rattle.pgapply.specs.Stored.{IsOwnFault};
ghost use Rattle.pgencoded.specs.Acts.{IsNewRow, Adds, Changes, Goes, Refuses, Moves};
ghost use Rattle.pgencoded.specs.Acts.{RefusesToMove, Replaces, RefusesToReplace, AddsCopy};
ghost use Rattle.pgencoded.specs.Acts.{RefusesCopy, StaysWhole, KeepsPlace, TellsMissing};
ghost use Rattle.pgencoded.specs.Acts.{refilled_row, taken_row};

use pgapply::{Op, StoreFault};
use pgencoded::{
    MOST_COPIES, Refusal, encode, encode_identity, encode_searched, read_tuple, reborrow_prior,
};
use pglogical::{OldKind, RelationDef};
use pgrel::{check_insert, has_unchanged, keyed, resolve};
use pgrows::Rows;
use pgtables::StoredRow;
use pgtuple::TupleRef;
use sqlite::Alter;
use std::alloc::Global;

/// A row goes; of several copies one.
fn take_row<S: Alter>(
    rows: &mut Rows<S>,
    oid: u32,
    identity: &[u8],
    row: &StoredRow,
) -> Result<(), Refusal>
    ensures made { HasCleanDisk (state S.Store rows.new) →
        OnOk result (Makes S.Store (taken_row oid identity.now row.now) rows.old
        rows.new) }
    ensures fault { IfErr result IsOwnFault }
    ensures goes { Goes S.Store rows.old rows.new }
{
    let copies = row.copies();
    if copies > 1 {
        rows.put_row(oid, identity, row.body(), copies - 1)?;
    } else {
        let _was_there = rows.delete_row(oid, identity)?;
    }
    Ok(())
}

/// One more copy of a row that is stored already, in a table without a usable key (a bag).
fn add_copy<S: Alter>(
    rows: &mut Rows<S>,
    def: &RelationDef,
    identity: &[u8],
    body: &[u8],
    there: &StoredRow,
) -> Result<(), Refusal>
    ensures made { HasCleanDisk (state S.Store rows.new) →
        OnOk result (AddsCopy S.Store def.now identity.now body.now there.now rows.old
        rows.new) }
    ensures fault { IfErr result (RefusesCopy def.now there.now) }
    ensures goes { Goes S.Store rows.old rows.new }
{
    if keyed(def) {
        return Err(Refusal::new(StoreFault::Clash));
    }
    let copies = there.copies();
    if copies >= MOST_COPIES {
        return Err(Refusal::new(StoreFault::TooManyCopies));
    }
    rows.put_row(def.oid, identity, body, copies + 1)?;
    Ok(())
}

/// A row comes whose identity is stored already: one more copy of it, in a bag.
fn add_again<S: Alter>(
    rows: &mut Rows<S>,
    def: &RelationDef,
    identity: &[u8],
    body: &[u8],
) -> Result<(), Refusal>
    ensures made { HasCleanDisk (state S.Store rows.new) →
        OnOk result (Adds S.Store rows.old rows.new def.now identity.now body.now) }
    ensures fault { HasCleanDisk (state S.Store rows.new) →
        IfErr result (λ fault. (cells : List Cell) → IsNewRow def.now cells identity.now body.now →
        Refuses S.Store rows.old def.now (with_row def.now cells) fault) }
    ensures goes { Goes S.Store rows.old rows.new }
{
    match rows.find_row(def.oid, identity)? {
        None => Err(Refusal::new(StoreFault::Refused)),
        Some(there) => add_copy(rows, def, identity, body, &there),
    }
}

/// A row comes, or one copy of it.
fn add_row<S: Alter>(
    rows: &mut Rows<S>,
    def: &RelationDef,
    identity: &[u8],
    body: &[u8],
) -> Result<(), Refusal>
    ensures made { HasCleanDisk (state S.Store rows.new) →
        OnOk result (Adds S.Store rows.old rows.new def.now identity.now body.now) }
    ensures fault { HasCleanDisk (state S.Store rows.new) →
        IfErr result (λ fault. (cells : List Cell) → IsNewRow def.now cells identity.now body.now →
        Refuses S.Store rows.old def.now (with_row def.now cells) fault) }
    ensures goes { Goes S.Store rows.old rows.new }
{
    if rows.add_row(def.oid, identity, body, 1)? {
        return Ok(());
    }
    add_again(rows, def, identity, body)
}

/// A row takes the place of the one that was found, in as many copies.
fn put_in_place<S: Alter>(
    rows: &mut Rows<S>,
    alloc: Global,
    oid: u32,
    identity: &[u8],
    there: &StoredRow,
    row: &TupleRef<'_>,
) -> Result<(), Refusal>
    ensures made { HasCleanDisk (state S.Store rows.new) →
        OnOk result (Makes S.Store (refilled_row oid identity.now there.now row.now) rows.old
        rows.new) }
    ensures tuple { IsWireTuple row.now }
    ensures fault { IfErr result IsOwnFault }
    ensures goes { Goes S.Store rows.old rows.new }
{
    let body = encode(alloc, row)?;
    rows.put_row(oid, identity, body.as_slice(), there.copies())?;
    Ok(())
}

/// A row replaces the one that was found: that one goes, or one copy of it, and the new one comes.
fn move_row<S: Alter>(
    rows: &mut Rows<S>,
    alloc: Global,
    def: &RelationDef,
    identity: &[u8],
    there: &StoredRow,
    row: &TupleRef<'_>,
) -> Result<(), Refusal>
    requires width { length row.now ≡ length def.now.columns }
    ensures made { HasCleanDisk (state S.Store rows.new) →
        OnOk result (Moves S.Store rows.old rows.new def.now identity.now there.now
        row.now) }
    ensures fault { HasCleanDisk (state S.Store rows.new) →
        IfErr result (RefusesToMove S.Store rows.old def.now identity.now there.now row.now) }
    ensures goes { Goes S.Store rows.old rows.new }
{
    let next = encode_identity(alloc, def, row)?;
    if next.as_slice() == identity {
        return put_in_place(rows, alloc, def.oid, identity, there, row);
    }
    let body = encode(alloc, row)?;
    take_row(rows, def.oid, identity, there)?;
    add_row(rows, def, next.as_slice(), body.as_slice())
}

/// A row, its missing cells filled in from the one that was found, replaces that one. Where it is
/// known to keep its place, its identity isn't encoded again.
fn replace_row<S: Alter>(
    rows: &mut Rows<S>,
    alloc: Global,
    def: &RelationDef,
    identity: &[u8],
    there: &StoredRow,
    row: &TupleRef<'_>,
    keeps_place: bool,
) -> Result<(), Refusal>
    requires width { length row.now ≡ length def.now.columns }
    requires place { keeps_place ≡ true → KeepsPlace def.now identity.now row.now }
    ensures made { HasCleanDisk (state S.Store rows.new) →
        OnOk result (Replaces S.Store rows.old rows.new def.now identity.now there.now
        row.now) }
    ensures fault { HasCleanDisk (state S.Store rows.new) →
        IfErr result (RefusesToReplace S.Store rows.old def.now identity.now there.now
        row.now) }
    ensures goes { Goes S.Store rows.old rows.new }
{
    let was = read_tuple(there.body())?;
    if was.width() != row.width() {
        return Err(Refusal::new(StoreFault::NotAStore));
    }
    let next = resolve(alloc, row, &was)?;
    if keeps_place {
        return put_in_place(rows, alloc, def.oid, identity, there, &next.borrowed());
    }
    move_row(rows, alloc, def, identity, there, &next.borrowed())
}

/// Whether the row of a keyed table was sent with no old row. Then its identity is the one that is
/// searched, whatever cells of it weren't sent.
#[tactic(auto, using(crate::proofs::Updating::searched_kept))]
fn keeps_place(def: &RelationDef, prior: &Option<(OldKind, TupleRef<'_>)>) -> bool
    ensures { result ≡ true → (row searched : List Cell) →
        searched_identity def.now prior.now (Some row) ≡ Ok searched →
        KeepsPlace def.now (tuple_spelling searched) row }
{
    prior.is_none() && keyed(def)
}

/// Whether a row of a keyed table was sent whole, and no old row with it. Then its identity is the
/// one that is searched, and nothing of the stored row has to be read.
#[tactic(auto, using(crate::proofs::Updating::searched_whole))]
fn stays_whole(
    def: &RelationDef,
    prior: &Option<(OldKind, TupleRef<'_>)>,
    row: &TupleRef<'_>,
) -> bool
    ensures { result ≡ true → (searched : List Cell) →
        searched_identity def.now prior.now (Some row.now) ≡ Ok searched →
        StaysWhole def.now (tuple_spelling searched) row.now }
{
    match prior {
        None => keyed(def) && !has_unchanged(row),
        Some(_) => false,
    }
}

/// A row that was sent whole replaces the one that has its identity, if one is stored. It returns
/// whether none is.
fn set_row<S: Alter>(
    rows: &mut Rows<S>,
    alloc: Global,
    oid: u32,
    identity: &[u8],
    row: &TupleRef<'_>,
) -> Result<bool, Refusal>
    ensures made { HasCleanDisk (state S.Store rows.new) →
        OnOk result (Makes S.Store (with_row_if_there oid identity.now
        (record { body = tuple_spelling row.now; copies = 1 })) rows.old rows.new) }
    ensures missed { HasCleanDisk (state S.Store rows.new) → IfOk result (λ missed.
        missed ≡ not (is_there oid identity.now (tables_of S.Store rows.old))) }
    ensures tuple { IsWireTuple row.now }
    ensures fault { IfErr result IsOwnFault }
    ensures goes { Goes S.Store rows.old rows.new }
{
    let body = encode(alloc, row)?;
    // A keyed row is stored once. Where none has the identity, an update does nothing.
    let was_there = rows.set_row(oid, identity, body.as_slice(), 1)?;
    Ok(!was_there)
}

/// An inserted row.
fn insert<S: Alter>(
    rows: &mut Rows<S>,
    alloc: Global,
    def: &RelationDef,
    row: &TupleRef<'_>,
) -> Result<(), Refusal>
    ensures made { HasCleanDisk (state S.Store rows.new) →
        OnOk result (Changes S.Store rows.old rows.new def.now
        (rows_after def.now (op.Insert row.now))) }
    ensures fault { HasCleanDisk (state S.Store rows.new) →
        IfErr result (Refuses S.Store rows.old def.now
        (rows_after def.now (op.Insert row.now))) }
    ensures goes { Goes S.Store rows.old rows.new }
{
    check_insert(def, row)?;
    let identity = encode_identity(alloc, def, row)?;
    let body = encode(alloc, row)?;
    add_row(rows, def, identity.as_slice(), body.as_slice())
}

/// An updated row, which was sent with its old key or its whole old row where that is needed. It
/// returns whether no row has the identity.
fn update<S: Alter>(
    rows: &mut Rows<S>,
    alloc: Global,
    def: &RelationDef,
    prior: &Option<(OldKind, TupleRef<'_>)>,
    row: &TupleRef<'_>,
) -> Result<bool, Refusal>
    ensures made { HasCleanDisk (state S.Store rows.new) →
        OnOk result (Changes S.Store rows.old rows.new def.now
        (rows_after def.now (op.Update prior.now row.now))) }
    ensures missed { HasCleanDisk (state S.Store rows.new) →
        IfOk result (TellsMissing S.Store rows.old def.now (op.Update prior.now row.now)) }
    ensures fault { HasCleanDisk (state S.Store rows.new) →
        IfErr result (Refuses S.Store rows.old def.now
        (rows_after def.now (op.Update prior.now row.now))) }
    ensures goes { Goes S.Store rows.old rows.new }
{
    let identity = encode_searched(alloc, def, reborrow_prior(prior), Some(row.reborrow()))?;
    let bytes = identity.as_slice();
    if stays_whole(def, prior, row) {
        return set_row(rows, alloc, def.oid, bytes, row);
    }
    match rows.find_row(def.oid, bytes)? {
        None => Ok(true),
        Some(there) => {
            let keeps_place = keeps_place(def, prior);
            replace_row(rows, alloc, def, bytes, &there, row, keeps_place)?;
            Ok(false)
        }
    }
}

/// A deleted row, of which the key or the whole row was sent. It returns whether no row has the
/// identity.
fn delete<S: Alter>(
    rows: &mut Rows<S>,
    alloc: Global,
    def: &RelationDef,
    kind: OldKind,
    row: &TupleRef<'_>,
) -> Result<bool, Refusal>
    ensures made { HasCleanDisk (state S.Store rows.new) →
        OnOk result (Changes S.Store rows.old rows.new def.now
        (rows_after def.now (op.Delete kind row.now))) }
    ensures missed { HasCleanDisk (state S.Store rows.new) →
        IfOk result (TellsMissing S.Store rows.old def.now (op.Delete kind row.now)) }
    ensures fault { HasCleanDisk (state S.Store rows.new) →
        IfErr result (Refuses S.Store rows.old def.now
        (rows_after def.now (op.Delete kind row.now))) }
    ensures goes { Goes S.Store rows.old rows.new }
{
    let identity = encode_searched(alloc, def, Some((kind, row.reborrow())), None)?;
    let bytes = identity.as_slice();
    if keyed(def) {
        // One copy is stored there at most.
        let was_there = rows.delete_row(def.oid, bytes)?;
        return Ok(!was_there);
    }
    match rows.find_row(def.oid, bytes)? {
        None => Ok(true),
        Some(there) => {
            take_row(rows, def.oid, bytes, &there)?;
            Ok(false)
        }
    }
}

/// A truncated table.
fn truncate<S: Alter>(rows: &mut Rows<S>, def: &RelationDef) -> Result<(), Refusal>
    ensures made { HasCleanDisk (state S.Store rows.new) →
        OnOk result (Changes S.Store rows.old rows.new def.now
        (rows_after def.now op.Truncate)) }
    ensures fault { HasCleanDisk (state S.Store rows.new) →
        IfErr result (Refuses S.Store rows.old def.now (rows_after def.now op.Truncate)) }
    ensures goes { Goes S.Store rows.old rows.new }
{
    rows.delete_rows(def.oid)?;
    Ok(())
}

/// What a change does to the rows of its relation, which has its definition already. It returns
/// whether it searches a row and finds none.
pub fn change_rows<S: Alter>(
    rows: &mut Rows<S>,
    alloc: Global,
    def: &RelationDef,
    op: &Op<'_>,
) -> Result<bool, Refusal>
    ensures made { HasCleanDisk (state S.Store rows.new) →
        OnOk result (Changes S.Store rows.old rows.new def.now
        (rows_after def.now op.now)) }
    ensures missed { HasCleanDisk (state S.Store rows.new) →
        IfOk result (TellsMissing S.Store rows.old def.now op.now) }
    ensures fault { HasCleanDisk (state S.Store rows.new) →
        IfErr result (Refuses S.Store rows.old def.now (rows_after def.now op.now)) }
    ensures goes { Goes S.Store rows.old rows.new }
{
    match op {
        Op::Insert { row } => {
            insert(rows, alloc, def, row)?;
            Ok(false)
        }
        Op::Update { prior, row } => update(rows, alloc, def, prior, row),
        Op::Delete { kind, row } => delete(rows, alloc, def, *kind, row),
        Op::Truncate => {
            truncate(rows, def)?;
            Ok(false)
        }
    }
}
