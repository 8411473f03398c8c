//! Rows whose relation comes with another shape, and which keep their identities: each is
//! rewritten in its place, so that a table of any size takes the memory of one row.
//!
//! PostgreSQL documentation, Logical Replication Message Formats, Relation.

ghost use Rattle.std.specs.Prelude.{◌≡◌, OnOk, IfErr};
ghost use Rattle.sqlite.specs.State.{HasCleanDisk};
ghost use Rattle.pglogical.specs.Spelling.{IsDefinition};
ghost use Rattle.pgrel.specs.Carried.{places};
ghost use Rattle.pgrows.specs.Rows.{state};
ghost use Rattle.pgapply.specs.Value.{Row};
ghost use Rattle.pgapply.specs.Stored.{IsOwnFault};
ghost use Rattle.pgencoded.specs.Acts.{Goes};
ghost use Rattle.pgreshaping.specs.Carries.{IsKeptRow};
ghost use Rattle.pgreshaping.specs.Rewrites.{RefusesToRewrite, RewritesAll, RewritesOne};

use pgapply::StoreFault;
use pgencoded::{Refusal, encode, read_tuple};
use pglogical::RelationDef;
use pgrel::Carrying;
use pgrows::Rows;
use pgtables::StoredRow;
use sqlite::Alter;
use std::alloc::Global;

/// One row gets the cells that it has under the new definition. One that no store writes is
/// `NotAStore`.
fn rewrite_row<S: Alter>(
    rows: &mut Rows<S>,
    alloc: Global,
    old: &RelationDef,
    def: &RelationDef,
    carrying: &Carrying,
    ident: &[u8],
    kept: &StoredRow,
) -> Result<(), Refusal>
    requires { carrying.now ≡ places old.now.columns def.now.columns }
    ensures made { HasCleanDisk (state S.Store rows.new) → OnOk result
        (RewritesOne S.Store rows.old rows.new old.now def.now ident.now kept.now) }
    ensures fault { (row : Row) → IsKeptRow old.now row kept.now → IfErr result IsOwnFault }
    ensures goes { Goes S.Store rows.old rows.new }
{
    let was = read_tuple(kept.body())?;
    if was.width() != old.columns.len() {
        return Err(Refusal::new(StoreFault::NotAStore));
    }
    let next = carrying.carry(alloc, &was)?;
    let row = next.borrowed();
    let body = encode(alloc, &row)?;
    rows.put_row(def.oid, ident, body.as_slice(), kept.copies())?;
    Ok(())
}

/// The rows of the relation, one after the other, in the order of their identities.
pub(crate) fn rewrite_rows<S: Alter>(
    rows: &mut Rows<S>,
    alloc: Global,
    old: &RelationDef,
    def: &RelationDef,
) -> Result<(), Refusal>
    requires { IsDefinition def.now }
    ensures made { HasCleanDisk (state S.Store rows.new) → OnOk result
        (RewritesAll S.Store rows.old rows.new old.now def.now) }
    ensures fault { HasCleanDisk (state S.Store rows.new) →
        IfErr result (RefusesToRewrite S.Store rows.old old.now def.now) }
    ensures goes { Goes S.Store rows.old rows.new }
{
    let carrying = Carrying::new(alloc, old, def)?;
    let mut from = Vec::new(alloc);
    for _ in 0..u64::MAX {
        let Some((ident, kept)) = rows.next_row(alloc, def.oid, from.as_slice())? else {
            return Ok(());
        };
        rewrite_row(rows, alloc, old, def, &carrying, ident.as_slice(), &kept)?;
        // No identity is between this one and the same with a zero byte behind it.
        from = ident;
        from.push(0)?;
    }
    // No file holds so many rows.
    Err(Refusal::new(StoreFault::Refused))
}
