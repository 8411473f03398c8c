//! The tables of a new store.

ghost use Rattle.std.specs.Prelude.{◌≡◌, false, IsTrue, OnOk, OnErr, IfErr};
ghost use Rattle.sqlite.specs.Held.{state};
ghost use Rattle.sqlite.specs.State.{HasCleanDisk, Survives};
ghost use Rattle.pgtables.specs.Schema.{no_schema, store_schema};
ghost use Rattle.pgtables.specs.Kept.{IfServing};
ghost use Rattle.pgapply.specs.Stored.{Stored, IsOwnFault};
ghost use Rattle.pgencoded.specs.DatabaseValue.{AreOf, HasMade, nothing_stored};

use pgencoded::Refusal;
use pgtables::{create_tables, see_committed};
use sqlite::{Alter, Connection};

/// Makes the tables where there are none yet, empty and with position 0/0, in one SQL transaction.
pub fn make_tables<S: Alter>(conn: &mut Connection<S>) -> Result<(), Refusal>
    requires settled { (state S.Store conn.old).in_transaction ≡ false }
    requires bare { IfServing S.Store conn.old ((state S.Store conn.old).now.schema ≡ no_schema) }
    ensures settled { (state S.Store conn.new).in_transaction ≡ false }
    ensures made { HasCleanDisk (state S.Store conn.new) → OnOk result (HasMade S.Store conn.new) }
    ensures was_open { HasCleanDisk (state S.Store conn.new) →
        OnOk result (IsTrue (state S.Store conn.old).is_open) }
    ensures unchanged { IfServing S.Store conn.new
        (OnErr result ((state S.Store conn.new).now ≡ (state S.Store conn.old).now)) }
    ensures fault { IfErr result IsOwnFault }
    ensures crash { Survives (state S.Store conn.old) (state S.Store conn.new)
        (AreOf nothing_stored) }
{
    see_committed(conn);
    let mut tx = conn.transaction();
    create_tables(&mut tx)?;
    tx.commit()?;
    Ok(())
}

/// Whatever value the trees that a connection sees have, its schema is that of a store: a catalog
/// lists one schema.
pub(crate) fn sees_schema<S: Alter>(conn: &Connection<S>)
    ensures { (v : Stored) → AreOf v (state S.Store conn.now).now.trees →
        IsTrue (state S.Store conn.now).is_open →
        (state S.Store conn.now).now.schema ≡ store_schema }
{
    let _schema = conn.schema();
}
