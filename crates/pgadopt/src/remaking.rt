//! The tables of a store made again, where some of them were dropped or none has a row yet.

ghost use Rattle.std.specs.Prelude.{◌≡◌, false, IsTrue, OnOk, OnErr, IfErr};
ghost use Rattle.sqlite.specs.Held.{state};
ghost use Rattle.sqlite.specs.State.{HasCleanDisk, Survives};
ghost use Rattle.pgtables.specs.Kept.{Goes, IfServing, InTransaction, Makes};
ghost use Rattle.pgtables.specs.Remains.{AreOurs, IsOver};
ghost use Rattle.pgapply.specs.Stored.{IsOwnFault};
ghost use Rattle.pgadopt.specs.Adopted.{HasRemade, IsRemade, LeavesRemade, with_definitions};

use pgencoded::Refusal;
use pglsn::Lsn;
use pgtables::{
    StoredDefinition, create_tables, drop_remains, put_definition, put_position, see_committed,
};
use sqlite::{Alter, Connection, Error, Transaction};

/// Puts the definitions, one after another.
fn put_definitions<S: Alter>(
    tx: &mut Transaction<'_, S>,
    definitions: &[(u32, StoredDefinition)],
) -> Result<(), Error>
    requires { InTransaction S.Store tx.old.conn.now }
    ensures same_reference { tx.new.conn.ghost_name ≡ tx.old.conn.ghost_name }
    ensures made { OnOk result (IfServing S.Store tx.new.conn.now
        (Makes S.Store (with_definitions definitions.now) tx.old.conn.now tx.new.conn.now)) }
    ensures goes { Goes S.Store tx.old.conn.now tx.new.conn.now }
{
    for (oid, definition) in definitions {
        put_definition(
            tx,
            *oid,
            definition.namespace(),
            definition.name(),
            definition.letter(),
            definition.columns(),
        )?;
    }
    Ok(())
}

/// Makes the three tables in place of those that are there, with these definitions, without rows,
/// and with this position.
fn make_again<S: Alter>(
    tx: &mut Transaction<'_, S>,
    definitions: &[(u32, StoredDefinition)],
    position: Lsn,
) -> Result<(), Error>
    requires { IfServing S.Store tx.old.conn.now (IsOver S.Store tx.old.conn.now) }
    ensures same_reference { tx.new.conn.ghost_name ≡ tx.old.conn.ghost_name }
    ensures made { HasCleanDisk (state S.Store tx.new.conn.now) →
        OnOk result (IsRemade S.Store definitions.now position tx.new.conn.now) }
    ensures was_open { HasCleanDisk (state S.Store tx.new.conn.now) →
        OnOk result (IsTrue (state S.Store tx.old.conn.now).is_open) }
    ensures goes { Goes S.Store tx.old.conn.now tx.new.conn.now }
{
    drop_remains(tx)?;
    create_tables(tx)?;
    put_definitions(tx, definitions)?;
    put_position(tx, &position.0.to_be_bytes())
}

/// Makes the three tables in place of those of a store that are there, with these definitions,
/// without rows, and with this position, in one SQL transaction.
pub(crate) fn remake_tables<S: Alter>(
    conn: &mut Connection<S>,
    definitions: &[(u32, StoredDefinition)],
    position: Lsn,
) -> Result<(), Refusal>
    requires settled { (state S.Store conn.old).in_transaction ≡ false }
    requires ours { IfServing S.Store conn.old (AreOurs (state S.Store conn.old).now.schema) }
    ensures settled { (state S.Store conn.new).in_transaction ≡ false }
    ensures made { HasCleanDisk (state S.Store conn.new) →
        OnOk result (HasRemade S.Store definitions.now position conn.old conn.new) }
    ensures unchanged { IfServing S.Store conn.new
        (OnErr result (IsTrue (state S.Store conn.old).is_open
        × ((state S.Store conn.new).now ≡ (state S.Store conn.old).now))) }
    ensures fault { IfErr result IsOwnFault }
    ensures crash { Survives (state S.Store conn.old) (state S.Store conn.new)
        (LeavesRemade S.Store definitions.now position conn.old) }
{
    see_committed(conn);
    let mut tx = conn.transaction();
    make_again(&mut tx, definitions, position)?;
    tx.commit()?;
    Ok(())
}
