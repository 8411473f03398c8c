//! A store's tables in the trees of a database, read below SQL, one row at a time.

ghost use Rattle.std.specs.Prelude.{◌≡◌, false, IfOk, IfErr, IfSome, OnOk};
ghost use Rattle.sqlite.specs.ExecCalls.{OnlyReads};
ghost use Rattle.sqlite.specs.View.{IsClean, IsQuiet};
ghost use Rattle.pgapply.specs.Stored.{IsOwnFault};
ghost use Rattle.pgadopt.specs.Adopted.{Definitions};
ghost use Rattle.pgadopt.specs.Outlined.{AreOutlined, AreStore};

use crate::adopting::{KnownRows, read_book};
use pgencoded::Refusal;
use pglsn::Lsn;
use pgrel::Book;
use pgverify::{check_rows, lists_store, read_definitions, read_position};
use sqlite::Alter;
use std::alloc::Global;

/// What is read of a store before its rows: its definitions, and its position.
#[derive(Drop)]
pub(crate) struct Outline {
    pub(crate) definitions: Book,
    pub(crate) position: Lsn,
}

/// The definitions and the position of the store in the trees, or `None` where they aren't listed
/// as the tables of one, or don't hold these. No row is read. Nothing changes.
fn read_outline<S: Alter>(store: &mut S, alloc: Global) -> Result<Option<Outline>, Refusal>
    ensures found { IsClean (S.Store.view store.new) → IfOk result (λ found. IfSome found
        (λ it. AreOutlined (S.Store.view store.old) it.definitions it.position)) }
    ensures same { OnOk result (IsClean (S.Store.view store.new) →
        OnlyReads (S.Store.view store.old) (S.Store.view store.new)) }
    ensures quiet { IsQuiet S.Store.view S.Store.faults S.Store.recovers S.Store.is_shielded
        store.old store.new }
    ensures err { IfErr result IsOwnFault }
{
    if !lists_store(store, alloc)? {
        return Ok(None);
    }
    let Some(found) = read_definitions(store, alloc)? else {
        return Ok(None);
    };
    let Ok(definitions) = read_book(alloc, found.as_slice()) else {
        return Ok(None);
    };
    let Some(position) = read_position(store, alloc)? else {
        return Ok(None);
    };
    Ok(Some(Outline {
        definitions,
        position: Lsn(position),
    }))
}

/// The position of the store in the trees, or `None` where they aren't those of a whole one. Each
/// row is read once and checked, in memory for the definitions and one row. Nothing changes.
pub fn read_store<S: Alter>(store: &mut S, alloc: Global) -> Result<Option<Lsn>, Refusal>
    ensures found { IsClean (S.Store.view store.new) → IfOk result (λ found. IfSome found
        (λ position. ((S.Store.view store.old).is_broken ≡ false)
        × AreStore (S.Store.view store.old).trees position)) }
    ensures same { OnOk result (IsClean (S.Store.view store.new) →
        OnlyReads (S.Store.view store.old) (S.Store.view store.new)) }
    ensures quiet { IsQuiet S.Store.view S.Store.faults S.Store.recovers S.Store.is_shielded
        store.old store.new }
    ensures err { IfErr result IsOwnFault }
{
    let Some(outline) = read_outline(store, alloc)? else {
        return Ok(None);
    };
    let rows = KnownRows {
        alloc,
        definitions: &outline.definitions,
    };
    if !check_rows(store, alloc, &rows)? {
        return Ok(None);
    }
    Ok(Some(outline.position))
}

/// The position of the store in the trees, or `None` where they aren't listed as the tables of one
/// or its definitions or its position don't decode. No row is read. Nothing changes.
pub fn read_trusted<S: Alter>(store: &mut S, alloc: Global) -> Result<Option<Lsn>, Refusal>
    ensures found { IsClean (S.Store.view store.new) → IfOk result (λ found. IfSome found
        (λ position. (known : Definitions)
        × AreOutlined (S.Store.view store.old) known position)) }
    ensures same { OnOk result (IsClean (S.Store.view store.new) →
        OnlyReads (S.Store.view store.old) (S.Store.view store.new)) }
    ensures quiet { IsQuiet S.Store.view S.Store.faults S.Store.recovers S.Store.is_shielded
        store.old store.new }
    ensures err { IfErr result IsOwnFault }
{
    let Some(outline) = read_outline(store, alloc)? else {
        return Ok(None);
    };
    Ok(Some(outline.position))
}
