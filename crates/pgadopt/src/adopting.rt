//! What is stored in an opened connection's database, taken over where a store may have written it.
//!
//! PostgreSQL documentation, Logical Replication Message Formats, Relation and TupleData; ALTER
//! TABLE, REPLICA IDENTITY.

ghost use Rattle.std.specs.Prelude.{◌≡◌, ◌≤◌, true, false, IsTrue, IsUtf8, OnOk, OnErr, IfOk};
ghost use Rattle.std.specs.Prelude.{IfErr, T};
ghost use Rattle.std.specs.Ordering.{nat_cmp};
ghost use Rattle.std.specs.FinMap.{is_sorted};
ghost use Rattle.sqlite.specs.Held.{state};
ghost use Rattle.sqlite.specs.State.{HasCleanDisk, Survives};
ghost use Rattle.sqlite.specs.View.{doubt};
ghost use Rattle.pglogical.specs.Spelling.{IsLetter, IsText};
ghost use Rattle.pgtables.specs.Kept.{IfServing};
ghost use Rattle.pgtables.specs.Remains.{schema_of};
ghost use Rattle.pgencoded.specs.SqlFault.{IsRefusal};
ghost use Rattle.pgencoded.specs.DatabaseValue.{LeavesAdopted};
ghost use Rattle.pgadopt.specs.Adopted.{AreDefinitionsOf, AreRead, Founds, IsDefinitionOf};
ghost use Rattle.pgadopt.specs.Adopted.{IsRowOf, is_whole};

use crate::opening::sees_schema;
use crate::remaking::remake_tables;
use pgapply::StoreFault;
use pgencoded::{MOST_COPIES, Refusal, encode_identity, read_columns};
use pglogical::RelationDef;
use pglsn::Lsn;
use pgrel::{Book, check_insert, keyed};
use pgtables::{
    FoundPosition, Remains, RowCheck, StoredDefinition, check_remaining_rows, find_remains,
    read_remaining_definitions, read_remaining_position,
};
use pgtuple::{Text, decode_ref};
use sqlite::{Alter, Connection, Error, ErrorCode};
use std::alloc::Global;

/// A stored name as a text. One with a zero byte was never received.
fn read_name(alloc: Global, name: &str) -> Result<Text, Refusal>
    ensures ok { IfOk result (λ text. (text ≡ name.now) × IsText text × IsUtf8 text) }
    ensures err { IfErr result IsRefusal }
{
    if name.as_bytes().contains(&0) {
        return Err(Refusal::new(StoreFault::NotAStore));
    }
    Ok(Text::from_string(String::from_str(alloc, name)?))
}

/// A stored replica identity as its letter.
fn read_letter(stored: u32) -> Result<u8, Refusal>
    ensures ok { IfOk result (λ letter. (letter ≡ stored) × IsLetter letter) }
    ensures err { IfErr result IsRefusal }
{
    match u8::try_from(stored) {
        Ok(letter) if matches!(letter, b'd' | b'n' | b'f' | b'i') => Ok(letter),
        _ => Err(Refusal::new(StoreFault::NotAStore)),
    }
}

/// A stored definition, under its OID.
fn read_definition(
    alloc: Global,
    oid: u32,
    stored: &StoredDefinition,
) -> Result<RelationDef, Refusal>
    ensures ok { IfOk result (IsDefinitionOf oid stored.now) }
    ensures err { IfErr result IsRefusal }
{
    Ok(RelationDef {
        oid,
        namespace: read_name(alloc, stored.namespace())?,
        name: read_name(alloc, stored.name())?,
        letter: read_letter(stored.letter())?,
        columns: read_columns(alloc, stored.columns())?,
    })
}

/// The stored definitions, which are given by rising OID.
pub(crate) fn read_book(alloc: Global, stored: &[(u32, StoredDefinition)]) -> Result<Book, Refusal>
    ensures ok { IfOk result (λ book. T (is_sorted nat_cmp stored.now) →
        AreDefinitionsOf stored.now book) }
    ensures err { IfErr result IsRefusal }
{
    let mut book = Book::new(alloc);
    for (oid, definition) in stored {
        book.set(read_definition(alloc, *oid, definition)?)?;
    }
    Ok(book)
}

/// Whether the bytes of a row are one of the relation, under the identity that it has there.
fn is_row(
    alloc: Global,
    def: &RelationDef,
    ident: &[u8],
    body: &[u8],
    copies: u32,
) -> Result<bool, Refusal>
    ensures row { IfOk result (λ is. is ≡ true →
        IsRowOf def.now ident.now (record { body = body.now; copies = copies })) }
{
    let Ok((row, len)) = decode_ref(body) else {
        return Ok(false);
    };
    if len != body.len() || check_insert(def, &row).is_err() {
        return Ok(false);
    }
    let most = if keyed(def) { 1 } else { MOST_COPIES };
    if copies == 0 || copies > most {
        return Ok(false);
    }
    Ok(encode_identity(alloc, def, &row)?.as_slice() == ident)
}

/// Checks the stored rows against the definitions.
#[derive(Clone, Copy)]
pub(crate) struct KnownRows<'a> {
    pub(crate) alloc: Global,
    pub(crate) definitions: &'a Book,
}

impl RowCheck for KnownRows<'_> {
    ghost use Rattle.pgadopt.specs.Adopted.{IsKnownRow};

    ghost accepts = { λ check oid ident kept. IsKnownRow check.definitions.now oid ident kept };

    fn check(&self, oid: u32, ident: &[u8], body: &[u8], copies: u32) -> Result<bool, Error> {
        let Ok(def) = self.definitions.get(oid) else {
            return Ok(false);
        };
        is_row(self.alloc, def, ident, body, copies).map_err(|_| Error::SqliteFailure(
            ErrorCode::OutOfMemory,
        ))
    }
}

/// The definitions of those of a store's tables that are there, and the position, or `None` where
/// nothing is stored yet. Each row is read once and checked. Nothing changes.
fn read_tables<S: Alter>(
    conn: &mut Connection<S>,
    left: Remains,
    alloc: Global,
) -> Result<(Vec<(u32, StoredDefinition)>, Option<Lsn>), Refusal>
    requires settled { (state S.Store conn.old).in_transaction ≡ false }
    requires remains { IfServing S.Store conn.old
        ((state S.Store conn.old).now.schema ≡ schema_of left) }
    ensures settled { (state S.Store conn.new).in_transaction ≡ false }
    ensures clean { doubt (state S.Store conn.old).is_clean ≤ doubt
        (state S.Store conn.new).is_clean }
    ensures serving { HasCleanDisk (state S.Store conn.new) → IsTrue left.has_position →
        OnOk result (IsTrue (state S.Store conn.new).is_open) }
    ensures unchanged { IfServing S.Store conn.new
        (IsTrue (state S.Store conn.old).is_open
        × ((state S.Store conn.new).now ≡ (state S.Store conn.old).now)) }
    ensures found { IfServing S.Store conn.new
        (IfOk result (λ it. AreRead left (state S.Store conn.old).now.trees it.0.items it.1)) }
    ensures crash { Survives (state S.Store conn.old) (state S.Store conn.new) (λ _. ⊥) }
    ensures err { IfErr result IsRefusal }
{
    let Some(definitions) = read_remaining_definitions(conn, left, alloc)? else {
        return Err(Refusal::new(StoreFault::NotAStore));
    };
    let book = read_book(alloc, definitions.as_slice())?;
    let rows = KnownRows {
        alloc,
        definitions: &book,
    };
    if !check_remaining_rows(conn, left, &rows)? {
        return Err(Refusal::new(StoreFault::NotAStore));
    }
    match read_remaining_position(conn, left)? {
        FoundPosition::At(position) => Ok((definitions, Some(Lsn(position)))),
        FoundPosition::Missing if definitions.is_empty() => Ok((definitions, None)),
        _ => Err(Refusal::new(StoreFault::NotAStore)),
    }
}

/// Whether all three tables are there.
fn is_whole(left: Remains) -> bool
    ensures { result ≡ is_whole left }
{
    left.has_definitions && (left.has_rows && left.has_position)
}

/// The position of the tables of a connection. Tables that aren't there are made, and tables in
/// which nothing is stored yet get position 0/0.
pub fn adopt_tables<S: Alter>(conn: &mut Connection<S>, alloc: Global) -> Result<Lsn, Refusal>
    ensures settled { OnOk result ((state S.Store conn.new).in_transaction ≡ false) }
    ensures founds { HasCleanDisk (state S.Store conn.new) →
        IfOk result (Founds S.Store conn.old conn.new) }
    ensures unchanged { IfServing S.Store conn.new
        (OnErr result ((state S.Store conn.old).in_transaction ≡ false →
        (state S.Store conn.new).now ≡ (state S.Store conn.old).now)) }
    ensures crash { Survives (state S.Store conn.old) (state S.Store conn.new)
        (LeavesAdopted S.Store conn.old) }
    ensures err { IfErr result IsRefusal }
{
    if !conn.is_autocommit() {
        return Err(Refusal::new(StoreFault::Refused));
    }
    let Some(left) = find_remains(conn) else {
        return Err(Refusal::new(StoreFault::NotAStore));
    };
    sees_schema(conn);
    let (definitions, found) = read_tables(conn, left, alloc)?;
    let position = found.unwrap_or(Lsn(0));
    if found.is_some() && is_whole(left) {
        return Ok(position);
    }
    remake_tables(conn, definitions.as_slice(), position)?;
    Ok(position)
}
