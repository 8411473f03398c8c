//! The rows of `rel`, as the definitions that they store.

ghost use Rattle.std.specs.Prelude.{◌≡◌, IfOk, IfSome, string_bytes};
ghost use Rattle.sqlite.specs.declared.types.Value.TheVariants.{Blob, Text};
ghost use Rattle.sqlite_value.specs.Value.{owned};
ghost use Rattle.pgtables.specs.Kept.{rel_row};

use crate::held::number_in;
use crate::walk::TreeVisitor;
use pgtables::StoredDefinition;
use sqlite::types::{FromSql, FromSqlError};
use sqlite_trees::error::StoreError;
use sqlite_value::row::Row;
use sqlite_value::value::ValueRef;
use std::alloc::Global;

/// Takes the definitions that rows store, with their OIDs.
#[derive(Drop)]
pub(crate) struct Definitions {
    pub(crate) alloc: Global,
    pub(crate) all: Vec<(u32, StoredDefinition)>,
}

impl TreeVisitor for Definitions {
    ghost use Rattle.pgverify.specs.Seen.{AreRowsOf};

    ghost has_seen = { λ _ v rows. AreRowsOf rows v.all.items };

    fn visit(&mut self, entry: &Row) -> Result<bool, StoreError> {
        match read_row(self.alloc, entry)? {
            Some(one) => {
                self.all.push(one)?;
                Ok(true)
            }
            None => Ok(false),
        }
    }
}

/// The text that a value is, or `None` where it is none.
fn text_in(alloc: Global, value: ValueRef<'_>) -> Result<Option<String>, StoreError>
    ensures { IfOk result (λ found. IfSome found (λ text.
        owned value.entry ≡ Text (string_bytes text))) }
{
    match String::column_result(alloc, value) {
        Ok(text) => Ok(Some(text)),
        Err(FromSqlError::OutOfMemory) => Err(StoreError::OutOfMemory),
        Err(_) => Ok(None),
    }
}

/// The bytes that a value is, or `None` where it is none.
fn bytes_in(alloc: Global, value: ValueRef<'_>) -> Result<Option<Vec<u8>>, StoreError>
    ensures { IfOk result (λ found. IfSome found (λ bytes.
        owned value.entry ≡ Blob bytes.items)) }
{
    match <Vec<u8> as FromSql>::column_result(alloc, value) {
        Ok(bytes) => Ok(Some(bytes)),
        Err(FromSqlError::OutOfMemory) => Err(StoreError::OutOfMemory),
        Err(_) => Ok(None),
    }
}

/// The definition and its OID that a row of `rel` stores, or `None` where it stores none.
fn read_row(alloc: Global, row: &Row) -> Result<Option<(u32, StoredDefinition)>, StoreError>
    ensures { IfOk result (λ found. IfSome found (λ it. row.now ≡ rel_row it.0 it.1)) }
{
    if row.len() != 6 {
        return Ok(None);
    }
    let ValueRef::Null = row.get(1) else {
        return Ok(None);
    };
    let Some(oid) = number_in(alloc, row.get(0)) else {
        return Ok(None);
    };
    let Some(namespace) = text_in(alloc, row.get(2))? else {
        return Ok(None);
    };
    let Some(name) = text_in(alloc, row.get(3))? else {
        return Ok(None);
    };
    let Some(letter) = number_in(alloc, row.get(4)) else {
        return Ok(None);
    };
    let Some(columns) = bytes_in(alloc, row.get(5))? else {
        return Ok(None);
    };
    Ok(Some((oid, StoredDefinition::new(namespace, name, letter, columns))))
}
