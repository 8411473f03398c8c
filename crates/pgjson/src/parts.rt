//! The parts of logical messages in JSON.
//!
//! PostgreSQL documentation, Logical Replication Message Formats.

ghost use Rattle.std.specs.Prelude.{◌≡◌, IfOk, option_map};
ghost use Rattle.serde_json.specs.Data.{number, string};
ghost use Rattle.serde_json.specs.View.{view};
ghost use Rattle.pglogical.specs.BorrowedColumns.{column_value};
ghost use Rattle.pgjson.specs.Messages.{bit, column_data, columns_data, letter_data, lsn_data};
ghost use Rattle.pgjson.specs.Messages.{old_data, oids_data, xid_data};

use crate::cells::cells_json;
use pglogical::{ColumnRef, ColumnRefs, OidRefs, OldKind};
use pglsn::Lsn;
use pgtuple::TupleRef;
use serde_json::Value;
use std::alloc::{AllocError, Global};

/// A flag as a number, 0 or 1.
pub(crate) fn flag(flag: bool) -> u8
    ensures { result ≡ bit flag }
{
    if flag { 1 } else { 0 }
}

/// A log sequence number as a string.
pub(crate) fn lsn_json(alloc: Global, lsn: Lsn) -> Result<Value, AllocError>
    ensures { IfOk result (λ value. view value ≡ lsn_data lsn) }
{
    Ok(Value::String(format!(in alloc; "{lsn}")?))
}

/// The xid of a message in a stream block, or null.
pub(crate) fn xid_json(xid: Option<u32>) -> Value
    ensures { view result ≡ xid_data xid }
{
    match xid {
        None => Value::Null,
        Some(xid) => Value::from(xid),
    }
}

/// A letter as a string of one character.
pub(crate) fn letter_json(alloc: Global, letter: u8) -> Result<Value, AllocError>
    ensures { IfOk result (λ value. view value ≡ letter_data letter) }
{
    let mut text = String::new(alloc);
    text.push(char::from(letter))?;
    Ok(Value::String(text))
}

fn column_json(alloc: Global, column: &ColumnRef<'_>) -> Result<Value, AllocError>
    ensures { IfOk result (λ value. view value ≡ column_data (column_value column.now)) }
{
    let name = Value::try_from_str(alloc, column.name)?;
    let (flag, oid) = (Value::from(flag(column.key)), Value::from(column.type_oid));
    Ok(Value::Array(vec![in alloc; flag, name, oid, Value::from(column.modifier)]?))
}

/// The columns of a relation, each as an array of its flag, name, type and modifier.
pub(crate) fn columns_json(alloc: Global, columns: &ColumnRefs<'_>) -> Result<Value, AllocError>
    ensures { IfOk result (λ value. view value ≡ columns_data columns.now) }
{
    let mut values = Vec::with_capacity(alloc, columns.len())?;
    for column in columns.reborrow() {
        values.push(column_json(alloc, &column)?)?;
    }
    Ok(Value::Array(values))
}

/// OIDs as an array.
pub(crate) fn oids_json(alloc: Global, oids: &OidRefs<'_>) -> Result<Value, AllocError>
    ensures { IfOk result (λ value. view value ≡ oids_data oids.now) }
{
    let mut values = Vec::with_capacity(alloc, oids.len())?;
    for oid in oids.reborrow() {
        values.push(Value::from(oid))?;
    }
    Ok(Value::Array(values))
}

/// An old tuple: `["K", cells]` for a key and `["O", cells]` for a whole row.
pub(crate) fn old_tuple_json(
    alloc: Global,
    kind: OldKind,
    row: &TupleRef<'_>,
) -> Result<Value, AllocError>
    ensures { IfOk result (λ value. view value ≡ old_data kind row.now) }
{
    let letter = match kind {
        OldKind::Key => "K",
        OldKind::Full => "O",
    };
    let letter = Value::try_from_str(alloc, letter)?;
    let cells = cells_json(alloc, row)?;
    Ok(Value::Array(vec![in alloc; letter, cells]?))
}
