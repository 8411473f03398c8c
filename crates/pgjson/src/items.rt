//! Relations and changes in JSON.
//!
//! PostgreSQL documentation, Logical Replication Message Formats, Relation, Insert, Update, Delete,
//! Truncate.

ghost use Rattle.std.specs.Prelude.{◌≡◌, Option, IfOk};
ghost use Rattle.serde_json.specs.View.{view};
ghost use Rattle.pglogical.specs.BorrowedItems.{def_value, item_value};
ghost use Rattle.pgjson.specs.Messages.{delete_data, insert_data, item_data, prior_data};
ghost use Rattle.pgjson.specs.Messages.{relation_data, truncate_data, update_data};

use crate::cells::cells_json;
use crate::parts::{columns_json, letter_json, oids_json, old_tuple_json, xid_json};
use pglogical::{DefRef, ItemParts, OidRefs, OldKind};
use pgtuple::TupleRef;
use serde_json::Value;
use std::alloc::{AllocError, Global};

fn relation_json(alloc: Global, xid: Option<u32>, def: &DefRef<'_>) -> Result<Value, AllocError>
    ensures { IfOk result (λ value. view value ≡ relation_data xid (def_value def.now)) }
{
    let tag = Value::try_from_str(alloc, "Relation")?;
    let namespace = Value::try_from_str(alloc, def.namespace)?;
    let name = Value::try_from_str(alloc, def.name)?;
    let letter = letter_json(alloc, def.letter)?;
    let columns = columns_json(alloc, &def.columns)?;
    let (xid, oid) = (xid_json(xid), Value::from(def.oid));
    Ok(Value::Array(vec![in alloc; tag, xid, oid, namespace, name, letter, columns]?))
}

/// The old tuple of an update, or null.
fn prior_json(alloc: Global, prior: &Option<(OldKind, TupleRef<'_>)>) -> Result<Value, AllocError>
    ensures { IfOk result (λ value. view value ≡ prior_data prior.now) }
{
    match prior {
        None => Ok(Value::Null),
        Some((kind, row)) => old_tuple_json(alloc, *kind, row),
    }
}

fn insert_json(
    alloc: Global,
    xid: Option<u32>,
    oid: u32,
    row: &TupleRef<'_>,
) -> Result<Value, AllocError>
    ensures { IfOk result (λ value. view value ≡ insert_data xid oid row.now) }
{
    let tag = Value::try_from_str(alloc, "Insert")?;
    let cells = cells_json(alloc, row)?;
    Ok(Value::Array(vec![in alloc; tag, xid_json(xid), Value::from(oid), cells]?))
}

fn update_json(
    alloc: Global,
    xid: Option<u32>,
    oid: u32,
    prior: &Option<(OldKind, TupleRef<'_>)>,
    row: &TupleRef<'_>,
) -> Result<Value, AllocError>
    ensures { IfOk result (λ value. view value ≡ update_data xid oid prior.now row.now) }
{
    let tag = Value::try_from_str(alloc, "Update")?;
    let old = prior_json(alloc, prior)?;
    let cells = cells_json(alloc, row)?;
    Ok(Value::Array(vec![in alloc; tag, xid_json(xid), Value::from(oid), old, cells]?))
}

fn delete_json(
    alloc: Global,
    xid: Option<u32>,
    oid: u32,
    kind: OldKind,
    row: &TupleRef<'_>,
) -> Result<Value, AllocError>
    ensures { IfOk result (λ value. view value ≡ delete_data xid oid kind row.now) }
{
    let tag = Value::try_from_str(alloc, "Delete")?;
    let old = old_tuple_json(alloc, kind, row)?;
    Ok(Value::Array(vec![in alloc; tag, xid_json(xid), Value::from(oid), old]?))
}

fn truncate_json(
    alloc: Global,
    xid: Option<u32>,
    options: u8,
    oids: &OidRefs<'_>,
) -> Result<Value, AllocError>
    ensures { IfOk result (λ value. view value ≡ truncate_data xid options oids.now) }
{
    let tag = Value::try_from_str(alloc, "Truncate")?;
    let oids = oids_json(alloc, oids)?;
    Ok(Value::Array(vec![in alloc; tag, xid_json(xid), Value::from(options), oids]?))
}

/// A relation or a change in JSON, with the xid of its message.
pub(crate) fn item_json(
    alloc: Global,
    xid: Option<u32>,
    item: &ItemParts<'_>,
) -> Result<Value, AllocError>
    ensures { IfOk result (λ value. view value ≡ item_data xid (item_value item.now)) }
{
    match item {
        ItemParts::Relation(def) => relation_json(alloc, xid, def),
        ItemParts::Insert { oid, row } => insert_json(alloc, xid, *oid, row),
        ItemParts::Update { oid, prior, row } => update_json(alloc, xid, *oid, prior, row),
        ItemParts::Delete { oid, kind, row } => delete_json(alloc, xid, *oid, *kind, row),
        ItemParts::Truncate { options, oids } => truncate_json(alloc, xid, *options, oids),
    }
}
