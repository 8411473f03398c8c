//! Logical messages in JSON.
//!
//! PostgreSQL documentation, Logical Replication Message Formats.

ghost use Rattle.std.specs.Prelude.{◌≡◌, IfOk};
ghost use Rattle.serde_json.specs.View.{view};
ghost use Rattle.pglogical.specs.Borrowed.{message_value};
ghost use Rattle.pgjson.specs.Messages.{begin_data, commit_data, logical_data, message_data};
ghost use Rattle.pgjson.specs.Messages.{origin_data, stream_abort_data, stream_commit_data};
ghost use Rattle.pgjson.specs.Messages.{stream_start_data, stream_stop_data, type_data};

use crate::cells::bytes_json;
use crate::items::item_json;
use crate::parts::{flag, lsn_json, xid_json};
use pglogical::MessageRef;
use pglsn::Lsn;
use serde_json::Value;
use std::alloc::{AllocError, Global};

fn begin_json(alloc: Global, lsn: Lsn, time: i64, xid: u32) -> Result<Value, AllocError>
    ensures { IfOk result (λ value. view value ≡ begin_data lsn time xid) }
{
    let tag = Value::try_from_str(alloc, "Begin")?;
    let lsn = lsn_json(alloc, lsn)?;
    Ok(Value::Array(vec![in alloc; tag, lsn, Value::from(time), Value::from(xid)]?))
}

fn commit_json(alloc: Global, lsn: Lsn, end: Lsn, time: i64) -> Result<Value, AllocError>
    ensures { IfOk result (λ value. view value ≡ commit_data lsn end time) }
{
    let tag = Value::try_from_str(alloc, "Commit")?;
    let lsn = lsn_json(alloc, lsn)?;
    let end = lsn_json(alloc, end)?;
    Ok(Value::Array(vec![in alloc; tag, lsn, end, Value::from(time)]?))
}

fn origin_json(alloc: Global, lsn: Lsn, name: &str) -> Result<Value, AllocError>
    ensures { IfOk result (λ value. view value ≡ origin_data lsn name.now) }
{
    let tag = Value::try_from_str(alloc, "Origin")?;
    let lsn = lsn_json(alloc, lsn)?;
    let name = Value::try_from_str(alloc, name)?;
    Ok(Value::Array(vec![in alloc; tag, lsn, name]?))
}

fn type_json(
    alloc: Global,
    xid: Option<u32>,
    oid: u32,
    namespace: &str,
    name: &str,
) -> Result<Value, AllocError>
    ensures { IfOk result (λ value. view value ≡ type_data xid oid namespace.now name.now) }
{
    let tag = Value::try_from_str(alloc, "Type")?;
    let namespace = Value::try_from_str(alloc, namespace)?;
    let name = Value::try_from_str(alloc, name)?;
    Ok(Value::Array(vec![in alloc; tag, xid_json(xid), Value::from(oid), namespace, name]?))
}

fn logical_json(
    alloc: Global,
    xid: Option<u32>,
    transactional: bool,
    lsn: Lsn,
    prefix: &str,
    content: &[u8],
) -> Result<Value, AllocError>
    ensures { IfOk result (λ value. view value
        ≡ logical_data xid transactional lsn prefix.now content.now) }
{
    let tag = Value::try_from_str(alloc, "Message")?;
    let lsn = lsn_json(alloc, lsn)?;
    let prefix = Value::try_from_str(alloc, prefix)?;
    let content = bytes_json(alloc, content)?;
    let (xid, flag) = (xid_json(xid), Value::from(flag(transactional)));
    Ok(Value::Array(vec![in alloc; tag, xid, flag, lsn, prefix, content]?))
}

fn stream_start_json(alloc: Global, xid: u32, first: bool) -> Result<Value, AllocError>
    ensures { IfOk result (λ value. view value ≡ stream_start_data xid first) }
{
    let tag = Value::try_from_str(alloc, "StreamStart")?;
    Ok(Value::Array(vec![in alloc; tag, Value::from(xid), Value::from(flag(first))]?))
}

fn stream_stop_json(alloc: Global) -> Result<Value, AllocError>
    ensures { IfOk result (λ value. view value ≡ stream_stop_data) }
{
    let tag = Value::try_from_str(alloc, "StreamStop")?;
    Ok(Value::Array(vec![in alloc; tag]?))
}

fn stream_abort_json(alloc: Global, xid: u32, subxid: u32) -> Result<Value, AllocError>
    ensures { IfOk result (λ value. view value ≡ stream_abort_data xid subxid) }
{
    let tag = Value::try_from_str(alloc, "StreamAbort")?;
    Ok(Value::Array(vec![in alloc; tag, Value::from(xid), Value::from(subxid)]?))
}

fn stream_commit_json(
    alloc: Global,
    xid: u32,
    lsn: Lsn,
    end: Lsn,
    time: i64,
) -> Result<Value, AllocError>
    ensures { IfOk result (λ value. view value ≡ stream_commit_data xid lsn end time) }
{
    let tag = Value::try_from_str(alloc, "StreamCommit")?;
    let lsn = lsn_json(alloc, lsn)?;
    let end = lsn_json(alloc, end)?;
    Ok(Value::Array(vec![in alloc; tag, Value::from(xid), lsn, end, Value::from(time)]?))
}

/// A logical message in JSON: an array of its name and its fields.
pub fn message_json(alloc: Global, message: &MessageRef<'_>) -> Result<Value, AllocError>
    ensures { IfOk result (λ value. view value ≡ message_data (message_value message.now)) }
{
    match message {
        MessageRef::Begin {
            final_lsn,
            commit_time,
            xid,
        } => begin_json(alloc, *final_lsn, *commit_time, *xid),
        MessageRef::Commit {
            commit_lsn,
            end_lsn,
            commit_time,
        } => commit_json(alloc, *commit_lsn, *end_lsn, *commit_time),
        MessageRef::Origin { commit_lsn, name } => origin_json(alloc, *commit_lsn, name),
        MessageRef::TypeName {
            xid,
            oid,
            namespace,
            name,
        } => type_json(alloc, *xid, *oid, namespace, name),
        MessageRef::Logical {
            xid,
            transactional,
            lsn,
            prefix,
            content,
        } => logical_json(alloc, *xid, *transactional, *lsn, prefix, content),
        MessageRef::Item { xid, item } => item_json(alloc, *xid, &item.parts()),
        MessageRef::StreamStart { xid, first_segment } => {
            stream_start_json(alloc, *xid, *first_segment)
        }
        MessageRef::StreamStop => stream_stop_json(alloc),
        MessageRef::StreamCommit {
            xid,
            commit_lsn,
            end_lsn,
            commit_time,
        } => stream_commit_json(alloc, *xid, *commit_lsn, *end_lsn, *commit_time),
        MessageRef::StreamAbort { xid, subxid } => stream_abort_json(alloc, *xid, *subxid),
    }
}
