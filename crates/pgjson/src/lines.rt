//! A line for each frame of a session.
//!
//! PostgreSQL documentation, Streaming Replication Protocol, XLogData and Primary keepalive
//! message; Message Formats, CopyDone.

ghost use Rattle.std.specs.Prelude.{◌≡◌, IfOk, false, string_bytes};
ghost use Rattle.serde_json.specs.Written.{compact_text, has_float};
ghost use Rattle.serde_json.specs.View.{view};
ghost use Rattle.pglogical.specs.Borrowed.{message_value};
ghost use Rattle.pgjson.specs.Lines.{data_data, keepalive_data, done_data, line};

use crate::messages::message_json;
use crate::parts::{flag, lsn_json};
use pglogical::MessageRef;
use pglsn::Lsn;
use serde_json::Value;
use std::alloc::{AllocError, Global};

/// The compact text of a value, and a line feed.
pub(crate) fn line_of(alloc: Global, value: &Value) -> Result<String, AllocError>
    ensures { IfOk result (λ text. has_float (view value.now) ≡ false →
        string_bytes text ≡ line (view value.now)) }
{
    let mut text = value.to_string(alloc)?;
    text.push('\n')?;
    Ok(text)
}

fn data_json(
    alloc: Global,
    start: Lsn,
    end: Lsn,
    clock: i64,
    message: &MessageRef<'_>,
) -> Result<Value, AllocError>
    ensures { IfOk result (λ value. view value
        ≡ data_data start end clock (message_value message.now)) }
{
    let tag = Value::try_from_str(alloc, "data")?;
    let start = lsn_json(alloc, start)?;
    let end = lsn_json(alloc, end)?;
    let message = message_json(alloc, message)?;
    Ok(Value::Array(vec![in alloc; tag, start, end, Value::from(clock), message]?))
}

fn keepalive_json(alloc: Global, end: Lsn, clock: i64, reply: bool) -> Result<Value, AllocError>
    ensures { IfOk result (λ value. view value ≡ keepalive_data end clock reply) }
{
    let tag = Value::try_from_str(alloc, "keepalive")?;
    let end = lsn_json(alloc, end)?;
    let reply = Value::from(flag(reply));
    Ok(Value::Array(vec![in alloc; tag, end, Value::from(clock), reply]?))
}

fn done_json(alloc: Global) -> Result<Value, AllocError>
    ensures { IfOk result (λ value. view value ≡ done_data) }
{
    let tag = Value::try_from_str(alloc, "done")?;
    Ok(Value::Array(vec![in alloc; tag]?))
}

/// The line of XLogData, with the logical message in it.
pub fn data_line(
    alloc: Global,
    start: Lsn,
    end: Lsn,
    clock: i64,
    message: &MessageRef<'_>,
) -> Result<String, AllocError>
    ensures { IfOk result (λ text. string_bytes text
        ≡ line (data_data start end clock (message_value message.now))) }
{
    let value = data_json(alloc, start, end, clock, message)?;
    line_of(alloc, &value)
}

/// The line of a keepalive.
pub fn keepalive_line(
    alloc: Global,
    end: Lsn,
    clock: i64,
    reply: bool,
) -> Result<String, AllocError>
    ensures { IfOk result (λ text. string_bytes text ≡ line (keepalive_data end clock reply)) }
{
    let value = keepalive_json(alloc, end, clock, reply)?;
    line_of(alloc, &value)
}

/// The line of CopyDone.
pub fn done_line(alloc: Global) -> Result<String, AllocError>
    ensures { IfOk result (λ text. string_bytes text ≡ line done_data) }
{
    let value = done_json(alloc)?;
    line_of(alloc, &value)
}
