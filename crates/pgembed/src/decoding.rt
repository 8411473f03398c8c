//! The line of a server message.
//!
//! PostgreSQL documentation, Streaming Replication Protocol, XLogData and Primary keepalive
//! message; Logical Replication Message Formats.

ghost use Rattle.std.specs.Prelude.{IfOk, IfErr, string_bytes};
ghost use Rattle.pgembed.specs.Decoded.{IsLineOf, IsLineOfBody, IsRefused, IsRefusedBody};

use pgjson::{data_line, keepalive_line};
use pglogical::decode_ref;
use pglsn::Lsn;
use pgshow::Fault;
use pgwire::{ServerMsg, decode_server};
use std::alloc::Global;

/// The line of XLogData.
fn xlog_line(
    alloc: Global,
    start: Lsn,
    end: Lsn,
    clock: i64,
    body: &[u8],
    in_block: bool,
) -> Result<String, Fault>
    ensures line { IfOk result (λ line.
        IsLineOfBody in_block start end clock body.now (string_bytes line)) }
    ensures refused { IfErr result (IsRefusedBody in_block body.now) }
{
    let message = match decode_ref(body, in_block) {
        Ok(message) => message,
        Err(fault) => return Err(Fault::Decode(fault)),
    };
    let line = data_line(alloc, start, end, clock, &message)?;
    Ok(line)
}

/// The line that `pgsub show` prints of the frame with this payload of CopyData, with its line
/// feed. `in_block` says whether the message comes between Stream Start and Stream Stop: a change,
/// Type or Message begins with its xid there.
///
/// # Errors
///
/// The fault of the payload, or of the logical message in it. Whether the message may come here
/// isn't looked at, which depends on those before it; `show` does.
pub fn decode(alloc: Global, payload: &[u8], in_block: bool) -> Result<String, Fault>
    ensures line { IfOk result (λ line. IsLineOf in_block payload.now (string_bytes line)) }
    ensures refused { IfErr result (IsRefused in_block payload.now) }
{
    let message = match decode_server(payload) {
        Ok(message) => message,
        Err(fault) => return Err(Fault::Wire(fault)),
    };
    match &message {
        ServerMsg::Data {
            start,
            end,
            clock,
            body,
        } => xlog_line(alloc, *start, *end, *clock, body, in_block),
        ServerMsg::Keepalive { end, clock, reply } => {
            let line = keepalive_line(alloc, *end, *clock, *reply)?;
            Ok(line)
        }
    }
}
