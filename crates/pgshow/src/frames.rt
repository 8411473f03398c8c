//! The line of one frame.
//!
//! PostgreSQL documentation, Streaming Replication Protocol; Logical Streaming Replication
//! Protocol.

ghost use Rattle.std.specs.Prelude.{IfErr, IfOk, string_bytes};
ghost use Rattle.pglogical.specs.Borrowed.{message_value};
ghost use Rattle.pgwire.specs.Frames.{CopyData};
ghost use Rattle.pgwire.specs.Borrowed.{frame_value};
ghost use Rattle.pgshow.specs.Steps.{RefusesBody, RefusesFrame, RefusesPayload, TakesBody};
ghost use Rattle.pgshow.specs.Steps.{TakesData, TakesFrame};

use crate::fault::Fault;
use pgjson::{data_line, done_line, keepalive_line};
use pglogical::{MessageRef, decode_ref};
use pglsn::Lsn;
use pgorder::Order;
use pgwire::{Frame, ServerMsg, decode_server};
use std::alloc::Global;

/// The logical message of a body, if it may come next.
fn next_message<'b>(order: &mut Order, body: &'b [u8]) -> Result<MessageRef<'b>, Fault>
    ensures taken { IfOk result (λ message. TakesBody body.now
        (message_value message) order.old order.new) }
    ensures refused { IfErr result (RefusesBody body.now order.old) }
{
    let message = match decode_ref(body, order.in_block()) {
        Ok(message) => message,
        Err(fault) => return Err(Fault::Decode(fault)),
    };
    order.step(&message)?;
    Ok(message)
}

/// The line of XLogData.
fn xlog_line(
    alloc: Global,
    order: &mut Order,
    start: Lsn,
    end: Lsn,
    clock: i64,
    body: &[u8],
) -> Result<String, Fault>
    ensures taken { IfOk result (λ line. TakesData start end clock body.now
        (string_bytes line) order.old order.new) }
    ensures refused { IfErr result (RefusesBody body.now order.old) }
{
    let message = next_message(order, body)?;
    let line = data_line(alloc, start, end, clock, &message)?;
    Ok(line)
}

/// The line of CopyData with this payload.
fn payload_line(alloc: Global, order: &mut Order, payload: &[u8]) -> Result<String, Fault>
    ensures taken { IfOk result (λ line. TakesFrame (CopyData payload.now)
        (string_bytes line) order.old order.new) }
    ensures refused { IfErr result (RefusesPayload payload.now order.old) }
{
    let message = match decode_server(payload) {
        Ok(message) => message,
        Err(fault) => return Err(Fault::Wire(fault)),
    };
    match &message {
        ServerMsg::Data {
            start,
            end,
            clock,
            body,
        } => xlog_line(alloc, order, *start, *end, *clock, body),
        ServerMsg::Keepalive { end, clock, reply } => {
            let line = keepalive_line(alloc, *end, *clock, *reply)?;
            Ok(line)
        }
    }
}

/// The line of a frame.
pub(crate) fn frame_line(
    alloc: Global,
    order: &mut Order,
    frame: &Frame<'_>,
) -> Result<String, Fault>
    ensures taken { IfOk result (λ line. TakesFrame (frame_value frame.now)
        (string_bytes line) order.old order.new) }
    ensures refused { IfErr result (RefusesFrame (frame_value frame.now) order.old) }
{
    match frame {
        Frame::Data(payload) => payload_line(alloc, order, payload),
        Frame::Done => {
            let line = done_line(alloc)?;
            Ok(line)
        }
    }
}
