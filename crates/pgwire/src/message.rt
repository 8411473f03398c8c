//! The payloads of CopyData that a server sends.

ghost use Rattle.std.specs.Prelude.{◌≡◌, MatchResult, IfOk, IfErr, IsOkAnd, IsErrOf, Ok, Err};
ghost use Rattle.pgwire.specs.Payloads.{ServerMessage, payload, data_at, keepalive_at};
ghost use Rattle.pgwire.specs.Payloads.{IsServerMessage, HasPayloadFault};
ghost use Rattle.pgwire.specs.declared.fault.WireFault.{WireFault};
ghost use Rattle.pgwire.specs.Borrowed.{message_value, Gives};

use crate::WireFault;
use byteorder::{BigEndian, ByteOrder};
use pglsn::Lsn;

/// The first byte of XLogData.
const XLOG_DATA_TAG: u8 = b'w';

/// The first byte of a primary keepalive.
const KEEPALIVE_TAG: u8 = b'k';

/// A message of a server, as a part of its payload.
#[derive(Clone, Copy, Debug, PartialEq, Eq)]
pub enum ServerMsg<'a> {
    /// XLogData: where the data starts, the current end of WAL, the server's clock in microseconds
    /// since 2000-01-01, and the data.
    Data {
        start: Lsn,
        end: Lsn,
        clock: i64,
        body: &'a [u8],
    },
    /// A primary keepalive: the end of WAL, the server's clock, and whether it asks for a reply as
    /// soon as possible.
    Keepalive {
        end: Lsn,
        clock: i64,
        reply: bool,
    },
}

/// The message that a payload encodes, or the first fault: a keepalive's length is looked at before
/// its reply byte.
pub fn decode_server(bytes: &[u8]) -> Result<ServerMsg<'_>, WireFault>
    ensures gives { Gives result bytes.now }
    // What is read is encoded so.
    ensures found { IfOk result (λ m. IsServerMessage (message_value m)
        × (bytes.now ≡ payload (message_value m))) }
    // What is encoded so is read.
    ensures only { (m : ServerMessage) → IsServerMessage m → bytes.now ≡ payload m →
        IsOkAnd result (λ x. message_value x ≡ m) }
    // Which fault it is.
    ensures first { IfErr result (λ fault. HasPayloadFault bytes.now fault) }
    ensures refused { (fault : WireFault) → HasPayloadFault bytes.now fault → IsErrOf result fault }
{
    read(bytes)
}

fn read(bytes: &[u8]) -> Result<ServerMsg<'_>, WireFault>
    ensures { Gives result bytes.now }
{
    match bytes {
        [] => Err(WireFault::Short),
        [XLOG_DATA_TAG, fields @ ..] => decode_data(fields),
        [KEEPALIVE_TAG, fields @ ..] => decode_keepalive(fields),
        [tag, ..] => Err(WireFault::UnknownServerMessage(*tag)),
    }
}

fn decode_data(fields: &[u8]) -> Result<ServerMsg<'_>, WireFault>
    ensures { MatchResult result (λ m. data_at fields.now ≡ Ok (message_value m))
        (λ fault. data_at fields.now ≡ Err fault) }
{
    if fields.len() < 24 {
        return Err(WireFault::Short);
    }
    Ok(ServerMsg::Data {
        start: Lsn(BigEndian::read_u64(fields)),
        end: Lsn(BigEndian::read_u64(&fields[8..])),
        clock: BigEndian::read_i64(&fields[16..]),
        body: &fields[24..],
    })
}

fn decode_keepalive(fields: &[u8]) -> Result<ServerMsg<'_>, WireFault>
    ensures { MatchResult result (λ m. keepalive_at fields.now ≡ Ok (message_value m))
        (λ fault. keepalive_at fields.now ≡ Err fault) }
{
    if fields.len() < 17 {
        return Err(WireFault::Short);
    }
    if fields.len() > 17 {
        return Err(WireFault::Trailing);
    }
    if fields[16] > 1 {
        return Err(WireFault::BadReplyByte);
    }
    Ok(ServerMsg::Keepalive {
        end: Lsn(BigEndian::read_u64(fields)),
        clock: BigEndian::read_i64(&fields[8..]),
        reply: fields[16] == 1,
    })
}
