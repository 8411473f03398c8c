//! The status that a subscriber sends.

ghost use Rattle.std.specs.Prelude.{◌≡◌, ◌≤◌, ◌<◌, ◌+◌, ◌++◌, MatchResult, OnErr};
ghost use Rattle.std.specs.Int.{w64, to_be_bytes};
ghost use Rattle.pgwire.specs.Statuses.{status_frame};
ghost use Rattle.pgwire.specs.declared.fault.WireFault.TheVariants.{Memory};

use crate::WireFault;
use crate::frame::COPY_DATA_TAG;
use bytes::{BufMut, BytesMut};
use pglsn::Lsn;

/// A standby status update. Each LSN is that of the last byte of WAL and one.
///
/// PostgreSQL documentation, Streaming Replication Protocol, Standby status update.
#[derive(Clone, Copy, Debug, PartialEq, Eq)]
pub struct Status {
    /// Up to where the WAL was received and written.
    pub written: Lsn,
    /// Up to where it is on disk: the server may forget what lies below.
    pub flushed: Lsn,
    /// Up to where it was applied.
    pub applied: Lsn,
    /// The client's clock, in microseconds since 2000-01-01.
    pub clock: i64,
    /// Whether the server is to reply at once.
    pub ask: bool,
}

/// The first byte of a standby status update.
const STATUS_TAG: u8 = b'r';

// The frame's header, the first byte and the fields.
const FRAME_LEN: usize = 39;

/// Appends the CopyData frame of a status. Out of memory, which is the only error, leaves the
/// buffer as it was.
pub fn encode_status(status: &Status, out: &mut BytesMut) -> Result<(), WireFault>
    ensures appended { MatchResult result
        (λ _. out.new.items ≡ out.old.items ++ status_frame status.now)
        (λ fault. (fault ≡ Memory) × (out.new.items ≡ out.old.items)) }
    // Where there is room there is no error.
    ensures full { OnErr result (out.old.spare < 39) }
{
    if out.reserve(FRAME_LEN).is_err() {
        return Err(WireFault::Memory);
    }
    out.put_u8(COPY_DATA_TAG).unwrap();
    out.put_u32(38).unwrap();
    out.put_u8(STATUS_TAG).unwrap();
    put_lsn(out, status.written);
    put_lsn(out, status.flushed);
    put_lsn(out, status.applied);
    out.put_i64(status.clock).unwrap();
    out.put_u8(u8::from(status.ask)).unwrap();
    Ok(())
}

// Appends an LSN where there is room for it.
fn put_lsn(out: &mut BytesMut, lsn: Lsn)
    requires { 8 ≤ out.old.spare }
    ensures items { out.new.items ≡ out.old.items ++ to_be_bytes w64 lsn }
    ensures spare { out.old.spare ≤ out.new.spare + 8 }
{
    out.put_u64(lsn.0).unwrap();
}
