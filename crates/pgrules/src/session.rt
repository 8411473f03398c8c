//! A session under a watch.
//!
//! PostgreSQL documentation, Streaming Replication Protocol, START_REPLICATION.

ghost use Rattle.std.specs.Prelude.{◌≡◌, ◌≤◌, ℕ, List, IfOk};
ghost use Rattle.std.specs.List.{flat_map};
ghost use Rattle.pgrules.specs.Watching.{IsFound};

use crate::findings::{End, Findings};
use crate::hearing::hear_frame;
use crate::seen::Seen;
use pglsn::Lsn;
use pgorder::Version;
use pgtuple::Bytes;
use pgwatch::Watch;
use pgwire::Deframer;
use std::alloc::{AllocError, Global};

/// All bytes of the pieces of a session.
pub fn joined(alloc: Global, pieces: &[Bytes]) -> Result<Vec<u8>, AllocError>
    ensures { IfOk result (λ bytes. bytes.items
        ≡ flat_map (λ (piece : List ℕ). piece) pieces.now) }
{
    let mut bytes = Vec::new(alloc);
    for piece in pieces {
        bytes.extend_from_slice(piece.as_slice())?;
    }
    Ok(bytes)
}

/// Watches a session with these bytes, and tells what it finds. Of a server's messages it holds at
/// most `limit` relations, open transactions and items of these.
///
/// A recording doesn't tell where its sessions start: the watch is one over a session that starts
/// at 0/0.
pub fn watch_session(
    alloc: Global,
    version: Version,
    max_frame: u32,
    limit: u64,
    bytes: &[u8],
) -> Findings
    requires { max_frame ≤ 2147483643 }
    ensures found { IsFound version max_frame limit bytes.now result }
{
    let mut deframer = Deframer::new(alloc, max_frame);
    let mut watch = Watch::new(alloc, version, Lsn(0), limit);
    let mut seen = Seen::nothing();
    let mut rest = bytes;
    while !rest.is_empty() {
        let at = (bytes.len() - rest.len()) as u64;
        let count = match deframer.feed(rest) {
            Ok(count) => count,
            Err(fault) => {
                let end = End::Unframed { at, fault };
                return Findings { seen, end };
            }
        };
        let Some(frame) = deframer.whole() else {
            let end = End::Whole;
            return Findings { seen, end };
        };
        if let Err(end) = hear_frame(&mut watch, &mut seen, at, &frame) {
            return Findings { seen, end };
        }
        deframer.release();
        rest = &rest[count..];
    }
    let end = End::Whole;
    Findings { seen, end }
}
