//! The lines of a session.

ghost use Rattle.pgembed.specs.Shown.{Shows};
ghost use Rattle.std.specs.Prelude.{string_bytes};

use crate::subscribing::MAX_FRAME;
use pgorder::Version;
use pgshow::{Fault, show_session};
use pgtuple::Bytes;
use std::alloc::Global;

/// Appends the lines that `pgsub show` prints of the frames of a session, whose bytes these are. A
/// frame at the end that isn't whole has none.
///
/// # Errors
///
/// The first fault of the frames, the messages or their order. The lines of all frames before it
/// are appended then; after `Memory` those of some frames.
#[tactic(auto, using(crate::proofs::Memory::shows_nothing))]
pub fn show(
    alloc: Global,
    version: Version,
    session: &[u8],
    lines: &mut String,
) -> Result<(), Fault>
    ensures { Shows version session.now (string_bytes lines.old) (string_bytes lines.new) result }
{
    let bytes = Bytes::from_vec(session.to_vec(alloc)?);
    show_session(alloc, version, MAX_FRAME, &[bytes], lines)
}
