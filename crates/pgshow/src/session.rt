//! The lines of a session.
//!
//! PostgreSQL documentation, Streaming Replication Protocol, START_REPLICATION.

ghost use Rattle.std.specs.Prelude.{◌≡◌, ◌≢◌, ◌++◌, ◌≤◌, ℕ, List, None, Ok, Err, IfErr, IfOk, OnOk};
ghost use Rattle.std.specs.Prelude.{string_bytes};
ghost use Rattle.std.specs.List.{flat_map};
ghost use Rattle.pgwire.specs.declared.fault.WireFault.{WireFault};
ghost use Rattle.pgwire.specs.Deframed.{IsFed, Waits};
ghost use Rattle.pgshow.specs.Shown.{IsShownAs, fault_in};
ghost use Rattle.pgshow.specs.Steps.{RefusesFeed, RefusesWhole, ShowsPiece, ShowsWhole};
ghost use Rattle.pgshow.specs.Steps.{StopsInPiece};

use crate::fault::Fault;
use crate::frames::frame_line;
use pgorder::{Order, Version};
use pgtuple::Bytes;
use pgwire::Deframer;
use std::alloc::Global;

/// Takes bytes until a frame is complete or they are used up.
fn feed_frames(deframer: &mut Deframer, rest: &[u8]) -> Result<usize, Fault>
    ensures fed { IfOk result (λ n. IsFed deframer.old rest.now (Ok n) deframer.new) }
    ensures refused { IfErr result (RefusesFeed rest.now deframer.old deframer.new) }
{
    let count = deframer.feed(rest)?;
    Ok(count)
}

/// Appends the line of the complete frame, and forgets it.
fn show_whole(
    alloc: Global,
    deframer: &mut Deframer,
    order: &mut Order,
    lines: &mut String,
) -> Result<(), Fault>
    ensures shown { OnOk result (ShowsWhole deframer.old order.old
        (string_bytes lines.old) deframer.new order.new (string_bytes lines.new)) }
    ensures refused { IfErr result (RefusesWhole deframer.old order.old (string_bytes lines.old)
        (string_bytes lines.new)) }
{
    let Some(frame) = deframer.whole() else {
        return Ok(());
    };
    let line = frame_line(alloc, order, &frame)?;
    lines.push_str(line.as_str())?;
    deframer.release();
    Ok(())
}

/// Appends the lines of the frames that a piece completes.
fn show_piece(
    alloc: Global,
    deframer: &mut Deframer,
    order: &mut Order,
    piece: &[u8],
    lines: &mut String,
) -> Result<(), Fault>
    requires waits { Waits deframer.old }
    requires sound { deframer.old.fault ≡ None }
    ensures shown { OnOk result (ShowsPiece piece.now deframer.old order.old
        (string_bytes lines.old) deframer.new order.new (string_bytes lines.new)) }
    ensures refused { IfErr result (StopsInPiece piece.now deframer.old order.old
        (string_bytes lines.old) (string_bytes lines.new)) }
    ensures waits { OnOk result (Waits deframer.new × (deframer.new.fault ≡ None)) }
{
    let mut rest = piece;
    while !rest.is_empty() {
        let count = feed_frames(deframer, rest)?;
        rest = &rest[count..];
        show_whole(alloc, deframer, order, lines)?;
    }
    Ok(())
}

/// Appends the lines of a session's frames, a line for each. A frame at the end that isn't whole
/// has none.
///
/// # Errors
///
/// The first fault of the frames, the messages or their order. The lines of all frames before it
/// are appended then; after `Memory` those of some frames.
pub fn show_session(
    alloc: Global,
    version: Version,
    max_frame: u32,
    pieces: &[Bytes],
    lines: &mut String,
) -> Result<(), Fault>
    requires { max_frame ≤ 2147483643 }
    ensures { (text : List ℕ) × (string_bytes lines.new ≡ string_bytes lines.old ++ text)
        × IsShownAs version max_frame (flat_map (λ (piece : List ℕ). piece) pieces.now) text
        (fault_in result) }
{
    let mut deframer = Deframer::new(alloc, max_frame);
    let mut order = Order::new(alloc, version);
    for piece in pieces {
        show_piece(alloc, &mut deframer, &mut order, piece.as_slice(), lines)?;
    }
    Ok(())
}
