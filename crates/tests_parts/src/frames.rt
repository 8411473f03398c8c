ghost use Rattle.std.specs.Prelude.{◌+◌, ◌≤◌};
ghost use Rattle.pgwire.specs.Frames.{max_length};

use pgwire::{Deframer, Frame, WireFault};
use std::process::Abort;

/// Lengths of the chunks in which a stream is fed.
static STEPS: [usize; 9] = [1, 2, 3, 4, 5, 6, 7, 64, 1000];

/// The lengths of the payloads of two frames.
static LENGTHS: [usize; 2] = [39, 64];

/// The bytes of the payloads.
static SEVENS: [u8; 64] = [7; 64];

/// Whether this is the frame at the place.
fn is_met(place: usize, frame: Frame<'_>) -> bool {
    match (frame, LENGTHS.get(place)) {
        (Frame::Data(payload), Some(length)) => SEVENS.get(..*length) == Some(payload),
        _ => false,
    }
}

/// Feeds one chunk, and meets each frame as it is released. Where memory ran out the rest is fed
/// again, so many times.
fn feed(
    rt: &impl Abort,
    deframer: &mut Deframer,
    piece: &[u8],
    met: &mut usize,
    retries: &mut usize,
) -> bool {
    let mut taken = 0;
    for _ in 0..10000 {
        match deframer.feed(piece.get(taken..).unwrap_or(&[])) {
            Ok(n) => {
                taken = taken.saturating_add(n);
                let Some(frame) = deframer.whole() else {
                    return true;
                };
                assert!(rt; is_met(*met, frame));
                *met = met.saturating_add(1);
                deframer.release();
            }
            Err(WireFault::Memory) if *retries > 0 => {
                assert!(rt; deframer.whole().is_none());
                *retries = retries.saturating_sub(1);
            }
            Err(_) => return false,
        }
    }
    false
}

/// Whether the bytes, in chunks of `step` bytes, are both frames. Memory may run out once.
fn are_read(rt: &impl Abort, deframer: &mut Deframer, bytes: &[u8], step: usize) -> bool {
    let (mut met, mut retries) = (0, 1);
    for piece in bytes.chunks(step.max(1)) {
        if !feed(rt, deframer, piece, &mut met, &mut retries) {
            return false;
        }
    }
    met == LENGTHS.len()
}

// The payloads grow in many steps.
#[test]
fn refused_memory_changes_nothing(rt: HostRuntime) {
    let mut bytes = [7u8; 113];
    bytes[..5].copy_from_slice(&[b'd', 0, 0, 0, 43]);
    bytes[44..49].copy_from_slice(&[b'd', 0, 0, 0, 68]);
    for &step in &STEPS {
        let mut deframer = Deframer::new(rt.alloc(), 64);
        assert!(rt; are_read(&rt, &mut deframer, &bytes, step), "by {step}");
    }
}
