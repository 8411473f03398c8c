//! A frame with which a piece begins.

ghost use Rattle.std.specs.Prelude.{◌≡◌, ◌≤◌, ◌<◌, ◌+◌, ◌++◌, length, take, IfSome, MatchOption};
ghost use Rattle.std.specs.Int.{to_be_bytes, w32};
ghost use Rattle.pgwire.specs.Frames.{CopyData, IsAllowed, frame};

/// The first byte of CopyData.
const COPY_DATA_TAG: u8 = b'd';

/// The greatest length of a frame, an Int32. It counts four bytes of its own.
const MAX_LEN: u32 = 2_147_483_647;

/// How many bytes of a frame come before its payload.
pub const HEADER_LEN: usize = 5;

// The number of the first four bytes, big-endian, and the bytes behind them.
fn number(bytes: &[u8]) -> Option<(u32, &[u8])>
    ensures { MatchOption result (length bytes.now < 4)
        (λ it. bytes.now ≡ to_be_bytes w32 it.0 ++ it.1.now) }
{
    match bytes.split_first_chunk::<4>() {
        None => None,
        Some((first, others)) => Some((u32::from_be_bytes(*first), others)),
    }
}

/// The payload of the CopyData with which a piece begins, where that is whole and allowed. Else a
/// deframer tells what the piece begins with.
#[tactic(auto, using(crate::proofs::Fronts::front_is, crate::proofs::Fronts::front_short, crate::proofs::Fronts::payload_len))]
pub fn front_payload(piece: &[u8], max_frame: u32) -> Option<&[u8]>
    ensures allowed { IfSome result (λ p. IsAllowed max_frame (CopyData p.now)) }
    ensures front { IfSome result (λ p. take (length p.now + 5) piece.now
        ≡ frame (CopyData p.now)) }
    ensures bound { IfSome result (λ p. length p.now + 5 ≤ length piece.now) }
{
    let (tag, rest) = piece.split_first()?;
    let (len, rest) = number(rest)?;
    if *tag != COPY_DATA_TAG || len < 4 || max_frame < len - 4 || MAX_LEN < len {
        return None;
    }
    rest.get(..len as usize - 4)
}
