//! The frames of a session, and the lengths of their payloads.

ghost use Rattle.std.specs.Prelude.{◌≡◌, ◌+◌, ◌≤◌, ◌<◌, ◌⊎◌, MatchResult};
ghost use Rattle.pgwire.specs.Frames.{IsTag, BreaksLength, copy_data_tag, copy_done_tag};
ghost use Rattle.pgwire.specs.Frames.{max_length};
ghost use Rattle.pgwire.specs.declared.fault.WireFault.TheVariants.{BadLength, TooLarge};

use crate::WireFault;

/// A frame of a session: CopyData with its payload, or CopyDone.
#[derive(Clone, Copy, Debug, PartialEq, Eq)]
pub enum Frame<'a> {
    /// CopyData: the bytes after the header.
    Data(&'a [u8]),
    /// CopyDone, the last frame.
    Done,
}

/// The first byte of a CopyData frame.
pub const COPY_DATA_TAG: u8 = b'd';

/// The first byte of a CopyDone frame.
pub const COPY_DONE_TAG: u8 = b'c';

/// The bytes of a frame's header: its first byte and its length.
pub const HEADER_LEN: usize = 5;

// The greatest length that the four bytes of a header tell, an Int32.
const MAX_LENGTH: u32 = 2147483647;

/// How many bytes of payload follow a header with this first byte and this length.
pub fn payload_len(tag: u8, length: u32, max_frame: u32) -> Result<usize, WireFault>
    requires { IsTag tag }
    ensures { MatchResult result
        (λ n. (n + 4 ≡ length) × (n ≤ max_frame) × (length ≤ max_length)
        × (tag ≡ copy_done_tag → n ≡ 0))
        (λ fault. ((fault ≡ BadLength) × BreaksLength tag length)
        ⊎ ((fault ≡ TooLarge) × (tag ≡ copy_data_tag) × (max_frame + 4 < length)
        × (length ≤ max_length))) }
{
    if length < 4 || length > MAX_LENGTH || (tag == COPY_DONE_TAG && length != 4) {
        return Err(WireFault::BadLength);
    }
    let payload_len = length - 4;
    if payload_len > max_frame {
        return Err(WireFault::TooLarge);
    }
    Ok(payload_len as usize)
}
