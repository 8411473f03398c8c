//! The header of a frame, as far as it has come.

ghost use Rattle.std.specs.Prelude.{◌≡◌, ◌≤◌, ◌<◌, ℕ, false, length, slice_index, MatchResult};
ghost use Rattle.pgwire.specs.Frames.{IsFramingFault, HasPayloadLen};

use crate::WireFault;
use crate::frame::{COPY_DATA_TAG, COPY_DONE_TAG, HEADER_LEN, payload_len};
use byteorder::{BigEndian, ByteOrder};

/// The first `len` bytes of a header.
#[derive(Clone, Copy)]
pub struct Header {
    /// The header's bytes; those after `len` mean nothing.
    pub bytes: [u8; 5],
    /// How many of them have come, at most 5.
    pub len: usize,
    ghost within: { len ≤ 5 },
    ghost five: { length bytes ≡ 5 },
    ghost bytes_fit: { (i : ℕ) → slice_index bytes i < 256 },
}

impl Header {
    ghost use Rattle.pgwire.specs.Held.{come, IsHeaderWith};

    /// Nothing of a header.
    pub fn new() -> Header
        ensures { result.len ≡ 0 }
    {
        Header {
            bytes: [0; 5],
            len: 0,
        }
    }

    /// The header with what the piece's front adds to it.
    pub fn with(self, piece: &[u8]) -> Header
        ensures { IsHeaderWith self piece.now result }
    {
        if self.len == HEADER_LEN {
            return self;
        }
        match piece.first_chunk::<HEADER_LEN>() {
            // Most headers lie in one piece.
            Some(bytes) if self.len == 0 => Header {
                bytes: *bytes,
                len: HEADER_LEN,
            },
            _ => self.with_some(piece),
        }
    }

    // The same for a header that comes in parts.
    fn with_some(self, piece: &[u8]) -> Header
        ensures { IsHeaderWith self piece.now result }
    {
        let count = (HEADER_LEN - self.len).min(piece.len());
        let len = self.len + count;
        let mut bytes = self.bytes;
        bytes[self.len..len].copy_from_slice(&piece[..count]);
        Header { bytes, len }
    }

    /// How many bytes of payload follow: 0 while the header isn't whole.
    pub fn payload_len(&self, max_frame: u32) -> Result<usize, WireFault>
        ensures { MatchResult result (λ n. HasPayloadLen max_frame (come self.now) n)
            (λ fault. IsFramingFault max_frame false (come self.now) fault) }
    {
        if self.len == 0 {
            return Ok(0);
        }
        let tag = self.bytes[0];
        if tag != COPY_DATA_TAG && tag != COPY_DONE_TAG {
            return Err(WireFault::UnknownFrame(tag));
        }
        if self.len < HEADER_LEN {
            return Ok(0);
        }
        payload_len(tag, BigEndian::read_u32(&self.bytes[1..]), max_frame)
    }
}
